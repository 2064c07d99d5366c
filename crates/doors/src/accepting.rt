//! Those who come are given the free places.
ghost use Rattle.std.specs.Prelude.{◌≡◌, ◌<◌, ◌⊎◌, ℕ, None, Some, true, false, IfOk, OnOk, Contains, length, slice_get};
ghost use Rattle.doors.specs.Rounds.{Given, OnlyAt, AreNoted, AreTaken};
ghost use Rattle.doors.specs.Spans.{HaveCome};

use crate::doorway::{Accepted, Doorway};
use crate::hall::Hall;
use logical_time::Fault;
use readiness::ReadyLine;

// Accepts one for a free place, if one may wait. False where none is accepted.
fn accept_at<L: ReadyLine + Drop, D: Doorway<L>>(
    door: &mut D,
    hall: &mut Hall<L>,
    more: &mut bool,
    place: usize,
) -> Result<bool, Fault>
    requires { slice_get hall.old.places.places.items place ≡ Some None }
    ensures comes { (k : ℕ) → Given (slice_get hall.old.places.places.items k) (slice_get hall.new.places.places.items k) }
    ensures come { HaveCome L.seen D.steps door.old hall.old.places.places.items door.new hall.new.places.places.items }
    ensures others { (k : ℕ) → (place ≡ k → ⊥) → slice_get hall.new.places.places.items k ≡ slice_get hall.old.places.places.items k }
    ensures noted { hall.new.free ≡ hall.old.free }
    ensures fresh { hall.new.fresh.items ≡ hall.old.fresh.items }
    ensures known { (more.old ≡ false → D.nobody door.old) → more.new ≡ false → D.nobody door.new }
    ensures taken { IfOk result (λ given. given ≡ true → slice_get hall.new.places.places.items place ≡ Some None → ⊥) }
    ensures why { IfOk result (λ given. given ≡ false → (more.old ≡ false → D.nobody door.old) → D.nobody door.new ⊎ D.refuses door.new) }
{
    if !*more {
        return Ok(false);
    }
    match door.accept(place) {
        Accepted::Line(line) => {
            hall.admit(place, line);
            Ok(true)
        }
        Accepted::Nobody => {
            *more = false;
            Ok(false)
        }
        Accepted::Lost => {
            hall.lose(place)?;
            Ok(false)
        }
        Accepted::Failed => Ok(false),
    }
}

// Accepts one for the next free place, if there is one. False where none is accepted.
fn accept_one<L: ReadyLine + Drop, D: Doorway<L>>(
    door: &mut D,
    hall: &mut Hall<L>,
    more: &mut bool,
) -> Result<bool, Fault>
    ensures comes { (k : ℕ) → Given (slice_get hall.old.places.places.items k) (slice_get hall.new.places.places.items k) }
    ensures come { HaveCome L.seen D.steps door.old hall.old.places.places.items door.new hall.new.places.places.items }
    ensures noted { OnOk result (AreNoted hall.old.places.places.items hall.old.free.items → AreNoted hall.new.places.places.items hall.new.free.items) }
    ensures known { (more.old ≡ false → D.nobody door.old) → more.new ≡ false → D.nobody door.new }
    ensures told { OnlyAt hall.new.fresh.items hall.old.places.places.items hall.new.places.places.items }
    ensures kept { (k : ℕ) → Contains hall.old.fresh.items k → Contains hall.new.fresh.items k }
    ensures fewer { IfOk result (λ went. went ≡ true → length hall.new.free.items < length hall.old.free.items) }
    ensures why { IfOk result (λ went. went ≡ false → AreNoted hall.old.places.places.items hall.old.free.items → (more.old ≡ false → D.nobody door.old) → AreTaken hall.new.places.places.items ⊎ (D.nobody door.new ⊎ D.refuses door.new)) }
{
    let Some(place) = hall.free.pop() else {
        return Ok(false);
    };
    if !hall.places.is_free(place) {
        return Ok(true);
    }
    hall.fresh.push(place)?;
    if accept_at(door, hall, more, place)? {
        return Ok(true);
    }
    hall.free.push(place)?;
    Ok(false)
}

/// Accepts those who wait, as far as places are free.
pub(crate) fn accept_all<L: ReadyLine + Drop, D: Doorway<L>>(
    door: &mut D,
    hall: &mut Hall<L>,
    more: &mut bool,
) -> Result<(), Fault>
    ensures comes { (k : ℕ) → Given (slice_get hall.old.places.places.items k) (slice_get hall.new.places.places.items k) }
    ensures come { HaveCome L.seen D.steps door.old hall.old.places.places.items door.new hall.new.places.places.items }
    ensures noted { OnOk result (AreNoted hall.old.places.places.items hall.old.free.items → AreNoted hall.new.places.places.items hall.new.free.items) }
    ensures known { (more.old ≡ false → D.nobody door.old) → more.new ≡ false → D.nobody door.new }
    ensures told { OnlyAt hall.new.fresh.items hall.old.places.places.items hall.new.places.places.items }
    ensures why { OnOk result (AreNoted hall.old.places.places.items hall.old.free.items → (more.old ≡ false → D.nobody door.old) → AreTaken hall.new.places.places.items ⊎ (D.nobody door.new ⊎ D.refuses door.new)) }
{
    while accept_one(door, hall, more)? {}
    Ok(())
}
