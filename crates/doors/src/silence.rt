//! Since when those at places are silent, and who of them leaves.
ghost use Rattle.std.specs.Prelude.{◌≡◌, ◌++◌, ◌⊎◌, ℕ, [], true, false, None, Some, Contains, IfSome, OnOk, slice_get};
ghost use Rattle.readiness.specs.declared.connection.Connection.{Connection};
ghost use Rattle.readiness.specs.Kept.{view};
ghost use Rattle.readiness.specs.Turns.{IsAnswered};
ghost use Rattle.doors.specs.Rounds.{AreNoted};
ghost use Rattle.doors.specs.Silence.{AreMarked, HasRested, IsSentAway};

use crate::hall::Hall;
use readiness::{Places, ReadyLine};
use std::alloc::AllocError;

// How many places a round looks at for one that has rested, at most.
const LOOKS: usize = 1_024;

// Notes this time for a place; not for one past the last.
fn mark_one(since: &mut Vec<u64>, place: usize, time: u64)
    ensures here { (last : ℕ) → slice_get since.new.items place ≡ Some last → last ≡ time }
    ensures others { (k : ℕ) → (place ≡ k → ⊥) → slice_get since.new.items k ≡ slice_get since.old.items k }
{
    if place >= since.len() {
        return;
    }
    since[place] = time;
}

/// Notes this time for these places. One past the last is left out.
pub(crate) fn mark(since: &mut Vec<u64>, places: &[usize], time: u64)
    ensures { AreMarked time places.now since.old.items since.new.items }
{
    for place in places {
        mark_one(since, *place, time);
    }
}

/// Notes this time for those that were ready in the last round, and for those to whom a place was offered in it.
pub(crate) fn mark_last(since: &mut Vec<u64>, ready: &[usize], fresh: &mut Vec<usize>, time: u64)
    ensures { AreMarked time (ready.now ++ fresh.old.items) since.old.items since.new.items }
{
    mark(since, ready, time);
    mark(since, fresh, time);
    fresh.clear();
}

// Whether a place is one of these.
fn is_among(places: &[usize], place: usize) -> bool
    ensures { result ≡ false → Contains places.now place → ⊥ }
{
    places.contains(&place)
}

// Whether the time that is noted for a place is before this one, and so long before.
fn has_rested(since: &[u64], place: usize, patience: u64, time: u64) -> bool
    ensures { result ≡ true → HasRested patience time (slice_get since.now place) }
{
    if place >= since.len() {
        return false;
    }
    let last = since[place];
    last < time && time - last >= patience
}

// The place at which the hand stands, or the first where it stands behind the last; the hand goes on to the next.
fn next_place(hand: &mut usize, places: usize) -> usize {
    let place = if *hand < places { *hand } else { 0 };
    *hand = place.saturating_add(1);
    place
}

// The next place whose connection has rested, holds no request, and was promised no turn. Looks at no more than 1,024.
fn find_rested<L: ReadyLine + Drop>(
    places: &Places<L>,
    since: &[u64],
    again: &[usize],
    patience: u64,
    time: u64,
    hand: &mut usize,
) -> Option<usize>
    ensures stood { IfSome result (λ place. (c : Connection L) × (slice_get places.now.places.items place ≡ Some (Some c)) × IsAnswered (view L.seen c)) }
    ensures rested { IfSome result (λ place. HasRested patience time (slice_get since.now place)) }
    ensures unpromised { IfSome result (λ place. Contains again.now place → ⊥) }
{
    for _ in 0..LOOKS.min(places.len()) {
        let place = next_place(hand, places.len());
        if has_rested(since, place, patience, time)
            && places.is_answered(place)
            && !is_among(again, place)
        {
            return Some(place);
        }
    }
    None
}

// Whether more may wait, and no free place is noted.
#[tactic(auto, using(std::proofs::lemmas::List::nil_from_length))]
fn is_crowded(more: bool, free: &[usize]) -> bool
    ensures more { result ≡ true → more ≡ true }
    ensures taken { result ≡ true → free.now ≡ [] }
{
    more && free.is_empty()
}

/// Sends one away that has rested, where more may wait and no free place is noted. Looks at no more than 1,024 places,
/// from that on at which the hand stands.
pub(crate) fn make_room<L: ReadyLine + Drop>(
    hall: &mut Hall<L>,
    since: &[u64],
    again: &[usize],
    more: bool,
    idle: Option<u64>,
    time: u64,
    hand: &mut usize,
) -> Result<(), AllocError>
    ensures room { (hall.new.places.places.items ≡ hall.old.places.places.items) ⊎ ((more ≡ true) × (hall.old.free.items ≡ []) × IsSentAway L.seen idle time since.now again.now hall.old.places.places.items hall.new.places.places.items) }
    ensures noted { OnOk result (AreNoted hall.old.places.places.items hall.old.free.items → AreNoted hall.new.places.places.items hall.new.free.items) }
{
    let Some(patience) = idle else {
        return Ok(());
    };
    if !is_crowded(more, &hall.free) {
        return Ok(());
    }
    let Some(place) = find_rested(&hall.places, since, again, patience, time, hand) else {
        return Ok(());
    };
    hall.dismiss(place)
}
