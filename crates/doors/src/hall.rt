//! Places, who stands there, and which are free.
ghost use Rattle.std.specs.Prelude.{◌≡◌, ◌<◌, ◌∷◌, [], ℕ, List, All, None, Some, Contains, IfOk, OnOk, length, slice_get, slice_set};
ghost use Rattle.doors.specs.Rounds.{Closed, Given, GoesOn, AreNoted};
ghost use Rattle.doors.specs.Spans.{HaveLeft, Lived};

use crate::doorway::Doorway;
use logical_time::Fault;
use readiness::{Connection, Places, ReadyLine};
use std::alloc::{AllocError, Global};

/// A connection that ended with a fault.
#[derive(Clone, Copy)]
pub struct Ended {
    /// Its number: the first that came has 0.
    pub number: u64,
    /// Its place.
    pub place: usize,
    /// Why its stream was refused, or else `ReadFailed` or `WriteFailed`.
    pub fault: Fault,
}

/// Places, the connections that stand there, and the free places, the one that is given next last.
#[derive(Drop)]
pub(crate) struct Hall<L> {
    alloc: Global,
    pub(crate) places: Places<L>,
    pub(crate) free: Vec<usize>,
    // The number of the connection that was given each place last.
    numbers: Vec<u64>,
    // The places that were offered to those who came in the last round.
    pub(crate) fresh: Vec<usize>,
    pub(crate) ended: Vec<Ended>,
    pub(crate) accepted: u64,
}

// The fault with which a connection ended, if it did.
fn fault_of<L, D: Doorway<L>>(door: &D, connection: &Connection<L>) -> Option<Fault> {
    match connection.refused() {
        Some(fault) => Some(fault),
        None => door.failed(connection.line()),
    }
}

// Tells of the connection that was given a place last: it ended with a fault.
fn tell(
    ended: &mut Vec<Ended>,
    numbers: &[u64],
    place: usize,
    fault: Fault,
) -> Result<(), AllocError> {
    let number = match numbers.get(place) {
        Some(number) => *number,
        None => 0,
    };
    ended.push(Ended {
        number,
        place,
        fault,
    })?;
    Ok(())
}

// One more came, who has the next number and this place.
fn count(numbers: &mut [u64], accepted: &mut u64, place: usize) {
    if let Some(slot) = numbers.get_mut(place) {
        *slot = *accepted;
    }
    *accepted = accepted.saturating_add(1);
}

/// So many zeros.
pub(crate) fn zeros(alloc: Global, count: usize) -> Result<Vec<u64>, AllocError> {
    let mut zeros = Vec::with_capacity(alloc, count)?;
    for _ in 0..count {
        zeros.push(0)?;
    }
    Ok(zeros)
}

// So many places, of which the first is last.
fn all_places(alloc: Global, places: usize) -> Result<Vec<usize>, AllocError>
    ensures { IfOk result (λ free. (k : ℕ) → k < places → Contains free.items k) }
{
    let mut free = Vec::with_capacity(alloc, places)?;
    for place in 0..places {
        free.push(places - 1 - place)?;
    }
    Ok(free)
}

impl<L: Drop> Hall<L> {
    /// So many free places.
    pub(crate) fn new(alloc: Global, places: usize) -> Result<Hall<L>, AllocError>
        ensures count { IfOk result (λ h. length h.places.places.items ≡ places) }
        ensures free { IfOk result (λ h. All (λ c. c ≡ None) h.places.places.items) }
        ensures noted { IfOk result (λ h. AreNoted h.places.places.items h.free.items) }
    {
        Ok(Hall {
            alloc,
            places: Places::new(alloc, places)?,
            free: all_places(alloc, places)?,
            numbers: zeros(alloc, places)?,
            fresh: Vec::new(alloc),
            ended: Vec::new(alloc),
            accepted: 0,
        })
    }

    /// One came who was to be given this place, and can't be heard.
    pub(crate) fn lose(&mut self, place: usize) -> Result<(), AllocError>
        ensures { (self.new.places ≡ self.old.places) × (self.new.free ≡ self.old.free) × (self.new.fresh.items ≡ self.old.fresh.items) }
    {
        count(&mut self.numbers, &mut self.accepted, place);
        tell(&mut self.ended, &self.numbers, place, Fault::ReadFailed)?;
        Ok(())
    }

    /// Frees a place, and the connection that stands there leaves.
    pub(crate) fn dismiss(&mut self, place: usize) -> Result<(), AllocError>
        requires { place < length self.old.places.places.items }
        ensures left { self.new.places.places.items ≡ slice_set self.old.places.places.items place None }
        ensures noted { OnOk result (AreNoted self.old.places.places.items self.old.free.items → AreNoted self.new.places.places.items self.new.free.items) }
    {
        let _gone = self.places.release(place);
        self.free.push(place)?;
        Ok(())
    }
}

impl<L: ReadyLine + Drop> Hall<L> {
    /// Gives a free place to the line of one who came.
    pub(crate) fn admit(&mut self, place: usize, line: L)
        requires { slice_get self.old.places.places.items place ≡ Some None }
        ensures comes { (k : ℕ) → Given (slice_get self.old.places.places.items k) (slice_get self.new.places.places.items k) }
        ensures lives { Lived L.seen [] (record { place = place; line = line } ∷ []) [] self.old.places.places.items self.new.places.places.items }
        ensures taken { slice_get self.new.places.places.items place ≡ Some None → ⊥ }
        ensures others { (k : ℕ) → (place ≡ k → ⊥) → slice_get self.new.places.places.items k ≡ slice_get self.old.places.places.items k }
        ensures noted { self.new.free ≡ self.old.free }
        ensures fresh { self.new.fresh.items ≡ self.old.fresh.items }
    {
        count(&mut self.numbers, &mut self.accepted, place);
        self.places.admit(self.alloc, place, line);
    }

    // Frees a place whose connection is over, and gives that back; none where no such connection stands there.
    fn free_at(&mut self, place: usize) -> Result<Option<Connection<L>>, AllocError>
        ensures leaves { (k : ℕ) → Closed L.seen (slice_get self.old.places.places.items k) (slice_get self.new.places.places.items k) }
        ensures left { HaveLeft L.seen self.old.places.places.items self.new.places.places.items }
        ensures away { GoesOn L.seen (slice_get self.new.places.places.items place) }
        ensures noted { OnOk result (AreNoted self.old.places.places.items self.old.free.items → AreNoted self.new.places.places.items self.new.free.items) }
    {
        let Some(connection) = self.places.release_over(place) else {
            return Ok(None);
        };
        self.free.push(place)?;
        Ok(Some(connection))
    }

    // Closes the connection at a place, if it is over, and tells of it where it ended with a fault.
    fn close_at<D: Doorway<L>>(&mut self, door: &D, place: usize) -> Result<(), AllocError>
        ensures leaves { (k : ℕ) → Closed L.seen (slice_get self.old.places.places.items k) (slice_get self.new.places.places.items k) }
        ensures left { HaveLeft L.seen self.old.places.places.items self.new.places.places.items }
        ensures away { OnOk result (GoesOn L.seen (slice_get self.new.places.places.items place)) }
        ensures noted { OnOk result (AreNoted self.old.places.places.items self.old.free.items → AreNoted self.new.places.places.items self.new.free.items) }
    {
        let Some(connection) = self.free_at(place)? else {
            return Ok(());
        };
        let Some(fault) = fault_of(door, &connection) else {
            return Ok(());
        };
        tell(&mut self.ended, &self.numbers, place, fault)?;
        Ok(())
    }

    /// Closes the connections that are over, of those at these places.
    pub(crate) fn close_all<D: Doorway<L>>(
        &mut self,
        door: &D,
        over: &[usize],
    ) -> Result<(), AllocError>
        ensures leaves { (k : ℕ) → Closed L.seen (slice_get self.old.places.places.items k) (slice_get self.new.places.places.items k) }
        ensures left { HaveLeft L.seen self.old.places.places.items self.new.places.places.items }
        ensures away { OnOk result ((k : ℕ) → Contains over.now k → GoesOn L.seen (slice_get self.new.places.places.items k)) }
        ensures noted { OnOk result (AreNoted self.old.places.places.items self.old.free.items → AreNoted self.new.places.places.items self.new.free.items) }
    {
        for place in over {
            self.close_at(door, *place)?;
        }
        Ok(())
    }
}
