//! Places for connections.
ghost use Rattle.std.specs.Prelude.{◌≡◌, ◌≢◌, ◌<◌, ◌⊎◌, [], ℕ, List, count_by, is_some, length, IfOk, OnOk, IfSome, Contains, All, Any, true, false, IfNone, Some, None, slice_get, slice_set};
ghost use Rattle.readiness.specs.declared.connection.Connection.{Connection};
ghost use Rattle.readiness.specs.Exchanges.{Entry};
ghost use Rattle.readiness.specs.Kept.{IsNew, view};
ghost use Rattle.readiness.specs.Turns.{IsAnswered, IsOver};
ghost use Rattle.readiness.specs.Places.{waiting_at, waiting_in, TurnedAt, PlaceTurned, Turns, Rests, AreBounded, AreSilent, StoppedAt, AreStopped, AreHeard, LeftAt, AreTold, SettledFirst};

use crate::connection::{Connection, LIMIT};
use crate::line::ReadyLine;
use crate::shared::SharedPort;
use crate::turning::{After, listen, reply};
use logical_time::Fault;
use std::alloc::{AllocError, Global};

/// Places for connections; at each stands one, or it is free.
#[derive(Drop)]
pub struct Places<L> {
    pub(crate) places: Vec<Option<Connection<L>>>,
}

// How many bytes of replies wait at a place.
fn waits_at<L>(place: &Option<Connection<L>>) -> u64
    ensures { result ≡ waiting_at place.now }
{
    match place {
        Some(connection) => connection.waiting.len() as u64,
        None => 0,
    }
}

impl<L: Drop> Places<L> {
    /// So many free places.
    pub fn new(alloc: Global, places: usize) -> Result<Places<L>, AllocError>
        ensures count { IfOk result (λ p. length p.places.items ≡ places) }
        ensures free { IfOk result (λ p. All (λ c. c ≡ None) p.places.items) }
    {
        let mut free = Places {
            places: Vec::with_capacity(alloc, places)?,
        };
        for _ in 0..places {
            free.places.push(None)?;
        }
        Ok(free)
    }

    /// Whether all places are free.
    pub fn are_free(&self) -> bool
        ensures free { result ≡ true → All (λ c. c ≡ None) self.now.places.items }
        ensures taken { result ≡ false → Any (λ c. c ≢ None) self.now.places.items }
    {
        self.places.iter().all(|place| place.is_none())
    }

    /// The first free place, if there is one.
    pub fn free_place(&self) -> Option<usize>
        ensures some { IfSome result (λ place. slice_get self.now.places.items place ≡ Some None) }
        ensures none { IfNone result (All (λ c. c ≢ None) self.now.places.items) }
    {
        self.places.iter().position(|place| place.is_none())
    }

    /// Whether a place is free; not so past the last one.
    pub fn is_free(&self, place: usize) -> bool
        ensures yes { result ≡ true → slice_get self.now.places.items place ≡ Some None }
        ensures no { result ≡ false → slice_get self.now.places.items place ≡ Some None → ⊥ }
    {
        matches!(self.places.get(place), Some(None))
    }

    /// Gives a place to the connection of a line, before any call. That the place is free is the caller's condition.
    /// Takes no memory.
    pub fn admit(&mut self, alloc: Global, place: usize, line: L)
        requires { slice_get self.old.places.items place ≡ Some None }
        ensures { (c : Connection L) × IsNew line c × (self.new.places.items ≡ slice_set self.old.places.items place (Some c)) }
    {
        self.places[place] = Some(Connection::new(alloc, line));
    }

    /// Frees a place, and gives back the connection that stood there, if one did.
    pub fn release(&mut self, place: usize) -> Option<Connection<L>>
        requires { place < length self.old.places.items }
        ensures some { IfSome result (λ c. slice_get self.old.places.items place ≡ Some (Some c)) }
        ensures none { IfNone result (slice_get self.old.places.items place ≡ Some None) }
        ensures free { self.new.places.items ≡ slice_set self.old.places.items place None }
    {
        self.places[place].take()
    }

    /// How many places are taken. Linear in the places.
    pub fn taken(&self) -> usize
        ensures { result ≡ count_by is_some self.now.places.items }
    {
        self.places.iter().filter(|place| place.is_some()).count()
    }

    /// How many bytes of replies wait for their lines at all places, or the greatest `u64` where they are more. Linear in the
    /// places.
    pub fn waiting(&self) -> u64
        ensures { result ≡ waiting_in self.now.places.items }
    {
        let mut sum = 0u64;
        for place in &self.places {
            sum = sum.saturating_add(waits_at(place));
        }
        sum
    }

    /// How many places there are.
    pub fn len(&self) -> usize
        ensures { result ≡ length self.now.places.items }
    {
        self.places.len()
    }
}

impl<L: ReadyLine + Drop> Places<L> {
    /// Whether a connection stands at a place all of whose requests that were read are answered.
    pub fn is_answered(&self, place: usize) -> bool
        ensures yes { result ≡ true → (c : Connection L) × (slice_get self.now.places.items place ≡ Some (Some c)) × IsAnswered (view L.seen c) }
        ensures no { result ≡ false → (c : Connection L) → slice_get self.now.places.items place ≡ Some (Some c) → IsAnswered (view L.seen c) → ⊥ }
    {
        match self.places.get(place) {
            Some(Some(connection)) => connection.is_answered(),
            _ => false,
        }
    }

    /// Frees a place whose connection is over, and gives that back; none where no such connection stands there.
    pub fn release_over(&mut self, place: usize) -> Option<Connection<L>>
        ensures some { IfSome result (λ c. (slice_get self.old.places.items place ≡ Some (Some c)) × IsOver (view L.seen c)) }
        ensures free { IfSome result (λ c. self.new.places.items ≡ slice_set self.old.places.items place None) }
        ensures none { IfNone result (self.new ≡ self.old) }
        ensures stays { IfNone result ((c : Connection L) → slice_get self.old.places.items place ≡ Some (Some c) → IsOver (view L.seen c) → ⊥) }
    {
        match self.places.get(place) {
            Some(Some(connection)) if connection.is_over() => self.places[place].take(),
            _ => None,
        }
    }
}

/// The first half of a turn of the connection at a place, if one stands there: it takes in. Nothing is written.
pub(crate) fn listen_at<L: ReadyLine + Drop, P: SharedPort>(
    alloc: Global,
    port: &mut P,
    places: &mut Places<L>,
    place: usize,
    buffer: &mut [u8],
)
    requires { 0 < length buffer.old }
    ensures turned { TurnedAt L.seen P.steps place places.old.places.items (P.seen port.old) places.new.places.items (P.seen port.new) }
    ensures stops { StoppedAt L.seen places.new.places.items place }
    ensures others { (k : ℕ) → (place ≡ k → ⊥) → slice_get places.new.places.items k ≡ slice_get places.old.places.items k }
    ensures silent { AreSilent L.seen places.old.places.items places.new.places.items }
    ensures keeps_none { P.kept port.new ≡ P.kept port.old }
    ensures bounded { AreBounded LIMIT L.seen places.old.places.items → AreBounded LIMIT L.seen places.new.places.items }
{
    if place >= places.places.len() {
        return;
    }
    let Some(mut connection) = places.places[place].take() else {
        return;
    };
    listen(alloc, port, place, &mut connection, buffer);
    places.places[place] = Some(connection);
}

/// The second half of a turn of the connection at a place, if one stands there: it writes. Nothing is asked.
pub(crate) fn reply_at<L: ReadyLine + Drop>(places: &mut Places<L>, place: usize) -> After
    ensures written { (k : ℕ) → PlaceTurned L.seen [] (slice_get places.old.places.items k) (slice_get places.new.places.items k) }
    ensures stays { StoppedAt L.seen places.old.places.items place → StoppedAt L.seen places.new.places.items place }
    ensures left { StoppedAt L.seen places.old.places.items place → LeftAt LIMIT L.seen places.new.places.items place result }
    ensures others { (k : ℕ) → (place ≡ k → ⊥) → slice_get places.new.places.items k ≡ slice_get places.old.places.items k }
    ensures bounded { AreBounded LIMIT L.seen places.old.places.items → AreBounded LIMIT L.seen places.new.places.items }
{
    if place >= places.places.len() {
        return After::Waits;
    }
    let Some(mut standing) = places.places[place].take() else {
        return After::Waits;
    };
    let left = reply(&mut standing);
    places.places[place] = Some(standing);
    left
}

// Tells of a place that could go on at once, or whose connection is over.
fn tell(
    again: &mut Vec<usize>,
    over: &mut Vec<usize>,
    place: usize,
    left: After,
) -> Result<(), AllocError>
    ensures again_kept { (k : ℕ) → Contains again.old.items k → Contains again.new.items k }
    ensures over_kept { (k : ℕ) → Contains over.old.items k → Contains over.new.items k }
    ensures again_told { OnOk result (left ≡ After.Again → Contains again.new.items place) }
    ensures over_told { OnOk result (left ≡ After.Over → Contains over.new.items place) }
{
    match left {
        After::Again => again.push(place)?,
        After::Over => over.push(place)?,
        After::Waits => {}
    }
    Ok(())
}

// The first halves of turns, at each of these places.
fn listen_all<L: ReadyLine + Drop, P: SharedPort>(
    alloc: Global,
    port: &mut P,
    places: &mut Places<L>,
    ready: &[usize],
    buffer: &mut [u8],
)
    requires { 0 < length buffer.old }
    ensures turned { (log : List Entry) × Turns L.seen P.steps log places.old.places.items (P.seen port.old) places.new.places.items (P.seen port.new) }
    ensures heard { AreHeard L.seen ready.now places.old.places.items places.new.places.items }
    ensures silent { AreSilent L.seen places.old.places.items places.new.places.items }
    ensures keeps_none { P.kept port.new ≡ P.kept port.old }
    ensures bounded { AreBounded LIMIT L.seen places.old.places.items → AreBounded LIMIT L.seen places.new.places.items }
{
    for place in ready {
        listen_at(alloc, port, places, *place, buffer);
    }
}

// The second halves, at each of these places. Where memory for what is told of them is refused, it ends early.
fn reply_all<L: ReadyLine + Drop>(
    places: &mut Places<L>,
    ready: &[usize],
    again: &mut Vec<usize>,
    over: &mut Vec<usize>,
) -> Result<(), AllocError>
    ensures written { (k : ℕ) → PlaceTurned L.seen [] (slice_get places.old.places.items k) (slice_get places.new.places.items k) }
    ensures told { OnOk result (AreStopped L.seen ready.now places.old.places.items → AreTold LIMIT L.seen ready.now again.new.items over.new.items places.old.places.items places.new.places.items) }
    ensures bounded { AreBounded LIMIT L.seen places.old.places.items → AreBounded LIMIT L.seen places.new.places.items }
{
    for place in ready {
        let left = reply_at(places, *place);
        tell(again, over, *place, left)?;
    }
    Ok(())
}

/// A turn for the connection at each of these places, in this order, whichever they are: first each takes in and is
/// answered, then the port settles, once, and then each writes what its line takes. Places of connections that could go
/// on at once are put into `again`, and of those that are over into `over`. Refused as settling is, and then nothing is
/// written; and with `Memory`, where it is refused for that: then it ends early.
pub fn turns<L: ReadyLine + Drop, P: SharedPort>(
    alloc: Global,
    port: &mut P,
    places: &mut Places<L>,
    ready: &[usize],
    again: &mut Vec<usize>,
    over: &mut Vec<usize>,
    buffer: &mut [u8],
) -> Result<(), Fault>
    requires { 0 < length buffer.old }
    ensures turned { (log : List Entry) × Turns L.seen P.steps log places.old.places.items (P.seen port.old) places.new.places.items (P.seen port.new) }
    ensures rests { OnOk result (Rests LIMIT L.seen ready.now again.new.items over.new.items places.old.places.items places.new.places.items) }
    // before a line says a byte more the port has settled behind all that was asked, and keeps nothing else than before until then
    ensures settled { SettledFirst L.seen P.kept P.settles places.old.places.items port.old places.new.places.items port.new result }
    ensures bounded { AreBounded LIMIT L.seen places.old.places.items → AreBounded LIMIT L.seen places.new.places.items }
{
    listen_all(alloc, port, places, ready, buffer);
    port.settle()?;
    reply_all(places, ready, again, over)?;
    Ok(())
}
