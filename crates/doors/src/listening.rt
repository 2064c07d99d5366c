//! Doors: those who come by a door, each at a place, in rounds.
ghost use Rattle.std.specs.Prelude.{◌≡◌, ◌++◌, ◌⊎◌, ◌-◌, [], ℕ, List, All, true, false, None, Some, OnOk, IfOk, IfSome, IfNone, count_by, is_some, length, take, drop, slice_get};
ghost use Rattle.readiness.specs.declared.connection.TheConstants.{LIMIT};
ghost use Rattle.readiness.specs.Exchanges.{Entry, LogChain};
ghost use Rattle.readiness.specs.Places.{waiting_in};
ghost use Rattle.doors.specs.Rounds.{Round, RoundSettled, IsSound, AreTaken};
ghost use Rattle.doors.specs.Spans.{Spans};

use crate::accepting::accept_all;
use crate::doorway::Doorway;
use crate::hall::{Ended, Hall, zeros};
use crate::silence::{make_room, mark, mark_last};
use crate::socket::ReadySocket;
use crate::sockets::Sockets;
use logical_time::Fault;
use readiness::{ReadyLine, SharedPort, turns};
use std::alloc::Global;
use std::mem;
use std::net::Net;
use std::time::Duration;

// How many bytes are read at once, at most.
const PIECE: usize = 16_384;

// How soon accepting is tried again after it failed, in milliseconds.
const PAUSE: u64 = 100;

// How soon those that stand at places are looked at again, where one may have to leave, in milliseconds.
const LOOK: u64 = 1_000;

/// Doors: a door by which lines come, so many places, and the connections that stand there. Where all places are taken, more
/// wait before the door.
#[derive(Drop)]
pub struct Doors<L = ReadySocket, D = Sockets> {
    alloc: Global,
    pub(crate) door: D,
    pub(crate) hall: Hall<L>,
    pub(crate) ready: Vec<usize>,
    // The places that were promised a turn in the next round.
    pub(crate) again: Vec<usize>,
    over: Vec<usize>,
    // Whether more may wait to be accepted.
    pub(crate) more: bool,
    // For how long those that send nothing are borne, where others may wait, in milliseconds; for ever for none.
    pub(crate) idle: Option<u64>,
    // How long a round waits at most, in milliseconds; without an end for none.
    pub(crate) longest: Option<u64>,
    // For each place when the round began behind the last in which its connection was ready, or came.
    pub(crate) since: Vec<u64>,
    // The place that is looked at next.
    hand: usize,
    buffer: [u8; PIECE],
}

// Waits until something is ready, and notes what is, behind those that were promised a turn.
fn wait<L, D: Doorway<L>>(
    door: &mut D,
    patience: Option<Duration>,
    ready: &mut Vec<usize>,
    again: &mut Vec<usize>,
    more: &mut bool,
) -> Result<(), Fault>
    ensures step { D.steps door.old None door.new }
    ensures promised { OnOk result ((told : List ℕ) × (ready.new.items ≡ again.old.items ++ told) × D.tells door.old told) }
    ensures known { OnOk result ((more.old ≡ false → D.nobody door.old) → more.new ≡ false → D.nobody door.new) }
    ensures may { OnOk result (more.new ≡ true → (more.old ≡ true) ⊎ D.announces door.old) }
{
    mem::swap(ready, again);
    again.clear();
    if door.wait(patience, ready)? {
        *more = true;
    }
    Ok(())
}

impl Doors<ReadySocket, Sockets> {
    /// Listens on this port of 127.0.0.1, or on some free port for 0, and has so many free places. Refused with `ReadFailed`
    /// where it can't listen, and with `Memory`.
    pub fn open<R: Net>(rt: &R, alloc: Global, port: u16, places: usize) -> Result<Doors, Fault>
        ensures count { IfOk result (λ d. length d.hall.places.places.items ≡ places) }
        ensures free { IfOk result (λ d. All (λ c. c ≡ None) d.hall.places.places.items) }
        ensures none_promised { IfOk result (λ d. d.again.items ≡ []) }
        ensures borne { IfOk result (λ d. d.idle ≡ None) }
        ensures sound { IfOk result (λ d. IsSound ⟦<ReadySocket as ReadyLine>⟧.seen ⟦<Sockets as Doorway<ReadySocket>>⟧.nobody d) }
    {
        Doors::new(alloc, Sockets::open(rt, alloc, port)?, places)
    }

    /// The port that it listens on; none where the system doesn't say.
    pub fn port(&self) -> Option<u16> {
        self.door.port()
    }
}

impl<L: ReadyLine + Drop, D: Doorway<L> + Drop> Doors<L, D> {
    /// The doors of a door before any call, with so many free places. Who sends nothing is borne for ever. Refused with
    /// `Memory`.
    pub fn new(alloc: Global, door: D, places: usize) -> Result<Doors<L, D>, Fault>
        ensures door { IfOk result (λ d. d.door ≡ door) }
        ensures count { IfOk result (λ d. length d.hall.places.places.items ≡ places) }
        ensures free { IfOk result (λ d. All (λ c. c ≡ None) d.hall.places.places.items) }
        ensures none_promised { IfOk result (λ d. d.again.items ≡ []) }
        ensures borne { IfOk result (λ d. d.idle ≡ None) }
        ensures sound { IfOk result (λ d. IsSound L.seen D.nobody d) }
    {
        Ok(Doors {
            alloc,
            door,
            hall: Hall::new(alloc, places)?,
            ready: Vec::new(alloc),
            again: Vec::new(alloc),
            over: Vec::new(alloc),
            more: true,
            idle: None,
            longest: None,
            since: zeros(alloc, places)?,
            hand: 0,
            buffer: [0; PIECE],
        })
    }

    /// The same doors, which bear those that send nothing for so many milliseconds, where others may wait for a place.
    pub fn with_idle(self, idle: u64) -> Doors<L, D>
        ensures { result ≡ record self { idle = Some idle } }
    {
        Doors {
            idle: Some(idle),
            ..self
        }
    }

    /// The same doors, which wait no longer than so many milliseconds in a round.
    pub fn with_longest(self, longest: u64) -> Doors<L, D>
        ensures { result ≡ record self { longest = Some longest } }
    {
        Doors {
            longest: Some(longest),
            ..self
        }
    }

    /// How many connections stand at places. Linear in the places.
    pub fn open_places(&self) -> u64
        ensures { result ≡ count_by is_some self.now.hall.places.places.items }
    {
        self.hall.places.taken() as u64
    }

    /// How many bytes of replies wait for those at all places, or the greatest `u64` where they are more. Linear in the
    /// places.
    pub fn waiting(&self) -> u64
        ensures { result ≡ waiting_in self.now.hall.places.places.items }
    {
        self.hall.places.waiting()
    }

    /// How many connections were given a place.
    pub fn accepted(&self) -> u64
        ensures { result ≡ self.now.hall.accepted }
    {
        self.hall.accepted
    }

    /// The connections that ended with a fault in the last round, in the order in which they were closed.
    pub fn ended(&self) -> &[Ended]
        ensures { result.now ≡ self.now.hall.ended.items }
    {
        &self.hall.ended
    }

    /// Whether no connection stands at a place. Linear in the places.
    pub fn are_empty(&self) -> bool
        ensures { result ≡ true → All (λ c. c ≡ None) self.now.hall.places.places.items }
    {
        self.hall.places.are_free()
    }

    /// The places that were offered to those who came in the last round. No other was given to one who came in it.
    pub fn fresh(&self) -> &[usize]
        ensures { result.now ≡ self.now.hall.fresh.items }
    {
        &self.hall.fresh
    }

    /// The free place that is given next; none where none is free.
    pub fn next_free(&self) -> Option<usize>
        ensures some { IfSome result (λ place. slice_get self.now.hall.free.items (length self.now.hall.free.items - 1) ≡ Some place) }
        ensures none { IfNone result (self.now.hall.free.items ≡ []) }
    {
        self.hall.free.last().copied()
    }

    /// The free place that is given next is given last, behind all other free ones. Linear in these.
    pub fn put_off(&mut self)
        ensures stays { self.new ≡ record self.old { hall = record self.old.hall { free = self.new.hall.free } } }
        ensures last { self.new.hall.free.items ≡ drop (length self.old.hall.free.items - 1) self.old.hall.free.items ++ take (length self.old.hall.free.items - 1) self.old.hall.free.items }
        ensures sound { IsSound L.seen D.nobody self.old → IsSound L.seen D.nobody self.new }
    {
        if !self.hall.free.is_empty() {
            self.hall.free.rotate_right(1);
        }
    }

    // How long a round waits: not at all where a connection was promised a turn, and not for long where somebody may
    // wait and a place is free, or one that sends nothing may have to leave; and no longer than was said.
    fn patience(&self) -> Option<Duration> {
        if !self.again.is_empty() {
            return Some(Duration::ZERO);
        }
        if self.more && !self.hall.free.is_empty() {
            return Some(Duration::from_millis(PAUSE));
        }
        let longest = self.longest.map(Duration::from_millis);
        if self.more && self.idle.is_some() {
            let look = Duration::from_millis(LOOK);
            return Some(longest.map_or(look, |longest| longest.min(look)));
        }
        longest
    }

    /// Waits until a connection is ready or comes, gives each that is ready or was promised one a turn, closes those
    /// that are over, sends away one that has rested, where no place is free and more may wait, and gives free places
    /// to those that came. Turns are had together: all take in and are answered, the port settles, once, and then all
    /// write. `time` is when it begins, in milliseconds since some beginning; where it goes back, nobody leaves early.
    /// Refused with `ReadFailed` where the door can't wait, with `Memory`, and as settling is, and then nothing was
    /// written in it; then readiness may be lost, and no further round should be asked for. Each request costs what the
    /// port takes for it, and a round what is ready, what settling costs, and a look at no more than 1,024 places,
    /// whatever else stands there; a connection that is ready costs two to four calls of its line.
    pub fn round<P: SharedPort>(&mut self, port: &mut P, time: u64) -> Result<(), Fault>
        // whatever was ready, the port goes through one chain of its steps
        ensures chain { (log : List Entry) × LogChain P.steps (P.seen port.old) log (P.seen port.new) }
        // who was promised a turn is among those that are ready
        ensures promised { OnOk result ((told : List ℕ) × (self.new.ready.items ≡ self.old.again.items ++ told) × D.tells self.old.door told) }
        // no line says a byte more before the port has settled behind all that was asked
        ensures settled { RoundSettled L.seen P.kept P.settles self.old.hall.places.places.items port.old self.new.hall.places.places.items port.new result }
        ensures round { OnOk result ((log : List Entry) × Round LIMIT L.seen P.steps D.nobody D.announces time log self.old (P.seen port.old) self.new (P.seen port.new)) }
        // where a place is free, nobody waits for one, or accepting was refused
        ensures given { OnOk result (IsSound L.seen D.nobody self.old → AreTaken self.new.hall.places.places.items ⊎ (D.nobody self.new.door ⊎ D.refuses self.new.door)) }
        ensures sound { OnOk result (IsSound L.seen D.nobody self.old → IsSound L.seen D.nobody self.new) }
        ensures count { length self.new.hall.places.places.items ≡ length self.old.hall.places.places.items }
        ensures borne { self.new.idle ≡ self.old.idle }
        ensures spans { Spans L.seen P.steps D.steps self.old.idle self.old.door self.old.hall.places.places.items (P.seen port.old) self.new.door self.new.hall.places.places.items (P.seen port.new) }
    {
        self.hall.ended.clear();
        mark_last(&mut self.since, &self.ready, &mut self.hall.fresh, time);
        let patience = self.patience();
        wait::<L, D>(
            &mut self.door,
            patience,
            &mut self.ready,
            &mut self.again,
            &mut self.more,
        )?;
        mark(&mut self.since, &self.ready, time);
        turns(
            self.alloc,
            port,
            &mut self.hall.places,
            &self.ready,
            &mut self.again,
            &mut self.over,
            &mut self.buffer,
        )?;
        self.hall.close_all(&self.door, &self.over)?;
        self.over.clear();
        make_room(
            &mut self.hall,
            &self.since,
            &self.again,
            self.more,
            self.idle,
            time,
            &mut self.hand,
        )?;
        accept_all(&mut self.door, &mut self.hall, &mut self.more)?;
        Ok(())
    }

    /// One round for each of these times, one after the other. Refused as `round` is, with the first that is.
    pub fn rounds<P: SharedPort>(&mut self, port: &mut P, times: &[u64]) -> Result<(), Fault>
        ensures spans { Spans L.seen P.steps D.steps self.old.idle self.old.door self.old.hall.places.places.items (P.seen port.old) self.new.door self.new.hall.places.places.items (P.seen port.new) }
        ensures sound { OnOk result (IsSound L.seen D.nobody self.old → IsSound L.seen D.nobody self.new) }
        ensures count { length self.new.hall.places.places.items ≡ length self.old.hall.places.places.items }
        ensures borne { self.new.idle ≡ self.old.idle }
    {
        for time in times {
            self.round(port, *time)?;
        }
        Ok(())
    }
}
