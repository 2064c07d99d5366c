//! The sessions of a world, each for the connection at a place.
ghost use Rattle.std.specs.Prelude.{◌≡◌, ◌<◌, List, length, IfOk, OnOk};
ghost use Rattle.readiness.specs.Exchanges.{Entry};
ghost use Rattle.readiness.specs.Places.{Turns, Rests, AreBounded, SettledFirst};
ghost use Rattle.readiness.specs.Runs.{RanFor, arrivals};
ghost use Rattle.readiness.specs.declared.connection.TheConstants.{LIMIT};
ghost use Rattle.world.specs.World.{run_of};
ghost use Rattle.service.specs.Sessions.{IsSessionStep, SessionReplies, AreAnswered};

use crate::host::Host;
use logical_time::Fault;
use messages::{Op, Outcome};
use readiness::{Act, Places, ReadyLine, Run, SharedPort, run_all, turns};
use std::alloc::Global;

/// The sessions of a world, as the port of many connections: the connection at a place asks as the session of that
/// index. So the next connection at a place goes on with what that session did before. At a place past the last session
/// each request is refused with `Busy`.
#[derive(Drop)]
pub struct WorldSessions<'w, W> {
    world: &'w mut W,
    asked: u64,
}

impl<'w, W: Host> WorldSessions<'w, W> {
    /// The port of all sessions of this world.
    pub fn new(world: &'w mut W) -> WorldSessions<'w, W>
        ensures same_world { result.world.ghost_name ≡ world.entry.ghost_name }
        ensures world_is { result.world.now ≡ world.old }
    {
        WorldSessions { world, asked: 0 }
    }

    /// How many requests it was asked, those that were refused too.
    pub fn asked(&self) -> u64
        ensures { result ≡ self.now.asked }
    {
        self.asked
    }

    // A turn for the connection at each of these places.
    fn turn<L: ReadyLine + Drop>(
        &mut self,
        alloc: Global,
        places: &mut Places<L>,
        ready: &[usize],
        again: &mut Vec<usize>,
        over: &mut Vec<usize>,
        buffer: &mut [u8],
    ) -> Result<(), Fault>
        requires { 0 < length buffer.old }
        ensures same_world { self.new.world.ghost_name ≡ self.old.world.ghost_name }
        ensures topology { (W.world self.new.world.now).top ≡ (W.world self.old.world.now).top }
        ensures turned { (log : List Entry) × Turns L.seen (SessionReplies (W.world self.old.world.now).top (run_of (W.world self.new.world.now))) log places.old.places.items (W.world self.old.world.now).events places.new.places.items (W.world self.new.world.now).events }
        ensures rests { OnOk result (Rests LIMIT L.seen ready.now again.new.items over.new.items places.old.places.items places.new.places.items) }
        ensures settled { SettledFirst L.seen W.kept W.settles places.old.places.items self.old.world.now places.new.places.items self.new.world.now result }
        ensures bounded { AreBounded LIMIT L.seen places.old.places.items → AreBounded LIMIT L.seen places.new.places.items }
    {
        // what is known of runs is known within the limits of a topology
        let _limits = self.world.topology();
        turns(alloc, self, places, ready, again, over, buffer)
    }

    // Serves lines together.
    fn run<L: ReadyLine + Drop>(
        &mut self,
        alloc: Global,
        acts: Vec<Act<L>>,
        buffer: &mut [u8],
    ) -> Result<Run<L>, Fault>
        requires { 0 < length buffer.old }
        ensures same_world { self.new.world.ghost_name ≡ self.old.world.ghost_name }
        ensures topology { (W.world self.new.world.now).top ≡ (W.world self.old.world.now).top }
        ensures answered { AreAnswered (W.world self.old.world.now) (W.world self.new.world.now) }
        ensures ran { IfOk result (λ run. RanFor L.seen (SessionReplies (W.world self.old.world.now).top (run_of (W.world self.new.world.now))) (arrivals acts.items) run.gone.items (W.world self.old.world.now).events run.places.places.items (W.world self.new.world.now).events) }
        ensures bounded { IfOk result (λ run. AreBounded LIMIT L.seen run.places.places.items) }
    {
        // what is known of runs is known within the limits of a topology
        let _limits = self.world.topology();
        run_all(alloc, self, acts, buffer)
    }
}

impl<W: Host> SharedPort for WorldSessions<'_, W> {
    ghost use Rattle.service.specs.Sessions.{SessionsValue, seen_sessions};

    ghost State = { SessionsValue };

    ghost seen = { seen_sessions W.world };

    ghost steps = { IsSessionStep };

    ghost Kept = { W.Kept };

    ghost kept = { λ p. W.kept p.world.now };

    ghost settles = { λ p went q. W.settles p.world.now went q.world.now };

    fn ask(&mut self, place: usize, op: Op) -> Result<Outcome, Fault> {
        self.asked = self.asked.saturating_add(1);
        let sessions = self.world.topology().homes().len();
        if place >= sessions {
            return Err(Fault::Busy);
        }
        self.world.ask(place as u16, op)
    }

    fn settle(&mut self) -> Result<(), Fault> {
        self.world.settle()
    }
}

/// A turn for the connection at each of these places, in this order, whichever they are: the sessions of these indices
/// answer what it asks. Places of connections that could go on at once are put into `again`, and of those that are over
/// into `over`. Refused as settling is, and then nothing is written; and with `Memory`, where it is refused for that: then it
/// ends early. Each request costs what its submission and its drain do, beside the bytes of its frames.
pub fn turn_sessions<W: Host, L: ReadyLine + Drop>(
    alloc: Global,
    world: &mut W,
    places: &mut Places<L>,
    ready: &[usize],
    again: &mut Vec<usize>,
    over: &mut Vec<usize>,
    buffer: &mut [u8],
) -> Result<(), Fault>
    requires { 0 < length buffer.old }
    // each place's requests were answered by its session, and each outcome means its request in the world left behind
    ensures turned { (log : List Entry) × Turns L.seen (SessionReplies (W.world world.old).top (run_of (W.world world.new))) log places.old.places.items (W.world world.old).events places.new.places.items (W.world world.new).events }
    ensures rests { OnOk result (Rests LIMIT L.seen ready.now again.new.items over.new.items places.old.places.items places.new.places.items) }
    // no line says a byte more before the world has settled behind all that was asked
    ensures settled { SettledFirst L.seen W.kept W.settles places.old.places.items world.old places.new.places.items world.new result }
    ensures bounded { AreBounded LIMIT L.seen places.old.places.items → AreBounded LIMIT L.seen places.new.places.items }
    ensures topology { (W.world world.new).top ≡ (W.world world.old).top }
{
    let mut port = WorldSessions::new(world);
    port.turn(alloc, places, ready, again, over, buffer)
}

/// Serves lines together by the sessions of a world, as they arrive, have turns and leave, in whatever order. The
/// connections at a place, one after the other, ask as one session, and each goes on with what that session did before.
/// Refused as settling is, and with `Memory`, where it is refused for places and connections: then it ends early, and the
/// lines are dropped.
pub fn run_sessions<W: Host, L: ReadyLine + Drop>(
    alloc: Global,
    world: &mut W,
    acts: Vec<Act<L>>,
    buffer: &mut [u8],
) -> Result<Run<L>, Fault>
    requires { 0 < length buffer.old }
    // all that happened to the world is requests that were answered; also where memory was refused for the run itself
    ensures answered { AreAnswered (W.world world.old) (W.world world.new) }
    // at each place the lines that were given it account for all that its session was asked, and each outcome means its
    // request in the world left behind
    ensures ran { IfOk result (λ run. RanFor L.seen (SessionReplies (W.world world.old).top (run_of (W.world world.new))) (arrivals acts.items) run.gone.items (W.world world.old).events run.places.places.items (W.world world.new).events) }
    ensures bounded { IfOk result (λ run. AreBounded LIMIT L.seen run.places.places.items) }
    ensures topology { (W.world world.new).top ≡ (W.world world.old).top }
{
    let mut port = WorldSessions::new(world);
    port.run(alloc, acts, buffer)
}
