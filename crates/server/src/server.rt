//! Rounds of a server.
ghost use Rattle.std.specs.Prelude.{◌≡◌, ◌<◌, ◌⊎◌, ◌++◌, [], ℕ, List, All, None, Some, true, IfOk, IfSome, OnOk, count_by, is_some, length};
ghost use Rattle.readiness.specs.declared.connection.TheConstants.{LIMIT};
ghost use Rattle.readiness.specs.Exchanges.{Entry};
ghost use Rattle.doors.specs.Rounds.{Round, RoundSettled, IsSound, AreTaken};
ghost use Rattle.doors.specs.Spans.{Spans};
ghost use Rattle.world.specs.declared.run_event.RunEvent.{RunEvent};
ghost use Rattle.world.specs.World.{run_of};
ghost use Rattle.present.specs.declared.actors.Actors.{Actors};
ghost use Rattle.present.specs.AtRest.{StandsAtRest};
ghost use Rattle.present.specs.Held.{held_by_all};
ghost use Rattle.present.specs.Promises.{KeepsPromises};
ghost use Rattle.service.specs.Sessions.{SessionReplies};
ghost use Rattle.server.specs.Serving.{HasRested, HasAnswered, HasSpanned};

use crate::pace::Pace;
use crate::report::{Report, Reporter};
use crate::timer::Timer;
use doors::{Doors, Doorway, Ended, ReadySocket, Sockets};
use logical_time::Fault;
use present::Present;
use readiness::ReadyLine;
use service::{Housed, WorldSessions};
use std::alloc::Global;
use std::net::Net;
use std::time::{Clock, Instant};

/// Doors, and a world whose sessions answer those who come by the doors. It must be closed.
pub struct Server<W = Present, L = ReadySocket, D = Sockets> {
    doors: Doors<L, D>,
    world: W,
    pace: Pace,
    timer: Timer,
    reporter: Reporter,
}

// A round of the doors, whose requests the sessions answer.
fn round_by<W: Housed, L: ReadyLine + Drop, D: Doorway<L> + Drop>(
    doors: &mut Doors<L, D>,
    port: &mut WorldSessions<'_, W>,
    time: u64,
) -> Result<(), Fault>
    requires { 0 < (W.world port.old.world.now).top.shards }
    ensures same_world { port.new.world.ghost_name ≡ port.old.world.ghost_name }
    ensures topology { (W.world port.new.world.now).top ≡ (W.world port.old.world.now).top }
    ensures promised { OnOk result ((told : List ℕ) × (doors.new.ready.items ≡ doors.old.again.items ++ told) × D.tells doors.old.door told) }
    ensures settled { RoundSettled L.seen W.kept W.settles doors.old.hall.places.places.items port.old.world.now doors.new.hall.places.places.items port.new.world.now result }
    ensures round { OnOk result ((log : List Entry) × Round LIMIT L.seen (SessionReplies (W.world port.old.world.now).top (run_of (W.world port.new.world.now))) D.nobody D.announces time log doors.old (W.world port.old.world.now).events doors.new (W.world port.new.world.now).events) }
    ensures given { OnOk result (IsSound L.seen D.nobody doors.old → AreTaken doors.new.hall.places.places.items ⊎ (D.nobody doors.new.door ⊎ D.refuses doors.new.door)) }
    ensures sound { OnOk result (IsSound L.seen D.nobody doors.old → IsSound L.seen D.nobody doors.new) }
    ensures count { length doors.new.hall.places.places.items ≡ length doors.old.hall.places.places.items }
    ensures borne { doors.new.idle ≡ doors.old.idle }
    ensures spans { Spans L.seen (SessionReplies (W.world port.old.world.now).top (run_of (W.world port.new.world.now))) D.steps doors.old.idle doors.old.door doors.old.hall.places.places.items (W.world port.old.world.now).events doors.new.door doors.new.hall.places.places.items (W.world port.new.world.now).events }
{
    doors.round(port, time)
}

// A round of the doors, whose requests the sessions of the world answer. Gives how many were asked.
fn serve_round<W: Housed, L: ReadyLine + Drop, D: Doorway<L> + Drop>(
    doors: &mut Doors<L, D>,
    world: &mut W,
    time: u64,
) -> (u64, Result<(), Fault>)
    ensures topology { (W.world world.new).top ≡ (W.world world.old).top }
    ensures promised { OnOk result.1 ((told : List ℕ) × (doors.new.ready.items ≡ doors.old.again.items ++ told) × D.tells doors.old.door told) }
    ensures settled { RoundSettled L.seen W.kept W.settles doors.old.hall.places.places.items world.old doors.new.hall.places.places.items world.new result.1 }
    ensures round { OnOk result.1 ((log : List Entry) × Round LIMIT L.seen (SessionReplies (W.world world.old).top (run_of (W.world world.new))) D.nobody D.announces time log doors.old (W.world world.old).events doors.new (W.world world.new).events) }
    ensures given { OnOk result.1 (IsSound L.seen D.nobody doors.old → AreTaken doors.new.hall.places.places.items ⊎ (D.nobody doors.new.door ⊎ D.refuses doors.new.door)) }
    ensures sound { OnOk result.1 (IsSound L.seen D.nobody doors.old → IsSound L.seen D.nobody doors.new) }
    ensures count { length doors.new.hall.places.places.items ≡ length doors.old.hall.places.places.items }
    ensures borne { doors.new.idle ≡ doors.old.idle }
    ensures spans { Spans L.seen (SessionReplies (W.world world.old).top (run_of (W.world world.new))) D.steps doors.old.idle doors.old.door doors.old.hall.places.places.items (W.world world.old).events doors.new.door doors.new.hall.places.places.items (W.world world.new).events }
{
    // what is known of runs is known within the limits of a topology
    let _limits = world.topology();
    let mut port = WorldSessions::new(world);
    let went = round_by(doors, &mut port, time);
    (port.asked(), went)
}

// Has the shards collect, if that is due, where nothing waits. A clock of a shard that is spent collects no more.
fn rest<W: Housed, C: Clock>(world: &mut W, pace: &mut Pace, clock: &C)
    ensures topology { (W.world world.new).top ≡ (W.world world.old).top }
    ensures rested { HasRested (W.world world.old).top (W.world world.old).events (W.world world.new).events }
    ensures keeps_none { W.kept world.new ≡ W.kept world.old }
{
    if !pace.is_due(clock) || !world.is_quiet() {
        return;
    }
    let began = Instant::now(clock).ok();
    world.rest();
    pace.rest(clock, began);
}

impl<W: Housed> Server<W, ReadySocket, Sockets> {
    /// Listens on this port of 127.0.0.1, or on some free port for 0, with a place for each session of this world. Refused
    /// with `ReadFailed` where it can't listen, and with `Memory`; then the world is closed.
    pub fn open<R: Net>(rt: &R, alloc: Global, port: u16, world: W) -> Result<Server<W>, Fault>
        ensures world { IfOk result (λ s. s.world ≡ world) }
        ensures count { IfOk result (λ s. length s.doors.hall.places.places.items ≡ length (W.world world).top.homes) }
        ensures free { IfOk result (λ s. All (λ c. c ≡ None) s.doors.hall.places.places.items) }
        ensures none_promised { IfOk result (λ s. s.doors.again.items ≡ []) }
        ensures sound { IfOk result (λ s. IsSound ⟦<ReadySocket as ReadyLine>⟧.seen ⟦<Sockets as Doorway<ReadySocket>>⟧.nobody s.doors) }
    {
        match Sockets::open(rt, alloc, port) {
            Ok(door) => Server::new(alloc, door, world),
            Err(fault) => {
                world.close();
                Err(fault)
            }
        }
    }

    /// The port that it listens on; none where the system doesn't say.
    pub fn port(&self) -> Option<u16> {
        self.doors.port()
    }
}

impl<W: Housed, L: ReadyLine + Drop, D: Doorway<L> + Drop> Server<W, L, D> {
    /// A server of this world, whose clients come by this door, and which has a place for each session: who stands at a place
    /// asks as the session of its index. Refused with `Memory`; then the world is closed.
    pub fn new(alloc: Global, door: D, world: W) -> Result<Server<W, L, D>, Fault>
        ensures door { IfOk result (λ s. s.doors.door ≡ door) }
        ensures world { IfOk result (λ s. s.world ≡ world) }
        ensures count { IfOk result (λ s. length s.doors.hall.places.places.items ≡ length (W.world world).top.homes) }
        ensures free { IfOk result (λ s. All (λ c. c ≡ None) s.doors.hall.places.places.items) }
        ensures none_promised { IfOk result (λ s. s.doors.again.items ≡ []) }
        ensures sound { IfOk result (λ s. IsSound L.seen D.nobody s.doors) }
    {
        let places = world.topology().homes().len();
        match Doors::new(alloc, door, places) {
            Ok(doors) => Ok(Server {
                doors,
                world,
                pace: Pace::new(),
                timer: Timer::new(),
                reporter: Reporter::new(),
            }),
            Err(fault) => {
                world.close();
                Err(fault)
            }
        }
    }

    /// The same server, which bears those that send nothing for so many milliseconds, where others may wait for a place.
    pub fn with_idle(self, idle: u64) -> Server<W, L, D>
        ensures { result ≡ record self { doors = record self.doors { idle = Some idle } } }
    {
        let Server {
            doors,
            world,
            pace,
            timer,
            reporter,
        } = self;
        Server {
            doors: doors.with_idle(idle),
            world,
            pace,
            timer,
            reporter,
        }
    }

    /// The same server, which reports each so many milliseconds, and waits no longer than that.
    pub fn with_report(self, period: u64) -> Server<W, L, D>
        ensures doors { result.doors ≡ record self.doors { longest = Some period } }
        ensures world { result.world ≡ self.world }
    {
        let Server {
            doors,
            world,
            pace,
            timer,
            reporter,
        } = self;
        Server {
            doors: doors.with_longest(period),
            world,
            pace,
            timer,
            reporter: reporter.each(period),
        }
    }

    /// What is served and held, where a report was asked for and is due. Linear in the places, and in the rows of all shards and
    /// their columns, which are counted: requests wait for that.
    pub fn report<C: Clock>(&mut self, clock: &C) -> Option<Report>
        ensures open { IfSome result (λ r. r.open ≡ count_by is_some self.old.doors.hall.places.places.items) }
        ensures accepted { IfSome result (λ r. r.accepted ≡ self.old.doors.hall.accepted) }
        ensures held { IfSome result (λ r. (a : Actors) × StandsAtRest (W.world self.old.world).top (W.world self.old.world).events a × (r.held ≡ held_by_all a.shards.items)) }
        ensures same { (self.new.doors ≡ self.old.doors) × (self.new.world ≡ self.old.world) }
    {
        let time = self.timer.millis(clock);
        if !self.reporter.is_due(time) {
            return None;
        }
        Some(Report {
            open: self.doors.open_places(),
            accepted: self.doors.accepted(),
            rate: self.reporter.take_rate(time),
            held: self.world.holdings(),
            waiting: self.doors.waiting(),
            longest: self.pace.take_longest(),
        })
    }

    /// The connections that ended with a fault in the last round, in the order in which they were closed.
    pub fn ended(&self) -> &[Ended]
        ensures { result.now ≡ self.now.doors.hall.ended.items }
    {
        self.doors.ended()
    }

    /// The world.
    pub fn world(&self) -> &W
        ensures { result.now ≡ self.now.world }
    {
        &self.world
    }

    /// How many connections were given a place.
    pub fn accepted(&self) -> u64
        ensures { result ≡ self.now.doors.hall.accepted }
    {
        self.doors.accepted()
    }

    /// Whether no connection stands at a place. Linear in the places.
    pub fn is_empty(&self) -> bool
        ensures { result ≡ true → All (λ c. c ≡ None) self.now.doors.hall.places.places.items }
    {
        self.doors.are_empty()
    }

    /// A round of the doors, which begins now: each connection that is ready or was promised one has a turn, and the session of its
    /// place answers what it asks; those that are over leave, or one that was silent for too long where somebody waits, and free
    /// places are given to those who came. Then, after 1,024 requests and where
    /// nothing waits, each shard may collect up to its own clock: no read is given up by that. Refused as `Doors::round` is, also
    /// where the world can't settle; then no further round should be asked for. Costs what that round does, its requests, and the collection what the listed rows
    /// hold, which takes a seventeenth of the time at most, over all rounds.
    pub fn round<C: Clock>(&mut self, clock: &C) -> Result<(), Fault>
        // all that happened to the world is requests that were answered, and then collections at rest; no line said a byte more
        // before the world had settled behind those
        ensures answered { HasAnswered W.world W.kept W.settles L.seen D.steps self.old self.new result }
        // what was settled before lasts, whatever comes meanwhile
        ensures lasts { W.lasts (W.kept self.old.world) (W.kept self.new.world) }
        // and all that is promised of a world holds of it; no read was given up
        ensures promises { KeepsPromises (W.world self.new.world) }
        ensures topology { (W.world self.new.world).top ≡ (W.world self.old.world).top }
        // who was promised a turn is among those that are ready
        ensures promised { OnOk result ((told : List ℕ) × (self.new.doors.ready.items ≡ self.old.doors.again.items ++ told) × D.tells self.old.doors.door told) }
        ensures round { OnOk result ((time : ℕ) × (log : List Entry) × (answered : List RunEvent) × Round LIMIT L.seen (SessionReplies (W.world self.old.world).top (run_of (W.world self.new.world))) D.nobody D.announces time log self.old.doors (W.world self.old.world).events self.new.doors answered × HasRested (W.world self.old.world).top answered (W.world self.new.world).events) }
        // where a place is free, nobody waits for one, or accepting was refused
        ensures given { OnOk result (IsSound L.seen D.nobody self.old.doors → AreTaken self.new.doors.hall.places.places.items ⊎ (D.nobody self.new.doors.door ⊎ D.refuses self.new.doors.door)) }
        ensures sound { OnOk result (IsSound L.seen D.nobody self.old.doors → IsSound L.seen D.nobody self.new.doors) }
        ensures count { length self.new.doors.hall.places.places.items ≡ length self.old.doors.hall.places.places.items }
        ensures borne { self.new.doors.idle ≡ self.old.doors.idle }
        // at each place what was asked there is what its connections asked, and their lines are told the replies
        ensures spans { HasSpanned W.world L.seen D.steps self.old self.new }
    {
        let time = self.timer.millis(clock);
        let (asked, went) = serve_round(&mut self.doors, &mut self.world, time);
        self.pace.add(asked);
        self.reporter.add(asked);
        rest(&mut self.world, &mut self.pace, clock);
        self.world.promise();
        // what is known of runs is known within the limits of a topology
        let _limits = self.world.topology();
        went
    }

    /// Ends the server: connections are dropped, and the world is given up.
    pub fn close(self) {
        let Server {
            doors: _doors,
            world,
            pace: _,
            timer: _,
            reporter: _,
        } = self;
        world.close();
    }
}
