//! The entries of a transcript, lent from the seats of sessions.
ghost use Rattle.std.specs.Prelude.{◌≡◌, ◌<◌, ◌∷◌, [], ℕ, true, List, map, take, Some, None, option_copied, IfSome, IfNone};
ghost use Rattle.std.specs.Iterator.{YieldsFirstBy, item_count};
ghost use Rattle.std.specs.Option.{unwrap_or};
ghost use Rattle.messages.specs.Topology.{TopologyValue, is_topology, node_count};
ghost use Rattle.messages.specs.Actors as spec;
ghost use Rattle.actors.specs.Seats.{SeatValue};
ghost use Rattle.world.specs.declared.run_event.RunEvent.{RunEvent};
ghost use Rattle.world.specs.Run.{run};
ghost use Rattle.world.specs.Journals.{IsRunOf, ended_at};
ghost use Rattle.world.specs.Threads as threads;
ghost use Rattle.threaded.specs.Machines.{as_finished};
ghost use Rattle.threaded.specs.OneRun.{seat_of, journal_of};
ghost use Rattle.threaded.specs.Concluded.{by_session};
ghost use Rattle.threaded.specs.Entries.{completed_of, entries_from, entries_at, entries_of};
ghost use Rattle.threaded.specs.Submitted.{count_of, IsFound};

use crate::actor::Actor;
use crate::concluding::place_of;
use actors::Seat;
use logical_time::Node;
use messages::{ActorEvent, Op, Outcome, Topology};
use std::marker::Model;

/// The operation that an event submits, if it submits one.
pub(crate) fn submitted(event: &ActorEvent) -> Option<&Op>
    ensures { option_copied result ≡ threads.op_in event.now }
{
    match event {
        ActorEvent::Submit(op) => Some(op),
        _ => None,
    }
}

/// The operation with a number, and its place, if there is one: by a walk from a place on, before which so many stand.
fn find_from(journal: &[ActorEvent], first: usize, passed: u64, number: u64) -> Option<(usize, &Op)>
    requires passed { passed ≡ count_of (take first journal.now) }
    requires lower { passed < number }
    ensures some { IfSome result (IsFound journal.now number) }
    ensures none { IfNone result (threads.op_numbered journal.now number ≡ None) }
{
    let mut passed = passed;
    for place in first..journal.len() {
        if let Some(op) = submitted(&journal[place]) {
            passed += 1;
            if passed == number {
                return Some((place, op));
            }
        }
    }
    None
}

/// The journal of a session, in which its operations are looked up by their numbers.
#[derive(Drop)]
struct Search<'a> {
    journal: &'a [ActorEvent],
    /// How many events were passed.
    events: usize,
    /// How many operations they submit.
    passed: u64,
}

impl<'a> Model for Search<'a> {
    ghost use Rattle.std.specs.Prelude.{◌≡◌, List, take};
    ghost use Rattle.messages.specs.declared.event.ActorEvent.{ActorEvent};
    ghost use Rattle.threaded.specs.Submitted.{count_of};

    ghost Value = { List ActorEvent };

    ghost view = { λ s. s.journal.now };

    ghost invariant = { λ s. s.passed ≡ count_of (take s.events s.journal.now) };
}

impl<'a> Search<'a> {
    fn new(journal: &'a [ActorEvent]) -> Search<'a>
        ensures { result ≡ journal.now }
    {
        Search {
            journal,
            events: 0,
            passed: 0,
        }
    }

    /// The operation with a number from 1, and its place, if there is one.
    fn found(&self, number: u64) -> Option<(usize, &'a Op)>
        requires { 0 < number }
        ensures some { IfSome result (IsFound self.now number) }
        ensures none { IfNone result (threads.op_numbered self.now number ≡ None) }
    {
        if self.passed < number {
            find_from(self.journal, self.events, self.passed, number)
        } else {
            find_from(self.journal, 0, 0, number)
        }
    }

    /// The operation with a number, if there is one. Goes on from the one that was found last, where that has a lower number:
    /// all of a session, in order, cost one walk through its journal.
    fn find(&mut self, number: u64) -> Option<&'a Op>
        ensures op { option_copied result ≡ threads.op_numbered self.old number }
        ensures same { self.new ≡ self.old }
    {
        if number == 0 {
            return None;
        }
        let (place, op) = self.found(number)?;
        self.events = place + 1;
        self.passed = number;
        Some(op)
    }
}

/// An operation that ended, as its session's seat keeps it.
#[derive(Clone, Copy)]
pub struct Ended<'a> {
    /// The session's node.
    pub node: Node,
    /// Its number among the session's operations, from 1.
    pub number: u64,
    /// The data centre where it was submitted: the home that a move leaves.
    pub home: u16,
    /// What was asked.
    pub op: &'a Op,
    /// What came of it.
    pub outcome: &'a Outcome,
}

/// The home of a session after an outcome: a move's is the new one.
fn home_after(home: u16, outcome: &Outcome) -> u16
    ensures { result ≡ spec.home_after home outcome.now }
{
    match outcome {
        Outcome::Moved { dc, floor: _ } => *dc,
        Outcome::Wrote { .. } | Outcome::Read { .. } | Outcome::Collected => home,
    }
}

/// The operations of a session that ended and are still to come, in the order of their outcomes.
#[derive(Drop)]
struct OfSession<'a> {
    node: Node,
    /// The home after the outcomes that were passed.
    home: u16,
    search: Search<'a>,
    outcomes: &'a [(u64, Outcome)],
}

impl<'a> Model for OfSession<'a> {
    ghost use Rattle.std.specs.Prelude.{List};
    ghost use Rattle.world.specs.declared.completed.Completed.{Completed};
    ghost use Rattle.threaded.specs.Entries.{entries_from};

    ghost Value = { List Completed };

    ghost view = { λ s. entries_from s.node s.home s.search s.outcomes.now };
}

impl<'a> OfSession<'a> {
    fn new(node: Node, home: u16, seat: &'a Seat<Actor>) -> OfSession<'a>
        ensures { result ≡ entries_from node home seat.now.journal seat.now.outcomes }
    {
        OfSession {
            node,
            home,
            search: Search::new(seat.journal()),
            outcomes: seat.outcomes(),
        }
    }

    fn next(&mut self) -> Option<Ended<'a>>
        ensures some { IfSome result (λ ended. self.old ≡ completed_of ended ∷ self.new) }
        ensures none { IfNone result (self.old ≡ []) }
        ensures still { IfNone result (self.new ≡ []) }
    {
        while let Some((first, others)) = self.outcomes.split_first() {
            let home = self.home;
            self.home = home_after(home, &first.1);
            self.outcomes = others;
            if let Some(op) = self.search.find(first.0) {
                return Some(Ended {
                    node: self.node,
                    number: first.0,
                    home,
                    op,
                    outcome: &first.1,
                });
            }
        }
        None
    }
}

/// The operations of the session with this node that ended, if it has a seat.
fn of_session<'a>(
    topology: &Topology,
    seats: &'a [Seat<Actor>],
    node: Node,
) -> Option<OfSession<'a>>
    ensures { unwrap_or result [] ≡ entries_at topology.now node (seat_of seats.now node) }
{
    let place = place_of(seats, node)?;
    let home = topology.home_of(node).unwrap_or(0);
    Some(OfSession::new(node, home, &seats[place]))
}

/// The operations that ended and are still to come: by the nodes of their sessions, each session's in the order of its
/// outcomes. They are lent from the seats, and each session's journal is gone through once.
#[derive(Drop)]
pub struct AllEnded<'a> {
    topology: &'a Topology,
    seats: &'a [Seat<Actor>],
    /// How many sessions were begun with.
    sessions: u16,
    /// What is left of the last of them.
    left: Option<OfSession<'a>>,
}

impl<'a> Model for AllEnded<'a> {
    ghost use Rattle.std.specs.Prelude.{◌++◌, [], List};
    ghost use Rattle.std.specs.Option.{unwrap_or};
    ghost use Rattle.world.specs.declared.completed.Completed.{Completed};
    ghost use Rattle.threaded.specs.Entries.{entries_after};

    ghost Value = { List Completed };

    ghost view = { λ a. unwrap_or a.left [] ++ entries_after a.topology.now a.seats.now a.sessions };
}

/// The next of the session that was begun with.
fn next_of<'a>(left: &mut Option<OfSession<'a>>) -> Option<Ended<'a>>
    ensures some { IfSome result (λ ended. unwrap_or left.old [] ≡ completed_of ended ∷ unwrap_or left.new []) }
    ensures none { IfNone result (unwrap_or left.old [] ≡ []) }
    ensures still { IfNone result (unwrap_or left.new [] ≡ []) }
{
    let Some(session) = left else {
        return None;
    };
    session.next()
}

impl<'a> AllEnded<'a> {
    /// All that ended in the sessions of a topology, by their seats.
    pub(crate) fn over(topology: &'a Topology, seats: &'a [Seat<Actor>]) -> AllEnded<'a>
        ensures { result ≡ entries_of topology.now seats.now }
    {
        AllEnded {
            topology,
            seats,
            sessions: 0,
            left: None,
        }
    }
}

impl<'a> Iterator for AllEnded<'a> {
    type Item = Ended<'a>;

    ghost next_gives = { YieldsFirstBy completed_of (λ rest. rest) };

    ghost remaining = { item_count (λ rest. rest) };

    fn next(&mut self) -> Option<Ended<'a>> {
        loop {
            if let Some(ended) = next_of(&mut self.left) {
                return Some(ended);
            }
            if usize::from(self.sessions) >= self.topology.homes().len() {
                return None;
            }
            let node = self.topology.session_node(self.sessions);
            self.left = of_session(self.topology, self.seats, node);
            self.sessions += 1;
        }
    }
}

/// Where the journals of seats are a run's, and each seat has the outcomes that the run has of its actor, the entries of all
/// sessions are those of the run's transcript. Does nothing; its contract is the law.
#[tactic(auto, using(crate::proofs::Told::entries_are))]
pub fn entries_are_the_transcript()
    ensures { (top : TopologyValue) (seats : List SeatValue) → is_topology top.dcs top.shards top.homes ≡ true → (events : List RunEvent) → IsRunOf top (journal_of seats) events
        → ((node : ℕ) → node < node_count top → (s : SeatValue) × (seat_of seats node ≡ Some s))
        → ((node : ℕ) (s : SeatValue) → node < node_count top → seat_of seats node ≡ Some s → map as_finished s.outcomes ≡ ended_at (run top events) node)
        → entries_of top seats ≡ by_session top (run top events).transcript }
{}
