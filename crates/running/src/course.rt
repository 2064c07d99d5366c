//! How far an actor came with what was asked of it.
ghost use Rattle.std.specs.Prelude.{◌≡◌, ◌↔◌, ◌≤◌, ◌++◌, ◌∷◌, [], ℕ, List, true, false, not, take, length, slice_get, Some, None, option_copied, option_to_list};
ghost use Rattle.std.specs.Option.{is_none};
ghost use Rattle.logical_time.specs.Fault.{IsRefusedFor};
ghost use Rattle.messages.specs.declared.event.ActorEvent.{ActorEvent};
ghost use Rattle.messages.specs.declared.event.ActorEvent.TheVariants as event;
ghost use Rattle.messages.specs.Actors.{envelope_of, opening_home};
ghost use Rattle.messages.specs.Submitting.{move_fault, plan_fault};
ghost use Rattle.messages.specs.Topology.{TopologyValue};
ghost use Rattle.actors.specs.Journals.{IsOwn};
ghost use Rattle.running.specs.Asked.{asked_by, fault_of, home_by, own_events, HasTaken, DidAsked};
ghost use Rattle.running.specs.Course.{IsWithin, HasCome, DidNotDo, HasStopped};

use actors::Seat;
use equality::same_op;
use logical_time::{Fault, Node, Time};
use messages::{ActorEvent, Op, Topology};
use planner::{check_batch, check_read};
use threaded::Actor;
use workload::{Script, ScriptEvent};

/// How far an actor came with what was asked of it.
#[derive(Drop)]
pub struct Course {
    /// How many events of its journal were looked at.
    pub events: usize,
    /// How many of its refusals.
    pub refusals: usize,
    /// How many operations it accepted until there.
    pub accepted: usize,
    /// Its home after these: where the last accepted move takes it.
    pub home: u16,
}

/// Whether a move of a session is refused: to a data centre that isn't there, or to where the session is.
fn check_move(topology: &Topology, home: u16, dc: u16) -> Result<(), Fault>
    ensures { IsRefusedFor (move_fault topology.now home dc) result }
{
    if dc >= topology.dcs() {
        return Err(Fault::UnknownHome);
    }
    if dc == home {
        return Err(Fault::AlreadyHome);
    }
    Ok(())
}

/// Whether an operation of a session at this home is refused for what it asks.
fn check(topology: &Topology, home: u16, op: &Op) -> Result<(), Fault>
    ensures { IsRefusedFor (plan_fault topology.now home op.now) result }
{
    match op {
        Op::Batch(batch) => check_batch(topology.schema(), batch.get()),
        Op::Read(read) => check_read(topology.schema(), read.get()),
        Op::Move { dc } => check_move(topology, home, *dc),
    }
}

/// The home after an operation that is accepted.
fn home_after(home: u16, op: &Op) -> u16
    ensures { result ≡ home_by home op.now }
{
    match op {
        Op::Batch(_) | Op::Read(_) => home,
        Op::Move { dc } => *dc,
    }
}

/// The home of the session with this node before its first event.
fn first_home(topology: &Topology, node: Node) -> u16
    ensures { result ≡ opening_home topology.now node }
{
    match topology.home_of(node) {
        Some(home) => home,
        None => 0,
    }
}

/// Whether a message brought the event.
fn is_brought(event: &ActorEvent) -> bool
    ensures { result ≡ not (is_none (envelope_of event.now)) }
{
    matches!(event, ActorEvent::Handle(_))
}

/// The place of the next event that no message brought, from a place on; the end, if there is none.
fn next_own(journal: &[ActorEvent], first: usize) -> usize
    requires { first ≤ length journal.now }
    ensures within { (first ≤ result) × (result ≤ length journal.now) }
    ensures passed { own_events (take result journal.now) ≡ own_events (take first journal.now) }
    ensures own { (x : ActorEvent) → slice_get journal.now result ≡ Some x → IsOwn x }
{
    for place in first..journal.len() {
        if !is_brought(&journal[place]) {
            return place;
        }
    }
    journal.len()
}

/// What stands at a place, if there is so much.
#[tactic(auto, using(crate::proofs::AskedMore::found_there, crate::proofs::AskedMore::nothing_there))]
fn item_at<T>(items: &[T], place: usize) -> Option<&T>
    ensures { option_copied result ≡ slice_get items.now place }
{
    if place < items.len() {
        return Some(&items[place]);
    }
    None
}

/// Whether this is the event that submits the operation.
fn is_submission(found: Option<&ActorEvent>, op: &Op) -> bool
    ensures { (result ≡ true) ↔ (option_copied found.entry ≡ Some (event.Submit op.now)) }
{
    match found {
        Some(ActorEvent::Submit(own)) => same_op(own, op),
        Some(ActorEvent::Handle(_)) | Some(ActorEvent::Collect(_)) | None => false,
    }
}

/// Whether this is the event that collects up to the time.
fn is_collection(found: Option<&ActorEvent>, time: Time) -> bool
    ensures { (result ≡ true) ↔ (option_copied found.entry ≡ Some (event.Collect time)) }
{
    match found {
        Some(ActorEvent::Collect(own)) => *own == time,
        Some(ActorEvent::Handle(_)) | Some(ActorEvent::Submit(_)) | None => false,
    }
}

/// Whether this is the refusal with the fault, after so many accepted operations.
fn is_refusal(refusal: Option<&(u64, Fault)>, accepted: u64, fault: Fault) -> bool
    ensures { (result ≡ true) ↔ (option_copied refusal.entry ≡ Some (accepted, fault)) }
{
    match refusal {
        Some(refusal) => refusal.0 == accepted && refusal.1 == fault,
        None => false,
    }
}

impl Course {
    /// The operation was accepted, if it is what the actor did next of its own.
    fn submits(&mut self, seat: &Seat<Actor>, op: &Op) -> bool
        requires { IsWithin seat.now self.old }
        ensures within { IsWithin seat.now self.new }
        ensures came { (top : TopologyValue) (first : ℕ) (done : List ActorEvent) → plan_fault top self.old.home op.now ≡ None → HasCome top first seat.now self.old done
            → result ≡ true → HasCome top first seat.now self.new (done ++ event.Submit op.now ∷ []) }
        ensures stopped { (top : TopologyValue) (first : ℕ) (done : List ActorEvent) → plan_fault top self.old.home op.now ≡ None → HasCome top first seat.now self.old done
            → result ≡ false → DidNotDo top first seat.now done (event.Submit op.now) }
    {
        let journal = seat.journal();
        self.events = next_own(journal, self.events);
        if !is_submission(item_at(journal, self.events), op) {
            return false;
        }
        self.events += 1;
        self.accepted += 1;
        self.home = home_after(self.home, op);
        true
    }

    /// The actor collected up to this time, if that is what it did next of its own.
    fn collects(&mut self, seat: &Seat<Actor>, time: Time) -> bool
        requires { IsWithin seat.now self.old }
        ensures within { IsWithin seat.now self.new }
        ensures came { (top : TopologyValue) (first : ℕ) (done : List ActorEvent) → HasCome top first seat.now self.old done
            → result ≡ true → HasCome top first seat.now self.new (done ++ event.Collect time ∷ []) }
        ensures stopped { (top : TopologyValue) (first : ℕ) (done : List ActorEvent) → HasCome top first seat.now self.old done
            → result ≡ false → DidNotDo top first seat.now done (event.Collect time) }
    {
        let journal = seat.journal();
        self.events = next_own(journal, self.events);
        if !is_collection(item_at(journal, self.events), time) {
            return false;
        }
        self.events += 1;
        true
    }

    /// What was asked was refused with this fault, if that is the next refusal, after as many accepted operations.
    fn refuses(&mut self, seat: &Seat<Actor>, fault: Fault) -> bool
        requires { IsWithin seat.now self.old }
        ensures within { IsWithin seat.now self.new }
        ensures came { (top : TopologyValue) (first : ℕ) (x : ActorEvent) (done : List ActorEvent) → fault_of top self.old.home x ≡ Some fault → HasCome top first seat.now self.old done
            → result ≡ true → HasCome top first seat.now self.new (done ++ x ∷ []) }
        ensures stopped { (top : TopologyValue) (first : ℕ) (x : ActorEvent) (done : List ActorEvent) → fault_of top self.old.home x ≡ Some fault → HasCome top first seat.now self.old done
            → result ≡ false → DidNotDo top first seat.now done x }
    {
        let refusals = seat.refusals();
        if !is_refusal(
            item_at(refusals, self.refusals),
            self.accepted as u64,
            fault,
        ) {
            return false;
        }
        self.refusals += 1;
        true
    }

    /// The actor with this node did what an event of a script asks of it, if it asks it for something.
    fn goes_on(
        &mut self,
        seat: &Seat<Actor>,
        node: Node,
        topology: &Topology,
        event: &ScriptEvent,
    ) -> bool
        requires { IsWithin seat.now self.old }
        ensures within { IsWithin seat.now self.new }
        ensures came { (first : ℕ) (done : List ActorEvent) → HasCome topology.now first seat.now self.old done
            → result ≡ true → HasCome topology.now first seat.now self.new (done ++ option_to_list (asked_by node event.now)) }
        ensures stopped { (first : ℕ) (done : List ActorEvent) → HasCome topology.now first seat.now self.old done
            → result ≡ false → HasStopped topology.now first seat.now done (asked_by node event.now) }
    {
        match event {
            ScriptEvent::Submit { session, op } if *session == node => {
                match check(topology, self.home, op) {
                    Ok(()) => self.submits(seat, op),
                    Err(fault) => self.refuses(seat, fault),
                }
            }
            ScriptEvent::Collect { shard, time } if *shard == node => self.collects(seat, *time),
            _ => true,
        }
    }

    /// Whether the actor did nothing else of its own, and nothing else was refused.
    fn is_whole(&self, seat: &Seat<Actor>) -> bool
        requires { IsWithin seat.now self.now }
        ensures { (top : TopologyValue) (first : ℕ) (done : List ActorEvent) → HasCome top first seat.now self.now done → (result ≡ true) ↔ HasTaken top first done seat.now }
    {
        let journal = seat.journal();
        if next_own(journal, self.events) < journal.len() {
            return false;
        }
        if self.refusals < seat.refusals().len() {
            return false;
        }
        true
    }
}

/// Whether the actor of a seat did all that the script asks of the actor with this node, and nothing else of its own. Linear in
/// the script and the journal, beside what operations are long.
pub(crate) fn has_taken(script: &Script, node: Node, seat: &Seat<Actor>) -> bool
    ensures { (result ≡ true) ↔ DidAsked script.now node seat.now }
{
    let events = script.events.as_slice();
    let mut course = Course {
        events: 0,
        refusals: 0,
        accepted: 0,
        home: first_home(&script.topology, node),
    };
    for place in 0..events.len() {
        if !course.goes_on(seat, node, &script.topology, &events[place]) {
            return false;
        }
    }
    course.is_whole(seat)
}
