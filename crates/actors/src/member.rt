//! A machine without its journal.
ghost use Rattle.std.specs.Prelude.{◌≡◌, ◌==◌, ◌&&◌, ◌<◌, ◌⊎◌, [], ℕ, List, true, IfOk, IfErr, OnErr};
ghost use Rattle.std.specs.List.{list_all};
ghost use Rattle.messages.specs.declared.envelope.Envelope.{Envelope};
ghost use Rattle.messages.specs.declared.outcome.Outcome.{Outcome};
ghost use Rattle.messages.specs.declared.event.ActorEvent.{ActorEvent};
ghost use Rattle.messages.specs.Topology.{TopologyValue, node_count};
ghost use Rattle.actors.specs.Journals.{number_after};
ghost use Rattle.actors.specs.Members.{HasPast, GoesOn, HasSamePast};

use crate::machine::Machine;
use crate::recorded::{are_at, both, clock_with};
use logical_time::{Fault, Node};
use messages::{ActorEvent, Envelope, Outbox, Outcome, Topology};
use std::alloc::Global;

/// What an event of a member made.
#[derive(Drop)]
pub struct Happened {
    /// The number of the operation that it submitted, if it submitted one.
    pub number: Option<u64>,
    /// What it ended, if it ended an operation, with the operation's number.
    pub ended: Option<(u64, Outcome)>,
    /// Whether each envelope that it sent is from its actor, and carries its clock. It does, in each run.
    pub sound: bool,
}

/// A machine with what is needed of its journal: how many operations were accepted, its clock, and whether what was sent carries
/// it. It must be closed.
pub struct Member<M: Machine> {
    /// Its node.
    pub node: Node,
    /// The machine, of which each outcome is taken at its event.
    pub machine: M,
    /// How many operations were accepted.
    pub accepted: u64,
    /// Its clock, by its events alone, and 2^48 where that is above.
    pub clock: u64,
    /// Whether each envelope that was sent carries the clock of its event. It does, in each run.
    pub timed: bool,
}

// Whether each of these envelopes is from this node.
fn are_from(envelopes: &[Envelope], node: Node) -> bool
    ensures { result ≡ list_all (λ (e : Envelope). e.from == node) envelopes.now }
{
    envelopes.iter().all(|envelope| envelope.from == node)
}

// Lets an outcome go.
fn let_go(_outcome: Option<(u64, Outcome)>) {}

impl<M: Machine> Member<M> {
    /// The actor with a node, before its first event. Refused with `Memory` alone.
    pub fn new(alloc: Global, topology: &Topology, node: Node) -> Result<Member<M>, Fault>
        requires { node < node_count topology.now }
        ensures past { IfOk result (HasPast M.came_from M.untaken topology.now [] [] []) }
        ensures node { IfOk result (λ m. m.node ≡ node) }
        ensures timed { IfOk result (λ m. m.timed ≡ true) }
        ensures memory { IfErr result (λ e. e ≡ Fault.Memory) }
    {
        let machine = M::new(alloc, topology, node)?;
        Ok(Member {
            node,
            machine,
            accepted: 0,
            clock: 0,
            timed: true,
        })
    }

    /// Does one event, and puts what it sends into an empty outbox. Whatever past the actor has, it then has that with this
    /// event; the outcome that the event gave is handed out. Costs what the machine's event does: the event isn't copied.
    /// Refused as the machine refuses it, and with `Memory`; then nothing changes, and the event is handed back.
    pub fn happen(
        &mut self,
        event: ActorEvent,
        sends: &mut Outbox,
    ) -> Result<Happened, (Fault, ActorEvent)>
        requires { sends.old.sent ≡ [] }
        ensures past { IfOk result (λ h. GoesOn M.came_from M.untaken event h.ended sends.new.sent self.old self.new) }
        ensures number { (top : TopologyValue) (journal : List ActorEvent) (outcomes : List (ℕ × Outcome)) (sent : List Envelope) → HasPast M.came_from M.untaken top journal outcomes sent self.old
            → IfOk result (λ h. h.number ≡ number_after journal event) }
        ensures sound { IfOk result (λ h. h.sound ≡ (list_all (λ (e : Envelope). e.from == self.old.node) sends.new.sent && list_all (λ (e : Envelope). e.time == self.new.clock) sends.new.sent)) }
        ensures timed { IfOk result (λ h. self.new.timed ≡ (self.old.timed && list_all (λ (e : Envelope). e.time == self.new.clock) sends.new.sent)) }
        ensures same { OnErr result (HasSamePast M.came_from M.untaken self.old self.new) }
        ensures refused { (top : TopologyValue) (journal : List ActorEvent) (outcomes : List (ℕ × Outcome)) (sent : List Envelope) → HasPast M.came_from M.untaken top journal outcomes sent self.old
            → IfErr result (λ e. (e.0 ≡ Fault.Memory) ⊎ M.refuses top self.old.node journal event e.0) }
        ensures still { OnErr result (self.new.timed ≡ self.old.timed) }
        ensures free { OnErr result (M.is_free self.new.machine ≡ M.is_free self.old.machine) }
        ensures node { self.new.node ≡ self.old.node }
        ensures unsent { OnErr result (sends.new.sent ≡ []) }
        ensures back { IfErr result (λ e. e.1 ≡ event) }
    {
        // there is none, since each is taken at its event
        let_go(self.machine.take_answer());
        let clock = clock_with(self.clock, &event);
        let number = match self.machine.step(event, sends) {
            Ok(number) => number,
            Err(refused) => return Err(refused),
        };
        let on_time = are_at(sends.as_slice(), clock);
        self.clock = clock;
        self.timed = both(self.timed, on_time);
        self.accepted = number.unwrap_or(self.accepted);
        let own = are_from(sends.as_slice(), self.node);
        let ended = self.machine.take_answer();
        Ok(Happened {
            number,
            ended,
            sound: both(own, on_time),
        })
    }

    /// Whether it is free for an operation.
    pub fn free(&self) -> bool
        ensures { result ≡ M.is_free self.now.machine }
    {
        self.machine.free()
    }

    /// Ends it.
    pub fn close(self) {
        let Member {
            node: _,
            machine,
            accepted: _,
            clock: _,
            timed: _,
        } = self;
        machine.close();
    }
}
