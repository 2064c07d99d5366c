//! A machine with its journal.
ghost use Rattle.std.specs.Prelude.{◌==◌, ◌&&◌, ◌^◌, ◌+◌, min, slice_get, Some, ◌≡◌, ◌≤◌, ◌<◌, ◌⊎◌, ◌++◌, ◌∷◌, [], ℕ, true, List, None, option_to_list, length, vec_len, vec_capacity, IfOk, OnOk, IfErr, OnErr};
ghost use Rattle.messages.specs.declared.envelope.Envelope.{Envelope};
ghost use Rattle.messages.specs.Actors.{envelope_of};
ghost use Rattle.messages.specs.Topology.{TopologyValue, node_count};
ghost use Rattle.actors.specs.Journals.{op_in, number_after, sends_to, IsBeginning};
ghost use Rattle.std.specs.Option.{option_copied};
ghost use Rattle.std.specs.List.{list_all};
ghost use Rattle.actors.specs.Shown as shown;
ghost use Rattle.actors.specs.Machines.{IsRecorded};

use crate::machine::Machine;
use logical_time::{Fault, Node};
use messages::{ActorEvent, Envelope, Op, Outbox, Outcome, Topology};
use std::alloc::{AllocError, Global};
use std::mem;

/// A machine with all that its events made of it.
pub struct Recorded<M: Machine> {
    /// The machine, of which each outcome is taken at its event.
    pub machine: M,
    /// Its events, oldest first.
    pub journal: Vec<ActorEvent>,
    /// How many events the journal may hold.
    pub limit: usize,
    /// How many operations were accepted.
    pub accepted: u64,
    /// The outcomes with the numbers of their operations, oldest first.
    pub outcomes: Vec<(u64, Outcome)>,
    /// What its events sent and isn't on its way yet, in order, but for what the last event sent.
    pub outbox: Outbox,
    /// What the last event sent, where that isn't in the outbox yet.
    pub fresh: Outbox,
    /// Its clock, by its events alone, and 2^48 where that is above.
    pub clock: u64,
    /// Whether each envelope that was sent carries the clock of its event.
    pub timed: bool,
}

/// A copy of an event, which shares the bytes of keys, names and values. Fails by memory alone.
fn copied(event: &ActorEvent) -> Result<ActorEvent, AllocError>
    ensures { IfOk result (λ copy. copy ≡ event.now) }
{
    match event {
        ActorEvent::Submit(op) => Ok(ActorEvent::Submit(op.copied()?)),
        ActorEvent::Handle(envelope) => Ok(ActorEvent::Handle(envelope.copied()?)),
        ActorEvent::Collect(time) => Ok(ActorEvent::Collect(*time)),
    }
}

/// Lets an operation go.
fn let_go_op(_op: Op) {}

/// Lets an envelope go.
pub fn let_go_envelope(_envelope: Envelope) {}

/// Lets an event go.
pub fn let_go(event: ActorEvent) {
    match event {
        ActorEvent::Submit(op) => let_go_op(op),
        ActorEvent::Handle(envelope) => let_go_envelope(envelope),
        ActorEvent::Collect(_) => {}
    }
}

/// The operation of an event that submits one.
pub fn op_of(event: ActorEvent) -> Option<Op>
    ensures { result ≡ op_in event }
{
    match event {
        ActorEvent::Submit(op) => Some(op),
        ActorEvent::Handle(envelope) => {
            let_go_envelope(envelope);
            None
        }
        ActorEvent::Collect(_) => None,
    }
}

/// The envelope of an event that handles one.
pub fn envelope_in(event: ActorEvent) -> Option<Envelope>
    ensures { result ≡ envelope_of event }
{
    match event {
        ActorEvent::Handle(envelope) => Some(envelope),
        ActorEvent::Submit(op) => {
            let_go_op(op);
            None
        }
        ActorEvent::Collect(_) => None,
    }
}

/// The first number that is no time.
const END: u64 = 1 << 48;

/// The clock of an actor after an event, by its clock before it, and 2^48 where that is above.
#[tactic(auto, using(crate::proofs::Clocks::clamped))]
pub(crate) fn clock_with(clock: u64, event: &ActorEvent) -> u64
    ensures value { (c : ℕ) → clock ≡ min c (2 ^ 48) → result ≡ min (shown.clock_with c event.now) (2 ^ 48) }
    ensures limit { result ≤ 2 ^ 48 }
{
    let time = match event {
        ActorEvent::Handle(envelope) => envelope.time.get(),
        ActorEvent::Submit(_) | ActorEvent::Collect(_) => 0,
    };
    (clock.min(END).max(time) + 1).min(END)
}

/// Whether each of these envelopes carries this clock.
pub(crate) fn are_at(envelopes: &[Envelope], clock: u64) -> bool
    ensures all { result ≡ list_all (λ (e : Envelope). e.time == clock) envelopes.now }
    ensures below { (e : Envelope) → slice_get envelopes.now 0 ≡ Some e → e.time < 2 ^ 48 }
{
    match envelopes.first() {
        None => true,
        Some(first) => {
            let _below = first.time.get();
            envelopes
                .iter()
                .all(|envelope| envelope.time.get() == clock)
        }
    }
}

/// Whether both hold.
pub(crate) fn both(a: bool, b: bool) -> bool
    ensures { result ≡ (a && b) }
{
    a && b
}

/// Keeps an outcome, if there is one. There is room.
fn keep(outcomes: &mut Vec<(u64, Outcome)>, outcome: Option<(u64, Outcome)>)
    requires { vec_len outcomes.old < vec_capacity outcomes.old }
    ensures { outcomes.new.items ≡ outcomes.old.items ++ option_to_list outcome }
{
    if let Some(outcome) = outcome {
        outcomes.push_reserved(outcome);
    }
}

/// The envelope of this number, from 0, among those to an actor; or how many the number is above them.
#[tactic(auto, using(crate::proofs::Sent::found_to, crate::proofs::Sent::passed_to, crate::proofs::Sent::skipped_to, crate::proofs::Sent::ended_to))]
fn nth_to(envelopes: &[Envelope], to: Node, number: usize) -> Result<&Envelope, usize>
    ensures found { IfOk result (λ e. slice_get (sends_to to envelopes.now) number ≡ Some e.now) }
    ensures above { IfErr result (λ more. number ≡ length (sends_to to envelopes.now) + more) }
{
    let mut left = number;
    for place in 0..envelopes.len() {
        if envelopes[place].to == to {
            if left == 0 {
                return Ok(&envelopes[place]);
            }
            left -= 1;
        }
    }
    Err(left)
}

impl<M: Machine> Recorded<M> {
    /// Does one event: the machine does it, it stands at the end of the journal, and the outcome that it gave is kept. The
    /// answer of a submission is the number of its operation. Refused with `JournalFull` before all else, with `Memory`,
    /// and as the machine refuses it; then nothing changes, and the event is handed back. Memory for the journal and the
    /// outcomes is made before the machine's step.
    pub fn happen(&mut self, event: ActorEvent) -> Result<Option<u64>, (Fault, ActorEvent)>
        requires { M.untaken self.old.machine ≡ None }
        ensures journal { OnOk result (self.new.journal.items ≡ self.old.journal.items ++ event ∷ []) }
        ensures outcomes { OnOk result (IsBeginning self.old.outcomes.items self.new.outcomes.items) }
        ensures recorded { (top : TopologyValue) (node : ℕ) (before : ℕ → List Envelope)
            → IsRecorded M.came_from M.untaken top node before self.old.machine self.old.journal.items self.old.outcomes.items (self.old.outbox.sent ++ self.old.fresh.sent) self.old.accepted self.old.clock self.old.timed
            → OnOk result (IsRecorded M.came_from M.untaken top node before self.new.machine self.new.journal.items self.new.outcomes.items (self.new.outbox.sent ++ self.new.fresh.sent) self.new.accepted self.new.clock self.new.timed) }
        ensures number { (top : TopologyValue) (node : ℕ) (before : ℕ → List Envelope)
            → IsRecorded M.came_from M.untaken top node before self.old.machine self.old.journal.items self.old.outcomes.items (self.old.outbox.sent ++ self.old.fresh.sent) self.old.accepted self.old.clock self.old.timed
            → IfOk result (λ number. number ≡ number_after self.old.journal.items event) }
        ensures refused { (top : TopologyValue) (node : ℕ) (before : ℕ → List Envelope)
            → IsRecorded M.came_from M.untaken top node before self.old.machine self.old.journal.items self.old.outcomes.items (self.old.outbox.sent ++ self.old.fresh.sent) self.old.accepted self.old.clock self.old.timed
            → OnErr result (IsRecorded M.came_from M.untaken top node before self.new.machine self.new.journal.items self.new.outcomes.items (self.new.outbox.sent ++ self.new.fresh.sent) self.new.accepted self.new.clock self.new.timed) }
        ensures same { OnErr result ((self.new.journal.items ≡ self.old.journal.items) × (self.new.outcomes.items ≡ self.old.outcomes.items) × (self.new.outbox.sent ++ self.new.fresh.sent ≡ self.old.outbox.sent ++ self.old.fresh.sent) × (self.new.accepted ≡ self.old.accepted) × (self.new.clock ≡ self.old.clock) × (self.new.timed ≡ self.old.timed)) }
        ensures free { OnErr result (M.is_free self.new.machine ≡ M.is_free self.old.machine) }
        ensures limit { self.new.limit ≡ self.old.limit }
        ensures full { self.old.limit ≤ length self.old.journal.items → IfErr result (λ e. e.0 ≡ Fault.JournalFull) }
        ensures room { OnOk result (length self.old.journal.items < self.old.limit) }
        ensures fault { (top : TopologyValue) (node : ℕ) (before : ℕ → List Envelope)
            → IsRecorded M.came_from M.untaken top node before self.old.machine self.old.journal.items self.old.outcomes.items (self.old.outbox.sent ++ self.old.fresh.sent) self.old.accepted self.old.clock self.old.timed
            → length self.old.journal.items < self.old.limit → IfErr result (λ e. (e.0 ≡ Fault.Memory) ⊎ M.refuses top node self.old.journal.items event e.0) }
        ensures back { IfErr result (λ e. e.1 ≡ event) }
    {
        if self.journal.len() >= self.limit {
            return Err((Fault::JournalFull, event));
        }
        let copy = match self.make_room(&event) {
            Ok(copy) => copy,
            Err(fault) => return Err((fault, event)),
        };
        let number = match self.machine.step(event, &mut self.fresh) {
            Ok(number) => number,
            Err(refused) => {
                let_go(copy);
                return Err(refused);
            }
        };
        self.clock = clock_with(self.clock, &copy);
        let on_time = are_at(self.fresh.as_slice(), self.clock);
        self.timed = both(self.timed, on_time);
        self.journal.push_reserved(copy);
        self.accepted = number.unwrap_or(self.accepted);
        let outcome = self.machine.take_answer();
        keep(&mut self.outcomes, outcome);
        Ok(number)
    }

    /// The machine of a node, before its first event, free for an operation. Refused with `Memory` alone.
    pub fn new(
        alloc: Global,
        topology: &Topology,
        node: Node,
        limit: usize,
    ) -> Result<Recorded<M>, Fault>
        requires { node < node_count topology.now }
        ensures recorded { IfOk result (λ r. IsRecorded M.came_from M.untaken topology.now node (λ to. []) r.machine [] [] [] 0 0 true) }
        ensures free { IfOk result (λ r. M.is_free r.machine ≡ true) }
        ensures empty { IfOk result (λ r. (r.journal.items ≡ []) × (r.outcomes.items ≡ []) × (r.outbox.sent ≡ []) × (r.accepted ≡ 0) × (r.limit ≡ limit)) }
        ensures start { IfOk result (λ r. (r.fresh.sent ≡ []) × (r.clock ≡ 0) × (r.timed ≡ true)) }
        ensures memory { IfErr result (λ e. e ≡ Fault.Memory) }
    {
        let machine = M::new(alloc, topology, node)?;
        Ok(Recorded {
            machine,
            journal: Vec::new(alloc),
            limit,
            accepted: 0,
            outcomes: Vec::new(alloc),
            outbox: Outbox::new(alloc),
            fresh: Outbox::new(alloc),
            clock: 0,
            timed: true,
        })
    }

    /// The envelope of this number, from 0, among those to an actor that aren't on their way yet, if there are so many.
    #[tactic(auto, using(crate::proofs::Sent::first_of_two, crate::proofs::Sent::second_of_two, crate::proofs::Sent::neither_of_two))]
    pub fn unsent_to(&self, to: Node, number: usize) -> Option<&Envelope>
        ensures { option_copied result ≡ slice_get (sends_to to (self.now.outbox.sent ++ self.now.fresh.sent)) number }
    {
        match nth_to(self.outbox.as_slice(), to, number) {
            Ok(envelope) => Some(envelope),
            Err(more) => match nth_to(self.fresh.as_slice(), to, more) {
                Ok(envelope) => Some(envelope),
                Err(_) => None,
            },
        }
    }

    /// Its machine and its journal.
    pub fn close(self) -> (M, Vec<ActorEvent>)
        ensures { result.0 ≡ self.machine }
    {
        let Recorded {
            machine,
            journal,
            limit: _,
            accepted: _,
            outcomes: _,
            outbox: _,
            fresh: _,
            clock: _,
            timed: _,
        } = self;
        (machine, journal)
    }

    /// Puts what the last event sent into the outbox. Refused with `Memory` alone, and then nothing changes.
    pub fn absorb(&mut self) -> Result<(), Fault>
        ensures sent { self.new.outbox.sent ++ self.new.fresh.sent ≡ self.old.outbox.sent ++ self.old.fresh.sent }
        ensures empty { OnOk result (self.new.fresh.sent ≡ []) }
        ensures same { self.new ≡ record self.old { outbox = self.new.outbox; fresh = self.new.fresh } }
        ensures memory { IfErr result (λ e. e ≡ Fault.Memory) }
    {
        if self.outbox.len() == 0 {
            mem::swap(&mut self.outbox, &mut self.fresh);
            return Ok(());
        }
        self.outbox.reserve(self.fresh.len())?;
        while self.fresh.len() > 0 {
            let envelope = self.fresh.remove(0);
            self.outbox.post(envelope).unwrap();
        }
        Ok(())
    }

    /// Makes room for one more event and for its outcome, empties the place for what it sends, and makes a copy of the event.
    /// Refused with `Memory` alone.
    fn make_room(&mut self, event: &ActorEvent) -> Result<ActorEvent, Fault>
        ensures copy { IfOk result (λ copy. copy ≡ event.now) }
        ensures room { OnOk result ((vec_len self.new.journal < vec_capacity self.new.journal) × (vec_len self.new.outcomes < vec_capacity self.new.outcomes)) }
        ensures items { (self.new.journal.items ≡ self.old.journal.items) × (self.new.outcomes.items ≡ self.old.outcomes.items) }
        ensures empty { OnOk result (self.new.fresh.sent ≡ []) }
        ensures sent { self.new.outbox.sent ++ self.new.fresh.sent ≡ self.old.outbox.sent ++ self.old.fresh.sent }
        ensures same { (self.new.machine ≡ self.old.machine) × (self.new.limit ≡ self.old.limit) × (self.new.accepted ≡ self.old.accepted) × (self.new.clock ≡ self.old.clock) × (self.new.timed ≡ self.old.timed) }
        ensures memory { IfErr result (λ e. e ≡ Fault.Memory) }
    {
        self.journal.reserve(1)?;
        self.outcomes.reserve(1)?;
        self.absorb()?;
        Ok(copied(event)?)
    }
}
