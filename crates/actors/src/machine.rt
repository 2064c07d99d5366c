//! What a seat runs.
ghost use Rattle.std.specs.Prelude.{◌≡◌, ◌<◌, ◌⊎◌, ◌++◌, ◌∷◌, [], ℕ, Bool, true, List, Option, None, option_to_list, IfOk, OnOk, IfErr, OnErr};
ghost use Rattle.logical_time.specs.declared.fault.Fault.{Fault};
ghost use Rattle.messages.specs.declared.envelope.Envelope.{Envelope};
ghost use Rattle.messages.specs.declared.outcome.Outcome.{Outcome};
ghost use Rattle.messages.specs.declared.event.ActorEvent.{ActorEvent};
ghost use Rattle.messages.specs.Topology.{TopologyValue, node_count};
ghost use Rattle.actors.specs.Journals.{number_after};

use logical_time::{Fault, Node};
use messages::{ActorEvent, Outbox, Outcome, Topology};
use std::alloc::Global;

/// An actor as a machine: each event is one step of it. What its steps make of it is a relation to its journal, since a
/// machine may keep less than what its journal tells. It must be closed.
pub trait Machine: Sized {
    /// When a machine came from a journal of the actor with a node of a topology: the journal's events sent these
    /// envelopes, in order, and such outcomes were taken, each with the number of its operation.
    ghost came_from: { TopologyValue → ℕ → List ActorEvent → List Envelope → List (ℕ × Outcome) → Self → Type 0 };

    /// The outcome that wasn't taken yet, with the number of its operation.
    ghost untaken: { Self → Option (ℕ × Outcome) };

    /// Whether it is free for an operation.
    ghost is_free: { Self → Bool };

    /// With which fault the machine of the actor with a node of a topology refuses an event, where it came from a
    /// journal; but for memory.
    ghost refuses: { TopologyValue → ℕ → List ActorEvent → ActorEvent → Fault → Type 0 };

    /// The machine of a node before its first event, free for an operation. Refused with `Memory` alone.
    fn new(alloc: Global, topology: &Topology, node: Node) -> Result<Self, Fault>
        requires { node < node_count topology.now }
        ensures came { IfOk result (λ m. came_from topology.now node [] [] [] m) }
        ensures untaken { IfOk result (λ m. untaken m ≡ None) }
        ensures free { IfOk result (λ m. is_free m ≡ true) }
        ensures memory { IfErr result (λ e. e ≡ Fault.Memory) };

    /// Does one event, and puts what it sends at the end of the outbox. The answer of a submission is the number of its
    /// operation, from 1. Refused as its kind of machine refuses the event, and with `Memory`; then nothing changes, and
    /// the event is handed back.
    fn step(
        &mut self,
        event: ActorEvent,
        outbox: &mut Outbox,
    ) -> Result<Option<u64>, (Fault, ActorEvent)>
        requires { untaken self.old ≡ None }
        ensures came { (top : TopologyValue) (node : ℕ) (journal : List ActorEvent) (before : List Envelope) (outcomes : List (ℕ × Outcome))
            → came_from top node journal (before ++ outbox.old.sent) outcomes self.old
            → OnOk result (came_from top node (journal ++ event ∷ []) (before ++ outbox.new.sent) outcomes self.new) }
        ensures number { (top : TopologyValue) (node : ℕ) (journal : List ActorEvent) (sent : List Envelope) (outcomes : List (ℕ × Outcome))
            → came_from top node journal sent outcomes self.old → IfOk result (λ number. number ≡ number_after journal event) }
        ensures same { (top : TopologyValue) (node : ℕ) (journal : List ActorEvent) (sent : List Envelope) (outcomes : List (ℕ × Outcome))
            → came_from top node journal sent outcomes self.old → OnErr result (came_from top node journal sent outcomes self.new) }
        ensures refused { (top : TopologyValue) (node : ℕ) (journal : List ActorEvent) (sent : List Envelope) (outcomes : List (ℕ × Outcome))
            → came_from top node journal sent outcomes self.old → IfErr result (λ e. (e.0 ≡ Fault.Memory) ⊎ refuses top node journal event e.0) }
        ensures none { OnErr result (untaken self.new ≡ None) }
        ensures free { OnErr result (is_free self.new ≡ is_free self.old) }
        ensures unsent { OnErr result (outbox.new.sent ≡ outbox.old.sent) }
        ensures back { IfErr result (λ e. e.1 ≡ event) };

    /// The outcome that wasn't taken yet, with the number of its operation.
    fn take_answer(&mut self) -> Option<(u64, Outcome)>
        ensures answer { result ≡ untaken self.old }
        ensures taken { untaken self.new ≡ None }
        ensures free { is_free self.new ≡ is_free self.old }
        ensures came { (top : TopologyValue) (node : ℕ) (journal : List ActorEvent) (sent : List Envelope) (outcomes : List (ℕ × Outcome))
            → came_from top node journal sent outcomes self.old
            → came_from top node journal sent (outcomes ++ option_to_list (untaken self.old)) self.new };

    /// Whether it is free for an operation.
    fn free(&self) -> bool
        ensures { result ≡ is_free self.now };

    /// Ends it.
    fn close(self);
}
