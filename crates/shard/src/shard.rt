//! Shards.
ghost use Rattle.std.specs.Prelude.{◌≡◌, ◌<◌, ◌≤◌, ◌+◌, ◌^◌, ◌↔◌, max, ℕ, List, [], ◌∷◌, ◌++◌, Some, Err, is_some, option_map, IfSome, IfOk, OnOk, IfErr, IsErrOf, OnErr};
ghost use Rattle.logical_time.specs.declared.fault.Fault.TheVariants as fault;
ghost use Rattle.messages.specs.declared.envelope.Envelope.{Envelope};
ghost use Rattle.messages.specs.declared.event.ActorEvent.{ActorEvent};
ghost use Rattle.messages.specs.declared.event.ActorEvent.TheVariants.{Handle, Collect};
ghost use Rattle.messages.specs.Clock.{ticked};
ghost use Rattle.messages.specs.Topology.{TopologyValue, is_shard};
ghost use Rattle.messages.specs.Shard.{ShardState, Decision, new_shard};
ghost use Rattle.messages.specs.ShardEvents.{shard_handle, shard_collect};
ghost use Rattle.messages.specs.Known.{decision_of};
ghost use Rattle.messages.specs.Honest.{IsHonest};
ghost use Rattle.store.specs.Holdings.{holdings_of};
ghost use Rattle.shard.specs.Events.{shard_run, envelopes_handled};
ghost use Rattle.shard.specs.Ignored.{IsIgnored};
ghost use Rattle.shard.specs.Effects.{IsSpared};
ghost use Rattle.shard.specs.Kept.{Represents, IsStepOf, IsRefusalOf, IsSpentOrMemory, GoesOn};
ghost use Rattle.shard.specs.Right.{SendsRight};
ghost use Rattle.shard.specs.Unfinished.{unfinished_of};

use crate::kept::ShardKept;
use crate::{handling, unfinished};
use commit_check::Waits;
use dependencies::Askers;
use logical_time::{Clock, Fault, Node, Stamp, Time, TxnId};
use messages::{Envelope, Outbox, Place, Refused, Topology};
use std::alloc::Global;
use std::marker::Model;
use store::Holdings;
use txn_state::WritePart;
use write_txn::{Transactions, Voters};

/// A shard: it holds rows and transactions, and answers the sessions of its data centre and other shards. It is the
/// protocol's machine: for every state of the machine that it stands for, a call does that state's step. It must be
/// closed.
pub struct Shard {
    kept: ShardKept,
}

impl Model for Shard {
    ghost use Rattle.shard.specs.declared.kept.ShardKept.{ShardKept};

    ghost Value = { ShardKept };

    ghost view = { λ s. s.kept };
}

impl Shard {
    /// A shard before its first event, if the node is a shard's.
    pub fn new(alloc: Global, topology: &Topology, node: Node) -> Option<Shard>
        ensures some { is_some result ≡ is_shard topology.now node }
        ensures state { IfSome result (λ s. Represents topology.now node s new_shard) }
    {
        let place = Place::new(topology, node)?;
        let kept = ShardKept {
            alloc,
            place,
            clock: Clock::new(),
            transactions: Transactions::new(alloc),
            notices: Voters::new(alloc),
            askers: Askers::new(alloc),
            waiting: Waits::new(alloc),
        };
        Some(Shard { kept })
    }

    /// Handles an envelope, at one past the later of the shard's clock and the envelope's time. A part, a ballot or a vote
    /// that comes again, and what is for a session, moves the clock alone; a read that doesn't wait, and a check, is answered
    /// again. Refused with `ClockSpent` where the clock would leave its range, and with `Memory`, but not what moves the
    /// clock alone; then the shard stands for what it stood for, nothing is sent, and the envelope is handed back.
    pub fn handle(&mut self, envelope: Envelope, outbox: &mut Outbox) -> Result<(), Refused>
        ensures step { (top : TopologyValue) (me : ℕ) (a : ShardState) → Represents top me self.old a
            → OnOk result (IsStepOf top me (shard_handle top me a envelope) self.new outbox.old.sent outbox.new.sent) }
        ensures refused { (top : TopologyValue) (me : ℕ) (a : ShardState) → Represents top me self.old a
            → IfErr result (λ r. IsRefusalOf (shard_handle top me a envelope) r.fault) }
        // what is ignored needs no memory
        ensures ignored { (top : TopologyValue) (me : ℕ) (a : ShardState) → Represents top me self.old a → IsIgnored top me a envelope
            → IfErr result (λ r. r.fault ≡ fault.ClockSpent) }
        // in a run whose envelopes are honest, later ones included, it sends what is right, and goes on to the run's state
        ensures right { (top : TopologyValue) (me : ℕ) (before after : List ActorEvent) → Represents top me self.old (shard_run top me before).state
            → IsHonest (shard_run top me (before ++ Handle envelope ∷ after)).state (envelopes_handled (shard_run top me (before ++ Handle envelope ∷ after)))
            → OnOk result (SendsRight top me (shard_run top me (before ++ Handle envelope ∷ after)) outbox.old.sent outbox.new.sent) }
        ensures leads { (top : TopologyValue) (me : ℕ) (before after : List ActorEvent) → Represents top me self.old (shard_run top me before).state
            → IsHonest (shard_run top me (before ++ Handle envelope ∷ after)).state (envelopes_handled (shard_run top me (before ++ Handle envelope ∷ after)))
            → OnOk result (Represents top me self.new (shard_run top me (before ++ Handle envelope ∷ [])).state) }
        ensures same { OnErr result (GoesOn self.old self.new) }
        ensures unsent { OnErr result (outbox.new.sent ≡ outbox.old.sent) }
        ensures back { IfErr result (λ r. r.envelope ≡ envelope) }
        // whatever came before, honest or not: it is taken only where its clock is a time; refused, it is for the clock
        // where that is none, else for memory, and the shard is as it was, but for room
        ensures time { OnOk result (max self.old.clock envelope.time + 1 < 2 ^ 48) }
        ensures faults { IfErr result (λ r. IsSpentOrMemory (ticked self.old.clock envelope.time) r.fault) }
        ensures spared { OnErr result (IsSpared self.old self.new) }
    {
        handling::handle(&mut self.kept, envelope, outbox)
    }

    /// Raises the horizon to this time, unless it is there: versions that no read from there on sees may be dropped, and a
    /// read at a time below it may be given up. It is an event without a message. Refused with `ClockSpent` where the clock
    /// would leave its range, and then nothing changes.
    pub fn collect(&mut self, time: Time) -> Result<(), Fault>
        ensures step { (top : TopologyValue) (me : ℕ) (a : ShardState) → Represents top me self.old a
            → OnOk result (IsStepOf top me (shard_collect a time) self.new [] []) }
        ensures refused { (top : TopologyValue) (me : ℕ) (a : ShardState) → Represents top me self.old a
            → IfErr result (λ e. shard_collect a time ≡ Err e) }
        ensures leads { (top : TopologyValue) (me : ℕ) (before : List ActorEvent) → Represents top me self.old (shard_run top me before).state
            → OnOk result (Represents top me self.new (shard_run top me (before ++ Collect time ∷ [])).state) }
        ensures spent { IfErr result (λ e. e ≡ fault.ClockSpent) }
        ensures same { OnErr result (self.new ≡ self.old) }
        // whatever came before: refused exactly where the clock would leave its range
        ensures exactly { IsErrOf result fault.ClockSpent ↔ (2 ^ 48 ≤ self.old.clock + 1) }
    {
        let mut clock = self.kept.clock;
        let now = clock.now();
        let _moved = clock.receive(now)?;
        self.kept.transactions.collect(time);
        self.kept.clock = clock;
        Ok(())
    }

    /// Its clock.
    pub fn clock(&self) -> Clock
        ensures { result ≡ self.now.clock }
    {
        self.kept.clock
    }

    /// How much its store holds. Linear in its rows and in their columns.
    pub fn holdings(&self) -> Holdings
        ensures { result ≡ holdings_of self.now.transactions.store.rows }
    {
        self.kept.transactions.store().holdings()
    }

    /// The commit time and the stamp with which the shard decided the transaction as its coordinator, if it did. Constant
    /// on average, however many transactions are known.
    pub fn decided(&self, txn: TxnId) -> Option<(Time, Stamp)>
        ensures { (top : TopologyValue) (me : ℕ) (a : ShardState) → Represents top me self.now a → option_map (λ (d : Decision). (d.commit, d.stamp)) (decision_of txn a) ≡ result }
    {
        unfinished::decided(&self.kept, txn)
    }

    /// The parts that the shard holds, kept or prepared, and hasn't applied, in the order of their transactions' numbers.
    /// They share the bytes of keys, names and values. In the order of m log m for m of them, beside their copies. Refused
    /// with `Memory` alone.
    pub fn unfinished(&self) -> Result<Vec<WritePart>, Fault>
        ensures ok { (top : TopologyValue) (me : ℕ) (a : ShardState) → Represents top me self.now a → IfOk result (λ parts. parts.items ≡ unfinished_of top me a) }
        ensures memory { IfErr result (λ e. e ≡ fault.Memory) }
    {
        unfinished::unfinished(&self.kept)
    }

    /// Ends the shard, and gives up what it hasn't finished.
    pub fn close(self) {
        let Shard { kept } = self;
        let ShardKept {
            alloc: _,
            place: _,
            clock: _,
            transactions,
            notices: _,
            askers,
            waiting,
        } = kept;
        transactions.close();
        askers.close();
        waiting.close();
    }

    /// The same for a program that ends with it: the memory of its rows is given back with that of the process.
    pub fn leave(self) {
        let Shard { kept } = self;
        let ShardKept {
            alloc: _,
            place: _,
            clock: _,
            transactions,
            notices: _,
            askers,
            waiting,
        } = kept;
        transactions.leave();
        askers.close();
        waiting.close();
    }
}
