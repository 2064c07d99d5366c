//! The actors of a world.
ghost use Rattle.std.specs.Prelude.{◌≡◌, ◌<◌, ◌≤◌, ◌+◌, ℕ, List, [], length, slice_get, Some, IfOk, IfErr, OnOk, OnErr};
ghost use Rattle.messages.specs.declared.envelope.Envelope.{Envelope};
ghost use Rattle.messages.specs.Topology.{TopologyValue};
ghost use Rattle.messages.specs.Shard.{ShardState};
ghost use Rattle.messages.specs.ShardEvents.{shard_handle, shard_collect};
ghost use Rattle.messages.specs.Clock.{ticked};
ghost use Rattle.shard.specs.Kept.{IsRefusalOf, IsSpentOrMemory};
ghost use Rattle.world.specs.Log.{HasRoom};
ghost use Rattle.world.specs.Run.{RunEvent, Submit, Deliver, Collect, run};
ghost use Rattle.world.specs.Refusals.{refusal_of, clock_at};
ghost use Rattle.world.specs.Holds.{AreShards, IsRunning, HasTaken};
ghost use Rattle.world.specs.World.{IsRefusedAs};
ghost use Rattle.world.specs.Steps.{StaysApart, DidShard};

use crate::completed::Completed;
use crate::station::Station;
use logical_time::{Clock, Fault, Node, Time};
use messages::{Envelope, Op, Outbox, Topology};
use shard::Shard;

/// The actors of a topology, all that they sent and what ended.
pub struct Actors {
    /// Which actors there are.
    pub topology: Topology,
    /// The shards, by their nodes.
    pub shards: Vec<Shard>,
    /// The sessions, by their nodes, which follow those of the shards.
    pub stations: Vec<Station>,
    /// What was sent, in order.
    pub network: Outbox,
    /// The operations that ended, in order.
    pub transcript: Vec<Completed>,
}

/// The shard at this place handles an envelope. Refused as the shard refuses it; then all stand for what they stood for.
fn hand_over(
    shards: &mut Vec<Shard>,
    place: usize,
    envelope: Envelope,
    network: &mut Outbox,
) -> Result<(), Fault>
    requires { place < length shards.old.items }
    ensures ok { (top : TopologyValue) (states : ℕ → ShardState) → AreShards top states shards.old.items → StaysApart (shard_handle top place (states place) envelope)
        → OnOk result (DidShard top states place (shard_handle top place (states place) envelope) shards.new.items network.old.sent network.new.sent) }
    ensures refused { (top : TopologyValue) (states : ℕ → ShardState) → AreShards top states shards.old.items
        → IfErr result (λ f. IsRefusalOf (shard_handle top place (states place) envelope) f) }
    ensures same { (top : TopologyValue) (states : ℕ → ShardState) → AreShards top states shards.old.items → OnErr result (AreShards top states shards.new.items) }
    ensures unsent { OnErr result (network.new.sent ≡ network.old.sent) }
{
    match shards[place].handle(envelope, network) {
        Ok(()) => Ok(()),
        Err(refused) => Err(refused.fault),
    }
}

/// A shard collects up to a time. Refused as the shard refuses it; then all stand for what they stood for.
fn collect_in(shards: &mut Vec<Shard>, place: usize, time: Time) -> Result<(), Fault>
    requires { place < length shards.old.items }
    ensures ok { (top : TopologyValue) (states : ℕ → ShardState) → AreShards top states shards.old.items → StaysApart (shard_collect (states place) time)
        → OnOk result (DidShard top states place (shard_collect (states place) time) shards.new.items [] []) }
    ensures refused { (top : TopologyValue) (states : ℕ → ShardState) → AreShards top states shards.old.items
        → IfErr result (λ e. IsRefusalOf (shard_collect (states place) time) e) }
    ensures same { (top : TopologyValue) (states : ℕ → ShardState) → AreShards top states shards.old.items → OnErr result (AreShards top states shards.new.items) }
{
    shards[place].collect(time)
}

/// A copy of the message of this number. Refused with `Memory` alone.
fn copy_of(network: &Outbox, number: usize) -> Result<Envelope, Fault>
    requires { number < length network.now.sent }
    ensures ok { IfOk result (λ envelope. slice_get network.now.sent number ≡ Some envelope) }
    ensures memory { IfErr result (λ e. e ≡ Fault.Memory) }
{
    match network.get(number) {
        Some(envelope) => Ok(envelope.copied()?),
        None => unreachable!(),
    }
}

/// Why an event at this clock is refused where there is no memory for it: the clock is looked at first.
#[tactic(auto, using(crate::proofs::in_code::Unready::spent, crate::proofs::in_code::Unready::unspent))]
fn without_memory(clock: Clock, time: Time) -> Fault
    ensures { IsSpentOrMemory (ticked clock time) result }
{
    let mut moved = clock;
    match moved.receive(time) {
        Ok(_) => Fault::Memory,
        Err(fault) => fault,
    }
}

impl Actors {
    /// The clock of the actor with this node.
    #[tactic(auto, using(crate::proofs::in_code::Unready::shard_clock, crate::proofs::in_code::Unready::station_clock))]
    pub(crate) fn clock_of(&self, node: Node) -> Clock
        requires { node < length self.now.shards.items + length self.now.stations.items }
        ensures { (top : TopologyValue) (events : List RunEvent) → IsRunning top (run top events) self.now → clock_at top (run top events) node ≡ result }
    {
        let place = usize::from(node.get());
        let shards = self.shards.len();
        if place < shards {
            self.shards[place].clock()
        } else {
            self.stations[place - shards].session.clock()
        }
    }

    /// Why the delivery of this message is refused where there is no memory for it.
    #[tactic(auto, using(crate::proofs::in_code::Unready::delivery_unready))]
    pub fn delivery_without_memory(&self, number: usize) -> Fault
        requires sent { number < length self.now.network.sent }
        requires addressed { (e : Envelope) → slice_get self.now.network.sent number ≡ Some e → e.to < length self.now.shards.items + length self.now.stations.items }
        ensures { (top : TopologyValue) (events : List RunEvent) → IsRunning top (run top events) self.now
            → IsRefusedAs (refusal_of top (run top events) (Deliver number)) result }
    {
        match self.network.get(number) {
            Some(envelope) => without_memory(self.clock_of(envelope.to), envelope.time),
            None => unreachable!(),
        }
    }

    /// Why a collection is refused where there is no memory for it.
    #[tactic(auto, using(crate::proofs::in_code::Unready::collection_unready))]
    pub fn collection_without_memory(&self, shard: Node, time: Time) -> Fault
        requires { shard < length self.now.shards.items }
        ensures { (top : TopologyValue) (events : List RunEvent) → IsRunning top (run top events) self.now
            → IsRefusedAs (refusal_of top (run top events) (Collect shard time)) result }
    {
        let clock = self.clock_of(shard);
        without_memory(clock, clock.now())
    }

    /// Why a submission is refused where there is no memory for it.
    #[tactic(auto, using(crate::proofs::in_code::Unready::submission_unready))]
    pub fn submission_without_memory(&self, session: Node, op: &Op) -> Fault
        requires station { length self.now.shards.items ≤ session }
        requires stations { session < length self.now.shards.items + length self.now.stations.items }
        ensures { (top : TopologyValue) (events : List RunEvent) → IsRunning top (run top events) self.now
            → IsRefusedAs (refusal_of top (run top events) (Submit session op.now)) result }
    {
        let place = usize::from(session.get()) - self.shards.len();
        match self.stations[place].session.check(op) {
            Ok(()) => Fault::Memory,
            Err(fault) => fault,
        }
    }

    /// Makes room for the delivery of this message, and gives a copy of it. Refused with `Memory` alone.
    fn make_ready(&mut self, number: usize) -> Result<Envelope, Fault>
        requires { number < length self.old.network.sent }
        ensures ok { IfOk result (λ envelope. slice_get self.new.network.sent number ≡ Some envelope) }
        ensures room { OnOk result (HasRoom self.new.transcript) }
        ensures same { self.new ≡ record self.old { transcript = self.new.transcript } }
        ensures told { self.new.transcript.items ≡ self.old.transcript.items }
    {
        self.transcript.reserve(1)?;
        copy_of(&self.network, number)
    }

    /// The message of this number is delivered.
    pub fn deliver(&mut self, number: usize) -> Result<(), Fault>
        requires sent { number < length self.old.network.sent }
        requires addressed { (e : Envelope) → slice_get self.old.network.sent number ≡ Some e → e.to < length self.old.shards.items + length self.old.stations.items }
        ensures ok { (top : TopologyValue) (events : List RunEvent) → IsRunning top (run top events) self.old → OnOk result (HasTaken top events (Deliver number) self.new) }
        ensures refused { (top : TopologyValue) (events : List RunEvent) → IsRunning top (run top events) self.old
            → IfErr result (IsRefusedAs (refusal_of top (run top events) (Deliver number))) }
        ensures same { (top : TopologyValue) (events : List RunEvent) → IsRunning top (run top events) self.old → OnErr result (IsRunning top (run top events) self.new) }
        ensures topology { self.new.topology ≡ self.old.topology }
    {
        match self.make_ready(number) {
            Ok(envelope) => self.hand(envelope),
            Err(_) => Err(self.delivery_without_memory(number)),
        }
    }

    /// Who is addressed handles an envelope.
    fn hand(&mut self, envelope: Envelope) -> Result<(), Fault>
        requires to { envelope.to < length self.old.shards.items + length self.old.stations.items }
        requires room { HasRoom self.old.transcript }
        ensures ok { (top : TopologyValue) (events : List RunEvent) (k : ℕ) → IsRunning top (run top events) self.old → slice_get self.old.network.sent k ≡ Some envelope
            → OnOk result (HasTaken top events (Deliver k) self.new) }
        ensures refused { (top : TopologyValue) (events : List RunEvent) (k : ℕ) → IsRunning top (run top events) self.old → slice_get self.old.network.sent k ≡ Some envelope
            → IfErr result (IsRefusedAs (refusal_of top (run top events) (Deliver k))) }
        ensures same { (top : TopologyValue) (events : List RunEvent) → IsRunning top (run top events) self.old → OnErr result (IsRunning top (run top events) self.new) }
        ensures topology { self.new.topology ≡ self.old.topology }
    {
        if usize::from(envelope.to.get()) < self.shards.len() {
            self.to_shard(envelope)
        } else {
            self.to_session(envelope)
        }
    }

    /// The shard to which it is addressed handles an envelope.
    fn to_shard(&mut self, envelope: Envelope) -> Result<(), Fault>
        requires { envelope.to < length self.old.shards.items }
        ensures ok { (top : TopologyValue) (events : List RunEvent) (k : ℕ) → IsRunning top (run top events) self.old → slice_get self.old.network.sent k ≡ Some envelope
            → OnOk result (HasTaken top events (Deliver k) self.new) }
        ensures refused { (top : TopologyValue) (events : List RunEvent) (k : ℕ) → IsRunning top (run top events) self.old → slice_get self.old.network.sent k ≡ Some envelope
            → IfErr result (IsRefusedAs (refusal_of top (run top events) (Deliver k))) }
        ensures same { (top : TopologyValue) (events : List RunEvent) → IsRunning top (run top events) self.old → OnErr result (IsRunning top (run top events) self.new) }
        ensures topology { self.new.topology ≡ self.old.topology }
    {
        let place = usize::from(envelope.to.get());
        match hand_over(&mut self.shards, place, envelope, &mut self.network) {
            Ok(()) => Ok(()),
            Err(fault) => Err(fault),
        }
    }

    /// The session to which it is addressed handles an envelope.
    fn to_session(&mut self, envelope: Envelope) -> Result<(), Fault>
        requires to { (length self.old.shards.items ≤ envelope.to) × (envelope.to < length self.old.shards.items + length self.old.stations.items) }
        requires room { HasRoom self.old.transcript }
        ensures ok { (top : TopologyValue) (events : List RunEvent) (k : ℕ) → IsRunning top (run top events) self.old → slice_get self.old.network.sent k ≡ Some envelope
            → OnOk result (HasTaken top events (Deliver k) self.new) }
        ensures refused { (top : TopologyValue) (events : List RunEvent) (k : ℕ) → IsRunning top (run top events) self.old → slice_get self.old.network.sent k ≡ Some envelope
            → IfErr result (IsRefusedAs (refusal_of top (run top events) (Deliver k))) }
        ensures same { (top : TopologyValue) (events : List RunEvent) → IsRunning top (run top events) self.old → OnErr result (IsRunning top (run top events) self.new) }
        ensures topology { self.new.topology ≡ self.old.topology }
    {
        let place = usize::from(envelope.to.get()) - self.shards.len();
        match self.stations[place].hear(envelope, &mut self.network, &mut self.transcript) {
            Ok(()) => Ok(()),
            Err(fault) => Err(fault),
        }
    }

    /// Makes room for the entry of an operation that ends at its submission. Refused with `Memory` alone.
    fn make_room(&mut self) -> Result<(), Fault>
        ensures room { OnOk result (HasRoom self.new.transcript) }
        ensures same { self.new ≡ record self.old { transcript = self.new.transcript } }
        ensures told { self.new.transcript.items ≡ self.old.transcript.items }
        ensures memory { IfErr result (λ e. e ≡ Fault.Memory) }
    {
        self.transcript.reserve(1)?;
        Ok(())
    }

    /// A session submits an operation, which is kept beside it until it ends.
    pub fn submit(&mut self, session: Node, op: Op, kept: Op) -> Result<u64, (Fault, Op)>
        requires station { length self.old.shards.items ≤ session }
        requires same { kept ≡ op }
        requires stations { session < length self.old.shards.items + length self.old.stations.items }
        ensures ok { (top : TopologyValue) (events : List RunEvent) → IsRunning top (run top events) self.old
            → IfOk result (λ n. HasTaken top events (Submit session op) self.new × (n ≡ ((run top events).sessions session).count + 1)) }
        ensures refused { (top : TopologyValue) (events : List RunEvent) → IsRunning top (run top events) self.old
            → IfErr result (λ r. IsRefusedAs (refusal_of top (run top events) (Submit session op)) r.0) }
        ensures same { (top : TopologyValue) (events : List RunEvent) → IsRunning top (run top events) self.old → OnErr result (IsRunning top (run top events) self.new) }
        ensures back { IfErr result (λ r. r.1 ≡ op) }
        ensures topology { self.new.topology ≡ self.old.topology }
    {
        match self.make_room() {
            Ok(()) => self.accept(session, op, kept),
            Err(_) => Err((self.submission_without_memory(session, &op), op)),
        }
    }

    /// A session submits an operation, where there is room for its end.
    fn accept(&mut self, session: Node, op: Op, kept: Op) -> Result<u64, (Fault, Op)>
        requires station { length self.old.shards.items ≤ session }
        requires same { kept ≡ op }
        requires stations { session < length self.old.shards.items + length self.old.stations.items }
        requires room { HasRoom self.old.transcript }
        ensures ok { (top : TopologyValue) (events : List RunEvent) → IsRunning top (run top events) self.old
            → IfOk result (λ n. HasTaken top events (Submit session op) self.new × (n ≡ ((run top events).sessions session).count + 1)) }
        ensures refused { (top : TopologyValue) (events : List RunEvent) → IsRunning top (run top events) self.old
            → IfErr result (λ r. IsRefusedAs (refusal_of top (run top events) (Submit session op)) r.0) }
        ensures same { (top : TopologyValue) (events : List RunEvent) → IsRunning top (run top events) self.old → OnErr result (IsRunning top (run top events) self.new) }
        ensures back { IfErr result (λ r. r.1 ≡ op) }
        ensures topology { self.new.topology ≡ self.old.topology }
    {
        let place = usize::from(session.get()) - self.shards.len();
        match self.stations[place].submit(op, kept, &mut self.network, &mut self.transcript) {
            Ok(number) => Ok(number),
            Err(refused) => Err(refused),
        }
    }

    /// A shard collects up to a time.
    pub fn collect(&mut self, shard: Node, time: Time) -> Result<(), Fault>
        requires { shard < length self.old.shards.items }
        ensures ok { (top : TopologyValue) (events : List RunEvent) → IsRunning top (run top events) self.old → OnOk result (HasTaken top events (Collect shard time) self.new) }
        ensures refused { (top : TopologyValue) (events : List RunEvent) → IsRunning top (run top events) self.old
            → IfErr result (IsRefusedAs (refusal_of top (run top events) (Collect shard time))) }
        ensures same { (top : TopologyValue) (events : List RunEvent) → IsRunning top (run top events) self.old → OnErr result (IsRunning top (run top events) self.new) }
        ensures topology { self.new.topology ≡ self.old.topology }
    {
        match collect_in(&mut self.shards, usize::from(shard.get()), time) {
            Ok(()) => Ok(()),
            Err(fault) => Err(fault),
        }
    }
}
