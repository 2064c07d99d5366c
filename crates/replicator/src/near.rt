//! Envelopes within a data centre.
ghost use Rattle.std.specs.Prelude.{◌≡◌, ◌≤◌, ◌+◌, ◌++◌, ℕ, length, map, IfOk, IfErr};
ghost use Rattle.messages.specs.declared.body.Body.TheVariants as body;
ghost use Rattle.messages.specs.Topology.{TopologyValue, dc_of, shard_node};
ghost use Rattle.messages.specs.Words.{envelope};
ghost use Rattle.messages.specs.Place.{IsPlace};
ghost use Rattle.messages.specs.Shard.{KeptBallot};
ghost use Rattle.messages.specs.Replication as machine;

use logical_time::{Fault, Node, Shard, Time, TxnId, Writer};
use messages::{Body, Cohorts, Envelope, Outbox, Place};
use std::alloc::Global;

/// A cohort's vote for a transaction whose part it has prepared: to the coordinator.
pub fn yes(place: Place, time: Time, txn: TxnId, coordinator: Shard) -> Envelope
    ensures { (top : TopologyValue) (me : ℕ) → IsPlace top me place → result ≡ envelope me (shard_node top (dc_of top me) coordinator) time (body.Yes txn) }
{
    place.envelope_near(time, coordinator, Body::Yes { txn })
}

/// A cohort's notice that it keeps its part of another data centre's transaction: to the coordinator.
pub fn notify(place: Place, time: Time, txn: TxnId, coordinator: Shard) -> Envelope
    ensures { (top : TopologyValue) (me : ℕ) → IsPlace top me place → result ≡ envelope me (shard_node top (dc_of top me) coordinator) time (body.Notify txn) }
{
    place.envelope_near(time, coordinator, Body::Notify { txn })
}

/// The nodes of a transaction's cohorts, in their order. Refused with `Memory` alone.
#[inline(always)]
pub fn near_nodes(alloc: Global, place: Place, cohorts: &Cohorts) -> Result<Vec<Node>, Fault>
    ensures nodes { (top : TopologyValue) (me : ℕ) → IsPlace top me place → IfOk result (λ nodes. nodes.items ≡ map (λ s. shard_node top (dc_of top me) s) cohorts.now) }
    ensures memory { IfErr result (λ e. e ≡ Fault.Memory) }
{
    let nodes: Vec<Node> = cohorts
        .shards()
        .map(|shard| place.near(shard))
        .collect(alloc)?;
    Ok(nodes)
}

/// A PrepareRemote for each cohort of another data centre's transaction, in their order. Refused with `Memory` alone.
pub fn prepare_remotes(
    alloc: Global,
    place: Place,
    time: Time,
    txn: TxnId,
    cohorts: &Cohorts,
) -> Result<Vec<Envelope>, Fault>
    ensures envelopes { (top : TopologyValue) (me : ℕ) → IsPlace top me place → IfOk result (λ envelopes. envelopes.items ≡ map (λ s. envelope me (shard_node top (dc_of top me) s) time (body.PrepareRemote txn)) cohorts.now) }
    ensures memory { IfErr result (λ e. e ≡ Fault.Memory) }
{
    let envelopes: Vec<Envelope> = cohorts
        .shards()
        .map(|shard| place.envelope_near(time, shard, Body::PrepareRemote { txn }))
        .collect(alloc)?;
    Ok(envelopes)
}

/// Posts a DepCheck for each dependency of a transaction, in their order: to its coordinator in this data centre. There is
/// room for them. Takes no memory.
pub fn post_dep_checks(
    place: Place,
    time: Time,
    txn: TxnId,
    dependencies: &[Writer],
    outbox: &mut Outbox,
)
    requires { length dependencies.now ≤ outbox.old.room }
    ensures sent { (top : TopologyValue) (me : ℕ) (r : KeptBallot) → IsPlace top me place → r.txn ≡ txn → r.dependencies ≡ dependencies.now → outbox.new.sent ≡ outbox.old.sent ++ machine.dep_checks top me time r }
    ensures room { outbox.old.room ≤ outbox.new.room + length dependencies.now }
{
    for writer in dependencies {
        let body = Body::DepCheck {
            dependency: writer.txn(),
            waiter: txn,
        };
        let check = place.envelope_near(time, writer.shard(), body);
        outbox.post(check).unwrap();
    }
}
