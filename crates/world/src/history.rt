//! Histories of data centres, by asking.
ghost use Rattle.std.specs.Prelude.{◌≡◌, ◌<◌, ◌≤◌, ◌+◌, ◌*◌, ◌++◌, ℕ, length, filter_map, option_map, option_to_list, OnOk, IfOk, IfErr};
ghost use Rattle.messages.specs.Topology.{TopologyValue, shard_node};
ghost use Rattle.messages.specs.Shard.{ShardState, Decision};
ghost use Rattle.messages.specs.Known.{decision_of};
ghost use Rattle.planner.specs.Plan.{coordinator_of};
ghost use Rattle.world.specs.Holds.{AreShards};
ghost use Rattle.world.specs.Asked.{entry_by, entry_at};

use crate::written::Written;
use column_family::{Batch, Committed};
use logical_time::{Fault, Shard as Number, Stamp, Time, TxnId};
use messages::Home;
use planner::shard_of;
use shard::Shard;
use std::alloc::Global;
use table::History;

/// The coordinator of a batch: the shard of its first row.
fn coordinator(home: Home, batch: &Batch) -> Number
    ensures value { result ≡ coordinator_of home.shards batch.now }
    ensures below { 0 < home.shards → result < home.shards }
{
    match batch.as_slice().first() {
        Some(change) => shard_of(&change.row.key, home.shards()),
        None => Number::first(),
    }
}

/// What the coordinator of the batch in this data centre decided of the transaction, if it did.
fn decided(home: Home, shards: &[Shard], batch: &Batch, txn: TxnId) -> Option<(Time, Stamp)>
    requires some { 0 < home.shards }
    requires shards { home.dc * home.shards + home.shards ≤ length shards.now }
    ensures { (top : TopologyValue) (states : ℕ → ShardState) → top.shards ≡ home.shards → AreShards top states shards.now
        → option_map (λ (d : Decision). (d.commit, d.stamp)) (decision_of txn (states (shard_node top home.dc (coordinator_of top.shards batch.now)))) ≡ result }
{
    let node = home.node_of(coordinator(home, batch));
    shards[usize::from(node.get())].decided(txn)
}

/// The entry of a write in the history of this data centre, by asking the coordinator there. None where it isn't decided
/// there. Refused with `Memory` alone.
#[tactic(auto, using(crate::proofs::histories::AskedFor::entry_told))]
fn entry(home: Home, shards: &[Shard], write: &Written) -> Result<Option<Committed>, Fault>
    requires some { 0 < home.shards }
    requires shards { home.dc * home.shards + home.shards ≤ length shards.now }
    ensures ok { (top : TopologyValue) (states : ℕ → ShardState) → top.shards ≡ home.shards → AreShards top states shards.now
        → IfOk result (λ o. o ≡ entry_at top states home.dc write.now) }
    ensures memory { IfErr result (λ e. e ≡ Fault.Memory) }
{
    let batch = write.batch.get();
    let told = decided(home, shards, batch, write.txn);
    entry_with(batch, told)
}

/// The entry of a batch, by what was told of it. Refused with `Memory` alone.
fn entry_with(batch: &Batch, told: Option<(Time, Stamp)>) -> Result<Option<Committed>, Fault>
    ensures ok { IfOk result (λ o. o ≡ entry_by batch.now told) }
    ensures memory { IfErr result (λ e. e ≡ Fault.Memory) }
{
    match told {
        None => Ok(None),
        Some((commit, stamp)) => Ok(Some(Committed {
            batch: batch.clone()?,
            stamp,
            commit,
        })),
    }
}

/// Adds an entry at the end, if there is one. Refused with `Memory` alone.
fn add(history: &mut History, entry: Option<Committed>) -> Result<(), Fault>
    ensures ok { OnOk result (history.new ≡ history.old ++ option_to_list entry) }
    ensures memory { IfErr result (λ e. e ≡ Fault.Memory) }
{
    if let Some(entry) = entry {
        history.push(entry)?;
    }
    Ok(())
}

/// The entries of all these writes, in their order. Refused with `Memory` alone.
#[tactic(auto, using(crate::proofs::histories::AskedFor::one_more_asked))]
pub fn history(
    alloc: Global,
    home: Home,
    shards: &[Shard],
    writes: &[Written],
) -> Result<History, Fault>
    requires some { 0 < home.shards }
    requires shards { home.dc * home.shards + home.shards ≤ length shards.now }
    ensures ok { (top : TopologyValue) (states : ℕ → ShardState) → top.shards ≡ home.shards → AreShards top states shards.now
        → IfOk result (λ h. h ≡ filter_map (entry_at top states home.dc) writes.now) }
    ensures memory { IfErr result (λ e. e ≡ Fault.Memory) }
{
    let mut history = History::new(alloc);
    for write in writes {
        let entry = entry(home, shards, write)?;
        add(&mut history, entry)?;
    }
    Ok(history)
}
