//! What a shard hasn't finished, and what it decided.
ghost use Rattle.std.specs.Prelude.{◌≡◌, ℕ, Some, filter_map, option_map, Contains, IfOk, IfErr};
ghost use Rattle.std.specs.List.Sorted.{IsStrictlySortedBy};
ghost use Rattle.logical_time.specs.declared.fault.Fault.TheVariants as fault;
ghost use Rattle.logical_time.specs.Stamps.{TxnValue, txn_cmp};
ghost use Rattle.messages.specs.Topology.{TopologyValue};
ghost use Rattle.messages.specs.Shard.{ShardState, Decision};
ghost use Rattle.messages.specs.Known.{decision_of};
ghost use Rattle.write_txn.specs.declared.open.Open.{Open};
ghost use Rattle.write_txn.specs.Ledger.{state_of, txn_of, Holds};
ghost use Rattle.write_txn.specs.Ledger as ledger;
ghost use Rattle.shard.specs.Kept.{Represents};
ghost use Rattle.shard.specs.UnderWay.{part_under_way};
ghost use Rattle.shard.specs.Unfinished.{unfinished_of};

use crate::kept::ShardKept;
use logical_time::{Fault, Stamp, Time, TxnId};
use std::alloc::{AllocError, Global};
use std::collections::BTreeSet;
use txn_state::WritePart;
use write_txn::{Ledger, Open};

/// The transactions of which something is under way, in the order of their numbers.
fn txns_under_way(alloc: Global, ledger: &Ledger) -> Result<BTreeSet<TxnId>, Fault>
    ensures all { IfOk result (λ txns. (t : TxnValue) (held : Open) → state_of ledger.now t ≡ Some (Holds held) → Contains txns.keys (txn_of held)) }
    ensures ordered { IfOk result (λ txns. IsStrictlySortedBy txn_cmp txns.keys) }
    ensures memory { IfErr result (λ e. e ≡ fault.Memory) }
{
    let mut txns = BTreeSet::new(alloc);
    for open in ledger.as_slice() {
        txns.insert(open.txn())?;
    }
    Ok(txns)
}

/// The shard's own part of what is under way, which shares its bytes.
fn part_of(held: &Open) -> Result<WritePart, AllocError>
    ensures { IfOk result (λ part. part ≡ ledger.part_of held.now) }
{
    Ok(WritePart {
        writer: held.writer(),
        batch: held.rows().clone()?,
    })
}

/// The shard's own parts of these transactions, without those of which nothing is under way.
fn parts_of(alloc: Global, ledger: &Ledger, txns: &BTreeSet<TxnId>) -> Result<Vec<WritePart>, Fault>
    ensures ok { IfOk result (λ parts. parts.items ≡ filter_map (part_under_way ledger.now) txns.now.keys) }
    ensures memory { IfErr result (λ e. e ≡ fault.Memory) }
{
    let mut parts = Vec::new(alloc);
    for txn in txns.iter() {
        if let Some(open) = ledger.open(*txn) {
            parts.push(part_of(open)?)?;
        }
    }
    Ok(parts)
}

/// The parts that are kept or prepared and not applied, in the order of their transactions' numbers. They share the
/// bytes of keys, names and values. In the order of m log m for m of them, beside their copies. Refused with `Memory`
/// alone.
pub(crate) fn unfinished(kept: &ShardKept) -> Result<Vec<WritePart>, Fault>
    ensures ok { (top : TopologyValue) (me : ℕ) (a : ShardState) → Represents top me kept.now a → IfOk result (λ parts. parts.items ≡ unfinished_of top me a) }
    ensures memory { IfErr result (λ e. e ≡ fault.Memory) }
{
    let ledger = kept.transactions.ledger();
    let txns = txns_under_way(kept.alloc, ledger)?;
    parts_of(kept.alloc, ledger, &txns)
}

/// The commit time and the stamp with which the shard decided the transaction, if it did. Constant on average, however
/// many transactions are known.
pub(crate) fn decided(kept: &ShardKept, txn: TxnId) -> Option<(Time, Stamp)>
    ensures { (top : TopologyValue) (me : ℕ) (a : ShardState) → Represents top me kept.now a → option_map (λ (d : Decision). (d.commit, d.stamp)) (decision_of txn a) ≡ result }
{
    kept.transactions.ledger().decided(txn)
}
