//! The transactions that a read at a time waits for.
ghost use Rattle.std.specs.Prelude.{◌≡◌, ℕ, filter_map, IfOk, IfErr};
ghost use Rattle.logical_time.specs.declared.fault.Fault.TheVariants as fault;
ghost use Rattle.messages.specs.Topology.{TopologyValue};
ghost use Rattle.messages.specs.Shard.{ShardState};
ghost use Rattle.messages.specs.Reads.{asked_below};
ghost use Rattle.shard.specs.Kept.{Represents};
ghost use Rattle.shard.specs.UnderWay.{writer_under_way};

use crate::kept::ShardKept;
use commit_check::rows_of;
use logical_time::{Fault, Time, TxnId, Writer};
use slice::Read;
use std::alloc::Global;
use write_txn::Ledger;

/// These transactions with their coordinators, without those of which nothing is under way.
fn writers_of(alloc: Global, ledger: &Ledger, txns: &[TxnId]) -> Result<Vec<Writer>, Fault>
    ensures ok { IfOk result (λ writers. writers.items ≡ filter_map (writer_under_way ledger.now) txns.now) }
    ensures memory { IfErr result (λ e. e ≡ fault.Memory) }
{
    let mut writers = Vec::new(alloc);
    for txn in txns {
        if let Some(open) = ledger.open(*txn) {
            writers.push(open.writer())?;
        }
    }
    Ok(writers)
}

/// The transactions with a mark below the time in an asked row, with their coordinators, in the order of their numbers.
/// In the order of (k + m) log n for k rows with m marks among n. Refused with `Memory` alone.
pub(crate) fn writers_below(kept: &ShardKept, time: Time, read: &Read) -> Result<Vec<Writer>, Fault>
    ensures ok { (top : TopologyValue) (me : ℕ) (a : ShardState) → Represents top me kept.now a → IfOk result (λ writers. writers.items ≡ asked_below a time read.now) }
    ensures memory { IfErr result (λ e. e ≡ fault.Memory) }
{
    let rows = rows_of(kept.alloc, read)?;
    let txns = kept.transactions.marks().below_rows(&rows, time)?;
    writers_of(kept.alloc, kept.transactions.ledger(), &txns)
}
