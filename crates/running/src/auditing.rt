//! What threads made of a script is audited.
ghost use Rattle.std.specs.Prelude.{◌≡◌, IfOk, IfErr};
ghost use Rattle.threaded.specs.Concluded.{InEachRun, by_session};
ghost use Rattle.threaded.specs.Entries as entries;
ghost use Rattle.workload.specs.Audited.{AreFirstHistories, IsAuditOf};

use logical_time::Fault;
use std::alloc::Global;
use std::thread::Threads;
use table::History;
use threaded::{AllEnded, Concluded, Ended};
use workload::{Audit, audit};
use world::Completed;

/// The history of each data centre. Refused with `Memory` alone.
fn histories_of(alloc: Global, concluded: &Concluded) -> Result<Vec<History>, Fault>
    ensures each { IfOk result (λ histories. InEachRun concluded.now.top concluded.now.seats (λ w. AreFirstHistories concluded.now.top w concluded.now.top.dcs histories.items)) }
    ensures memory { IfErr result (λ e. e ≡ Fault.Memory) }
{
    let mut histories = Vec::new(alloc);
    for dc in 0..concluded.topology().dcs() {
        histories.push(concluded.history(alloc, dc)?)?;
    }
    Ok(histories)
}

/// A copy of an operation that ended. Refused with `Memory` alone.
fn copied(ended: Ended<'_>) -> Result<Completed, Fault>
    ensures same { IfOk result (λ completed. completed ≡ entries.completed_of ended.entry) }
    ensures memory { IfErr result (λ e. e ≡ Fault.Memory) }
{
    Ok(Completed {
        node: ended.node,
        number: ended.number,
        home: ended.home,
        op: ended.op.copied()?,
        outcome: ended.outcome.copied()?,
    })
}

/// Copies of the operations that ended. Refused with `Memory` alone.
fn all_copied(alloc: Global, ended: AllEnded<'_>) -> Result<Vec<Completed>, Fault>
    ensures same { IfOk result (λ completed. completed.items ≡ ended.entry) }
    ensures memory { IfErr result (λ e. e ≡ Fault.Memory) }
{
    let mut completed = Vec::new(alloc);
    for one in ended {
        completed.push(copied(one)?)?;
    }
    Ok(completed)
}

/// The audit of what was concluded: no read is wrong. Refused with `Memory` alone.
pub(crate) fn audit_of(
    rt: &(impl Threads + Sync),
    alloc: Global,
    concluded: &Concluded,
) -> Result<Audit, Fault>
    ensures audit { IfOk result (λ found. InEachRun concluded.now.top concluded.now.seats (λ w. IsAuditOf concluded.now.top w (by_session concluded.now.top w.transcript) found)) }
    ensures right { IfOk result (λ found. found.wrong ≡ 0) }
    ensures memory { IfErr result (λ e. e ≡ Fault.Memory) }
{
    let histories = histories_of(alloc, concluded)?;
    let completed = all_copied(alloc, concluded.transcript())?;
    audit(rt, alloc, histories.as_slice(), completed.as_slice())
}
