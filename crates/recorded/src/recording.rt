//! The record of the run of a script.
ghost use Rattle.std.specs.Prelude.{◌≡◌, ◌++◌, ◌⊎◌, Err, option_to_list, IfOk, OnOk, IfErr};
ghost use Rattle.logical_time.specs.declared.fault.Fault.TheVariants as fault;
ghost use Rattle.workload.specs.Simulation.{simulated};
ghost use Rattle.recorded.specs.Recording as recording;

use crate::recorded::Recorded;
use audit::Answered;
use column_family::Schema;
use logical_time::Fault;
use messages::{Op, Outcome};
use std::alloc::{AllocError, Global};
use table::History;
use workload::{Script, simulate_recorded};
use world::Completed;

// The read that was answered, if it is one: a copy, which shares the bytes of keys, names and values. Fails by memory alone.
fn answered_in(completed: &Completed) -> Result<Option<Answered>, AllocError>
    ensures { IfOk result (λ read. read ≡ recording.answered_in completed.now) }
{
    match (&completed.op, &completed.outcome) {
        (Op::Read(read), Outcome::Read { effective, answer }) => Ok(Some(Answered {
            home: usize::from(completed.home),
            read: read.get().clone()?,
            time: *effective,
            answer: answer.clone()?,
        })),
        _ => Ok(None),
    }
}

// Adds a read at the end, if there is one. Fails by memory alone.
fn add(reads: &mut Vec<Answered>, read: Option<Answered>) -> Result<(), Fault>
    ensures ok { OnOk result (reads.new.items ≡ reads.old.items ++ option_to_list read) }
    ensures memory { IfErr result (λ e. e ≡ fault.Memory) }
{
    if let Some(read) = read {
        reads.push(read)?;
    }
    Ok(())
}

// The reads that were answered, in order. Refused with `Memory` alone.
fn reads_in(alloc: Global, completed: &[Completed]) -> Result<Vec<Answered>, Fault>
    ensures ok { IfOk result (λ reads. reads.items ≡ recording.reads_in completed.now) }
    ensures memory { IfErr result (λ e. e ≡ fault.Memory) }
{
    let mut reads = Vec::new(alloc);
    for one in completed {
        let read = answered_in(one)?;
        add(&mut reads, read)?;
    }
    Ok(reads)
}

/// The record of these histories and of the reads among these operations that were answered, in order, of a store with these
/// families. A read that ended with `Collected` has no answer, and is left out. Refused with `Memory` alone. Linear in the
/// operations and the rows of their answers, whose bytes are shared.
pub fn record_of(
    alloc: Global,
    families: &Schema,
    histories: Vec<History>,
    completed: &[Completed],
) -> Result<Recorded, Fault>
    ensures ok { IfOk result (λ r. r ≡ recording.record_by families.now histories.items completed.now) }
    ensures memory { IfErr result (λ e. e ≡ fault.Memory) }
{
    let reads = reads_in(alloc, completed)?;
    Ok(Recorded::new(families.copied()?, histories, reads))
}

/// The record of the run of a script: a history of each data centre, and the reads that were answered, in order. For a program
/// that ends with it: the memory of what else the run came to is given back with that of the process. Refused as `simulate` of
/// `workload` is. Costs what `simulate_recorded` costs, and `record_of`.
pub fn record_run(alloc: Global, script: &Script) -> Result<Recorded, Fault>
    ensures of_run { IfOk result (recording.IsRecordOf script.now) }
    ensures faults { IfErr result (λ e. (e ≡ fault.Memory) ⊎ (simulated script.now ≡ Err e)) }
{
    let (histories, completed) = simulate_recorded(alloc, script)?;
    record_of(
        alloc,
        script.topology.schema(),
        histories,
        completed.as_slice(),
    )
}
