//! Completed reads, each against the history of its home.
ghost use Rattle.std.specs.Prelude.{◌≡◌, map, not, slice_get, Some, count_by, IfOk, IfErr};
ghost use Rattle.logical_time.specs.declared.fault.Fault.TheVariants as fault;
ghost use Rattle.messages.specs.declared.op.Op.TheVariants as op;
ghost use Rattle.audit.specs.Audit as audit;

use crate::found::Audit;
use crate::laid::Laid;
use equality::same_answer;
use logical_time::{Fault, Time};
use messages::{Op, Outcome};
use rayon::prelude::*;
use slice::{Answer, Read};
use std::alloc::{AllocError, Global};
use std::thread::Threads;
use table::History;
use world::Completed;

/// Whether an answer is the meaning of a read. Refused with `Memory` alone.
pub(crate) fn is_right(
    alloc: Global,
    laid: &Laid<'_>,
    read: &Read,
    time: Time,
    answer: &Answer,
) -> Result<bool, Fault>
    ensures ok { IfOk result (λ b. b ≡ audit.is_right (Some laid.now) (op.Read read.now) time answer.now) }
    ensures memory { IfErr result (λ e. e ≡ fault.Memory) }
{
    let meaning = laid.answer(alloc, read, time)?;
    Ok(same_answer(answer, &meaning))
}

// Whether the answer of what was asked in a data centre is wrong. Refused with `Memory` alone.
fn is_wrong_at(
    alloc: Global,
    laid: &[Laid<'_>],
    home: u16,
    op: &Op,
    time: Time,
    answer: &Answer,
) -> Result<bool, Fault>
    ensures ok { IfOk result (λ b. b ≡ not (audit.is_right (slice_get laid.now home) op.now time answer.now)) }
    ensures memory { IfErr result (λ e. e ≡ fault.Memory) }
{
    let Op::Read(read) = op else {
        return Ok(true);
    };
    match laid.get(usize::from(home)) {
        Some(laid) => Ok(!is_right(alloc, laid, read.get(), time, answer)?),
        None => Ok(true),
    }
}

// Whether an operation is a read that was answered wrong. Refused with `Memory` alone.
fn is_wrong(alloc: Global, laid: &[Laid<'_>], completed: &Completed) -> Result<bool, Fault>
    ensures ok { IfOk result (λ b. b ≡ audit.is_wrong laid.now completed.now) }
    ensures memory { IfErr result (λ e. e ≡ fault.Memory) }
{
    match &completed.outcome {
        Outcome::Read { effective, answer } => is_wrong_at(
            alloc,
            laid,
            completed.home,
            &completed.op,
            *effective,
            answer,
        ),
        _ => Ok(false),
    }
}

// The same, where all that can fail is memory.
fn judge(alloc: Global, laid: &[Laid<'_>], completed: &Completed) -> Result<bool, AllocError>
    ensures { IfOk result (λ b. b ≡ audit.is_wrong laid.now completed.now) }
{
    match is_wrong(alloc, laid, completed) {
        Ok(wrong) => Ok(wrong),
        Err(_) => Err(AllocError),
    }
}

// Which of the operations are reads that were answered wrong, by as many threads as there are processors.
fn judge_all(
    rt: &(impl Threads + Sync),
    alloc: Global,
    laid: &[Laid<'_>],
    completed: &[Completed],
) -> Result<Vec<bool>, AllocError>
    ensures { IfOk result (λ wrong. wrong.items ≡ map (audit.is_wrong laid.now) completed.now) }
{
    completed
        .par_iter()
        .with_min_len(1)
        .map(
            |c: &Completed| -> Result<bool, AllocError>
                ensures { IfOk result (λ b. b ≡ audit.is_wrong laid.entry.now c.now) }
            { judge(alloc, laid, c) },
        )
        .collect::<Result<Vec<bool>, AllocError>>(rt, alloc)?
}

// How many are true.
fn count(all: &[bool]) -> usize
    ensures { result ≡ count_by (λ b. b) all.now }
{
    all.iter().filter(|b| **b).count()
}

// Whether an operation is a read that was answered.
fn is_read(completed: &Completed) -> bool
    ensures { result ≡ audit.is_read completed.now }
{
    match &completed.outcome {
        Outcome::Read { .. } => true,
        _ => false,
    }
}

// How many reads were answered.
fn count_reads(completed: &[Completed]) -> usize
    ensures { result ≡ count_by audit.is_read completed.now }
{
    let mut reads = 0;
    for one in completed {
        if is_read(one) {
            reads += 1;
        }
    }
    reads
}

/// The histories, each laid out. Refused with `Memory` alone.
pub(crate) fn lay_all(alloc: Global, histories: &[History]) -> Result<Vec<Laid<'_>>, Fault>
    ensures ok { IfOk result (λ laid. laid.items ≡ histories.now) }
    ensures memory { IfErr result (λ e. e ≡ fault.Memory) }
{
    let mut laid = Vec::with_capacity(alloc, histories.len())?;
    for history in histories {
        laid.push(Laid::new(alloc, history)?)?;
    }
    Ok(laid)
}

/// Counts the completed reads, and those of them whose answer isn't the meaning of their request on the history of
/// their home, at their effective time. A read that ended with `Collected` isn't completed; where a home has no
/// history, nothing is right there. In the order of n log n for n changes and asked rows of the histories of a run; where at one
/// place commit times fall as stamps rise, a change costs as many steps as the versions that it hides, and a history in which
/// two entries have one stamp is gone through for each read. Spread over the processors. Refused with `Memory` alone.
pub fn audit(
    rt: &(impl Threads + Sync),
    alloc: Global,
    histories: &[History],
    completed: &[Completed],
) -> Result<Audit, Fault>
    ensures reads { IfOk result (λ found. found.reads ≡ count_by audit.is_read completed.now) }
    ensures wrong { IfOk result (λ found. found.wrong ≡ count_by (audit.is_wrong histories.now) completed.now) }
    ensures memory { IfErr result (λ e. e ≡ fault.Memory) }
{
    let laid = lay_all(alloc, histories)?;
    let wrong = judge_all(rt, alloc, laid.as_slice(), completed)?;
    Ok(Audit {
        reads: count_reads(completed) as u64,
        wrong: count(wrong.as_slice()) as u64,
    })
}
