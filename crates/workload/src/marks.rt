//! What each entry of a transcript tells, while the outcomes stay where the world keeps them.
ghost use Rattle.std.specs.Prelude.{◌≡◌, ◌++◌, IfOk, IfErr, OnOk};
ghost use Rattle.workload.specs.Marks.{merged, noted};
ghost use Rattle.workload.specs.Simulation.{entry_of};

use crate::transcript::{Entry, Transcript};
use logical_time::{Fault, Node};
use std::alloc::Global;
use std::mem;
use world::Completed;

/// A submission that was refused.
#[derive(Drop)]
pub(crate) struct Refusal {
    /// The session.
    pub node: Node,
    /// Why.
    pub fault: Fault,
}

/// What an entry of a transcript tells.
#[derive(Drop)]
pub(crate) enum Mark {
    /// The next outcome.
    Ended,
    /// A refusal.
    Refused(Refusal),
}

/// What an event came to is noted: its refusal, if it was refused, and then as many outcomes. Fails by memory alone.
pub(crate) fn note(
    refusal: Option<Refusal>,
    ended: usize,
    marks: &mut Vec<Mark>,
) -> Result<(), Fault>
    ensures ok { OnOk result (marks.new.items ≡ marks.old.items ++ noted refusal ended) }
    ensures memory { IfErr result (λ e. e ≡ Fault.Memory) }
{
    if let Some(refusal) = refusal {
        marks.push(Mark::Refused(refusal))?;
    }
    for _ in 0..ended {
        marks.push(Mark::Ended)?;
    }
    Ok(())
}

/// The transcript of these marks, with copies of the outcomes. Refused with `Memory` alone.
pub(crate) fn with_copies(
    alloc: Global,
    marks: &[Mark],
    completed: &[Completed],
) -> Result<Transcript, Fault>
    ensures ok { IfOk result (λ transcript. transcript ≡ merged marks.now completed.now) }
    ensures memory { IfErr result (λ e. e ≡ Fault.Memory) }
{
    let mut transcript = Transcript::with_capacity(alloc, marks.len())?;
    let mut rest = completed;
    for mark in marks {
        match mark {
            Mark::Refused(refusal) => transcript.push(Entry::Refused {
                node: refusal.node,
                fault: refusal.fault,
            })?,
            Mark::Ended => {
                if let [next, others @ ..] = rest {
                    transcript.push(Entry::ended(next.node, next.number, &next.outcome)?)?;
                    rest = others;
                }
            }
        }
    }
    Ok(transcript)
}

// The entry of an operation that ended, with its outcome. The operation is left to the end of the process.
fn moved(completed: Completed) -> Entry
    ensures { result ≡ entry_of completed }
{
    let Completed {
        node,
        number,
        home: _,
        op,
        outcome,
    } = completed;
    mem::forget(op);
    Entry::of_outcome(node, number, outcome)
}

/// The transcript of these marks, with the outcomes themselves, for a program that ends with it: the memory of the operations
/// is given back with that of the process. Refused with `Memory` alone.
pub(crate) fn with_outcomes(
    alloc: Global,
    marks: &[Mark],
    completed: Vec<Completed>,
) -> Result<Transcript, Fault>
    ensures ok { IfOk result (λ transcript. transcript ≡ merged marks.now completed.items) }
    ensures memory { IfErr result (λ e. e ≡ Fault.Memory) }
{
    let mut transcript = Transcript::with_capacity(alloc, marks.len())?;
    let mut rest = completed.into_iter();
    for mark in marks {
        match mark {
            Mark::Refused(refusal) => transcript.push(Entry::Refused {
                node: refusal.node,
                fault: refusal.fault,
            })?,
            Mark::Ended => {
                if let Some(next) = rest.next() {
                    transcript.push(moved(next))?;
                }
            }
        }
    }
    Ok(transcript)
}
