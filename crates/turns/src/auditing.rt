//! What seats conclude, by the audit: as it is, with all answers emptied, which are wrong then, and with one column changed, by
//! which one is.
use audit::{Audit, audit};
use column_family::Value;
use logical_time::Fault;
use messages::Outcome;
use slice::{Answer, AnsweredRow, Columns};
use std::alloc::Global;
use std::thread::Threads;
use table::History;
use threaded::Concluded;
use world::Completed;

/// The history of each data centre.
fn histories_of(alloc: Global, concluded: &Concluded) -> Result<Vec<History>, Fault> {
    let mut histories = Vec::new(alloc);
    for dc in 0..concluded.topology().dcs() {
        histories.push(concluded.history(alloc, dc)?)?;
    }
    Ok(histories)
}

/// An outcome, without its rows where it is that of a read.
fn emptied(alloc: Global, outcome: &Outcome) -> Result<Outcome, Fault> {
    match outcome {
        Outcome::Read { effective, .. } => Ok(Outcome::Read {
            effective: *effective,
            answer: Answer::new(alloc),
        }),
        _ => Ok(outcome.copied()?),
    }
}

/// Whether a row has a column.
fn has_column(row: &AnsweredRow) -> bool {
    !row.columns.as_slice().is_empty()
}

/// Columns, the first of them with another value.
fn with_another_value(alloc: Global, columns: &Columns) -> Result<Columns, Fault> {
    let mut changed = Vec::new(alloc);
    for column in columns.as_slice() {
        let mut copy = column.clone()?;
        if changed.is_empty() {
            copy.value = Value::from_slice(alloc, b"another")?;
        }
        changed.push(copy)?;
    }
    Ok(Columns::from_vec(alloc, changed)?)
}

/// An answer, with another value in one column, if it has one.
fn changed(alloc: Global, answer: &Answer) -> Result<Answer, Fault> {
    let mut rows = Answer::new(alloc);
    let mut is_changed = false;
    for row in answer.as_slice() {
        let mut copy = row.clone()?;
        if !is_changed && has_column(row) {
            copy.columns = with_another_value(alloc, &row.columns)?;
            is_changed = true;
        }
        rows.push(copy)?;
    }
    Ok(rows)
}

/// Changes one column of the first answer that has one.
fn change_one(alloc: Global, completed: &mut [Completed]) -> Result<(), Fault> {
    for one in completed.iter_mut() {
        if let Outcome::Read { effective, answer } = &one.outcome
            && answer.as_slice().iter().any(|row| has_column(row))
        {
            one.outcome = Outcome::Read {
                effective: *effective,
                answer: changed(alloc, answer)?,
            };
            return Ok(());
        }
    }
    Ok(())
}

/// How answers come before the audit.
#[derive(Clone, Copy, PartialEq, Eq)]
pub(crate) enum Answers {
    /// As they are.
    Whole,
    /// Without their rows.
    Emptied,
    /// With another value in one column of one of them.
    OneChanged,
}

/// All operations that ended, with these answers.
fn completed_of(
    alloc: Global,
    concluded: &Concluded,
    answers: Answers,
) -> Result<Vec<Completed>, Fault> {
    let mut completed = Vec::new(alloc);
    for ended in concluded.transcript() {
        let outcome = if answers == Answers::Emptied {
            emptied(alloc, ended.outcome)?
        } else {
            ended.outcome.copied()?
        };
        completed.push(Completed {
            node: ended.node,
            number: ended.number,
            home: ended.home,
            op: ended.op.copied()?,
            outcome,
        })?;
    }
    if answers == Answers::OneChanged {
        change_one(alloc, completed.as_mut_slice())?;
    }
    Ok(completed)
}

/// What the audit finds in what was concluded, with these answers.
pub(crate) fn audited<R: Threads + Sync>(
    threads: &R,
    alloc: Global,
    concluded: &Concluded,
    answers: Answers,
) -> Result<Audit, Fault> {
    let histories = histories_of(alloc, concluded)?;
    let completed = completed_of(alloc, concluded, answers)?;
    audit(threads, alloc, histories.as_slice(), completed.as_slice())
}
