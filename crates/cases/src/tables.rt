//! Reads of the plain table.
use crate::building::{batch, columns_named, range, read, stamp, time};
use crate::showing::add_answer;
use crate::steps::Subject;
use column_family::Committed;
use logical_time::Fault;
use slice::Predicate;
use std::alloc::Global;
use table::{History, answer};

fn commit(
    alloc: Global,
    history: &mut History,
    (at, stamped): (&str, &str),
    changes: &[&str],
) -> Result<(), Fault> {
    let batch = batch(alloc, changes)?;
    history.push(Committed {
        batch,
        stamp: stamp(stamped),
        commit: time(at),
    })?;
    Ok(())
}

/// Adds what a read of the rows b, a and b means on the history.
pub(crate) fn add_read(
    alloc: Global,
    history: &History,
    predicate: Predicate,
    at: &str,
    seen: &mut String,
) -> Result<(), Fault> {
    let read = read(alloc, "bab", predicate)?;
    let answer = answer(alloc, history, time(at), &read)?;
    add_answer(seen, &answer)
}

impl Subject for History {
    fn step(&mut self, alloc: Global, words: &[&str], seen: &mut String) -> Result<(), Fault> {
        let (predicate, at) = match words {
            ["commit", at, stamped, changes @ ..] => return commit(
                alloc,
                self,
                (at, stamped),
                changes,
            ),
            ["up", start, finish, count, at] => (range(alloc, start, finish, count, false)?, at),
            ["down", start, finish, count, at] => (range(alloc, start, finish, count, true)?, at),
            ["names", names, at] => (columns_named(alloc, names)?, at),
            _ => return Err(Fault::Script),
        };
        add_read(alloc, self, predicate, at, seen)
    }
}
