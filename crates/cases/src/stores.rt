//! Row b in a store: its column x, or those that are asked for.
use crate::building::{batch, columns_named, range, row, stamp, time, txn};
use crate::showing::add_columns;
use crate::steps::{Subject, tell as tell_steps};
use logical_time::{Fault, Shard, Time, Writer};
use std::alloc::Global;
use store::{Part, Store};
use txn_state::{Prepared, WritePart};

fn apply(
    alloc: Global,
    store: &mut Store,
    (first, commit): (&str, &str),
    changes: &[&str],
) -> Result<(), Fault> {
    let writer = Writer::new(txn(first), Shard::first());
    let batch = batch(alloc, changes)?;
    store.make_room(&batch)?;
    let prepared = Prepared::new(WritePart { writer, batch }, Time::zero());
    match store.apply(prepared, time(commit), stamp(first)) {
        Ok(()) => Ok(()),
        Err((fault, prepared)) => {
            let _part = prepared.surrender();
            Err(fault)
        }
    }
}

/// Adds the answer of the store, or its refusal.
fn add_part(seen: &mut String, answer: Result<Part, Fault>) -> Result<(), Fault> {
    match answer {
        Ok(part) => {
            let evt = part.evt.get();
            write!(seen, "{evt}")?;
            add_columns(seen, &part.columns)
        }
        Err(fault) => {
            write!(seen, "{fault}")?;
            Ok(())
        }
    }
}

/// Adds the transactions that the answer of the store rests on, or its refusal.
fn add_writers(seen: &mut String, answer: Result<Part, Fault>) -> Result<(), Fault> {
    match answer {
        Ok(part) => {
            for writer in part.writers.as_slice() {
                let txn = writer.txn();
                let (session, number) = (txn.session.get(), txn.number);
                write!(seen, "{session}.{number};")?;
            }
            Ok(())
        }
        Err(fault) => {
            write!(seen, "{fault}")?;
            Ok(())
        }
    }
}

/// What the store answers of the columns of these names at a time, or now.
fn answer(alloc: Global, store: &Store, names: &str, at: Option<&str>) -> Result<Part, Fault> {
    let row = row(alloc, "b")?;
    let predicate = columns_named(alloc, names)?;
    match at {
        Some(at) => store.read_at(&row, &predicate, time(at)),
        None => store.read_now(&row, &predicate),
    }
}

/// What the store answers now of a walk between two ends, upwards or downwards.
fn walk(
    alloc: Global,
    store: &Store,
    (start, finish): (&str, &str),
    count: &str,
    reversed: bool,
) -> Result<Part, Fault> {
    let row = row(alloc, "b")?;
    let predicate = range(alloc, start, finish, count, reversed)?;
    store.read_now(&row, &predicate)
}

impl Subject for Store {
    fn step(&mut self, alloc: Global, words: &[&str], seen: &mut String) -> Result<(), Fault> {
        match words {
            ["apply", first, commit, changes @ ..] => apply(alloc, self, (first, commit), changes),
            ["collect", at] => Ok(self.collect(time(at))),
            ["now"] => add_part(seen, answer(alloc, self, "x", None)),
            ["now", names] => add_part(seen, answer(alloc, self, names, None)),
            ["at", at] => add_part(seen, answer(alloc, self, "x", Some(at))),
            ["at", at, names] => add_part(seen, answer(alloc, self, names, Some(at))),
            ["up", start, finish, count] => {
                add_part(seen, walk(alloc, self, (start, finish), count, false))
            }
            ["down", start, finish, count] => {
                add_part(seen, walk(alloc, self, (start, finish), count, true))
            }
            ["rests", names] => add_writers(seen, answer(alloc, self, names, None)),
            ["rests", names, at] => add_writers(seen, answer(alloc, self, names, Some(at))),
            _ => Err(Fault::Script),
        }
    }
}

/// The files of steps, each of a new store.
const FILES: [&str; 6] = [
    "older_stamp_arrives_late.steps",
    "newer_stamp_arrives_late.steps",
    "collection_keeps_visible.steps",
    "ranges_of_a_row.steps",
    "times_of_ranges.steps",
    "collection_of_ranges.steps",
];

pub(crate) fn tell(rt: &HostRuntime) -> Result<(), Fault> {
    for file in FILES {
        let mut store = Store::new(rt.alloc());
        tell_steps(rt, file, &mut store)?;
        store.close();
    }
    Ok(())
}
