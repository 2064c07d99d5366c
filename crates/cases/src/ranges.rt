//! The range deletions of a row.
use crate::building::{end, number, stamp, time, txn};
use crate::showing::text_of;
use crate::steps::Subject;
use column_family::Name;
use logical_time::{Fault, Shard, Writer};
use std::alloc::Global;
use versions::{RangeDeletion, Ranges};

fn put(
    alloc: Global,
    ranges: &mut Ranges,
    (first, evt): (&str, &str),
    (start, finish): (&str, &str),
) -> Result<(), Fault> {
    let range = RangeDeletion {
        stamp: stamp(first),
        evt: time(evt),
        start: end(alloc, start)?,
        finish: end(alloc, finish)?,
        writer: Writer::new(txn(first), Shard::first()),
    };
    match ranges.put(range) {
        Ok(()) => Ok(()),
        Err((fault, _)) => Err(fault),
    }
}

/// Adds the stamp of a range deletion, and its ends.
fn add_range(seen: &mut String, range: Option<&RangeDeletion>) -> Result<(), Fault> {
    if let Some(range) = range {
        let (time, node) = (range.stamp.time().get(), range.stamp.node().get());
        let start = text_of(range.start.as_slice());
        let finish = text_of(range.finish.as_slice());
        write!(seen, "{time}.{node} {start}..{finish}")?;
    }
    Ok(())
}

impl Subject for Ranges {
    fn step(&mut self, alloc: Global, words: &[&str], seen: &mut String) -> Result<(), Fault> {
        match words {
            ["put", stamp, evt, start, finish] => put(alloc, self, (stamp, evt), (start, finish)),
            ["over", name, at] => {
                let name = Name::from_slice(alloc, name.as_bytes())?;
                add_range(seen, self.newest_over(&name, time(at)))
            }
            ["remove", place] => add_range(seen, self.remove(number(place) as usize).as_ref()),
            _ => Err(Fault::Script),
        }
    }
}
