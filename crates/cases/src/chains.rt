//! A chain of versions, put in an order that isn't that of their stamps.
use crate::building::{number, stamp, time, txn};
use crate::steps::{Subject, tell as tell_steps};
use logical_time::{Fault, Shard, Writer};
use std::alloc::Global;
use version_gc::collect;
use versions::{Chain, Version, What};

fn version(first: &str, evt: &str) -> Version {
    let writer = Writer::new(txn(first), Shard::first());
    Version {
        stamp: stamp(first),
        evt: time(evt),
        what: What {
            writer,
            value: None,
        },
    }
}

fn put(chain: &mut Chain, version: Version) -> Result<(), Fault> {
    chain.reserve(1)?;
    match chain.put(version) {
        Ok(()) => Ok(()),
        Err((fault, _)) => Err(fault),
    }
}

fn add_stamp(seen: &mut String, version: Option<&Version>) -> Result<(), Fault> {
    if let Some(version) = version {
        let (time, node) = (version.stamp.time().get(), version.stamp.node().get());
        write!(seen, "{time}.{node}")?;
    }
    Ok(())
}

fn add_interval(seen: &mut String, chain: &Chain, place: usize) -> Result<(), Fault> {
    if let Some((first, last)) = chain.interval(place) {
        let (first, last) = (first.get(), last.get());
        write!(seen, "{first} {last}")?;
    }
    Ok(())
}

fn add_len(seen: &mut String, chain: &Chain) -> Result<(), Fault> {
    let len = chain.len();
    write!(seen, "{len}")?;
    Ok(())
}

impl Subject for Chain {
    fn step(&mut self, _alloc: Global, words: &[&str], seen: &mut String) -> Result<(), Fault> {
        match words {
            ["put", stamp, evt] => put(self, version(stamp, evt)),
            ["newest"] => add_stamp(seen, self.newest()),
            ["at", at] => add_stamp(seen, self.at(time(at))),
            ["interval", place] => add_interval(seen, self, number(place) as usize),
            ["collect", at] => {
                collect(self, time(at));
                Ok(())
            }
            ["len"] => add_len(seen, self),
            ["remove", place] => add_stamp(seen, self.remove(number(place) as usize).as_ref()),
            _ => Err(Fault::Script),
        }
    }
}

/// The files of steps, each of a new chain.
const FILES: [&str; 4] = [
    "worked_chain.steps",
    "worked_collection.steps",
    "collection_keeps_visible.chain",
    "older_stamp_arrives_late.chain",
];

pub(crate) fn tell(rt: &HostRuntime) -> Result<(), Fault> {
    for file in FILES {
        tell_steps(rt, file, &mut Chain::new(rt.alloc()))?;
    }
    Ok(())
}
