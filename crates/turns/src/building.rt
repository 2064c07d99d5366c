//! Topologies, insertions and times, from the words of a step. There is one family of columns, `f`; a name has one byte.
use column_family::{Batch, Change, Family, Key, Mutation, Name, Row, Schema, Value};
use logical_time::{Fault, Time};
use messages::{Op, Topology};
use std::alloc::Global;

/// A number; 0 for what is none.
pub(crate) fn number(word: &str) -> usize {
    word.parse().unwrap_or(0)
}

/// A small number; 0 for what is none.
pub(crate) fn small(word: &str) -> u16 {
    word.parse().unwrap_or(0)
}

pub(crate) fn time(word: &str) -> Time {
    Time::new(word.parse().unwrap_or(0)).unwrap_or(Time::zero())
}

/// These data centres and shards, with a session for each of the homes.
pub(crate) fn topology(
    alloc: Global,
    (dcs, shards): (u16, u16),
    homes: &[u16],
) -> Result<Topology, Fault> {
    let mut families = Vec::new(alloc);
    families.push(Family::from_slice(alloc, b"f")?)?;
    let schema = Schema::new(families).ok_or(Fault::UnknownFamily)?;
    let homes = Vec::from_slice(alloc, homes)?;
    Topology::new(dcs, shards, schema, homes)
}

/// `DCS`, `SHARDS` and the homes, as `0,0,1`.
pub(crate) fn topology_of(
    alloc: Global,
    dcs: &str,
    shards: &str,
    homes: &str,
) -> Result<Topology, Fault> {
    let mut list = Vec::new(alloc);
    for home in homes.split(',') {
        list.push(small(home))?;
    }
    topology(alloc, (small(dcs), small(shards)), list.as_slice())
}

/// `KEY:NAMEVALUE`, as `b:x1`.
fn insertion(alloc: Global, word: &str) -> Result<Change, Fault> {
    let (key, text) = word.split_once(':').ok_or(Fault::Script)?;
    let [first, value @ ..] = text.as_bytes() else {
        return Err(Fault::Script);
    };
    let family = Family::from_slice(alloc, b"f")?;
    let key = Key::from_slice(alloc, key.as_bytes())?;
    let name = Name::from_slice(alloc, &[*first])?;
    let value = Value::from_slice(alloc, value)?;
    Ok(Change {
        row: Row { family, key },
        mutation: Mutation::Insert { name, value },
    })
}

/// A batch of these insertions.
pub(crate) fn batch(alloc: Global, words: &[&str]) -> Result<Op, Fault> {
    let mut batch = Batch::new(alloc);
    for word in words {
        batch.push(insertion(alloc, word)?)?;
    }
    Ok(Op::write(alloc, batch)?)
}
