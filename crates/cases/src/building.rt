//! Times, rows, batches and reads, from the words of a step. There is one family of columns, `f`; a name has one byte.
use column_family::{Batch, Change, Family, Key, Mutation, Name, Row, Schema, Value};
use logical_time::{Fault, Node, Stamp, Time, TxnId};
use messages::Topology;
use slice::{Keys, Names, Predicate, Read};
use std::alloc::Global;

pub(crate) fn number(word: &str) -> u64 {
    word.parse().unwrap_or(0)
}

pub(crate) fn node(word: &str) -> Node {
    Node::new(word.parse().unwrap_or(0))
}

pub(crate) fn time(word: &str) -> Time {
    Time::new(number(word)).unwrap_or(Time::zero())
}

/// The number of a data centre.
pub(crate) fn centre(word: &str) -> u16 {
    word.parse().unwrap_or(0)
}

/// `TIME.NODE`.
pub(crate) fn stamp(word: &str) -> Stamp {
    let (first, second) = word.split_once('.').unwrap_or((word, ""));
    Stamp::new(time(first), node(second))
}

/// `SESSION.NUMBER`.
pub(crate) fn txn(word: &str) -> TxnId {
    let (first, second) = word.split_once('.').unwrap_or((word, ""));
    TxnId {
        session: node(first),
        number: number(second),
    }
}

/// These data centres and shards, with a session for each of the homes.
pub(crate) fn topology(
    alloc: Global,
    (dcs, shards): (u16, u16),
    homes: &[u16],
) -> Result<Topology, Fault> {
    let mut families = Vec::new(alloc);
    families.push(Family::from_slice(alloc, b"f")?)?;
    let schema = Schema::new(families).ok_or(Fault::UnknownFamily)?;
    let homes = Vec::from_slice(alloc, homes)?;
    Topology::new(dcs, shards, schema, homes)
}

pub(crate) fn row(alloc: Global, key: &str) -> Result<Row, Fault> {
    let family = Family::from_slice(alloc, b"f")?;
    let key = Key::from_slice(alloc, key.as_bytes())?;
    Ok(Row { family, key })
}

/// `x1` gives column x the value 1, `x` alone deletes the column, `x..z` those from x to z, where an end that is left out is
/// open, and an empty text deletes the row.
fn mutation(alloc: Global, text: &str) -> Result<Mutation, Fault> {
    if let Some((start, finish)) = text.split_once("..") {
        return Ok(Mutation::DeleteRange {
            start: Name::from_slice(alloc, start.as_bytes())?,
            finish: Name::from_slice(alloc, finish.as_bytes())?,
        });
    }
    let [first, value @ ..] = text.as_bytes() else {
        return Ok(Mutation::DeleteRow);
    };
    let name = Name::from_slice(alloc, &[*first])?;
    if value.is_empty() {
        return Ok(Mutation::DeleteColumn { name });
    }
    let value = Value::from_slice(alloc, value)?;
    Ok(Mutation::Insert { name, value })
}

/// `KEY:MUTATION`.
fn change(alloc: Global, word: &str) -> Result<Change, Fault> {
    let (key, text) = word.split_once(':').unwrap_or((word, ""));
    let row = row(alloc, key)?;
    let mutation = mutation(alloc, text)?;
    Ok(Change { row, mutation })
}

pub(crate) fn batch(alloc: Global, words: &[&str]) -> Result<Batch, Fault> {
    let mut batch = Batch::new(alloc);
    for word in words {
        batch.push(change(alloc, word)?)?;
    }
    Ok(batch)
}

/// The columns of these names, one byte each.
pub(crate) fn columns_named(alloc: Global, word: &str) -> Result<Predicate, Fault> {
    let mut names = Vec::new(alloc);
    for byte in word.as_bytes() {
        names.push(Name::from_slice(alloc, &[*byte])?)?;
    }
    Ok(Predicate::Names(Names::from_vec(alloc, names)?))
}

/// An end of a range; `-` is open.
pub(crate) fn end(alloc: Global, word: &str) -> Result<Name, Fault> {
    Ok(Name::from_slice(alloc, word.trim_matches('-').as_bytes())?)
}

/// The columns between these ends.
pub(crate) fn range(
    alloc: Global,
    start: &str,
    finish: &str,
    count: &str,
    reversed: bool,
) -> Result<Predicate, Fault> {
    let start = end(alloc, start)?;
    let finish = end(alloc, finish)?;
    Ok(Predicate::Range {
        start,
        finish,
        reversed,
        count: count.parse().unwrap_or(0),
    })
}

/// The rows of these keys, one byte each.
fn keys(alloc: Global, word: &str) -> Result<Keys, Fault> {
    let mut keys = Vec::new(alloc);
    for byte in word.as_bytes() {
        keys.push(Key::from_slice(alloc, &[*byte])?)?;
    }
    Ok(Keys::from_vec(alloc, keys)?)
}

pub(crate) fn read(alloc: Global, rows: &str, predicate: Predicate) -> Result<Read, Fault> {
    let family = Family::from_slice(alloc, b"f")?;
    let keys = keys(alloc, rows)?;
    Ok(Read {
        family,
        keys,
        predicate,
    })
}
