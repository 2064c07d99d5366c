//! Times, batches and reads, from the words of a step. There is one family of columns, `f`; a name has one byte.
use column_family::{Batch, Change, Family, Key, Mutation, Name, Row, Schema, Value};
use logical_time::{Fault, Node, Time};
use messages::{Op, Topology};
use slice::{Keys, Names, Predicate, Read};
use std::alloc::Global;

pub(crate) fn number(word: &str) -> u64 {
    word.parse().unwrap_or(0)
}

pub(crate) fn node(word: &str) -> Node {
    Node::new(word.parse().unwrap_or(0))
}

pub(crate) fn time(word: &str) -> Time {
    Time::new(number(word)).unwrap_or(Time::zero())
}

/// The number of a data centre.
pub(crate) fn centre(word: &str) -> u16 {
    word.parse().unwrap_or(0)
}

/// The first word, and those after it.
pub(crate) fn first_word(words: &str) -> (&str, &str) {
    words.split_once(' ').unwrap_or((words, ""))
}

/// These data centres and shards, with a session for each of the homes.
pub(crate) fn topology(
    alloc: Global,
    (dcs, shards): (u16, u16),
    homes: &[u16],
) -> Result<Topology, Fault> {
    let mut families = Vec::new(alloc);
    families.push(Family::from_slice(alloc, b"f")?)?;
    let schema = Schema::new(families).ok_or(Fault::UnknownFamily)?;
    let homes = Vec::from_slice(alloc, homes)?;
    Topology::new(dcs, shards, schema, homes)
}

/// `x1` gives column x the value 1, and `x..z` deletes the columns from x to z, where an end that is left out is open.
fn mutation(alloc: Global, text: &str) -> Result<Mutation, Fault> {
    if let Some((start, finish)) = text.split_once("..") {
        return Ok(Mutation::DeleteRange {
            start: Name::from_slice(alloc, start.as_bytes())?,
            finish: Name::from_slice(alloc, finish.as_bytes())?,
        });
    }
    let [first, value @ ..] = text.as_bytes() else {
        return Err(Fault::Script);
    };
    let name = Name::from_slice(alloc, &[*first])?;
    let value = Value::from_slice(alloc, value)?;
    Ok(Mutation::Insert { name, value })
}

/// `KEY:MUTATION`, as `b:x1`.
fn change(alloc: Global, word: &str) -> Result<Change, Fault> {
    let (key, text) = word.split_once(':').ok_or(Fault::Script)?;
    let family = Family::from_slice(alloc, b"f")?;
    let key = Key::from_slice(alloc, key.as_bytes())?;
    let mutation = mutation(alloc, text)?;
    Ok(Change {
        row: Row { family, key },
        mutation,
    })
}

/// A batch of these changes.
pub(crate) fn batch(alloc: Global, words: &str) -> Result<Op, Fault> {
    let mut batch = Batch::new(alloc);
    for word in words.split(' ') {
        batch.push(change(alloc, word)?)?;
    }
    Ok(Op::write(alloc, batch)?)
}

/// The columns of these names, a byte for each.
pub(crate) fn columns_named(alloc: Global, word: &str) -> Result<Predicate, Fault> {
    let mut names = Vec::new(alloc);
    for byte in word.as_bytes() {
        names.push(Name::from_slice(alloc, &[*byte])?)?;
    }
    Ok(Predicate::Names(Names::from_vec(alloc, names)?))
}

/// An end of a range; `-` is open.
fn end(alloc: Global, word: &str) -> Result<Name, Fault> {
    Ok(Name::from_slice(alloc, word.trim_matches('-').as_bytes())?)
}

/// `START FINISH COUNT`: so many of the columns between these ends, at most.
fn columns_between(alloc: Global, words: &str) -> Result<Predicate, Fault> {
    let (start, more) = first_word(words);
    let (finish, count) = first_word(more);
    let start = end(alloc, start)?;
    let finish = end(alloc, finish)?;
    Ok(Predicate::Range {
        start,
        finish,
        reversed: false,
        count: count.parse().unwrap_or(0),
    })
}

/// A read of these columns of these rows, a byte for the key of each.
pub(crate) fn read(alloc: Global, rows: &str, predicate: Predicate) -> Result<Read, Fault> {
    let family = Family::from_slice(alloc, b"f")?;
    let mut keys = Vec::new(alloc);
    for byte in rows.as_bytes() {
        keys.push(Key::from_slice(alloc, &[*byte])?)?;
    }
    Ok(Read {
        family,
        keys: Keys::from_vec(alloc, keys)?,
        predicate,
    })
}

/// `ROWS NAMES`: the operation that reads the columns of these names.
pub(crate) fn reading(alloc: Global, words: &str) -> Result<Op, Fault> {
    let (rows, names) = first_word(words);
    let predicate = columns_named(alloc, names)?;
    Ok(Op::read(alloc, read(alloc, rows, predicate)?)?)
}

/// `ROWS START FINISH COUNT`: the operation that walks over the columns between these ends.
pub(crate) fn walking(alloc: Global, words: &str) -> Result<Op, Fault> {
    let (rows, ends) = first_word(words);
    let predicate = columns_between(alloc, ends)?;
    Ok(Op::read(alloc, read(alloc, rows, predicate)?)?)
}
