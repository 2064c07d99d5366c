//! A topology, and what is asked. There is one family, `f`, and each row has one column, `c`.
use column_family::{Batch, Change, Family, Key, Mutation, Name, Row, Schema, Value};
use logical_time::Fault;
use messages::{Op, Outcome, Topology};
use slice::{Keys, Names, Predicate, Read};
use std::alloc::Global;
use std::str;

/// Three data centres of two shards, with one session at home in each.
pub(crate) fn topology(alloc: Global) -> Result<Topology, Fault> {
    let mut families = Vec::new(alloc);
    families.push(Family::from_slice(alloc, b"f")?)?;
    let schema = Schema::new(families).ok_or(Fault::UnknownFamily)?;
    Topology::of_server(3, 2, schema, Vec::from_slice(alloc, &[0, 1, 2])?)
}

/// A write of this value to each of these rows.
pub(crate) fn write(alloc: Global, keys: &[&str], value: &str) -> Result<Op, Fault> {
    let mut batch = Batch::new(alloc);
    for key in keys {
        batch.push(Change {
            row: Row {
                family: Family::from_slice(alloc, b"f")?,
                key: Key::from_slice(alloc, key.as_bytes())?,
            },
            mutation: Mutation::Insert {
                name: Name::from_slice(alloc, b"c")?,
                value: Value::from_slice(alloc, value.as_bytes())?,
            },
        })?;
    }
    Ok(Op::write(alloc, batch)?)
}

/// A read of these rows.
pub(crate) fn read(alloc: Global, keys: &[&str]) -> Result<Op, Fault> {
    let mut listed = Vec::new(alloc);
    for key in keys {
        listed.push(Key::from_slice(alloc, key.as_bytes())?)?;
    }
    let mut names = Vec::new(alloc);
    names.push(Name::from_slice(alloc, b"c")?)?;
    Ok(Op::read(
        alloc,
        Read {
            family: Family::from_slice(alloc, b"f")?,
            keys: Keys::from_vec(alloc, listed)?,
            predicate: Predicate::Names(Names::from_vec(alloc, names)?),
        },
    )?)
}

/// What an operation came to, in words: of a read the value of each row, and `-` where it has none.
pub(crate) fn words(alloc: Global, outcome: &Outcome) -> Result<String, Fault> {
    let answer = match outcome {
        Outcome::Read { answer, .. } => answer,
        Outcome::Moved { dc, .. } => return Ok(format!(in alloc; " moved to {dc}")?),
        Outcome::Wrote { .. } | Outcome::Collected => {
            return Ok(String::from_str(alloc, " written")?);
        }
    };
    let mut text = String::new(alloc);
    for row in answer.as_slice() {
        let value = match row.columns.as_slice().first() {
            Some(column) => str::from_utf8(column.value.as_slice()).unwrap_or("?"),
            None => "-",
        };
        text = format!(in alloc; "{text} {value}")?;
    }
    Ok(text)
}
