//! Worlds whose log is a file in memory, what they are asked, and what comes back of a file.
use anyhow::{Context, Result};
use column_family::{Family, Schema};
use disk::{Call, Memory};
use durable::{Durable, OpenError, Untold, open};
use logical_time::Fault;
use messages::{Op, Outcome, Topology};
use service::{Host, Housed};
use std::alloc::Global;
use wire::Reader;

const SECRET: u64 = 0x5eed;

/// How many sessions there are.
pub(crate) const SESSIONS: u16 = 16;

/// A batch that inserts a column into a row; which row and which value say one byte each.
const BATCH: &[u8] =
    b"\x00\x00\x00\x13\x01\x00\x00\x00\x01\x01f\x00\x01?\x00\x00\x01x\x00\x00\x00\x01?";

/// A read of that column.
const QUERY: &[u8] =
    b"\x00\x00\x00\x12\x02\x01f\x00\x00\x00\x01\x00\x01?\x00\x00\x00\x00\x01\x00\x01x";

/// The place of a row's byte, in either.
const ROW: usize = 13;

// The row of the request of this number.
fn row_of(number: u8) -> u8 {
    b'a'.wrapping_add(number)
}

/// Two data centres of two shards, and sessions that are all at home in the first.
pub(crate) fn topology(alloc: Global) -> Result<Topology> {
    let mut families = Vec::new(alloc);
    families.push(Family::from_slice(alloc, b"f")?)?;
    let schema = Schema::new(families).context("no schema")?;
    let mut homes = Vec::new(alloc);
    for _ in 0..SESSIONS {
        homes.push(0)?;
    }
    Ok(Topology::new(2, 2, schema, homes)?)
}

/// The frame of the insertion of this number into a row of its own.
pub(crate) fn insertion(alloc: Global, number: u8) -> Result<Vec<u8>> {
    let mut frame = BATCH.to_vec(alloc)?;
    *frame.get_mut(ROW).context("no row")? = row_of(number);
    *frame.last_mut().context("no value")? = number;
    Ok(frame)
}

// The frame of a read of what the insertion of this number wrote.
fn question(alloc: Global, number: u8) -> Result<Vec<u8>> {
    let mut frame = QUERY.to_vec(alloc)?;
    *frame.get_mut(ROW).context("no row")? = row_of(number);
    Ok(frame)
}

// What a frame asks.
fn op_of(alloc: Global, frame: &[u8]) -> Result<Op> {
    let mut reader = Reader::new(alloc);
    reader.feed(frame)?;
    reader.next().context("no frame")
}

/// The world that comes back of a file by a disk with these calls.
pub(crate) fn come_back(
    alloc: Global,
    file: &[u8],
    calls: Vec<Call>,
) -> Result<Result<Durable<Memory>, OpenError>> {
    let disk = Memory::new(alloc, file.to_vec(alloc)?, calls)?;
    match open(alloc, &topology(alloc)?, disk, SECRET, file, &mut Untold) {
        Ok(world) => Ok(Ok(world)),
        Err((error, _disk)) => Ok(Err(error)),
    }
}

// What a session's request comes to; none where it is refused.
fn ask(world: &mut Durable<Memory>, session: u16, op: Op) -> Option<Outcome> {
    if usize::from(session) >= world.topology().homes().len() {
        return None;
    }
    world.ask(session, op).ok()
}

// When it was committed, if it is that.
fn commit_of(outcome: &Outcome) -> Option<u64> {
    match outcome {
        Outcome::Wrote { commit, stamp: _ } => Some(commit.get()),
        _ => None,
    }
}

// Whether it shows a column with this value.
fn shows(outcome: &Outcome, value: u8) -> bool {
    let Outcome::Read {
        effective: _,
        answer,
    } = outcome
    else {
        return false;
    };
    answer.as_slice().iter().any(|row| {
        row.columns
            .as_slice()
            .iter()
            .any(|column| column.value.as_slice() == [value].as_slice())
    })
}

/// The first session asks the insertion of this number. Gives its commit time; none where it is refused.
pub(crate) fn insert(
    alloc: Global,
    world: &mut Durable<Memory>,
    number: u8,
) -> Result<Option<u64>> {
    let op = op_of(alloc, &insertion(alloc, number)?)?;
    let outcome = ask(world, 0, op);
    Ok(outcome.as_ref().and_then(commit_of))
}

/// Whether the last session reads what the insertion of this number wrote.
pub(crate) fn is_read(alloc: Global, world: &mut Durable<Memory>, number: u8) -> Result<bool> {
    let op = op_of(alloc, &question(alloc, number)?)?;
    let outcome = ask(world, SESSIONS - 1, op);
    Ok(outcome.is_some_and(|outcome| shows(&outcome, number)))
}

/// The shards collect where they may, and what was asked is settled.
pub(crate) fn settle(world: &mut Durable<Memory>) -> Result<(), Fault> {
    if world.is_quiet() {
        world.rest();
    }
    world.settle()
}
