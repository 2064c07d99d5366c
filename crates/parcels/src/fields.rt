//! The fields of messages, read one after the other.
ghost use Rattle.std.specs.Prelude.{◌≡◌};
ghost use Rattle.wire.specs.Answers.{Gives};
ghost use Rattle.wire.specs.Reading.{number_at, change_at};
ghost use Rattle.parcels.specs.Reading.{time_at, shard_at, txn_at, stamp_at, writer_at, cohorts_at, asked_at, column_at, row_now_at, row_at_at, rows_at_at, at_time_at};

use crate::lists::{Part, all};
use byteorder::{BigEndian, ByteOrder};
use column_family::{Change, Family, Key, Name, Value};
use logical_time::{Fault, Node, Shard, Stamp, Time, TxnId, Writer, Writers};
use messages::{AtTime, Cohorts, RowAt, RowNow, RowsAt};
use slice::{Column, Columns, Keys, Read};
use std::alloc::Global;
use wire::error::FrameError;
use wire::fields::{Field, counted, number};
use wire::reading::predicate;

/// A node.
pub(crate) fn node(rest: &mut &[u8]) -> Result<Node, FrameError>
    ensures { Gives (λ x. (x, rest.new.now)) result (number_at 2 rest.old.now) }
{
    let bytes = *rest;
    if bytes.len() < 2 {
        return Err(FrameError::Frame(Fault::Truncated));
    }
    *rest = &bytes[2..];
    Ok(Node::new(BigEndian::read_u16(bytes)))
}

/// A time.
#[tactic(auto, unfolding(crate::specs::Reading::time_at))]
pub(crate) fn time(rest: &mut &[u8]) -> Result<Time, FrameError>
    ensures { Gives (λ x. (x, rest.new.now)) result (time_at rest.old.now) }
{
    let (time, after) = number(8, *rest)?;
    *rest = after;
    match Time::new(time) {
        Some(time) => Ok(time),
        None => Err(FrameError::Frame(Fault::UnknownTag)),
    }
}

/// A shard.
#[tactic(auto, unfolding(crate::specs::Reading::shard_at))]
pub(crate) fn shard(rest: &mut &[u8]) -> Result<Shard, FrameError>
    ensures { Gives (λ x. (x, rest.new.now)) result (shard_at rest.old.now) }
{
    match *rest {
        [] => Err(FrameError::Frame(Fault::Truncated)),
        [shard, after @ ..] => {
            *rest = after;
            match Shard::new(u16::from(*shard)) {
                Some(shard) => Ok(shard),
                None => Err(FrameError::Frame(Fault::UnknownTag)),
            }
        }
    }
}

/// A transaction.
#[tactic(auto, unfolding(crate::specs::Reading::txn_at))]
pub(crate) fn txn(rest: &mut &[u8]) -> Result<TxnId, FrameError>
    ensures { Gives (λ x. (x, rest.new.now)) result (txn_at rest.old.now) }
{
    let session = node(rest)?;
    let (number, after) = number(8, *rest)?;
    *rest = after;
    Ok(TxnId { session, number })
}

/// A stamp.
#[tactic(auto, unfolding(crate::specs::Reading::stamp_at))]
pub(crate) fn stamp(rest: &mut &[u8]) -> Result<Stamp, FrameError>
    ensures { Gives (λ x. (x, rest.new.now)) result (stamp_at rest.old.now) }
{
    let time = time(rest)?;
    let node = node(rest)?;
    Ok(Stamp::new(time, node))
}

impl Part for Writer {
    ghost read_at = { writer_at };

    #[tactic(auto, unfolding(crate::specs::Reading::writer_at))]
    fn read(alloc: Global, bytes: &[u8]) -> Result<(Writer, &[u8]), FrameError> {
        let mut rest = bytes;
        let txn = txn(&mut rest)?;
        let shard = shard(&mut rest)?;
        Ok((Writer::new(txn, shard), rest))
    }
}

/// The cohorts of a transaction.
#[tactic(auto, unfolding(crate::specs::Reading::cohorts_at))]
pub(crate) fn cohorts(rest: &mut &[u8]) -> Result<Cohorts, FrameError>
    ensures { Gives (λ x. (x, rest.new.now)) result (cohorts_at rest.old.now) }
{
    match *rest {
        [] => Err(FrameError::Frame(Fault::Truncated)),
        [bits, after @ ..] => {
            *rest = after;
            Ok(Cohorts::from_bits(*bits))
        }
    }
}

/// What is asked of a shard.
#[tactic(auto, unfolding(crate::specs::Reading::asked_at))]
pub(crate) fn asked(alloc: Global, bytes: &[u8]) -> Result<(Read, &[u8]), FrameError>
    ensures { Gives (λ x. (x.0, x.1.now)) result (asked_at bytes.now) }
{
    let (family, rest) = Family::read(alloc, bytes)?;
    let (keys, rest) = counted(alloc, rest)?;
    let (predicate, rest) = predicate(alloc, rest)?;
    let keys = Keys::from_vec(alloc, keys)?;
    Ok((
        Read {
            family,
            keys,
            predicate,
        },
        rest,
    ))
}

impl Part for Change {
    ghost read_at = { change_at };

    fn read(alloc: Global, bytes: &[u8]) -> Result<(Change, &[u8]), FrameError> {
        <Change as Field>::read(alloc, bytes)
    }
}

impl Part for Column {
    ghost read_at = { column_at };

    #[tactic(auto, unfolding(crate::specs::Reading::column_at))]
    fn read(alloc: Global, bytes: &[u8]) -> Result<(Column, &[u8]), FrameError> {
        let (name, rest) = Name::read(alloc, bytes)?;
        let (value, rest) = Value::read(alloc, rest)?;
        Ok((Column { name, value }, rest))
    }
}

impl Part for RowNow {
    ghost read_at = { row_now_at };

    #[tactic(auto, unfolding(crate::specs::Reading::row_now_at))]
    fn read(alloc: Global, bytes: &[u8]) -> Result<(RowNow, &[u8]), FrameError> {
        let (key, rest) = Key::read(alloc, bytes)?;
        let (columns, rest) = all(alloc, rest)?;
        let (writers, rest) = all(alloc, rest)?;
        let mut rest = rest;
        let evt = time(&mut rest)?;
        let lvt = time(&mut rest)?;
        let columns = Columns::from_vec(alloc, columns)?;
        let writers = Writers::from_vec(writers);
        Ok((
            RowNow {
                key,
                columns,
                writers,
                evt,
                lvt,
            },
            rest,
        ))
    }
}

impl Part for RowAt {
    ghost read_at = { row_at_at };

    #[tactic(auto, unfolding(crate::specs::Reading::row_at_at))]
    fn read(alloc: Global, bytes: &[u8]) -> Result<(RowAt, &[u8]), FrameError> {
        let (key, rest) = Key::read(alloc, bytes)?;
        let (columns, rest) = all(alloc, rest)?;
        let (writers, rest) = all(alloc, rest)?;
        let columns = Columns::from_vec(alloc, columns)?;
        let writers = Writers::from_vec(writers);
        Ok((
            RowAt {
                key,
                columns,
                writers,
            },
            rest,
        ))
    }
}

// The rows at a time.
#[tactic(auto, unfolding(crate::specs::Reading::rows_at_at))]
fn rows_at(alloc: Global, bytes: &[u8]) -> Result<(AtTime, &[u8]), FrameError>
    ensures { Gives (λ x. (x.0, x.1.now)) result (rows_at_at bytes.now) }
{
    let (rows, rest) = all(alloc, bytes)?;
    let rows = RowsAt::from_vec(alloc, rows)?;
    Ok((AtTime::Rows(rows), rest))
}

/// What a shard answers in a second round.
#[tactic(auto, unfolding(crate::specs::Reading::at_time_at))]
pub(crate) fn at_time(alloc: Global, bytes: &[u8]) -> Result<(AtTime, &[u8]), FrameError>
    ensures { Gives (λ x. (x.0, x.1.now)) result (at_time_at bytes.now) }
{
    match bytes {
        [] => Err(FrameError::Frame(Fault::Truncated)),
        [0, rest @ ..] => Ok((AtTime::Collected, rest)),
        [1, rest @ ..] => rows_at(alloc, rest),
        _ => Err(FrameError::Frame(Fault::UnknownTag)),
    }
}
