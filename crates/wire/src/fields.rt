//! The fields of a body, read one after the other. Each function gives the field and the bytes after it.
ghost use Rattle.std.specs.Prelude.{◌≡◌, ◌≤◌, ℕ, List, Result};
ghost use Rattle.logical_time.specs.declared.fault.Fault.{Fault};
ghost use Rattle.wire.specs.Answers.{Gives};
ghost use Rattle.wire.specs.Reading.{number_at, cut_at, sized_at, list_at, count_at, counted_at};

use crate::error::FrameError;
use byteorder::{BigEndian, ByteOrder};
use column_family::{Family, Key, Name, Value};
use logical_time::Fault;
use std::alloc::Global;

/// A number of four bytes, the highest first.
pub fn number32(bytes: &[u8]) -> Result<(u32, &[u8]), FrameError>
    ensures { Gives (λ x. (x.0, x.1.now)) result (number_at 4 bytes.now) }
{
    if bytes.len() < 4 {
        return Err(FrameError::Frame(Fault::Truncated));
    }
    Ok((BigEndian::read_u32(bytes), &bytes[4..]))
}

/// A number of so many bytes, the highest first.
pub fn number(width: usize, bytes: &[u8]) -> Result<(u64, &[u8]), FrameError>
    requires low { 1 ≤ width }
    requires high { width ≤ 8 }
    ensures { Gives (λ x. (x.0, x.1.now)) result (number_at width bytes.now) }
{
    if bytes.len() < width {
        return Err(FrameError::Frame(Fault::Truncated));
    }
    Ok((BigEndian::read_uint(bytes, width), &bytes[width..]))
}

// The first so many bytes.
fn cut(length: u64, bytes: &[u8]) -> Result<(&[u8], &[u8]), FrameError>
    ensures { Gives (λ x. (x.0.now, x.1.now)) result (cut_at length bytes.now) }
{
    if (bytes.len() as u64) < length {
        return Err(FrameError::Frame(Fault::Truncated));
    }
    Ok(bytes.split_at(length as usize))
}

// The bytes behind their number, which takes so many bytes.
#[tactic(auto, unfolding(crate::specs::Reading::sized_at))]
fn sized(width: usize, bytes: &[u8]) -> Result<(&[u8], &[u8]), FrameError>
    requires low { 1 ≤ width }
    requires high { width ≤ 8 }
    ensures { Gives (λ x. (x.0.now, x.1.now)) result (sized_at width bytes.now) }
{
    let (length, rest) = number(width, bytes)?;
    cut(length, rest)
}

/// What is read from a body.
pub trait Field: Drop + Sized {
    ghost read_at: { List ℕ → Result (Self × List ℕ) Fault };

    fn read(alloc: Global, bytes: &[u8]) -> Result<(Self, &[u8]), FrameError>
        ensures { Gives (λ x. (x.0, x.1.now)) result (read_at bytes.now) };
}

impl Field for Family {
    ghost read_at = { sized_at 1 };

    fn read(alloc: Global, bytes: &[u8]) -> Result<(Family, &[u8]), FrameError> {
        let (name, rest) = sized(1, bytes)?;
        Ok((Family::from_slice(alloc, name)?, rest))
    }
}

impl Field for Key {
    ghost read_at = { sized_at 2 };

    fn read(alloc: Global, bytes: &[u8]) -> Result<(Key, &[u8]), FrameError> {
        let (key, rest) = sized(2, bytes)?;
        Ok((Key::from_slice(alloc, key)?, rest))
    }
}

impl Field for Name {
    ghost read_at = { sized_at 2 };

    fn read(alloc: Global, bytes: &[u8]) -> Result<(Name, &[u8]), FrameError> {
        let (name, rest) = sized(2, bytes)?;
        Ok((Name::from_slice(alloc, name)?, rest))
    }
}

impl Field for Value {
    ghost read_at = { sized_at 4 };

    fn read(alloc: Global, bytes: &[u8]) -> Result<(Value, &[u8]), FrameError> {
        let (value, rest) = sized(4, bytes)?;
        Ok((Value::from_slice(alloc, value)?, rest))
    }
}

/// The number of a list's items, of which each takes a byte at least.
pub fn count(bytes: &[u8]) -> Result<(u32, &[u8]), FrameError>
    ensures { Gives (λ x. (x.0, x.1.now)) result (count_at bytes.now) }
{
    let (count, rest) = number32(bytes)?;
    if rest.len() < count as usize {
        return Err(FrameError::Frame(Fault::BadCount));
    }
    Ok((count, rest))
}

// So many items. Memory is taken item by item, as they are read.
fn list<T: Field>(alloc: Global, count: u32, bytes: &[u8]) -> Result<(Vec<T>, &[u8]), FrameError>
    ensures { Gives (λ x. (x.0.items, x.1.now)) result (list_at T.read_at count bytes.now) }
{
    let mut items = Vec::new(alloc);
    let mut rest = bytes;
    for _ in 0..count {
        let (item, after) = T::read(alloc, rest)?;
        items.push(item)?;
        rest = after;
    }
    Ok((items, rest))
}

/// A list behind the number of its items.
#[tactic(auto, unfolding(crate::specs::Reading::counted_at))]
pub fn counted<T: Field>(alloc: Global, bytes: &[u8]) -> Result<(Vec<T>, &[u8]), FrameError>
    ensures { Gives (λ x. (x.0.items, x.1.now)) result (counted_at T.read_at bytes.now) }
{
    let (count, rest) = count(bytes)?;
    list(alloc, count, rest)
}
