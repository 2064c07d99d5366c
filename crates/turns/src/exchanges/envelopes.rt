//! Worked parcels and hostile ones: each read, written again, and cut at every place; and keys at the greatest length.
use super::showing::{bytes_of, number_of};
use crate::showing::print;
use column_family::Key;
use logical_time::{Fault, Node, Time, Writers};
use messages::{Body, Envelope, RowNow, RowsNow};
use parcels::{read_parcel, write_parcel};
use slice::Columns;
use std::alloc::Global;
use std::fs;

/// What reading gives of the beginnings of a parcel.
#[derive(Drop)]
struct Cuts {
    /// How many are refused with another fault than that they end too early.
    otherwise: usize,
    /// How many are read.
    read: usize,
}

/// Why bytes aren't read.
fn fault_of(alloc: Global, bytes: &[u8]) -> Result<Option<Fault>, Fault> {
    match read_parcel(alloc, bytes) {
        Ok(_) => Ok(None),
        Err(Fault::Memory) => Err(Fault::Memory),
        Err(fault) => Ok(Some(fault)),
    }
}

/// What is read of the bytes, and whether they are written again.
fn said_of(alloc: Global, bytes: &[u8]) -> Result<String, Fault> {
    let fault = match read_parcel(alloc, bytes) {
        Ok(envelope) => {
            let again = write_parcel(alloc, &envelope)?;
            let is_same = again.as_slice() == bytes;
            let same = if is_same { "the same" } else { "other" };
            return Ok(format!(in alloc; "read, {same} again")?);
        }
        Err(fault) => fault,
    };
    let number = number_of(Some(fault));
    Ok(format!(in alloc; "refused {number}")?)
}

/// What reading gives of each beginning that is shorter than the whole.
fn cuts_of(alloc: Global, bytes: &[u8]) -> Result<Cuts, Fault> {
    let mut cuts = Cuts {
        otherwise: 0,
        read: 0,
    };
    for at in 0..bytes.len() {
        let (first, _rest) = bytes.split_at(at);
        match fault_of(alloc, first)? {
            None => cuts.read = cuts.read.saturating_add(1),
            Some(Fault::Truncated) => (),
            Some(_) => cuts.otherwise = cuts.otherwise.saturating_add(1),
        }
    }
    Ok(cuts)
}

fn tell_parcel(rt: &HostRuntime, name: &str, bytes: &[u8]) -> Result<(), Fault> {
    let alloc = rt.alloc();
    let said = said_of(alloc, bytes)?;
    let Cuts { otherwise, read } = cuts_of(alloc, bytes)?;
    let cuts = bytes.len();
    let line = format!(in alloc;
        "{name}: {said}, {otherwise} of {cuts} cuts with another fault than 34, {read} read"
    )?;
    print(rt, line.as_str())
}

/// An envelope with a key of so many bytes.
fn envelope_of(alloc: Global, length: usize) -> Result<Envelope, Fault> {
    let mut key = Vec::new(alloc);
    for _ in 0..length {
        key.push(b'k')?;
    }
    let mut rows = Vec::new(alloc);
    rows.push(RowNow {
        key: Key::from_slice(alloc, &key)?,
        columns: Columns::none(),
        writers: Writers::from_vec(Vec::new(alloc)),
        evt: Time::zero(),
        lvt: Time::zero(),
    })?;
    Ok(Envelope {
        from: Node::new(0),
        to: Node::new(4),
        time: Time::zero(),
        body: Body::PartNow {
            number: 1,
            rows: RowsNow::from_vec(alloc, rows)?,
        },
    })
}

/// Tells how long an envelope is with such a key, or why it isn't written.
fn tell_key(rt: &HostRuntime, length: usize) -> Result<(), Fault> {
    let alloc = rt.alloc();
    let envelope = envelope_of(alloc, length)?;
    let line = match write_parcel(alloc, &envelope) {
        Ok(bytes) => {
            let bytes = bytes.len();
            format!(in alloc; "key_of_{length}: {bytes} bytes")?
        }
        Err(fault) => {
            let number = number_of(Some(fault));
            format!(in alloc; "key_of_{length}: refused {number}")?
        }
    };
    print(rt, line.as_str())
}

/// Tells what is read of each parcel of the file, a name and its bytes.
pub(crate) fn tell(rt: &HostRuntime) -> Result<(), Fault> {
    let Ok(text) = fs::read_to_string(rt, "parcels.txt") else {
        return Err(Fault::ReadFailed);
    };
    for line in text.lines() {
        let (name, bytes) = line.split_once(' ').ok_or(Fault::Script)?;
        let bytes = bytes_of(rt.alloc(), bytes)?;
        tell_parcel(rt, name, &bytes)?;
    }
    tell_key(rt, 65_535)?;
    tell_key(rt, 65_536)
}
