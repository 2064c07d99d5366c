//! The log that is written, and what comes back of a file.
use anyhow::{Context, Result};
use disk::{Call, Memory};
use keeper::{Log, RecoveryError, recover};
use records::Record;
use std::alloc::Global;

const SECRET: u64 = 0x5eed;

/// How many records are synced together at first.
pub(crate) const FIRST: usize = 3;

/// The records: as many as those are synced together, and then the rest.
pub(crate) const TEXTS: [&str; 5] = ["one", "two two", "three three three", "four", "five"];

/// What comes back of a file.
#[derive(Clone, Copy, PartialEq, Eq)]
pub(crate) enum Back {
    /// So many of the records, the first of them, and the file is cut behind them.
    Records(usize),
    /// It is damaged, and stays as it was.
    Damaged,
    /// Anything else.
    Other,
}

/// A log over a file in memory that holds nothing, and whose calls are these.
pub(crate) fn new_log(alloc: Global, calls: Vec<Call>) -> Result<Log<Memory>> {
    let disk = Memory::new(alloc, Vec::new(alloc), calls)?;
    Ok(Log::over(alloc, disk, SECRET, 0))
}

/// Notes a text, and gives its mark.
pub(crate) fn note(log: &mut Log<Memory>, text: &str) -> Result<usize> {
    let body = text.as_bytes();
    if body.len() > 1000 {
        return None.context("too long");
    }
    Ok(log.note(body)?)
}

/// Notes these texts and commits them. How long the file is then; none where the commit fails.
pub(crate) fn commit_all(log: &mut Log<Memory>, texts: &[&str]) -> Result<Option<usize>> {
    for text in texts {
        note(log, text)?;
    }
    if log.commit().is_err() {
        return Ok(None);
    }
    Ok(Some(log.disk().bytes().len()))
}

/// A file in which all were committed, and how long it was when the first were.
pub(crate) fn write(alloc: Global) -> Result<(Vec<u8>, usize)> {
    let mut log = new_log(alloc, Vec::new(alloc))?;
    let synced = commit_all(&mut log, &TEXTS[..FIRST])?.context("a commit failed")?;
    commit_all(&mut log, &TEXTS[FIRST..])?.context("a commit failed")?;
    Ok((log.disk().bytes().to_vec(alloc)?, synced))
}

// Whether these are the first of those that were noted.
fn are_first(records: &[Record]) -> bool {
    for (i, record) in records.iter().enumerate() {
        match TEXTS.get(i) {
            Some(text) if text.as_bytes() == record.body.as_slice() => {}
            _ => return false,
        }
    }
    true
}

/// What comes back of a file by a disk with these calls, and what that disk then holds.
pub(crate) fn come_back_by(
    alloc: Global,
    image: &[u8],
    calls: Vec<Call>,
) -> Result<(Back, Vec<u8>)> {
    let mut disk = Memory::new(alloc, image.to_vec(alloc)?, calls)?;
    let bytes = disk.bytes().to_vec(alloc)?;
    let back = match recover(alloc, &mut disk, &bytes, SECRET) {
        Ok((records, end)) if are_first(&records) && disk.bytes().len() == end => {
            Back::Records(records.len())
        }
        Err(RecoveryError::Damaged(_)) if disk.bytes() == image => Back::Damaged,
        _ => Back::Other,
    };
    Ok((back, disk.bytes().to_vec(alloc)?))
}

/// What comes back of a file.
pub(crate) fn come_back(alloc: Global, image: &[u8]) -> Result<Back> {
    let (back, _) = come_back_by(alloc, image, Vec::new(alloc))?;
    Ok(back)
}
