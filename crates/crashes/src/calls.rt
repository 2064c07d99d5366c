//! Calls of the disk that fail: a log's, and those of recovery.
use crate::count::Count;
use crate::written::{FIRST, TEXTS, come_back, come_back_by, commit_all, new_log, note};
use anyhow::{Context, Result};
use disk::{Call, Memory};
use keeper::Log;
use std::alloc::Global;

/// Calls of which this one fails.
pub(crate) fn failing_at(alloc: Global, at: usize) -> Result<Vec<Call>> {
    let mut calls = Vec::new(alloc);
    for i in 0..6usize {
        calls.push(if i == at { Call::Fails } else { Call::Works })?;
    }
    Ok(calls)
}

// Commits all, in two groups. How many records were acknowledged, and how long the file was at the last commit.
fn acknowledge(log: &mut Log<Memory>) -> Result<(usize, usize)> {
    let Some(synced) = commit_all(log, &TEXTS[..FIRST])? else {
        return Ok((0, 0));
    };
    match commit_all(log, &TEXTS[FIRST..])? {
        None => Ok((FIRST, synced)),
        Some(end) => Ok((TEXTS.len(), end)),
    }
}

// A log one of whose disk's calls fails, a crash after it, and what comes back.
fn tell_failing(rt: &HostRuntime, at: usize) -> Result<()> {
    let mut log = new_log(rt.alloc(), failing_at(rt.alloc(), at)?)?;
    let (acknowledged, synced) = acknowledge(&mut log)?;
    let word = match log.commit() {
        Ok(()) => "works",
        Err(_) => "fails",
    };
    let file = log.disk().bytes();
    let mut count = Count::new();
    for kept in synced..file.len() + 1 {
        count.add(come_back(rt.alloc(), &file[..kept])?);
    }
    print!(rt; "call {at} fails, {acknowledged} acknowledged, the next commit {word}; ")?;
    count.tell(rt, "left")
}

// Counts what comes back of each file that a recovery may leave that crashes at one of its calls.
fn crash_at(alloc: Global, image: &[u8], at: usize, count: &mut Count) -> Result<()> {
    let (_, left) = come_back_by(alloc, image, failing_at(alloc, at)?)?;
    for kept in left.len()..image.len() + 1 {
        count.add(come_back(alloc, &image[..kept])?);
    }
    Ok(())
}

// Notes a text, and before it others that are taken back.
fn note_alone(log: &mut Log<Memory>, text: &str) -> Result<()> {
    let mark = note(log, "refused")?;
    note(log, "refused too")?;
    log.take_back(mark);
    note(log, text)?;
    Ok(())
}

// A log in which records were taken back before each that stays.
fn taken_back(alloc: Global) -> Result<Vec<u8>> {
    let mut log = new_log(alloc, Vec::new(alloc))?;
    for (i, text) in TEXTS.iter().enumerate() {
        note_alone(&mut log, text)?;
        if i + 1 == FIRST || i + 1 == TEXTS.len() {
            log.commit().ok().context("a commit failed")?;
        }
    }
    Ok(log.disk().bytes().to_vec(alloc)?)
}

pub(crate) fn tell(rt: &HostRuntime, file: &[u8], synced: usize) -> Result<()> {
    for at in 0..5 {
        tell_failing(rt, at)?;
    }
    let mut count = Count::new();
    for kept in synced..file.len() + 1 {
        crash_at(rt.alloc(), &file[..kept], 0, &mut count)?;
        crash_at(rt.alloc(), &file[..kept], 1, &mut count)?;
    }
    count.tell(rt, "recovery crashes")?;
    let word = match taken_back(rt.alloc())?.as_slice() == file {
        true => "the same file",
        false => "ANOTHER FILE",
    };
    Ok(println!(rt; "taken back before each: {word}")?)
}
