//! A session served over a line in memory, in small steps, and with each call of the line failing in turn.
use super::showing::{bytes_of, digits, word_of};
use super::worlds::{REQUESTS, world};
use crate::showing::print;
use front::{Ended, Failing, MemoryLine};
use logical_time::{Fault, Node};
use service::serve_session;
use std::alloc::Global;
use std::fs;
use world::World;

/// How many bytes the first request has, and both.
const REQUEST_ENDS: (usize, usize) = (23, 45);
/// How many bytes the first reply has, and both.
const REPLY_ENDS: (usize, usize) = (23, 55);

/// How serving a line ended, and what was written.
#[derive(Drop)]
pub(crate) struct Served {
    pub(crate) ended: Ended,
    pub(crate) said: Vec<u8>,
}

fn serve_in(
    alloc: Global,
    world: &mut World,
    input: Vec<u8>,
    step: usize,
    failing: Failing,
) -> Result<Served, Fault> {
    let session = Node::new(2);
    if world.topology().session_of(session).is_none() {
        return Err(Fault::Script);
    }
    let mut line = MemoryLine::new(alloc, input, step.max(1), failing);
    let ended = serve_session(alloc, world, session, &mut line);
    let said = Vec::from_slice(alloc, line.said())?;
    Ok(Served { ended, said })
}

/// Serves this input, in steps of so many bytes, by the session of a new world.
pub(crate) fn serve(
    alloc: Global,
    input: Vec<u8>,
    step: usize,
    failing: Failing,
) -> Result<Served, Fault> {
    let mut world = world(alloc, 1)?;
    let served = serve_in(alloc, &mut world, input, step, failing);
    world.close();
    served
}

fn serve_requests(alloc: Global, step: usize, failing: Failing) -> Result<Served, Fault> {
    serve(alloc, bytes_of(alloc, REQUESTS)?, step, failing)
}

/// The replies to the requests that are whole in so many bytes.
fn replies_to(read: usize, replies: &[u8]) -> &[u8] {
    let whole = if read >= REQUEST_ENDS.1 {
        REPLY_ENDS.1
    } else if read >= REQUEST_ENDS.0 {
        REPLY_ENDS.0
    } else {
        0
    };
    &replies[..whole.min(replies.len())]
}

/// Whether a line that failed to read after so many bytes was answered exactly what was whole.
fn is_cut_read(read: usize, served: &Served, replies: &[u8]) -> bool {
    served.ended == Ended::ReadFailed && served.said.as_slice() == replies_to(read, replies)
}

/// Whether a line whose write failed has a beginning of the replies, and not all of them.
fn is_cut_write(served: &Served, replies: &[u8]) -> bool {
    let said = served.said.as_slice();
    served.ended == Ended::WriteFailed && said.len() < replies.len() && replies.starts_with(said)
}

/// How many reads there are, each of which fails once, and how many of those ended as they should.
fn failing_reads(alloc: Global, step: usize, replies: &[u8]) -> Result<(u64, u64), Fault> {
    let mut right = 0u64;
    for number in 1..100u64 {
        let served = serve_requests(alloc, step, Failing::Read(number))?;
        if served.ended == Ended::Clean {
            return Ok((number.saturating_sub(1), right));
        }
        let read = step.saturating_mul(number.saturating_sub(1) as usize);
        right = right.saturating_add(u64::from(is_cut_read(read, &served, replies)));
    }
    Ok((0, right))
}

/// How many writes there are, each of which fails once, and how many of those ended as they should.
fn failing_writes(alloc: Global, step: usize, replies: &[u8]) -> Result<(u64, u64), Fault> {
    let mut right = 0u64;
    for number in 1..100u64 {
        let served = serve_requests(alloc, step, Failing::Write(number))?;
        if served.ended == Ended::Clean {
            return Ok((number.saturating_sub(1), right));
        }
        right = right.saturating_add(u64::from(is_cut_write(&served, replies)));
    }
    Ok((0, right))
}

fn tell_step(rt: &HostRuntime, step: usize) -> Result<(), Fault> {
    let alloc = rt.alloc();
    let served = serve_requests(alloc, step, Failing::Never)?;
    let (reads, right_reads) = failing_reads(alloc, step, &served.said)?;
    let (writes, right_writes) = failing_writes(alloc, step, &served.said)?;
    let (word, said) = (word_of(served.ended), digits(alloc, &served.said)?);
    let line = format!(in alloc;
        "steps of {step}: {word}, answered {said}, {right_reads} of {reads} failing reads right, {right_writes} of {writes} failing writes right"
    )?;
    print(rt, line.as_str())
}

/// Tells how a line is served whose calls give and take so many bytes, for each number of the file.
pub(crate) fn tell(rt: &HostRuntime) -> Result<(), Fault> {
    let Ok(text) = fs::read_to_string(rt, "lines.txt") else {
        return Err(Fault::ReadFailed);
    };
    for line in text.lines() {
        tell_step(rt, line.parse().unwrap_or(1))?;
    }
    Ok(())
}
