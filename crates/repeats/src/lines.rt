//! A session that is served over a line in memory: what it answers where memory is refused once, and where it isn't.
use crate::building::topology;
use crate::showing::{note, print};
use front::{Ended, Failing, MemoryLine};
use logical_time::{Fault, Node};
use service::serve_session;
use std::alloc::Global;
use world::World;

/// A batch that inserts column x with value 1 into row b.
pub(crate) const BATCH: &[u8] =
    b"\x00\x00\x00\x13\x01\x00\x00\x00\x01\x01f\x00\x01b\x00\x00\x01x\x00\x00\x00\x011";

/// A read of that column.
pub(crate) const QUERY: &[u8] =
    b"\x00\x00\x00\x12\x02\x01f\x00\x00\x00\x01\x00\x01b\x00\x00\x00\x00\x01\x00\x01x";

/// The reply to the batch: commit 2, stamp 2.0.
pub(crate) const WROTE: &[u8] =
    b"\x00\x00\x00\x13\x81\x00\x00\x00\x00\x00\x00\x00\x02\x00\x00\x00\x00\x00\x00\x00\x02\x00\x00";

/// The reply to the read after it: effective time 2, row b with the column.
pub(crate) const READ: &[u8] =
    b"\x00\x00\x00\x1c\x82\x00\x00\x00\x00\x00\x00\x00\x02\x00\x00\x00\x01\x00\x01b\x00\x00\x00\x01\x00\x01x\x00\x00\x00\x011";

/// The reply to the read where the batch was refused: effective time 0, row b without a column.
pub(crate) const EMPTY: &[u8] =
    b"\x00\x00\x00\x14\x82\x00\x00\x00\x00\x00\x00\x00\x00\x00\x00\x00\x01\x00\x01b\x00\x00\x00\x00";

/// The reply that refuses with 23.
pub(crate) const MEMORY: &[u8] = b"\x00\x00\x00\x03\x84\x00\x17";

/// How many bytes a call of the line gives or takes at most.
const STEPS: [usize; 3] = [1, 7, 4096];

/// How serving a line ended, and what was written.
#[derive(Drop)]
struct Served {
    ended: Ended,
    said: Vec<u8>,
}

impl Served {
    /// Whether these two replies were written, and nothing else.
    fn has_said(&self, first: &[u8], second: &[u8]) -> bool {
        let said = self.said.as_slice();
        if said.len() < first.len() {
            return false;
        }
        let (before, after) = said.split_at(first.len());
        before == first && after == second
    }

    /// Whether all was answered, with no refusal.
    fn is_whole(&self) -> bool {
        self.ended == Ended::Clean && self.has_said(WROTE, READ)
    }

    /// Whether one reply is that refusal, and the other one that of the world that it left as it was.
    fn has_one_refusal(&self) -> bool {
        self.has_said(MEMORY, READ) || self.has_said(MEMORY, EMPTY) || self.has_said(WROTE, MEMORY)
    }

    /// Whether the refusal is the last reply, of a piece.
    fn ends_refused(&self) -> bool {
        self.has_said(MEMORY, b"") || self.has_said(WROTE, MEMORY)
    }

    /// Whether a beginning of the replies was written, and not all of them.
    fn is_cut(&self) -> bool {
        let said = self.said.as_slice();
        if said.len() < WROTE.len() {
            return WROTE.starts_with(said);
        }
        let (before, after) = said.split_at(WROTE.len());
        before == WROTE && after.len() < READ.len() && READ.starts_with(after)
    }

    /// What a refusal came to; none where it is none of those that a server may answer with.
    fn refusal(&self) -> Option<&'static str> {
        match self.ended {
            Ended::Clean if self.has_one_refusal() => Some("answered 23, and went on"),
            Ended::Refused(Fault::Memory) if self.ends_refused() => Some("answered 23, and ended"),
            Ended::WriteFailed if self.is_cut() => Some("the line had no room"),
            Ended::ReadFailed if self.is_cut() || self.has_said(WROTE, READ) => {
                Some("the line had no room")
            }
            _ => None,
        }
    }
}

/// Both requests.
fn requests(alloc: Global) -> Result<Vec<u8>, Fault> {
    let mut requests = Vec::from_slice(alloc, BATCH)?;
    requests.extend_from_slice(QUERY)?;
    Ok(requests)
}

pub(crate) fn copy_of(alloc: Global, bytes: &[u8]) -> Result<Vec<u8>, Fault> {
    Ok(Vec::from_slice(alloc, bytes)?)
}

fn serve_in(rt: &HostRuntime, world: &mut World, step: usize) -> Result<Served, Fault> {
    let session = Node::new(1);
    if world.topology().session_of(session).is_none() {
        return Err(Fault::Script);
    }
    let input = again!(rt; requests(rt.alloc()))?;
    let mut line = MemoryLine::new(rt.alloc(), input, step.max(1), Failing::Never);
    let ended = serve_session(rt.alloc(), world, session, &mut line);
    let said = again!(rt; copy_of(rt.alloc(), line.said()))?;
    Ok(Served { ended, said })
}

/// Serves the requests by the session of a new world of one shard.
fn serve(rt: &HostRuntime, step: usize) -> Result<Served, Fault> {
    let topology = again!(rt; topology(rt.alloc(), (1, 1), &[0]))?;
    let mut world = again!(rt; World::new(rt.alloc(), &topology))?;
    let served = serve_in(rt, &mut world, step);
    world.close();
    served
}

/// Tells how the requests are answered; where memory was refused, how they are answered by another world after that.
fn tell_step(rt: &HostRuntime, step: usize) -> Result<(), Fault> {
    let mut served = serve(rt, step)?;
    if !served.is_whole() {
        match served.refusal() {
            Some(refusal) => note(rt, refusal),
            None => print(rt, "another answer")?,
        }
        served = serve(rt, step)?;
    }
    let word = if served.is_whole() {
        "whole"
    } else {
        "not whole"
    };
    println!(rt; "insert_and_read_back in steps of {step}: {word}").map_err(|_| Fault::WriteFailed)
}

pub(crate) fn tell(rt: &HostRuntime) -> Result<(), Fault> {
    for step in STEPS {
        tell_step(rt, step)?;
    }
    Ok(())
}
