//! What clients heard, beside what the world's run says, and the audit of that.
use audit::{Audit, audit};
use logical_time::{Fault, Node};
use std::alloc::Global;
use std::thread::Threads;
use wire::encode_reply;
use world::World;

/// The replies to all that a session asked, in order, each behind those before.
fn replies_of(alloc: Global, world: &World, session: Node) -> Result<Vec<u8>, Fault> {
    let mut replies = Vec::new(alloc);
    for one in world.transcript() {
        if one.node == session {
            let outcome = Ok(one.outcome.copied()?);
            replies.extend_from_slice(&encode_reply(alloc, &outcome)?)?;
        }
    }
    Ok(replies)
}

// What stands behind what one of these heard, if these replies begin with that.
fn behind_one<'a>(replies: &'a [u8], heard: &[Vec<u8>]) -> Option<&'a [u8]> {
    for one in heard {
        if !one.is_empty() && replies.starts_with(one.as_slice()) {
            return replies.get(one.len()..);
        }
    }
    None
}

// How many of these heard a part of the replies, one behind the other from the first reply on.
fn heard_in(replies: &[u8], heard: &[Vec<u8>]) -> usize {
    let mut count: usize = 0;
    let mut rest = replies;
    for _ in heard {
        match behind_one(rest, heard) {
            Some(behind) => {
                rest = behind;
                count = count.wrapping_add(1);
            }
            None => return count,
        }
    }
    count
}

/// How many of those that heard something heard exactly what some session was answered while they had it: one client after
/// the other may have had it.
pub(crate) fn right(alloc: Global, world: &World, heard: &[Vec<u8>]) -> Result<usize, Fault> {
    let mut right: usize = 0;
    let sessions = world.topology().homes().len() as u16;
    for index in 0..sessions {
        let session = world.topology().session_node(index);
        let replies = replies_of(alloc, world, session)?;
        right = right.wrapping_add(heard_in(replies.as_slice(), heard));
    }
    Ok(right)
}

/// What the audit finds in all that ended in the world.
pub(crate) fn audited<R: Threads + Sync>(
    threads: &R,
    alloc: Global,
    world: &World,
) -> Result<Audit, Fault> {
    let mut histories = Vec::new(alloc);
    for dc in 0..world.topology().dcs() {
        histories.push(world.history(alloc, dc)?)?;
    }
    audit(threads, alloc, histories.as_slice(), world.transcript())
}
