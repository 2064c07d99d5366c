//! A world that the steps move: what ends and what is sent at each step, and what its data centres hold.
use crate::building::{batch, centre, columns_named, node, number, range, read, time, topology};
use crate::showing::{add_commit, add_outcome, add_sent, add_space};
use crate::steps::{Subject, tell as tell_steps};
use crate::tables::add_read;
use drains::drain;
use logical_time::{Fault, Node, Time};
use messages::Op;
use slice::Predicate;
use std::alloc::Global;
use table::History;
use world::{Completed, World};

/// A session submits an operation, if the node is one.
pub(crate) fn submit(world: &mut World, session: Node, op: Op) -> Result<(), Fault> {
    if world.topology().session_of(session).is_none() {
        return Err(Fault::Script);
    }
    match world.submit(session, op) {
        Ok(_) => Ok(()),
        Err((fault, _)) => Err(fault),
    }
}

/// A message is delivered, if it was sent.
pub(crate) fn deliver(world: &mut World, number: usize) -> Result<(), Fault> {
    if world.sent() <= number {
        return Err(Fault::Script);
    }
    world.deliver(number)
}

fn deliver_all(world: &mut World, numbers: &[&str]) -> Result<(), Fault> {
    for word in numbers {
        deliver(world, number(word) as usize)?;
    }
    Ok(())
}

/// A shard collects, if the node is one.
fn collect(world: &mut World, shard: Node, until: Time) -> Result<(), Fault> {
    if !world.topology().is_shard(shard) {
        return Err(Fault::Script);
    }
    world.collect(shard, until)
}

/// The history of a data centre, if there is one of the number.
pub(crate) fn history(alloc: Global, world: &World, dc: u16) -> Result<History, Fault> {
    if world.topology().dcs() <= dc {
        return Err(Fault::Script);
    }
    world.history(alloc, dc)
}

fn submit_read(
    alloc: Global,
    world: &mut World,
    session: &str,
    rows: &str,
    predicate: Predicate,
) -> Result<(), Fault> {
    let read = read(alloc, rows, predicate)?;
    submit(world, node(session), Op::read(alloc, read)?)
}

/// Does a step that is an event, or several deliveries, or a drain.
fn happen(alloc: Global, world: &mut World, words: &[&str]) -> Result<(), Fault> {
    match words {
        ["write", session, changes @ ..] => {
            let batch = batch(alloc, changes)?;
            submit(world, node(session), Op::write(alloc, batch)?)
        }
        ["read", session, rows, names] => {
            let predicate = columns_named(alloc, names)?;
            submit_read(alloc, world, session, rows, predicate)
        }
        ["range", session, rows, start, finish, count] => {
            let predicate = range(alloc, start, finish, count, false)?;
            submit_read(alloc, world, session, rows, predicate)
        }
        ["move", session, dc] => submit(world, node(session), Op::Move { dc: centre(dc) }),
        ["deliver", numbers @ ..] => deliver_all(world, numbers),
        ["collect", shard, until] => collect(world, node(shard), time(until)),
        ["drain"] => {
            drain(world)?;
            Ok(())
        }
        _ => Err(Fault::Script),
    }
}

/// Adds what ended from this number on.
fn add_ended(seen: &mut String, transcript: &[Completed], first: usize) -> Result<(), Fault> {
    for ended in transcript.iter().skip(first) {
        let (session, number) = (ended.node.get(), ended.number);
        add_space(seen)?;
        write!(seen, "{session}.{number} ")?;
        add_outcome(seen, &ended.outcome)?;
    }
    Ok(())
}

/// Adds the commit time and the stamp of each entry.
fn add_history(seen: &mut String, history: &History) -> Result<(), Fault> {
    for entry in history.as_slice() {
        add_commit(seen, entry.commit, entry.stamp)?;
        seen.push_str(";")?;
    }
    Ok(())
}

impl Subject for World {
    fn step(&mut self, alloc: Global, words: &[&str], seen: &mut String) -> Result<(), Fault> {
        match words {
            ["history", dc] => add_history(seen, &history(alloc, self, node(dc).get())?),
            ["table", dc, at] => {
                let history = history(alloc, self, node(dc).get())?;
                add_read(alloc, &history, columns_named(alloc, "x")?, at, seen)
            }
            ["quiet"] => Ok(seen.push_str(if self.is_quiet() { "yes" } else { "no" })?),
            event => {
                let (ended, sent) = (self.transcript().len(), self.sent());
                happen(alloc, self, event)?;
                add_ended(seen, self.transcript(), ended)?;
                add_sent(seen, self.messages(), sent)
            }
        }
    }
}

/// Tells the steps of a world of this topology.
fn tell_in(rt: &HostRuntime, file: &str, size: (u16, u16), homes: &[u16]) -> Result<(), Fault> {
    let topology = topology(rt.alloc(), size, homes)?;
    let mut world = World::new(rt.alloc(), &topology)?;
    let told = tell_steps(rt, file, &mut world);
    world.close();
    told
}

fn tell_each(
    rt: &HostRuntime,
    files: &[&str],
    size: (u16, u16),
    homes: &[u16],
) -> Result<(), Fault> {
    for file in files {
        tell_in(rt, file, size, homes)?;
    }
    Ok(())
}

/// Files of steps in one data centre of one shard.
const OF_ONE_SHARD: [&str; 4] = [
    "insert_and_read_back.steps",
    "read_of_nothing.steps",
    "count_after_deletion.steps",
    "range_deletion.steps",
];

/// Files of steps in one data centre of two shards.
const OF_TWO_SHARDS: [&str; 13] = [
    "two_shard_write.steps",
    "prepare_after_commit.steps",
    "early_vote.steps",
    "each_message_twice.steps",
    "two_reads_wait.steps",
    "read_asks_coordinator.steps",
    "late_repeats.steps",
    "read_before_vote.steps",
    "undecided_is_excluded.steps",
    "unseen_column_under_mark.steps",
    "second_round_collected.steps",
    "collected_while_waiting.steps",
    "horizon_at_effective_time.steps",
];

/// Files of steps in two data centres of one shard.
const OF_TWO_CENTRES: [&str; 4] = [
    "concurrent_inserts_meet.steps",
    "dependency_holds_back.steps",
    "read_before_dependency.steps",
    "row_deletions_in_evt.steps",
];

pub(crate) fn tell(rt: &HostRuntime) -> Result<(), Fault> {
    tell_each(rt, &OF_ONE_SHARD, (1, 1), &[0])?;
    tell_each(rt, &OF_TWO_SHARDS, (1, 2), &[0, 0, 0])?;
    tell_each(rt, &OF_TWO_CENTRES, (2, 1), &[0, 1])?;
    tell_in(rt, "dependency_through_a_read.steps", (2, 1), &[0, 0, 0])?;
    tell_in(rt, "session_moves.steps", (2, 1), &[0])?;
    tell_in(rt, "write_is_replicated.steps", (2, 2), &[0, 1])?;
    tell_in(rt, "replicated_then_quiet.steps", (2, 2), &[0])
}
