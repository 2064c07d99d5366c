//! Worlds that steps move, with each refused call made again.
use crate::building::{
    batch, centre, columns_named, first_word, node, number, read, reading, time, topology, walking,
};
use crate::showing::{add_answer, add_ended, add_history, add_sent, print, tell_refused};
use logical_time::{Fault, Node, Time};
use messages::Op;
use std::alloc::Global;
use std::fs;
use table::{History, answer};
use world::World;

/// A session submits an operation, if the node is one.
fn submit_once(world: &mut World, session: Node, op: Op) -> Result<u64, (Fault, Op)> {
    if world.topology().session_of(session).is_none() {
        return Err((Fault::Script, op));
    }
    world.submit(session, op)
}

fn done(submitted: Result<u64, (Fault, Op)>) -> Result<(), Fault> {
    match submitted {
        Ok(_) => Ok(()),
        Err((fault, _)) => Err(fault),
    }
}

/// A session submits an operation, and where memory was refused, what came back.
fn submit(rt: &HostRuntime, world: &mut World, session: Node, op: Op) -> Result<(), Fault> {
    match submit_once(world, session, op) {
        Err((Fault::Memory, op)) => {
            tell_refused(rt);
            done(submit_once(world, session, op))
        }
        submitted => done(submitted),
    }
}

/// A message is delivered, if it was sent.
fn deliver_once(world: &mut World, number: usize) -> Result<(), Fault> {
    if world.sent() <= number {
        return Err(Fault::Script);
    }
    world.deliver(number)
}

fn deliver_all(rt: &HostRuntime, world: &mut World, numbers: &str) -> Result<(), Fault> {
    for word in numbers.split(' ') {
        again!(rt; deliver_once(world, number(word) as usize))?;
    }
    Ok(())
}

/// A shard collects, if the node is one.
fn collect_once(world: &mut World, shard: Node, until: Time) -> Result<(), Fault> {
    if !world.topology().is_shard(shard) {
        return Err(Fault::Script);
    }
    world.collect(shard, until)
}

/// The history of a data centre, if there is one of the number.
fn history_once(alloc: Global, world: &World, dc: u16) -> Result<History, Fault> {
    if world.topology().dcs() <= dc {
        return Err(Fault::Script);
    }
    world.history(alloc, dc)
}

/// Does a step that is an event, or several deliveries.
fn happen(rt: &HostRuntime, world: &mut World, step: &str) -> Result<(), Fault> {
    let (kind, words) = first_word(step);
    let (actor, more) = first_word(words);
    match kind {
        "write" => {
            let op = again!(rt; batch(rt.alloc(), more))?;
            submit(rt, world, node(actor), op)
        }
        "read" => {
            let op = again!(rt; reading(rt.alloc(), more))?;
            submit(rt, world, node(actor), op)
        }
        "range" => {
            let op = again!(rt; walking(rt.alloc(), more))?;
            submit(rt, world, node(actor), op)
        }
        "move" => submit(rt, world, node(actor), Op::Move { dc: centre(more) }),
        "deliver" => deliver_all(rt, world, words),
        "collect" => again!(rt; collect_once(world, node(actor), time(more))),
        _ => Err(Fault::Script),
    }
}

/// What ended and what was sent from these numbers on.
fn since(alloc: Global, world: &World, (ended, sent): (usize, usize)) -> Result<String, Fault> {
    let mut seen = String::new(alloc);
    for ended in world.transcript().iter().skip(ended) {
        add_ended(&mut seen, (ended.node, ended.number), &ended.outcome)?;
    }
    add_sent(&mut seen, world.messages(), sent)?;
    Ok(seen)
}

/// The entries of a data centre's history.
fn entries(alloc: Global, history: &History) -> Result<String, Fault> {
    let mut seen = String::new(alloc);
    add_history(&mut seen, history)?;
    Ok(seen)
}

/// What column x of the rows b, a and b is on the history at a time.
fn table_at(alloc: Global, history: &History, at: Time) -> Result<String, Fault> {
    let mut seen = String::new(alloc);
    let read = read(alloc, "bab", columns_named(alloc, "x")?)?;
    add_answer(&mut seen, &answer(alloc, history, at, &read)?)?;
    Ok(seen)
}

/// Does a step, and gives what is seen of it.
fn seen_of(rt: &HostRuntime, world: &mut World, step: &str) -> Result<String, Fault> {
    let alloc = rt.alloc();
    let (kind, words) = first_word(step);
    let (dc, at) = first_word(words);
    match kind {
        "history" => {
            let history = again!(rt; history_once(alloc, world, node(dc).get()))?;
            again!(rt; entries(alloc, &history))
        }
        "table" => {
            let history = again!(rt; history_once(alloc, world, node(dc).get()))?;
            again!(rt; table_at(alloc, &history, time(at)))
        }
        _ => {
            let before = (world.transcript().len(), world.sent());
            happen(rt, world, step)?;
            again!(rt; since(alloc, world, before))
        }
    }
}

fn tell_steps(rt: &HostRuntime, world: &mut World, file: &str, steps: &str) -> Result<(), Fault> {
    print(rt, file)?;
    for step in steps.lines() {
        let seen = seen_of(rt, world, step)?;
        let seen = seen.as_str();
        let arrow = if seen.is_empty() { "" } else { " =>" };
        println!(rt; "{step}{arrow}{seen}").map_err(|_| Fault::WriteFailed)?;
    }
    Ok(())
}

/// The text of a file, which is read again where that fails.
fn text_of(rt: &HostRuntime, file: &str) -> Result<String, Fault> {
    match fs::read_to_string(rt, file) {
        Ok(text) => return Ok(text),
        Err(_) => tell_refused(rt),
    }
    fs::read_to_string(rt, file).map_err(|_| Fault::ReadFailed)
}

/// Tells the steps of a file, in a world of this topology.
fn tell_in(rt: &HostRuntime, file: &str, size: (u16, u16), homes: &[u16]) -> Result<(), Fault> {
    let steps = text_of(rt, file)?;
    let topology = again!(rt; topology(rt.alloc(), size, homes))?;
    let mut world = again!(rt; World::new(rt.alloc(), &topology))?;
    let told = tell_steps(rt, &mut world, file, steps.as_str());
    world.close();
    told
}

pub(crate) fn tell(rt: &HostRuntime) -> Result<(), Fault> {
    tell_in(rt, "range_deletion.steps", (1, 1), &[0])?;
    tell_in(rt, "read_asks_coordinator.steps", (1, 2), &[0, 0])?;
    tell_in(rt, "dependency_holds_back.steps", (2, 1), &[0, 1])?;
    tell_in(rt, "second_round_collected.steps", (1, 2), &[0, 0])?;
    tell_in(rt, "session_moves.steps", (2, 1), &[0])?;
    tell_in(rt, "write_is_replicated.steps", (2, 2), &[0, 1])
}
