//! A shard beside a world: it hears messages of the world, as the steps say, and is asked what a world isn't.
use crate::building::{node, number, topology, txn};
use crate::normal_forms::add_change;
use crate::showing::{add_commit, add_txn};
use crate::steps::{Subject, tell as tell_steps};
use logical_time::{Fault, Node};
use messages::{Outbox, Topology};
use shard::Shard;
use std::alloc::Global;
use txn_state::WritePart;
use world::World;

/// A world, and a shard beside it.
struct Beside {
    world: World,
    shard: Shard,
}

/// The shard handles a message of the world. What it sends isn't kept: the world's own shard sends it too.
fn hear(alloc: Global, beside: &mut Beside, number: usize) -> Result<(), Fault> {
    let Some(envelope) = beside.world.messages().get(number) else {
        return Err(Fault::Script);
    };
    let mut sent = Outbox::new(alloc);
    match beside.shard.handle(envelope.copied()?, &mut sent) {
        Ok(()) => Ok(()),
        Err(refused) => Err(refused.fault),
    }
}

/// Adds each transaction with the changes of its part.
fn add_parts(seen: &mut String, parts: &[WritePart]) -> Result<(), Fault> {
    for part in parts {
        add_txn(seen, part.writer.txn())?;
        for change in part.batch.as_slice() {
            seen.push_str(" ")?;
            add_change(seen, change)?;
        }
    }
    Ok(())
}

impl Subject for Beside {
    fn step(&mut self, alloc: Global, words: &[&str], seen: &mut String) -> Result<(), Fault> {
        match words {
            ["hear", place] => hear(alloc, self, number(place) as usize),
            ["unfinished"] => add_parts(seen, self.shard.unfinished()?.as_slice()),
            ["decided", of] => match self.shard.decided(txn(of)) {
                Some((commit, stamp)) => add_commit(seen, commit, stamp),
                None => Ok(()),
            },
            _ => self.world.step(alloc, words, seen),
        }
    }
}

/// Tells the steps of a world with this shard beside it.
fn tell_beside(
    rt: &HostRuntime,
    file: &str,
    topology: &Topology,
    shard: Shard,
) -> Result<(), Fault> {
    let world = match World::new(rt.alloc(), topology) {
        Ok(world) => world,
        Err(fault) => {
            shard.close();
            return Err(fault);
        }
    };
    let mut beside = Beside { world, shard };
    let told = tell_steps(rt, file, &mut beside);
    let Beside { world, shard } = beside;
    world.close();
    shard.close();
    told
}

/// Files of steps, each with the shard that stands beside the world.
const FILES: [(&str, u16); 4] = [
    ("part_of_coordinator.steps", 0),
    ("part_of_cohort.steps", 1),
    ("part_of_remote_coordinator.steps", 2),
    ("part_of_remote_cohort.steps", 3),
];

pub(crate) fn tell(rt: &HostRuntime) -> Result<(), Fault> {
    let topology = topology(rt.alloc(), (2, 2), &[0])?;
    for (file, number) in FILES {
        let Some(shard) = Shard::new(rt.alloc(), &topology, Node::new(number)) else {
            return Err(Fault::UnknownHome);
        };
        tell_beside(rt, file, &topology, shard)?;
    }
    Ok(())
}
