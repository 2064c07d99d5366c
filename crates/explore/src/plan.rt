//! What the actors of a script do on their own, and when each of it may come.

use crate::stop::Stop;
use std::alloc::Global;
use workload::{Script, ScriptEvent};

/// What an actor does on its own: a session submits, a shard collects.
#[derive(Drop)]
pub(crate) struct Own {
    /// The place of the event in the script.
    pub event: usize,
    /// How many operations of each session have to be submitted before it.
    pub after: Vec<usize>,
}

/// What each actor does on its own, in order, by its node.
#[derive(Drop)]
pub(crate) struct Plan {
    /// How many shards there are: their nodes come first.
    pub shards: usize,
    /// What each actor does.
    pub own: Vec<Vec<Own>>,
}

impl Plan {
    /// The plan of a script, whose deliveries and drains are left out. Refused with `Memory` alone.
    pub fn new(alloc: Global, script: &Script) -> Result<Plan, Stop> {
        let mut own = Vec::new(alloc);
        for _ in 0..script.topology.node_count() {
            own.push(Vec::new(alloc))?;
        }
        let shards = usize::from(script.topology.shard_count());
        let mut plan = Plan { shards, own };
        for (event, what) in script.events.as_slice().iter().enumerate() {
            match what {
                ScriptEvent::Submit { session, .. } => {
                    plan.add(usize::from(session.get()), event, Vec::new(alloc))?
                }
                ScriptEvent::Collect { shard, .. } => {
                    let after = plan.submitted(alloc)?;
                    plan.add(usize::from(shard.get()), event, after)?
                }
                _ => (),
            }
        }
        Ok(plan)
    }

    // How many operations each session has so far.
    fn submitted(&self, alloc: Global) -> Result<Vec<usize>, Stop> {
        let mut counts = Vec::new(alloc);
        for (node, all) in self.own.as_slice().iter().enumerate() {
            if self.shards <= node {
                counts.push(all.len())?;
            }
        }
        Ok(counts)
    }

    // An actor does this next.
    fn add(&mut self, actor: usize, event: usize, after: Vec<usize>) -> Result<(), Stop> {
        if let Some(all) = self.own.get_mut(actor) {
            all.push(Own { event, after })?;
        }
        Ok(())
    }

    /// What an actor does on its own after so much of it.
    pub fn next(&self, actor: usize, done: usize) -> Option<&Own> {
        self.own.get(actor)?.get(done)
    }
}
