//! Actors, as far as their events are told.
ghost use Rattle.std.specs.Prelude.{◌≡◌, IfErr};
ghost use Rattle.logical_time.specs.declared.fault.Fault.TheVariants as fault;
ghost use Rattle.tracing.specs.Tracing.{HasCut, HasGrown};

use crate::pieces::{put, put_number};
use logical_time::{Clock, Fault, Node, Time};
use messages::{Body, Envelope, Topology};
use program::Output;
use std::alloc::Global;
use std::io::Write;

/// How many shards a data centre has at most.
const MOST_SHARDS: usize = 8;

/// An actor, as far as its events are told.
#[derive(Clone, Copy)]
pub(crate) struct Actor {
    /// Its clock.
    pub clock: Clock,
    /// How many operations it accepted, if it is a session.
    pub accepted: u64,
    /// The first answers to its last read, by shards: the numbers of their messages.
    pub first: [Option<usize>; MOST_SHARDS],
}

impl Actor {
    /// An actor before its first event.
    fn new() -> Actor {
        Actor {
            clock: Clock::new(),
            accepted: 0,
            first: [None; MOST_SHARDS],
        }
    }

    /// An event without a message: the clock moves on. The range of clocks was kept when it happened.
    pub fn act(&mut self) {
        let now = self.clock.now();
        let _ = self.clock.receive(now);
    }

    /// An operation is accepted.
    pub fn accept(&mut self) {
        self.act();
        self.accepted = self.accepted.wrapping_add(1);
        self.first = [None; MOST_SHARDS];
    }

    /// A message is handled, of this number, and from this shard of its data centre.
    pub fn handle(&mut self, number: usize, shard: usize, message: &Envelope) {
        let _ = self.clock.receive(message.time);
        if let Body::PartNow {
            number: read,
            rows: _,
        } = &message.body
        {
            if *read == self.accepted {
                self.note(shard, number);
            }
        }
    }

    // A shard answers for the first time.
    fn note(&mut self, shard: usize, number: usize) {
        if let Some(place) = self.first.get_mut(shard) {
            if place.is_none() {
                *place = Some(number);
            }
        }
    }
}

/// The actors of a topology before their first events. Refused with `Memory` alone.
pub(crate) fn all_actors(alloc: Global, topology: &Topology) -> Result<Vec<Actor>, Fault>
    ensures { IfErr result (λ e. e ≡ fault.Memory) }
{
    let mut actors = Vec::new(alloc);
    for _ in 0..topology.node_count() {
        actors.push(Actor::new())?;
    }
    Ok(actors)
}

/// The name of a node, in quotes: `shard S of data centre D` or `session I`.
pub(crate) fn put_name<W: Write>(
    output: &mut Output<W>,
    topology: &Topology,
    node: Node,
) -> Result<(), Fault>
    ensures grown { HasGrown W.contents output.old output.new }
    ensures failed { IfErr result (HasCut output.new) }
{
    match topology.session_of(node) {
        Some(session) => put_number(output, b"\"session ", u64::from(session))?,
        None => {
            let shard = topology.shard_of(node);
            put_number(output, b"\"shard ", u64::from(shard.get()))?;
            put_number(output, b" of data centre ", u64::from(topology.dc_of(node)))?;
        }
    }
    put(output, b"\"")
}
