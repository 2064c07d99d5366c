//! Scripts: which actors there are, and what happens to them.
ghost use Rattle.std.specs.Prelude.{◌≡◌};

use logical_time::{Node, Time};
use messages::{Op, Topology};
use std::marker::Model;

/// An event of a script. Messages are numbered from 0 in the order of sending.
#[derive(Drop)]
pub enum ScriptEvent {
    /// A session submits an operation.
    Submit {
        /// The session's node.
        session: Node,
        /// The operation.
        op: Op,
    },
    /// A message is delivered, for the first time or again.
    Deliver {
        /// Its number.
        number: usize,
    },
    /// A shard collects up to a time.
    Collect {
        /// The shard's node.
        shard: Node,
        /// The time.
        time: Time,
    },
    /// Each message not yet handled is delivered, lowest number first, those sent meanwhile included.
    Drain,
}

/// Events in order.
#[derive(Drop)]
pub struct Events {
    events: Vec<ScriptEvent>,
}

impl Model for Events {
    ghost use Rattle.std.specs.Prelude.{List};
    ghost use Rattle.workload.specs.declared.script.ScriptEvent.{ScriptEvent};

    ghost Value = { List ScriptEvent };

    ghost view = { λ list. list.events.items };
}

impl Events {
    /// These events.
    pub fn from_vec(events: Vec<ScriptEvent>) -> Events
        ensures { result ≡ events.items }
    {
        Events { events }
    }

    /// The events.
    pub fn as_slice(&self) -> &[ScriptEvent]
        ensures { result.now ≡ self.now }
    {
        self.events.as_slice()
    }
}

/// A script for the sessions and shards of a topology.
#[derive(Drop)]
pub struct Script {
    /// Which actors there are.
    pub topology: Topology,
    /// What happens, in order.
    pub events: Events,
}
