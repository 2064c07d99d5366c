//! What happens in a run.

use logical_time::{Node, Time};
use messages::Op;

/// An event of a run. Messages are numbered from 0 in the order of sending, and delivered in any order, again, or never.
/// Sessions and shards are named by their nodes.
#[derive(Drop)]
pub enum RunEvent {
    /// A session submits an operation.
    Submit {
        /// The session.
        session: Node,
        /// The operation.
        op: Op,
    },
    /// A message is delivered.
    Deliver {
        /// Its number.
        number: usize,
    },
    /// A shard collects up to a time.
    Collect {
        /// The shard.
        shard: Node,
        /// The time.
        time: Time,
    },
}
