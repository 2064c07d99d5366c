//! What happens to actors.

use crate::envelope::Envelope;
use crate::op::Op;
use logical_time::Time;

/// An event of one actor. The list of an actor's events is its journal.
#[derive(Drop)]
pub enum ActorEvent {
    /// A session accepts an operation.
    Submit(Op),
    /// A session or a shard handles a message.
    Handle(Envelope),
    /// A shard collects up to a time.
    Collect(Time),
}
