//! What ended.

use logical_time::Node;
use messages::{Op, Outcome};

/// An operation that ended: an entry of a transcript.
#[derive(Drop)]
pub struct Completed {
    /// The session's node.
    pub node: Node,
    /// Its number among the session's operations, which are numbered from 1.
    pub number: u64,
    /// The data centre where it was submitted.
    pub home: u16,
    /// The operation, as it was submitted.
    pub op: Op,
    /// What came of it.
    pub outcome: Outcome,
}
