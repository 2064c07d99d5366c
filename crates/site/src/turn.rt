//! What a site answers.
use logical_time::Node;
use messages::Outcome;

/// What a turn did.
#[derive(Drop)]
pub enum Turn {
    /// Nothing: no envelope waits.
    Idle,
    /// An envelope was handled.
    Handled,
    /// An envelope was handled, and this ended an operation.
    Ended {
        /// The actor that handled it: a session.
        session: Node,
        /// The number of the operation among the session's, from 1.
        number: u64,
        /// How it ended.
        outcome: Outcome,
    },
}

/// An operation that was accepted.
#[derive(Drop)]
pub struct Submitted {
    /// Its number among the session's operations, from 1.
    pub number: u64,
    /// What its event ended, with its number: a move of a session that depends on nothing ends at once.
    pub ended: Option<(u64, Outcome)>,
}
