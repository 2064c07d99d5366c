//! What a session keeps.
use crate::current::Current;
use crate::home::Home;
use column_family::Schema;
use dependencies::DepSet;
use logical_time::{Clock, Node, Time, Writers};
use messages::Outcome;
use std::alloc::Global;

/// What a session keeps. While an operation is open, no writers are to be added.
pub(crate) struct SessionKept {
    /// Where growths come from.
    pub(crate) alloc: Global,
    /// The session.
    pub(crate) node: Node,
    /// Its home, where the last move left it.
    pub(crate) home: Home,
    /// The column families.
    pub(crate) schema: Schema,
    /// Its clock.
    pub(crate) clock: Clock,
    /// How many operations were accepted.
    pub(crate) count: u64,
    /// The greatest commit or effective time, in its home, of what it depends on and of the operations that it completed
    /// there.
    pub(crate) floor: Time,
    /// What its next write depends on, but for the writers that are still to be added.
    pub(crate) dependencies: DepSet,
    /// The writers of its last read that are still to be added.
    pub(crate) added: Writers,
    /// The open operation.
    pub(crate) current: Current,
    /// The last outcome with the number of its operation, until it is taken or the next operation is accepted.
    pub(crate) untaken: Option<(u64, Outcome)>,
}
