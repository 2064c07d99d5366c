//! What workers report.

use logical_time::Fault;

/// Why a worker stopped.
#[derive(Clone, Copy, Debug, PartialEq, Eq)]
pub enum End {
    /// It took all its turns.
    Turns,
    /// A turn was refused.
    Fault(Fault),
    /// All seats were idle in a whole round, all machines free and all backlogs empty.
    Rest,
}

/// What a worker did.
#[derive(Clone, Copy, Debug, PartialEq, Eq)]
pub struct Shift {
    /// How many turns it took.
    pub turns: u64,
    /// Why it stopped.
    pub end: End,
}

/// What all workers did, by their numbers.
#[derive(Drop)]
pub struct Report {
    /// A shift for each worker.
    pub shifts: Vec<Shift>,
}
