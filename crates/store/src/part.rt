//! What is applied to a store, and what it answers.
use logical_time::{Stamp, Time, Writers};
use slice::Columns;
use txn_state::WritePart;

/// A part that was applied.
#[derive(Drop)]
pub struct Applied {
    /// The part.
    pub part: WritePart,
    /// The commit time in this data centre, which is the part's earliest valid time.
    pub commit: Time,
    /// The stamp of the transaction.
    pub stamp: Stamp,
}

/// What a store answers of a row.
#[derive(Drop)]
pub struct Part {
    /// The slice of the row.
    pub columns: Columns,
    /// The transactions that the slice rests on.
    pub writers: Writers,
    /// The earliest time at which the slice is valid (Eiger's EVT), or 0 in an answer at a time.
    pub evt: Time,
}
