//! What a chain holds.

use column_family::Value;
use logical_time::{Stamp, Time, Writer};

/// What a transaction left.
#[derive(Drop)]
pub struct What {
    /// The transaction, with its coordinator.
    pub writer: Writer,
    /// The value of an insertion, or none for a deletion.
    pub value: Option<Value>,
}

/// What a transaction left of a column or a row, and from when on it is seen.
#[derive(Drop)]
pub struct Version {
    /// The stamp of the transaction, the same in all data centres. The version of the greater stamp is the newer.
    pub stamp: Stamp,
    /// The commit time in this data centre, the earliest time at which the version is seen (Eiger's EVT).
    pub evt: Time,
    /// What was left.
    pub what: What,
}
