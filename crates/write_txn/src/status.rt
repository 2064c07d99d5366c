//! What is known of a transaction.
use logical_time::{Stamp, Time};

/// What is known of a transaction.
#[derive(Clone, Copy)]
pub(crate) enum Status {
    /// Something of it is under way, at this place.
    Open(usize),
    /// Its part is applied.
    Applied,
    /// It is decided.
    Decided {
        /// The commit time in this data centre.
        commit: Time,
        /// The stamp.
        stamp: Stamp,
    },
}
