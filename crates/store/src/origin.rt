//! What the versions of a part have in common.

ghost use Rattle.std.specs.Prelude.{◌≡◌};

use logical_time::{Stamp, Time, Writer};

/// The transaction that versions come from, and since when they are seen.
#[derive(Drop)]
pub(crate) struct Origin {
    /// The transaction, with its coordinator.
    pub(crate) writer: Writer,
    /// Its stamp.
    pub(crate) stamp: Stamp,
    /// Its commit time in this data centre.
    pub(crate) evt: Time,
}

impl Origin {
    /// That of a transaction with this stamp, from its commit time in this data centre on.
    pub(crate) fn new(writer: Writer, stamp: Stamp, evt: Time) -> Origin
        ensures { result ≡ record { writer = writer; stamp = stamp; evt = evt } }
    {
        Origin { writer, stamp, evt }
    }
}
