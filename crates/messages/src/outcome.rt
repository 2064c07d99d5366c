//! What comes of what sessions submit.
ghost use Rattle.std.specs.Prelude.{◌≡◌};

use logical_time::{Stamp, Time};
use slice::Answer;
use std::alloc::AllocError;

/// What came of an operation.
#[derive(Drop, Clone)]
pub enum Outcome {
    /// A write is committed.
    Wrote {
        /// The commit time in the data centre where it was submitted.
        commit: Time,
        /// The stamp of the transaction.
        stamp: Stamp,
    },
    /// A read is answered.
    Read {
        /// The effective time: that of the table which the answer shows.
        effective: Time,
        /// Each asked key with its slice.
        answer: Answer,
    },
    /// A read ended without an answer, since the versions of its effective time were collected.
    Collected,
    /// The session moved. What it depends on is committed in its new home.
    Moved {
        /// The number of the new home.
        dc: u16,
        /// The floor there: the greatest commit time, in the new home, of what the session depends on, and 0 where that is
        /// nothing.
        floor: Time,
    },
}

impl Outcome {
    ghost use Rattle.std.specs.Prelude.{◌≡◌, IfOk};

    /// A copy, which shares the bytes of keys, names and values. Fails by memory alone.
    #[inline]
    pub fn copied(&self) -> Result<Outcome, AllocError>
        ensures { IfOk result (λ copy. copy ≡ self.now) }
    {
        self.clone()
    }
}
