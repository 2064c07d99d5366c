//! Parts that are prepared.
ghost use Rattle.std.specs.Prelude.{◌≡◌};

use crate::part::WritePart;
use column_family::Batch;
use logical_time::{Time, Writer};
use std::marker::Model;

/// A part that is prepared and not yet applied. It must be spent: applied, or the shard is closed.
pub struct Prepared {
    part: WritePart,
    time: Time,
}

impl Model for Prepared {
    ghost use Rattle.txn_state.specs.Prepared.{PreparedValue};

    ghost Value = { PreparedValue };

    ghost view = { λ p. record { part = p.part; time = p.time } };
}

impl Prepared {
    /// A part that is prepared at this time.
    pub fn new(part: WritePart, time: Time) -> Prepared
        ensures { result ≡ record { part = part; time = time } }
    {
        Prepared { part, time }
    }

    /// The transaction, with its coordinator.
    pub fn writer(&self) -> Writer
        ensures { result ≡ self.now.part.writer }
    {
        self.part.writer
    }

    /// The changes.
    pub fn part(&self) -> &Batch
        ensures { result.now ≡ self.now.part.batch }
    {
        &self.part.batch
    }

    /// The prepare time.
    pub fn time(&self) -> Time
        ensures { result ≡ self.now.time }
    {
        self.time
    }

    /// Hands out the part and its prepare time: for a store that applies it, or a shard that is closed.
    pub fn surrender(self) -> (WritePart, Time)
        ensures { (result.0 ≡ self.part) × (result.1 ≡ self.time) }
    {
        let Prepared { part, time } = self;
        (part, time)
    }
}
