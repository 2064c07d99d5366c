//! What a file records of a store.
ghost use Rattle.std.specs.Prelude.{◌≡◌};

use audit::Answered;
use column_family::Schema;
use std::marker::Model;
use table::History;

/// What is recorded of a store: the histories of its data centres, and reads that it answered. Nothing need hold between
/// them: what was recorded wrong is to be found.
#[derive(Drop)]
pub struct Recorded {
    families: Schema,
    histories: Vec<History>,
    reads: Vec<Answered>,
}

impl Model for Recorded {
    ghost use Rattle.recorded.specs.Recorded.{RecordedValue};

    ghost Value = { RecordedValue };

    ghost view = { λ r. record { families = r.families; histories = r.histories.items; reads = r.reads.items } };
}

impl Recorded {
    /// The record of these histories and reads, of a store with these column families.
    pub fn new(families: Schema, histories: Vec<History>, reads: Vec<Answered>) -> Recorded
        ensures { result ≡ record { families = families; histories = histories.items; reads = reads.items } }
    {
        Recorded {
            families,
            histories,
            reads,
        }
    }

    /// The column families.
    pub fn families(&self) -> &Schema
        ensures { result.now ≡ self.now.families }
    {
        &self.families
    }

    /// The history of each data centre, in order.
    pub fn histories(&self) -> &[History]
        ensures { result.now ≡ self.now.histories }
    {
        self.histories.as_slice()
    }

    /// The reads, in order.
    pub fn reads(&self) -> &[Answered]
        ensures { result.now ≡ self.now.reads }
    {
        self.reads.as_slice()
    }
}
