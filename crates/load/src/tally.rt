//! What is counted of replies.
ghost use Rattle.std.specs.Prelude.{◌≡◌, replicate, IfOk};
ghost use Rattle.load.specs.Tallies.{noted};

use crate::histogram::{Histogram, MOST, zeros};
use crate::replies::{NUMBERS, Reply};
use std::alloc::{AllocError, Global};
use std::marker::Model;

/// How many replies there were of each kind, and how long they took.
#[derive(Drop)]
pub(crate) struct Tally {
    // How long answered reads took, and writes, and both.
    pub(crate) reads: Histogram,
    pub(crate) writes: Histogram,
    pub(crate) together: Histogram,
    // How many requests were refused with each number.
    pub(crate) refused: Vec<u64>,
}

impl Model for Tally {
    ghost use Rattle.std.specs.Prelude.{◌≡◌, length};
    ghost use Rattle.load.specs.Tallies.{TallyValue};

    ghost Value = { TallyValue };

    ghost view = { λ t. record { reads = t.reads; writes = t.writes; together = t.together; refused = t.refused.items } };
}

impl Tally {
    /// Nothing is counted.
    pub(crate) fn new(alloc: Global) -> Result<Tally, AllocError>
        ensures { IfOk result (λ t. t ≡ record { reads = replicate 29801 0; writes = replicate 29801 0; together = replicate 29801 0; refused = replicate 64 0 }) }
    {
        Ok(Tally {
            reads: Histogram::new(alloc)?,
            writes: Histogram::new(alloc)?,
            together: Histogram::new(alloc)?,
            refused: zeros(alloc, usize::from(NUMBERS))?,
        })
    }

    /// Counts a reply that came after so many microseconds. Constant.
    pub(crate) fn note(&mut self, reply: Reply, time: u64)
        ensures { self.new ≡ noted reply time self.old }
    {
        match reply {
            Reply::Wrote => {
                self.writes.count(time);
                self.together.count(time);
            }
            Reply::Read => {
                self.reads.count(time);
                self.together.count(time);
            }
            Reply::Refused(number) => {
                let number = usize::from(number);
                if number < self.refused.len() && self.refused[number] < MOST {
                    self.refused[number] += 1;
                }
            }
        }
    }
}
