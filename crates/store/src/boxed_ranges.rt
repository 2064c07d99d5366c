//! Deletions of ranges of a row's columns, that stand by themselves in memory.
ghost use Rattle.std.specs.Prelude.{◌≡◌, ◌+◌, ◌≤◌, ◌<◌, [], IfOk, IfErr, OnOk, IsOk};
ghost use Rattle.logical_time.specs.declared.fault.Fault.TheVariants as fault;
ghost use Rattle.versions.specs.Ranges.{put_range};
ghost use Rattle.store.specs.Stored.{collected_ranges};

use logical_time::{Fault, Time};
use std::alloc::Global;
use std::marker::Model;
use version_gc::collect_ranges;
use versions::{Chain, RangeDeletion, Ranges};

/// The deletions of ranges of a row, which stand by themselves in memory: most rows have none.
#[derive(Drop)]
pub(crate) struct BoxedRanges {
    ranges: Box<Ranges>,
}

impl Model for BoxedRanges {
    ghost use Rattle.versions.specs.Ranges.{HeldRanges};

    ghost Value = { HeldRanges };

    ghost view = { λ b. b.ranges.value };
}

impl BoxedRanges {
    /// None, with room for so many.
    pub(crate) fn new(alloc: Global, room: usize) -> Result<BoxedRanges, Fault>
        ensures ranges { IfOk result (λ b. b.ranges ≡ []) }
        ensures room { IfOk result (λ b. room ≤ b.room) }
        ensures memory { IfErr result (λ e. e ≡ fault.Memory) }
    {
        let mut ranges = Ranges::new(alloc);
        ranges.reserve(room)?;
        match Box::new(alloc, ranges) {
            Ok(ranges) => Ok(BoxedRanges { ranges }),
            Err(_) => Err(Fault::Memory),
        }
    }

    /// The deletions of ranges.
    pub(crate) fn as_ranges(&self) -> &Ranges
        ensures { result.now ≡ self.now }
    {
        self.ranges.as_ref()
    }

    /// Makes room for so many more.
    pub(crate) fn reserve(&mut self, additional: usize) -> Result<(), Fault>
        ensures same { self.new.ranges ≡ self.old.ranges }
        ensures room { self.old.room ≤ self.new.room }
        ensures ok { OnOk result (additional ≤ self.new.room) }
        ensures succeeds { additional ≤ self.old.room → IsOk result }
        ensures memory { IfErr result (λ e. e ≡ fault.Memory) }
    {
        self.ranges.reserve(additional)
    }

    /// Puts one more.
    pub(crate) fn put(&mut self, range: RangeDeletion)
        requires { 0 < self.old.room }
        ensures put { self.new.ranges ≡ put_range self.old.ranges range }
        ensures room { self.old.room ≤ self.new.room + 1 }
    {
        self.ranges.put(range).unwrap();
    }

    /// Drops those that are in force at no time from this one on, below these deletions of the row.
    #[tactic(auto, using(crate::proofs::applied::Collected::ranges_held_collected))]
    pub(crate) fn collect(&mut self, deletions: &Chain, time: Time)
        ensures { self.new ≡ collected_ranges time deletions.now.versions self.old }
    {
        collect_ranges(&mut self.ranges, deletions, time);
    }
}
