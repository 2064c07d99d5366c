//! The range deletions of a row.
ghost use Rattle.std.specs.Prelude.{◌≡◌, ◌+◌, ◌≤◌, ◌<◌, [], length, slice_get, IfOk, OnOk, OnErr, IfErr, IsOk, is_ok, is_some, if◌then◌else◌, remove, MatchOption, Contains, List, ℕ, ◌↔◌, ◌⊎◌, ◌==◌, Some, false};
ghost use Rattle.std.specs.Option.{option_copied};

use crate::chain::Chain;
use crate::range::RangeDeletion;
use crate::range_places::{keep_in_force, newest_of_over, put_range_in, range_at, take_range_out};
use crate::sweep::Sweep;
use column_family::Name;
use logical_time::{Fault, Time};
use std::alloc::Global;
use std::marker::Model;

/// The range deletions of a row. A place is counted from the newest, which stands at place 0. Of one stamp, which is that of
/// one batch, the one that was put later is the newer: a batch puts its own in their order.
#[derive(Drop)]
pub struct Ranges {
    // the oldest first, so that the newest comes and goes at the end
    items: Vec<RangeDeletion>,
}

impl Model for Ranges {
    ghost use Rattle.std.specs.Prelude.{◌-◌, reverse};
    ghost use Rattle.std.specs.Vec.{vec_len, vec_capacity};
    ghost use Rattle.versions.specs.Ranges.{HeldRanges, RangesFall};

    ghost Value = { HeldRanges };

    ghost view = { λ c. record { ranges = reverse c.items.items; room = vec_capacity c.items - vec_len c.items } };

    ghost invariant = { λ c. RangesFall (reverse c.items.items) };
}

impl Ranges {
    ghost use Rattle.versions.specs.declared.range.RangeDeletion.{RangeDeletion};
    ghost use Rattle.versions.specs.Ranges.{RangesFall, put_range, is_over, over_of, over_with, IsNewestOver, IsInForceFrom, in_force_at, kept_ranges, has_newer_by};

    /// None, without memory.
    pub fn new(alloc: Global) -> Ranges
        ensures { result.ranges ≡ [] }
    {
        Ranges {
            items: Vec::new(alloc),
        }
    }

    /// How many range deletions are held.
    pub fn len(&self) -> usize
        ensures { result ≡ length self.now.ranges }
    {
        self.items.len()
    }

    /// Whether none is held.
    pub fn is_empty(&self) -> bool
        ensures { result ≡ (length self.now.ranges == 0) }
    {
        self.items.is_empty()
    }

    /// Makes room for so many more, so that the next `additional` puts succeed if no other changing call stands between.
    /// What is held stays. Refused with `Memory` alone.
    pub fn reserve(&mut self, additional: usize) -> Result<(), Fault>
        ensures same { self.new.ranges ≡ self.old.ranges }
        ensures ok { OnOk result (additional ≤ self.new.room) }
        ensures room { self.old.room ≤ self.new.room }
        ensures succeeds { additional ≤ self.old.room → IsOk result }
        ensures memory { IfErr result (λ e. e ≡ Fault.Memory) }
    {
        self.items.reserve(additional)?;
        Ok(())
    }

    /// Puts a range deletion in its place, in any order of stamps: before the others of its stamp, so that the batch's
    /// last is the newest. Always adds one. Takes as many steps as there are held ones of greater stamps: the newest is
    /// added at the end. Refused with `Memory` alone, never where there is room, and then it comes back and all stay.
    #[tactic(auto, using(crate::proofs::RangesHeld::fall_put))]
    pub fn put(&mut self, range: RangeDeletion) -> Result<(), (Fault, RangeDeletion)>
        ensures ok { OnOk result (self.new.ranges ≡ put_range self.old.ranges range) }
        ensures held { OnOk result ((x : RangeDeletion) → Contains self.new.ranges x ↔ (Contains self.old.ranges x ⊎ (x ≡ range))) }
        ensures over { OnOk result ((name : List ℕ) (t : ℕ) → over_of self.new.ranges name t ≡ over_with self.old.ranges range name t) }
        ensures room { self.old.room ≤ self.new.room + (if is_ok result then 1 else 0) }
        ensures succeeds { 0 < self.old.room → IsOk result }
        ensures err { OnErr result (self.new.ranges ≡ self.old.ranges) }
        ensures back { IfErr result (λ e. e ≡ (Fault.Memory, range)) }
    {
        put_range_in(&mut self.items, range)
    }

    /// The newest range deletion that is seen by the time and has the name between its ends: that of the greatest stamp,
    /// and of this stamp the last in its batch. Linear in those that are held, the newest first, and takes no memory.
    #[tactic(auto, using(crate::proofs::RangesOver::over_is_greatest))]
    pub fn newest_over(&self, name: &Name, time: Time) -> Option<&RangeDeletion>
        ensures exact { option_copied result ≡ over_of self.now.ranges name.now time }
        ensures greatest { MatchOption (option_copied result) ((x : RangeDeletion) → Contains self.now.ranges x → is_over name.now time x ≡ false) (IsNewestOver self.now.ranges name.now time) }
    {
        newest_of_over(&self.items, name, time)
    }

    /// A walk over rising names, which tells the same of each as `newest_over`. Takes memory for the indices of those that are
    /// seen by the time, and as many steps as there are, each logarithmic. Refused with `Memory` alone. What is held stands
    /// by falling stamps, so that what the walk tells has the greatest.
    pub fn sweep(&self, alloc: Global, time: Time) -> Result<Sweep<'_>, Fault>
        ensures ok { IfOk result (λ sweep. (sweep.ranges ≡ self.now.ranges) × (sweep.time ≡ time)) }
        ensures ordered { RangesFall self.now.ranges }
        ensures memory { IfErr result (λ e. e ≡ Fault.Memory) }
    {
        Sweep::new(alloc, &self.items, time)
    }

    /// The range deletion at this place, if there is one.
    pub fn get(&self, place: usize) -> Option<&RangeDeletion>
        ensures { option_copied result ≡ slice_get self.now.ranges place }
    {
        range_at(&self.items, place)
    }

    /// Takes out the range deletion at this place, if there is one; all others stay. Takes as many steps as there are
    /// newer ones, and no memory.
    #[tactic(auto, using(crate::proofs::RangesHeld::fall_remove))]
    pub fn remove(&mut self, place: usize) -> Option<RangeDeletion>
        ensures removed { result ≡ slice_get self.old.ranges place }
        ensures left { self.new.ranges ≡ remove self.old.ranges place }
        ensures others { (x : RangeDeletion) → Contains self.old.ranges x ↔ (Contains self.new.ranges x ⊎ (result ≡ Some x)) }
        ensures room { self.new.room ≡ self.old.room + (if is_some result then 1 else 0) }
    {
        take_range_out(&mut self.items, place)
    }

    /// Drops the range deletions that are in force at no time from this one on: those for which some newer one of these
    /// deletions of the row has an EVT not above the greater of this time and their own EVT. A deletion of the row with
    /// the stamp of a range deletion is the older. Looks once at each range deletion, each time by halving the deletions
    /// of the row, and takes no memory.
    #[tactic(auto, using(crate::proofs::RangesKept::fall_kept, crate::proofs::RangesKept::in_force_kept))]
    pub fn keep_from(&mut self, deletions: &Chain, time: Time)
        ensures kept { self.new.ranges ≡ kept_ranges time deletions.now.versions self.old.ranges }
        ensures exact { (x : RangeDeletion) → Contains self.new.ranges x ↔ (Contains self.old.ranges x × (has_newer_by time deletions.now.versions x ≡ false)) }
        ensures in_force { (x : RangeDeletion) → Contains self.new.ranges x ↔ (Contains self.old.ranges x × IsInForceFrom time deletions.now.versions x) }
        ensures seen { (t : ℕ) → time ≤ t → in_force_at deletions.now.versions self.new.ranges t ≡ in_force_at deletions.now.versions self.old.ranges t }
        ensures room { self.new.room + length self.new.ranges ≡ self.old.room + length self.old.ranges }
    {
        deletions.is_ordered();
        keep_in_force(&mut self.items, deletions, time);
    }
}
