//! The collection of a row's range deletions.
ghost use Rattle.std.specs.Prelude.{◌≡◌, ◌+◌, ◌≤◌, ℕ, Contains, length, false, ◌↔◌};
ghost use Rattle.versions.specs.declared.range.RangeDeletion.{RangeDeletion};
ghost use Rattle.versions.specs.Ranges.{IsInForceFrom, has_newer_by, in_force_at, kept_ranges};

use logical_time::Time;
use versions::{Chain, Ranges};

/// Drops the range deletions of a row for which some newer one of the deletions of the row has an EVT not above the greater
/// of this time and their own EVT, and no others: those that are in force at no time from this one on. It doesn't matter
/// whether the deletions of the row were collected before, up to this time or less. So whatever is in force at this time or
/// later stays so. Looks once at each range deletion, each time by halving the deletions of the row, and takes no memory.
pub fn collect_ranges(ranges: &mut Ranges, deletions: &Chain, time: Time)
    ensures exact { (x : RangeDeletion) → Contains ranges.new.ranges x ↔ (Contains ranges.old.ranges x × (has_newer_by time deletions.now.versions x ≡ false)) }
    ensures in_force { (x : RangeDeletion) → Contains ranges.new.ranges x ↔ (Contains ranges.old.ranges x × IsInForceFrom time deletions.now.versions x) }
    ensures seen { (t : ℕ) → time ≤ t → in_force_at deletions.now.versions ranges.new.ranges t ≡ in_force_at deletions.now.versions ranges.old.ranges t }
    ensures kept { ranges.new.ranges ≡ kept_ranges time deletions.now.versions ranges.old.ranges }
    ensures room { ranges.new.room + length ranges.new.ranges ≡ ranges.old.room + length ranges.old.ranges }
{
    ranges.keep_from(deletions, time);
}
