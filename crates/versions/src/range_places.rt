//! The places of range deletions, the oldest first.
ghost use Rattle.std.specs.Prelude.{◌≡◌, ◌+◌, ◌≤◌, is_some, is_ok, IsOk, OnOk, OnErr, IfErr, if◌then◌else◌, remove, reverse, slice_get};
ghost use Rattle.std.specs.Option.{option_copied};
ghost use Rattle.std.specs.Vec.{vec_len, vec_capacity};
ghost use Rattle.versions.specs.Ranges as ranges;
ghost use Rattle.versions.specs.Ranges.{put_range, kept_ranges, over_of};
ghost use Rattle.versions.specs.RangePlaces.{IsRangeIndex};

use crate::chain::Chain;
use crate::range::{RangeDeletion, is_over};
use column_family::Name;
use logical_time::{Fault, Time};

// Where a range deletion goes: behind those whose stamps aren't greater. Looks at those of greater stamps and one more.
fn index_of(ranges: &[RangeDeletion], range: &RangeDeletion) -> usize
    ensures { IsRangeIndex range.now ranges.now result }
{
    let mut i = ranges.len();
    while i > 0 && range.stamp < ranges[i - 1].stamp {
        i -= 1;
    }
    i
}

/// Puts a range deletion in its place.
pub(crate) fn put_range_in(
    ranges: &mut Vec<RangeDeletion>,
    range: RangeDeletion,
) -> Result<(), (Fault, RangeDeletion)>
    ensures ok { OnOk result (reverse ranges.new.items ≡ put_range (reverse ranges.old.items) range) }
    ensures len { vec_len ranges.new ≤ vec_len ranges.old + (if is_ok result then 1 else 0) }
    ensures capacity { vec_capacity ranges.old ≤ vec_capacity ranges.new }
    ensures succeeds { vec_len ranges.old + 1 ≤ vec_capacity ranges.old → IsOk result }
    ensures err { OnErr result (ranges.new.items ≡ ranges.old.items) }
    ensures back { IfErr result (λ e. e ≡ (Fault.Memory, range)) }
{
    let i = index_of(ranges, &range);
    match ranges.insert(i, range) {
        Ok(()) => Ok(()),
        Err(refused) => Err((Fault::Memory, refused.value)),
    }
}

/// The range deletion at this place, counted from the newest, if there is one.
pub(crate) fn range_at(ranges: &[RangeDeletion], place: usize) -> Option<&RangeDeletion>
    ensures { option_copied result ≡ slice_get (reverse ranges.now) place }
{
    let count = ranges.len();
    if place < count {
        Some(&ranges[count - 1 - place])
    } else {
        None
    }
}

/// Takes out the range deletion at this place, if there is one.
pub(crate) fn take_range_out(ranges: &mut Vec<RangeDeletion>, place: usize) -> Option<RangeDeletion>
    ensures removed { result ≡ slice_get (reverse ranges.old.items) place }
    ensures left { reverse ranges.new.items ≡ remove (reverse ranges.old.items) place }
    ensures length { vec_len ranges.new + (if is_some result then 1 else 0) ≡ vec_len ranges.old }
    ensures fits { vec_len ranges.old ≤ vec_capacity ranges.old }
    ensures capacity { vec_capacity ranges.new ≡ vec_capacity ranges.old }
{
    let count = ranges.len();
    if place < count {
        Some(ranges.remove(count - 1 - place))
    } else {
        None
    }
}

/// The newest that is over the name at the time.
pub(crate) fn newest_of_over<'a>(
    ranges: &'a [RangeDeletion],
    name: &Name,
    time: Time,
) -> Option<&'a RangeDeletion>
    ensures { option_copied result ≡ over_of (reverse ranges.now) name.now time }
{
    let mut i = ranges.len();
    while i > 0 {
        i -= 1;
        let range = &ranges[i];
        if is_over(range, name, time) {
            return Some(range);
        }
    }
    None
}

// Whether a deletion of the row that is newer than the range deletion is seen from the time on, or as soon as it is.
fn is_hidden(range: &RangeDeletion, deletions: &Chain, time: Time) -> bool
    ensures { result ≡ ranges.hidden time deletions.now.versions range.now }
{
    match deletions.at(time.max(range.evt)) {
        Some(newest) => range.stamp < newest.stamp,
        None => false,
    }
}

/// Keeps the range deletions that are in force at some time from this one on.
pub(crate) fn keep_in_force(ranges: &mut Vec<RangeDeletion>, deletions: &Chain, time: Time)
    ensures kept { reverse ranges.new.items ≡ kept_ranges time deletions.now.versions (reverse ranges.old.items) }
    ensures capacity { vec_capacity ranges.new ≡ vec_capacity ranges.old }
    ensures fits { vec_len ranges.old ≤ vec_capacity ranges.old }
    ensures fewer { vec_len ranges.new ≤ vec_len ranges.old }
{
    ranges.retain(|range| !is_hidden(range, deletions, time));
}
