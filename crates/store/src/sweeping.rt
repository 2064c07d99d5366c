//! Which columns of a row no deletion of a range strikes, found by a walk over them.
ghost use Rattle.std.specs.Prelude.{◌≡◌, ◌++◌, Contains, IfOk, IfErr, filter, map, not, true};
ghost use Rattle.std.specs.Option.{option_copied};
ghost use Rattle.std.specs.List.{list_any};
ghost use Rattle.logical_time.specs.declared.fault.Fault.TheVariants as fault;
ghost use Rattle.versions.specs.declared.range.RangeDeletion.{RangeDeletion};
ghost use Rattle.versions.specs.Ranges.{RangesFall};
ghost use Rattle.store.specs.Part.{greatest_of};
ghost use Rattle.store.specs.Sight.{named};
ghost use Rattle.store.specs.Struck as struck;
ghost use Rattle.store.specs.Struck.{ranged, standing};
ghost use Rattle.store.specs.Sweeping as sweeping;
ghost use Rattle.store.specs.Sweeping.{IsTimeOf, newest_strikes};

use crate::row::RowChains;
use crate::sight::{Moment, Seen};
use crate::striking::{Standing, is_under};
use logical_time::{Fault, Time};
use std::alloc::{AllocError, Global};
use versions::{RangeDeletion, Ranges, Version};

// The last of the times from which these are seen.
fn last_evt(ranges: &[Standing]) -> Time
    ensures { result ≡ greatest_of (map (λ x. x.range.now.evt) ranges.now) }
{
    let mut last = Time::zero();
    for one in ranges {
        if last < one.range.evt {
            last = one.range.evt;
        }
    }
    last
}

// The time by which a walk looks at a row's deletions of ranges, of which these are seen at the moment.
fn walk_time(moment: &Moment, ranges: &[Standing]) -> Time
    requires { (x : RangeDeletion) → Contains (map ranged ranges.now) x → struck.is_range_seen moment.now x ≡ true }
    ensures { IsTimeOf moment.now (map ranged ranges.now) result }
{
    match moment {
        Moment::Now => last_evt(ranges),
        Moment::At(time) => *time,
    }
}

// Whether the newest deletion of a range over a column strikes its version.
fn does_strike(deletion: Option<&Version>, newest: Option<&RangeDeletion>, seen: &Seen) -> bool
    ensures { result ≡ sweeping.does_strike (option_copied deletion.entry) (option_copied newest.entry) (named seen.now) }
{
    match newest {
        None => false,
        Some(range) => seen.version.stamp < range.stamp && !is_under(deletion, range),
    }
}

// The columns of these that the newest of these deletions of ranges over each does not strike.
fn unstruck_by<'s>(
    alloc: Global,
    ranges: &'s Ranges,
    time: Time,
    deletion: Option<&Version>,
    seen: &[Seen<'s>],
) -> Result<Vec<Seen<'s>>, Fault>
    ensures ok { IfOk result (λ bare. bare.items ≡ filter (λ s. not (newest_strikes ranges.now.ranges time (option_copied deletion.entry) (named s))) seen.now) }
    ensures ordered { IfOk result (λ bare. RangesFall ranges.now.ranges) }
    ensures memory { IfErr result (λ e. e ≡ fault.Memory) }
{
    let mut walk = ranges.sweep(alloc, time)?;
    let mut bare = Vec::new(alloc);
    for one in seen {
        if !does_strike(deletion, walk.newest_over(one.name), one) {
            bare.push(*one)?;
        }
    }
    Ok(bare)
}

// All of these columns.
fn all_of<'s>(alloc: Global, seen: &[Seen<'s>]) -> Result<Vec<Seen<'s>>, AllocError>
    ensures { IfOk result (λ all. all.items ≡ seen.now) }
{
    seen.iter().copied().collect(alloc)
}

// The same of the deletions of ranges of a row.
fn unstruck_in<'s>(
    alloc: Global,
    row: &'s RowChains,
    time: Time,
    deletion: Option<&Version>,
    seen: &[Seen<'s>],
) -> Result<Vec<Seen<'s>>, Fault>
    ensures ok { IfOk result (λ bare. bare.items ≡ filter (λ s. not (newest_strikes row.now.ranges.ranges time (option_copied deletion.entry) (named s))) seen.now) }
    ensures ordered { IfOk result (λ bare. RangesFall row.now.ranges.ranges) }
    ensures memory { IfErr result (λ e. e ≡ fault.Memory) }
{
    match row.ranges() {
        Some(ranges) => unstruck_by(alloc, ranges, time, deletion, seen),
        None => Ok(all_of(alloc, seen)?),
    }
}

/// The columns of these, in name order, that no deletion of a range of the row strikes. Takes for `n` columns and `k` deletions
/// of ranges as many steps as `n + k`, each logarithmic in `k`.
pub(crate) fn unstruck<'s>(
    alloc: Global,
    row: &'s RowChains,
    moment: &Moment,
    deletion: Option<&Version>,
    ranges: &[Standing],
    seen: &[Seen<'s>],
) -> Result<Vec<Seen<'s>>, Fault>
    requires { map ranged ranges.now ≡ standing moment.now (option_copied deletion) row.now.ranges.ranges }
    ensures ok { IfOk result (λ bare. bare.items ≡ filter (λ s. not (list_any (λ x. struck.strikes x.range.now (named s)) ranges.now)) seen.now) }
    ensures memory { IfErr result (λ e. e ≡ fault.Memory) }
{
    let time = walk_time(moment, ranges);
    let bare = unstruck_in(alloc, row, time, deletion, seen)?;
    Ok(bare)
}

/// The same of two rows.
pub(crate) fn unstruck_in_both<'s>(
    alloc: Global,
    row: &'s RowChains,
    over: &'s RowChains,
    moment: &Moment,
    deletion: Option<&Version>,
    ranges: &[Standing],
    seen: &[Seen<'s>],
) -> Result<Vec<Seen<'s>>, Fault>
    requires { map ranged ranges.now ≡ standing moment.now (option_copied deletion) (row.now.ranges.ranges ++ over.now.ranges.ranges) }
    ensures ok { IfOk result (λ bare. bare.items ≡ filter (λ s. not (list_any (λ x. struck.strikes x.range.now (named s)) ranges.now)) seen.now) }
    ensures memory { IfErr result (λ e. e ≡ fault.Memory) }
{
    let time = walk_time(moment, ranges);
    let left = unstruck_in(alloc, row, time, deletion, seen)?;
    let bare = unstruck_in(alloc, over, time, deletion, &left)?;
    Ok(bare)
}
