//! What the deletions of ranges that are seen of a row do to a read of it.
ghost use Rattle.std.specs.Prelude.{◌≡◌, ◌++◌, ◌∷◌, [], ◌&&◌, IfOk, IfErr, OnOk, filter, filter_map, map, max, not, option_map, option_to_list};
ghost use Rattle.std.specs.Option.{option_copied};
ghost use Rattle.std.specs.List.{list_any};
ghost use Rattle.std.specs.List.Sorted.{IsStrictlySortedBy};
ghost use Rattle.logical_time.specs.declared.fault.Fault.TheVariants as fault;
ghost use Rattle.logical_time.specs.Stamps.{writer_cmp};
ghost use Rattle.versions.specs.Ranges as ranges;
ghost use Rattle.store.specs.Stored.{name_cmp};
ghost use Rattle.store.specs.Sight.{AreAskedFor, HaveSameWriters, laid_over, named, sight_of, uncovered_writer};
ghost use Rattle.store.specs.Struck as struck;
ghost use Rattle.store.specs.Struck.{IsMadeUnder, IsPartUnder, ranged, ranges_over, ranges_seen, standing};

use crate::asked::Asked;
use crate::merging::{merged, newer_seen};
use crate::part::Part;
use crate::reading::{evt_of, part_of, part_over, reached, shown_columns, writers_of};
use crate::row::RowChains;
use crate::sight::{Moment, Seen, asked_columns, seen_deletion};
use crate::sweeping::{unstruck, unstruck_in_both};
use logical_time::{Fault, Time, Writer, Writers};
use slice::{Column, Columns, Predicate};
use std::alloc::{AllocError, Global};
use versions::{RangeDeletion, Ranges, Version};

/// A deletion of a range that is seen.
#[derive(Clone, Copy)]
pub(crate) struct Standing<'r> {
    /// The deletion.
    pub(crate) range: &'r RangeDeletion,
}

/// Whether the deletion that is seen of the row is newer.
pub(crate) fn is_under(deletion: Option<&Version>, range: &RangeDeletion) -> bool
    ensures { result ≡ ranges.is_under (option_copied deletion.entry) range.now }
{
    match deletion {
        None => false,
        Some(deletion) => range.stamp < deletion.stamp,
    }
}

// Whether a deletion of a range is seen at a moment.
fn is_range_seen(moment: &Moment, range: &RangeDeletion) -> bool
    ensures { result ≡ struck.is_range_seen moment.now range.now }
{
    match moment {
        Moment::Now => true,
        Moment::At(time) => range.evt <= *time,
    }
}

// Whether a deletion of a range is seen at a moment and newer than the deletion that is seen of the row.
fn is_standing(moment: &Moment, deletion: Option<&Version>, range: &RangeDeletion) -> bool
    ensures { result ≡ (struck.is_range_seen moment.now range.now && not (ranges.is_under (option_copied deletion.entry) range.now)) }
{
    is_range_seen(moment, range) && !is_under(deletion, range)
}

// Adds one, if it is seen at a moment and newer than the deletion that is seen of the row.
fn add_one<'r>(
    found: &mut Vec<Standing<'r>>,
    range: &'r RangeDeletion,
    moment: &Moment,
    deletion: Option<&Version>,
) -> Result<(), AllocError>
    ensures { OnOk result (map ranged found.new.items ≡ map ranged found.old.items ++ standing moment.now (option_copied deletion.entry) (range.now ∷ [])) }
{
    if is_standing(moment, deletion, range) {
        found.push(Standing { range })?;
    }
    Ok(())
}

// Adds those of these that are seen at a moment and newer than the deletion that is seen of the row.
fn add_standing<'r>(
    found: &mut Vec<Standing<'r>>,
    ranges: &'r Ranges,
    moment: &Moment,
    deletion: Option<&Version>,
) -> Result<(), AllocError>
    ensures { OnOk result (map ranged found.new.items ≡ map ranged found.old.items ++ standing moment.now (option_copied deletion.entry) ranges.now.ranges) }
{
    for place in 0..ranges.len() {
        if let Some(range) = ranges.get(place) {
            add_one(found, range, moment, deletion)?;
        }
    }
    Ok(())
}

// Adds those of a row.
fn add_those_of<'r>(
    found: &mut Vec<Standing<'r>>,
    row: &'r RowChains,
    moment: &Moment,
    deletion: Option<&Version>,
) -> Result<(), AllocError>
    ensures { OnOk result (map ranged found.new.items ≡ map ranged found.old.items ++ standing moment.now (option_copied deletion.entry) row.now.ranges.ranges) }
{
    match row.ranges() {
        Some(ranges) => add_standing(found, ranges, moment, deletion),
        None => Ok(()),
    }
}

// Since when all of these are seen that have an asked column.
fn evt_asked(predicate: &Asked, ranges: &[Standing]) -> Time
    ensures { result ≡ struck.evt_asked predicate.now (map ranged ranges.now) }
{
    let mut evt = Time::zero();
    for one in ranges {
        if evt < one.range.evt && predicate.asks_between(&one.range.start, &one.range.finish) {
            evt = one.range.evt;
        }
    }
    evt
}

// Adds the writers of those of these that a read met which returned these columns.
fn add_met(
    writers: &mut Vec<Writer>,
    predicate: &Asked,
    columns: &[Column],
    ranges: &[Standing],
) -> Result<(), AllocError>
    ensures { OnOk result (writers.new.items ≡ writers.old.items ++ struck.writers_met predicate.now columns.now (map ranged ranges.now)) }
{
    for one in ranges {
        if predicate.meets(columns, &one.range.start, &one.range.finish) {
            writers.push(one.range.writer)?;
        }
    }
    Ok(())
}

// The writers of the columns' versions that the deletion doesn't cover, of the deletion, and of the ranges that a read met
// which returned these columns, in order and each once.
fn writers_under(
    alloc: Global,
    predicate: &Asked,
    deletion: Option<&Version>,
    columns: &[Column],
    ranges: &[Standing],
    seen: &[Seen],
) -> Result<Writers, AllocError>
    ensures same { IfOk result (λ writers. HaveSameWriters writers ((filter_map (λ s. uncovered_writer (option_copied deletion.entry) (named s)) seen.now ++ option_to_list (option_map (λ v. v.what.writer) (option_copied deletion.entry))) ++ struck.writers_met predicate.now columns.now (map ranged ranges.now))) }
    ensures in_order { IfOk result (IsStrictlySortedBy writer_cmp) }
{
    let mut writers = writers_of(alloc, deletion, seen)?;
    add_met(&mut writers, predicate, columns, ranges)?;
    Writers::sorted(writers)
}

// The part that is made of these columns under this deletion and these deletions of ranges, where the columns are asked
// for and stand in name order, and of which no range strikes the bare ones.
fn made_under(
    alloc: Global,
    predicate: &Predicate,
    deletion: Option<&Version>,
    ranges: &[Standing],
    seen: &[Seen],
    bare: &[Seen],
) -> Result<Part, Fault>
    requires { bare.now ≡ filter (λ s. not (list_any (λ x. struck.strikes x.range.now (named s)) ranges.now)) seen.now }
    ensures ok { IfOk result (λ part. IsStrictlySortedBy name_cmp (map (λ s. s.name.now) seen.now) → AreAskedFor predicate.now (map named seen.now) → IsMadeUnder (option_copied deletion.entry) (map ranged ranges.now) (map named seen.now) predicate.now part) }
    ensures memory { IfErr result (λ e. e ≡ fault.Memory) }
{
    let asked = Asked::new(alloc, predicate)?;
    let found = shown_columns(alloc, predicate, deletion, bare)?;
    let came_to = reached(predicate, found.as_slice(), bare);
    let writers = writers_under(alloc, &asked, deletion, found.as_slice(), ranges, came_to)?;
    let evt = evt_of(deletion, seen).max(evt_asked(&asked, ranges));
    let columns = Columns::from_vec(alloc, found)?;
    Ok(Part {
        writers,
        evt,
        columns,
    })
}

/// What is seen of a row under its deletions of ranges. Where none of these is seen, as if there were none.
pub(crate) fn part_under(
    alloc: Global,
    row: &RowChains,
    predicate: &Predicate,
    moment: &Moment,
) -> Result<Part, Fault>
    ensures ok { IfOk result (IsPartUnder (sight_of moment.now row.now) (ranges_seen moment.now row.now) predicate.now) }
    ensures memory { IfErr result (λ e. e ≡ fault.Memory) }
{
    let deletion = seen_deletion(row, moment);
    let mut ranges = Vec::new(alloc);
    add_those_of(&mut ranges, row, moment, deletion)?;
    if ranges.is_empty() {
        return part_of(alloc, row, predicate, moment);
    }
    let seen = asked_columns(alloc, row, predicate, moment)?;
    let bare = unstruck(alloc, row, moment, deletion, &ranges, &seen)?;
    made_under(alloc, predicate, deletion, &ranges, &seen, &bare)
}

/// What is seen of a row where another is laid over it, under the deletions of ranges of both.
pub(crate) fn part_under_both<'s>(
    alloc: Global,
    row: &'s RowChains,
    over: &'s RowChains,
    predicate: &Predicate,
    moment: &Moment,
) -> Result<Part, Fault>
    ensures ok { IfOk result (IsPartUnder (laid_over (sight_of moment.now row.now) (sight_of moment.now over.now)) (ranges_over moment.now row.now over.now) predicate.now) }
    ensures memory { IfErr result (λ e. e ≡ fault.Memory) }
{
    let deletion = newer_seen(seen_deletion(row, moment), seen_deletion(over, moment));
    let mut ranges = Vec::new(alloc);
    add_those_of(&mut ranges, row, moment, deletion)?;
    add_those_of(&mut ranges, over, moment, deletion)?;
    if ranges.is_empty() {
        return part_over(alloc, row, over, predicate, moment);
    }
    let below = asked_columns(alloc, row, predicate, moment)?;
    let above = asked_columns(alloc, over, predicate, moment)?;
    let seen = merged(alloc, &below, &above)?;
    let bare = unstruck_in_both(alloc, row, over, moment, deletion, &ranges, &seen)?;
    made_under(alloc, predicate, deletion, &ranges, &seen, &bare)
}
