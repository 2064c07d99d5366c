//! Room for the deletions of ranges that a batch leaves.
ghost use Rattle.std.specs.Prelude.{◌≡◌, ◌≤◌, ◌<◌, ◌+◌, ◌^◌, ℕ, None, length, true, OnOk, IfOk, IfErr, IfSome, IsOk, if◌then◌else◌};
ghost use Rattle.std.specs.List.{list_any};
ghost use Rattle.column_family.specs.Normal.{ranges_of};
ghost use Rattle.std.specs.Map.{lookup};
ghost use Rattle.std.specs.Ordering.{is_eq};
ghost use Rattle.logical_time.specs.declared.fault.Fault.TheVariants as fault;
ghost use Rattle.column_family.specs.declared.batch.Row.{Row};
ghost use Rattle.column_family.specs.Location as location;
ghost use Rattle.column_family.specs.Places.{row_cmp};
ghost use Rattle.store.specs.Counts.{AreCounts, count_at};
ghost use Rattle.store.specs.Stored.{Place, chain_at, ranges_in, HasRoomForRanges, HaveKeptRangeRoom, HaveSameRanges};

use crate::row::RowChains;
use column_family::{Change, Mutation, Row};
use logical_time::Fault;
use std::alloc::Global;
use std::collections::BTreeMap;

// Whether the mutation deletes a range of columns.
fn deletes_range(mutation: &Mutation) -> bool
    ensures { result ≡ location.deletes_range mutation.now }
{
    match mutation {
        Mutation::Insert { .. } | Mutation::DeleteColumn { .. } | Mutation::DeleteRow => false,
        Mutation::DeleteRange { .. } => true,
    }
}

// How many of these changes delete a range of the row's columns.
fn count_ranges(changes: &[Change], row: &Row) -> usize
    ensures { result ≡ length (ranges_of row.now changes.now) }
{
    let mut count = 0;
    for change in changes {
        if *row == change.row && deletes_range(&change.mutation) {
            count += 1;
        }
    }
    count
}

// Whether one of the changes deletes a range of columns.
fn delete_ranges(changes: &[Change]) -> bool
    ensures { result ≡ list_any (λ c. location.deletes_range c.mutation) changes.now }
{
    changes.iter().any(|change| deletes_range(&change.mutation))
}

// Counts the row once more.
fn count_once(counts: &mut BTreeMap<Row, usize>, row: &Row) -> Result<(), Fault>
    requires { count_at counts.old row.now + 1 < 2 ^ 64 }
    ensures ok { OnOk result ((r : Row) → count_at counts.new r ≡ (if location.is_same_row r row.now then count_at counts.old r + 1 else count_at counts.old r)) }
    ensures memory { IfErr result (λ e. e ≡ fault.Memory) }
{
    let count = counts.get(row).copied().unwrap_or(0);
    counts.insert(row.clone()?, count + 1)?;
    Ok(())
}

// How many of these changes delete a range of each row. In the order of n log n for n of them.
fn count_each(alloc: Global, changes: &[Change]) -> Result<BTreeMap<Row, usize>, Fault>
    ensures exact { IfOk result (λ counts. AreCounts changes.now counts) }
    ensures memory { IfErr result (λ e. e ≡ fault.Memory) }
{
    let mut counts = BTreeMap::new(alloc);
    for change in changes {
        if deletes_range(&change.mutation) {
            count_once(&mut counts, &change.row)?;
        }
    }
    Ok(counts)
}

// How many of these changes delete a range of the row's columns, from the counts of them where these are known.
fn count_of(counts: Option<&BTreeMap<Row, usize>>, changes: &[Change], row: &Row) -> usize
    requires { IfSome counts (λ held. AreCounts changes.now held.now) }
    ensures { result ≡ length (ranges_of row.now changes.now) }
{
    match counts {
        Some(counts) => counts.get(row).copied().unwrap_or(0),
        None => count_ranges(changes, row),
    }
}

// Gives the rows one more, with room for so many deletions of ranges.
fn add_row(
    alloc: Global,
    rows: &mut BTreeMap<Row, RowChains>,
    row: &Row,
    count: usize,
) -> Result<(), Fault>
    requires { lookup (λ k. is_eq (row_cmp row.now k)) rows.old.entries ≡ None }
    ensures places { (r : Row) (p : Place) → (chain_at rows.new.entries r p).versions ≡ (chain_at rows.old.entries r p).versions }
    ensures place_room { (r : Row) (p : Place) → (chain_at rows.old.entries r p).room ≤ (chain_at rows.new.entries r p).room }
    ensures ranges { HaveSameRanges rows.old.entries rows.new.entries }
    ensures room { HaveKeptRangeRoom rows.old.entries rows.new.entries }
    ensures ok { OnOk result (count ≤ (ranges_in rows.new.entries row.now).room) }
    ensures memory { IfErr result (λ e. e ≡ fault.Memory) }
{
    let mut held = RowChains::new(alloc);
    held.reserve_ranges(alloc, count)?;
    rows.insert(row.clone()?, held)?;
    Ok(())
}

// Makes room for so many deletions of ranges of the row's columns.
fn reserve_in_row(
    alloc: Global,
    rows: &mut BTreeMap<Row, RowChains>,
    row: &Row,
    count: usize,
) -> Result<(), Fault>
    ensures places { (r : Row) (p : Place) → (chain_at rows.new.entries r p).versions ≡ (chain_at rows.old.entries r p).versions }
    ensures place_room { (r : Row) (p : Place) → (chain_at rows.old.entries r p).room ≤ (chain_at rows.new.entries r p).room }
    ensures ranges { HaveSameRanges rows.old.entries rows.new.entries }
    ensures room { HaveKeptRangeRoom rows.old.entries rows.new.entries }
    ensures ok { OnOk result (count ≤ (ranges_in rows.new.entries row.now).room) }
    ensures succeeds { count ≤ (ranges_in rows.old.entries row.now).room → IsOk result }
    ensures memory { IfErr result (λ e. e ≡ fault.Memory) }
{
    if count == 0 {
        return Ok(());
    }
    match rows.get_mut(row) {
        Some(held) => held.reserve_ranges(alloc, count),
        None => add_row(alloc, rows, row, count),
    }
}

// If the change deletes a range, makes room for all deletions of ranges of its row that are among these changes.
fn reserve_for(
    alloc: Global,
    rows: &mut BTreeMap<Row, RowChains>,
    change: &Change,
    changes: &[Change],
    counts: Option<&BTreeMap<Row, usize>>,
) -> Result<(), Fault>
    requires { IfSome counts (λ held. AreCounts changes.now held.now) }
    ensures places { (r : Row) (p : Place) → (chain_at rows.new.entries r p).versions ≡ (chain_at rows.old.entries r p).versions }
    ensures place_room { (r : Row) (p : Place) → (chain_at rows.old.entries r p).room ≤ (chain_at rows.new.entries r p).room }
    ensures ranges { HaveSameRanges rows.old.entries rows.new.entries }
    ensures room { HaveKeptRangeRoom rows.old.entries rows.new.entries }
    ensures ok { OnOk result (location.deletes_range change.now.mutation ≡ true → length (ranges_of change.now.row changes.now) ≤ (ranges_in rows.new.entries change.now.row).room) }
    ensures succeeds { HasRoomForRanges rows.old.entries changes.now → IsOk result }
    ensures memory { IfErr result (λ e. e ≡ fault.Memory) }
{
    if !deletes_range(&change.mutation) {
        return Ok(());
    }
    let count = count_of(counts, changes, &change.row);
    reserve_in_row(alloc, rows, &change.row, count)
}

// Makes room for the deletions of ranges that are among these changes, change by change.
fn reserve_each(
    alloc: Global,
    rows: &mut BTreeMap<Row, RowChains>,
    changes: &[Change],
    counts: Option<&BTreeMap<Row, usize>>,
) -> Result<(), Fault>
    requires { IfSome counts (λ held. AreCounts changes.now held.now) }
    ensures places { (r : Row) (p : Place) → (chain_at rows.new.entries r p).versions ≡ (chain_at rows.old.entries r p).versions }
    ensures place_room { (r : Row) (p : Place) → (chain_at rows.old.entries r p).room ≤ (chain_at rows.new.entries r p).room }
    ensures ranges { HaveSameRanges rows.old.entries rows.new.entries }
    ensures room { HaveKeptRangeRoom rows.old.entries rows.new.entries }
    ensures ok { OnOk result (HasRoomForRanges rows.new.entries changes.now) }
    ensures succeeds { HasRoomForRanges rows.old.entries changes.now → IsOk result }
    ensures memory { IfErr result (λ e. e ≡ fault.Memory) }
{
    for change in changes {
        reserve_for(alloc, rows, change, changes, counts)?;
    }
    Ok(())
}

/// Makes room for the deletions of ranges that are among these changes. In the order of n log n for n changes; where there
/// is no memory to count them by row, of n for each that deletes a range. Linear where none does.
pub(crate) fn reserve_ranges(
    alloc: Global,
    rows: &mut BTreeMap<Row, RowChains>,
    changes: &[Change],
) -> Result<(), Fault>
    ensures places { (r : Row) (p : Place) → (chain_at rows.new.entries r p).versions ≡ (chain_at rows.old.entries r p).versions }
    ensures place_room { (r : Row) (p : Place) → (chain_at rows.old.entries r p).room ≤ (chain_at rows.new.entries r p).room }
    ensures ranges { HaveSameRanges rows.old.entries rows.new.entries }
    ensures room { HaveKeptRangeRoom rows.old.entries rows.new.entries }
    ensures ok { OnOk result (HasRoomForRanges rows.new.entries changes.now) }
    ensures succeeds { HasRoomForRanges rows.old.entries changes.now → IsOk result }
    ensures memory { IfErr result (λ e. e ≡ fault.Memory) }
{
    if !delete_ranges(changes) {
        return Ok(());
    }
    match count_each(alloc, changes) {
        Ok(counts) => reserve_each(alloc, rows, changes, Some(&counts)),
        // where there is room already the changes aren't refused for want of memory to count them
        Err(_) => reserve_each(alloc, rows, changes, None),
    }
}
