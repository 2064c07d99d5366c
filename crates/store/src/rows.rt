//! Rows of chains, by key.
ghost use Rattle.std.specs.Prelude.{◌≡◌, ◌+◌, ◌≤◌, ◌<◌, ◌⊎◌, ◌∷◌, [], Some, None, length, map, true, false, ◌&&◌, if◌then◌else◌, OnOk, IfErr, IsOk};
ghost use Rattle.std.specs.List.{sum_by};
ghost use Rattle.std.specs.Map.{lookup};
ghost use Rattle.std.specs.Ordering.{is_eq};
ghost use Rattle.logical_time.specs.declared.fault.Fault.TheVariants as fault;
ghost use Rattle.column_family.specs.declared.batch.Row.{Row};
ghost use Rattle.column_family.specs.Places.{row_cmp};
ghost use Rattle.column_family.specs.Location.{deletes_range, is_same_row};
ghost use Rattle.versions.specs.Chain.{put_of, kept_from};
ghost use Rattle.versions.specs.Newest.{has_stamp};
ghost use Rattle.store.specs.Crowded.{AreListed, is_crowded_in};
ghost use Rattle.store.specs.Holdings.{counted, versions_of};
ghost use Rattle.store.specs.Stored as kept;
ghost use Rattle.column_family.specs.Normal.{ranges_of};
ghost use Rattle.versions.specs.Ranges as in_ranges;
ghost use Rattle.versions.specs.Ranges.{kept_ranges};
ghost use Rattle.store.specs.Stored.{Place, chain_at, ranges_in, is_at, is_of_place, HasRoomInRows, HasRoomAtPlaces, HaveKeptRoom, HaveKeptRangeRoom, HaveSameVersions, HaveSameRanges, HavePut, HavePutRanges, ranges_written, put_all_ranges};

use crate::crowded::Crowded;
use crate::origin::Origin;
use crate::room::reserve_ranges;
use crate::row::RowChains;
use column_family::{Change, Mutation, Name, Row};
use logical_time::{Fault, Time};
use std::alloc::Global;
use std::collections::BTreeMap;

// Puts what a mutation of a row leaves into the chain of its place, and answers whether that came to hold more than one
// version.
fn put_mutation(
    rows: &mut BTreeMap<Row, RowChains>,
    row: &Row,
    mutation: Mutation,
    origin: &Origin,
) -> bool
    requires { (p : Place) → is_of_place p mutation ≡ true → (0 < (chain_at rows.old.entries row.now p).room) ⊎ (has_stamp (chain_at rows.old.entries row.now p).versions origin.now.stamp ≡ true) }
    ensures versions { (r : Row) (p : Place) → (chain_at rows.new.entries r p).versions ≡ (if is_same_row r row.now && is_of_place p mutation then put_of (chain_at rows.old.entries r p).versions (kept.version_of origin.now mutation) else (chain_at rows.old.entries r p).versions) }
    ensures room { (r : Row) (p : Place) → (chain_at rows.old.entries r p).room ≤ (chain_at rows.new.entries r p).room + (if is_same_row r row.now && is_of_place p mutation then 1 else 0) }
    ensures more { result ≡ false → (p : Place) → is_of_place p mutation ≡ true → length (chain_at rows.old.entries row.now p).versions ≤ 1 → length (chain_at rows.new.entries row.now p).versions ≤ 1 }
    ensures ranges { (r : Row) → ranges_in rows.new.entries r ≡ ranges_in rows.old.entries r }
{
    match rows.get_mut(row) {
        Some(held) => held.put(mutation, origin),
        None => false,
    }
}

// Puts what a change leaves into the chain of its place, and lists its row if that came to hold more than one version: a
// row of which a chain held more before is listed. There is room in the list.
fn put_at_place(
    rows: &mut BTreeMap<Row, RowChains>,
    crowded: &mut Crowded,
    row: Row,
    mutation: Mutation,
    origin: &Origin,
)
    requires places { (r : Row) (p : Place) → (is_same_row r row && is_of_place p mutation) ≡ true → (0 < (chain_at rows.old.entries r p).room) ⊎ (has_stamp (chain_at rows.old.entries r p).versions origin.now.stamp ≡ true) }
    requires listing { 0 < crowded.old.room }
    ensures versions { (r : Row) (p : Place) → (chain_at rows.new.entries r p).versions ≡ (if is_same_row r row && is_of_place p mutation then put_of (chain_at rows.old.entries r p).versions (kept.version_of origin.now mutation) else (chain_at rows.old.entries r p).versions) }
    ensures room { (r : Row) (p : Place) → (chain_at rows.old.entries r p).room ≤ (chain_at rows.new.entries r p).room + (if is_same_row r row && is_of_place p mutation then 1 else 0) }
    ensures ranges { (r : Row) → ranges_in rows.new.entries r ≡ ranges_in rows.old.entries r }
    ensures listed { AreListed crowded.old.rows rows.old.entries → AreListed crowded.new.rows rows.new.entries }
    ensures listing { crowded.old.room ≤ crowded.new.room + 1 }
{
    if put_mutation(rows, &row, mutation, origin) {
        crowded.add(row);
    }
}

// Puts a deletion of a range into its row.
fn put_range(
    rows: &mut BTreeMap<Row, RowChains>,
    row: &Row,
    start: Name,
    finish: Name,
    origin: &Origin,
)
    requires { 0 < (ranges_in rows.old.entries row.now).room }
    ensures places { (r : Row) (p : Place) → chain_at rows.new.entries r p ≡ chain_at rows.old.entries r p }
    ensures put { (r : Row) → (ranges_in rows.new.entries r).ranges ≡ (if is_same_row r row.now then in_ranges.put_range (ranges_in rows.old.entries r).ranges (record { stamp = origin.now.stamp; evt = origin.now.evt; start = start; finish = finish; writer = origin.now.writer }) else (ranges_in rows.old.entries r).ranges) }
    ensures room { (r : Row) → (ranges_in rows.old.entries r).room ≤ (ranges_in rows.new.entries r).room + (if is_same_row r row.now then 1 else 0) }
{
    if let Some(held) = rows.get_mut(row) {
        held.put_range(start, finish, origin);
    }
}

// Puts a deletion of a range into its row, and lists that.
fn put_and_list(
    rows: &mut BTreeMap<Row, RowChains>,
    crowded: &mut Crowded,
    row: Row,
    ends: (Name, Name),
    origin: &Origin,
)
    requires ranges { 0 < (ranges_in rows.old.entries row).room }
    requires listing { 0 < crowded.old.room }
    ensures places { (r : Row) (p : Place) → chain_at rows.new.entries r p ≡ chain_at rows.old.entries r p }
    ensures put { (r : Row) → (ranges_in rows.new.entries r).ranges ≡ (if is_same_row r row then in_ranges.put_range (ranges_in rows.old.entries r).ranges (record { stamp = origin.now.stamp; evt = origin.now.evt; start = ends.0; finish = ends.1; writer = origin.now.writer }) else (ranges_in rows.old.entries r).ranges) }
    ensures room { (r : Row) → (ranges_in rows.old.entries r).room ≤ (ranges_in rows.new.entries r).room + (if is_same_row r row then 1 else 0) }
    ensures listed { AreListed crowded.old.rows rows.old.entries → AreListed crowded.new.rows rows.new.entries }
    ensures listing { crowded.old.room ≤ crowded.new.room + 1 }
{
    let (start, finish) = ends;
    put_range(rows, &row, start, finish, origin);
    crowded.add(row);
}

// Puts what a change leaves, and lists its row if that is crowded then.
fn put_change(
    rows: &mut BTreeMap<Row, RowChains>,
    crowded: &mut Crowded,
    change: Change,
    origin: &Origin,
)
    requires places { (r : Row) (p : Place) → is_at r p change ≡ true → (0 < (chain_at rows.old.entries r p).room) ⊎ (has_stamp (chain_at rows.old.entries r p).versions origin.now.stamp ≡ true) }
    requires ranges { deletes_range change.mutation ≡ true → 0 < (ranges_in rows.old.entries change.row).room }
    requires listing { 0 < crowded.old.room }
    ensures versions { (r : Row) (p : Place) → (chain_at rows.new.entries r p).versions ≡ (if is_at r p change then put_of (chain_at rows.old.entries r p).versions (kept.version_of origin.now change.mutation) else (chain_at rows.old.entries r p).versions) }
    ensures room { (r : Row) (p : Place) → (chain_at rows.old.entries r p).room ≤ (chain_at rows.new.entries r p).room + (if is_at r p change then 1 else 0) }
    ensures held { (r : Row) → (ranges_in rows.new.entries r).ranges ≡ put_all_ranges (ranges_in rows.old.entries r).ranges (ranges_written origin.now r (change ∷ [])) }
    ensures range_room { (r : Row) → (ranges_in rows.old.entries r).room ≤ (ranges_in rows.new.entries r).room + length (ranges_of r (change ∷ [])) }
    ensures listed { AreListed crowded.old.rows rows.old.entries → AreListed crowded.new.rows rows.new.entries }
    ensures listing { crowded.old.room ≤ crowded.new.room + 1 }
{
    let Change { row, mutation } = change;
    match mutation {
        Mutation::DeleteRange { start, finish } => {
            put_and_list(rows, crowded, row, (start, finish), origin);
        }
        mutation => put_at_place(rows, crowded, row, mutation, origin),
    }
}

// Gives the rows one more, with room for what its first change leaves.
fn add_row(alloc: Global, rows: &mut BTreeMap<Row, RowChains>, change: &Change) -> Result<(), Fault>
    requires { lookup (λ k. is_eq (row_cmp change.now.row k)) rows.old.entries ≡ None }
    ensures versions { HaveSameVersions rows.old.entries rows.new.entries }
    ensures room { (r : Row) (p : Place) → (chain_at rows.old.entries r p).room ≤ (chain_at rows.new.entries r p).room }
    ensures ok { OnOk result ((r : Row) (p : Place) → is_at r p change.now ≡ true → 0 < (chain_at rows.new.entries r p).room) }
    ensures ranges { (r : Row) → ranges_in rows.new.entries r ≡ ranges_in rows.old.entries r }
    ensures memory { IfErr result (λ e. e ≡ fault.Memory) }
{
    let mut held = RowChains::new(alloc);
    held.reserve(alloc, &change.mutation)?;
    rows.insert(change.row.clone()?, held)?;
    Ok(())
}

// Whether the mutation leaves a version at a place: a deletion of a range stands by itself.
fn leaves_version(mutation: &Mutation) -> bool
    ensures { result ≡ kept.leaves_version mutation.now }
{
    match mutation {
        Mutation::Insert { .. } | Mutation::DeleteColumn { .. } | Mutation::DeleteRow => true,
        Mutation::DeleteRange { .. } => false,
    }
}

// Makes room for what a change leaves at its place.
fn reserve_change(
    alloc: Global,
    rows: &mut BTreeMap<Row, RowChains>,
    change: &Change,
) -> Result<(), Fault>
    ensures versions { HaveSameVersions rows.old.entries rows.new.entries }
    ensures room { (r : Row) (p : Place) → (chain_at rows.old.entries r p).room ≤ (chain_at rows.new.entries r p).room }
    ensures ok { OnOk result ((r : Row) (p : Place) → is_at r p change.now ≡ true → 0 < (chain_at rows.new.entries r p).room) }
    ensures succeeds { ((r : Row) (p : Place) → is_at r p change.now ≡ true → 0 < (chain_at rows.old.entries r p).room) → IsOk result }
    ensures ranges { (r : Row) → ranges_in rows.new.entries r ≡ ranges_in rows.old.entries r }
    ensures memory { IfErr result (λ e. e ≡ fault.Memory) }
{
    if !leaves_version(&change.mutation) {
        return Ok(());
    }
    match rows.get_mut(&change.row) {
        Some(held) => held.reserve(alloc, &change.mutation),
        None => add_row(alloc, rows, change),
    }
}

// Makes room for what these changes leave at their places.
fn reserve_places(
    alloc: Global,
    rows: &mut BTreeMap<Row, RowChains>,
    changes: &[Change],
) -> Result<(), Fault>
    ensures versions { HaveSameVersions rows.old.entries rows.new.entries }
    ensures room { HaveKeptRoom rows.old.entries rows.new.entries }
    ensures ok { OnOk result (HasRoomAtPlaces rows.new.entries changes.now) }
    ensures succeeds { HasRoomAtPlaces rows.old.entries changes.now → IsOk result }
    ensures ranges { (r : Row) → ranges_in rows.new.entries r ≡ ranges_in rows.old.entries r }
    ensures memory { IfErr result (λ e. e ≡ fault.Memory) }
{
    for change in changes {
        reserve_change(alloc, rows, change)?;
    }
    Ok(())
}

/// Makes room for what these changes leave.
pub(crate) fn reserve_changes(
    alloc: Global,
    rows: &mut BTreeMap<Row, RowChains>,
    changes: &[Change],
) -> Result<(), Fault>
    ensures versions { HaveSameVersions rows.old.entries rows.new.entries }
    ensures ranges { HaveSameRanges rows.old.entries rows.new.entries }
    ensures room { HaveKeptRoom rows.old.entries rows.new.entries }
    ensures range_room { HaveKeptRangeRoom rows.old.entries rows.new.entries }
    ensures ok { OnOk result (HasRoomInRows rows.new.entries changes.now) }
    ensures succeeds { HasRoomInRows rows.old.entries changes.now → IsOk result }
    ensures memory { IfErr result (λ e. e ≡ fault.Memory) }
{
    reserve_places(alloc, rows, changes)?;
    reserve_ranges(alloc, rows, changes)
}

/// Puts what these changes leave, for which there is room, into the chains of their places, and lists the rows that
/// are crowded then.
pub(crate) fn put_changes(
    rows: &mut BTreeMap<Row, RowChains>,
    crowded: &mut Crowded,
    changes: Vec<Change>,
    origin: &Origin,
)
    requires room { HasRoomInRows rows.old.entries changes.items }
    requires listing { length changes.items ≤ crowded.old.room }
    ensures put { HavePut origin.now changes.items rows.old.entries rows.new.entries }
    ensures ranges { HavePutRanges origin.now changes.items rows.old.entries rows.new.entries }
    ensures listed { AreListed crowded.old.rows rows.old.entries → AreListed crowded.new.rows rows.new.entries }
{
    for change in changes {
        put_change(rows, crowded, change, origin);
    }
}

/// Whether a chain of the row holds more than one version, or the row a deletion of a range.
pub(crate) fn is_crowded(rows: &BTreeMap<Row, RowChains>, row: &Row) -> bool
    ensures { result ≡ is_crowded_in rows.now.entries row.now }
{
    match rows.get(row) {
        Some(held) => held.is_crowded(),
        None => false,
    }
}

/// How many versions the chains of these rows hold. Linear in the rows and in their columns.
pub(crate) fn versions_in(rows: &BTreeMap<Row, RowChains>) -> u64
    ensures { result ≡ counted (sum_by versions_of (map (λ e. e.1) rows.now.entries)) }
{
    let mut sum = 0u64;
    for row in rows.values() {
        sum = sum.saturating_add(row.versions());
    }
    sum
}

/// Drops the versions of one row that are the newest of their chain at no time from this one on, and the deletions of
/// ranges that are in force at none. Linear in these.
pub(crate) fn collect_row(rows: &mut BTreeMap<Row, RowChains>, row: &Row, time: Time)
    ensures ranges { (r : Row) → (ranges_in rows.new.entries r).ranges ≡ (if is_eq (row_cmp row.now r) then kept_ranges time (chain_at rows.old.entries r None).versions (ranges_in rows.old.entries r).ranges else (ranges_in rows.old.entries r).ranges) }
    ensures versions { (r : Row) (p : Place) → (chain_at rows.new.entries r p).versions ≡ (if is_eq (row_cmp row.now r) then kept_from time (chain_at rows.old.entries r p).versions else (chain_at rows.old.entries r p).versions) }
{
    if let Some(held) = rows.get_mut(row) {
        held.collect(time);
    }
}
