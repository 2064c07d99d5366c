//! The normal form of a batch: in the order of its rows, what no later change undoes.
//!
//! Changes are taken from the oldest to the newest, and kept by their place in the normal form. A newer change takes
//! away what it undoes: a deletion of the row all of the row, one of a range the columns between its ends, and
//! any other what stands at its own place.
ghost use Rattle.std.specs.Prelude.{◌≡◌, [], length, unwrap_or, true, IfOk, OnOk, IfErr};
ghost use Rattle.std.specs.List.{list_any};
ghost use Rattle.std.specs.BTreeMap.{get, values};
ghost use Rattle.logical_time.specs.declared.fault.Fault.TheVariants as fault;
ghost use Rattle.column_family.specs.declared.batch.Row.{Row};
ghost use Rattle.column_family.specs.declared.batch.Mutation.TheVariants.{DeleteRow, DeleteRange};
ghost use Rattle.column_family.specs.Location.{is_same_row};
ghost use Rattle.column_family.specs.Normal.{IsNormal, IsInOrderOf, StandsFor, changes_before, ranges_left, ranges_of};
ghost use Rattle.column_family.specs.Places as spec;

use crate::batch::{Batch, Change, Mutation, Row};
use crate::byte_strings::Name;
use crate::places::{Place, RowPart, remove_between};
use logical_time::Fault;
use std::alloc::{AllocError, Global};
use std::collections::BTreeMap;

/// So many changes are compared with one another, row by row, before they are put at places.
const FEW: usize = 8;

/// Where the first change of each row stands.
fn first_places(alloc: Global, changes: &[Change]) -> Result<BTreeMap<Row, usize>, Fault>
    ensures exact { IfOk result (λ first. (r : Row) → unwrap_or (get spec.row_cmp first r) (length changes.now) ≡ changes_before changes.now r) }
    ensures memory { IfErr result (λ e. e ≡ fault.Memory) }
{
    let mut first = BTreeMap::new(alloc);
    let mut rest = changes;
    while let Some((last, earlier)) = rest.split_last() {
        first.insert(last.row.clone()?, earlier.len())?;
        rest = earlier;
    }
    Ok(first)
}

/// The part of its row that a mutation concerns, which stands here in the batch.
fn part_of(index: usize, mutation: &Mutation) -> Result<RowPart, AllocError>
    ensures { IfOk result (λ part. part ≡ spec.part_of index mutation.now) }
{
    match mutation {
        Mutation::Insert { name, .. } => Ok(RowPart::Column(name.clone()?)),
        Mutation::DeleteColumn { name } => Ok(RowPart::Column(name.clone()?)),
        Mutation::DeleteRow => Ok(RowPart::Whole),
        Mutation::DeleteRange { .. } => Ok(RowPart::Range(index)),
    }
}

/// The last part of a row that a range with this finish has.
fn last_part(finish: &Name) -> Result<RowPart, AllocError>
    ensures { IfOk result (λ part. part ≡ spec.last_part finish.now) }
{
    if finish.as_slice().is_empty() {
        Ok(RowPart::End)
    } else {
        Ok(RowPart::Column(finish.clone()?))
    }
}

/// Removes all that is kept of a row, as a newer deletion of it does.
fn remove_row(kept: &mut BTreeMap<Place, Change>, row: usize) -> Result<(), AllocError>
    ensures { OnOk result (kept.new.entries ≡ spec.after row DeleteRow kept.old.entries) }
{
    let low = Place {
        row,
        part: RowPart::Whole,
    };
    let high = Place {
        row,
        part: RowPart::End,
    };
    remove_between(kept, &low, &high)
}

/// Removes what is kept of the columns of a row between two ends, as a newer deletion of this range does.
fn remove_range(
    kept: &mut BTreeMap<Place, Change>,
    row: usize,
    start: &Name,
    finish: &Name,
) -> Result<(), AllocError>
    ensures { OnOk result (kept.new.entries ≡ spec.after row (DeleteRange start.now finish.now) kept.old.entries) }
{
    let low = Place {
        row,
        part: RowPart::Column(start.clone()?),
    };
    let high = Place {
        row,
        part: last_part(finish)?,
    };
    remove_between(kept, &low, &high)
}

/// Removes what is kept of a row that a newer mutation of it undoes, what stands at its own place excepted.
fn remove_undone(
    kept: &mut BTreeMap<Place, Change>,
    row: usize,
    mutation: &Mutation,
) -> Result<(), AllocError>
    ensures { OnOk result (kept.new.entries ≡ spec.after row mutation.now kept.old.entries) }
{
    match mutation {
        Mutation::DeleteRow => remove_row(kept, row),
        Mutation::DeleteRange { start, finish } => remove_range(kept, row, start, finish),
        Mutation::Insert { .. } => Ok(()),
        Mutation::DeleteColumn { .. } => Ok(()),
    }
}

/// Keeps a newer change of the row, which stands here in the batch, in place of what it undoes.
fn keep(
    kept: &mut BTreeMap<Place, Change>,
    row: usize,
    index: usize,
    change: &Change,
) -> Result<(), Fault>
    ensures ok { OnOk result (kept.new.entries ≡ spec.keep row index kept.old.entries change.now) }
    ensures memory { IfErr result (λ e. e ≡ fault.Memory) }
{
    remove_undone(kept, row, &change.mutation)?;
    let part = part_of(index, &change.mutation)?;
    drop(kept.insert(Place { row, part }, change.copied()?)?);
    Ok(())
}

/// What is kept of the changes, by place.
fn keep_all(alloc: Global, changes: &[Change]) -> Result<BTreeMap<Place, Change>, Fault>
    ensures exact { IfOk result (λ kept. kept.entries ≡ spec.keep_all (changes_before changes.now) 0 [] changes.now) }
    ensures memory { IfErr result (λ e. e ≡ fault.Memory) }
{
    let first = first_places(alloc, changes)?;
    let mut kept = BTreeMap::new(alloc);
    for (index, change) in changes.iter().enumerate() {
        let row = first.get(&change.row).copied().unwrap_or(changes.len());
        keep(&mut kept, row, index, change)?;
    }
    Ok(kept)
}

/// Whether one of the changes is of the row.
fn is_in(row: &Row, changes: &[Change]) -> bool
    ensures { result ≡ list_any (λ c. is_same_row row.now c.row) changes.now }
{
    changes.iter().any(|change| *row == change.row)
}

/// Whether each of the changes is in a row of its own.
fn are_apart(changes: &[Change]) -> bool
    ensures { result ≡ spec.are_apart changes.now }
{
    let mut rest = changes;
    while let [first, others @ ..] = rest {
        if is_in(&first.row, others) {
            return false;
        }
        rest = others;
    }
    true
}

/// Whether the changes are their own normal form, as far as few comparisons show it.
fn are_seen_normal(changes: &[Change]) -> bool
    ensures { result ≡ true → spec.normal_of changes.now ≡ changes.now }
{
    changes.len() <= FEW && are_apart(changes)
}

/// The kept changes, in the order of their places.
fn kept_changes(alloc: Global, batch: &Batch) -> Result<Batch, Fault>
    ensures exact { IfOk result (λ kept. kept ≡ spec.normal_of batch.now) }
    ensures memory { IfErr result (λ e. e ≡ fault.Memory) }
{
    if are_seen_normal(batch.as_slice()) {
        return Ok(batch.clone()?);
    }
    let kept = keep_all(alloc, batch.as_slice())?;
    let changes: Vec<Change> = kept.into_values().collect(alloc)?;
    Ok(Batch::from_changes(changes))
}

/// The normal form of a batch: rows in the order in which they first occur, and of each row its last deletion, then
/// the deletions of ranges after it in their order, and then the newest mutation of each column that no later one of
/// these touches, in name order. It stands for the batch: in no history does it change what is read or what a read
/// rests on. In the order of m log m for m changes. Its one error is `Memory`.
#[tactic(auto, using(crate::proofs::Order::kept_stands, crate::proofs::RowsKept::kept_rows, crate::proofs::RangesKept::kept_ranges))]
pub fn normal(alloc: Global, batch: &Batch) -> Result<Batch, Fault>
    ensures exact { IfOk result (λ kept. kept ≡ spec.normal_of batch.now) }
    ensures form { IfOk result (λ kept. IsNormal kept) }
    ensures order { IfOk result (λ kept. IsInOrderOf batch.now kept) }
    ensures rows { IfOk result (λ kept. (r : Row) → list_any (λ c. is_same_row r c.row) kept ≡ list_any (λ c. is_same_row r c.row) batch.now) }
    ensures ranges { IfOk result (λ kept. (r : Row) → ranges_of r kept ≡ ranges_left r batch.now) }
    ensures stands_for { IfOk result (λ kept. StandsFor kept batch.now) }
    ensures memory { IfErr result (λ e. e ≡ fault.Memory) }
{
    kept_changes(alloc, batch)
}
