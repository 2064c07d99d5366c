//! The marks of each row.
ghost use Rattle.std.specs.Prelude.{◌≡◌, if◌then◌else◌, [], IfOk, OnOk, OnErr, IfErr, Some, None, true, ◌↔◌};
ghost use Rattle.logical_time.specs.declared.fault.Fault.TheVariants as fault;
ghost use Rattle.logical_time.specs.Stamps.{TxnValue, txn_cmp};
ghost use Rattle.column_family.specs.declared.batch.Row.{Row};
ghost use Rattle.std.specs.List.{Contains};
ghost use Rattle.std.specs.List.Sorted.{IsStrictlySortedBy};
ghost use Rattle.pending.specs.Marks.{time_at, marks_of, is_same_mark, IsLeast, IsBelow};
ghost use Rattle.pending.specs.Marked.{touches, AreCleared, IsCleared, IsMarkedBelow, AreBelow};

use crate::row_marks::RowMarks;
use column_family::{Change, Row};
use logical_time::{Fault, Time, TxnId};
use std::alloc::Global;
use std::collections::BTreeMap;

/// Gives a row without a mark its first.
fn add_row(
    alloc: Global,
    rows: &mut BTreeMap<Row, RowMarks>,
    row: &Row,
    txn: TxnId,
    time: Time,
) -> Result<(), Fault>
    requires { marks_of rows.old.entries row.now ≡ [] }
    ensures ok { OnOk result ((r : Row) (t : TxnValue) → time_at rows.new.entries r t ≡ (if is_same_mark row.now txn r t then Some time else time_at rows.old.entries r t)) }
    ensures err { OnErr result (rows.new.entries ≡ rows.old.entries) }
    ensures memory { IfErr result (λ e. e ≡ fault.Memory) }
{
    let mut marks = RowMarks::new();
    marks.mark(alloc, txn, time)?;
    rows.insert(row.clone()?, marks)?;
    Ok(())
}

/// Gives a row a mark of the transaction, in place of its mark there if it has one.
pub(crate) fn mark_row(
    alloc: Global,
    rows: &mut BTreeMap<Row, RowMarks>,
    row: &Row,
    txn: TxnId,
    time: Time,
) -> Result<(), Fault>
    ensures ok { OnOk result ((r : Row) (t : TxnValue) → time_at rows.new.entries r t ≡ (if is_same_mark row.now txn r t then Some time else time_at rows.old.entries r t)) }
    ensures err { OnErr result ((r : Row) (t : TxnValue) → time_at rows.new.entries r t ≡ time_at rows.old.entries r t) }
    ensures memory { IfErr result (λ e. e ≡ fault.Memory) }
{
    match rows.get_mut(row) {
        Some(marks) => marks.mark(alloc, txn, time),
        None => add_row(alloc, rows, row, txn, time),
    }
}

/// Takes the mark of the transaction from a row, which stays, for the next one.
#[inline]
pub(crate) fn clear_row(rows: &mut BTreeMap<Row, RowMarks>, row: &Row, txn: TxnId)
    ensures { (r : Row) (t : TxnValue) → time_at rows.new.entries r t ≡ (if is_same_mark row.now txn r t then None else time_at rows.old.entries r t) }
{
    if let Some(marks) = rows.get_mut(row) {
        marks.clear(txn);
    }
}

/// Whether the first of the changes is of the row.
pub(crate) fn is_first(row: &Row, changes: &[Change]) -> bool
    ensures { result ≡ true → touches changes.now row.now ≡ true }
{
    match changes.first() {
        Some(change) => *row == change.row,
        None => false,
    }
}

/// Takes away the marks of the transaction on the rows that these changes touch.
pub(crate) fn clear_rows(rows: &mut BTreeMap<Row, RowMarks>, changes: &[Change], txn: TxnId)
    ensures { AreCleared rows.old.entries rows.new.entries changes.now txn }
{
    let mut rest = changes;
    while let Some((change, later)) = rest.split_first() {
        if !is_first(&change.row, later) {
            clear_row(rows, &change.row, txn);
        }
        rest = later;
    }
}

/// Takes away the marks of the transaction on all rows, which stay, for the next ones.
pub(crate) fn clear_txn(rows: &mut BTreeMap<Row, RowMarks>, txn: TxnId)
    ensures { IsCleared rows.old.entries rows.new.entries txn }
{
    rows.retain(|_, marks| {
        marks.clear(txn);
        true
    });
}

/// The least time of a mark in the row.
pub(crate) fn least_in(rows: &BTreeMap<Row, RowMarks>, row: &Row) -> Option<Time>
    ensures { IsLeast (time_at rows.now.entries row.now) result }
{
    match rows.get(row) {
        Some(marks) => marks.least(),
        None => None,
    }
}

/// The transactions with marks in the row strictly below the time, in order.
pub(crate) fn below_in(
    alloc: Global,
    rows: &BTreeMap<Row, RowMarks>,
    row: &Row,
    time: Time,
) -> Result<Vec<TxnId>, Fault>
    ensures ok { IfOk result (λ txns. IsBelow (time_at rows.now.entries row.now) time txns.items) }
    ensures memory { IfErr result (λ e. e ≡ fault.Memory) }
{
    match rows.get(row) {
        Some(marks) => marks.below(alloc, time),
        None => Ok(Vec::new(alloc)),
    }
}

/// The transactions with marks in these rows strictly below the time, a row after the other.
fn below_each(
    alloc: Global,
    rows: &BTreeMap<Row, RowMarks>,
    asked: &[Row],
    time: Time,
) -> Result<Vec<TxnId>, Fault>
    ensures ok { IfOk result (λ txns. (t : TxnValue) → Contains txns.items t ↔ IsMarkedBelow rows.now.entries asked.now time t) }
    ensures memory { IfErr result (λ e. e ≡ fault.Memory) }
{
    let mut txns = Vec::new(alloc);
    for row in asked {
        let mut more = below_in(alloc, rows, row, time)?;
        txns.append(&mut more)?;
    }
    Ok(txns)
}

/// The transactions in the order of their numbers, each once.
fn in_order(mut txns: Vec<TxnId>) -> Vec<TxnId>
    ensures same { (t : TxnValue) → Contains result.items t ↔ Contains txns.items t }
    ensures in_order { IsStrictlySortedBy txn_cmp result.items }
{
    txns.sort_unstable();
    txns.dedup();
    txns
}

/// The transactions with marks in one of these rows strictly below the time, in order.
pub(crate) fn below_rows(
    alloc: Global,
    rows: &BTreeMap<Row, RowMarks>,
    asked: &[Row],
    time: Time,
) -> Result<Vec<TxnId>, Fault>
    ensures ok { IfOk result (λ txns. AreBelow rows.now.entries asked.now time txns.items) }
    ensures memory { IfErr result (λ e. e ≡ fault.Memory) }
{
    Ok(in_order(below_each(alloc, rows, asked, time)?))
}
