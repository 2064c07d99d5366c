//! The live columns of a row, by a history.
ghost use Rattle.std.specs.Prelude.{◌≡◌, ◌++◌, IfOk, IfErr, OnOk, option_copied, filter_map, flat_map};
ghost use Rattle.column_family.specs.History.{newest, value_of};
ghost use Rattle.column_family.specs.History as history_words;
ghost use Rattle.slice.specs.Live as live;

use crate::column::{Column, Columns};
use crate::ordering::set_of;
use crate::predicate::Names;
use column_family::{Change, Committed, Mutation, Name, Row, Value, newest_touching};
use logical_time::Fault;
use std::alloc::{AllocError, Global};

/// The live columns of a row in the table of a whole history, in name order. Looks for the newest mutation of
/// each column that was ever inserted or deleted, one after the other. Refused with `Memory` alone.
pub fn live_columns(alloc: Global, history: &[Committed], row: &Row) -> Result<Columns, Fault>
    ensures ok { IfOk result (λ columns. columns ≡ live.live_columns history.now row.now) }
    ensures memory { IfErr result (λ e. e ≡ Fault.Memory) }
{
    let names = columns_changed(alloc, history, row)?;
    live_among(alloc, history, row, names.as_slice())
}

/// The names of the columns of a row that a history ever inserts or deletes, in name order, each once. Takes
/// `n log n` steps for `n` changes. Refused with `Memory` alone.
pub fn columns_changed(alloc: Global, history: &[Committed], row: &Row) -> Result<Names, Fault>
    ensures ok { IfOk result (λ names. names ≡ live.columns_changed history.now row.now) }
    ensures memory { IfErr result (λ e. e ≡ Fault.Memory) }
{
    let set = set_of(alloc, &names_changed(alloc, history, row)?)?;
    Ok(Names::from_vec(alloc, set.into_iter().collect(alloc)?)?)
}

// Those of these columns that are live, in the order of the names.
fn live_among(
    alloc: Global,
    history: &[Committed],
    row: &Row,
    names: &[Name],
) -> Result<Columns, Fault>
    ensures ok { IfOk result (λ columns. columns ≡ filter_map (live.live_column history.now row.now) names.now) }
    ensures memory { IfErr result (λ e. e ≡ Fault.Memory) }
{
    let mut columns = Vec::new(alloc);
    for name in names {
        if let Some(column) = live_column(history, row, name)? {
            columns.push(column)?;
        }
    }
    Ok(Columns::from_vec(alloc, columns)?)
}

// The names of the columns that a history inserts or deletes, in its order.
fn names_changed(alloc: Global, history: &[Committed], row: &Row) -> Result<Vec<Name>, Fault>
    ensures ok { IfOk result (λ names. names.items ≡ flat_map (λ c. filter_map (live.column_changed row.now) c.batch) history.now) }
    ensures memory { IfErr result (λ e. e ≡ Fault.Memory) }
{
    let mut names = Vec::new(alloc);
    for entry in history {
        add_changed(&mut names, entry.batch.as_slice(), row)?;
    }
    Ok(names)
}

// Adds the names of the columns that these changes insert or delete.
fn add_changed(names: &mut Vec<Name>, changes: &[Change], row: &Row) -> Result<(), Fault>
    ensures ok { OnOk result (names.new.items ≡ names.old.items ++ filter_map (live.column_changed row.now) changes.now) }
    ensures memory { IfErr result (λ e. e ≡ Fault.Memory) }
{
    for change in changes {
        if let Some(name) = column_changed(row, change) {
            names.push(name.clone()?)?;
        }
    }
    Ok(())
}

// The column of this row that a change inserts or deletes.
fn column_changed<'c>(row: &Row, change: &'c Change) -> Option<&'c Name>
    ensures { option_copied result ≡ live.column_changed row.now change.now }
{
    if change.row == *row {
        column_named(&change.mutation)
    } else {
        None
    }
}

// The column that a mutation inserts or deletes.
fn column_named(mutation: &Mutation) -> Option<&Name>
    ensures { option_copied result ≡ live.column_named mutation.now }
{
    match mutation {
        Mutation::Insert { name, .. } | Mutation::DeleteColumn { name } => Some(name),
        Mutation::DeleteRow | Mutation::DeleteRange { .. } => None,
    }
}

// The column of this name, where it is live.
fn live_column(history: &[Committed], row: &Row, name: &Name) -> Result<Option<Column>, AllocError>
    ensures { IfOk result (λ column. column ≡ live.live_column history.now row.now name.now) }
{
    match live_value(history, row, name) {
        Some(value) => Ok(Some(Column {
            name: name.clone()?,
            value: value.clone()?,
        })),
        None => Ok(None),
    }
}

// The value of the column of this name, where it is live.
fn live_value<'h>(history: &'h [Committed], row: &Row, name: &Name) -> Option<&'h Value>
    ensures { option_copied result ≡ value_of (newest history.now (record { row = row.now; name = name.now })) }
{
    match newest_touching(history, row, name) {
        Some(found) => inserted(found.mutation),
        None => None,
    }
}

// The value that a mutation inserts.
fn inserted(mutation: &Mutation) -> Option<&Value>
    ensures { option_copied result ≡ history_words.inserted mutation.now }
{
    match mutation {
        Mutation::Insert { value, .. } => Some(value),
        _ => None,
    }
}
