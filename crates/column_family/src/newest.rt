//! The newest mutations in a history.
ghost use Rattle.std.specs.Prelude.{◌≡◌, IfOk, IfErr, option_copied, option_map, reverse, nat_le};
ghost use Rattle.std.specs.List.{find};
ghost use Rattle.column_family.specs.Location as location;
ghost use Rattle.column_family.specs.History as defined;
ghost use Rattle.column_family.specs.Newest.{seen, passes};

use crate::batch::{Change, Committed, Mutation, Row};
use crate::byte_strings::Name;
use logical_time::{Fault, Time};
use std::alloc::{AllocError, Global};

/// The newest of some mutations in a history.
#[derive(Clone, Copy)]
pub struct NewestMutation<'h> {
    /// The batch in which it was committed, with its stamp and its commit time.
    pub entry: &'h Committed,
    /// The mutation.
    pub mutation: &'h Mutation,
}

/// Of the mutations that touch the column of this name in the row, the newest: that of the greatest stamp, inside
/// one batch the last, and of two batches with one stamp that of the first in the history. Looks at each change.
pub fn newest_touching<'h>(
    history: &'h [Committed],
    row: &Row,
    name: &Name,
) -> Option<NewestMutation<'h>>
    ensures { option_map seen result ≡ defined.newest history.now (record { row = row.now; name = name.now }) }
{
    newest_of(history, &Test::Touches { row, name })
}

/// The newest insertion or deletion of the column of this name in the row. Looks at each change.
pub fn newest_column_change<'h>(
    history: &'h [Committed],
    row: &Row,
    name: &Name,
) -> Option<NewestMutation<'h>>
    ensures { option_map seen result ≡ defined.newest_of (location.is_column_change (record { row = row.now; name = name.now })) history.now }
{
    newest_of(history, &Test::ChangesColumn { row, name })
}

/// The newest deletion of the row. Looks at each change.
pub fn newest_row_deletion<'h>(history: &'h [Committed], row: &Row) -> Option<NewestMutation<'h>>
    ensures { option_map seen result ≡ defined.newest_of (location.is_row_deletion row.now) history.now }
{
    newest_of(history, &Test::DeletesRow { row })
}

/// What is committed at or before the time, in the order of the history. Copies each batch. Refused with
/// `Memory` alone.
pub fn up_to(alloc: Global, history: &[Committed], time: Time) -> Result<Vec<Committed>, Fault>
    ensures ok { IfOk result (λ kept. kept.items ≡ defined.up_to time history.now) }
    ensures memory { IfErr result (λ e. e ≡ Fault.Memory) }
{
    let mut kept = Vec::new(alloc);
    for entry in history {
        if is_committed(entry, time) {
            kept.push(copy_of(entry)?)?;
        }
    }
    Ok(kept)
}

// Whether the entry is committed at or before the time.
fn is_committed(entry: &Committed, time: Time) -> bool
    ensures { result ≡ nat_le entry.now.commit time }
{
    entry.commit <= time
}

// A copy of the entry.
fn copy_of(entry: &Committed) -> Result<Committed, AllocError>
    ensures { IfOk result (λ copy. copy ≡ entry.now) }
{
    entry.clone()
}

// Which changes are looked for.
#[derive(Clone, Copy)]
enum Test<'r> {
    // Those that touch the column of this name in the row.
    Touches { row: &'r Row, name: &'r Name },
    // Those that insert or delete it.
    ChangesColumn { row: &'r Row, name: &'r Name },
    // Those that delete the row.
    DeletesRow { row: &'r Row },
}

impl Test<'_> {
    // Whether the change is one of them.
    fn passes(&self, change: &Change) -> bool
        ensures { result ≡ passes self.now change.now }
    {
        match self {
            Test::Touches { row, name } => {
                change.row == **row && touches_name(&change.mutation, name)
            }
            Test::ChangesColumn { row, name } => {
                change.row == **row && changes_name(&change.mutation, name)
            }
            Test::DeletesRow { row } => change.row == **row && deletes_row(&change.mutation),
        }
    }
}

// Whether the mutation touches the column of this name.
fn touches_name(mutation: &Mutation, name: &Name) -> bool
    ensures { result ≡ location.touches_name mutation.now name.now }
{
    match mutation {
        Mutation::Insert { name: changed, .. } | Mutation::DeleteColumn { name: changed } => {
            changed == name
        }
        Mutation::DeleteRow => true,
        Mutation::DeleteRange { start, finish } => name.is_between(start, finish),
    }
}

// Whether the mutation inserts or deletes the column of this name.
fn changes_name(mutation: &Mutation, name: &Name) -> bool
    ensures { result ≡ location.changes_name mutation.now name.now }
{
    match mutation {
        Mutation::Insert { name: changed, .. } | Mutation::DeleteColumn { name: changed } => {
            changed == name
        }
        Mutation::DeleteRow | Mutation::DeleteRange { .. } => false,
    }
}

// Whether the mutation deletes its row.
fn deletes_row(mutation: &Mutation) -> bool
    ensures { result ≡ location.deletes_row mutation.now }
{
    matches!(mutation, Mutation::DeleteRow)
}

// The last change that passes the test.
fn last_passing<'h>(changes: &'h [Change], test: &Test) -> Option<&'h Change>
    ensures { option_copied result ≡ find (passes test.now) (reverse changes.now) }
{
    changes.iter().rev().find(|change| test.passes(change))
}

// Of the changes of a batch that pass the test, the last.
#[tactic(auto, using(crate::proofs::NewestFold::last_is_some, crate::proofs::NewestFold::last_is_none))]
fn last_of<'h>(changes: &'h [Change], test: &Test) -> Option<&'h Mutation>
    ensures { option_copied result ≡ defined.last_of (passes test.now) changes.now }
{
    match last_passing(changes, test) {
        Some(change) => Some(&change.mutation),
        None => None,
    }
}

// Of the changes of a history that pass the test, the newest.
#[tactic(auto, using(crate::proofs::NewestFold::newest_before_none, crate::proofs::NewestFold::newest_before_step))]
fn newest_of<'h>(history: &'h [Committed], test: &Test) -> Option<NewestMutation<'h>>
    ensures { option_map seen result ≡ defined.newest_of (passes test.now) history.now }
{
    let mut newest = None;
    for entry in history.iter().rev() {
        newest = newer_of(last_in(entry, test), newest);
    }
    newest
}

// Of the changes of one batch that pass the test, the newest.
fn last_in<'h>(entry: &'h Committed, test: &Test) -> Option<NewestMutation<'h>>
    ensures { option_map seen result ≡ option_map (defined.stamped entry.now) (defined.last_of (passes test.now) entry.now.batch) }
{
    match last_of(entry.batch.as_slice(), test) {
        Some(mutation) => Some(NewestMutation { entry, mutation }),
        None => None,
    }
}

// The newer of both, and the first where their stamps are the same.
fn newer_of<'h>(
    first: Option<NewestMutation<'h>>,
    second: Option<NewestMutation<'h>>,
) -> Option<NewestMutation<'h>>
    ensures { option_map seen result ≡ defined.newer_of (option_map seen first.entry) (option_map seen second.entry) }
{
    match (first, second) {
        (Some(a), Some(b)) if a.entry.stamp < b.entry.stamp => Some(b),
        (Some(a), _) => Some(a),
        (None, b) => b,
    }
}
