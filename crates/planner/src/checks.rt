//! Which batches and reads a store accepts.
ghost use Rattle.std.specs.Prelude.{◌≡◌};
ghost use Rattle.std.specs.List.{list_all};
ghost use Rattle.logical_time.specs.Fault.{IsRefusedFor};
ghost use Rattle.column_family.specs.Limits.{is_key};
ghost use Rattle.planner.specs.Checks.{batch_fault, changes_fault, change_fault, mutation_fault, read_fault};

use column_family::{Batch, Change, Key, Mutation, Schema};
use logical_time::Fault;
use slice::{Read, check_range};

/// How many changes a batch may have.
const MOST_CHANGES: usize = 4096;
/// How many keys a read may list.
const MOST_KEYS: usize = 256;

/// Whether the batch may be submitted to a store of this schema: refused with `EmptyBatch` for no change, then
/// `TooMany` for more than 4,096, and then for its changes in order, each through before the next: `UnknownFamily`,
/// `KeyLength`, `NameLength`, `ValueLength`, and for the ends of a deleted range `NameLength`, `RangeOrder`.
pub fn check_batch(schema: &Schema, batch: &Batch) -> Result<(), Fault>
    ensures { IsRefusedFor (batch_fault schema.now batch.now) result }
{
    let changes = batch.as_slice();
    if changes.is_empty() {
        return Err(Fault::EmptyBatch);
    }
    if changes.len() > MOST_CHANGES {
        return Err(Fault::TooMany);
    }
    check_changes(schema, changes)
}

fn check_changes(schema: &Schema, changes: &[Change]) -> Result<(), Fault>
    ensures { IsRefusedFor (changes_fault schema.now changes.now) result }
{
    for change in changes {
        check_change(schema, change)?;
    }
    Ok(())
}

fn check_change(schema: &Schema, change: &Change) -> Result<(), Fault>
    ensures { IsRefusedFor (change_fault schema.now change.now) result }
{
    if !schema.contains(&change.row.family) {
        return Err(Fault::UnknownFamily);
    }
    if !change.row.key.is_allowed() {
        return Err(Fault::KeyLength);
    }
    check_mutation(&change.mutation)
}

fn check_mutation(mutation: &Mutation) -> Result<(), Fault>
    ensures { IsRefusedFor (mutation_fault mutation.now) result }
{
    match mutation {
        Mutation::Insert { name, .. } | Mutation::DeleteColumn { name } if !name.is_allowed() =>
            Err(Fault::NameLength),
        Mutation::Insert { value, .. } if !value.is_allowed() => Err(Fault::ValueLength),
        Mutation::DeleteRange { start, finish } => check_range(start, finish, false),
        Mutation::Insert { .. } | Mutation::DeleteColumn { .. } | Mutation::DeleteRow => Ok(()),
    }
}

fn are_keys(keys: &[Key]) -> bool
    ensures { result ≡ list_all is_key keys.now }
{
    keys.iter().all(|key| key.is_allowed())
}

/// Whether the read may be submitted to a store of this schema: refused with `EmptyRead` for no key, then `TooMany` for
/// more than 256 as listed, `UnknownFamily`, `KeyLength` for a key in order, and then for its predicate: `TooMany`,
/// `NameLength`, `RangeOrder`.
#[inline]
pub fn check_read(schema: &Schema, read: &Read) -> Result<(), Fault>
    ensures { IsRefusedFor (read_fault schema.now read.now) result }
{
    let keys = read.keys.as_slice();
    if keys.is_empty() {
        return Err(Fault::EmptyRead);
    }
    if keys.len() > MOST_KEYS {
        return Err(Fault::TooMany);
    }
    if !schema.contains(&read.family) {
        return Err(Fault::UnknownFamily);
    }
    if !are_keys(keys) {
        return Err(Fault::KeyLength);
    }
    read.predicate.check()
}
