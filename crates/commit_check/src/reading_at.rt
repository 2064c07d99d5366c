//! Rows at a time.
ghost use Rattle.std.specs.Prelude.{◌≡◌, ◌≤◌, ◌++◌, [], ◌∷◌, IfOk, IfErr, map};
ghost use Rattle.std.specs.Option.{option_copied};
ghost use Rattle.logical_time.specs.declared.fault.Fault.TheVariants as fault;
ghost use Rattle.column_family.specs.Normal.{IsNormal};
ghost use Rattle.store.specs.Keeps.{Keeps, IsNewStamp};
ghost use Rattle.messages.specs.Shard.{ShardState};
ghost use Rattle.messages.specs.Rows.{row_at};
ghost use Rattle.messages.specs.Reads.{at_time};
ghost use Rattle.commit_check.specs.Coming.{MayCome, after};
ghost use Rattle.commit_check.specs.Found.{IsFoundAt};

use column_family::{Batch, Key};
use logical_time::{Fault, Stamp, Time, Writer};
use messages::{AtTime, RowAt, RowsAt};
use slice::Read;
use std::alloc::Global;
use store::{Part, Store};

/// A part that isn't applied yet, with what it is going to be applied with.
#[derive(Drop)]
pub(crate) struct ComingPart<'b> {
    /// Its transaction, with its coordinator.
    writer: Writer,
    /// What it writes.
    batch: &'b Batch,
    /// Its commit time in this data centre.
    commit: Time,
    /// Its stamp.
    stamp: Stamp,
}

// What the store answers of the row of a key at a time that isn't below its horizon.
fn found_at(
    store: &Store,
    coming: Option<&ComingPart>,
    time: Time,
    read: &Read,
    key: &Key,
) -> Result<Part, Fault>
    requires { store.now.low ≤ time }
    ensures ok { IfOk result (IsFoundAt store.now (option_copied coming.entry) time read.now key.now) }
    ensures memory { IfErr result (λ e. e ≡ fault.Memory) }
{
    let row = read.row_of(key)?;
    match coming {
        None => store.read_at(&row, &read.predicate, time),
        Some(part) => store.read_with(
            part.writer,
            part.batch,
            part.commit,
            part.stamp,
            &row,
            &read.predicate,
            time,
        ),
    }
}

// The row of a key at a time that isn't below the horizon.
fn one_at(
    store: &Store,
    coming: Option<&ComingPart>,
    time: Time,
    read: &Read,
    key: &Key,
) -> Result<RowAt, Fault>
    requires { store.now.low ≤ time }
    ensures ok { (a : ShardState) → Keeps store.now a.applied → MayCome (option_copied coming.entry) a.applied → IfOk result (λ row. row ≡ row_at time (after (option_copied coming.entry) a) read.now key.now) }
    ensures memory { IfErr result (λ e. e ≡ fault.Memory) }
{
    let part = found_at(store, coming, time, read, key)?;
    Ok(RowAt {
        key: key.clone()?,
        columns: part.columns,
        writers: part.writers,
    })
}

// The rows at a time that isn't below the horizon, in the order in which they are asked.
fn rows_at(
    alloc: Global,
    store: &Store,
    coming: Option<&ComingPart>,
    time: Time,
    read: &Read,
) -> Result<Vec<RowAt>, Fault>
    requires { store.now.low ≤ time }
    ensures ok { (a : ShardState) → Keeps store.now a.applied → MayCome (option_copied coming.entry) a.applied → IfOk result (λ rows. rows.items ≡ map (row_at time (after (option_copied coming.entry) a) read.now) read.now.keys) }
    ensures memory { IfErr result (λ e. e ≡ fault.Memory) }
{
    let mut rows = Vec::with_capacity(alloc, read.keys.as_slice().len())?;
    for key in read.keys.as_slice() {
        rows.push(one_at(store, coming, time, read, key)?)?;
    }
    Ok(rows)
}

// The answer to a read at a time.
fn answer(
    alloc: Global,
    store: &Store,
    coming: Option<&ComingPart>,
    time: Time,
    read: &Read,
) -> Result<AtTime, Fault>
    ensures ok { (a : ShardState) → Keeps store.now a.applied → a.low ≡ store.now.low → MayCome (option_copied coming.entry) a.applied → IfOk result (λ answer. answer ≡ at_time (after (option_copied coming.entry) a) time read.now) }
    ensures memory { IfErr result (λ e. e ≡ fault.Memory) }
{
    if time < store.low() {
        return Ok(AtTime::Collected);
    }
    let rows = rows_at(alloc, store, coming, time, read)?;
    Ok(AtTime::Rows(RowsAt::from_vec(alloc, rows)?))
}

/// What a shard with this store answers to a read at a time: the asked rows as they are then, in the order in which
/// they are asked, repeats included, or that the versions of that time are collected. Refused with `Memory` alone. For
/// each key it costs what the store's `read_at` costs.
pub fn answer_at(alloc: Global, store: &Store, time: Time, read: &Read) -> Result<AtTime, Fault>
    ensures ok { (a : ShardState) → Keeps store.now a.applied → a.low ≡ store.now.low → IfOk result (λ answer. answer ≡ at_time a time read.now) }
    ensures memory { IfErr result (λ e. e ≡ fault.Memory) }
{
    answer(alloc, store, None, time, read)
}

/// What a shard with this store would answer to a read at a time once a part of this writer is applied, with this commit
/// time and this stamp, if the part is in normal form and its stamp is new; so a read that waits for the part can be
/// answered before anything changes. Refused with `Memory` alone. For each key it costs what the store's `read_with`
/// costs.
pub fn answer_with(
    alloc: Global,
    store: &Store,
    writer: Writer,
    batch: &Batch,
    commit: Time,
    stamp: Stamp,
    time: Time,
    read: &Read,
) -> Result<AtTime, Fault>
    ensures ok { (a : ShardState) → Keeps store.now a.applied → a.low ≡ store.now.low → IsNormal batch.now → IsNewStamp stamp a.applied → IfOk result (λ answer. answer ≡ at_time (record a { applied = a.applied ++ record { part = record { writer = writer; batch = batch.now }; commit = commit; stamp = stamp } ∷ [] }) time read.now) }
    ensures memory { IfErr result (λ e. e ≡ fault.Memory) }
{
    let coming = ComingPart {
        writer,
        batch,
        commit,
        stamp,
    };
    answer(alloc, store, Some(&coming), time, read)
}
