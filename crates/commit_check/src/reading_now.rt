//! Rows by the newest versions.
ghost use Rattle.std.specs.Prelude.{◌≡◌, IfOk, IfErr, map};
ghost use Rattle.logical_time.specs.declared.fault.Fault.TheVariants as fault;
ghost use Rattle.store.specs.Keeps.{Keeps};
ghost use Rattle.pending.specs.Marks.{time_at};
ghost use Rattle.messages.specs.Shard.{ShardState};
ghost use Rattle.messages.specs.Rows.{row_now};
ghost use Rattle.messages.specs.Known.{AreOnce};
ghost use Rattle.commit_check.specs.Marked.{AreMarksOf, IsLatest};
ghost use Rattle.commit_check.specs.Found.{IsFoundNow};

use column_family::{Key, Row};
use logical_time::{Fault, Time};
use messages::{RowNow, RowsNow};
use pending::Marks;
use slice::Read;
use std::alloc::Global;
use store::Store;

// The latest time at which the row is known to be valid: the clock, or the least time of a mark on the row.
fn latest(marks: &Marks, clock: Time, row: &Row) -> Time
    ensures { IsLatest (time_at marks.now row.now) clock result }
{
    match marks.least(row) {
        Some(time) if time < clock => time,
        _ => clock,
    }
}

// The row of a key, as it is found by the newest versions.
fn found_now(
    store: &Store,
    marks: &Marks,
    clock: Time,
    read: &Read,
    key: &Key,
) -> Result<RowNow, Fault>
    ensures ok { IfOk result (IsFoundNow store.now marks.now clock read.now key.now) }
    ensures memory { IfErr result (λ e. e ≡ fault.Memory) }
{
    let row = read.row_of(key)?;
    let part = store.read_now(&row, &read.predicate)?;
    Ok(RowNow {
        key: key.clone()?,
        columns: part.columns,
        writers: part.writers,
        evt: part.evt,
        lvt: latest(marks, clock, &row),
    })
}

// The row of a key.
fn one_now(
    store: &Store,
    marks: &Marks,
    clock: Time,
    read: &Read,
    key: &Key,
) -> Result<RowNow, Fault>
    ensures ok { (a : ShardState) → Keeps store.now a.applied → AreMarksOf marks.now a → AreOnce (λ p. p.txn) a.prepared → IfOk result (λ row. row ≡ row_now clock a read.now key.now) }
    ensures memory { IfErr result (λ e. e ≡ fault.Memory) }
{
    found_now(store, marks, clock, read, key)
}

// The rows of some keys.
fn some_now(
    alloc: Global,
    store: &Store,
    marks: &Marks,
    clock: Time,
    read: &Read,
    keys: &[Key],
) -> Result<Vec<RowNow>, Fault>
    ensures ok { (a : ShardState) → Keeps store.now a.applied → AreMarksOf marks.now a → AreOnce (λ p. p.txn) a.prepared → IfOk result (λ rows. rows.items ≡ map (row_now clock a read.now) keys.now) }
    ensures memory { IfErr result (λ e. e ≡ fault.Memory) }
{
    let mut rows = Vec::with_capacity(alloc, keys.len())?;
    for key in keys {
        rows.push(one_now(store, marks, clock, read, key)?)?;
    }
    Ok(rows)
}

/// What a shard with this store, these marks and this clock answers in the first round of a read: each asked row by
/// its newest versions, in the order in which they are asked, repeats included. A row is valid from its earliest valid
/// time to its latest, which is the clock or the least prepare time pending in the row (Eiger's LVT). Refused with
/// `Memory` alone. For each key it costs what the store's `read_now` and the marks' `least` cost.
pub fn rows_now(
    alloc: Global,
    store: &Store,
    marks: &Marks,
    clock: Time,
    read: &Read,
) -> Result<RowsNow, Fault>
    ensures ok { (a : ShardState) → Keeps store.now a.applied → AreMarksOf marks.now a → AreOnce (λ p. p.txn) a.prepared → IfOk result (λ rows. rows ≡ map (row_now clock a read.now) read.now.keys) }
    ensures memory { IfErr result (λ e. e ≡ fault.Memory) }
{
    let keys = read.keys.as_slice();
    // mostly it is asked for one
    if keys.len() == 1 {
        let row = one_now(store, marks, clock, read, &keys[0])?;
        return Ok(RowsNow::one(alloc, row)?);
    }
    let rows = some_now(alloc, store, marks, clock, read, keys)?;
    Ok(RowsNow::from_vec(alloc, rows)?)
}
