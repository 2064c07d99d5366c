//! Histories that are laid out for reads.
ghost use Rattle.std.specs.Prelude.{◌≡◌, ◌++◌, [], ◌∷◌, List, map, IfOk, OnOk, IfErr};
ghost use Rattle.std.specs.List.Sorted.{IsPermutation};
ghost use Rattle.logical_time.specs.declared.fault.Fault.TheVariants as fault;
ghost use Rattle.column_family.specs.History.{History as Entries, up_to};
ghost use Rattle.table.specs.Meaning as meaning;
ghost use Rattle.store.specs.declared.part.Applied.{Applied};
ghost use Rattle.store.specs.Keeps.{Keeps, IsNewStamp};
ghost use Rattle.audit.specs.Laid as laid;

use column_family::{Committed, Key, normal};
use logical_time::{Fault, Node, Shard, Time, TxnId, Writer};
use slice::{Answer, AnsweredRow, Read};
use std::alloc::{AllocError, Global};
use std::collections::BTreeSet;
use std::marker::Model;
use store::Store;
use table::{History, answer, each_once};
use txn_state::{Prepared, WritePart};

// A writer for every part: who wrote counts for no answer.
fn nobody() -> Writer
    ensures { result ≡ laid.nobody }
{
    let txn = TxnId {
        session: Node::new(0),
        number: 0,
    };
    Writer::new(txn, Shard::first())
}

// Applies an entry: the normal form of its batch. Refused with `Memory` alone.
fn apply(alloc: Global, store: &mut Store, entry: &Committed) -> Result<(), Fault>
    ensures keeps { (all : List Applied) → Keeps store.old all → IsNewStamp entry.now.stamp all → OnOk result (Keeps store.new (all ++ laid.applied_of entry.now ∷ [])) }
    ensures low { store.new.low ≡ store.old.low }
    ensures memory { IfErr result (λ e. e ≡ fault.Memory) }
{
    let batch = normal(alloc, &entry.batch)?;
    store.make_room(&batch)?;
    let part = WritePart {
        writer: nobody(),
        batch,
    };
    store.apply_in_room(Prepared::new(part, Time::zero()), entry.commit, entry.stamp);
    Ok(())
}

// A store to which the entries were applied, or none where two of them have one stamp. Refused with `Memory` alone.
fn store_of(alloc: Global, entries: &[Committed]) -> Result<Option<Store>, Fault>
    ensures ok { IfOk result (λ store. laid.IsAppliedIn store entries.now) }
    ensures memory { IfErr result (λ e. e ≡ fault.Memory) }
{
    let mut store = Store::new(alloc);
    let mut seen = BTreeSet::new(alloc);
    for entry in entries {
        if !seen.insert(entry.stamp)? {
            return Ok(None);
        }
        apply(alloc, &mut store, entry)?;
    }
    Ok(Some(store))
}

// A copy of the entry.
fn copy_of(entry: &Committed) -> Result<Committed, AllocError>
    ensures { IfOk result (λ copy. copy ≡ entry.now) }
{
    entry.clone()
}

// Copies of the entries, which share the bytes of keys, names and values. Refused with `Memory` alone.
fn copies_of(alloc: Global, entries: &[Committed]) -> Result<Vec<Committed>, Fault>
    ensures ok { IfOk result (λ copies. copies.items ≡ entries.now) }
    ensures memory { IfErr result (λ e. e ≡ fault.Memory) }
{
    let mut copies = Vec::with_capacity(alloc, entries.len())?;
    for entry in entries {
        copies.push(copy_of(entry)?)?;
    }
    Ok(copies)
}

// The entries in the order of their stamps, in which a store takes them quickest. Refused with `Memory` alone.
fn by_stamp(alloc: Global, entries: &[Committed]) -> Result<Vec<Committed>, Fault>
    ensures ok { IfOk result (λ sorted. IsPermutation entries.now sorted.items) }
    ensures memory { IfErr result (λ e. e ≡ fault.Memory) }
{
    let mut sorted = copies_of(alloc, entries)?;
    sorted.sort_unstable_by_key(|entry| entry.stamp);
    Ok(sorted)
}

// A store in which the entries are laid out, or none where two of them have one stamp. Refused with `Memory` alone.
fn lay_out(alloc: Global, entries: &[Committed]) -> Result<Option<Store>, Fault>
    ensures ok { IfOk result (λ store. laid.IsLaidIn store entries.now) }
    ensures memory { IfErr result (λ e. e ≡ fault.Memory) }
{
    let sorted = by_stamp(alloc, entries)?;
    let store = store_of(alloc, sorted.as_slice())?;
    Ok(store)
}

// The row of one key, by the store.
fn row_at(store: &Store, read: &Read, key: &Key, time: Time) -> Result<AnsweredRow, Fault>
    ensures ok { (h : Entries) → laid.IsLaidOut store.now h → IfOk result (λ row. row ≡ meaning.shown_row read.now (up_to time h) key.now) }
    ensures memory { (h : Entries) → laid.IsLaidOut store.now h → IfErr result (λ e. e ≡ fault.Memory) }
{
    let row = read.row_of(key)?;
    let part = store.read_at(&row, &read.predicate, time)?;
    Ok(AnsweredRow {
        key: row.key,
        columns: part.columns,
    })
}

// The rows of these keys, by the store.
fn rows_at(
    alloc: Global,
    store: &Store,
    read: &Read,
    keys: &[Key],
    time: Time,
) -> Result<Answer, Fault>
    ensures ok { (h : Entries) → laid.IsLaidOut store.now h → IfOk result (λ a. a ≡ map (meaning.shown_row read.now (up_to time h)) keys.now) }
    ensures memory { (h : Entries) → laid.IsLaidOut store.now h → IfErr result (λ e. e ≡ fault.Memory) }
{
    let mut answer = Answer::new(alloc);
    for key in keys {
        answer.push(row_at(store, read, key, time)?)?;
    }
    Ok(answer)
}

// What the read means at the time, by the store.
fn answer_at(alloc: Global, store: &Store, read: &Read, time: Time) -> Result<Answer, Fault>
    ensures ok { (h : Entries) → laid.IsLaidOut store.now h → IfOk result (λ a. a ≡ meaning.meaning read.now h time) }
    ensures memory { (h : Entries) → laid.IsLaidOut store.now h → IfErr result (λ e. e ≡ fault.Memory) }
{
    let keys = each_once(alloc, read.keys.as_slice())?;
    rows_at(alloc, store, read, keys.as_slice(), time)
}

/// A history, laid out so that a read of it takes no look through it.
#[derive(Drop)]
pub(crate) struct Laid<'h> {
    history: &'h History,
    // none where two entries have one stamp: no run makes such a history
    store: Option<Store>,
}

impl<'h> Model for Laid<'h> {
    ghost use Rattle.column_family.specs.History.{History as Entries};
    ghost use Rattle.audit.specs.Laid.{IsLaidIn};

    ghost Value = { Entries };

    ghost view = { λ laid. laid.history.now };

    ghost invariant = { λ laid. IsLaidIn laid.store laid.history.now };
}

impl Laid<'_> {
    /// Lays a history out. In the order of n log n for n changes of a run's history; where at one place commit times fall as
    /// stamps rise, a change costs as many steps as the versions that it hides. Refused with `Memory` alone.
    pub(crate) fn new(alloc: Global, history: &History) -> Result<Laid<'_>, Fault>
        ensures ok { IfOk result (λ laid. laid ≡ history.now) }
        ensures memory { IfErr result (λ e. e ≡ fault.Memory) }
    {
        let store = lay_out(alloc, history.as_slice())?;
        Ok(Laid { history, store })
    }

    /// What the read means on the history at the time. Looks for each asked row once, in the order of the logarithm of the
    /// rows; where two entries have one stamp it goes through the whole history. Refused with `Memory` alone.
    pub(crate) fn answer(&self, alloc: Global, read: &Read, time: Time) -> Result<Answer, Fault>
        ensures ok { IfOk result (λ a. a ≡ meaning.meaning read.now self.now time) }
        ensures memory { IfErr result (λ e. e ≡ fault.Memory) }
    {
        match &self.store {
            Some(store) => answer_at(alloc, store, read, time),
            None => answer(alloc, self.history, time, read),
        }
    }
}
