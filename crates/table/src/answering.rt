//! The meaning of a read, by running it.
ghost use Rattle.std.specs.Prelude.{◌≡◌, true, IfOk, IfErr, map};
ghost use Rattle.slice.specs.Slice.{slice_of};
ghost use Rattle.slice.specs.Live as live;
ghost use Rattle.table.specs.Meaning as meaning;
ghost use Rattle.table.specs.Once.{do_differ, keys_once};

use crate::history::History;
use column_family::{Committed, Key, Row, up_to};
use logical_time::{Fault, Time};
use slice::{Answer, AnsweredRow, Columns, Predicate, Read, live_columns, select};
use std::alloc::Global;
use std::collections::BTreeSet;

/// What the read means on the history at the time: each asked key once, in the order of first asking, with its
/// slice of what is committed by then. Of two entries with one stamp the first in the list wins. Slow: it copies
/// the history and looks through it once for each column of each row. Refused with `Memory` alone.
pub fn answer(alloc: Global, history: &History, time: Time, read: &Read) -> Result<Answer, Fault>
    ensures ok { IfOk result (λ a. a ≡ meaning.meaning read.now history.now time) }
    ensures memory { IfErr result (λ e. e ≡ Fault.Memory) }
{
    let entries = up_to(alloc, history.as_slice(), time)?;
    let keys = each_once(alloc, read.keys.as_slice())?;
    answer_keys(alloc, &entries, read, keys.as_slice())
}

/// Up to how many keys each is compared with those before it.
const FEW: usize = 16;

/// Keys, each once. Where they were listed so, these are those of the list.
#[derive(Drop)]
pub enum Once<'k> {
    /// Those that were listed.
    Listed(&'k [Key]),
    /// Those that were taken from a list.
    Taken(Vec<Key>),
}

impl Once<'_> {
    /// The keys.
    pub fn as_slice(&self) -> &[Key]
        ensures { result.now ≡ keys_once self.now }
    {
        match self {
            Once::Listed(keys) => keys,
            Once::Taken(keys) => keys.as_slice(),
        }
    }
}

/// Each key once, in the order of first asking. In the order of n log n for n keys; few that differ are compared with each
/// other, and not copied. Refused with `Memory` alone.
#[inline]
pub fn each_once(alloc: Global, keys: &[Key]) -> Result<Once<'_>, Fault>
    ensures ok { IfOk result (λ once. keys_once once ≡ meaning.each_once keys.now) }
    ensures memory { IfErr result (λ e. e ≡ Fault.Memory) }
{
    if FEW < keys.len() {
        Ok(Once::Taken(each_of_many(alloc, keys)?))
    } else if do_differ(keys) {
        Ok(Once::Listed(keys))
    } else {
        Ok(Once::Taken(each_of_few(alloc, keys)?))
    }
}

// Whether no key is listed twice.
#[tactic(auto, using(crate::proofs::EachOnce::once_where_differ))]
fn do_differ(keys: &[Key]) -> bool
    ensures same { result ≡ true → meaning.each_once keys.now ≡ keys.now }
{
    differ(keys)
}

// Whether no key comes again behind itself.
fn differ(keys: &[Key]) -> bool
    ensures { result ≡ do_differ keys.now }
{
    let mut rest = keys;
    while let Some((key, others)) = rest.split_first() {
        if others.contains(key) {
            return false;
        }
        rest = others;
    }
    true
}

// Each key once, by those that were taken before it.
fn each_of_few(alloc: Global, keys: &[Key]) -> Result<Vec<Key>, Fault>
    ensures ok { IfOk result (λ once. once.items ≡ meaning.each_once keys.now) }
    ensures memory { IfErr result (λ e. e ≡ Fault.Memory) }
{
    let mut once = Vec::with_capacity(alloc, keys.len())?;
    for key in keys {
        if !once.contains(key) {
            once.push(key.clone()?)?;
        }
    }
    Ok(once)
}

// Each key once, by a set of those that were taken before it.
fn each_of_many(alloc: Global, keys: &[Key]) -> Result<Vec<Key>, Fault>
    ensures ok { IfOk result (λ once. once.items ≡ meaning.each_once keys.now) }
    ensures memory { IfErr result (λ e. e ≡ Fault.Memory) }
{
    let mut seen = BTreeSet::new(alloc);
    let mut once = Vec::with_capacity(alloc, keys.len())?;
    for key in keys {
        if seen.insert(key.clone()?)? {
            once.push(key.clone()?)?;
        }
    }
    Ok(once)
}

// The rows of these keys.
fn answer_keys(
    alloc: Global,
    entries: &[Committed],
    read: &Read,
    keys: &[Key],
) -> Result<Answer, Fault>
    ensures ok { IfOk result (λ a. a ≡ map (meaning.shown_row read.now entries.now) keys.now) }
    ensures memory { IfErr result (λ e. e ≡ Fault.Memory) }
{
    let mut answer = Answer::new(alloc);
    for key in keys {
        answer.push(answer_key(alloc, entries, read, key)?)?;
    }
    Ok(answer)
}

// The row of one key.
fn answer_key(
    alloc: Global,
    entries: &[Committed],
    read: &Read,
    key: &Key,
) -> Result<AnsweredRow, Fault>
    ensures ok { IfOk result (λ row. row ≡ meaning.shown_row read.now entries.now key.now) }
    ensures memory { IfErr result (λ e. e ≡ Fault.Memory) }
{
    let row = read.row_of(key)?;
    let columns = slice_at(alloc, entries, &row, &read.predicate)?;
    Ok(AnsweredRow {
        key: row.key,
        columns,
    })
}

// The slice of a row's live columns.
fn slice_at(
    alloc: Global,
    entries: &[Committed],
    row: &Row,
    predicate: &Predicate,
) -> Result<Columns, Fault>
    ensures ok { IfOk result (λ columns. columns ≡ slice_of predicate.now (live.live_columns entries.now row.now)) }
    ensures memory { IfErr result (λ e. e ≡ Fault.Memory) }
{
    let live = live_columns(alloc, entries, row)?;
    select(alloc, live.as_slice(), predicate)
}
