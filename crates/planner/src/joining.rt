//! The join of what shards answer to a read.
ghost use Rattle.std.specs.Prelude.{◌≡◌, ℕ, List, map, slice_get, IfOk, IfErr};
ghost use Rattle.std.specs.Option.{option_copied};
ghost use Rattle.std.specs.Ordering.{nat_cmp};
ghost use Rattle.std.specs.Cmp.Lexicographic.{slice_cmp};
ghost use Rattle.std.specs.BTreeMap.{get};
ghost use Rattle.column_family.specs.History.{History, up_to};
ghost use Rattle.table.specs.Meaning.{each_once as once_of, meaning, shown_row};
ghost use Rattle.planner.specs.Join.{columns_for, joined, joined_row, place_in, row_for, AreRight};

use column_family::Key;
use logical_time::Fault;
use slice::{Answer, AnsweredRow, Columns, Read};
use std::alloc::Global;
use std::collections::BTreeMap;
use table::each_once;

/// Up to how many rows each key is looked for from the first on.
const FEW: usize = 16;

/// Where the first row of each key stands.
fn places(alloc: Global, rows: &[AnsweredRow]) -> Result<BTreeMap<Key, usize>, Fault>
    ensures exact { IfOk result (λ places. (k : List ℕ) → get (slice_cmp nat_cmp) places k ≡ place_in rows.now k) }
    ensures memory { IfErr result (λ e. e ≡ Fault.Memory) }
{
    let mut places = BTreeMap::new(alloc);
    let mut rest = rows;
    while let Some((last, earlier)) = rest.split_last() {
        places.insert(last.key.clone()?, earlier.len())?;
        rest = earlier;
    }
    Ok(places)
}

/// The row at a place.
fn row_at(rows: &[AnsweredRow], place: usize) -> Option<&AnsweredRow>
    ensures { option_copied result ≡ slice_get rows.now place }
{
    rows.get(place)
}

/// A copy of the columns of a row, which shares their bytes.
fn columns_of(row: &AnsweredRow) -> Result<Columns, Fault>
    ensures exact { IfOk result (λ columns. columns ≡ row.now.columns) }
    ensures memory { IfErr result (λ e. e ≡ Fault.Memory) }
{
    Ok(row.columns.clone()?)
}

/// The columns of a key among the rows, by where the first row of each key stands.
fn columns_at(
    alloc: Global,
    rows: &[AnsweredRow],
    places: &BTreeMap<Key, usize>,
    key: &Key,
) -> Result<Columns, Fault>
    requires { get (slice_cmp nat_cmp) places.now key.now ≡ place_in rows.now key.now }
    ensures exact { IfOk result (λ columns. columns ≡ columns_for rows.now key.now) }
    ensures memory { IfErr result (λ e. e ≡ Fault.Memory) }
{
    let Some(place) = places.get(key) else {
        return Ok(Columns::none());
    };
    match row_at(rows, *place) {
        Some(row) => columns_of(row),
        None => Ok(Columns::none()),
    }
}

/// The first row of a key.
fn first_of<'r>(rows: &'r [AnsweredRow], key: &Key) -> Option<&'r AnsweredRow>
    ensures { option_copied result ≡ row_for rows.now key.now }
{
    rows.iter().find(|row| row.key == *key)
}

/// The columns of a key among the rows, looked for from the first row on.
fn columns_among(rows: &[AnsweredRow], key: &Key) -> Result<Columns, Fault>
    ensures exact { IfOk result (λ columns. columns ≡ columns_for rows.now key.now) }
    ensures memory { IfErr result (λ e. e ≡ Fault.Memory) }
{
    match first_of(rows, key) {
        Some(row) => columns_of(row),
        None => Ok(Columns::none()),
    }
}

/// These keys, each with its columns among few rows.
fn join_few(alloc: Global, once: &[Key], rows: &[AnsweredRow]) -> Result<Answer, Fault>
    ensures exact { IfOk result (λ answer. answer ≡ map (joined_row rows.now) once.now) }
    ensures memory { IfErr result (λ e. e ≡ Fault.Memory) }
{
    let mut answer = Answer::with_capacity(alloc, once.len())?;
    for key in once {
        let columns = columns_among(rows, key)?;
        answer.push(AnsweredRow {
            key: key.clone()?,
            columns,
        })?;
    }
    Ok(answer)
}

/// These keys, each with its columns among many rows.
fn join_many(alloc: Global, once: &[Key], rows: &[AnsweredRow]) -> Result<Answer, Fault>
    ensures exact { IfOk result (λ answer. answer ≡ map (joined_row rows.now) once.now) }
    ensures memory { IfErr result (λ e. e ≡ Fault.Memory) }
{
    let places = places(alloc, rows)?;
    let mut answer = Answer::with_capacity(alloc, once.len())?;
    for key in once {
        let columns = columns_at(alloc, rows, &places, key)?;
        answer.push(AnsweredRow {
            key: key.clone()?,
            columns,
        })?;
    }
    Ok(answer)
}

/// The join of the rows.
fn join(alloc: Global, keys: &[Key], rows: &[AnsweredRow]) -> Result<Answer, Fault>
    ensures exact { IfOk result (λ answer. answer ≡ joined keys.now rows.now) }
    ensures memory { IfErr result (λ e. e ≡ Fault.Memory) }
{
    let once = each_once(alloc, keys)?;
    if rows.len() <= FEW {
        join_few(alloc, once.as_slice(), rows)
    } else {
        join_many(alloc, once.as_slice(), rows)
    }
}

/// The answer of a read, of the rows that shards answered, in any order: each asked key once, in the order of first
/// asking, with the columns of its first row, or none. Where the rows are right against one history, it is the read's
/// meaning, and where each key's are right against a history of its own, each key is shown by that. In the order of
/// n log n for n rows and keys; no byte of a column is copied. Refused with `Memory` alone.
pub fn join_answers(alloc: Global, read: &Read, rows: &[AnsweredRow]) -> Result<Answer, Fault>
    ensures exact { IfOk result (λ answer. answer ≡ joined read.now.keys rows.now) }
    ensures meaning { IfOk result (λ answer. (h : History) (t : ℕ) → AreRight read.now (λ k. h) t rows.now → answer ≡ meaning read.now h t) }
    ensures right { IfOk result (λ answer. (history : List ℕ → History) (t : ℕ) → AreRight read.now history t rows.now → answer ≡ map (λ k. shown_row read.now (up_to t (history k)) k) (once_of read.now.keys)) }
    ensures memory { IfErr result (λ e. e ≡ Fault.Memory) }
{
    join(alloc, read.keys.as_slice(), rows)
}
