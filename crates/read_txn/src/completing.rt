//! What a complete read answers.
ghost use Rattle.std.specs.Prelude.{◌≡◌, ◌++◌, [], nat_le, map, filter, flat_map, IfOk, OnOk, IfErr};
ghost use Rattle.slice.specs.declared.read.AnsweredRow.{AnsweredRow};
ghost use Rattle.messages.specs.Rounds as rounds;
ghost use Rattle.read_txn.specs.Completed.{answered, row_of, shown};

use crate::answered::Answered;
use crate::heard::{ShardAt, ShardNow};
use column_family::Key;
use logical_time::{Fault, Time, Writer, Writers};
use messages::{RowAt, RowNow};
use planner::join_answers;
use slice::{AnsweredRow, Columns, Read};
use std::alloc::{AllocError, Global};

/// A row that was taken, where it stands.
#[derive(Clone, Copy)]
struct Taken<'r> {
    key: &'r Key,
    columns: &'r Columns,
    writers: &'r Writers,
}

/// What is taken of a row that is accepted.
fn accepted_row<'r>(row: &'r RowNow) -> Taken<'r>
    ensures { row_of result ≡ rounds.row_taken row.now }
{
    Taken {
        key: &row.key,
        columns: &row.columns,
        writers: &row.writers,
    }
}

/// What is taken of a row of the second round.
fn later_row<'r>(row: &'r RowAt) -> Taken<'r>
    ensures { row_of result ≡ row.now }
{
    Taken {
        key: &row.key,
        columns: &row.columns,
        writers: &row.writers,
    }
}

/// Adds those of the rows that are valid at the time.
fn add_accepted<'r>(taken: &mut Vec<Taken<'r>>, time: Time, rows: &'r [RowNow]) -> Result<(), Fault>
    ensures ok { OnOk result (map row_of taken.new.items ≡ map row_of taken.old.items ++ map rounds.row_taken (filter (λ r. nat_le time r.lvt) rows.now)) }
    ensures memory { IfErr result (λ e. e ≡ Fault.Memory) }
{
    for row in rows {
        if time <= row.lvt {
            taken.push(accepted_row(row))?;
        }
    }
    Ok(())
}

/// Adds rows of the second round.
fn add_rows<'r>(taken: &mut Vec<Taken<'r>>, rows: &'r [RowAt]) -> Result<(), Fault>
    ensures ok { OnOk result (map row_of taken.new.items ≡ map row_of taken.old.items ++ rows.now) }
    ensures memory { IfErr result (λ e. e ≡ Fault.Memory) }
{
    for row in rows {
        taken.push(later_row(row))?;
    }
    Ok(())
}

/// Adds the rows of the first round that are valid at the time.
fn add_first<'r>(taken: &mut Vec<Taken<'r>>, time: Time, heard: &'r [ShardNow]) -> Result<(), Fault>
    ensures ok { OnOk result (map row_of taken.new.items ≡ map row_of taken.old.items ++ rounds.accepted time heard.now) }
    ensures memory { IfErr result (λ e. e ≡ Fault.Memory) }
{
    for answer in heard {
        add_accepted(taken, time, answer.rows())?;
    }
    Ok(())
}

/// Adds what was answered in the second round.
fn add_heard<'r>(taken: &mut Vec<Taken<'r>>, heard: &'r [ShardAt]) -> Result<(), Fault>
    ensures ok { OnOk result (map row_of taken.new.items ≡ map row_of taken.old.items ++ flat_map (λ h. h.rows) heard.now) }
    ensures memory { IfErr result (λ e. e ≡ Fault.Memory) }
{
    for answer in heard {
        add_rows(taken, answer.rows())?;
    }
    Ok(())
}

/// The rows that a read of so many keys took.
fn rows_taken<'r>(
    alloc: Global,
    keys: usize,
    time: Time,
    first: &'r [ShardNow],
    second: &'r [ShardAt],
) -> Result<Vec<Taken<'r>>, Fault>
    ensures exact { IfOk result (λ taken. map row_of taken.items ≡ rounds.rows_taken time first.now second.now) }
    ensures memory { IfErr result (λ e. e ≡ Fault.Memory) }
{
    let mut taken = Vec::with_capacity(alloc, keys)?;
    add_first(&mut taken, time, first)?;
    add_heard(&mut taken, second)?;
    Ok(taken)
}

/// Adds these writers.
fn add_writers(all: &mut Vec<Writer>, writers: &Writers) -> Result<(), Fault>
    ensures ok { OnOk result (all.new.items ≡ all.old.items ++ writers.now) }
    ensures memory { IfErr result (λ e. e ≡ Fault.Memory) }
{
    all.extend_from_slice(writers.as_slice())?;
    Ok(())
}

/// How many writers these rows have, as far as a `usize` counts.
fn count_of(rows: &[Taken]) -> usize {
    let mut count = 0usize;
    for row in rows {
        count = count.saturating_add(row.writers.as_slice().len());
    }
    count
}

/// The writers of these rows.
fn writers_of(alloc: Global, rows: &[Taken]) -> Result<Vec<Writer>, Fault>
    ensures exact { IfOk result (λ writers. writers.items ≡ flat_map (λ r. r.writers) (map row_of rows.now)) }
    ensures memory { IfErr result (λ e. e ≡ Fault.Memory) }
{
    let mut writers = Vec::with_capacity(alloc, count_of(rows))?;
    for row in rows {
        add_writers(&mut writers, row.writers)?;
    }
    Ok(writers)
}

/// A row as an answer shows it. Its bytes are shared.
fn row_shown(row: &Taken) -> Result<AnsweredRow, AllocError>
    ensures { IfOk result (λ shows. shows ≡ shown (row_of row.now)) }
{
    Ok(AnsweredRow {
        key: row.key.clone()?,
        columns: row.columns.clone()?,
    })
}

/// The rows as an answer shows them.
fn rows_shown(alloc: Global, rows: &[Taken]) -> Result<Vec<AnsweredRow>, Fault>
    ensures exact { IfOk result (λ all. all.items ≡ map shown (map row_of rows.now)) }
    ensures memory { IfErr result (λ e. e ≡ Fault.Memory) }
{
    let mut all = Vec::with_capacity(alloc, rows.len())?;
    for row in rows {
        all.push(row_shown(row)?)?;
    }
    Ok(all)
}

/// What a read answers at its effective time, with the rows that it took: the accepted ones of the first round and all
/// of the second.
pub(crate) fn complete(
    alloc: Global,
    read: &Read,
    time: Time,
    first: &[ShardNow],
    second: &[ShardAt],
) -> Result<Answered, Fault>
    ensures exact { IfOk result (λ a. a ≡ answered read.now time (rounds.rows_taken time first.now second.now)) }
    ensures memory { IfErr result (λ e. e ≡ Fault.Memory) }
{
    let keys = read.keys.as_slice().len();
    let taken = rows_taken(alloc, keys, time, first, second)?;
    let writers = writers_of(alloc, &taken)?;
    let rows = rows_shown(alloc, &taken)?;
    let answer = join_answers(alloc, read, &rows)?;
    Ok(Answered {
        effective: time,
        answer,
        writers,
    })
}
