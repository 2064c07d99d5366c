//! Messages as JSON.
ghost use Rattle.std.specs.Prelude.{IfErr};
ghost use Rattle.tracing.specs.Tracing.{HasCut, HasGrown};

use crate::listed::put_list;
use crate::pieces::{put, put_number};
use crate::words::{
    put_batch, put_cohorts, put_dependencies, put_read, put_stamp, put_transaction,
};
use column_family::Batch;
use logical_time::{Fault, Shard, Stamp, Time, TxnId};
use messages::{AtTime, Body, Cohorts, Dependencies, Envelope, RowsNow};
use program::Output;
use slice::Read;
use std::io::Write;

// `,"kind":"`, the kind, and the transaction.
fn put_kind<W: Write>(output: &mut Output<W>, kind: &[u8], txn: TxnId) -> Result<(), Fault>
    ensures grown { HasGrown W.contents output.old output.new }
    ensures failed { IfErr result (HasCut output.new) }
{
    put(output, b",\"kind\":\"")?;
    put(output, kind)?;
    put_transaction(output, b"\",\"transaction\":{\"session\":", txn)
}

// A decision: the transaction, its commit time and its stamp.
fn put_decision<W: Write>(
    output: &mut Output<W>,
    kind: &[u8],
    txn: TxnId,
    commit: Time,
    stamp: Stamp,
) -> Result<(), Fault>
    ensures grown { HasGrown W.contents output.old output.new }
    ensures failed { IfErr result (HasCut output.new) }
{
    put_kind(output, kind, txn)?;
    put_number(output, b",\"commit\":", commit.get())?;
    put_stamp(output, stamp)
}

// A transaction and a time.
fn put_by<W: Write>(
    output: &mut Output<W>,
    kind: &[u8],
    txn: TxnId,
    time: Time,
) -> Result<(), Fault>
    ensures grown { HasGrown W.contents output.old output.new }
    ensures failed { IfErr result (HasCut output.new) }
{
    put_kind(output, kind, txn)?;
    put_number(output, b",\"by\":", time.get())
}

// A cohort's part.
fn put_part<W: Write>(
    output: &mut Output<W>,
    kind: &[u8],
    txn: TxnId,
    rows: &Batch,
    coordinator: Shard,
) -> Result<(), Fault>
    ensures grown { HasGrown W.contents output.old output.new }
    ensures failed { IfErr result (HasCut output.new) }
{
    put_kind(output, kind, txn)?;
    put_batch(output, b",\"rows\":", rows)?;
    put_number(output, b",\"coordinator\":", u64::from(coordinator.get()))
}

// A coordinator's part.
fn put_begin<W: Write>(
    output: &mut Output<W>,
    kind: &[u8],
    txn: TxnId,
    rows: &Batch,
    cohorts: Cohorts,
    dependencies: &Dependencies,
) -> Result<(), Fault>
    ensures grown { HasGrown W.contents output.old output.new }
    ensures failed { IfErr result (HasCut output.new) }
{
    put_kind(output, kind, txn)?;
    put_batch(output, b",\"rows\":", rows)?;
    put_cohorts(output, cohorts)?;
    put_dependencies(output, dependencies)
}

// `,"kind":"`, the kind, and the number of a read.
fn put_round<W: Write>(output: &mut Output<W>, kind: &[u8], number: u64) -> Result<(), Fault>
    ensures grown { HasGrown W.contents output.old output.new }
    ensures failed { IfErr result (HasCut output.new) }
{
    put(output, b",\"kind\":\"")?;
    put(output, kind)?;
    put_number(output, b"\",\"operation\":", number)
}

// The first round of a read.
fn put_first<W: Write>(output: &mut Output<W>, number: u64, read: &Read) -> Result<(), Fault>
    ensures grown { HasGrown W.contents output.old output.new }
    ensures failed { IfErr result (HasCut output.new) }
{
    put_round(output, b"Read", number)?;
    put_read(output, read)
}

// The second round of a read.
fn put_second<W: Write>(
    output: &mut Output<W>,
    number: u64,
    time: Time,
    read: &Read,
) -> Result<(), Fault>
    ensures grown { HasGrown W.contents output.old output.new }
    ensures failed { IfErr result (HasCut output.new) }
{
    put_round(output, b"ReadAt", number)?;
    put_number(output, b",\"effective\":", time.get())?;
    put_read(output, read)
}

// The answer in the first round of a read.
fn put_now<W: Write>(output: &mut Output<W>, number: u64, rows: &RowsNow) -> Result<(), Fault>
    ensures grown { HasGrown W.contents output.old output.new }
    ensures failed { IfErr result (HasCut output.new) }
{
    put_round(output, b"PartNow", number)?;
    put_list(output, b",\"rows\":", rows.as_slice())
}

// The answer in the second round of a read.
fn put_at<W: Write>(
    output: &mut Output<W>,
    number: u64,
    time: Time,
    answer: &AtTime,
) -> Result<(), Fault>
    ensures grown { HasGrown W.contents output.old output.new }
    ensures failed { IfErr result (HasCut output.new) }
{
    put_round(output, b"PartAt", number)?;
    put_number(output, b",\"effective\":", time.get())?;
    match answer {
        AtTime::Collected => put(output, b",\"collected\":true"),
        AtTime::Rows(rows) => put_list(output, b",\"rows\":", rows.as_slice()),
    }
}

// A check of a dependency.
fn put_check<W: Write>(
    output: &mut Output<W>,
    kind: &[u8],
    dependency: TxnId,
    waiter: TxnId,
) -> Result<(), Fault>
    ensures grown { HasGrown W.contents output.old output.new }
    ensures failed { IfErr result (HasCut output.new) }
{
    put(output, b",\"kind\":\"")?;
    put(output, kind)?;
    put_transaction(output, b"\",\"dependency\":{\"session\":", dependency)?;
    put_transaction(output, b",\"waiter\":{\"session\":", waiter)
}

// What a message of a write says.
#[rattlefmt::skip]
fn put_write<W: Write>(output: &mut Output<W>, body: &Body) -> Result<(), Fault>
    ensures grown { HasGrown W.contents output.old output.new }
    ensures failed { IfErr result (HasCut output.new) }
{
    match body {
        Body::Begin { txn, rows, cohorts, dependencies } => put_begin(output, b"Begin", *txn, rows, *cohorts, dependencies),
        Body::Prepare { txn, rows, coordinator } => put_part(output, b"Prepare", *txn, rows, *coordinator),
        Body::Yes { txn } => put_kind(output, b"Yes", *txn),
        Body::Commit { txn, commit, stamp } => put_decision(output, b"Commit", *txn, *commit, *stamp),
        Body::Done { txn, commit, stamp } => put_decision(output, b"Done", *txn, *commit, *stamp),
        Body::ReplBegin { cohorts, txn, rows, stamp, dependencies } => {
            put_begin(output, b"ReplBegin", *txn, rows, *cohorts, dependencies)?;
            put_stamp(output, *stamp)
        }
        Body::ReplPart { txn, rows, stamp, coordinator } => {
            put_part(output, b"ReplPart", *txn, rows, *coordinator)?;
            put_stamp(output, *stamp)
        }
        Body::Notify { txn } => put_kind(output, b"Notify", *txn),
        Body::PrepareRemote { txn } => put_kind(output, b"PrepareRemote", *txn),
        _ => Ok(()),
    }
}

// What a message says.
#[rattlefmt::skip]
fn put_body<W: Write>(output: &mut Output<W>, body: &Body) -> Result<(), Fault>
    ensures grown { HasGrown W.contents output.old output.new }
    ensures failed { IfErr result (HasCut output.new) }
{
    match body {
        Body::At { txn, commit, stamp } => put_decision(output, b"At", *txn, *commit, *stamp),
        Body::NotBy { txn, time } => put_by(output, b"NotBy", *txn, *time),
        Body::Check { txn, time } => put_by(output, b"Check", *txn, *time),
        Body::Read { number, read } => put_first(output, *number, read.get()),
        Body::ReadAt { number, time, read } => put_second(output, *number, *time, read.get()),
        Body::DepCheck { dependency, waiter } => put_check(output, b"DepCheck", *dependency, *waiter),
        Body::DepOk { dependency, waiter, commit } => {
            put_check(output, b"DepOk", *dependency, *waiter)?;
            put_number(output, b",\"commit\":", commit.get())
        }
        Body::PartNow { number, rows } => put_now(output, *number, rows),
        Body::PartAt { number, time, answer } => put_at(output, *number, *time, answer),
        _ => put_write(output, body),
    }
}

/// Words that end with `{"number":`, and then the message of this number.
pub(crate) fn put_message<W: Write>(
    output: &mut Output<W>,
    words: &[u8],
    number: usize,
    message: &Envelope,
) -> Result<(), Fault>
    ensures grown { HasGrown W.contents output.old output.new }
    ensures failed { IfErr result (HasCut output.new) }
{
    put_number(output, words, number as u64)?;
    put_number(output, b",\"from\":", u64::from(message.from.get()))?;
    put_number(output, b",\"to\":", u64::from(message.to.get()))?;
    put_number(output, b",\"time\":", message.time.get())?;
    put_body(output, &message.body)?;
    put(output, b"}")
}

/// `,"sent":`, and then these messages, of which the first has this number.
pub(crate) fn put_sent<W: Write>(
    output: &mut Output<W>,
    first: usize,
    messages: &[Envelope],
) -> Result<(), Fault>
    ensures grown { HasGrown W.contents output.old output.new }
    ensures failed { IfErr result (HasCut output.new) }
{
    let mut words: &[u8] = b",\"sent\":[{\"number\":";
    let mut number = first;
    for message in messages {
        put_message(output, words, number, message)?;
        words = b",{\"number\":";
        number = number.wrapping_add(1);
    }
    put(
        output,
        if messages.is_empty() {
            b",\"sent\":[]"
        } else {
            b"]"
        },
    )
}
