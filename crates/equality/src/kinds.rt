//! Bodies of one kind.
ghost use Rattle.std.specs.Prelude.{◌≡◌, ◌↔◌, true};
ghost use Rattle.messages.specs.declared.body.Body.TheVariants as body;

use crate::lists::{same_batch, same_cohorts, same_dependencies};
use crate::rows::{same_at_time, same_read, same_rows_now};
use column_family::Batch;
use logical_time::{Shard, Stamp, Time, TxnId};
use messages::{AtTime, Body, Cohorts, Dependencies, RowsNow};
use slice::Read;

pub(crate) fn is_begin(
    b: &Body,
    txn: TxnId,
    rows: &Batch,
    cohorts: &Cohorts,
    dependencies: &Dependencies,
) -> bool
    ensures { (result ≡ true) ↔ (b.now ≡ body.Begin txn rows.now cohorts.now dependencies.now) }
{
    match b {
        Body::Begin {
            txn: its_txn,
            rows: its_rows,
            cohorts: its_cohorts,
            dependencies: its_dependencies,
        } => *its_txn == txn
            && same_batch(its_rows, rows)
            && same_cohorts(its_cohorts, cohorts)
            && same_dependencies(its_dependencies, dependencies),
        _ => false,
    }
}

pub(crate) fn is_prepare(b: &Body, txn: TxnId, rows: &Batch, coordinator: Shard) -> bool
    ensures { (result ≡ true) ↔ (b.now ≡ body.Prepare txn rows.now coordinator) }
{
    match b {
        Body::Prepare {
            txn: its_txn,
            rows: its_rows,
            coordinator: its_coordinator,
        } => *its_txn == txn && same_batch(its_rows, rows) && *its_coordinator == coordinator,
        _ => false,
    }
}

pub(crate) fn is_yes(b: &Body, txn: TxnId) -> bool
    ensures { (result ≡ true) ↔ (b.now ≡ body.Yes txn) }
{
    match b {
        Body::Yes { txn: its_txn } => *its_txn == txn,
        _ => false,
    }
}

pub(crate) fn is_commit(b: &Body, txn: TxnId, commit: Time, stamp: Stamp) -> bool
    ensures { (result ≡ true) ↔ (b.now ≡ body.Commit txn commit stamp) }
{
    match b {
        Body::Commit {
            txn: its_txn,
            commit: its_commit,
            stamp: its_stamp,
        } => *its_txn == txn && *its_commit == commit && *its_stamp == stamp,
        _ => false,
    }
}

pub(crate) fn is_decided(b: &Body, txn: TxnId, commit: Time, stamp: Stamp) -> bool
    ensures { (result ≡ true) ↔ (b.now ≡ body.At txn commit stamp) }
{
    match b {
        Body::At {
            txn: its_txn,
            commit: its_commit,
            stamp: its_stamp,
        } => *its_txn == txn && *its_commit == commit && *its_stamp == stamp,
        _ => false,
    }
}

pub(crate) fn is_not_by(b: &Body, txn: TxnId, time: Time) -> bool
    ensures { (result ≡ true) ↔ (b.now ≡ body.NotBy txn time) }
{
    match b {
        Body::NotBy {
            txn: its_txn,
            time: its_time,
        } => *its_txn == txn && *its_time == time,
        _ => false,
    }
}

pub(crate) fn is_check(b: &Body, txn: TxnId, time: Time) -> bool
    ensures { (result ≡ true) ↔ (b.now ≡ body.Check txn time) }
{
    match b {
        Body::Check {
            txn: its_txn,
            time: its_time,
        } => *its_txn == txn && *its_time == time,
        _ => false,
    }
}

pub(crate) fn is_first_round(b: &Body, number: u64, read: &Read) -> bool
    ensures { (result ≡ true) ↔ (b.now ≡ body.Read number read.now) }
{
    match b {
        Body::Read {
            number: its_number,
            read: its_read,
        } => *its_number == number && same_read(its_read.get(), read),
        _ => false,
    }
}

pub(crate) fn is_second_round(b: &Body, number: u64, time: Time, read: &Read) -> bool
    ensures { (result ≡ true) ↔ (b.now ≡ body.ReadAt number time read.now) }
{
    match b {
        Body::ReadAt {
            number: its_number,
            time: its_time,
            read: its_read,
        } => *its_number == number && *its_time == time && same_read(its_read.get(), read),
        _ => false,
    }
}

pub(crate) fn is_repl_begin(
    b: &Body,
    txn: TxnId,
    rows: &Batch,
    stamp: Stamp,
    cohorts: &Cohorts,
    dependencies: &Dependencies,
) -> bool
    ensures { (result ≡ true) ↔ (b.now ≡ body.ReplBegin cohorts.now txn rows.now stamp dependencies.now) }
{
    match b {
        Body::ReplBegin {
            txn: its_txn,
            rows: its_rows,
            stamp: its_stamp,
            cohorts: its_cohorts,
            dependencies: its_dependencies,
        } => *its_txn == txn
            && same_batch(its_rows, rows)
            && *its_stamp == stamp
            && same_cohorts(its_cohorts, cohorts)
            && same_dependencies(its_dependencies, dependencies),
        _ => false,
    }
}

pub(crate) fn is_repl_part(
    b: &Body,
    txn: TxnId,
    rows: &Batch,
    stamp: Stamp,
    coordinator: Shard,
) -> bool
    ensures { (result ≡ true) ↔ (b.now ≡ body.ReplPart txn rows.now stamp coordinator) }
{
    match b {
        Body::ReplPart {
            txn: its_txn,
            rows: its_rows,
            stamp: its_stamp,
            coordinator: its_coordinator,
        } => *its_txn == txn
            && same_batch(its_rows, rows)
            && *its_stamp == stamp
            && *its_coordinator == coordinator,
        _ => false,
    }
}

pub(crate) fn is_notify(b: &Body, txn: TxnId) -> bool
    ensures { (result ≡ true) ↔ (b.now ≡ body.Notify txn) }
{
    match b {
        Body::Notify { txn: its_txn } => *its_txn == txn,
        _ => false,
    }
}

pub(crate) fn is_prepare_remote(b: &Body, txn: TxnId) -> bool
    ensures { (result ≡ true) ↔ (b.now ≡ body.PrepareRemote txn) }
{
    match b {
        Body::PrepareRemote { txn: its_txn } => *its_txn == txn,
        _ => false,
    }
}

pub(crate) fn is_dep_check(b: &Body, dependency: TxnId, waiter: TxnId) -> bool
    ensures { (result ≡ true) ↔ (b.now ≡ body.DepCheck dependency waiter) }
{
    match b {
        Body::DepCheck {
            dependency: its_dependency,
            waiter: its_waiter,
        } => *its_dependency == dependency && *its_waiter == waiter,
        _ => false,
    }
}

pub(crate) fn is_dep_ok(b: &Body, dependency: TxnId, waiter: TxnId, commit: Time) -> bool
    ensures { (result ≡ true) ↔ (b.now ≡ body.DepOk dependency waiter commit) }
{
    match b {
        Body::DepOk {
            dependency: its_dependency,
            waiter: its_waiter,
            commit: its_commit,
        } => *its_dependency == dependency && *its_waiter == waiter && *its_commit == commit,
        _ => false,
    }
}

pub(crate) fn is_done(b: &Body, txn: TxnId, commit: Time, stamp: Stamp) -> bool
    ensures { (result ≡ true) ↔ (b.now ≡ body.Done txn commit stamp) }
{
    match b {
        Body::Done {
            txn: its_txn,
            commit: its_commit,
            stamp: its_stamp,
        } => *its_txn == txn && *its_commit == commit && *its_stamp == stamp,
        _ => false,
    }
}

pub(crate) fn is_part_now(b: &Body, number: u64, rows: &RowsNow) -> bool
    ensures { (result ≡ true) ↔ (b.now ≡ body.PartNow number rows.now) }
{
    match b {
        Body::PartNow {
            number: its_number,
            rows: its_rows,
        } => *its_number == number && same_rows_now(its_rows, rows),
        _ => false,
    }
}

pub(crate) fn is_part_at(b: &Body, number: u64, time: Time, answer: &AtTime) -> bool
    ensures { (result ≡ true) ↔ (b.now ≡ body.PartAt number time answer.now) }
{
    match b {
        Body::PartAt {
            number: its_number,
            time: its_time,
            answer: its_answer,
        } => *its_number == number && *its_time == time && same_at_time(its_answer, answer),
        _ => false,
    }
}
