//! Copies of messages that hold more than numbers.
ghost use Rattle.std.specs.Prelude.{◌≡◌, IfOk};
ghost use Rattle.messages.specs.declared.body.Body.TheVariants as body;

use crate::body::{Body, Dependencies};
use crate::cohorts::Cohorts;
use crate::rows_at::AtTime;
use crate::rows_now::RowsNow;
use crate::shared::Shared;
use column_family::Batch;
use logical_time::{Shard, Stamp, Time, TxnId};
use slice::Read;
use std::alloc::AllocError;

pub(crate) fn begin(
    txn: TxnId,
    rows: &Batch,
    cohorts: &Cohorts,
    dependencies: &Dependencies,
) -> Result<Body, AllocError>
    ensures { IfOk result (λ copy. copy ≡ body.Begin txn rows.now cohorts.now dependencies.now) }
{
    Ok(Body::Begin {
        txn,
        rows: rows.clone()?,
        cohorts: *cohorts,
        dependencies: dependencies.clone()?,
    })
}

pub(crate) fn prepare(txn: TxnId, rows: &Batch, coordinator: Shard) -> Result<Body, AllocError>
    ensures { IfOk result (λ copy. copy ≡ body.Prepare txn rows.now coordinator) }
{
    Ok(Body::Prepare {
        txn,
        rows: rows.clone()?,
        coordinator,
    })
}

pub(crate) fn first_round(number: u64, read: &Shared<Read>) -> Result<Body, AllocError>
    ensures { IfOk result (λ copy. copy ≡ body.Read number read.now) }
{
    Ok(Body::Read {
        number,
        read: read.clone()?,
    })
}

pub(crate) fn second_round(number: u64, time: Time, read: &Shared<Read>) -> Result<Body, AllocError>
    ensures { IfOk result (λ copy. copy ≡ body.ReadAt number time read.now) }
{
    Ok(Body::ReadAt {
        number,
        time,
        read: read.clone()?,
    })
}

/// A ReplBegin with copies, which share the bytes of keys, names and values. Fails by memory alone.
pub fn repl_begin(
    txn: TxnId,
    rows: &Batch,
    stamp: Stamp,
    cohorts: &Cohorts,
    dependencies: &Dependencies,
) -> Result<Body, AllocError>
    ensures { IfOk result (λ copy. copy ≡ body.ReplBegin cohorts.now txn rows.now stamp dependencies.now) }
{
    Ok(Body::ReplBegin {
        txn,
        rows: rows.clone()?,
        stamp,
        cohorts: *cohorts,
        dependencies: dependencies.clone()?,
    })
}

/// A ReplPart with a copy of the rows, which shares the bytes of keys, names and values. Fails by memory alone.
pub fn repl_part(
    txn: TxnId,
    rows: &Batch,
    stamp: Stamp,
    coordinator: Shard,
) -> Result<Body, AllocError>
    ensures { IfOk result (λ copy. copy ≡ body.ReplPart txn rows.now stamp coordinator) }
{
    Ok(Body::ReplPart {
        txn,
        rows: rows.clone()?,
        stamp,
        coordinator,
    })
}

pub(crate) fn part_now(number: u64, rows: &RowsNow) -> Result<Body, AllocError>
    ensures { IfOk result (λ copy. copy ≡ body.PartNow number rows.now) }
{
    Ok(Body::PartNow {
        number,
        rows: rows.clone()?,
    })
}

pub(crate) fn part_at(number: u64, time: Time, answer: &AtTime) -> Result<Body, AllocError>
    ensures { IfOk result (λ copy. copy ≡ body.PartAt number time answer.now) }
{
    Ok(Body::PartAt {
        number,
        time,
        answer: answer.clone()?,
    })
}
