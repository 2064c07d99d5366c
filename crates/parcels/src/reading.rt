//! Envelopes, read from bytes.
ghost use Rattle.std.specs.Prelude.{◌≡◌, ◌⊎◌, Err, IfOk, IfErr, Ok};
ghost use Rattle.logical_time.specs.declared.fault.Fault.TheVariants.{Memory};
ghost use Rattle.wire.specs.Answers.{Gives};
ghost use Rattle.wire.specs.Reading.{counted_at, change_at};
ghost use Rattle.parcels.specs.Reading.{writer_at, decision_at, begin_at, prepare_at, yes_at, commit_at, at_at, not_by_at, check_at, read_at, read_at_at, repl_begin_at, repl_part_at, notify_at, prepare_remote_at, dep_check_at, dep_ok_at, done_at, part_now_at, part_at_at, said_at, envelope_at, parcel_at};

use crate::fields::{asked, at_time, cohorts, node, shard, stamp, time, txn};
use crate::lists::all;
use column_family::{Batch, Change};
use logical_time::{Fault, Stamp, Time, TxnId, Writer, Writers};
use messages::{Body, Dependencies, Envelope, RowsNow, Shared};
use std::alloc::Global;
use wire::error::FrameError;
use wire::fields::number;

// Parts of a transaction.
fn changes(alloc: Global, bytes: &[u8]) -> Result<(Batch, &[u8]), FrameError>
    ensures { Gives (λ x. (x.0, x.1.now)) result (counted_at change_at bytes.now) }
{
    let (changes, rest) = all(alloc, bytes)?;
    Ok((Batch::from_changes(changes), rest))
}

// What a write depends on.
fn dependencies(alloc: Global, bytes: &[u8]) -> Result<(Dependencies, &[u8]), FrameError>
    ensures { Gives (λ x. (x.0, x.1.now)) result (counted_at writer_at bytes.now) }
{
    let (writers, rest) = all(alloc, bytes)?;
    let list = Dependencies::from_writers(alloc, Writers::from_vec(writers))?;
    Ok((list, rest))
}

// A transaction, its commit time and its stamp.
#[tactic(auto, unfolding(crate::specs::Reading::decision_at))]
fn decision(rest: &mut &[u8]) -> Result<(TxnId, Time, Stamp), FrameError>
    ensures { Gives (λ x. ((x.0, x.1, x.2), rest.new.now)) result (decision_at rest.old.now) }
{
    let txn = txn(rest)?;
    let commit = time(rest)?;
    let stamp = stamp(rest)?;
    Ok((txn, commit, stamp))
}

#[tactic(auto, unfolding(crate::specs::Reading::begin_at))]
fn begin(alloc: Global, bytes: &[u8]) -> Result<(Body, &[u8]), FrameError>
    ensures { Gives (λ x. (x.0, x.1.now)) result (begin_at bytes.now) }
{
    let mut rest = bytes;
    let txn = txn(&mut rest)?;
    let (rows, after) = changes(alloc, rest)?;
    rest = after;
    let cohorts = cohorts(&mut rest)?;
    let (dependencies, after) = dependencies(alloc, rest)?;
    rest = after;
    Ok((
        Body::Begin {
            txn,
            rows,
            cohorts,
            dependencies,
        },
        rest,
    ))
}

#[tactic(auto, unfolding(crate::specs::Reading::prepare_at))]
fn prepare(alloc: Global, bytes: &[u8]) -> Result<(Body, &[u8]), FrameError>
    ensures { Gives (λ x. (x.0, x.1.now)) result (prepare_at bytes.now) }
{
    let mut rest = bytes;
    let txn = txn(&mut rest)?;
    let (rows, after) = changes(alloc, rest)?;
    rest = after;
    let coordinator = shard(&mut rest)?;
    Ok((
        Body::Prepare {
            txn,
            rows,
            coordinator,
        },
        rest,
    ))
}

#[tactic(auto, unfolding(crate::specs::Reading::yes_at))]
fn yes(bytes: &[u8]) -> Result<(Body, &[u8]), FrameError>
    ensures { Gives (λ x. (x.0, x.1.now)) result (yes_at bytes.now) }
{
    let mut rest = bytes;
    let txn = txn(&mut rest)?;
    Ok((Body::Yes { txn }, rest))
}

#[tactic(auto, unfolding(crate::specs::Reading::commit_at))]
fn commit(bytes: &[u8]) -> Result<(Body, &[u8]), FrameError>
    ensures { Gives (λ x. (x.0, x.1.now)) result (commit_at bytes.now) }
{
    let mut rest = bytes;
    let d = decision(&mut rest)?;
    Ok((
        Body::Commit {
            txn: d.0,
            commit: d.1,
            stamp: d.2,
        },
        rest,
    ))
}

#[tactic(auto, unfolding(crate::specs::Reading::at_at))]
fn at(bytes: &[u8]) -> Result<(Body, &[u8]), FrameError>
    ensures { Gives (λ x. (x.0, x.1.now)) result (at_at bytes.now) }
{
    let mut rest = bytes;
    let d = decision(&mut rest)?;
    Ok((
        Body::At {
            txn: d.0,
            commit: d.1,
            stamp: d.2,
        },
        rest,
    ))
}

#[tactic(auto, unfolding(crate::specs::Reading::not_by_at))]
fn not_by(bytes: &[u8]) -> Result<(Body, &[u8]), FrameError>
    ensures { Gives (λ x. (x.0, x.1.now)) result (not_by_at bytes.now) }
{
    let mut rest = bytes;
    let txn = txn(&mut rest)?;
    let time = time(&mut rest)?;
    Ok((Body::NotBy { txn, time }, rest))
}

#[tactic(auto, unfolding(crate::specs::Reading::check_at))]
fn check(bytes: &[u8]) -> Result<(Body, &[u8]), FrameError>
    ensures { Gives (λ x. (x.0, x.1.now)) result (check_at bytes.now) }
{
    let mut rest = bytes;
    let txn = txn(&mut rest)?;
    let time = time(&mut rest)?;
    Ok((Body::Check { txn, time }, rest))
}

#[tactic(auto, unfolding(crate::specs::Reading::read_at))]
fn first_round(alloc: Global, bytes: &[u8]) -> Result<(Body, &[u8]), FrameError>
    ensures { Gives (λ x. (x.0, x.1.now)) result (read_at bytes.now) }
{
    let (number, rest) = number(8, bytes)?;
    let (read, rest) = asked(alloc, rest)?;
    let read = Shared::new(alloc, read)?;
    Ok((Body::Read { number, read }, rest))
}

#[tactic(auto, unfolding(crate::specs::Reading::read_at_at))]
fn second_round(alloc: Global, bytes: &[u8]) -> Result<(Body, &[u8]), FrameError>
    ensures { Gives (λ x. (x.0, x.1.now)) result (read_at_at bytes.now) }
{
    let mut rest = bytes;
    let (number, after) = number(8, rest)?;
    rest = after;
    let time = time(&mut rest)?;
    let (read, after) = asked(alloc, rest)?;
    rest = after;
    let read = Shared::new(alloc, read)?;
    Ok((Body::ReadAt { number, time, read }, rest))
}

#[tactic(auto, unfolding(crate::specs::Reading::repl_begin_at))]
fn repl_begin(alloc: Global, bytes: &[u8]) -> Result<(Body, &[u8]), FrameError>
    ensures { Gives (λ x. (x.0, x.1.now)) result (repl_begin_at bytes.now) }
{
    let mut rest = bytes;
    let cohorts = cohorts(&mut rest)?;
    let txn = txn(&mut rest)?;
    let (rows, after) = changes(alloc, rest)?;
    rest = after;
    let stamp = stamp(&mut rest)?;
    let (dependencies, after) = dependencies(alloc, rest)?;
    rest = after;
    Ok((
        Body::ReplBegin {
            cohorts,
            txn,
            rows,
            stamp,
            dependencies,
        },
        rest,
    ))
}

#[tactic(auto, unfolding(crate::specs::Reading::repl_part_at))]
fn repl_part(alloc: Global, bytes: &[u8]) -> Result<(Body, &[u8]), FrameError>
    ensures { Gives (λ x. (x.0, x.1.now)) result (repl_part_at bytes.now) }
{
    let mut rest = bytes;
    let txn = txn(&mut rest)?;
    let (rows, after) = changes(alloc, rest)?;
    rest = after;
    let stamp = stamp(&mut rest)?;
    let coordinator = shard(&mut rest)?;
    Ok((
        Body::ReplPart {
            txn,
            rows,
            stamp,
            coordinator,
        },
        rest,
    ))
}

#[tactic(auto, unfolding(crate::specs::Reading::notify_at))]
fn notify(bytes: &[u8]) -> Result<(Body, &[u8]), FrameError>
    ensures { Gives (λ x. (x.0, x.1.now)) result (notify_at bytes.now) }
{
    let mut rest = bytes;
    let txn = txn(&mut rest)?;
    Ok((Body::Notify { txn }, rest))
}

#[tactic(auto, unfolding(crate::specs::Reading::prepare_remote_at))]
fn prepare_remote(bytes: &[u8]) -> Result<(Body, &[u8]), FrameError>
    ensures { Gives (λ x. (x.0, x.1.now)) result (prepare_remote_at bytes.now) }
{
    let mut rest = bytes;
    let txn = txn(&mut rest)?;
    Ok((Body::PrepareRemote { txn }, rest))
}

#[tactic(auto, unfolding(crate::specs::Reading::dep_check_at))]
fn dep_check(bytes: &[u8]) -> Result<(Body, &[u8]), FrameError>
    ensures { Gives (λ x. (x.0, x.1.now)) result (dep_check_at bytes.now) }
{
    let mut rest = bytes;
    let dependency = txn(&mut rest)?;
    let waiter = txn(&mut rest)?;
    Ok((Body::DepCheck { dependency, waiter }, rest))
}

#[tactic(auto, unfolding(crate::specs::Reading::dep_ok_at))]
fn dep_ok(bytes: &[u8]) -> Result<(Body, &[u8]), FrameError>
    ensures { Gives (λ x. (x.0, x.1.now)) result (dep_ok_at bytes.now) }
{
    let mut rest = bytes;
    let dependency = txn(&mut rest)?;
    let waiter = txn(&mut rest)?;
    let commit = time(&mut rest)?;
    Ok((
        Body::DepOk {
            dependency,
            waiter,
            commit,
        },
        rest,
    ))
}

#[tactic(auto, unfolding(crate::specs::Reading::done_at))]
fn done(bytes: &[u8]) -> Result<(Body, &[u8]), FrameError>
    ensures { Gives (λ x. (x.0, x.1.now)) result (done_at bytes.now) }
{
    let mut rest = bytes;
    let d = decision(&mut rest)?;
    Ok((
        Body::Done {
            txn: d.0,
            commit: d.1,
            stamp: d.2,
        },
        rest,
    ))
}

#[tactic(auto, unfolding(crate::specs::Reading::part_now_at))]
fn part_now(alloc: Global, bytes: &[u8]) -> Result<(Body, &[u8]), FrameError>
    ensures { Gives (λ x. (x.0, x.1.now)) result (part_now_at bytes.now) }
{
    let (number, rest) = number(8, bytes)?;
    let (rows, rest) = all(alloc, rest)?;
    let rows = RowsNow::from_vec(alloc, rows)?;
    Ok((Body::PartNow { number, rows }, rest))
}

#[tactic(auto, unfolding(crate::specs::Reading::part_at_at))]
fn part_at(alloc: Global, bytes: &[u8]) -> Result<(Body, &[u8]), FrameError>
    ensures { Gives (λ x. (x.0, x.1.now)) result (part_at_at bytes.now) }
{
    let mut rest = bytes;
    let (number, after) = number(8, rest)?;
    rest = after;
    let time = time(&mut rest)?;
    let (answer, after) = at_time(alloc, rest)?;
    rest = after;
    Ok((
        Body::PartAt {
            number,
            time,
            answer,
        },
        rest,
    ))
}

// What a message says.
#[rattlefmt::skip]
#[tactic(auto, unfolding(crate::specs::Reading::said_at))]
fn said(alloc: Global, bytes: &[u8]) -> Result<(Body, &[u8]), FrameError>
    ensures { Gives (λ x. (x.0, x.1.now)) result (said_at bytes.now) }
{
    match bytes {
        [] => Err(FrameError::Frame(Fault::Truncated)),
        [1, rest @ ..] => begin(alloc, rest),
        [2, rest @ ..] => prepare(alloc, rest),
        [3, rest @ ..] => yes(rest),
        [4, rest @ ..] => commit(rest),
        [5, rest @ ..] => at(rest),
        [6, rest @ ..] => not_by(rest),
        [7, rest @ ..] => check(rest),
        [8, rest @ ..] => first_round(alloc, rest),
        [9, rest @ ..] => second_round(alloc, rest),
        [10, rest @ ..] => repl_begin(alloc, rest),
        [11, rest @ ..] => repl_part(alloc, rest),
        [12, rest @ ..] => notify(rest),
        [13, rest @ ..] => prepare_remote(rest),
        [14, rest @ ..] => dep_check(rest),
        [15, rest @ ..] => dep_ok(rest),
        [16, rest @ ..] => done(rest),
        [17, rest @ ..] => part_now(alloc, rest),
        [18, rest @ ..] => part_at(alloc, rest),
        _ => Err(FrameError::Frame(Fault::UnknownTag)),
    }
}

#[tactic(auto, unfolding(crate::specs::Reading::envelope_at))]
fn envelope(alloc: Global, bytes: &[u8]) -> Result<(Envelope, &[u8]), FrameError>
    ensures { Gives (λ x. (x.0, x.1.now)) result (envelope_at bytes.now) }
{
    let mut rest = bytes;
    let from = node(&mut rest)?;
    let to = node(&mut rest)?;
    let time = time(&mut rest)?;
    let (body, after) = said(alloc, rest)?;
    rest = after;
    Ok((
        Envelope {
            from,
            to,
            time,
            body,
        },
        rest,
    ))
}

#[tactic(auto, unfolding(crate::specs::Reading::parcel_at))]
fn parcel(alloc: Global, bytes: &[u8]) -> Result<Envelope, FrameError>
    ensures { Gives (λ e. e) result (parcel_at bytes.now) }
{
    let (envelope, rest) = envelope(alloc, bytes)?;
    if rest.is_empty() {
        Ok(envelope)
    } else {
        Err(FrameError::Frame(Fault::TrailingBytes))
    }
}

/// The envelope that is all of the bytes. Refused with the first fault from the left, and with `Memory`. Linear in the bytes.
pub fn read_parcel(alloc: Global, bytes: &[u8]) -> Result<Envelope, Fault>
    ensures ok { IfOk result (λ e. parcel_at bytes.now ≡ Ok e) }
    ensures fault { IfErr result (λ f. (f ≡ Memory) ⊎ (parcel_at bytes.now ≡ Err f)) }
{
    parcel(alloc, bytes).map_err(FrameError::fault)
}
