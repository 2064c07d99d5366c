//! Answers of shards.
ghost use Rattle.std.specs.Prelude.{◌≡◌, true, false, IsOk, IsSome, OnOk, OnErr, IfErr};
ghost use Rattle.messages.specs.Words.{is_same_txn};
ghost use Rattle.read_txn.specs.Taken.{second_taken, is_awaited};
ghost use Rattle.client.specs.declared.current.Current.TheVariants.{Idle, Second};
ghost use Rattle.client.specs.Current.{coordinator_of};
ghost use Rattle.client.specs.Ignored.{heeds_at};
ghost use Rattle.client.specs.Steps as steps;

use crate::current::Current;
use crate::kept::SessionKept;
use logical_time::{Clock, Fault, Node, Shard, Stamp, Time, TxnId, Writer, Writers};
use messages::{AtTime, Outcome};
use read_txn::{Answered, SecondRound, SecondTaken};
use std::mem;

/// Opens what is given, while nothing is open: so what was there needn't be moved out, to be closed.
#[inline]
pub(crate) fn put(kept: &mut SessionKept, current: Current)
    requires { kept.old.current ≡ Idle }
    ensures { kept.new ≡ record kept.old { current = current } }
{
    let before = mem::replace(&mut kept.current, current);
    let Current::Idle = before else {
        unreachable!()
    };
}

/// Takes the open write out.
#[inline]
fn end_write(kept: &mut SessionKept)
    requires { IsSome (coordinator_of kept.old.current) }
    ensures { kept.new ≡ record kept.old { current = Idle } }
{
    let before = mem::replace(&mut kept.current, Current::Idle);
    let Current::Write(_) = before else {
        unreachable!()
    };
}

/// Ends the last operation, which was taken out, with this outcome.
#[inline(always)]
fn finish(kept: &mut SessionKept, clock: Clock, floor: Time, added: Writers, outcome: Outcome)
    requires { kept.old.current ≡ Idle }
    ensures { kept.new ≡ steps.finished clock kept.old floor kept.old.dependencies added outcome }
{
    kept.clock = clock;
    kept.floor = floor;
    kept.added = added;
    kept.untaken = Some((kept.count, outcome));
}

/// Ends the open write.
fn written(
    kept: &mut SessionKept,
    clock: Clock,
    coordinator: Shard,
    txn: TxnId,
    commit: Time,
    stamp: Stamp,
)
    requires { IsSome (coordinator_of kept.old.current) }
    ensures { kept.new ≡ steps.done_if true clock kept.old coordinator txn commit stamp }
{
    let floor = if kept.floor < commit {
        commit
    } else {
        kept.floor
    };
    kept.dependencies
        .completed_write(Writer::new(txn, coordinator));
    let added = Writers::from_vec(Vec::new(kept.alloc));
    end_write(kept);
    finish(kept, clock, floor, added, Outcome::Wrote { commit, stamp });
}

/// Whether the transaction is the session's last operation.
pub(crate) fn is_last(kept: &SessionKept, txn: TxnId) -> bool
    ensures { result ≡ is_same_txn txn (record { session = kept.now.node; number = kept.now.count }) }
{
    let last = TxnId {
        session: kept.node,
        number: kept.count,
    };
    txn.cmp(&last).is_eq()
}

/// Done: ends the open write, if it is of this one.
pub(crate) fn done(kept: &mut SessionKept, clock: Clock, txn: TxnId, commit: Time, stamp: Stamp)
    ensures { kept.new ≡ steps.done_in kept.old.current clock kept.old txn commit stamp }
{
    let Some(coordinator) = kept.current.coordinator() else {
        kept.clock = clock;
        return;
    };
    if is_last(kept, txn) {
        written(kept, clock, coordinator, txn, commit, stamp);
    } else {
        kept.clock = clock;
    }
}

/// Completes the last read, whose round was taken out.
#[inline(always)]
pub(crate) fn complete(kept: &mut SessionKept, clock: Clock, answered: Answered)
    requires { kept.old.current ≡ Idle }
    ensures { kept.new ≡ steps.completed clock kept.old answered }
{
    let Answered {
        effective,
        answer,
        writers,
    } = answered;
    finish(
        kept,
        clock,
        effective,
        Writers::from_vec(writers),
        Outcome::Read { effective, answer },
    );
}

/// Goes on with what an answer made of the second round, which was taken out.
fn after_at(kept: &mut SessionKept, clock: Clock, taken: SecondTaken)
    requires { kept.old.current ≡ Idle }
    ensures { kept.new ≡ steps.after_at taken clock kept.old }
{
    match taken {
        SecondTaken::More(round) => {
            kept.clock = clock;
            put(kept, Current::Second(round));
        }
        SecondTaken::Done(answered) => complete(kept, clock, answered),
        SecondTaken::Collected => {
            kept.clock = clock;
            kept.untaken = Some((kept.count, Outcome::Collected));
        }
    }
}

/// PartAt in a second round, which was taken out: it is heard if it is of the open read.
fn second(
    kept: &mut SessionKept,
    clock: Clock,
    round: SecondRound,
    from: Node,
    answer: AtTime,
) -> Result<(), (Fault, AtTime)>
    requires { kept.old.current ≡ Idle }
    ensures state { OnOk result (kept.new ≡ steps.after_at (second_taken round from answer) clock kept.old) }
    ensures unasked { is_awaited round from ≡ false → IsOk result }
    ensures same { OnErr result (kept.new ≡ record kept.old { current = Second round }) }
    ensures memory { IfErr result (λ e. e.0 ≡ Fault.Memory) }
    ensures back { IfErr result (λ e. e.1 ≡ answer) }
{
    match round.take(from, answer) {
        Ok(taken) => {
            after_at(kept, clock, taken);
            Ok(())
        }
        Err((fault, round, answer)) => {
            put(kept, Current::Second(round));
            Err((fault, answer))
        }
    }
}

/// PartAt: heard where it is of the open read in its second round.
pub(crate) fn part_at(
    kept: &mut SessionKept,
    clock: Clock,
    from: Node,
    number: u64,
    answer: AtTime,
) -> Result<(), (Fault, AtTime)>
    ensures state { OnOk result (kept.new ≡ steps.at_in kept.old.current clock kept.old from number answer) }
    ensures ignored { heeds_at kept.old.current kept.old from number ≡ false → IsOk result }
    ensures same { OnErr result (kept.new ≡ kept.old) }
    ensures memory { IfErr result (λ e. e.0 ≡ Fault.Memory) }
    ensures back { IfErr result (λ e. e.1 ≡ answer) }
{
    if number != kept.count {
        kept.clock = clock;
        return Ok(());
    }
    match mem::replace(&mut kept.current, Current::Idle) {
        Current::Second(round) => second(kept, clock, round, from, answer),
        current => {
            kept.clock = clock;
            put(kept, current);
            Ok(())
        }
    }
}
