//! Answers to reads by time that waited.
ghost use Rattle.std.specs.Prelude.{◌≡◌, ℕ, [], map, IsOk, IfOk, IfErr};
ghost use Rattle.slice.specs.declared.read.Read.{Read};
ghost use Rattle.messages.specs.declared.rows_at.AtTime.{AtTime};
ghost use Rattle.commit_check.specs.Waiting.{AnswersBy, freed, reply};

use crate::cause::Cause;
use crate::waits::{Wait, Waits, is_freed};
use logical_time::{Fault, Node, Time, TxnId};
use messages::{AtTime, Body, Envelope};
use slice::Read;
use std::alloc::Global;

/// What answers reads at a time.
pub trait AnswersAt {
    /// What may answer a read at a time.
    ghost answered: { Self → ℕ → Read → AtTime → Type 0 };

    /// The answer to a read at a time. Refused with `Memory` alone.
    fn answer(&self, time: Time, read: &Read) -> Result<AtTime, Fault>
        ensures ok { IfOk result (answered self.now time read.now) }
        ensures memory { IfErr result (λ e. e ≡ Fault.Memory) };
}

/// The answer to a read that waited.
fn answer_to<A: AnswersAt>(
    wait: &Wait,
    me: Node,
    time: Time,
    answers: &A,
) -> Result<Envelope, Fault>
    ensures ok { (f : ℕ → Read → AtTime) → AnswersBy (A.answered answers.now) f → IfOk result (λ e. e ≡ reply me time f wait.now) }
    ensures memory { IfErr result (λ e. e ≡ Fault.Memory) }
{
    let answer = answers.answer(wait.time, wait.read.get())?;
    Ok(Envelope {
        from: me,
        to: wait.session,
        time,
        body: Body::PartAt {
            number: wait.number,
            time: wait.time,
            answer,
        },
    })
}

/// The answers to the reads that `Waits::release` would let go, in the order of their arrival, at an event of the shard
/// with this node when its clock shows this time. In the order of m for m transactions that reads wait for, over all
/// reads, beside the answers. Refused with `Memory` alone.
pub fn freed_answers<A: AnswersAt>(
    alloc: Global,
    waits: &Waits,
    me: Node,
    time: Time,
    txn: TxnId,
    cause: &Cause,
    answers: &A,
) -> Result<Vec<Envelope>, Fault>
    ensures ok { (f : ℕ → Read → AtTime) → AnswersBy (A.answered answers.now) f
        → IfOk result (λ envelopes. envelopes.items ≡ map (reply me time f) (freed txn cause.now waits.now)) }
    // it takes no memory where no read is let go
    ensures none { freed txn cause.now waits.now ≡ [] → IsOk result }
    ensures memory { IfErr result (λ e. e ≡ Fault.Memory) }
{
    let mut envelopes = Vec::new(alloc);
    for wait in waits.as_slice() {
        if is_freed(wait, txn, cause) {
            envelopes.push(answer_to(wait, me, time, answers)?)?;
        }
    }
    Ok(envelopes)
}
