//! NotBy.
ghost use Rattle.std.specs.Prelude.{◌≡◌, IsOk, OnOk, OnErr, IfErr};
ghost use Rattle.logical_time.specs.declared.fault.Fault.TheVariants as fault;
ghost use Rattle.messages.specs.Commits.{on_not_by};
ghost use Rattle.shard.specs.Kept.{Does};
ghost use Rattle.shard.specs.Effects.{IsSpared};
ghost use Rattle.shard.specs.Ignored.{IfIgnored};

use crate::answers::answers_as_it_is;
use crate::kept::ShardKept;
use commit_check::Cause;
use logical_time::{Clock, Fault, Time, TxnId};
use messages::Outbox;

/// NotBy: the transaction isn't committed by this time, so the reads whose time isn't above it no longer wait for it, and
/// those that wait for nothing more are answered, in the order of their arrival. Refused with `Memory` alone.
pub(crate) fn not_by(
    kept: &mut ShardKept,
    clock: Clock,
    txn: TxnId,
    time: Time,
    outbox: &mut Outbox,
) -> Result<(), Fault>
    ensures step { OnOk result (Does (λ top me a. on_not_by me clock a txn time) kept.old kept.new outbox.old.sent outbox.new.sent) }
    ensures same { OnErr result (IsSpared kept.old kept.new) }
    ensures unsent { OnErr result (outbox.new.sent ≡ outbox.old.sent) }
    // it takes no memory where only the clock moves
    ensures quiet { IfIgnored (λ top me a. on_not_by me clock a txn time) clock kept.old (IsOk result) }
    ensures memory { IfErr result (λ e. e ≡ fault.Memory) }
{
    let cause = Cause::NotBy(time);
    let answers = answers_as_it_is(kept, clock.now(), txn, &cause)?;
    outbox.reserve(answers.len())?;
    kept.waiting.release(txn, &cause);
    outbox.post_all(answers);
    kept.clock = clock;
    Ok(())
}
