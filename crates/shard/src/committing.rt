//! Commit, and At in the same way.
ghost use Rattle.std.specs.Prelude.{◌≡◌, ℕ, IsOk, IfOk, OnOk, OnErr, IfErr};
ghost use Rattle.logical_time.specs.declared.fault.Fault.TheVariants as fault;
ghost use Rattle.store.specs.Keeps.{AreApart};
ghost use Rattle.messages.specs.Topology.{TopologyValue};
ghost use Rattle.messages.specs.Shard.{ShardState};
ghost use Rattle.messages.specs.Commits.{apply_part, on_commit};
ghost use Rattle.shard.specs.Kept.{Represents, Does};
ghost use Rattle.shard.specs.Effects.{IsSpared};
ghost use Rattle.shard.specs.Ignored.{IfIgnored};

use crate::coming::{Coming, answers_with};
use crate::kept::ShardKept;
use commit_check::Cause;
use logical_time::{Clock, Fault, Stamp, Time, TxnId};
use messages::{Envelope, Outbox};
use replicator::repl_parts;
use write_txn::{CohortPart, Open};

/// What is sent once this part is applied: where the write was submitted here a ReplPart to each other data centre, and
/// the answers to the reads that it lets go.
fn told_with(
    kept: &ShardKept,
    time: Time,
    part: &CohortPart,
    commit: Time,
    stamp: Stamp,
) -> Result<Vec<Envelope>, Fault>
    ensures ok { (top : TopologyValue) (me : ℕ) (a : ShardState) → Represents top me kept.now a → AreApart (apply_part top me time a part.now commit stamp).state.applied
        → IfOk result (λ envelopes. envelopes.items ≡ (apply_part top me time a part.now commit stamp).sends) }
    ensures memory { IfErr result (λ e. e ≡ fault.Memory) }
{
    let writer = part.writer();
    let mut envelopes = repl_parts(
        kept.alloc,
        kept.place,
        time,
        part.origin(),
        writer,
        part.rows(),
        stamp,
    )?;
    let coming = Coming {
        writer,
        batch: part.rows(),
        commit,
        stamp,
    };
    let mut freed = answers_with(kept, time, &coming)?;
    envelopes.append(&mut freed)?;
    Ok(envelopes)
}

/// Commit, and At in the same way: the transaction's part is applied with this commit time and this stamp, if a cohort's
/// is prepared, and the reads that wait for it alone are answered; else ignored. Refused with `Memory` alone.
pub(crate) fn commit(
    kept: &mut ShardKept,
    clock: Clock,
    txn: TxnId,
    commit: Time,
    stamp: Stamp,
    outbox: &mut Outbox,
) -> Result<(), Fault>
    ensures step { OnOk result (Does (λ top me a. on_commit top me clock a txn commit stamp) kept.old kept.new outbox.old.sent outbox.new.sent) }
    ensures same { OnErr result (IsSpared kept.old kept.new) }
    ensures unsent { OnErr result (outbox.new.sent ≡ outbox.old.sent) }
    // it takes no memory where only the clock moves
    ensures quiet { IfIgnored (λ top me a. on_commit top me clock a txn commit stamp) clock kept.old (IsOk result) }
    ensures memory { IfErr result (λ e. e ≡ fault.Memory) }
{
    let envelopes = match kept.transactions.ledger().open(txn) {
        Some(Open::Part(part)) => told_with(kept, clock.now(), part, commit, stamp)?,
        _ => {
            kept.clock = clock;
            return Ok(());
        }
    };
    outbox.reserve(envelopes.len())?;
    kept.transactions.make_room_for(txn)?;
    kept.transactions.commit(txn, commit, stamp);
    kept.waiting.release(txn, &Cause::Applied);
    outbox.post_all(envelopes);
    kept.clock = clock;
    Ok(())
}
