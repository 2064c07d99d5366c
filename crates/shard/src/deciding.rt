//! Decisions of a coordinator: what they tell beside `Commit`, and what they make of what is kept.
ghost use Rattle.std.specs.Prelude.{◌≡◌, ◌+◌, ◌≤◌, ◌++◌, ℕ, length, map, None, Some, IfOk, IfErr};
ghost use Rattle.logical_time.specs.declared.fault.Fault.TheVariants as fault;
ghost use Rattle.store.specs.Keeps.{AreApart};
ghost use Rattle.store.specs.Stored.{HasRoom};
ghost use Rattle.messages.specs.Topology.{TopologyValue};
ghost use Rattle.messages.specs.Place.{IsPlace};
ghost use Rattle.messages.specs.Posting.{commit_to};
ghost use Rattle.messages.specs.Shard.{ShardState};
ghost use Rattle.messages.specs.Known.{decision_of};
ghost use Rattle.messages.specs.Commits.{decide};
ghost use Rattle.write_txn.specs.Ledger.{state_of, decided_in};
ghost use Rattle.shard.specs.Kept.{Represents};
ghost use Rattle.shard.specs.Coming.{applied_of};
ghost use Rattle.shard.specs.Deciding.{ballot_in, own_applied, told, IsSettled};

use crate::coming::{Coming, answers_with};
use crate::kept::ShardKept;
use column_family::Batch;
use commit_check::Cause;
use logical_time::{Clock, Fault, Stamp, Time, TxnId, Writer};
use messages::{Cohorts, Dependencies, Envelope, Outbox};
use replicator::announcements;
use txn_state::Complete;
use write_txn::stamp_of;

/// A transaction that is going to be decided, with what its decision tells.
#[derive(Drop)]
pub(crate) struct Deciding<'b> {
    /// The transaction.
    pub(crate) txn: TxnId,
    /// The coordinator's own part.
    pub(crate) rows: &'b Batch,
    /// The other shards.
    pub(crate) cohorts: &'b Cohorts,
    /// What the write depends on.
    pub(crate) dependencies: &'b Dependencies,
    /// The stamp of a write of another data centre.
    pub(crate) stamp: Option<Stamp>,
}

/// The coordinator's own part, as it is going to be applied.
fn own_part<'b>(kept: &ShardKept, time: Time, deciding: &Deciding<'b>) -> Coming<'b>
    ensures { (top : TopologyValue) (me : ℕ) → IsPlace top me kept.now.place → applied_of result ≡ own_applied top me time (ballot_in deciding.now) }
{
    let stamp = stamp_of(kept.place.node(), time, &deciding.stamp);
    let writer = Writer::new(deciding.txn, kept.place.shard());
    Coming {
        writer,
        batch: deciding.rows,
        commit: time,
        stamp,
    }
}

/// What a decision at this time tells beside `Commit`: Done and ReplBegin where the write was submitted here, a DepOk to
/// each that asked for the transaction, and the answers to the reads that it lets go. Refused with `Memory` alone.
#[inline]
pub(crate) fn tell(
    kept: &ShardKept,
    time: Time,
    deciding: &Deciding,
) -> Result<Vec<Envelope>, Fault>
    ensures ok { (top : TopologyValue) (me : ℕ) (a : ShardState) → Represents top me kept.now a → decision_of deciding.now.txn a ≡ None
        → AreApart (decide top me time a (ballot_in deciding.now)).state.applied
        → IfOk result (λ envelopes. envelopes.items ≡ told top me time a (ballot_in deciding.now)) }
    ensures memory { IfErr result (λ e. e ≡ fault.Memory) }
{
    let mut envelopes = announcements(
        kept.alloc,
        kept.place,
        time,
        deciding.txn,
        deciding.rows,
        deciding.cohorts,
        deciding.dependencies,
        &deciding.stamp,
    )?;
    let mut oks = kept.askers.dep_oks(kept.place.node(), time, deciding.txn)?;
    let coming = own_part(kept, time, deciding);
    let mut freed = answers_with(kept, time, &coming)?;
    envelopes.append(&mut oks)?;
    envelopes.append(&mut freed)?;
    Ok(envelopes)
}

/// Settles a transaction that is decided at this clock with this stamp: tells its cohorts, applies its own part, sends these
/// envelopes, and lets go of what is needed no more. There is room for all of it. Takes no memory.
#[inline]
pub(crate) fn settle(
    kept: &mut ShardKept,
    clock: Clock,
    txn: TxnId,
    complete: Complete,
    stamp: Stamp,
    envelopes: Vec<Envelope>,
    outbox: &mut Outbox,
)
    requires own { complete.own.part.writer.txn ≡ txn }
    requires decided { decided_in (state_of kept.old.transactions.ledger txn) ≡ Some (clock, stamp) }
    requires posts { length complete.cohorts + length envelopes.items ≤ outbox.old.room }
    requires room { HasRoom kept.old.transactions.store complete.own.part.batch }
    ensures settled { IsSettled txn complete.own clock stamp kept.old kept.new }
    ensures sent { (top : TopologyValue) (me : ℕ) → IsPlace top me kept.old.place
        → outbox.new.sent ≡ (outbox.old.sent ++ map (commit_to me clock txn clock stamp) complete.cohorts) ++ envelopes.items }
{
    let node = kept.place.node();
    kept.transactions
        .decide(complete, node, clock.now(), stamp, outbox);
    outbox.post_all(envelopes);
    kept.transactions.forget_votes(txn);
    kept.notices.forget(txn);
    kept.askers.forget(txn);
    kept.waiting.release(txn, &Cause::Applied);
    kept.clock = clock;
}
