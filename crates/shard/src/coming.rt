//! Answers to the reads that a part lets go, before it is applied.
ghost use Rattle.std.specs.Prelude.{◌≡◌, ℕ, map, IfOk, IfErr};
ghost use Rattle.logical_time.specs.declared.fault.Fault.TheVariants as fault;
ghost use Rattle.store.specs.Keeps.{AreApart};
ghost use Rattle.messages.specs.Topology.{TopologyValue};
ghost use Rattle.messages.specs.Shard.{ShardState};
ghost use Rattle.messages.specs.Reads.{part_at};
ghost use Rattle.commit_check.specs.declared.cause.Cause.TheVariants as cause;
ghost use Rattle.commit_check.specs.Waiting.{freed};
ghost use Rattle.shard.specs.Kept.{Represents};
ghost use Rattle.shard.specs.Coming.{applied_of, with_applied};

use crate::kept::ShardKept;
use column_family::Batch;
use commit_check::{AnswersAt, Cause, answer_with, freed_answers};
use logical_time::{Fault, Stamp, Time, Writer};
use messages::{AtTime, Envelope};
use slice::Read;
use std::alloc::Global;
use store::Store;

/// A part that is going to be applied, with its commit time and its stamp.
#[derive(Drop)]
pub(crate) struct Coming<'b> {
    /// The transaction, with its coordinator.
    pub(crate) writer: Writer,
    /// What it writes.
    pub(crate) batch: &'b Batch,
    /// Its commit time in this data centre.
    pub(crate) commit: Time,
    /// Its stamp.
    pub(crate) stamp: Stamp,
}

/// A store, as it will answer once a part is applied.
#[derive(Drop)]
struct StoreWith<'a> {
    alloc: Global,
    store: &'a Store,
    coming: &'a Coming<'a>,
}

impl AnswersAt for StoreWith<'_> {
    ghost use Rattle.std.specs.Prelude.{◌≡◌};
    ghost use Rattle.store.specs.Keeps.{Keeps, AreApart};
    ghost use Rattle.messages.specs.Shard.{ShardState};
    ghost use Rattle.messages.specs.Reads.{at_time};
    ghost use Rattle.shard.specs.Coming.{applied_of, with_applied};

    ghost answered = { λ s time read x. (a : ShardState) → Keeps s.store.now a.applied → a.low ≡ s.store.now.low → AreApart (with_applied a (applied_of s.coming.now)).applied → x ≡ at_time (with_applied a (applied_of s.coming.now)) time read };

    fn answer(&self, time: Time, read: &Read) -> Result<AtTime, Fault> {
        let coming = self.coming;
        answer_with(
            self.alloc,
            self.store,
            coming.writer,
            coming.batch,
            coming.commit,
            coming.stamp,
            time,
            read,
        )
    }
}

/// The answers to the reads that wait for the transaction of a part alone, as they will be once the part is applied, at the
/// event at which it is and when the clock shows this time.
#[inline(always)]
pub(crate) fn answers_with(
    kept: &ShardKept,
    time: Time,
    coming: &Coming,
) -> Result<Vec<Envelope>, Fault>
    ensures ok { (top : TopologyValue) (me : ℕ) (a : ShardState) → Represents top me kept.now a → AreApart (with_applied a (applied_of coming.now)).applied
        → IfOk result (λ envelopes. envelopes.items ≡ map (part_at me time (with_applied a (applied_of coming.now))) (freed coming.now.writer.txn cause.Applied a.waiting)) }
    ensures memory { IfErr result (λ e. e ≡ fault.Memory) }
{
    let store = StoreWith {
        alloc: kept.alloc,
        store: kept.transactions.store(),
        coming,
    };
    freed_answers(
        kept.alloc,
        &kept.waiting,
        kept.place.node(),
        time,
        coming.writer.txn(),
        &Cause::Applied,
        &store,
    )
}
