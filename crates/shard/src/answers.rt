//! Answers to reads at a time that waited.
ghost use Rattle.std.specs.Prelude.{◌≡◌, ℕ, [], map, IsOk, IfOk, IfErr};
ghost use Rattle.logical_time.specs.declared.fault.Fault.TheVariants as fault;
ghost use Rattle.store.specs.Keeps.{Keeps};
ghost use Rattle.slice.specs.declared.read.Read.{Read};
ghost use Rattle.messages.specs.declared.rows_at.AtTime.{AtTime};
ghost use Rattle.messages.specs.Topology.{TopologyValue};
ghost use Rattle.messages.specs.Shard.{ShardState};
ghost use Rattle.messages.specs.Reads.{at_time};
ghost use Rattle.commit_check.specs.Waiting.{freed, reply};
ghost use Rattle.shard.specs.Kept.{Represents};

use crate::kept::ShardKept;
use commit_check::{AnswersAt, Cause, answer_at, freed_answers};
use logical_time::{Fault, Time, TxnId};
use messages::{AtTime, Envelope};
use slice::Read;
use std::alloc::Global;
use store::Store;

/// Answers from a store as it is.
#[derive(Drop)]
struct AsItIs<'s> {
    alloc: Global,
    store: &'s Store,
}

impl AnswersAt for AsItIs<'_> {
    ghost answered = { λ s time read x. (a : ShardState) → Keeps s.store.now a.applied → a.low ≡ s.store.now.low → x ≡ at_time a time read };

    fn answer(&self, time: Time, read: &Read) -> Result<AtTime, Fault> {
        answer_at(self.alloc, self.store, time, read)
    }
}

/// The answers at this time, by the store as it is, to the reads that this cause lets go, in the order of their arrival. Costs
/// what `freed_answers` costs. Refused with `Memory` alone.
pub(crate) fn answers_as_it_is(
    kept: &ShardKept,
    time: Time,
    txn: TxnId,
    cause: &Cause,
) -> Result<Vec<Envelope>, Fault>
    ensures ok { (top : TopologyValue) (me : ℕ) (a : ShardState) → Represents top me kept.now a → IfOk result (λ envelopes. envelopes.items ≡ map (reply me time (at_time a)) (freed txn cause.now a.waiting)) }
    // it takes no memory where no read is let go
    ensures none { freed txn cause.now kept.now.waiting ≡ [] → IsOk result }
    ensures memory { IfErr result (λ e. e ≡ fault.Memory) }
{
    let answers = AsItIs {
        alloc: kept.alloc,
        store: kept.transactions.store(),
    };
    freed_answers(
        kept.alloc,
        &kept.waiting,
        kept.place.node(),
        time,
        txn,
        cause,
        &answers,
    )
}
