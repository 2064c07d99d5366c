//! The ballot of another data centre's write, once its coordinator keeps it: Notify and DepOk.
ghost use Rattle.std.specs.Prelude.{◌≡◌, ◌≤◌, ◌++◌, ◌==◌, ◌&&◌, ℕ, [], length, true, false, None, Some, IsOk, IfOk, IfSome, OnOk, OnErr, IfErr};
ghost use Rattle.logical_time.specs.declared.fault.Fault.TheVariants as fault;
ghost use Rattle.store.specs.Keeps.{AreApart};
ghost use Rattle.store.specs.Stored.{HasRoom};
ghost use Rattle.messages.specs.Topology.{TopologyValue};
ghost use Rattle.messages.specs.Place.{IsPlace};
ghost use Rattle.messages.specs.Shard.{ShardState};
ghost use Rattle.messages.specs.Known.{decision_of};
ghost use Rattle.messages.specs.Replication.{ready_if, on_notify, on_dep_ok};
ghost use Rattle.write_txn.specs.declared.open.Open.{Open};
ghost use Rattle.write_txn.specs.Ledger.{state_of, open_in, part_of};
ghost use Rattle.write_txn.specs.Stands.{kept_ballot_of};
ghost use Rattle.write_txn.specs.Transactions.{GoesOnKeeping};
ghost use Rattle.shard.specs.Kept.{Represents, Does};
ghost use Rattle.shard.specs.Effects.{IsSpared};
ghost use Rattle.shard.specs.Ignored.{IfIgnored};
ghost use Rattle.shard.specs.Concluding.{MaySettle, IsConcluded};
ghost use Rattle.shard.specs.Counting.{IsInTime, on_missing};

use crate::deciding::{Deciding, settle, tell};
use crate::early::note_notice;
use crate::kept::ShardKept;
use logical_time::{Clock, Fault, Node, Stamp, Time, TxnId};
use messages::{Envelope, Outbox};
use replicator::prepare_remotes;
use txn_state::Complete;
use write_txn::{Missing, Open, Remote, Transactions};

/// What a ballot that waits sends, by whether it becomes ready: PrepareRemote to each cohort, or without any what its
/// decision tells; while something is missing nothing.
pub(crate) fn told_by(
    kept: &ShardKept,
    time: Time,
    remote: &Remote,
    is_ready: bool,
) -> Result<Vec<Envelope>, Fault>
    ensures ok { (top : TopologyValue) (me : ℕ) (a : ShardState) → Represents top me kept.now a → decision_of (kept_ballot_of remote.now).txn a ≡ None
        → AreApart (ready_if is_ready top me time a (kept_ballot_of remote.now)).state.applied
        → IfOk result (λ envelopes. envelopes.items ≡ (ready_if is_ready top me time a (kept_ballot_of remote.now)).sends) }
    // while something is missing it takes no memory
    ensures waits { is_ready ≡ false → IsOk result }
    ensures none { is_ready ≡ false → IfOk result (λ envelopes. envelopes.items ≡ []) }
    ensures memory { IfErr result (λ e. e ≡ fault.Memory) }
{
    if !is_ready {
        return Ok(Vec::new(kept.alloc));
    }
    let txn = remote.ballot.writer().txn();
    if !remote.cohorts.is_empty() {
        return prepare_remotes(kept.alloc, kept.place, time, txn, &remote.cohorts);
    }
    let deciding = Deciding {
        txn,
        rows: remote.ballot.part(),
        cohorts: &remote.cohorts,
        dependencies: &remote.dependencies,
        stamp: Some(remote.ballot.stamp()),
    };
    tell(kept, time, &deciding)
}

/// Whether a ballot is decided, by whether it becomes ready: with cohorts it has to wait for their votes.
pub(crate) fn is_decided(remote: &Remote, is_ready: bool) -> bool
    ensures { result ≡ (is_ready && (length remote.now.ballot.notices.cohorts == 0)) }
{
    is_ready && remote.ballot.notices().cohorts().is_empty()
}

/// Makes room in the store for the own part of a ballot that waits, if it is decided.
fn make_room_if(transactions: &mut Transactions, is_decided: bool, txn: TxnId) -> Result<(), Fault>
    ensures ok { OnOk result (is_decided ≡ true → (o : Open) → open_in (state_of transactions.old.ledger txn) ≡ Some o → HasRoom transactions.new.store (part_of o).batch) }
    ensures waits { is_decided ≡ false → IsOk result }
    ensures store { GoesOnKeeping transactions.old.store transactions.new.store }
    ensures ledger { transactions.new.ledger ≡ transactions.old.ledger }
    ensures early { transactions.new.early ≡ transactions.old.early }
    ensures memory { IfErr result (λ e. e ≡ fault.Memory) }
{
    if !is_decided {
        return Ok(());
    }
    transactions.make_room_for(txn)
}

/// Concludes an event of a ballot: sends these envelopes, and settles the transaction where that decided it. What came early
/// of it is forgotten. There is room for all. Takes no memory.
pub(crate) fn conclude(
    kept: &mut ShardKept,
    clock: Clock,
    txn: TxnId,
    complete: Option<Complete>,
    stamp: Stamp,
    envelopes: Vec<Envelope>,
    outbox: &mut Outbox,
)
    requires settles { IfSome complete (λ c. MaySettle txn clock stamp kept.old c) }
    requires posts { length envelopes.items ≤ outbox.old.room }
    ensures concluded { IsConcluded txn stamp clock complete kept.old kept.new }
    ensures sent { (top : TopologyValue) (me : ℕ) → IsPlace top me kept.old.place → outbox.new.sent ≡ outbox.old.sent ++ envelopes.items }
{
    match complete {
        Some(complete) => settle(kept, clock, txn, complete, stamp, envelopes, outbox),
        None => {
            kept.transactions.forget_votes(txn);
            kept.notices.forget(txn);
            outbox.post_all(envelopes);
            kept.clock = clock;
        }
    }
}

/// A notice or an answer that may be the last missing thing, as `count` counts it. Refused with `Memory` alone.
fn count_last(
    kept: &mut ShardKept,
    clock: Clock,
    txn: TxnId,
    missing: Missing,
    outbox: &mut Outbox,
) -> Result<(), Fault>
    requires { IsInTime missing (state_of kept.old.transactions.ledger txn) }
    ensures step { OnOk result (Does (λ top me a. on_missing missing top me clock a txn) kept.old kept.new outbox.old.sent outbox.new.sent) }
    ensures same { OnErr result (IsSpared kept.old kept.new) }
    ensures unsent { OnErr result (outbox.new.sent ≡ outbox.old.sent) }
    // it takes no memory where only the clock moves
    ensures quiet { IfIgnored (λ top me a. on_missing missing top me clock a txn) clock kept.old (IsOk result) }
    ensures memory { IfErr result (λ e. e ≡ fault.Memory) }
{
    let time = clock.now();
    let (stamp, decided, envelopes) = match kept.transactions.ledger().open(txn) {
        Some(Open::Remote(remote)) => {
            let is_ready = remote.is_last(&missing);
            let envelopes = told_by(kept, time, remote, is_ready)?;
            (
                remote.ballot.stamp(),
                is_decided(remote, is_ready),
                envelopes,
            )
        }
        _ => {
            kept.clock = clock;
            return Ok(());
        }
    };
    outbox.reserve(envelopes.len())?;
    make_room_if(&mut kept.transactions, decided, txn)?;
    let complete = kept.transactions.count(txn, missing, time)?;
    conclude(kept, clock, txn, complete, stamp, envelopes, outbox);
    Ok(())
}

/// A notice or an answer: counted if a ballot of the transaction waits that misses it, and the last missing thing makes the
/// ballot ready; else ignored. Refused with `Memory` alone.
#[inline]
fn count(
    kept: &mut ShardKept,
    clock: Clock,
    txn: TxnId,
    missing: Missing,
    outbox: &mut Outbox,
) -> Result<(), Fault>
    requires { IsInTime missing (state_of kept.old.transactions.ledger txn) }
    ensures step { OnOk result (Does (λ top me a. on_missing missing top me clock a txn) kept.old kept.new outbox.old.sent outbox.new.sent) }
    ensures same { OnErr result (IsSpared kept.old kept.new) }
    ensures unsent { OnErr result (outbox.new.sent ≡ outbox.old.sent) }
    // it takes no memory where only the clock moves
    ensures quiet { IfIgnored (λ top me a. on_missing missing top me clock a txn) clock kept.old (IsOk result) }
    ensures memory { IfErr result (λ e. e ≡ fault.Memory) }
{
    let early = missing;
    if !kept.transactions.count_early(txn, early) {
        kept.clock = clock;
        return Ok(());
    }
    count_last(kept, clock, txn, missing, outbox)
}

/// Notify: an early notice is kept, once for each node; one of a cohort that isn't yet counted is counted, and the last
/// missing thing makes the ballot ready; else ignored. Refused with `Memory` alone.
pub(crate) fn notice(
    kept: &mut ShardKept,
    clock: Clock,
    txn: TxnId,
    node: Node,
    outbox: &mut Outbox,
) -> Result<(), Fault>
    ensures step { OnOk result (Does (λ top me a. on_notify top me clock a node txn) kept.old kept.new outbox.old.sent outbox.new.sent) }
    ensures same { OnErr result (IsSpared kept.old kept.new) }
    ensures unsent { OnErr result (outbox.new.sent ≡ outbox.old.sent) }
    // it takes no memory where only the clock moves
    ensures quiet { IfIgnored (λ top me a. on_notify top me clock a node txn) clock kept.old (IsOk result) }
    ensures memory { IfErr result (λ e. e ≡ fault.Memory) }
{
    if !kept.knows(txn) {
        return note_notice(kept, clock, txn, node);
    }
    count(kept, clock, txn, Missing::Notice(node), outbox)
}

/// DepOk: a missing answer of the waiter is counted, and the last missing thing makes its ballot ready; else ignored.
/// Refused with `Memory` alone.
pub(crate) fn dep_ok(
    kept: &mut ShardKept,
    clock: Clock,
    dependency: TxnId,
    waiter: TxnId,
    outbox: &mut Outbox,
) -> Result<(), Fault>
    ensures step { OnOk result (Does (λ top me a. on_dep_ok top me clock a dependency waiter) kept.old kept.new outbox.old.sent outbox.new.sent) }
    ensures same { OnErr result (IsSpared kept.old kept.new) }
    ensures unsent { OnErr result (outbox.new.sent ≡ outbox.old.sent) }
    // it takes no memory where only the clock moves
    ensures quiet { IfIgnored (λ top me a. on_dep_ok top me clock a dependency waiter) clock kept.old (IsOk result) }
    ensures memory { IfErr result (λ e. e ≡ fault.Memory) }
{
    count(kept, clock, waiter, Missing::Answer(dependency), outbox)
}
