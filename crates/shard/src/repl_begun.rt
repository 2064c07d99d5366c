//! The ballot of another data centre's write as it comes to its coordinator: ReplBegin.
ghost use Rattle.std.specs.Prelude.{◌≡◌, ℕ, true, None, IsOk, IfOk, OnOk, OnErr, IfErr};
ghost use Rattle.logical_time.specs.Stamps.{TxnValue};
ghost use Rattle.logical_time.specs.declared.fault.Fault.TheVariants as fault;
ghost use Rattle.store.specs.Keeps.{AreApart};
ghost use Rattle.store.specs.Stored.{HasRoom};
ghost use Rattle.txn_state.specs.Votes.{votes_after};
ghost use Rattle.txn_state.specs.Answers.{is_unanswered, is_dependency};
ghost use Rattle.messages.specs.Topology.{TopologyValue};
ghost use Rattle.messages.specs.Place.{IsPlace};
ghost use Rattle.messages.specs.Shard.{ShardState};
ghost use Rattle.messages.specs.Replication as machine;
ghost use Rattle.write_txn.specs.Ledger.{state_of};
ghost use Rattle.write_txn.specs.Stands.{kept_ballot_of};
ghost use Rattle.write_txn.specs.Transactions.{GoesOnKeeping};
ghost use Rattle.write_txn.specs.View as view;
ghost use Rattle.write_txn.specs.Voters.{voters_of};
ghost use Rattle.shard.specs.Kept.{Represents, IsStep, Does};
ghost use Rattle.shard.specs.Effects.{IsSpared};
ghost use Rattle.shard.specs.Ignored.{IfIgnored};
ghost use Rattle.shard.specs.ReplBegun.{ballot_begun, IsBegun};

use crate::kept::ShardKept;
use crate::replicas::{conclude, is_decided, told_by};
use column_family::Batch;
use logical_time::{Clock, Fault, Stamp, TxnId, Writer};
use messages::{Cohorts, Dependencies, Outbox};
use replicator::{near_nodes, post_dep_checks};
use txn_state::{Answers, RemoteBallot, Votes, WritePart};
use write_txn::{Remote, Transactions};

/// What a ReplBegin brings: another data centre's write, with the stamp that it has there.
#[derive(Drop)]
pub(crate) struct ReplBegun {
    /// The transaction.
    pub(crate) txn: TxnId,
    /// The coordinator's own part.
    pub(crate) rows: Batch,
    /// The stamp.
    pub(crate) stamp: Stamp,
    /// The other shards.
    pub(crate) cohorts: Cohorts,
    /// What the write depends on.
    pub(crate) dependencies: Dependencies,
}

/// What is missing of a ballot that has just come: notices, of which some may have come early, and all answers.
fn missing_of(kept: &ShardKept, begun: &ReplBegun) -> Result<(Votes, Answers), Fault>
    ensures notices { (top : TopologyValue) (me : ℕ) → IsPlace top me kept.now.place
        → IfOk result (λ missing. missing.0 ≡ votes_after (view.near_nodes top me begun.now.cohorts) (voters_of kept.now.notices begun.now.txn)) }
    ensures answers { IfOk result (λ missing. (t : TxnValue) → is_unanswered missing.1 t ≡ is_dependency begun.now.dependencies t) }
    ensures memory { IfErr result (λ e. e ≡ fault.Memory) }
{
    let nodes = near_nodes(kept.alloc, kept.place, &begun.cohorts)?;
    let notices = Votes::new(kept.alloc, nodes, kept.notices.of(begun.txn))?;
    let answers = Answers::new(kept.alloc, begun.dependencies.as_slice())?;
    Ok((notices, answers))
}

/// The ballot as it has just come. Refused with `Memory` alone, and then all comes back.
fn remote_of(kept: &ShardKept, begun: ReplBegun) -> Result<Remote, (Fault, ReplBegun)>
    ensures begun { (top : TopologyValue) (me : ℕ) → IsPlace top me kept.now.place → IfOk result (λ remote. IsBegun top me (voters_of kept.now.notices begun.txn) remote) }
    ensures ballot { IfOk result (λ remote. kept_ballot_of remote ≡ ballot_begun begun) }
    ensures memory { IfErr result (λ e. (e.0 ≡ fault.Memory) × (e.1 ≡ begun)) }
{
    let (notices, answers) = match missing_of(kept, &begun) {
        Ok(missing) => missing,
        Err(fault) => return Err((fault, begun)),
    };
    let ReplBegun {
        txn,
        rows,
        stamp,
        cohorts,
        dependencies,
    } = begun;
    let shard = kept.place.shard();
    let part = WritePart {
        writer: Writer::new(txn, shard),
        batch: rows,
    };
    Ok(Remote {
        ballot: RemoteBallot::new(part, stamp, notices, answers),
        cohorts,
        dependencies,
    })
}

/// Takes a ballot apart that was refused.
fn taken_apart(remote: Remote) -> ReplBegun
    ensures { ballot_begun result ≡ kept_ballot_of remote }
{
    let Remote {
        ballot,
        cohorts,
        dependencies,
    } = remote;
    let stamp = ballot.stamp();
    let WritePart { writer, batch } = ballot.surrender();
    ReplBegun {
        txn: writer.txn(),
        rows: batch,
        stamp,
        cohorts,
        dependencies,
    }
}

/// Makes room in the store for a ballot's own part, if it is decided.
fn make_room_if(
    transactions: &mut Transactions,
    is_decided: bool,
    rows: &Batch,
) -> Result<(), Fault>
    ensures ok { OnOk result (is_decided ≡ true → HasRoom transactions.new.store rows.now) }
    ensures store { GoesOnKeeping transactions.old.store transactions.new.store }
    ensures ledger { transactions.new.ledger ≡ transactions.old.ledger }
    ensures early { transactions.new.early ≡ transactions.old.early }
    ensures memory { IfErr result (λ e. e ≡ fault.Memory) }
{
    if !is_decided {
        return Ok(());
    }
    transactions.make_room(rows)
}

/// Keeps a ballot of an unknown transaction, and makes it ready if nothing is missing. Refused with `Memory` alone, and then
/// the ballot comes back.
fn begin(
    kept: &mut ShardKept,
    clock: Clock,
    remote: Remote,
    outbox: &mut Outbox,
) -> Result<(), (Fault, Remote)>
    requires unknown { state_of kept.old.transactions.ledger remote.ballot.part.writer.txn ≡ None }
    ensures step { OnOk result ((top : TopologyValue) (me : ℕ) (a : ShardState) → Represents top me kept.old a → IsBegun top me (voters_of kept.old.notices (kept_ballot_of remote).txn) remote
        → AreApart (machine.on_repl_begin top me clock a (kept_ballot_of remote)).state.applied
        → IsStep top me (machine.on_repl_begin top me clock a (kept_ballot_of remote)) kept.new outbox.old.sent outbox.new.sent) }
    ensures same { OnErr result (IsSpared kept.old kept.new) }
    ensures unsent { OnErr result (outbox.new.sent ≡ outbox.old.sent) }
    ensures memory { IfErr result (λ e. (e.0 ≡ fault.Memory) × (e.1 ≡ remote)) }
{
    let time = clock.now();
    let txn = remote.ballot.writer().txn();
    let stamp = remote.ballot.stamp();
    let is_ready = remote.ballot.missing() == 0;
    let Ok(dependencies) = remote.dependencies.clone() else {
        return Err((Fault::Memory, remote));
    };
    let told = match told_by(kept, time, &remote, is_ready) {
        Ok(told) => told,
        Err(fault) => return Err((fault, remote)),
    };
    let checks = dependencies.as_slice();
    match outbox.reserve(checks.len() + told.len()) {
        Ok(()) => {}
        Err(fault) => return Err((fault, remote)),
    }
    let decided = is_decided(&remote, is_ready);
    match make_room_if(&mut kept.transactions, decided, remote.ballot.part()) {
        Ok(()) => {}
        Err(fault) => return Err((fault, remote)),
    }
    let complete = kept.transactions.wait(remote, time)?;
    post_dep_checks(kept.place, time, txn, checks, outbox);
    conclude(kept, clock, txn, complete, stamp, told, outbox);
    Ok(())
}

/// ReplBegin: ignored where the transaction is known; else its ballot is kept with the notices that came early counted, a
/// DepCheck goes to each dependency, and if nothing is missing it is made ready. Refused with `Memory` alone, and then
/// all comes back.
pub(crate) fn repl_begin(
    kept: &mut ShardKept,
    clock: Clock,
    begun: ReplBegun,
    outbox: &mut Outbox,
) -> Result<(), (Fault, ReplBegun)>
    ensures step { OnOk result (Does (λ top me a. machine.on_repl_begin top me clock a (ballot_begun begun)) kept.old kept.new outbox.old.sent outbox.new.sent) }
    ensures same { OnErr result (IsSpared kept.old kept.new) }
    ensures unsent { OnErr result (outbox.new.sent ≡ outbox.old.sent) }
    // it takes no memory where only the clock moves
    ensures quiet { IfIgnored (λ top me a. machine.on_repl_begin top me clock a (ballot_begun begun)) clock kept.old (IsOk result) }
    ensures memory { IfErr result (λ e. (e.0 ≡ fault.Memory) × (e.1 ≡ begun)) }
{
    if kept.knows(begun.txn) {
        drop(begun);
        kept.clock = clock;
        return Ok(());
    }
    let remote = remote_of(kept, begun)?;
    match begin(kept, clock, remote, outbox) {
        Ok(()) => Ok(()),
        Err((fault, remote)) => Err((fault, taken_apart(remote))),
    }
}
