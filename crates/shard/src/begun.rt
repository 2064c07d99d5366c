//! Begin.
ghost use Rattle.std.specs.Prelude.{◌≡◌, ◌<◌, ◌≤◌, ◌+◌, ◌^◌, ℕ, List, [], length, None, IsOk, IfOk, OnOk, OnErr, IfErr};
ghost use Rattle.logical_time.specs.declared.fault.Fault.TheVariants as fault;
ghost use Rattle.store.specs.Keeps.{AreApart};
ghost use Rattle.store.specs.Stored.{HasRoom};
ghost use Rattle.messages.specs.declared.envelope.Envelope.{Envelope};
ghost use Rattle.messages.specs.Topology.{TopologyValue};
ghost use Rattle.messages.specs.Shard.{ShardState};
ghost use Rattle.messages.specs.Known.{decision_of};
ghost use Rattle.messages.specs.Commits.{decide, on_begin};
ghost use Rattle.write_txn.specs.Ledger.{state_of};
ghost use Rattle.shard.specs.Kept.{Represents, Does};
ghost use Rattle.shard.specs.Effects.{IsSpared};
ghost use Rattle.shard.specs.Ignored.{IfIgnored};
ghost use Rattle.shard.specs.Deciding.{node_at, told};
ghost use Rattle.shard.specs.Begun.{ballot_of, IsDecidedNow, AreVotes};

use crate::deciding::{Deciding, settle, tell};
use crate::kept::ShardKept;
use column_family::Batch;
use logical_time::{Clock, Fault, Stamp, TxnId, Writer};
use messages::{Cohorts, Dependencies, Envelope, Outbox};
use replicator::near_nodes;
use txn_state::{Ballot, Complete, Prepared, Votes, WritePart};
use write_txn::Led;

/// What a Begin says.
#[derive(Drop)]
pub(crate) struct Begun {
    /// The transaction.
    pub(crate) txn: TxnId,
    /// The coordinator's own part.
    pub(crate) rows: Batch,
    /// The other shards.
    pub(crate) cohorts: Cohorts,
    /// What the write depends on.
    pub(crate) dependencies: Dependencies,
}

/// The votes of a transaction's cohorts, those that came early counted.
fn votes_of(kept: &ShardKept, begun: &Begun) -> Result<Votes, Fault>
    ensures ok { IfOk result (AreVotes kept.now begun.now) }
    ensures memory { IfErr result (λ e. e ≡ fault.Memory) }
{
    let nodes = near_nodes(kept.alloc, kept.place, &begun.cohorts)?;
    Votes::new(kept.alloc, nodes, kept.transactions.early(begun.txn))
}

/// What a Begin said, from the ballot that was made of it.
fn begun_again(led: Led) -> Begun
    ensures { result ≡ record { txn = led.ballot.own.part.writer.txn; rows = led.ballot.own.part.batch; cohorts = led.cohorts; dependencies = led.dependencies } }
{
    let Led {
        ballot,
        cohorts,
        dependencies,
        stamp: _,
    } = led;
    let part = ballot.surrender();
    Begun {
        txn: part.writer.txn(),
        rows: part.batch,
        cohorts,
        dependencies,
    }
}

/// The coordinator's own part, prepared.
fn own_part(kept: &ShardKept, clock: Clock, txn: TxnId, rows: Batch) -> Prepared
    ensures { result ≡ record { part = record { writer = record { txn = txn; shard = kept.now.place.shard }; batch = rows }; time = clock } }
{
    let writer = Writer::new(txn, kept.place.shard());
    let part = WritePart {
        writer,
        batch: rows,
    };
    Prepared::new(part, clock.now())
}

/// Begin, where votes are missing: the ballot is held, and the rows of the coordinator's own part are marked.
fn hold(
    kept: &mut ShardKept,
    clock: Clock,
    begun: Begun,
    votes: Votes,
) -> Result<(), (Fault, Begun)>
    requires unknown { state_of kept.old.transactions.ledger begun.txn ≡ None }
    requires votes { AreVotes kept.old begun votes }
    requires missing { 0 < length votes.missing }
    ensures step { OnOk result ((sent : List Envelope) → Does (λ top me a. on_begin top me clock a (ballot_of begun)) kept.old kept.new sent sent) }
    ensures same { OnErr result (IsSpared kept.old kept.new) }
    ensures memory { IfErr result (λ e. (e.0 ≡ fault.Memory) × (e.1 ≡ begun)) }
{
    let Begun {
        txn,
        rows,
        cohorts,
        dependencies,
    } = begun;
    let own = own_part(kept, clock, txn, rows);
    let led = Led {
        ballot: Ballot::new(own, votes),
        cohorts,
        dependencies,
        stamp: None,
    };
    match kept.transactions.hold(led) {
        Ok(()) => {}
        Err((fault, led)) => return Err((fault, begun_again(led))),
    }
    kept.transactions.forget_votes(txn);
    kept.notices.forget(txn);
    kept.clock = clock;
    Ok(())
}

/// Makes all the room that a decision needs, notes it, and gives what is sent after the Commits.
fn note_decision(
    kept: &mut ShardKept,
    clock: Clock,
    begun: &Begun,
    commits: usize,
    outbox: &mut Outbox,
) -> Result<Vec<Envelope>, Fault>
    requires unknown { state_of kept.old.transactions.ledger begun.now.txn ≡ None }
    requires small { commits < 2 ^ 63 }
    ensures noted { OnOk result (IsDecidedNow begun.now.txn clock (record { time = clock; node = node_at kept.old.place }) kept.old kept.new) }
    ensures room { OnOk result (HasRoom kept.new.transactions.store begun.now.rows) }
    ensures posts { IfOk result (λ envelopes. commits + length envelopes.items ≤ outbox.new.room) }
    ensures told { (top : TopologyValue) (me : ℕ) (a : ShardState) → Represents top me kept.old a → decision_of begun.now.txn a ≡ None
        → AreApart (decide top me clock a (ballot_of begun.now)).state.applied
        → IfOk result (λ envelopes. envelopes.items ≡ told top me clock a (ballot_of begun.now)) }
    ensures same { OnErr result (IsSpared kept.old kept.new) }
    ensures unsent { outbox.new.sent ≡ outbox.old.sent }
    ensures memory { IfErr result (λ e. e ≡ fault.Memory) }
{
    let deciding = Deciding {
        txn: begun.txn,
        rows: &begun.rows,
        cohorts: &begun.cohorts,
        dependencies: &begun.dependencies,
        stamp: None,
    };
    let envelopes = tell(kept, clock.now(), &deciding)?;
    outbox.reserve(commits + envelopes.len())?;
    kept.transactions.make_room(&begun.rows)?;
    let stamp = Stamp::new(clock.now(), kept.place.node());
    kept.transactions
        .note_decided(begun.txn, clock.now(), stamp)?;
    Ok(envelopes)
}

/// Begin, where no vote is missing: the transaction is decided.
fn decide_now(
    kept: &mut ShardKept,
    clock: Clock,
    begun: Begun,
    votes: Votes,
    outbox: &mut Outbox,
) -> Result<(), (Fault, Begun)>
    requires unknown { state_of kept.old.transactions.ledger begun.txn ≡ None }
    requires votes { AreVotes kept.old begun votes }
    requires none { votes.missing ≡ [] }
    ensures step { OnOk result (Does (λ top me a. on_begin top me clock a (ballot_of begun)) kept.old kept.new outbox.old.sent outbox.new.sent) }
    ensures same { OnErr result (IsSpared kept.old kept.new) }
    ensures unsent { OnErr result (outbox.new.sent ≡ outbox.old.sent) }
    ensures memory { IfErr result (λ e. (e.0 ≡ fault.Memory) × (e.1 ≡ begun)) }
{
    let commits = votes.cohorts().len();
    let envelopes = match note_decision(kept, clock, &begun, commits, outbox) {
        Ok(envelopes) => envelopes,
        Err(fault) => return Err((fault, begun)),
    };
    let Begun {
        txn,
        rows,
        cohorts: _,
        dependencies: _,
    } = begun;
    let stamp = Stamp::new(clock.now(), kept.place.node());
    let complete = Complete::new(own_part(kept, clock, txn, rows), votes);
    settle(kept, clock, txn, complete, stamp, envelopes, outbox);
    Ok(())
}

/// Begin: ignored where the transaction is known. Where all cohorts have voted, or there are none, it is decided; else its
/// ballot is held, with the early votes counted. Refused with `Memory` alone, and then what it says comes back.
pub(crate) fn begin(
    kept: &mut ShardKept,
    clock: Clock,
    begun: Begun,
    outbox: &mut Outbox,
) -> Result<(), (Fault, Begun)>
    ensures step { OnOk result (Does (λ top me a. on_begin top me clock a (ballot_of begun)) kept.old kept.new outbox.old.sent outbox.new.sent) }
    ensures same { OnErr result (IsSpared kept.old kept.new) }
    ensures unsent { OnErr result (outbox.new.sent ≡ outbox.old.sent) }
    // it takes no memory where only the clock moves
    ensures quiet { IfIgnored (λ top me a. on_begin top me clock a (ballot_of begun)) clock kept.old (IsOk result) }
    ensures memory { IfErr result (λ e. (e.0 ≡ fault.Memory) × (e.1 ≡ begun)) }
{
    if kept.knows(begun.txn) {
        drop(begun);
        kept.clock = clock;
        return Ok(());
    }
    let votes = match votes_of(kept, &begun) {
        Ok(votes) => votes,
        Err(fault) => return Err((fault, begun)),
    };
    if votes.missing().is_empty() {
        decide_now(kept, clock, begun, votes, outbox)
    } else {
        hold(kept, clock, begun, votes)
    }
}
