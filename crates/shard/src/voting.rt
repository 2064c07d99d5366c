//! Yes.
ghost use Rattle.std.specs.Prelude.{◌≡◌, ◌<◌, ◌^◌, ℕ, List, length, Some, true, false, is_some, IsOk, IfOk, OnOk, OnErr, IfErr};
ghost use Rattle.logical_time.specs.declared.fault.Fault.TheVariants as fault;
ghost use Rattle.store.specs.Keeps.{AreApart};
ghost use Rattle.messages.specs.declared.envelope.Envelope.{Envelope};
ghost use Rattle.messages.specs.Topology.{TopologyValue};
ghost use Rattle.messages.specs.Shard.{ShardState};
ghost use Rattle.messages.specs.Commits.{decide, on_yes, stamp_for};
ghost use Rattle.write_txn.specs.declared.open.Open.TheVariants as in_open;
ghost use Rattle.write_txn.specs.declared.open.Led.{Led};
ghost use Rattle.write_txn.specs.Ledger.{state_of, Holds, completed_by};
ghost use Rattle.write_txn.specs.Stands.{begun_of};
ghost use Rattle.shard.specs.Kept.{Represents, Does};
ghost use Rattle.shard.specs.Effects.{IsSpared};
ghost use Rattle.shard.specs.Ignored.{IfIgnored};
ghost use Rattle.shard.specs.Deciding.{node_at, told};

use crate::deciding::{Deciding, settle, tell};
use crate::early::note_vote;
use crate::kept::ShardKept;
use logical_time::{Clock, Fault, Node, Stamp, TxnId};
use messages::{Envelope, Outbox};
use write_txn::{Led as Held, Open, stamp_of};

/// What a decision is going to send, with the transaction's stamp.
struct Announcing {
    /// The stamp.
    stamp: Stamp,
    /// How many Commits.
    commits: usize,
    /// What is sent after them.
    envelopes: Vec<Envelope>,
}

/// Whether the vote of the node is the last that a ballot of the transaction misses.
fn is_last(kept: &ShardKept, txn: TxnId, node: Node) -> bool
    ensures { result ≡ is_some (completed_by node (state_of kept.now.transactions.ledger txn)) }
{
    match kept.transactions.ledger().open(txn) {
        Some(Open::Led(led)) => led.ballot.votes().is_last(node),
        _ => false,
    }
}

/// What the decision of this ballot is going to send.
fn told_with(kept: &ShardKept, clock: Clock, txn: TxnId, led: &Held) -> Result<Announcing, Fault>
    requires { led.now.ballot.own.part.writer.txn ≡ txn }
    ensures ok { (top : TopologyValue) (me : ℕ) (a : ShardState) → Represents top me kept.now a → state_of kept.now.transactions.ledger txn ≡ Some (Holds (in_open.Led led.now))
        → AreApart (decide top me clock a (begun_of led.now)).state.applied
        → IfOk result (λ all. all.envelopes.items ≡ told top me clock a (begun_of led.now)) }
    ensures stamp { IfOk result (λ all. all.stamp ≡ stamp_for (node_at kept.now.place) clock led.now.stamp) }
    ensures commits { IfOk result (λ all. all.commits ≡ length led.now.ballot.votes.cohorts) }
    ensures small { IfOk result (λ all. all.commits < 2 ^ 63) }
    ensures memory { IfErr result (λ e. e ≡ fault.Memory) }
{
    let deciding = Deciding {
        txn,
        rows: led.ballot.part(),
        cohorts: &led.cohorts,
        dependencies: &led.dependencies,
        stamp: led.stamp,
    };
    let envelopes = tell(kept, clock.now(), &deciding)?;
    Ok(Announcing {
        stamp: stamp_of(kept.place.node(), clock.now(), &led.stamp),
        commits: led.ballot.votes().cohorts().len(),
        envelopes,
    })
}

/// What the decision of the transaction's ballot is going to send.
fn told_of(kept: &ShardKept, clock: Clock, txn: TxnId, node: Node) -> Result<Announcing, Fault>
    requires { is_some (completed_by node (state_of kept.now.transactions.ledger txn)) ≡ true }
    ensures ok { (top : TopologyValue) (me : ℕ) (a : ShardState) (l : Led) → Represents top me kept.now a → state_of kept.now.transactions.ledger txn ≡ Some (Holds (in_open.Led l))
        → AreApart (decide top me clock a (begun_of l)).state.applied
        → IfOk result (λ all. all.envelopes.items ≡ told top me clock a (begun_of l)) }
    ensures stamp { (l : Led) → state_of kept.now.transactions.ledger txn ≡ Some (Holds (in_open.Led l)) → IfOk result (λ all. all.stamp ≡ stamp_for (node_at kept.now.place) clock l.stamp) }
    ensures commits { (l : Led) → state_of kept.now.transactions.ledger txn ≡ Some (Holds (in_open.Led l)) → IfOk result (λ all. all.commits ≡ length l.ballot.votes.cohorts) }
    ensures small { IfOk result (λ all. all.commits < 2 ^ 63) }
    ensures memory { IfErr result (λ e. e ≡ fault.Memory) }
{
    match kept.transactions.ledger().open(txn) {
        Some(Open::Led(led)) => told_with(kept, clock, txn, led),
        _ => unreachable!(),
    }
}

/// The last vote that a ballot misses: the transaction is decided.
fn decide_by(
    kept: &mut ShardKept,
    clock: Clock,
    txn: TxnId,
    node: Node,
    outbox: &mut Outbox,
) -> Result<(), Fault>
    requires { is_some (completed_by node (state_of kept.old.transactions.ledger txn)) ≡ true }
    ensures step { OnOk result (Does (λ top me a. on_yes top me clock a node txn) kept.old kept.new outbox.old.sent outbox.new.sent) }
    ensures same { OnErr result (IsSpared kept.old kept.new) }
    ensures unsent { OnErr result (outbox.new.sent ≡ outbox.old.sent) }
    ensures memory { IfErr result (λ e. e ≡ fault.Memory) }
{
    let Announcing {
        stamp,
        commits,
        envelopes,
    } = told_of(kept, clock, txn, node)?;
    outbox.reserve(commits + envelopes.len())?;
    kept.transactions.make_room_for(txn)?;
    let here = kept.place.node();
    match kept.transactions.vote(txn, node, here, clock.now()) {
        Some(complete) => settle(kept, clock, txn, complete, stamp, envelopes, outbox),
        None => unreachable!(),
    }
    Ok(())
}

/// A vote that isn't the last: it is counted if a ballot misses it, else ignored. Takes no memory.
fn count(kept: &mut ShardKept, clock: Clock, txn: TxnId, node: Node)
    requires known { is_some (state_of kept.old.transactions.ledger txn) ≡ true }
    requires not_last { is_some (completed_by node (state_of kept.old.transactions.ledger txn)) ≡ false }
    ensures { (sent : List Envelope) → Does (λ top me a. on_yes top me clock a node txn) kept.old kept.new sent sent }
{
    let here = kept.place.node();
    match kept.transactions.vote(txn, node, here, clock.now()) {
        None => kept.clock = clock,
        Some(complete) => {
            let _own = complete.surrender();
            unreachable!()
        }
    }
}

/// Yes: the vote of a cohort is counted once, and the last one decides; before Begin it is kept; else ignored. Refused with
/// `Memory` alone, and only where it is kept or decides.
pub(crate) fn yes(
    kept: &mut ShardKept,
    clock: Clock,
    txn: TxnId,
    node: Node,
    outbox: &mut Outbox,
) -> Result<(), Fault>
    ensures step { OnOk result (Does (λ top me a. on_yes top me clock a node txn) kept.old kept.new outbox.old.sent outbox.new.sent) }
    ensures same { OnErr result (IsSpared kept.old kept.new) }
    ensures unsent { OnErr result (outbox.new.sent ≡ outbox.old.sent) }
    // it takes no memory where only the clock moves
    ensures quiet { IfIgnored (λ top me a. on_yes top me clock a node txn) clock kept.old (IsOk result) }
    ensures memory { IfErr result (λ e. e ≡ fault.Memory) }
{
    if !kept.knows(txn) {
        return note_vote(kept, clock, txn, node);
    }
    if is_last(kept, txn, node) {
        return decide_by(kept, clock, txn, node, outbox);
    }
    count(kept, clock, txn, node);
    Ok(())
}
