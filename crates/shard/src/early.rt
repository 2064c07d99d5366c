//! Votes and notices for transactions of which nothing is known: they send nothing.
ghost use Rattle.std.specs.Prelude.{◌≡◌, ℕ, List, None, true, IsOk, OnOk, OnErr, IfErr};
ghost use Rattle.logical_time.specs.declared.fault.Fault.TheVariants as fault;
ghost use Rattle.txn_state.specs.Votes.{is_among};
ghost use Rattle.messages.specs.declared.envelope.Envelope.{Envelope};
ghost use Rattle.messages.specs.Topology.{TopologyValue};
ghost use Rattle.messages.specs.Shard.{ShardState};
ghost use Rattle.messages.specs.Commits.{on_yes};
ghost use Rattle.messages.specs.Replication.{on_notify};
ghost use Rattle.write_txn.specs.Ledger.{state_of};
ghost use Rattle.write_txn.specs.Voters.{voters_of};
ghost use Rattle.shard.specs.Kept.{Represents, IsStep};
ghost use Rattle.shard.specs.Effects.{IsSpared};

use crate::kept::ShardKept;
use logical_time::{Clock, Fault, Node, TxnId};

/// Yes, where nothing is known of the transaction: the vote is kept, once for each node. Refused with `Memory` alone.
pub(crate) fn note_vote(
    kept: &mut ShardKept,
    clock: Clock,
    txn: TxnId,
    node: Node,
) -> Result<(), Fault>
    ensures step { OnOk result ((top : TopologyValue) (me : ℕ) (a : ShardState) (sent : List Envelope) → Represents top me kept.old a → state_of kept.old.transactions.ledger txn ≡ None
        → IsStep top me (on_yes top me clock a node txn) kept.new sent sent) }
    // it takes no memory where it is there
    ensures early { is_among (voters_of kept.old.transactions.early txn) node ≡ true → IsOk result }
    ensures same { OnErr result (IsSpared kept.old kept.new) }
    ensures memory { IfErr result (λ e. e ≡ fault.Memory) }
{
    kept.transactions.note_vote(txn, node)?;
    kept.clock = clock;
    Ok(())
}

/// Notify, where nothing is known of the transaction: the notice is kept, once for each node. Refused with `Memory`
/// alone.
pub(crate) fn note_notice(
    kept: &mut ShardKept,
    clock: Clock,
    txn: TxnId,
    node: Node,
) -> Result<(), Fault>
    ensures step { OnOk result ((top : TopologyValue) (me : ℕ) (a : ShardState) (sent : List Envelope) → Represents top me kept.old a → state_of kept.old.transactions.ledger txn ≡ None
        → IsStep top me (on_notify top me clock a node txn) kept.new sent sent) }
    // it takes no memory where it is there
    ensures early { is_among (voters_of kept.old.notices txn) node ≡ true → IsOk result }
    ensures same { OnErr result (IsSpared kept.old kept.new) }
    ensures memory { IfErr result (λ e. e ≡ fault.Memory) }
{
    kept.notices.add(txn, node)?;
    kept.clock = clock;
    Ok(())
}
