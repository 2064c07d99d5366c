//! What a shard keeps.
use commit_check::Waits;
use dependencies::Askers;
use logical_time::{Clock, TxnId};
use messages::Place;
use std::alloc::Global;
use write_txn::{Transactions, Voters};

/// What a shard keeps.
pub(crate) struct ShardKept {
    /// Where growths come from.
    pub(crate) alloc: Global,
    /// Where the shard stands.
    pub(crate) place: Place,
    /// Its clock.
    pub(crate) clock: Clock,
    /// Its transactions, what it applied, and votes that came early.
    pub(crate) transactions: Transactions,
    /// The notices of replicated parts that came early.
    pub(crate) notices: Voters,
    /// Who asked for what isn't decided: for writes, and for moves.
    pub(crate) askers: Askers,
    /// The reads that wait.
    pub(crate) waiting: Waits,
}

impl ShardKept {
    ghost use Rattle.std.specs.Prelude.{◌≡◌, is_some};
    ghost use Rattle.write_txn.specs.Ledger.{state_of};

    /// Whether anything is known of the transaction.
    pub(crate) fn knows(&self, txn: TxnId) -> bool
        ensures { result ≡ is_some (state_of self.now.transactions.ledger txn) }
    {
        self.transactions.ledger().knows(txn)
    }
}
