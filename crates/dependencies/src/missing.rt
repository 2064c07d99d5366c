//! Dependencies whose answers are missing.
ghost use Rattle.std.specs.Prelude.{◌≡◌, IfOk, IfErr};
ghost use Rattle.std.specs.BTreeSet.{contains};
ghost use Rattle.logical_time.specs.Stamps.{TxnValue, txn_cmp};
ghost use Rattle.messages.specs.SessionEvents.{is_left, left_after};
ghost use Rattle.dependencies.specs.Moving.{none_left};

use logical_time::{Fault, TxnId, Writer, Writers};
use std::alloc::Global;
use std::collections::BTreeSet;
use std::marker::Model;

/// The dependencies of a move whose answers are missing, in the order of the transactions' numbers.
#[derive(Drop)]
pub struct Missing {
    /// All that the move asks for.
    writers: Writers,
    /// The transactions whose answers are missing.
    txns: BTreeSet<TxnId>,
}

impl Model for Missing {
    ghost use Rattle.std.specs.Prelude.{List};
    ghost use Rattle.logical_time.specs.Stamps.{WriterValue};
    ghost use Rattle.dependencies.specs.Moving.{still_missing, AreAsked};

    ghost Value = { List WriterValue };

    ghost view = { λ m. still_missing m.txns m.writers };

    ghost invariant = { λ m. AreAsked m.txns m.writers };
}

/// The transactions of these writers.
fn txns_of(alloc: Global, writers: &[Writer]) -> Result<BTreeSet<TxnId>, Fault>
    ensures ok { IfOk result (λ txns. (t : TxnValue) → contains txn_cmp txns t ≡ is_left t writers.now) }
    ensures memory { IfErr result (λ e. e ≡ Fault.Memory) }
{
    let mut txns = BTreeSet::new(alloc);
    for writer in writers {
        txns.insert(writer.txn())?;
    }
    Ok(txns)
}

impl Missing {
    /// These dependencies, all of whose answers are missing. In the order of n log n for n of them. Refused with `Memory`
    /// alone.
    pub fn new(alloc: Global, writers: Writers) -> Result<Missing, Fault>
        ensures ok { IfOk result (λ missing. missing ≡ writers) }
        ensures memory { IfErr result (λ e. e ≡ Fault.Memory) }
    {
        let txns = txns_of(alloc, writers.as_slice())?;
        Ok(Missing { writers, txns })
    }

    /// Counts the answer about a transaction, and tells whether it was missing. Logarithmic, and takes no memory.
    pub(crate) fn count(&mut self, txn: TxnId) -> bool
        ensures counted { self.new ≡ left_after txn self.old }
        ensures missing { result ≡ is_left txn self.old }
    {
        self.txns.remove(&txn)
    }

    /// Whether no answer is missing.
    pub fn is_empty(&self) -> bool
        ensures { result ≡ none_left self.now }
    {
        self.txns.is_empty()
    }
}
