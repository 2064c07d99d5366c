//! Answers to dependency checks that count once.
ghost use Rattle.std.specs.Prelude.{◌≡◌, ◌==◌, ◌<◌, ◌^◌, length, IfOk, IfErr};
ghost use Rattle.logical_time.specs.declared.fault.Fault.TheVariants as fault;
ghost use Rattle.std.specs.List.{list_all};
ghost use Rattle.std.specs.List.Sorted.{IsStrictlySortedBy};
ghost use Rattle.std.specs.Ordering.{is_eq};
ghost use Rattle.logical_time.specs.Stamps.{TxnValue, txn_cmp};
ghost use Rattle.txn_state.specs.Answers.{is_unanswered, is_dependency, answered};

use logical_time::{Fault, TxnId, Writer};
use std::alloc::Global;
use std::collections::BTreeSet;
use std::marker::Model;

/// The dependencies of a write whose answers are missing, as transactions.
#[derive(Drop)]
pub struct Answers {
    // a tree, so that answers cost the same in whatever order they come
    missing: BTreeSet<TxnId>,
}

impl Model for Answers {
    ghost use Rattle.std.specs.Prelude.{List};
    ghost use Rattle.std.specs.List.Sorted.{IsStrictlySortedBy};
    ghost use Rattle.logical_time.specs.Stamps.{TxnValue, txn_cmp};

    ghost Value = { List TxnValue };

    ghost view = { λ a. a.missing.keys };

    ghost invariant = { λ a. IsStrictlySortedBy txn_cmp a.missing.keys };
}

/// The transactions of these dependencies.
fn txns_of(alloc: Global, dependencies: &[Writer]) -> Result<BTreeSet<TxnId>, Fault>
    ensures ok { IfOk result (λ txns. (t : TxnValue) → is_unanswered txns.keys t ≡ is_dependency dependencies.now t) }
    ensures ordered { IfOk result (λ txns. IsStrictlySortedBy txn_cmp txns.keys) }
    ensures memory { IfErr result (λ e. e ≡ fault.Memory) }
{
    let txns = dependencies.iter().map(|w| w.txn()).collect(alloc)?;
    Ok(txns)
}

fn are_all(missing: &BTreeSet<TxnId>, txn: TxnId) -> bool
    ensures { result ≡ list_all (λ u. is_eq (txn_cmp u txn)) missing.now.keys }
{
    missing.iter().all(|t| *t == txn)
}

/// Takes the transaction out.
fn take_out(missing: &mut BTreeSet<TxnId>, txn: TxnId)
    requires { IsStrictlySortedBy txn_cmp missing.old.keys }
    ensures ordered { IsStrictlySortedBy txn_cmp missing.new.keys }
    ensures rest { missing.new.keys ≡ answered missing.old.keys txn }
{
    let _was_missing = missing.remove(&txn);
}

impl Answers {
    /// The answers for these dependencies, all of them missing. In the order of d log d for d dependencies. Refused with
    /// `Memory` alone.
    pub fn new(alloc: Global, dependencies: &[Writer]) -> Result<Answers, Fault>
        ensures ok { IfOk result (λ answers. (t : TxnValue) → is_unanswered answers t ≡ is_dependency dependencies.now t) }
        ensures memory { IfErr result (λ e. e ≡ fault.Memory) }
    {
        let missing = txns_of(alloc, dependencies)?;
        Ok(Answers { missing })
    }

    /// How many are missing.
    pub fn len(&self) -> usize
        ensures len { result ≡ length self.now }
        ensures small { result < 2 ^ 63 }
    {
        self.missing.len()
    }

    /// Whether none is missing once the one for this transaction has come.
    pub fn is_last(&self, txn: TxnId) -> bool
        ensures { result ≡ (length (answered self.now txn) == 0) }
    {
        are_all(&self.missing, txn)
    }

    /// Counts an answer, in the order of log d for d that are missing.
    pub(crate) fn count(&mut self, txn: TxnId)
        ensures { self.new ≡ answered self.old txn }
    {
        take_out(&mut self.missing, txn);
    }
}
