//! What a shard knows of each transaction.
ghost use Rattle.std.specs.Prelude.{◌≡◌, ℕ, true, false, slice_get, OnOk, OnErr, IfErr, IfSome, None, Some, is_some};
ghost use Rattle.std.specs.Option.{option_copied};
ghost use Rattle.logical_time.specs.declared.fault.Fault.TheVariants as fault;
ghost use Rattle.logical_time.specs.Stamps.{TxnValue};

use crate::open::{Missing, Open};
use crate::status::Status;
use crate::statuses::Statuses;
use crate::steps::{
    add_open, count_early_in, count_in, decided_in, finish_in, open_in, prepare_in, ready_in,
    vote_in,
};
use logical_time::{Fault, Node, Stamp, Time, TxnId};
use std::alloc::Global;
use std::marker::Model;
use txn_state::{Complete, Prepared};

/// What a shard knows of each transaction: what is under way of it, or, once that is over, that its part is applied or
/// how it was decided. What is under way must be spent.
pub struct Ledger {
    statuses: Statuses,
    under_way: Vec<Open>,
}

impl Model for Ledger {
    ghost use Rattle.write_txn.specs.Ledger.{LedgerValue, IsPlaced};

    ghost Value = { LedgerValue };

    ghost view = { λ l. record { statuses = l.statuses; under_way = l.under_way.items } };

    ghost invariant = { λ l. IsPlaced (record { statuses = l.statuses; under_way = l.under_way.items }) };
}

impl Ledger {
    ghost use Rattle.write_txn.specs.declared.open.Open.{Open};
    ghost use Rattle.write_txn.specs.Ledger as ledger;
    ghost use Rattle.write_txn.specs.Ledger.{state_of, txn_of, Holds, IsDecided, Becomes, HaveSameStates, state_prepared, state_applied, part_in, state_voted, completed_by, state_with, state_ready, readied_by, lacks_nothing};

    /// Nothing is known.
    #[tactic(auto, unfolding(crate::specs::Ledger::status_in))]
    pub fn new(alloc: Global) -> Ledger
        ensures { (t : TxnValue) → state_of result t ≡ None }
    {
        Ledger {
            statuses: Statuses::new(alloc),
            under_way: Vec::new(alloc),
        }
    }

    /// Whether anything is known of the transaction. Constant on average, however many transactions are known, as is all
    /// that names one, beside what counting a vote, a notice or an answer takes.
    pub fn knows(&self, txn: TxnId) -> bool
        ensures { result ≡ is_some (state_of self.now txn) }
    {
        self.statuses.get(txn).is_some()
    }

    /// What is under way of the transaction.
    pub fn open(&self, txn: TxnId) -> Option<&Open>
        ensures exact { option_copied result ≡ ledger.open_in (state_of self.now txn) }
        ensures own { IfSome result (λ held. txn_of held.now ≡ txn) }
    {
        open_in(&self.statuses, self.under_way.as_slice(), txn)
    }

    /// Its commit time and its stamp, if the transaction is decided here.
    pub fn decided(&self, txn: TxnId) -> Option<(Time, Stamp)>
        ensures { result ≡ ledger.decided_in (state_of self.now txn) }
    {
        decided_in(&self.statuses, txn)
    }

    /// All that is under way, in no order that means anything.
    pub fn as_slice(&self) -> &[Open]
        ensures exact { result.now ≡ self.now.under_way }
        ensures listed { (place : ℕ) (held : Open) → slice_get result.now place ≡ Some held → state_of self.now (txn_of held) ≡ Some (Holds held) }
        ensures all { (t : TxnValue) (held : Open) → state_of self.now t ≡ Some (Holds held) → (place : ℕ) × (slice_get result.now place ≡ Some held) }
    {
        self.under_way.as_slice()
    }

    /// Adds what is under way of a transaction. Refused with `Memory` alone, and then it comes back and nothing has
    /// changed.
    pub fn add(&mut self, held: Open) -> Result<(), (Fault, Open)>
        requires { state_of self.old (txn_of held) ≡ None }
        ensures ok { OnOk result (Becomes (txn_of held) (Some (Holds held)) self.old self.new) }
        ensures err { OnErr result (HaveSameStates self.old self.new) }
        ensures memory { IfErr result (λ e. (e.0 ≡ fault.Memory) × (e.1 ≡ held)) }
    {
        add_open(&mut self.statuses, &mut self.under_way, held)
    }

    /// Notes that a transaction was decided of which nothing was under way. Refused with `Memory` alone, and then
    /// nothing has changed.
    pub fn add_decided(&mut self, txn: TxnId, commit: Time, stamp: Stamp) -> Result<(), Fault>
        requires { state_of self.old txn ≡ None }
        ensures ok { OnOk result (Becomes txn (Some (IsDecided commit stamp)) self.old self.new) }
        ensures err { OnErr result (HaveSameStates self.old self.new) }
        ensures memory { IfErr result (λ e. e ≡ fault.Memory) }
    {
        self.statuses.add(txn, Status::Decided { commit, stamp })
    }

    /// Prepares the transaction's part at this time, if one is kept. Takes no memory.
    pub fn prepare(&mut self, txn: TxnId, time: Time)
        ensures { Becomes txn (state_prepared time (state_of self.old txn)) self.old self.new }
    {
        prepare_in(&self.statuses, &mut self.under_way, txn, time);
    }

    /// Takes the transaction's part out, if one is prepared: for a store that applies it. Takes no memory.
    pub fn finish(&mut self, txn: TxnId) -> Option<Prepared>
        ensures part { result ≡ part_in (state_of self.old txn) }
        ensures own { IfSome result (λ part. part.part.writer.txn ≡ txn) }
        ensures applied { Becomes txn (state_applied (state_of self.old txn)) self.old self.new }
    {
        finish_in(&mut self.statuses, &mut self.under_way, txn)
    }

    /// Counts the vote of a node for the transaction, if a ballot of it is held. The last missing vote decides it, at
    /// this commit time; where the write was submitted here the stamp is that time and this shard. Takes no memory.
    pub fn vote(&mut self, txn: TxnId, node: Node, me: Node, commit: Time) -> Option<Complete>
        ensures complete { result ≡ completed_by node (state_of self.old txn) }
        ensures own { IfSome result (λ complete. complete.own.part.writer.txn ≡ txn) }
        ensures voted { Becomes txn (state_voted me commit node (state_of self.old txn)) self.old self.new }
    {
        vote_in(
            &mut self.statuses,
            &mut self.under_way,
            txn,
            node,
            me,
            commit,
        )
    }

    /// Counts what was missing of the transaction's ballot, if one waits. Takes no memory.
    pub fn count(&mut self, txn: TxnId, missing: Missing)
        ensures { Becomes txn (state_with missing (state_of self.old txn)) self.old self.new }
    {
        count_in(&self.statuses, &mut self.under_way, txn, missing);
    }

    /// Counts what was missing of the transaction's ballot, if one waits that misses more. Whether one waits that misses
    /// nothing else; then nothing is counted. Takes no memory.
    #[inline(always)]
    pub(crate) fn count_early(&mut self, txn: TxnId, missing: Missing) -> bool
        ensures last { result ≡ lacks_nothing (state_with missing (state_of self.old txn)) }
        ensures counted { result ≡ false → Becomes txn (state_with missing (state_of self.old txn)) self.old self.new }
        ensures same { result ≡ true → self.new ≡ self.old }
    {
        count_early_in(&self.statuses, &mut self.under_way, txn, missing)
    }

    /// Whether a ballot of the transaction waits of which nothing is missing.
    fn is_ready(&self, txn: TxnId) -> bool
        ensures { result ≡ lacks_nothing (state_of self.now txn) }
    {
        match self.open(txn) {
            Some(Open::Remote(remote)) => remote.ballot.missing() == 0,
            _ => false,
        }
    }

    /// Prepares the shard's own part at this time, if a ballot of the transaction waits of which nothing is missing: its
    /// cohorts are to vote, or it is decided at this time if it has none. Takes no memory. Nothing moves while something
    /// is missing.
    #[tactic(auto, using(crate::proofs::Unready::unready_stays, crate::proofs::Unready::none_complete))]
    pub fn ready(&mut self, txn: TxnId, time: Time) -> Option<Complete>
        ensures complete { result ≡ readied_by time (state_of self.old txn) }
        ensures own { IfSome result (λ complete. complete.own.part.writer.txn ≡ txn) }
        ensures ready { Becomes txn (state_ready time (state_of self.old txn)) self.old self.new }
    {
        if !self.is_ready(txn) {
            return None;
        }
        ready_in(&mut self.statuses, &mut self.under_way, txn, time)
    }

    /// Surrenders all that is under way.
    pub fn close(self) {
        let Ledger {
            statuses: _,
            mut under_way,
        } = self;
        while let Some(open) = under_way.pop() {
            let _part = open.surrender();
        }
        under_way.destroy_empty();
    }
}
