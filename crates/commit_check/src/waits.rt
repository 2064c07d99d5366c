//! Reads by time that wait.
ghost use Rattle.std.specs.Prelude.{◌≡◌, filter, not, if◌then◌else◌};
ghost use Rattle.std.specs.List.{list_all};
ghost use Rattle.messages.specs.Words.{is_same_txn};
ghost use Rattle.messages.specs.Reads.{is_free, lessened, without};
ghost use Rattle.commit_check.specs.Waiting.{concerns, is_among, is_freed, still};

use crate::cause::Cause;
use logical_time::{Fault, Node, Time, TxnId};
use messages::Shared;
use slice::Read;
use std::alloc::Global;
use std::marker::Model;

/// A read by time that waits for transactions.
#[derive(Drop)]
pub struct Wait {
    /// The session that asks.
    pub session: Node,
    /// The session's number of the read.
    pub number: u64,
    /// The time.
    pub time: Time,
    /// What it asks.
    pub read: Shared<Read>,
    /// The transactions.
    pub left: Vec<TxnId>,
}

impl Model for Wait {
    ghost use Rattle.messages.specs.Shard.{WaitingRead};

    ghost Value = { WaitingRead };

    ghost view = { λ w. record { session = w.session; number = w.number; time = w.time; read = w.read; left = w.left.items } };
}

/// Whether the read need not wait for a transaction: where it is applied, or isn't committed by a time, and the read's
/// isn't above that.
fn concerns(wait: &Wait, cause: &Cause) -> bool
    ensures { result ≡ concerns cause.now wait.now }
{
    match cause {
        Cause::Applied => true,
        Cause::NotBy(time) => wait.time <= *time,
    }
}

/// Whether the list has no other transaction.
fn is_alone(left: &[TxnId], txn: TxnId) -> bool
    ensures { result ≡ list_all (λ u. is_same_txn u txn) left.now }
{
    left.iter().all(|one| one.cmp(&txn).is_eq())
}

/// Whether the read waits for nothing more once it doesn't wait for the transaction, if this concerns it.
#[tactic(auto, using(crate::proofs::Freed::freed_alone))]
pub(crate) fn is_freed(wait: &Wait, txn: TxnId, cause: &Cause) -> bool
    ensures { result ≡ is_freed txn cause.now wait.now }
{
    if concerns(wait, cause) {
        is_alone(wait.left.as_slice(), txn)
    } else {
        wait.left.is_empty()
    }
}

/// Takes a transaction from a list.
fn take_away(left: &mut Vec<TxnId>, txn: TxnId)
    ensures { left.new.items ≡ without txn left.old.items }
{
    left.retain(|one| !one.cmp(&txn).is_eq());
}

/// The read no longer waits for the transaction, if this concerns it.
fn lessen(wait: &mut Wait, txn: TxnId, cause: &Cause)
    ensures { wait.new ≡ (if concerns cause.now wait.old then record wait.old { left = without txn wait.old.left } else wait.old) }
{
    if concerns(wait, cause) {
        take_away(&mut wait.left, txn);
    }
}

/// Those reads that this concerns no longer wait for the transaction.
fn lessen_all(waits: &mut Vec<Wait>, txn: TxnId, cause: &Cause)
    ensures { waits.new.items ≡ lessened txn (concerns cause.now) waits.old.items }
{
    for wait in waits.iter_mut() {
        lessen(wait, txn, cause);
    }
}

/// Lets go of those reads that wait for nothing.
#[inline(always)]
fn keep_waiting(waits: &mut Vec<Wait>)
    ensures { waits.new.items ≡ filter (λ x. not (is_free x)) waits.old.items }
{
    waits.retain(|wait| !wait.left.is_empty());
}

/// Whether this read of this session is in the list.
fn is_among(waits: &[Wait], session: Node, number: u64) -> bool
    ensures { result ≡ is_among session number waits.now }
{
    waits
        .iter()
        .any(|wait| wait.session == session && wait.number == number)
}

/// The reads by time that wait at a shard, in the order of their arrival. It must be closed.
pub struct Waits {
    waits: Vec<Wait>,
}

impl Model for Waits {
    ghost use Rattle.std.specs.Prelude.{List};
    ghost use Rattle.messages.specs.Shard.{WaitingRead};

    ghost Value = { List WaitingRead };

    ghost view = { λ w. w.waits.items };
}

impl Waits {
    ghost use Rattle.std.specs.Prelude.{◌≡◌, [], ◌∷◌, ◌++◌, OnOk, OnErr, IfErr};

    /// No read waits.
    pub fn new(alloc: Global) -> Waits
        ensures { result ≡ [] }
    {
        Waits {
            waits: Vec::new(alloc),
        }
    }

    /// The reads, in the order of their arrival.
    pub fn as_slice(&self) -> &[Wait]
        ensures { result.now ≡ self.now }
    {
        self.waits.as_slice()
    }

    /// Whether this read of this session waits. In the order of n for n waiting reads.
    pub fn is_waiting(&self, session: Node, number: u64) -> bool
        ensures { result ≡ is_among session number self.now }
    {
        is_among(self.waits.as_slice(), session, number)
    }

    /// Lets one more read wait. Refused with `Memory` alone, and then it comes back and nothing has changed.
    pub fn add(&mut self, wait: Wait) -> Result<(), (Fault, Wait)>
        ensures ok { OnOk result (self.new ≡ self.old ++ wait ∷ []) }
        ensures err { OnErr result (self.new ≡ self.old) }
        ensures memory { IfErr result (λ e. (e.0 ≡ Fault.Memory) × (e.1 ≡ wait)) }
    {
        match self.waits.push(wait) {
            Ok(()) => Ok(()),
            Err(refused) => Err((Fault::Memory, refused.value)),
        }
    }

    /// The reads that this concerns no longer wait for a transaction. Those that wait for nothing more are dropped:
    /// `freed_answers` has their answers, and is called before. Takes no memory. In the order of m for m transactions that
    /// reads wait for, over all reads.
    #[inline(always)]
    pub fn release(&mut self, txn: TxnId, cause: &Cause)
        ensures { self.new ≡ still txn cause.now self.old }
    {
        lessen_all(&mut self.waits, txn, cause);
        keep_waiting(&mut self.waits);
    }

    /// Gives up the reads that weren't answered: for a shard that is closed.
    pub fn close(self) {
        let Waits { waits: _ } = self;
    }
}
