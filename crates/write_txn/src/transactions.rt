//! What a shard holds of transactions.
ghost use Rattle.std.specs.Prelude.{◌≡◌, ◌≤◌, ◌+◌, ◌++◌, ◌∷◌, [], length, map, max, ℕ, List, if◌then◌else◌, OnOk, OnErr, IfErr, IfOk, IfSome, IsOk, true, false, None, Some};
ghost use Rattle.std.specs.Ordering.{is_eq};
ghost use Rattle.logical_time.specs.declared.fault.Fault.TheVariants as fault;
ghost use Rattle.logical_time.specs.Stamps.{TxnValue, txn_cmp};
ghost use Rattle.column_family.specs.declared.batch.Row.{Row};
ghost use Rattle.messages.specs.Posting.{commit_to};
ghost use Rattle.pending.specs.Marks.{time_at};
ghost use Rattle.store.specs.declared.part.Applied.{Applied};
ghost use Rattle.store.specs.Keeps.{Keeps};
ghost use Rattle.store.specs.Stored.{HasRoom};
ghost use Rattle.txn_state.specs.Prepared.{PreparedValue};
ghost use Rattle.txn_state.specs.Votes.{is_among};
ghost use Rattle.write_txn.specs.declared.open.Open.{Open};
ghost use Rattle.write_txn.specs.declared.open.Open.TheVariants as in_open;
ghost use Rattle.write_txn.specs.Ledger.{state_of, Holds, IsDecided, Becomes, HaveSameStates, open_in, decided_in, part_of, state_prepared, state_applied, part_in, state_voted, completed_by, state_with, state_ready, readied_by, lacks_nothing};
ghost use Rattle.write_txn.specs.Stands.{mark_of};
ghost use Rattle.write_txn.specs.Voters.{voters_of};
ghost use Rattle.write_txn.specs.Transactions.{AreMarksOf, GoesOnKeeping, KeepsAlso, KeepsIf, HaveSameVoters, cohorts_part};

use crate::adding::{add_kept, add_led, add_part, add_remote};
use crate::applying::{commit_part, decide_own};
use crate::ledger::Ledger;
use crate::moving::{count, prepare_kept, vote};
use crate::open::{Led, Missing, Remote, ReplicatedPart};
use crate::voters::Voters;
use column_family::Batch;
use logical_time::{Fault, Node, Stamp, Time, TxnId};
use messages::Outbox;
use pending::Marks;
use std::alloc::Global;
use std::marker::Model;
use std::mem;
use store::Store;
use txn_state::{Complete, WritePart};

/// What a shard holds of transactions: what it knows of each, the marks of the parts that are prepared, the store to
/// which parts are applied, and votes that came early. What is under way must be spent.
pub struct Transactions {
    ledger: Ledger,
    marks: Marks,
    store: Store,
    early: Voters,
}

impl Model for Transactions {
    ghost use Rattle.write_txn.specs.Transactions.{TransactionsValue, AreMarksOf};

    ghost Value = { TransactionsValue };

    ghost view = { λ t. record { ledger = t.ledger; store = t.store; early = t.early } };

    ghost invariant = { λ t. AreMarksOf t.marks t.ledger };
}

impl Transactions {
    /// Nothing is known, applied or marked.
    pub fn new(alloc: Global) -> Transactions
        ensures unknown { (t : TxnValue) → state_of result.ledger t ≡ None }
        ensures keeps { Keeps result.store [] }
        ensures low { result.store.low ≡ 0 }
        ensures early { (t : TxnValue) → voters_of result.early t ≡ [] }
    {
        Transactions {
            ledger: Ledger::new(alloc),
            marks: Marks::new(alloc),
            store: Store::new(alloc),
            early: Voters::new(alloc),
        }
    }

    /// What is known of each transaction.
    pub fn ledger(&self) -> &Ledger
        ensures { result.now ≡ self.now.ledger }
    {
        &self.ledger
    }

    /// What was applied.
    pub fn store(&self) -> &Store
        ensures { result.now ≡ self.now.store }
    {
        &self.store
    }

    /// The nodes whose votes for the transaction came early, in the order in which they came. In the order of log n for
    /// n transactions with early votes.
    pub fn early(&self, txn: TxnId) -> &[Node]
        ensures { result.now ≡ voters_of self.now.early txn }
    {
        self.early.of(txn)
    }

    /// The marks: those of the parts that are prepared and not applied.
    pub fn marks(&self) -> &Marks
        ensures { (r : Row) (t : TxnValue) → time_at result.now r t ≡ mark_of (state_of self.now.ledger t) r }
    {
        &self.marks
    }

    /// Prepares a cohort's part of a write that was submitted here, at this time, and marks its rows. Refused with
    /// `Memory` alone, and then the part comes back.
    pub fn prepare(&mut self, part: WritePart, time: Time) -> Result<(), (Fault, WritePart)>
        requires { state_of self.old.ledger part.writer.txn ≡ None }
        ensures ok { OnOk result (Becomes part.writer.txn (Some (Holds (in_open.Part (cohorts_part part time)))) self.old.ledger self.new.ledger) }
        ensures err { OnErr result (HaveSameStates self.old.ledger self.new.ledger) }
        ensures store { self.new.store ≡ self.old.store }
        ensures early { self.new.early ≡ self.old.early }
        ensures memory { IfErr result (λ e. (e.0 ≡ fault.Memory) × (e.1 ≡ part)) }
    {
        add_part(&mut self.ledger, &mut self.marks, part, time)
    }

    /// Prepares the part that is kept of the transaction at this time, if one is, and marks its rows. Refused with
    /// `Memory` alone.
    pub fn prepare_kept(&mut self, txn: TxnId, time: Time) -> Result<(), Fault>
        ensures ok { OnOk result (Becomes txn (state_prepared time (state_of self.old.ledger txn)) self.old.ledger self.new.ledger) }
        ensures err { OnErr result (HaveSameStates self.old.ledger self.new.ledger) }
        ensures store { self.new.store ≡ self.old.store }
        ensures early { self.new.early ≡ self.old.early }
        ensures memory { IfErr result (λ e. e ≡ fault.Memory) }
    {
        prepare_kept(&mut self.ledger, &mut self.marks, txn, time)
    }

    /// Holds a ballot whose cohorts are voting, and marks the rows of its own part with the time of that. Refused with
    /// `Memory` alone, and then the ballot comes back.
    pub fn hold(&mut self, led: Led) -> Result<(), (Fault, Led)>
        requires { state_of self.old.ledger led.ballot.own.part.writer.txn ≡ None }
        ensures ok { OnOk result (Becomes led.ballot.own.part.writer.txn (Some (Holds (in_open.Led led))) self.old.ledger self.new.ledger) }
        ensures err { OnErr result (HaveSameStates self.old.ledger self.new.ledger) }
        ensures store { self.new.store ≡ self.old.store }
        ensures early { self.new.early ≡ self.old.early }
        ensures memory { IfErr result (λ e. (e.0 ≡ fault.Memory) × (e.1 ≡ led)) }
    {
        add_led(&mut self.ledger, &mut self.marks, led)
    }

    /// Keeps a cohort's part of a write of another data centre. Refused with `Memory` alone, and then the part comes
    /// back.
    pub fn keep(&mut self, kept: ReplicatedPart) -> Result<(), (Fault, ReplicatedPart)>
        requires { state_of self.old.ledger kept.part.writer.txn ≡ None }
        ensures ok { OnOk result (Becomes kept.part.writer.txn (Some (Holds (in_open.Kept kept))) self.old.ledger self.new.ledger) }
        ensures err { OnErr result (HaveSameStates self.old.ledger self.new.ledger) }
        ensures store { self.new.store ≡ self.old.store }
        ensures early { self.new.early ≡ self.old.early }
        ensures memory { IfErr result (λ e. (e.0 ≡ fault.Memory) × (e.1 ≡ kept)) }
    {
        add_kept(&mut self.ledger, &mut self.marks, kept)
    }

    /// Holds a ballot of another data centre's write until nothing is missing. If nothing is, it is made ready at this
    /// time: its own part is prepared and its rows are marked, or, without cohorts, it is decided at this time. Refused
    /// with `Memory` alone, and then the ballot comes back.
    pub fn wait(&mut self, remote: Remote, time: Time) -> Result<Option<Complete>, (Fault, Remote)>
        requires { state_of self.old.ledger remote.ballot.part.writer.txn ≡ None }
        ensures complete { IfOk result (λ c. c ≡ readied_by time (Some (Holds (in_open.Remote remote)))) }
        ensures own { IfOk result (λ c. IfSome c (λ complete. complete.own.part.writer.txn ≡ remote.ballot.part.writer.txn)) }
        ensures ok { OnOk result (Becomes remote.ballot.part.writer.txn (state_ready time (Some (Holds (in_open.Remote remote)))) self.old.ledger self.new.ledger) }
        ensures err { OnErr result (HaveSameStates self.old.ledger self.new.ledger) }
        ensures store { self.new.store ≡ self.old.store }
        ensures early { self.new.early ≡ self.old.early }
        ensures memory { IfErr result (λ e. (e.0 ≡ fault.Memory) × (e.1 ≡ remote)) }
    {
        add_remote(&mut self.ledger, &mut self.marks, remote, time)
    }

    /// Counts what was missing of the transaction's ballot, if one waits that misses more. Whether one waits that misses
    /// nothing else; then nothing is counted. Takes no memory.
    pub fn count_early(&mut self, txn: TxnId, missing: Missing) -> bool
        ensures last { result ≡ lacks_nothing (state_with missing (state_of self.old.ledger txn)) }
        ensures counted { result ≡ false → Becomes txn (state_with missing (state_of self.old.ledger txn)) self.old.ledger self.new.ledger }
        ensures same { result ≡ true → self.new ≡ self.old }
        ensures store { self.new.store ≡ self.old.store }
        ensures early { self.new.early ≡ self.old.early }
    {
        self.ledger.count_early(txn, missing)
    }

    /// Counts what was missing of the transaction's ballot, if one waits. With the last missing thing the ballot is made
    /// ready at this time, as `wait` does; else this takes no memory. Refused with `Memory` alone, and then nothing is
    /// counted.
    pub fn count(
        &mut self,
        txn: TxnId,
        missing: Missing,
        time: Time,
    ) -> Result<Option<Complete>, Fault>
        ensures complete { IfOk result (λ c. c ≡ readied_by time (state_with missing (state_of self.old.ledger txn))) }
        ensures own { IfOk result (λ c. IfSome c (λ complete. complete.own.part.writer.txn ≡ txn)) }
        ensures ok { OnOk result (Becomes txn (state_ready time (state_with missing (state_of self.old.ledger txn))) self.old.ledger self.new.ledger) }
        ensures waits { lacks_nothing (state_with missing (state_of self.old.ledger txn)) ≡ false → IsOk result }
        ensures err { OnErr result (HaveSameStates self.old.ledger self.new.ledger) }
        ensures store { self.new.store ≡ self.old.store }
        ensures early { self.new.early ≡ self.old.early }
        ensures memory { IfErr result (λ e. e ≡ fault.Memory) }
    {
        count(&mut self.ledger, &mut self.marks, txn, missing, time)
    }

    /// Counts the vote of a node for the transaction, if a ballot of it is held on the shard with the node `me`. The last
    /// missing vote decides it at this commit time, and takes its marks away. Takes no memory.
    pub fn vote(&mut self, txn: TxnId, node: Node, me: Node, commit: Time) -> Option<Complete>
        ensures complete { result ≡ completed_by node (state_of self.old.ledger txn) }
        ensures own { IfSome result (λ complete. complete.own.part.writer.txn ≡ txn) }
        ensures voted { Becomes txn (state_voted me commit node (state_of self.old.ledger txn)) self.old.ledger self.new.ledger }
        ensures store { self.new.store ≡ self.old.store }
        ensures early { self.new.early ≡ self.old.early }
    {
        vote(&mut self.ledger, &mut self.marks, txn, node, me, commit)
    }

    /// Makes room in the store for these changes. Refused with `Memory` alone.
    pub fn make_room(&mut self, batch: &Batch) -> Result<(), Fault>
        ensures ok { OnOk result (HasRoom self.new.store batch.now) }
        ensures store { GoesOnKeeping self.old.store self.new.store }
        ensures ledger { self.new.ledger ≡ self.old.ledger }
        ensures early { self.new.early ≡ self.old.early }
        ensures memory { IfErr result (λ e. e ≡ fault.Memory) }
    {
        self.store.make_room(batch)
    }

    /// Makes room in the store for the changes of the shard's own part of the transaction, if something is under way of
    /// it. Refused with `Memory` alone.
    pub fn make_room_for(&mut self, txn: TxnId) -> Result<(), Fault>
        ensures ok { OnOk result ((o : Open) → open_in (state_of self.old.ledger txn) ≡ Some o → HasRoom self.new.store (part_of o).batch) }
        ensures store { GoesOnKeeping self.old.store self.new.store }
        ensures ledger { self.new.ledger ≡ self.old.ledger }
        ensures early { self.new.early ≡ self.old.early }
        ensures memory { IfErr result (λ e. e ≡ fault.Memory) }
    {
        match self.ledger.open(txn) {
            Some(open) => self.store.make_room(open.rows()),
            None => Ok(()),
        }
    }

    /// Applies the transaction's part with this commit time and this stamp, if one is prepared, and takes its marks away.
    /// There is room for it. Takes no memory.
    pub fn commit(&mut self, txn: TxnId, commit: Time, stamp: Stamp)
        requires { (p : PreparedValue) → part_in (state_of self.old.ledger txn) ≡ Some p → HasRoom self.old.store p.part.batch }
        ensures applied { Becomes txn (state_applied (state_of self.old.ledger txn)) self.old.ledger self.new.ledger }
        ensures keeps { KeepsIf (part_in (state_of self.old.ledger txn)) commit stamp self.old.store self.new.store }
        ensures early { self.new.early ≡ self.old.early }
    {
        commit_part(
            &mut self.ledger,
            &mut self.marks,
            &mut self.store,
            txn,
            commit,
            stamp,
        );
    }

    /// Tells of a ballot that is complete and decided with this commit time and this stamp, on the shard with the node
    /// `me`: posts a `Commit` to each cohort, in order, and applies the coordinator's own part. There is room for both.
    /// Takes no memory.
    pub fn decide(
        &mut self,
        complete: Complete,
        me: Node,
        commit: Time,
        stamp: Stamp,
        outbox: &mut Outbox,
    )
        requires decided { decided_in (state_of self.old.ledger complete.own.part.writer.txn) ≡ Some (commit, stamp) }
        requires posts { length complete.cohorts ≤ outbox.old.room }
        requires room { HasRoom self.old.store complete.own.part.batch }
        ensures same { self.new.ledger ≡ self.old.ledger }
        ensures keeps { KeepsAlso complete.own commit stamp self.old.store self.new.store }
        ensures early { self.new.early ≡ self.old.early }
        ensures sent { outbox.new.sent ≡ outbox.old.sent ++ map (commit_to me commit complete.own.part.writer.txn commit stamp) complete.cohorts }
        ensures room { outbox.old.room ≤ outbox.new.room + length complete.cohorts }
    {
        decide_own(&mut self.store, complete, me, commit, stamp, outbox);
    }

    /// Notes that a transaction was decided of which nothing was under way. Refused with `Memory` alone.
    pub fn note_decided(&mut self, txn: TxnId, commit: Time, stamp: Stamp) -> Result<(), Fault>
        requires { state_of self.old.ledger txn ≡ None }
        ensures ok { OnOk result (Becomes txn (Some (IsDecided commit stamp)) self.old.ledger self.new.ledger) }
        ensures err { OnErr result (HaveSameStates self.old.ledger self.new.ledger) }
        ensures store { self.new.store ≡ self.old.store }
        ensures early { self.new.early ≡ self.old.early }
        ensures memory { IfErr result (λ e. e ≡ fault.Memory) }
    {
        self.ledger.add_decided(txn, commit, stamp)
    }

    /// Keeps the vote of a node for a transaction that isn't known yet. A second one of the node changes nothing, and takes
    /// no memory. Refused with `Memory` alone.
    pub fn note_vote(&mut self, txn: TxnId, node: Node) -> Result<(), Fault>
        ensures ok { OnOk result ((u : TxnValue) → voters_of self.new.early u ≡ (if is_eq (txn_cmp txn u) then (if is_among (voters_of self.old.early u) node then voters_of self.old.early u else voters_of self.old.early u ++ node ∷ []) else voters_of self.old.early u)) }
        ensures err { OnErr result (HaveSameVoters self.old.early self.new.early) }
        ensures memory { IfErr result (λ e. e ≡ fault.Memory) }
        ensures known { is_among (voters_of self.old.early txn) node ≡ true → IsOk result }
        ensures ledger { self.new.ledger ≡ self.old.ledger }
        ensures store { self.new.store ≡ self.old.store }
    {
        self.early.add(txn, node)
    }

    /// Takes the early votes for the transaction away. Takes no memory.
    pub fn forget_votes(&mut self, txn: TxnId)
        ensures forgotten { (u : TxnValue) → voters_of self.new.early u ≡ (if is_eq (txn_cmp txn u) then [] else voters_of self.old.early u) }
        ensures ledger { self.new.ledger ≡ self.old.ledger }
        ensures store { self.new.store ≡ self.old.store }
    {
        self.early.forget(txn);
    }

    /// Raises the store's horizon to this time if it lies below it.
    pub fn collect(&mut self, time: Time)
        ensures low { self.new.store.low ≡ max self.old.store.low time }
        ensures keeps { (all : List Applied) → Keeps self.old.store all → Keeps self.new.store all }
        ensures ledger { self.new.ledger ≡ self.old.ledger }
        ensures early { self.new.early ≡ self.old.early }
    {
        self.store.collect(time);
    }

    /// Surrenders all that is under way.
    pub fn close(self) {
        let Transactions {
            ledger,
            marks: _,
            store: _,
            early: _,
        } = self;
        ledger.close();
    }

    /// The same for a program that ends with it: the memory of the store and of the marks is given back with that of the
    /// process.
    pub fn leave(self) {
        let Transactions {
            ledger,
            marks,
            store,
            early: _,
        } = self;
        mem::forget(marks);
        mem::forget(store);
        ledger.close();
    }
}
