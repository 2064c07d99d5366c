//! The marks of a row.
ghost use Rattle.std.specs.Prelude.{◌≡◌, [], ◌∷◌, if◌then◌else◌, IfOk, OnOk, OnErr, IfErr, true, false, Some, None, min};
ghost use Rattle.std.specs.List.{reduce, filter};
ghost use Rattle.std.specs.Prelude.{nat_lt};
ghost use Rattle.std.specs.Map.{keys_of, values_of};
ghost use Rattle.std.specs.BTreeMap.{IsOrdered};
ghost use Rattle.std.specs.Ordering.{is_eq};
ghost use Rattle.logical_time.specs.declared.fault.Fault.TheVariants as fault;
ghost use Rattle.logical_time.specs.Stamps.{TxnValue, txn_cmp};
ghost use Rattle.pending.specs.Held.{held_in};
ghost use Rattle.pending.specs.Marks.{time_in, IsLeast, IsBelow};

use logical_time::{Fault, Time, TxnId};
use std::alloc::{AllocError, Global};
use std::collections::BTreeMap;
use std::marker::Model;
use std::mem;

/// A mark: a transaction that is prepared, and since when.
#[derive(Clone, Copy)]
pub(crate) struct Mark {
    /// The transaction.
    pub(crate) txn: TxnId,
    /// Its prepare time.
    pub(crate) time: Time,
}

/// Where the marks of a row are kept.
#[derive(Drop)]
pub(crate) enum Held {
    /// There is none.
    None,
    /// One stands in the row: mostly one transaction at a time is prepared there.
    One(Mark),
    /// None, or more.
    Many(BTreeMap<TxnId, Time>),
}

/// The marks of a row: the transactions that are prepared in it, each with its prepare time. One alone takes no memory.
#[derive(Drop)]
pub(crate) struct RowMarks {
    held: Held,
}

impl Model for RowMarks {
    ghost use Rattle.pending.specs.Marks.{RowList};
    ghost use Rattle.pending.specs.Held.{held_in};

    ghost Value = { RowList };

    ghost view = { λ marks. held_in marks.held };
}

/// Gives the transaction this time.
fn set_time(times: &mut BTreeMap<TxnId, Time>, txn: TxnId, time: Time) -> Result<(), Fault>
    ensures ok { OnOk result ((t : TxnValue) → time_in times.new.entries t ≡ (if is_eq (txn_cmp txn t) then Some time else time_in times.old.entries t)) }
    ensures err { OnErr result (times.new.entries ≡ times.old.entries) }
    ensures memory { IfErr result (λ e. e ≡ fault.Memory) }
{
    times.insert(txn, time)?;
    Ok(())
}

/// Takes the time of the transaction away.
fn take_time(times: &mut BTreeMap<TxnId, Time>, txn: TxnId)
    ensures { (t : TxnValue) → time_in times.new.entries t ≡ (if is_eq (txn_cmp txn t) then None else time_in times.old.entries t) }
{
    times.remove(&txn);
}

/// The least of the times.
fn least_time(times: &BTreeMap<TxnId, Time>) -> Option<Time>
    ensures exact { result ≡ reduce min (values_of times.now.entries) }
    ensures ordered { IsOrdered txn_cmp times.now }
{
    times.values().copied().min()
}

/// The transactions with times strictly below this one.
fn earlier(
    alloc: Global,
    times: &BTreeMap<TxnId, Time>,
    time: Time,
) -> Result<Vec<TxnId>, AllocError>
    ensures exact { IfOk result (λ txns. txns.items ≡ keys_of (filter (λ e. nat_lt e.1 time) times.now.entries)) }
    ensures ordered { IsOrdered txn_cmp times.now }
{
    times
        .iter()
        .filter(|(_, marked)| **marked < time)
        .map(|(txn, _)| *txn)
        .collect(alloc)
}

/// A mark, and another in place of it where both are of one transaction.
fn both(alloc: Global, mark: Mark, txn: TxnId, time: Time) -> Result<BTreeMap<TxnId, Time>, Fault>
    ensures ok { IfOk result (λ times. (t : TxnValue) → time_in times.entries t ≡ (if is_eq (txn_cmp txn t) then Some time else time_in ((mark.txn, mark.time) ∷ []) t)) }
    ensures memory { IfErr result (λ e. e ≡ fault.Memory) }
{
    let mut times = BTreeMap::new(alloc);
    set_time(&mut times, mark.txn, mark.time)?;
    set_time(&mut times, txn, time)?;
    Ok(times)
}

/// Where one mark is kept, gives the transaction this time.
fn marked_beside(alloc: Global, mark: Mark, txn: TxnId, time: Time) -> Result<Held, Fault>
    ensures ok { IfOk result (λ held. (t : TxnValue) → time_in (held_in held) t ≡ (if is_eq (txn_cmp txn t) then Some time else time_in ((mark.txn, mark.time) ∷ []) t)) }
    ensures memory { IfErr result (λ e. e ≡ fault.Memory) }
{
    if mark.txn == txn {
        return Ok(Held::One(Mark { txn, time }));
    }
    Ok(Held::Many(both(alloc, mark, txn, time)?))
}

/// Gives the transaction this time. Refused with `Memory` alone, and then what was held comes back.
fn marked(alloc: Global, held: Held, txn: TxnId, time: Time) -> Result<Held, (Fault, Held)>
    ensures ok { IfOk result (λ new. (t : TxnValue) → time_in (held_in new) t ≡ (if is_eq (txn_cmp txn t) then Some time else time_in (held_in held) t)) }
    ensures memory { IfErr result (λ e. e.0 ≡ fault.Memory) }
    ensures back { IfErr result (λ e. held_in e.1 ≡ held_in held) }
{
    match held {
        Held::None => Ok(Held::One(Mark { txn, time })),
        Held::One(mark) => {
            let kept = mark;
            match marked_beside(alloc, kept, txn, time) {
                Ok(held) => Ok(held),
                Err(fault) => Err((fault, Held::One(mark))),
            }
        }
        Held::Many(mut times) => match set_time(&mut times, txn, time) {
            Ok(()) => Ok(Held::Many(times)),
            Err(fault) => Err((fault, Held::Many(times))),
        },
    }
}

/// Takes the time of the transaction away.
fn cleared(held: Held, txn: TxnId) -> Held
    ensures { (t : TxnValue) → time_in (held_in result) t ≡ (if is_eq (txn_cmp txn t) then None else time_in (held_in held) t) }
{
    match held {
        Held::None => Held::None,
        Held::One(mark) => {
            if mark.txn == txn {
                Held::None
            } else {
                Held::One(mark)
            }
        }
        Held::Many(mut times) => {
            take_time(&mut times, txn);
            if times.is_empty() {
                Held::None
            } else {
                Held::Many(times)
            }
        }
    }
}

/// Whether no other transaction than this one is seen to have a mark.
fn is_without_other(held: &Held, txn: TxnId) -> bool
    ensures { result ≡ true → (t : TxnValue) → is_eq (txn_cmp txn t) ≡ false → time_in (held_in held.now) t ≡ None }
{
    match held {
        Held::None => true,
        Held::One(mark) => mark.txn == txn,
        Held::Many(_) => false,
    }
}

/// The transaction of a mark, if its time is strictly below this one.
fn one_earlier(alloc: Global, mark: Mark, time: Time) -> Result<Vec<TxnId>, AllocError>
    ensures { IfOk result (λ txns. txns.items ≡ keys_of (filter (λ e. nat_lt e.1 time) ((mark.txn, mark.time) ∷ []))) }
{
    let mut txns = Vec::new(alloc);
    if mark.time < time {
        txns.push(mark.txn)?;
    }
    Ok(txns)
}

impl RowMarks {
    /// A row without a mark.
    pub(crate) fn new() -> RowMarks
        ensures { result ≡ [] }
    {
        RowMarks { held: Held::None }
    }

    /// Gives the transaction a mark of this time, in place of its mark if it has one.
    #[inline(always)]
    pub(crate) fn mark(&mut self, alloc: Global, txn: TxnId, time: Time) -> Result<(), Fault>
        ensures ok { OnOk result ((t : TxnValue) → time_in self.new t ≡ (if is_eq (txn_cmp txn t) then Some time else time_in self.old t)) }
        ensures err { OnErr result (self.new ≡ self.old) }
        ensures memory { IfErr result (λ e. e ≡ fault.Memory) }
    {
        if is_without_other(&self.held, txn) {
            self.held = Held::One(Mark { txn, time });
            return Ok(());
        }
        self.mark_beside(alloc, txn, time)
    }

    /// Gives the transaction a mark of this time beside those of others.
    #[inline(never)]
    fn mark_beside(&mut self, alloc: Global, txn: TxnId, time: Time) -> Result<(), Fault>
        ensures ok { OnOk result ((t : TxnValue) → time_in self.new t ≡ (if is_eq (txn_cmp txn t) then Some time else time_in self.old t)) }
        ensures err { OnErr result (self.new ≡ self.old) }
        ensures memory { IfErr result (λ e. e ≡ fault.Memory) }
    {
        match marked(alloc, mem::replace(&mut self.held, Held::None), txn, time) {
            Ok(held) => {
                self.held = held;
                Ok(())
            }
            Err((fault, held)) => {
                self.held = held;
                Err(fault)
            }
        }
    }

    /// Takes the mark of the transaction away.
    #[inline]
    pub(crate) fn clear(&mut self, txn: TxnId)
        ensures { (t : TxnValue) → time_in self.new t ≡ (if is_eq (txn_cmp txn t) then None else time_in self.old t) }
    {
        if is_without_other(&self.held, txn) {
            self.held = Held::None;
        } else {
            self.clear_beside(txn);
        }
    }

    /// Takes the mark of the transaction away beside those of others.
    #[inline(never)]
    fn clear_beside(&mut self, txn: TxnId)
        ensures { (t : TxnValue) → time_in self.new t ≡ (if is_eq (txn_cmp txn t) then None else time_in self.old t) }
    {
        self.held = cleared(mem::replace(&mut self.held, Held::None), txn);
    }

    /// The least time of a mark.
    pub(crate) fn least(&self) -> Option<Time>
        ensures { IsLeast (time_in self.now) result }
    {
        match &self.held {
            Held::None => None,
            Held::One(mark) => Some(mark.time),
            Held::Many(times) => least_time(times),
        }
    }

    /// The transactions with marks strictly below the time, in order.
    pub(crate) fn below(&self, alloc: Global, time: Time) -> Result<Vec<TxnId>, Fault>
        ensures ok { IfOk result (λ txns. IsBelow (time_in self.now) time txns.items) }
        ensures memory { IfErr result (λ e. e ≡ fault.Memory) }
    {
        match &self.held {
            Held::None => Ok(Vec::new(alloc)),
            Held::One(mark) => Ok(one_earlier(alloc, *mark, time)?),
            Held::Many(times) => Ok(earlier(alloc, times, time)?),
        }
    }
}
