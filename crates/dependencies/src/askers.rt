//! Dependency checks that wait for a decision.
ghost use Rattle.std.specs.Prelude.{◌≡◌, [], ◌∷◌, List, filter, map, true, if◌then◌else◌, IsOk, IfOk, OnOk, OnErr, IfErr, None};
ghost use Rattle.std.specs.Ordering.{is_eq};
ghost use Rattle.std.specs.Map.{lookup};
ghost use Rattle.logical_time.specs.Stamps.{TxnValue, txn_cmp};
ghost use Rattle.messages.specs.Words.{is_same_txn};
ghost use Rattle.messages.specs.Shard.{Asker};
ghost use Rattle.messages.specs.Known.{is_asker};
ghost use Rattle.messages.specs.Commits.{dep_oks};
ghost use Rattle.dependencies.specs.Waiting.{is_among, with_waiting, dep_ok};
ghost use Rattle.dependencies.specs.Askers.{waiting_for, askers_of, with_asker};

use crate::waiters::{Waiters, Waiting};
use logical_time::{Fault, Node, Time, TxnId};
use messages::Envelope;
use std::alloc::Global;
use std::collections::BTreeMap;
use std::marker::Model;

/// Keeps the first that asks for a dependency.
fn add_first(
    alloc: Global,
    waiters: &mut BTreeMap<TxnId, Waiters>,
    dependency: TxnId,
    one: Waiting,
) -> Result<(), Fault>
    requires { lookup (λ t. is_eq (txn_cmp dependency t)) waiters.old.entries ≡ None }
    ensures ok { OnOk result ((t : TxnValue) → waiting_for waiters.new.entries t ≡ (if is_same_txn dependency t then with_waiting one (waiting_for waiters.old.entries t) else waiting_for waiters.old.entries t)) }
    ensures known { is_among one (waiting_for waiters.old.entries dependency) ≡ true → IsOk result }
    ensures same { OnErr result (waiters.new.entries ≡ waiters.old.entries) }
    ensures memory { IfErr result (λ e. e ≡ Fault.Memory) }
{
    let mut first = Waiters::new(alloc);
    first.add(one)?;
    waiters.insert(dependency, first)?;
    Ok(())
}

/// Keeps one that asks for a dependency, unless it asked already.
fn add(
    alloc: Global,
    waiters: &mut BTreeMap<TxnId, Waiters>,
    dependency: TxnId,
    one: Waiting,
) -> Result<(), Fault>
    ensures ok { OnOk result ((t : TxnValue) → waiting_for waiters.new.entries t ≡ (if is_same_txn dependency t then with_waiting one (waiting_for waiters.old.entries t) else waiting_for waiters.old.entries t)) }
    ensures known { is_among one (waiting_for waiters.old.entries dependency) ≡ true → IsOk result }
    ensures same { OnErr result (waiters.new.entries ≡ waiters.old.entries) }
    ensures memory { IfErr result (λ e. e ≡ Fault.Memory) }
{
    if !waiters.contains_key(&dependency) {
        return add_first(alloc, waiters, dependency, one);
    }
    match waiters.get_mut(&dependency) {
        Some(waiting) => waiting.add(one),
        None => Ok(()),
    }
}

/// An answer to each that asked for the dependency.
fn answers(
    alloc: Global,
    waiters: &BTreeMap<TxnId, Waiters>,
    from: Node,
    time: Time,
    dependency: TxnId,
) -> Result<Vec<Envelope>, Fault>
    ensures ok { IfOk result (λ envelopes. envelopes.items ≡ map (dep_ok from time dependency) (waiting_for waiters.now.entries dependency)) }
    ensures memory { IfErr result (λ e. e ≡ Fault.Memory) }
{
    match waiters.get(&dependency) {
        Some(waiting) => waiting.dep_oks(alloc, from, time, dependency),
        None => Ok(Vec::new(alloc)),
    }
}

/// Takes away those that asked for the dependency.
fn remove(waiters: &mut BTreeMap<TxnId, Waiters>, dependency: TxnId)
    ensures { (t : TxnValue) → waiting_for waiters.new.entries t ≡ (if is_same_txn dependency t then [] else waiting_for waiters.old.entries t) }
{
    waiters.remove(&dependency);
}

/// Who asked whether a dependency is decided before it was, and isn't answered yet: for each dependency what
/// waits, with who asked, in the order of first asking: shards for writes, sessions for moves. It must be closed.
pub struct Askers {
    alloc: Global,
    waiters: BTreeMap<TxnId, Waiters>,
}

impl Model for Askers {
    ghost use Rattle.dependencies.specs.Askers.{AskersValue};

    ghost Value = { AskersValue };

    ghost view = { λ askers. askers.waiters.entries };
}

impl Askers {
    /// No asker.
    pub fn new(alloc: Global) -> Askers
        ensures { (t : TxnValue) → askers_of result t ≡ [] }
    {
        Askers {
            alloc,
            waiters: BTreeMap::new(alloc),
        }
    }

    /// Keeps who asked for a dependency of what waits, unless that is kept already. In the order of m + log n
    /// for m that asked for this dependency, and n dependencies. Refused with `Memory`, and then nothing changes.
    pub fn remember(&mut self, dependency: TxnId, waiter: TxnId, from: Node) -> Result<(), Fault>
        ensures ok { OnOk result ((t : TxnValue) → askers_of self.new t ≡ (if is_same_txn dependency t then with_asker (record { dependency = dependency; waiter = waiter; from = from }) (askers_of self.old t) else askers_of self.old t)) }
        // it takes no memory where it is there
        ensures known { is_asker (askers_of self.old dependency) dependency waiter from ≡ true → IsOk result }
        ensures same { OnErr result (self.new ≡ self.old) }
        ensures memory { IfErr result (λ e. e ≡ Fault.Memory) }
    {
        add(
            self.alloc,
            &mut self.waiters,
            dependency,
            Waiting { waiter, from },
        )
    }

    /// A `DepOk` to each that asked for the dependency, in the order of first asking, at the event of the actor with this
    /// node that decides it, when its clock shows this time. In the order of m + log n for m envelopes and n dependencies.
    /// Refused with `Memory` alone.
    pub fn dep_oks(&self, from: Node, time: Time, dependency: TxnId) -> Result<Vec<Envelope>, Fault>
        // of all that ever asked, where those of this dependency are kept
        ensures ok { (all : List Asker) → askers_of self.now dependency ≡ filter (λ k. is_same_txn k.dependency dependency) all
            → IfOk result (λ envelopes. envelopes.items ≡ dep_oks from time dependency all) }
        ensures memory { IfErr result (λ e. e ≡ Fault.Memory) }
    {
        answers(self.alloc, &self.waiters, from, time, dependency)
    }

    /// Drops those that asked for the dependency, which are answered. Takes no memory. In the order of m + log n for m of
    /// them and n dependencies.
    pub fn forget(&mut self, dependency: TxnId)
        ensures { (t : TxnValue) → askers_of self.new t ≡ (if is_same_txn dependency t then [] else askers_of self.old t) }
    {
        remove(&mut self.waiters, dependency);
    }

    /// Gives up those that weren't answered: for a shard that is closed.
    pub fn close(self) {
        let Askers {
            alloc: _,
            waiters: _,
        } = self;
    }
}
