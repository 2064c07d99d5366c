//! Votes and notices for transactions that aren't known yet.
ghost use Rattle.std.specs.Prelude.{◌≡◌, [], ◌∷◌, ◌++◌, true, false, if◌then◌else◌, OnOk, OnErr, IfErr, IsOk};
ghost use Rattle.std.specs.Ordering.{is_eq};
ghost use Rattle.logical_time.specs.declared.fault.Fault.TheVariants as fault;
ghost use Rattle.logical_time.specs.Stamps.{TxnValue, txn_cmp};
ghost use Rattle.txn_state.specs.Votes.{is_among};
ghost use Rattle.write_txn.specs.Voters.{voters_of};

use logical_time::{Fault, Node, TxnId};
use std::alloc::Global;
use std::collections::BTreeMap;
use std::marker::Model;

/// Nodes, each once, in the order in which they came.
#[derive(Drop)]
struct Nodes {
    nodes: Vec<Node>,
}

impl Model for Nodes {
    ghost use Rattle.std.specs.Prelude.{List, ℕ};

    ghost Value = { List ℕ };

    ghost view = { λ n. n.nodes.items };
}

/// Whether the node is one of these.
fn is_in(nodes: &[Node], node: Node) -> bool
    ensures { result ≡ is_among nodes.now node }
{
    nodes.iter().any(|n| *n == node)
}

impl Nodes {
    /// No node.
    fn new(alloc: Global) -> Nodes
        ensures { result ≡ [] }
    {
        Nodes {
            nodes: Vec::new(alloc),
        }
    }

    /// The nodes.
    fn as_slice(&self) -> &[Node]
        ensures { result.now ≡ self.now }
    {
        self.nodes.as_slice()
    }

    /// Adds a node at the end.
    fn push(&mut self, node: Node) -> Result<(), Fault>
        ensures ok { OnOk result (self.new ≡ self.old ++ node ∷ []) }
        ensures err { OnErr result (self.new ≡ self.old) }
        ensures memory { IfErr result (λ e. e ≡ fault.Memory) }
    {
        if self.nodes.push(node).is_err() {
            return Err(Fault::Memory);
        }
        Ok(())
    }
}

/// The nodes that voted for a transaction, or gave notice of it, before it was known. Each is kept once.
#[derive(Drop)]
pub struct Voters {
    alloc: Global,
    entries: BTreeMap<TxnId, Nodes>,
}

impl Model for Voters {
    ghost use Rattle.write_txn.specs.Voters.{VoterList};

    ghost Value = { VoterList };

    ghost view = { λ v. v.entries.entries };
}

/// The nodes that voted for a transaction.
fn nodes_of(entries: &BTreeMap<TxnId, Nodes>, txn: TxnId) -> &[Node]
    ensures { result.now ≡ voters_of entries.now.entries txn }
{
    match entries.get(&txn) {
        Some(nodes) => nodes.as_slice(),
        None => &[],
    }
}

/// Gives a transaction without a voter its first one.
fn add_first(
    alloc: Global,
    entries: &mut BTreeMap<TxnId, Nodes>,
    txn: TxnId,
    node: Node,
) -> Result<(), Fault>
    requires { voters_of entries.old.entries txn ≡ [] }
    ensures ok { OnOk result ((u : TxnValue) → voters_of entries.new.entries u ≡ (if is_eq (txn_cmp txn u) then voters_of entries.old.entries u ++ node ∷ [] else voters_of entries.old.entries u)) }
    ensures err { OnErr result ((u : TxnValue) → voters_of entries.new.entries u ≡ voters_of entries.old.entries u) }
    ensures memory { IfErr result (λ e. e ≡ fault.Memory) }
{
    let mut nodes = Nodes::new(alloc);
    nodes.push(node)?;
    entries.insert(txn, nodes)?;
    Ok(())
}

/// Adds a node to those that voted for a transaction.
fn add_one(
    alloc: Global,
    entries: &mut BTreeMap<TxnId, Nodes>,
    txn: TxnId,
    node: Node,
) -> Result<(), Fault>
    ensures ok { OnOk result ((u : TxnValue) → voters_of entries.new.entries u ≡ (if is_eq (txn_cmp txn u) then voters_of entries.old.entries u ++ node ∷ [] else voters_of entries.old.entries u)) }
    ensures err { OnErr result ((u : TxnValue) → voters_of entries.new.entries u ≡ voters_of entries.old.entries u) }
    ensures memory { IfErr result (λ e. e ≡ fault.Memory) }
{
    if !entries.contains_key(&txn) {
        return add_first(alloc, entries, txn, node);
    }
    match entries.get_mut(&txn) {
        Some(nodes) => nodes.push(node),
        None => Ok(()),
    }
}

/// Takes the voters of a transaction away.
#[inline(always)]
fn take_away(entries: &mut BTreeMap<TxnId, Nodes>, txn: TxnId)
    ensures { (u : TxnValue) → voters_of entries.new.entries u ≡ (if is_eq (txn_cmp txn u) then [] else voters_of entries.old.entries u) }
{
    entries.remove(&txn);
}

impl Voters {
    /// No vote.
    pub fn new(alloc: Global) -> Voters
        ensures { (t : TxnValue) → voters_of result t ≡ [] }
    {
        Voters {
            alloc,
            entries: BTreeMap::new(alloc),
        }
    }

    /// The nodes that voted for the transaction, in the order in which they came. In the order of log n for n
    /// transactions.
    pub fn of(&self, txn: TxnId) -> &[Node]
        ensures { result.now ≡ voters_of self.now txn }
    {
        nodes_of(&self.entries, txn)
    }

    /// Adds a vote. That of a node which has voted for the transaction already changes nothing, and takes no memory.
    /// Refused with `Memory` alone, and then every vote stays. In the order of m + log n for m voters of the
    /// transaction among n transactions.
    pub fn add(&mut self, txn: TxnId, node: Node) -> Result<(), Fault>
        ensures ok { OnOk result ((u : TxnValue) → voters_of self.new u ≡ (if is_eq (txn_cmp txn u) then (if is_among (voters_of self.old u) node then voters_of self.old u else voters_of self.old u ++ node ∷ []) else voters_of self.old u)) }
        ensures err { OnErr result ((u : TxnValue) → voters_of self.new u ≡ voters_of self.old u) }
        ensures memory { IfErr result (λ e. e ≡ fault.Memory) }
        ensures known { is_among (voters_of self.old txn) node ≡ true → IsOk result }
    {
        if is_in(self.of(txn), node) {
            return Ok(());
        }
        add_one(self.alloc, &mut self.entries, txn, node)
    }

    /// Takes the votes for the transaction away. Takes no memory. In the order of log n for n transactions.
    #[inline(always)]
    pub fn forget(&mut self, txn: TxnId)
        ensures { (u : TxnValue) → voters_of self.new u ≡ (if is_eq (txn_cmp txn u) then [] else voters_of self.old u) }
    {
        take_away(&mut self.entries, txn);
    }
}
