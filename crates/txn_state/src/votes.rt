//! Votes that count once.
ghost use Rattle.std.specs.Prelude.{◌≡◌, ◌==◌, not, filter, vec_capacity, IfOk, IfErr};
ghost use Rattle.std.specs.List.{list_all};
ghost use Rattle.logical_time.specs.declared.fault.Fault.TheVariants as fault;
ghost use Rattle.txn_state.specs.Votes.{is_among, votes_after, counted, are_all_there};

use logical_time::{Fault, Node};
use std::alloc::Global;
use std::marker::Model;

/// The cohorts of a transaction, as nodes in order, and those whose votes are missing. The notices that cohorts keep a
/// replicated part are counted in the same way.
#[derive(Drop)]
pub struct Votes {
    cohorts: Vec<Node>,
    missing: Vec<Node>,
}

impl Model for Votes {
    ghost use Rattle.std.specs.Prelude.{◌≤◌, length, vec_capacity};
    ghost use Rattle.txn_state.specs.Votes.{VotesValue};

    ghost Value = { VotesValue };

    ghost view = { λ v. record { cohorts = v.cohorts.items; missing = v.missing.items } };

    ghost invariant = { λ v. length v.cohorts.items ≤ vec_capacity v.missing };
}

fn is_in(nodes: &[Node], node: Node) -> bool
    ensures { result ≡ is_among nodes.now node }
{
    nodes.iter().any(|n| *n == node)
}

fn are_all(nodes: &[Node], node: Node) -> bool
    ensures { result ≡ list_all (λ n. n == node) nodes.now }
{
    nodes.iter().all(|n| *n == node)
}

/// Takes these nodes out.
fn take_out(missing: &mut Vec<Node>, voters: &[Node])
    ensures rest { missing.new.items ≡ filter (λ n. not (is_among voters.now n)) missing.old.items }
    ensures room { vec_capacity missing.new ≡ vec_capacity missing.old }
{
    missing.retain(|n| !is_in(voters, *n));
}

/// Takes this node out.
fn take_one_out(missing: &mut Vec<Node>, voter: Node)
    ensures rest { missing.new.items ≡ filter (λ n. not (n == voter)) missing.old.items }
    ensures room { vec_capacity missing.new ≡ vec_capacity missing.old }
{
    let mut place = 0;
    while place < missing.len() {
        if missing[place] == voter {
            let _voter = missing.remove(place);
        } else {
            place += 1;
        }
    }
}

impl Votes {
    /// The votes of these cohorts, where these nodes have voted already. Refused with `Memory` alone.
    #[inline(always)]
    pub fn new(alloc: Global, cohorts: Vec<Node>, voters: &[Node]) -> Result<Votes, Fault>
        ensures ok { IfOk result (λ votes. votes ≡ votes_after cohorts.items voters.now) }
        ensures memory { IfErr result (λ e. e ≡ fault.Memory) }
    {
        let mut missing = Vec::from_slice(alloc, cohorts.as_slice())?;
        take_out(&mut missing, voters);
        Ok(Votes { cohorts, missing })
    }

    /// The cohorts.
    pub fn cohorts(&self) -> &[Node]
        ensures { result.now ≡ self.now.cohorts }
    {
        self.cohorts.as_slice()
    }

    /// The cohorts whose votes are missing.
    pub fn missing(&self) -> &[Node]
        ensures { result.now ≡ self.now.missing }
    {
        self.missing.as_slice()
    }

    /// Whether no vote is missing once this node has voted.
    pub fn is_last(&self, node: Node) -> bool
        ensures { result ≡ are_all_there (counted self.now node) }
    {
        are_all(self.missing.as_slice(), node)
    }

    /// Counts a vote.
    pub(crate) fn count(&mut self, node: Node)
        ensures { self.new ≡ counted self.old node }
    {
        take_one_out(&mut self.missing, node);
    }

    /// Asks all cohorts again.
    pub(crate) fn restart(&mut self)
        ensures { self.new ≡ record self.old { missing = self.old.cohorts } }
    {
        self.missing.clear();
        self.missing
            .extend_from_slice(self.cohorts.as_slice())
            .unwrap();
    }

    /// The cohorts themselves.
    pub(crate) fn into_cohorts(self) -> Vec<Node>
        ensures { result.items ≡ self.cohorts }
    {
        self.cohorts
    }
}
