//! Decisions, and where they are announced.
ghost use Rattle.std.specs.Prelude.{◌≡◌, ◌+◌, ◌≤◌, ◌<◌, length};
ghost use Rattle.txn_state.specs.Announced.{Announced};

use crate::part::WritePart;
use crate::prepared::Prepared;
use column_family::Batch;
use logical_time::{Node, Stamp, Time, TxnId};
use std::marker::Model;

/// What takes notices of decisions.
pub trait Post {
    ghost use Rattle.std.specs.Prelude.{◌≡◌, ◌+◌, ◌≤◌, ◌<◌, ℕ};
    ghost use Rattle.logical_time.specs.Stamps.{StampValue, TxnValue};

    /// What a notice to a node of a transaction, its commit time and its stamp makes of it.
    ghost noticed: { Self → ℕ → TxnValue → ℕ → StampValue → Self → Type 0 };

    /// How many more notices fit.
    ghost space: { Self → ℕ };

    /// How many more notices fit.
    fn room(&self) -> usize
        ensures { result ≡ space self.now };

    /// Posts a notice, which takes one place.
    fn notice(&mut self, to: Node, txn: TxnId, commit: Time, stamp: Stamp)
        requires { 0 < space self.old }
        ensures told { noticed self.old to txn commit stamp self.new }
        ensures space { space self.old ≤ space self.new + 1 };
}

/// Posts one notice to each of the nodes, in order.
fn post_all<P: Post>(post: &mut P, nodes: &[Node], txn: TxnId, commit: Time, stamp: &Stamp)
    requires { length nodes.now ≤ P.space post.old }
    ensures told { Announced P.noticed nodes.now txn commit stamp.now post.old post.new }
    ensures space { P.space post.old ≤ P.space post.new + length nodes.now }
{
    for node in nodes {
        post.notice(*node, txn, commit, *stamp);
    }
}

/// A decision that the cohorts don't know yet. It must be spent: announced, or the shard is closed.
pub struct Verdict {
    own: Prepared,
    cohorts: Vec<Node>,
    commit: Time,
    stamp: Stamp,
}

impl Model for Verdict {
    ghost use Rattle.txn_state.specs.Verdict.{VerdictValue};

    ghost Value = { VerdictValue };

    ghost view = { λ v. record { own = v.own; cohorts = v.cohorts.items; commit = v.commit; stamp = v.stamp } };
}

impl Verdict {
    ghost use Rattle.std.specs.Prelude.{◌≡◌, ◌+◌, ◌≤◌, length};
    ghost use Rattle.txn_state.specs.Announced.{Announced};

    /// The decision on a part, for these cohorts.
    pub(crate) fn new(own: Prepared, cohorts: Vec<Node>, commit: Time, stamp: Stamp) -> Verdict
        ensures { result ≡ record { own = own; cohorts = cohorts.items; commit = commit; stamp = stamp } }
    {
        Verdict {
            own,
            cohorts,
            commit,
            stamp,
        }
    }

    /// The changes of the coordinator's own part.
    pub fn part(&self) -> &Batch
        ensures { result.now ≡ self.now.own.part.batch }
    {
        self.own.part()
    }

    /// Posts one notice to each cohort, in order, and no other. Hands out the coordinator's own part, which is to be
    /// applied.
    pub fn announce<P: Post>(self, post: &mut P) -> Prepared
        requires { length self.cohorts ≤ P.space post.old }
        ensures told { Announced P.noticed self.cohorts self.own.part.writer.txn self.commit self.stamp post.old post.new }
        ensures space { P.space post.old ≤ P.space post.new + length self.cohorts }
        ensures own { result ≡ self.own }
    {
        let writer = self.own.writer();
        post_all(post, &self.cohorts, writer.txn(), self.commit, &self.stamp);
        self.into_own()
    }

    /// Hands out the coordinator's own part: for a shard that is closed.
    pub fn surrender(self) -> WritePart
        ensures { result ≡ self.own.part }
    {
        let (part, _) = self.into_own().surrender();
        part
    }

    /// The coordinator's own part.
    fn into_own(self) -> Prepared
        ensures { result ≡ self.own }
    {
        let Verdict {
            own,
            cohorts: _,
            commit: _,
            stamp: _,
        } = self;
        own
    }
}
