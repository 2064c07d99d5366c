//! The ballot of a transaction at its coordinator.
ghost use Rattle.std.specs.Prelude.{◌≡◌, ◌<◌, false, length};
ghost use Rattle.txn_state.specs.Votes.{is_among};

use crate::part::WritePart;
use crate::prepared::Prepared;
use crate::verdict::Verdict;
use crate::votes::Votes;
use column_family::Batch;
use logical_time::{Node, Stamp, Time, Writer};
use std::marker::Model;

/// A coordinator's prepared part, while votes of its cohorts are missing. It must be spent: each cohort votes, or the
/// shard is closed.
pub struct Ballot {
    own: Prepared,
    votes: Votes,
}

impl Model for Ballot {
    ghost use Rattle.std.specs.Prelude.{◌<◌, length};
    ghost use Rattle.txn_state.specs.Ballot.{BallotValue};

    ghost Value = { BallotValue };

    ghost view = { λ b. record { own = b.own; votes = b.votes } };

    ghost invariant = { λ b. 0 < length b.votes.missing };
}

/// What a vote makes of a ballot.
pub enum Voted {
    /// More votes are missing.
    More(Ballot),
    /// All cohorts have voted.
    All(Complete),
}

impl Ballot {
    ghost use Rattle.txn_state.specs.Voted.{voted};
    ghost use Rattle.txn_state.specs.declared.ballot.Voted.TheVariants as in_voted;

    /// The ballot of a part, some of whose cohorts haven't voted.
    pub fn new(own: Prepared, votes: Votes) -> Ballot
        requires { 0 < length votes.missing }
        ensures { result ≡ record { own = own; votes = votes } }
    {
        Ballot { own, votes }
    }

    /// The transaction, with its coordinator.
    pub fn writer(&self) -> Writer
        ensures { result ≡ self.now.own.part.writer }
    {
        self.own.writer()
    }

    /// The changes of the coordinator's own part.
    pub fn part(&self) -> &Batch
        ensures { result.now ≡ self.now.own.part.batch }
    {
        self.own.part()
    }

    /// The prepare time of the coordinator's own part.
    pub fn time(&self) -> Time
        ensures { result ≡ self.now.own.time }
    {
        self.own.time()
    }

    /// The votes.
    pub fn votes(&self) -> &Votes
        ensures { result.now ≡ self.now.votes }
    {
        &self.votes
    }

    /// Counts the vote of a node. A stranger's, or a cohort's second one, changes nothing; the last missing one completes
    /// the ballot.
    #[tactic(auto, using(crate::proofs::Strangers::stranger))]
    pub fn vote(self, node: Node) -> Voted
        ensures exact { result ≡ voted self node }
        ensures unasked { is_among self.votes.missing node ≡ false → result ≡ in_voted.More self }
    {
        self.voted(node)
    }

    /// Hands out the coordinator's own part: for a shard that is closed.
    pub fn surrender(self) -> WritePart
        ensures { result ≡ self.own.part }
    {
        let Ballot { own, votes: _ } = self;
        let (part, _) = own.surrender();
        part
    }

    /// Counts a vote.
    fn voted(self, node: Node) -> Voted
        ensures { result ≡ voted self node }
    {
        let Ballot { own, mut votes } = self;
        votes.count(node);
        if votes.missing().is_empty() {
            Voted::All(Complete::new(own, votes))
        } else {
            Voted::More(Ballot { own, votes })
        }
    }
}

/// A coordinator's prepared part, once all of its cohorts have voted. It must be spent: decided, or the shard is closed.
pub struct Complete {
    own: Prepared,
    cohorts: Vec<Node>,
}

impl Model for Complete {
    ghost use Rattle.txn_state.specs.Ballot.{CompleteValue};

    ghost Value = { CompleteValue };

    ghost view = { λ c. record { own = c.own; cohorts = c.cohorts.items } };
}

impl Complete {
    ghost use Rattle.std.specs.Prelude.{◌≡◌, []};

    /// A part whose cohorts, if there are any, have all voted.
    pub fn new(own: Prepared, votes: Votes) -> Complete
        requires { votes.missing ≡ [] }
        ensures { result ≡ record { own = own; cohorts = votes.cohorts } }
    {
        Complete {
            own,
            cohorts: votes.into_cohorts(),
        }
    }

    /// The changes of the coordinator's own part.
    pub fn part(&self) -> &Batch
        ensures { result.now ≡ self.now.own.part.batch }
    {
        self.own.part()
    }

    /// Decides: the transaction commits at this time, with this stamp.
    pub fn decide(self, commit: Time, stamp: Stamp) -> Verdict
        ensures { result ≡ record { own = self.own; cohorts = self.cohorts; commit = commit; stamp = stamp } }
    {
        let Complete { own, cohorts } = self;
        Verdict::new(own, cohorts, commit, stamp)
    }

    /// Hands out the coordinator's own part: for a shard that is closed.
    pub fn surrender(self) -> WritePart
        ensures { result ≡ self.own.part }
    {
        let Complete { own, cohorts: _ } = self;
        let (part, _) = own.surrender();
        part
    }
}
