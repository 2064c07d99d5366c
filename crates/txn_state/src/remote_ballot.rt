//! The ballot of a replicated write, before anything is prepared.
ghost use Rattle.std.specs.Prelude.{◌≡◌};

use crate::answers::Answers;
use crate::ballot::{Ballot, Complete};
use crate::part::WritePart;
use crate::prepared::Prepared;
use crate::votes::Votes;
use column_family::Batch;
use logical_time::{Node, Stamp, Time, TxnId, Writer};
use std::marker::Model;

/// A replicated write at its coordinator in this data centre, while notices of its cohorts or answers for its
/// dependencies may be missing. It must be spent: made ready, or the shard is closed.
pub struct RemoteBallot {
    part: WritePart,
    stamp: Stamp,
    notices: Votes,
    answers: Answers,
}

impl Model for RemoteBallot {
    ghost use Rattle.txn_state.specs.RemoteBallot.{RemoteValue};

    ghost Value = { RemoteValue };

    ghost view = { λ r. record { part = r.part; stamp = r.stamp; notices = r.notices; answers = r.answers } };
}

/// What a replicated write becomes once nothing is missing.
pub enum Ready {
    /// Its cohorts are to vote.
    Ballot(Ballot),
    /// It has no cohorts.
    Complete(Complete),
}

impl RemoteBallot {
    ghost use Rattle.txn_state.specs.Votes.{counted};
    ghost use Rattle.txn_state.specs.Answers.{answered};
    ghost use Rattle.txn_state.specs.RemoteBallot.{missing_in};
    ghost use Rattle.txn_state.specs.Ready.{ready_at};

    /// The coordinator's own part of a write, with the stamp that came with it.
    pub fn new(part: WritePart, stamp: Stamp, notices: Votes, answers: Answers) -> RemoteBallot
        ensures { result ≡ record { part = part; stamp = stamp; notices = notices; answers = answers } }
    {
        RemoteBallot {
            part,
            stamp,
            notices,
            answers,
        }
    }

    /// The transaction, with its coordinator.
    pub fn writer(&self) -> Writer
        ensures { result ≡ self.now.part.writer }
    {
        self.part.writer
    }

    /// The changes of the coordinator's own part.
    pub fn part(&self) -> &Batch
        ensures { result.now ≡ self.now.part.batch }
    {
        &self.part.batch
    }

    /// The stamp of the transaction.
    pub fn stamp(&self) -> Stamp
        ensures { result ≡ self.now.stamp }
    {
        self.stamp
    }

    /// The notices of the cohorts.
    pub fn notices(&self) -> &Votes
        ensures { result.now ≡ self.now.notices }
    {
        &self.notices
    }

    /// The answers for the dependencies.
    pub fn answers(&self) -> &Answers
        ensures { result.now ≡ self.now.answers }
    {
        &self.answers
    }

    /// How many notices and answers are missing.
    pub fn missing(&self) -> usize
        ensures { result ≡ missing_in self.now }
    {
        self.notices.missing().len() + self.answers.len()
    }

    /// Counts the notice of a node. A stranger's, or a cohort's second one, changes nothing.
    pub fn notice(&mut self, node: Node)
        ensures { self.new ≡ record self.old { notices = counted self.old.notices node } }
    {
        self.notices.count(node);
    }

    /// Counts the answer for a dependency. A stranger's, or a second one, changes nothing. In the order of log d for d
    /// answers that are missing.
    pub fn dep_ok(&mut self, dependency: TxnId)
        ensures { self.new ≡ record self.old { answers = answered self.old.answers dependency } }
    {
        self.answers.count(dependency);
    }

    /// Prepares the coordinator's own part at this time. Without cohorts all is complete; else each of them is to vote.
    pub fn ready(self, time: Time) -> Ready
        requires { missing_in self ≡ 0 }
        ensures { result ≡ ready_at self time }
    {
        let RemoteBallot {
            part,
            stamp: _,
            notices: mut votes,
            answers: _,
        } = self;
        let own = Prepared::new(part, time);
        votes.restart();
        if votes.missing().is_empty() {
            Ready::Complete(Complete::new(own, votes))
        } else {
            Ready::Ballot(Ballot::new(own, votes))
        }
    }

    /// Hands out the coordinator's own part: for a shard that is closed.
    pub fn surrender(self) -> WritePart
        ensures { result ≡ self.part }
    {
        let RemoteBallot {
            part,
            stamp: _,
            notices: _,
            answers: _,
        } = self;
        part
    }
}
