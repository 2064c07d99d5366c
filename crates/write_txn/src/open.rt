//! What is under way of a transaction on a shard.
ghost use Rattle.std.specs.Prelude.{◌≡◌};

use column_family::Batch;
use logical_time::{Node, Shard, Stamp, Time, TxnId, Writer};
use messages::{Cohorts, Dependencies};
use std::marker::Model;
use txn_state::{Ballot, Prepared, RemoteBallot, WritePart};

/// Where a cohort's part came from.
#[derive(Clone, Copy, PartialEq, Eq)]
pub enum Origin {
    /// The write was submitted in this data centre.
    Submitted,
    /// The write was replicated from another one.
    Replicated,
}

/// A cohort's part of a write of another data centre, before it is prepared.
pub struct ReplicatedPart {
    /// The part.
    pub part: WritePart,
    /// The stamp of the write.
    pub stamp: Stamp,
}

/// A cohort's part that is prepared. It must be spent.
pub struct CohortPart {
    prepared: Prepared,
    origin: Origin,
}

impl Model for CohortPart {
    ghost use Rattle.messages.specs.Shard.{PreparedPart};
    ghost use Rattle.write_txn.specs.Roles.{role_of};

    ghost Value = { PreparedPart };

    ghost view = { λ p. record { txn = p.prepared.part.writer.txn; rows = p.prepared.part.batch; coordinator = p.prepared.part.writer.shard; time = p.prepared.time; role = role_of p.origin } };
}

impl CohortPart {
    ghost use Rattle.std.specs.Prelude.{◌≡◌};
    ghost use Rattle.write_txn.specs.Roles.{role_of};
    ghost use Rattle.write_txn.specs.Ledger.{prepared_of};

    /// A part that is prepared at this time.
    pub fn new(part: WritePart, time: Time, origin: Origin) -> CohortPart
        ensures { result ≡ record { txn = part.writer.txn; rows = part.batch; coordinator = part.writer.shard; time = time; role = role_of origin } }
    {
        CohortPart {
            prepared: Prepared::new(part, time),
            origin,
        }
    }

    /// The transaction.
    pub fn txn(&self) -> TxnId
        ensures { result ≡ self.now.txn }
    {
        self.prepared.writer().txn()
    }

    /// The transaction, with its coordinator.
    pub fn writer(&self) -> Writer
        ensures { result ≡ record { txn = self.now.txn; shard = self.now.coordinator } }
    {
        self.prepared.writer()
    }

    /// The coordinator, as the number of a shard within a data centre.
    pub fn coordinator(&self) -> Shard
        ensures { result ≡ self.now.coordinator }
    {
        self.prepared.writer().shard()
    }

    /// The changes.
    pub fn rows(&self) -> &Batch
        ensures { result.now ≡ self.now.rows }
    {
        self.prepared.part()
    }

    /// Where the part came from.
    pub fn origin(&self) -> Origin
        ensures { role_of result ≡ self.now.role }
    {
        self.origin
    }

    /// The part as what is to be spent.
    pub fn into_prepared(self) -> Prepared
        ensures { result ≡ prepared_of self }
    {
        let CohortPart {
            prepared,
            origin: _,
        } = self;
        prepared
    }
}

/// A ballot at its coordinator, with what its decision is to tell.
pub struct Led {
    /// The ballot.
    pub ballot: Ballot,
    /// The other shards of the transaction.
    pub cohorts: Cohorts,
    /// What the write depends on.
    pub dependencies: Dependencies,
    /// The stamp of a write of another data centre.
    pub stamp: Option<Stamp>,
}

/// A ballot of a write of another data centre, before anything is prepared.
pub struct Remote {
    /// The ballot.
    pub ballot: RemoteBallot,
    /// The other shards of the transaction.
    pub cohorts: Cohorts,
    /// What the write depends on.
    pub dependencies: Dependencies,
}

/// What such a ballot may miss.
#[derive(Clone, Copy)]
pub enum Missing {
    /// The notice of this node.
    Notice(Node),
    /// The answer for this dependency.
    Answer(TxnId),
}

impl Remote {
    ghost use Rattle.std.specs.Prelude.{◌≡◌, ◌==◌};
    ghost use Rattle.txn_state.specs.RemoteBallot.{missing_in};
    ghost use Rattle.write_txn.specs.Ledger.{remote_with};

    /// Whether this is the last thing that is missing.
    #[inline]
    pub fn is_last(&self, missing: &Missing) -> bool
        ensures { result ≡ (missing_in (remote_with self.now missing.now).ballot == 0) }
    {
        let ballot = &self.ballot;
        match missing {
            Missing::Notice(node) => {
                ballot.notices().is_last(*node) && ballot.answers().len() == 0
            }
            Missing::Answer(dependency) => {
                ballot.answers().is_last(*dependency) && ballot.notices().missing().is_empty()
            }
        }
    }
}

/// What is under way of a transaction. It must be spent.
pub enum Open {
    /// A part that is kept and not yet prepared.
    Kept(ReplicatedPart),
    /// A cohort's part that is prepared.
    Part(CohortPart),
    /// A ballot whose cohorts are voting.
    Led(Led),
    /// A ballot of another data centre's write that waits.
    Remote(Remote),
}

impl Open {
    ghost use Rattle.std.specs.Prelude.{◌≡◌};
    ghost use Rattle.write_txn.specs.Ledger.{txn_of, part_of};

    /// The transaction.
    pub fn txn(&self) -> TxnId
        ensures { result ≡ txn_of self.now }
    {
        match self {
            Open::Kept(kept) => kept.part.writer.txn(),
            Open::Part(part) => part.txn(),
            Open::Led(led) => led.ballot.writer().txn(),
            Open::Remote(remote) => remote.ballot.writer().txn(),
        }
    }

    /// The transaction, with its coordinator.
    pub fn writer(&self) -> Writer
        ensures { result ≡ (part_of self.now).writer }
    {
        match self {
            Open::Kept(kept) => kept.part.writer,
            Open::Part(part) => part.writer(),
            Open::Led(led) => led.ballot.writer(),
            Open::Remote(remote) => remote.ballot.writer(),
        }
    }

    /// The changes of the shard's own part.
    pub fn rows(&self) -> &Batch
        ensures { result.now ≡ (part_of self.now).batch }
    {
        match self {
            Open::Kept(kept) => &kept.part.batch,
            Open::Part(part) => part.rows(),
            Open::Led(led) => led.ballot.part(),
            Open::Remote(remote) => remote.ballot.part(),
        }
    }

    /// Hands out the shard's own part: for a shard that is closed.
    pub fn surrender(self) -> WritePart
        ensures { result ≡ part_of self }
    {
        match self {
            Open::Kept(ReplicatedPart { part, stamp: _ }) => part,
            Open::Part(part) => {
                let (part, _) = part.into_prepared().surrender();
                part
            }
            Open::Led(
                Led {
                    ballot,
                    cohorts: _,
                    dependencies: _,
                    stamp: _,
                },
            ) => ballot.surrender(),
            Open::Remote(
                Remote {
                    ballot,
                    cohorts: _,
                    dependencies: _,
                },
            ) => ballot.surrender(),
        }
    }
}
