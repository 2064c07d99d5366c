//! The kinds of messages.
ghost use Rattle.std.specs.Prelude.{◌≡◌};

use crate::cohorts::Cohorts;
use crate::copies::{
    begin, first_round, part_at, part_now, prepare, repl_begin, repl_part, second_round,
};
use crate::rows_at::AtTime;
use crate::rows_now::RowsNow;
use crate::shared::Shared;
use column_family::Batch;
use logical_time::{Shard, Stamp, Time, TxnId, Writer, Writers};
use slice::Read;
use std::alloc::{AllocError, Global};
use std::marker::Model;

/// What a write depends on: transactions with their coordinators, in order and each once. Copies share them.
#[derive(Drop, Clone)]
pub struct Dependencies {
    writers: Shared<Writers>,
}

impl Model for Dependencies {
    ghost use Rattle.std.specs.Prelude.{List};
    ghost use Rattle.logical_time.specs.Stamps.{WriterValue};

    ghost Value = { List WriterValue };

    ghost view = { λ list. list.writers };
}

impl Dependencies {
    ghost use Rattle.std.specs.Prelude.{IfOk};

    /// These writers. Fails by memory alone.
    pub fn from_writers(alloc: Global, writers: Writers) -> Result<Dependencies, AllocError>
        ensures { IfOk result (λ list. list ≡ writers) }
    {
        Ok(Dependencies {
            writers: Shared::new(alloc, writers)?,
        })
    }

    /// The writers.
    pub fn as_slice(&self) -> &[Writer]
        ensures { result.now ≡ self.now }
    {
        self.writers.get().as_slice()
    }
}

/// What a message says.
#[derive(Drop)]
pub enum Body {
    /// A session submits a write: to its coordinator.
    Begin {
        /// The transaction.
        txn: TxnId,
        /// The coordinator's part.
        rows: Batch,
        /// The other shards of the transaction.
        cohorts: Cohorts,
        /// What the session's writes depend on.
        dependencies: Dependencies,
    },
    /// A session submits a write: to a cohort.
    Prepare {
        /// The transaction.
        txn: TxnId,
        /// The cohort's part.
        rows: Batch,
        /// The coordinator.
        coordinator: Shard,
    },
    /// A cohort has prepared its part.
    Yes {
        /// The transaction.
        txn: TxnId,
    },
    /// The coordinator has decided.
    Commit {
        /// The transaction.
        txn: TxnId,
        /// Its commit time in this data centre.
        commit: Time,
        /// Its stamp.
        stamp: Stamp,
    },
    /// The answer to a check of a transaction that is decided.
    At {
        /// The transaction.
        txn: TxnId,
        /// Its commit time in this data centre.
        commit: Time,
        /// Its stamp.
        stamp: Stamp,
    },
    /// The answer to a check of a transaction that isn't decided: it commits after the time, if ever.
    NotBy {
        /// The transaction.
        txn: TxnId,
        /// The time that was asked about.
        time: Time,
    },
    /// Asks a coordinator whether the transaction commits at or before a time (Eiger's indirect commit check).
    Check {
        /// The transaction.
        txn: TxnId,
        /// The time.
        time: Time,
    },
    /// The first round of a read: asks for the newest versions.
    Read {
        /// The number of the read among the session's operations.
        number: u64,
        /// What is asked of this shard.
        read: Shared<Read>,
    },
    /// The second round of a read: asks for the versions at its effective time.
    ReadAt {
        /// The number of the read among the session's operations.
        number: u64,
        /// The effective time.
        time: Time,
        /// What is asked of this shard.
        read: Shared<Read>,
    },
    /// Replicates a write: to its coordinator in another data centre.
    ReplBegin {
        /// The other shards of the transaction, first of all, where a byte takes no room.
        cohorts: Cohorts,
        /// The transaction.
        txn: TxnId,
        /// The coordinator's part.
        rows: Batch,
        /// The stamp of the transaction.
        stamp: Stamp,
        /// What the write depends on.
        dependencies: Dependencies,
    },
    /// Replicates a write: to a cohort in another data centre.
    ReplPart {
        /// The transaction.
        txn: TxnId,
        /// The cohort's part.
        rows: Batch,
        /// The stamp of the transaction.
        stamp: Stamp,
        /// The coordinator.
        coordinator: Shard,
    },
    /// A cohort keeps its replicated part.
    Notify {
        /// The transaction.
        txn: TxnId,
    },
    /// Asks a cohort to prepare its replicated part.
    PrepareRemote {
        /// The transaction.
        txn: TxnId,
    },
    /// Asks whether a dependency is committed in this data centre (Eiger's dependency check).
    DepCheck {
        /// The dependency.
        dependency: TxnId,
        /// The write that depends on it, or the session's move.
        waiter: TxnId,
    },
    /// The dependency is committed in this data centre.
    DepOk {
        /// The dependency.
        dependency: TxnId,
        /// The write that depends on it, or the session's move.
        waiter: TxnId,
        /// The commit time of the dependency in this data centre.
        commit: Time,
    },
    /// A write is committed: to its session.
    Done {
        /// The transaction.
        txn: TxnId,
        /// Its commit time in the session's data centre.
        commit: Time,
        /// Its stamp.
        stamp: Stamp,
    },
    /// A shard's answer in the first round of a read.
    PartNow {
        /// The number of the read.
        number: u64,
        /// The asked rows of this shard.
        rows: RowsNow,
    },
    /// A shard's answer in the second round of a read.
    PartAt {
        /// The number of the read.
        number: u64,
        /// The effective time.
        time: Time,
        /// The asked rows of this shard, or that they are collected.
        answer: AtTime,
    },
}

impl Body {
    ghost use Rattle.std.specs.Prelude.{◌≡◌, IfOk};

    /// A copy, which shares the bytes of keys, names and values. Fails by memory alone.
    #[rattlefmt::skip]
    #[inline(always)]
    pub fn copied(&self) -> Result<Body, AllocError>
        ensures { IfOk result (λ copy. copy ≡ self.now) }
    {
        match *self {
            Body::Begin { txn, ref rows, ref cohorts, ref dependencies } => begin(txn, rows, cohorts, dependencies),
            Body::Prepare { txn, ref rows, coordinator } => prepare(txn, rows, coordinator),
            Body::Yes { txn } => Ok(Body::Yes { txn }),
            Body::Commit { txn, commit, stamp } => Ok(Body::Commit { txn, commit, stamp }),
            Body::At { txn, commit, stamp } => Ok(Body::At { txn, commit, stamp }),
            Body::NotBy { txn, time } => Ok(Body::NotBy { txn, time }),
            Body::Check { txn, time } => Ok(Body::Check { txn, time }),
            Body::Read { number, ref read } => first_round(number, read),
            Body::ReadAt { number, time, ref read } => second_round(number, time, read),
            Body::ReplBegin { txn, ref rows, stamp, ref cohorts, ref dependencies } => repl_begin(txn, rows, stamp, cohorts, dependencies),
            Body::ReplPart { txn, ref rows, stamp, coordinator } => repl_part(txn, rows, stamp, coordinator),
            Body::Notify { txn } => Ok(Body::Notify { txn }),
            Body::PrepareRemote { txn } => Ok(Body::PrepareRemote { txn }),
            Body::DepCheck { dependency, waiter } => Ok(Body::DepCheck { dependency, waiter }),
            Body::DepOk { dependency, waiter, commit } => Ok(Body::DepOk { dependency, waiter, commit }),
            Body::Done { txn, commit, stamp } => Ok(Body::Done { txn, commit, stamp }),
            Body::PartNow { number, ref rows } => part_now(number, rows),
            Body::PartAt { number, time, ref answer } => part_at(number, time, answer),
        }
    }
}
