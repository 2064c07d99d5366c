//! Mutations of rows, batches of them, and batches that are committed.
ghost use Rattle.std.specs.Prelude.{◌≡◌, ◌++◌, [], ◌∷◌, length, OnOk, OnErr, IfErr};

use crate::byte_strings::{Family, Key, Name, Value};
use logical_time::{Stamp, Time};
use std::alloc::{AllocError, AllocFailed, Global};
use std::marker::Model;

/// A row: a key in a column family. Two rows are compared by their keys first, in which most differ.
#[derive(Drop, Clone, PartialEq, Eq, PartialOrd, Ord)]
pub struct Row {
    /// The key.
    pub key: Key,
    /// The column family.
    pub family: Family,
}

/// What is done to a row (Cassandra's mutation: an insertion of a column, or a deletion).
#[derive(Drop, Clone, PartialEq, Eq)]
pub enum Mutation {
    /// Gives a column a value.
    Insert {
        /// The column.
        name: Name,
        /// Its value.
        value: Value,
    },
    /// Deletes a column.
    DeleteColumn {
        /// The column.
        name: Name,
    },
    /// Deletes all columns of the row.
    DeleteRow,
    /// Deletes the columns between two ends, both included; an empty end is open.
    DeleteRange {
        /// The first name.
        start: Name,
        /// The last name.
        finish: Name,
    },
}

/// A mutation of a row.
#[derive(Drop, Clone, PartialEq, Eq)]
pub struct Change {
    /// The row.
    pub row: Row,
    /// What is done to it.
    pub mutation: Mutation,
}

impl Change {
    ghost use Rattle.std.specs.Prelude.{◌≡◌, IfOk};

    /// A copy, which shares the bytes of keys, names and values. Fails by memory alone.
    pub fn copied(&self) -> Result<Change, AllocError>
        ensures { IfOk result (λ copy. copy ≡ self.now) }
    {
        self.clone()
    }
}

/// A batch: changes in order, the later ones newer. Each batch is one write transaction
/// (Cassandra's `batch_mutate`, Eiger's write-only transaction).
#[derive(Drop, Clone)]
pub struct Batch {
    changes: Vec<Change>,
}

impl Model for Batch {
    ghost use Rattle.std.specs.Prelude.{List};
    ghost use Rattle.column_family.specs.declared.batch.Change.{Change};

    ghost Value = { List Change };

    ghost view = { λ batch. batch.changes.items };
}

impl Batch {
    /// A batch without a change.
    pub fn new(alloc: Global) -> Batch
        ensures { result ≡ [] }
    {
        Batch {
            changes: Vec::new(alloc),
        }
    }

    /// A batch of these changes.
    pub fn from_changes(changes: Vec<Change>) -> Batch
        ensures { result ≡ changes.items }
    {
        Batch { changes }
    }

    /// Adds a change, the newest. Fails by memory alone; then nothing changes, and
    /// it is handed back.
    pub fn push(&mut self, change: Change) -> Result<(), AllocFailed<Change>>
        ensures ok { OnOk result (self.new ≡ self.old ++ change ∷ []) }
        ensures err { OnErr result (self.new ≡ self.old) }
        ensures back { IfErr result (λ e. e.value ≡ change) }
    {
        self.changes.push(change)
    }

    /// The changes, oldest first.
    pub fn as_slice(&self) -> &[Change]
        ensures { result.now ≡ self.now }
    {
        self.changes.as_slice()
    }

    /// How many changes there are.
    pub fn len(&self) -> usize
        ensures { result ≡ length self.now }
    {
        self.changes.len()
    }

    /// The changes themselves, oldest first.
    pub fn into_vec(self) -> Vec<Change>
        ensures { result.items ≡ self }
    {
        self.changes
    }
}

/// A batch that is committed: an entry of a history.
#[derive(Drop, Clone)]
pub struct Committed {
    /// The batch, as it was submitted.
    pub batch: Batch,
    /// The stamp of its transaction, the same in all data centres.
    pub stamp: Stamp,
    /// The commit time in the data centre whose history this is.
    pub commit: Time,
}
