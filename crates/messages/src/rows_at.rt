//! What shards answer in the second round of a read.
ghost use Rattle.std.specs.Prelude.{◌≡◌, IfOk};

use column_family::Key;
use logical_time::Writers;
use slice::Columns;
use std::alloc::{AllocError, Global};
use std::marker::Model;
use std::sync::Arc;

/// An asked row at a time.
#[derive(Drop, Clone)]
pub struct RowAt {
    /// The key of the row.
    pub key: Key,
    /// The slice at the time.
    pub columns: Columns,
    /// The transactions that the slice rests on.
    pub writers: Writers,
}

/// Asked rows of one shard at a time. Copies share them.
#[derive(Drop, Clone)]
pub struct RowsAt {
    rows: Arc<Vec<RowAt>>,
}

impl Model for RowsAt {
    ghost use Rattle.std.specs.Prelude.{List};
    ghost use Rattle.messages.specs.declared.rows_at.RowAt.{RowAt};

    ghost Value = { List RowAt };

    ghost view = { λ list. list.rows.value.items };
}

impl RowsAt {
    /// These rows. Fails by memory alone.
    pub fn from_vec(alloc: Global, rows: Vec<RowAt>) -> Result<RowsAt, AllocError>
        ensures { IfOk result (λ list. list ≡ rows.items) }
    {
        match Arc::new(alloc, rows) {
            Ok(rows) => Ok(RowsAt { rows }),
            Err(_) => Err(AllocError),
        }
    }

    /// The rows, in the order in which they were asked.
    pub fn as_slice(&self) -> &[RowAt]
        ensures { result.now ≡ self.now }
    {
        self.rows.as_slice()
    }
}

/// What a shard answers to a read at a time.
#[derive(Drop, Clone)]
pub enum AtTime {
    /// The versions of that time are collected already.
    Collected,
    /// The rows at that time.
    Rows(RowsAt),
}
