//! What shards answer in the first round of a read.
ghost use Rattle.std.specs.Prelude.{◌≡◌, ◌∷◌, [], IfOk};

use column_family::Key;
use logical_time::{Time, Writers};
use slice::Columns;
use std::alloc::{AllocError, Global};
use std::marker::Model;
use std::slice::from_ref;
use std::sync::Arc;

/// An asked row by its newest versions.
#[derive(Drop, Clone)]
pub struct RowNow {
    /// The key of the row.
    pub key: Key,
    /// The slice of the newest versions.
    pub columns: Columns,
    /// The transactions that the slice rests on.
    pub writers: Writers,
    /// The earliest time at which the slice is valid (Eiger's EVT).
    pub evt: Time,
    /// The latest time at which it is known to be valid (Eiger's LVT).
    pub lvt: Time,
}

/// Where rows are kept.
#[derive(Drop, Clone)]
enum Listed {
    /// One: mostly a shard is asked for one.
    One(Arc<RowNow>),
    /// None, or more.
    Many(Arc<Vec<RowNow>>),
}

/// The asked rows of one shard by their newest versions. Copies share them.
#[derive(Drop, Clone)]
pub struct RowsNow {
    listed: Listed,
}

impl Model for RowsNow {
    ghost use Rattle.std.specs.Prelude.{List};
    ghost use Rattle.messages.specs.declared.rows_now.RowNow.{RowNow};
    ghost use Rattle.messages.specs.RowsNow.{listed_in};

    ghost Value = { List RowNow };

    ghost view = { λ list. listed_in list.listed };
}

impl RowsNow {
    /// These rows. Fails by memory alone.
    pub fn from_vec(alloc: Global, rows: Vec<RowNow>) -> Result<RowsNow, AllocError>
        ensures { IfOk result (λ list. list ≡ rows.items) }
    {
        match Arc::new(alloc, rows) {
            Ok(rows) => Ok(RowsNow {
                listed: Listed::Many(rows),
            }),
            Err(_) => Err(AllocError),
        }
    }

    /// This row alone, for which no list is made. Fails by memory alone.
    pub fn one(alloc: Global, row: RowNow) -> Result<RowsNow, AllocError>
        ensures { IfOk result (λ list. list ≡ row ∷ []) }
    {
        match Arc::new(alloc, row) {
            Ok(row) => Ok(RowsNow {
                listed: Listed::One(row),
            }),
            Err(_) => Err(AllocError),
        }
    }

    /// The rows, in the order in which they were asked.
    pub fn as_slice(&self) -> &[RowNow]
        ensures { result.now ≡ self.now }
    {
        match &self.listed {
            Listed::One(row) => from_ref(row.as_ref()),
            Listed::Many(rows) => rows.as_slice(),
        }
    }
}
