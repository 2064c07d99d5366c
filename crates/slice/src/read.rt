//! Reads and their answers.
ghost use Rattle.std.specs.Prelude.{◌≡◌, ◌++◌, [], ◌∷◌, OnOk, OnErr, IfErr, IfOk};

use crate::column::Columns;
use crate::predicate::Predicate;
use column_family::{Family, Key, Row};
use std::alloc::{AllocError, AllocFailed, Global};
use std::marker::Model;
use std::slice::from_ref;
use std::sync::Arc;

/// Where keys are kept.
#[derive(Drop, Clone)]
enum Listed {
    /// One in the handle: mostly a shard is asked for one.
    One(Key),
    /// None, or more.
    Many(Arc<Vec<Key>>),
}

/// Keys as a request lists them, repeats included. One alone takes no memory, and copies share more.
#[derive(Drop, Clone)]
pub struct Keys {
    listed: Listed,
}

impl Model for Keys {
    ghost use Rattle.std.specs.Prelude.{List, ℕ};
    ghost use Rattle.slice.specs.Keys.{listed_in};

    ghost Value = { List (List ℕ) };

    ghost view = { λ list. listed_in list.listed };
}

impl Keys {
    /// These keys. Fails by memory alone.
    pub fn from_vec(alloc: Global, mut keys: Vec<Key>) -> Result<Keys, AllocError>
        ensures { IfOk result (λ list. list ≡ keys.items) }
    {
        if keys.len() == 1 {
            if let Some(key) = keys.pop() {
                return Ok(Keys::one(key));
            }
        }
        match Arc::new(alloc, keys) {
            Ok(keys) => Ok(Keys {
                listed: Listed::Many(keys),
            }),
            Err(_) => Err(AllocError),
        }
    }

    /// This key alone. Takes no memory.
    pub fn one(key: Key) -> Keys
        ensures { result ≡ key ∷ [] }
    {
        Keys {
            listed: Listed::One(key),
        }
    }

    /// The keys, as they were listed.
    pub fn as_slice(&self) -> &[Key]
        ensures { result.now ≡ self.now }
    {
        match &self.listed {
            Listed::One(key) => from_ref(key),
            Listed::Many(keys) => keys.as_slice(),
        }
    }
}

/// What a read transaction asks: of each of these rows of a family the columns that the predicate names.
#[derive(Drop, Clone)]
pub struct Read {
    /// The column family.
    pub family: Family,
    /// The keys of the rows.
    pub keys: Keys,
    /// Which columns.
    pub predicate: Predicate,
}

impl Read {
    ghost use Rattle.std.specs.Prelude.{IfOk};
    ghost use Rattle.slice.specs.Rows as rows;

    /// The row that it means by a key.
    #[inline(always)]
    pub fn row_of(&self, key: &Key) -> Result<Row, AllocError>
        ensures { IfOk result (λ row. row ≡ rows.row_of self.now key.now) }
    {
        Ok(Row {
            family: self.family.clone()?,
            key: key.clone()?,
        })
    }
}

/// An asked row of an answer.
#[derive(Drop, Clone)]
pub struct AnsweredRow {
    /// The key of the row.
    pub key: Key,
    /// Its slice.
    pub columns: Columns,
}

/// The answer of a read: each asked key once, in the order of first asking, with its columns.
#[derive(Drop, Clone)]
pub struct Answer {
    rows: Vec<AnsweredRow>,
}

impl Model for Answer {
    ghost use Rattle.std.specs.Prelude.{List};
    ghost use Rattle.slice.specs.declared.read.AnsweredRow.{AnsweredRow};

    ghost Value = { List AnsweredRow };

    ghost view = { λ answer. answer.rows.items };
}

impl Answer {
    /// An answer without a row.
    pub fn new(alloc: Global) -> Answer
        ensures { result ≡ [] }
    {
        Answer {
            rows: Vec::new(alloc),
        }
    }

    /// An answer without a row, with room for so many. Fails by memory alone.
    pub fn with_capacity(alloc: Global, rows: usize) -> Result<Answer, AllocError>
        ensures { IfOk result (λ answer. answer ≡ []) }
    {
        Ok(Answer {
            rows: Vec::with_capacity(alloc, rows)?,
        })
    }

    /// Adds a row at the end. Fails by memory alone; then nothing changes, and
    /// it is handed back.
    pub fn push(&mut self, row: AnsweredRow) -> Result<(), AllocFailed<AnsweredRow>>
        ensures ok { OnOk result (self.new ≡ self.old ++ row ∷ []) }
        ensures err { OnErr result (self.new ≡ self.old) }
        ensures back { IfErr result (λ e. e.value ≡ row) }
    {
        self.rows.push(row)
    }

    /// The rows.
    pub fn as_slice(&self) -> &[AnsweredRow]
        ensures { result.now ≡ self.now }
    {
        self.rows.as_slice()
    }
}
