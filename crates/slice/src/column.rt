//! Columns, and lists of them.
ghost use Rattle.std.specs.Prelude.{◌≡◌, [], IfOk};

use column_family::{Name, Value};
use std::alloc::{AllocError, Global};
use std::marker::Model;
use std::sync::Arc;

/// A column: a name and its value.
#[derive(Drop, Clone, PartialEq, Eq)]
pub struct Column {
    /// The name.
    pub name: Name,
    /// The value.
    pub value: Value,
}

/// Columns in order. Copies share them.
#[derive(Drop, Clone)]
pub struct Columns {
    // none stands for no column
    columns: Option<Arc<Vec<Column>>>,
}

impl Model for Columns {
    ghost use Rattle.std.specs.Prelude.{List};
    ghost use Rattle.slice.specs.declared.column.Column.{Column};
    ghost use Rattle.slice.specs.Columns.{columns_in};

    ghost Value = { List Column };

    ghost view = { λ list. columns_in list.columns };
}

impl Columns {
    /// No column.
    pub fn none() -> Columns
        ensures { result ≡ [] }
    {
        Columns { columns: None }
    }

    /// These columns. Fails by memory alone.
    pub fn from_vec(alloc: Global, columns: Vec<Column>) -> Result<Columns, AllocError>
        ensures { IfOk result (λ list. list ≡ columns.items) }
    {
        match Arc::new(alloc, columns) {
            Ok(columns) => Ok(Columns {
                columns: Some(columns),
            }),
            Err(_) => Err(AllocError),
        }
    }

    /// The columns.
    pub fn as_slice(&self) -> &[Column]
        ensures { result.now ≡ self.now }
    {
        match &self.columns {
            Some(columns) => columns.as_slice(),
            None => &[],
        }
    }
}
