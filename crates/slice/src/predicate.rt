//! Which columns of a row are asked for.
ghost use Rattle.std.specs.Prelude.{◌≡◌, IfOk};
ghost use Rattle.std.specs.List.{list_all};
ghost use Rattle.column_family.specs.Limits.{is_name};
ghost use Rattle.logical_time.specs.Fault.{IsRefusedFor};
ghost use Rattle.slice.specs.Slice.{names_fault, range_fault};
ghost use Rattle.slice.specs.Rests as rests;

use crate::column::Column;
use column_family::Name;
use logical_time::Fault;
use std::alloc::{AllocError, Global};
use std::marker::Model;
use std::sync::Arc;

/// Names in the order in which they are listed, repeats included.
/// Copies share them.
#[derive(Drop, Clone)]
pub struct Names {
    names: Arc<Vec<Name>>,
}

impl Model for Names {
    ghost use Rattle.std.specs.Prelude.{List, ℕ};

    ghost Value = { List (List ℕ) };

    ghost view = { λ list. list.names.value.items };
}

impl Names {
    /// These names. Fails by memory alone.
    #[inline(always)]
    pub fn from_vec(alloc: Global, names: Vec<Name>) -> Result<Names, AllocError>
        ensures { IfOk result (λ list. list ≡ names.items) }
    {
        match Arc::new(alloc, names) {
            Ok(names) => Ok(Names { names }),
            Err(_) => Err(AllocError),
        }
    }

    /// The names, as they were listed.
    pub fn as_slice(&self) -> &[Name]
        ensures { result.now ≡ self.now }
    {
        self.names.as_slice()
    }
}

/// Which columns of a row are asked for (Cassandra's slice predicate).
#[derive(Drop, Clone)]
pub enum Predicate {
    /// The columns with these names.
    Names(Names),
    /// The columns between two ends, both included, walked from start to finish; an empty end is open.
    Range {
        /// Where the walk begins.
        start: Name,
        /// Where it ends.
        finish: Name,
        /// Whether it goes downwards.
        reversed: bool,
        /// How many columns it returns at most.
        count: u32,
    },
}

/// How many names a predicate may list.
const MOST_NAMES: usize = 4096;

impl Predicate {
    ghost use Rattle.slice.specs.Slice.{predicate_fault, is_asked};
    ghost use Rattle.slice.specs.Rests.{is_within, is_looked_at};

    /// Whether the predicate may be asked: refused with `TooMany` for more than 4,096 names, then with
    /// `NameLength` for a name that is empty or longer than 1,024 bytes or an end longer than that, then with
    /// `RangeOrder` for a start after the finish in the direction of the walk, neither being open.
    pub fn check(&self) -> Result<(), Fault>
        ensures { IsRefusedFor (predicate_fault self.now) result }
    {
        match self {
            Predicate::Names(names) => check_names(names.as_slice()),
            Predicate::Range {
                start,
                finish,
                reversed,
                ..
            } => check_range(start, finish, *reversed),
        }
    }

    /// Whether the predicate asks for the column of this name, whatever its count is.
    pub fn is_asked(&self, name: &Name) -> bool
        ensures { result ≡ is_asked self.now name.now }
    {
        match self {
            Predicate::Names(names) => names.as_slice().contains(name),
            Predicate::Range {
                start,
                finish,
                reversed: false,
                ..
            } => name.is_between(start, finish),
            Predicate::Range {
                start,
                finish,
                reversed: true,
                ..
            } => name.is_between(finish, start),
        }
    }

    /// Whether a read that returned these columns of a row looked at the column of this name: it is asked, and
    /// where a range returned as many columns as its count, it doesn't lie after the last of them.
    pub fn is_looked_at(&self, columns: &[Column], name: &Name) -> bool
        ensures { result ≡ is_looked_at self.now columns.now name.now }
    {
        self.is_asked(name) && self.is_within(columns, name)
    }

    /// Whether the walk of a read that returned these columns of a row came to the column of this name, which is
    /// asked for: where a range returned as many columns as its count, it doesn't lie after the last of them. A
    /// list of names has no walk.
    pub fn is_within(&self, columns: &[Column], name: &Name) -> bool
        ensures { result ≡ is_within self.now columns.now name.now }
    {
        match self {
            Predicate::Names(_) => true,
            Predicate::Range {
                reversed,
                count,
                ..
            } => columns.len() < *count as usize || is_reached(*reversed, columns, name),
        }
    }
}

// Whether a walk that returned these columns had come to the name by the last of them.
fn is_reached(reversed: bool, columns: &[Column], name: &Name) -> bool
    ensures { result ≡ rests.is_reached reversed columns.now name.now }
{
    match columns.last() {
        None => false,
        Some(last) if reversed => last.name <= *name,
        Some(last) => *name <= last.name,
    }
}

// Whether each may be the name of a column.
fn are_names(names: &[Name]) -> bool
    ensures { result ≡ list_all is_name names.now }
{
    names.iter().all(|name| name.is_allowed())
}

// Whether a predicate may list these names.
fn check_names(names: &[Name]) -> Result<(), Fault>
    ensures { IsRefusedFor (names_fault names.now) result }
{
    if names.len() > MOST_NAMES {
        return Err(Fault::TooMany);
    }
    if are_names(names) {
        Ok(())
    } else {
        Err(Fault::NameLength)
    }
}

/// Whether a range may have these ends: refused with `NameLength` for an end above 1,024 bytes, then with `RangeOrder`
/// where neither is empty and the start lies after the finish in the direction of the walk. An empty end is open.
pub fn check_range(start: &Name, finish: &Name, reversed: bool) -> Result<(), Fault>
    ensures { IsRefusedFor (range_fault start.now finish.now reversed) result }
{
    if !start.is_allowed_end() || !finish.is_allowed_end() {
        return Err(Fault::NameLength);
    }
    let (low, high) = if reversed {
        (finish, start)
    } else {
        (start, finish)
    };
    if low.as_slice().is_empty() || high.as_slice().is_empty() || low <= high {
        Ok(())
    } else {
        Err(Fault::RangeOrder)
    }
}
