//! Families, keys, names and values: bytes, compared as bytes.
//!
//! Each is a type of its own over shared bytes, so that a clone copies no byte and two of one kind
//! can't be taken for each other. Contracts see lists of bytes.
ghost use Rattle.std.specs.Prelude.{◌≡◌, ◌&&◌, nat_le, length, IfOk};
ghost use Rattle.column_family.specs.Limits.{is_key, is_name, is_end, is_value};
ghost use Rattle.column_family.specs.Names as names;

use crate::shared_bytes::SharedBytes;
use std::alloc::{AllocError, Global};
use std::marker::Model;

/// How long a key may be, in bytes.
const LONGEST_KEY: usize = 1024;
/// How long the name of a column or an end of a range may be, in bytes.
const LONGEST_NAME: usize = 1024;
/// How long a value may be, in bytes.
const LONGEST_VALUE: usize = 65_536;

/// Whether there are 1 to so many bytes.
fn has_length(bytes: &[u8], longest: usize) -> bool
    ensures { result ≡ (nat_le 1 (length bytes.now) && nat_le (length bytes.now) longest) }
{
    1 <= bytes.len() && bytes.len() <= longest
}

/// The name of a column family.
#[derive(Drop, Clone, PartialEq, Eq, PartialOrd, Ord)]
pub struct Family(SharedBytes);

impl Model for Family {
    ghost use Rattle.std.specs.Prelude.{List, ℕ};

    ghost Value = { List ℕ };

    ghost view = { λ family. family.0 };

    ghost inverse = { λ bytes. record { 0 = bytes } };
}

impl Family {
    /// A copy of these bytes. Fails by memory alone.
    pub fn from_slice(alloc: Global, bytes: &[u8]) -> Result<Family, AllocError>
        ensures { IfOk result (λ copy. copy ≡ bytes.now) }
    {
        Ok(Family(SharedBytes::from_slice(alloc, bytes)?))
    }

    /// The bytes.
    pub fn as_slice(&self) -> &[u8]
        ensures { result.now ≡ self.now }
    {
        self.0.as_slice()
    }
}

/// The key of a row.
#[derive(Drop, Clone, PartialEq, Eq, PartialOrd, Ord)]
pub struct Key(SharedBytes);

impl Model for Key {
    ghost use Rattle.std.specs.Prelude.{List, ℕ};

    ghost Value = { List ℕ };

    ghost view = { λ key. key.0 };

    ghost inverse = { λ bytes. record { 0 = bytes } };
}

impl Key {
    /// A copy of these bytes. Fails by memory alone.
    pub fn from_slice(alloc: Global, bytes: &[u8]) -> Result<Key, AllocError>
        ensures { IfOk result (λ copy. copy ≡ bytes.now) }
    {
        Ok(Key(SharedBytes::from_slice(alloc, bytes)?))
    }

    /// The bytes.
    pub fn as_slice(&self) -> &[u8]
        ensures { result.now ≡ self.now }
    {
        self.0.as_slice()
    }

    /// Whether a row may have this key: it has 1 to 1,024 bytes.
    pub fn is_allowed(&self) -> bool
        ensures { result ≡ is_key self.now }
    {
        has_length(self.as_slice(), LONGEST_KEY)
    }
}

/// The name of a column, or an end of a range of names.
#[derive(Drop, Clone, PartialEq, Eq, PartialOrd, Ord)]
pub struct Name(SharedBytes);

impl Model for Name {
    ghost use Rattle.std.specs.Prelude.{List, ℕ};

    ghost Value = { List ℕ };

    ghost view = { λ name. name.0 };

    ghost inverse = { λ bytes. record { 0 = bytes } };
}

impl Name {
    /// A copy of these bytes. Fails by memory alone.
    pub fn from_slice(alloc: Global, bytes: &[u8]) -> Result<Name, AllocError>
        ensures { IfOk result (λ copy. copy ≡ bytes.now) }
    {
        Ok(Name(SharedBytes::from_slice(alloc, bytes)?))
    }

    /// The bytes.
    pub fn as_slice(&self) -> &[u8]
        ensures { result.now ≡ self.now }
    {
        self.0.as_slice()
    }

    /// Whether a column may have this name: it has 1 to 1,024 bytes.
    pub fn is_allowed(&self) -> bool
        ensures { result ≡ is_name self.now }
    {
        has_length(self.as_slice(), LONGEST_NAME)
    }

    /// Whether the name lies between two ends: both are included, and an empty one is open.
    pub fn is_between(&self, low: &Name, high: &Name) -> bool
        ensures { result ≡ names.is_between low.now high.now self.now }
    {
        (low.as_slice().is_empty() || low <= self) && (high.as_slice().is_empty() || self <= high)
    }

    /// Whether this may be an end of a range: it has at most 1,024 bytes.
    pub fn is_allowed_end(&self) -> bool
        ensures { result ≡ is_end self.now }
    {
        self.as_slice().len() <= LONGEST_NAME
    }
}

/// The value of a column.
#[derive(Drop, Clone, PartialEq, Eq)]
pub struct Value(SharedBytes);

impl Model for Value {
    ghost use Rattle.std.specs.Prelude.{List, ℕ};

    ghost Value = { List ℕ };

    ghost view = { λ value. value.0 };

    ghost inverse = { λ bytes. record { 0 = bytes } };
}

impl Value {
    /// A copy of these bytes. Fails by memory alone.
    pub fn from_slice(alloc: Global, bytes: &[u8]) -> Result<Value, AllocError>
        ensures { IfOk result (λ copy. copy ≡ bytes.now) }
    {
        Ok(Value(SharedBytes::from_slice(alloc, bytes)?))
    }

    /// The bytes.
    pub fn as_slice(&self) -> &[u8]
        ensures { result.now ≡ self.now }
    {
        self.0.as_slice()
    }

    /// Whether a column may have this value: it has at most 65,536 bytes.
    pub fn is_allowed(&self) -> bool
        ensures { result ≡ is_value self.now }
    {
        self.as_slice().len() <= LONGEST_VALUE
    }
}
