//! The column families that there are.
ghost use Rattle.std.specs.Prelude.{◌≡◌, SomeIff, IfOk, true};
ghost use Rattle.std.specs.List.{list_all};
ghost use Rattle.column_family.specs.Schema as schema;

use crate::byte_strings::Family;
use std::alloc::AllocError;
use std::marker::Model;

/// The column families of a store: 1 to 16 names, no two the same, each of 1 to 64 ASCII letters, digits
/// and underscores.
#[derive(Drop, Clone)]
pub struct Schema {
    families: Vec<Family>,
}

impl Model for Schema {
    ghost use Rattle.std.specs.Prelude.{List, ℕ};

    ghost Value = { List (List ℕ) };

    ghost view = { λ schema. schema.families.items };
}

/// How many families there may be.
const MOST_FAMILIES: usize = 16;
/// How long the name of a family may be, in bytes.
const LONGEST_FAMILY: usize = 64;

/// Whether the byte may stand in the name of a family.
fn is_family_byte(byte: u8) -> bool
    ensures { result ≡ schema.is_family_byte byte }
{
    byte.is_ascii_alphanumeric() || byte == b'_'
}

/// Whether only such bytes stand there.
fn are_family_bytes(bytes: &[u8]) -> bool
    ensures { result ≡ list_all schema.is_family_byte bytes.now }
{
    bytes.iter().all(|byte| is_family_byte(*byte))
}

/// Whether the name may be that of a family.
fn is_family_name(family: &Family) -> bool
    ensures { result ≡ schema.is_family_name family.now }
{
    let bytes = family.as_slice();
    1 <= bytes.len() && bytes.len() <= LONGEST_FAMILY && are_family_bytes(bytes)
}

/// Whether each may be the name of a family.
fn are_family_names(families: &[Family]) -> bool
    ensures { result ≡ list_all schema.is_family_name families.now }
{
    families.iter().all(|family| is_family_name(family))
}

/// Whether no family is named twice.
fn are_distinct(families: &[Family]) -> bool
    ensures { result ≡ schema.are_distinct families.now }
{
    let mut rest = families;
    while let [first, others @ ..] = rest {
        if others.contains(first) {
            return false;
        }
        rest = others;
    }
    true
}

/// Whether the families may be those of a schema.
fn is_schema(families: &[Family]) -> bool
    ensures { result ≡ schema.is_schema families.now }
{
    let count = families.len();
    1 <= count && count <= MOST_FAMILIES && are_family_names(families) && are_distinct(families)
}

impl Schema {
    /// The schema of these families, if they may be one. Compares each name with those after it.
    pub fn new(families: Vec<Family>) -> Option<Schema>
        ensures { SomeIff result (schema.is_schema families.items ≡ true) families.items }
    {
        if !is_schema(&families) {
            return None;
        }
        Some(Schema { families })
    }

    /// Whether there is such a family.
    pub fn contains(&self, family: &Family) -> bool
        ensures { result ≡ schema.has_family self.now family.now }
    {
        self.families.contains(family)
    }

    /// The families, in the order in which they were given.
    pub fn families(&self) -> &[Family]
        ensures { result.now ≡ self.now }
    {
        self.families.as_slice()
    }

    /// A copy, which shares the bytes of the names. Fails by memory alone.
    pub fn copied(&self) -> Result<Schema, AllocError>
        ensures { IfOk result (λ copy. copy ≡ self.now) }
    {
        self.clone()
    }
}
