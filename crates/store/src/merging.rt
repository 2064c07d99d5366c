//! What is seen of a row where another is laid over it.
ghost use Rattle.std.specs.Prelude.{◌≡◌, ◌≤◌, ◌+◌, ◌++◌, IfOk, OnOk, map};
ghost use Rattle.std.specs.Option.{option_copied};
ghost use Rattle.store.specs.Sight as sight;
ghost use Rattle.store.specs.Stored.{name_cmp};
ghost use Rattle.store.specs.Sight.{named, first_by};

use crate::sight::Seen;
use std::alloc::{AllocError, Global};
use std::cmp::Ordering;
use versions::Version;

/// Of what is seen at a place of two rows, the newer.
pub(crate) fn newer_seen<'c>(
    one: Option<&'c Version>,
    other: Option<&'c Version>,
) -> Option<&'c Version>
    ensures { option_copied result ≡ sight.newer_seen (option_copied one.entry) (option_copied other.entry) }
{
    match (one, other) {
        (Some(one), Some(other)) => Some(if one.stamp < other.stamp { other } else { one }),
        (Some(one), None) => Some(one),
        (None, other) => other,
    }
}

// Of a column that is seen in two rows, the newer version.
fn newer_of<'s>(one: Seen<'s>, other: Seen<'s>) -> Seen<'s>
    ensures { named result ≡ sight.newer_named (named one.entry) (named other.entry) }
{
    if one.version.stamp < other.version.stamp {
        Seen {
            name: one.name,
            version: other.version,
        }
    } else {
        one
    }
}

// Of the first columns of two rows, the first by name, or the newer version where they are one; and how many that takes
// of each row.
fn first_of<'s>(one: Seen<'s>, other: Seen<'s>) -> (Seen<'s>, usize, usize)
    ensures first { (named result.0, result.1, result.2) ≡ first_by (name_cmp (named one.entry).0 (named other.entry).0) (named one.entry) (named other.entry) }
    ensures few { (result.1 ≤ 1) × (result.2 ≤ 1) × (1 ≤ result.1 + result.2) }
{
    match one.name.cmp(other.name) {
        Ordering::Less => (one, 1, 0),
        Ordering::Equal => (newer_of(one, other), 1, 1),
        Ordering::Greater => (other, 0, 1),
    }
}

// Adds these columns.
fn add_all<'s>(all: &mut Vec<Seen<'s>>, more: &[Seen<'s>]) -> Result<(), AllocError>
    ensures { OnOk result (map named all.new.items ≡ map named all.old.items ++ map named more.now) }
{
    for one in more {
        all.push(*one)?;
    }
    Ok(())
}

/// The columns that are seen in either of two rows, where those of each are in name order: in name order, each once
/// with its newer version. Linear in both.
pub(crate) fn merged<'s>(
    alloc: Global,
    ones: &[Seen<'s>],
    others: &[Seen<'s>],
) -> Result<Vec<Seen<'s>>, AllocError>
    ensures { IfOk result (λ all. map named all.items ≡ sight.merged (map named ones.now) (map named others.now)) }
{
    let mut all = Vec::new(alloc);
    let mut i = 0;
    let mut j = 0;
    while i < ones.len() && j < others.len() {
        let (first, from_ones, from_others) = first_of(ones[i], others[j]);
        all.push(first)?;
        i += from_ones;
        j += from_others;
    }
    add_all(&mut all, &ones[i..])?;
    add_all(&mut all, &others[j..])?;
    Ok(all)
}
