//! What is seen of a row, now or at a time.
ghost use Rattle.std.specs.Prelude.{◌≡◌, IfOk, IfErr, map, filter, filter_map, option_map, false};
ghost use Rattle.std.specs.Option.{option_copied};
ghost use Rattle.std.specs.BTreeMap.{IsOrdered};
ghost use Rattle.std.specs.Range.Bound.{bound_map};
ghost use Rattle.slice.specs.Live.{in_name_order};
ghost use Rattle.slice.specs.Slice as slice_words;
ghost use Rattle.logical_time.specs.declared.fault.Fault.TheVariants as fault;
ghost use Rattle.store.specs.Stored.{name_cmp};
ghost use Rattle.store.specs.Sight as sight;
ghost use Rattle.store.specs.Sight.{AreSeen, named, sight_of};

use crate::boxed_chain::BoxedChain;
use crate::row::RowChains;
use column_family::Name;
use logical_time::{Fault, Time};
use slice::{Predicate, are_in_order, set_of};
use std::alloc::{AllocError, Global};
use std::collections::{BTreeMap, BTreeSet};
use std::ops::Bound;
use versions::{Chain, Version};

/// When a row is looked at.
#[derive(Drop)]
pub(crate) enum Moment {
    /// By the newest versions.
    Now,
    /// By the newest versions at a time.
    At(Time),
}

/// A column of which a version is seen.
#[derive(Clone, Copy)]
pub(crate) struct Seen<'s> {
    /// The column.
    pub(crate) name: &'s Name,
    /// The version.
    pub(crate) version: &'s Version,
}

/// The version that is seen of a chain.
pub(crate) fn seen_in<'c>(chain: &'c Chain, moment: &Moment) -> Option<&'c Version>
    ensures { option_copied result ≡ sight.seen_in moment.now chain.now.versions }
{
    match moment {
        Moment::Now => chain.newest(),
        Moment::At(time) => chain.at(*time),
    }
}

/// The deletion that is seen of a row.
#[inline]
pub(crate) fn seen_deletion<'r>(row: &'r RowChains, moment: &Moment) -> Option<&'r Version>
    ensures { option_copied result ≡ sight.seen_in moment.now row.now.deletions.versions }
{
    let chain = row.deletions()?;
    seen_in(chain, moment)
}

/// The column, if a version of it is seen.
pub(crate) fn seen_column<'s>(name: &'s Name, chain: &'s Chain, moment: &Moment) -> Option<Seen<'s>>
    ensures { option_map named result ≡ sight.seen_entry moment.now (name.now, chain.now) }
{
    let version = seen_in(chain, moment)?;
    Some(Seen { name, version })
}

/// The column of this name, if a version of it is seen.
#[inline(always)]
pub(crate) fn seen_named<'s>(
    columns: &'s BTreeMap<Name, BoxedChain>,
    name: &Name,
    moment: &Moment,
) -> Option<Seen<'s>>
    ensures { option_map named result ≡ sight.seen_at moment.now columns.now.entries name.now }
{
    let (name, chain) = columns.get_key_value(name)?;
    seen_column(name, chain.as_chain(), moment)
}

// The columns with these names of which a version is seen, in name order.
fn seen_among<'s>(
    alloc: Global,
    columns: &'s BTreeMap<Name, BoxedChain>,
    names: &BTreeSet<Name>,
    moment: &Moment,
) -> Result<Vec<Seen<'s>>, AllocError>
    ensures { IfOk result (λ seen. map named seen.items ≡ filter_map (sight.seen_at moment.now columns.now.entries) names.now.keys) }
{
    let mut seen = Vec::new(alloc);
    for name in names.iter() {
        if let Some(one) = seen_named(columns, name, moment) {
            seen.push(one)?;
        }
    }
    Ok(seen)
}

// The columns with these names of which a version is seen, in the order of the names.
fn seen_listed<'s>(
    alloc: Global,
    columns: &'s BTreeMap<Name, BoxedChain>,
    names: &[Name],
    moment: &Moment,
) -> Result<Vec<Seen<'s>>, AllocError>
    ensures { IfOk result (λ seen. map named seen.items ≡ filter_map (sight.seen_at moment.now columns.now.entries) names.now) }
{
    let mut seen = Vec::with_capacity(alloc, names.len())?;
    let mut rest = names;
    while let Some((name, others)) = rest.split_first() {
        if let Some(one) = seen_named(columns, name, moment) {
            seen.push(one)?;
        }
        rest = others;
    }
    Ok(seen)
}

// The columns with the names of a list of which a version is seen, in name order.
fn seen_by_names<'s>(
    alloc: Global,
    columns: &'s BTreeMap<Name, BoxedChain>,
    names: &[Name],
    moment: &Moment,
) -> Result<Vec<Seen<'s>>, Fault>
    ensures ok { IfOk result (λ seen. map named seen.items ≡ filter_map (sight.seen_at moment.now columns.now.entries) (in_name_order names.now)) }
    ensures memory { IfErr result (λ e. e ≡ fault.Memory) }
{
    // mostly they are listed in order
    if are_in_order(names) {
        return Ok(seen_listed(alloc, columns, names, moment)?);
    }
    let set = set_of(alloc, names)?;
    Ok(seen_among(alloc, columns, &set, moment)?)
}

// Whether neither end is open and the first lies above the second.
fn is_backwards(low: &Name, high: &Name) -> bool
    ensures { result ≡ sight.is_backwards low.now high.now }
{
    !low.as_slice().is_empty() && !high.as_slice().is_empty() && high < low
}

// An end of a range: both are included, and an empty one is open.
fn bound_of(end: &Name) -> Bound<&Name>
    ensures { bound_map (λ x. x.now) result ≡ sight.bound_at end.now }
{
    if end.as_slice().is_empty() {
        Bound::Unbounded
    } else {
        Bound::Included(end)
    }
}

// How many columns a list has room for at first that holds those between these ends: all where both are open.
fn most_between(columns: &BTreeMap<Name, BoxedChain>, low: &Name, high: &Name) -> usize {
    if low.as_slice().is_empty() && high.as_slice().is_empty() {
        columns.len()
    } else {
        0
    }
}

// The columns between these ends of which a version is seen, in name order.
fn seen_between<'s>(
    alloc: Global,
    columns: &'s BTreeMap<Name, BoxedChain>,
    low: &Name,
    high: &Name,
    moment: &Moment,
) -> Result<Vec<Seen<'s>>, AllocError>
    ensures between { IfOk result (λ seen. map named seen.items ≡ filter_map (sight.seen_entry moment.now) (filter (λ e. slice_words.is_between low.now high.now e.0) columns.now.entries)) }
    ensures ordered { IfOk result (λ seen. sight.is_backwards low.now high.now ≡ false → IsOrdered name_cmp columns.now) }
{
    let mut seen = Vec::with_capacity(alloc, most_between(columns, low, high))?;
    if is_backwards(low, high) {
        return Ok(seen);
    }
    for (name, chain) in columns.range((bound_of(low), bound_of(high))) {
        if let Some(one) = seen_column(name, chain.as_chain(), moment) {
            seen.push(one)?;
        }
    }
    Ok(seen)
}

/// The columns of a row that are asked for and of which a version is seen, in name order. Looks for each name of
/// a list, or walks over the columns of a range.
#[inline]
pub(crate) fn asked_columns<'s>(
    alloc: Global,
    row: &'s RowChains,
    predicate: &Predicate,
    moment: &Moment,
) -> Result<Vec<Seen<'s>>, Fault>
    ensures ok { IfOk result (λ seen. AreSeen (sight_of moment.now row.now) predicate.now (map named seen.items)) }
    ensures memory { IfErr result (λ e. e ≡ fault.Memory) }
{
    let columns = &row.columns;
    match predicate {
        Predicate::Names(names) => { Ok(seen_by_names(alloc, columns, names.as_slice(), moment)?) }
        Predicate::Range {
            start,
            finish,
            reversed: false,
            ..
        } => Ok(seen_between(alloc, columns, start, finish, moment)?),
        Predicate::Range {
            start,
            finish,
            reversed: true,
            ..
        } => Ok(seen_between(alloc, columns, finish, start, moment)?),
    }
}
