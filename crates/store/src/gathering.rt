//! A part of a row of few columns, gathered column by column.
ghost use Rattle.std.specs.Prelude.{◌≡◌, ◌∷◌, ◌++◌, ◌<◌, [], ℕ, List, Some, true, false, IfOk, IfErr, IfSome, OnOk, filter_map, option_to_list};
ghost use Rattle.std.specs.Option.{option_copied};
ghost use Rattle.std.specs.BTreeMap.{IsOrdered};
ghost use Rattle.std.specs.List.{cons_option};
ghost use Rattle.std.specs.List.Sorted.{IsStrictlySortedBy};
ghost use Rattle.logical_time.specs.Stamps.{writer_cmp};
ghost use Rattle.logical_time.specs.declared.fault.Fault.TheVariants as fault;
ghost use Rattle.slice.specs.declared.predicate.Predicate.TheVariants.{Names, Range};
ghost use Rattle.slice.specs.Live.{in_name_order};
ghost use Rattle.store.specs.Gathering.{IsLeft, writers_gathered};
ghost use Rattle.store.specs.Stored.{name_cmp};
ghost use Rattle.store.specs.Sight as sight;
ghost use Rattle.store.specs.Sight.{HaveSameWriters, NamedVersion, named};

use crate::boxed_chain::BoxedChain;
use crate::part::Part;
use crate::reading::{evt_of_deletion, is_covered, live_column};
use crate::sight::{Moment, Seen, seen_column, seen_named};
use column_family::Name;
use logical_time::{Fault, Time, Writer, Writers};
use slice::{Column, Columns, Predicate, are_in_order};
use std::alloc::{AllocError, Global};
use std::cmp::Ordering;
use std::collections::BTreeMap;
use versions::Version;

/// What a read gathers of a row.
#[derive(Drop)]
pub(crate) struct Gathered {
    // the live columns
    columns: Vec<Column>,
    // one of the writers: mostly there is no other
    first: Option<Writer>,
    // the other writers, some perhaps more than once
    more: Vec<Writer>,
    // the latest EVT
    evt: Time,
}

// Gives a list of writers one more, if it isn't its first.
fn add_writer(
    first: &mut Option<Writer>,
    more: &mut Vec<Writer>,
    writer: Writer,
) -> Result<(), AllocError>
    ensures { OnOk result (HaveSameWriters (option_to_list first.new ++ more.new.items) ((option_to_list first.old ++ more.old.items) ++ writer ∷ [])) }
{
    let Some(one) = *first else {
        *first = Some(writer);
        return Ok(());
    };
    if one != writer {
        more.push(writer)?;
    }
    Ok(())
}

// Gives a list of columns one more, if it is live.
fn add_column(
    columns: &mut Vec<Column>,
    deletion: Option<&Version>,
    seen: &Seen,
) -> Result<(), Fault>
    ensures ok { OnOk result (columns.new.items ≡ columns.old.items ++ option_to_list (sight.live_of (option_copied deletion.entry) (named seen.now))) }
    ensures memory { IfErr result (λ e. e ≡ fault.Memory) }
{
    if let Some(column) = live_column(deletion, seen)? {
        columns.push(column)?;
    }
    Ok(())
}

// All writers, in order and each once.
fn all_writers(first: Option<Writer>, mut more: Vec<Writer>) -> Result<Writers, AllocError>
    ensures same { IfOk result (λ writers. HaveSameWriters writers (option_to_list first ++ more.items)) }
    ensures in_order { IfOk result (IsStrictlySortedBy writer_cmp) }
{
    match first {
        None => Writers::sorted(more),
        Some(writer) if more.is_empty() => Ok(Writers::one(writer)),
        Some(writer) => {
            more.push(writer)?;
            Writers::sorted(more)
        }
    }
}

impl Gathered {
    // What the deletion alone gives, with room for so many columns.
    fn new(alloc: Global, deletion: Option<&Version>, room: usize) -> Result<Gathered, AllocError>
        ensures { IfOk result (λ g. (all : List NamedVersion) → IsLeft (option_copied deletion.entry) all all g) }
    {
        let first = match deletion {
            None => None,
            Some(version) => Some(version.what.writer),
        };
        Ok(Gathered {
            columns: Vec::with_capacity(alloc, room)?,
            first,
            more: Vec::new(alloc),
            evt: evt_of_deletion(deletion),
        })
    }

    // Gathers what a column gives.
    fn add(&mut self, deletion: Option<&Version>, seen: &Seen) -> Result<(), Fault>
        ensures ok { OnOk result ((left all : List NamedVersion) → IsLeft (option_copied deletion.entry) (named seen.now ∷ left) all self.old → IsLeft (option_copied deletion.entry) left all self.new) }
        ensures memory { IfErr result (λ e. e ≡ fault.Memory) }
    {
        self.evt = self.evt.max(seen.version.evt);
        if is_covered(deletion, seen.version) {
            return Ok(());
        }
        add_writer(&mut self.first, &mut self.more, seen.version.what.writer)?;
        add_column(&mut self.columns, deletion, seen)
    }

    // Gathers what the column of this name gives, if a version of it is seen.
    fn add_named(
        &mut self,
        columns: &BTreeMap<Name, BoxedChain>,
        name: &Name,
        moment: &Moment,
        deletion: Option<&Version>,
    ) -> Result<(), Fault>
        ensures ok { OnOk result ((left all : List NamedVersion) → IsLeft (option_copied deletion.entry) (cons_option (sight.seen_at moment.now columns.now.entries name.now) left) all self.old → IsLeft (option_copied deletion.entry) left all self.new) }
        ensures memory { IfErr result (λ e. e ≡ fault.Memory) }
    {
        match seen_named(columns, name, moment) {
            None => Ok(()),
            Some(one) => self.add(deletion, &one),
        }
    }

    /// The part that was gathered.
    pub(crate) fn into_part(self, alloc: Global) -> Result<Part, Fault>
        ensures columns { IfOk result (λ part. part.columns ≡ self.columns.items) }
        ensures same { IfOk result (λ part. HaveSameWriters part.writers (writers_gathered self)) }
        ensures in_order { IfOk result (λ part. IsStrictlySortedBy writer_cmp part.writers) }
        ensures evt { IfOk result (λ part. part.evt ≡ self.evt) }
        ensures memory { IfErr result (λ e. e ≡ fault.Memory) }
    {
        let Gathered {
            columns,
            first,
            more,
            evt,
        } = self;
        let writers = all_writers(first, more)?;
        Ok(Part {
            columns: Columns::from_vec(alloc, columns)?,
            writers,
            evt,
        })
    }
}

/// Up to how many columns are gathered one by one.
const FEW: usize = 16;

/// The names of a list, if they are few and in order.
pub(crate) fn few_names(predicate: &Predicate) -> Option<&[Name]>
    ensures { IfSome result (λ names. (predicate.now ≡ Names names.now) × (in_name_order names.now ≡ names.now)) }
{
    match predicate {
        Predicate::Names(names)
            if names.as_slice().len() <= FEW && are_in_order(names.as_slice()) => Some(
            names.as_slice(),
        ),
        _ => None,
    }
}

/// The names of a list, if they are two and stand the other way round: the first in order comes first.
pub(crate) fn turned_names(predicate: &Predicate) -> Option<(&Name, &Name)>
    ensures { IfSome result (λ pair. (predicate.now ≡ Names (pair.1.now ∷ pair.0.now ∷ [])) × (in_name_order (pair.1.now ∷ pair.0.now ∷ []) ≡ pair.0.now ∷ pair.1.now ∷ [])) }
{
    match predicate {
        Predicate::Names(names) => turned(names.as_slice()),
        Predicate::Range { .. } => None,
    }
}

// These names, if they are two and the first in order comes last: that one first.
fn turned(names: &[Name]) -> Option<(&Name, &Name)>
    ensures { IfSome result (λ pair. (names.now ≡ pair.1.now ∷ pair.0.now ∷ []) × (in_name_order names.now ≡ pair.0.now ∷ pair.1.now ∷ [])) }
{
    let (second, rest) = names.split_first()?;
    let (first, others) = rest.split_first()?;
    match (others.split_first(), second.cmp(first)) {
        (None, Ordering::Greater) => Some((first, second)),
        _ => None,
    }
}

/// Whether all columns of the row are asked for from the first on, and they are few, and fewer than are asked for at most.
pub(crate) fn asks_for_few(predicate: &Predicate, columns: usize) -> bool
    ensures { result ≡ true → (n : ℕ) × (predicate.now ≡ Range [] [] false n) × (columns < n) }
{
    match predicate {
        Predicate::Range {
            start,
            finish,
            reversed: false,
            count,
        } => {
            start.as_slice().is_empty()
                && finish.as_slice().is_empty()
                && columns <= FEW
                && columns < *count as usize
        }
        _ => false,
    }
}

/// Gathers the columns with these names.
pub(crate) fn gather_named(
    alloc: Global,
    columns: &BTreeMap<Name, BoxedChain>,
    names: &[Name],
    moment: &Moment,
    deletion: Option<&Version>,
) -> Result<Gathered, Fault>
    ensures ok { IfOk result (IsLeft (option_copied deletion.entry) [] (filter_map (sight.seen_at moment.now columns.now.entries) names.now)) }
    ensures memory { IfErr result (λ e. e ≡ fault.Memory) }
{
    let mut found = Gathered::new(alloc, deletion, names.len())?;
    let mut rest = names;
    while let Some((name, others)) = rest.split_first() {
        found.add_named(columns, name, moment, deletion)?;
        rest = others;
    }
    Ok(found)
}

/// Gathers the columns with these two names.
pub(crate) fn gather_two(
    alloc: Global,
    columns: &BTreeMap<Name, BoxedChain>,
    first: &Name,
    second: &Name,
    moment: &Moment,
    deletion: Option<&Version>,
) -> Result<Gathered, Fault>
    ensures ok { IfOk result (IsLeft (option_copied deletion.entry) [] (filter_map (sight.seen_at moment.now columns.now.entries) (first.now ∷ second.now ∷ []))) }
    ensures memory { IfErr result (λ e. e ≡ fault.Memory) }
{
    let mut found = Gathered::new(alloc, deletion, 2)?;
    found.add_named(columns, first, moment, deletion)?;
    found.add_named(columns, second, moment, deletion)?;
    Ok(found)
}

/// Gathers all columns.
pub(crate) fn gather_all(
    alloc: Global,
    columns: &BTreeMap<Name, BoxedChain>,
    moment: &Moment,
    deletion: Option<&Version>,
) -> Result<Gathered, Fault>
    ensures ok { IfOk result (IsLeft (option_copied deletion.entry) [] (filter_map (sight.seen_entry moment.now) columns.now.entries)) }
    ensures ordered { IfOk result (λ found. IsOrdered name_cmp columns.now) }
    ensures memory { IfErr result (λ e. e ≡ fault.Memory) }
{
    let mut found = Gathered::new(alloc, deletion, columns.len())?;
    for (name, chain) in columns.iter() {
        if let Some(one) = seen_column(name, chain.as_chain(), moment) {
            found.add(deletion, &one)?;
        }
    }
    Ok(found)
}
