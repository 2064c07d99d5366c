//! The slice of a row's live columns.
ghost use Rattle.std.specs.Prelude.{◌≡◌, IfOk, IfErr, filter, take, reverse, map};
ghost use Rattle.std.specs.List.{list_any};
ghost use Rattle.std.specs.Str.{bytes_eq};
ghost use Rattle.slice.specs.Slice as slice;
ghost use Rattle.std.specs.BTreeSet.{contains};
ghost use Rattle.std.specs.Cmp.Lexicographic.{slice_cmp};
ghost use Rattle.std.specs.Ordering.{nat_cmp};

use crate::column::{Column, Columns};
use crate::ordering::set_of;
use crate::predicate::Predicate;
use column_family::Name;
use logical_time::Fault;
use std::alloc::{AllocError, Global};
use std::collections::BTreeSet;

/// The slice of the live columns of a row, which are given in name order: those with a listed name, or the first
/// `count` of a walk. Takes `m log m` steps for `m` columns and names. Refused with `Memory` alone.
pub fn select(alloc: Global, live: &[Column], predicate: &Predicate) -> Result<Columns, Fault>
    ensures ok { IfOk result (λ columns. columns ≡ slice.slice_of predicate.now live.now) }
    ensures memory { IfErr result (λ e. e ≡ Fault.Memory) }
{
    let found = chosen(alloc, live, predicate)?;
    copies(alloc, &found)
}

// The columns of the slice.
fn chosen<'a>(
    alloc: Global,
    live: &'a [Column],
    predicate: &Predicate,
) -> Result<Vec<&'a Column>, Fault>
    ensures ok { IfOk result (λ found. map (λ c. c.now) found.items ≡ slice.slice_of predicate.now live.now) }
    ensures memory { IfErr result (λ e. e ≡ Fault.Memory) }
{
    match predicate {
        Predicate::Names(names) => named(alloc, live, names.as_slice()),
        Predicate::Range {
            start,
            finish,
            reversed: false,
            count,
        } => lowest(alloc, live, start, finish, *count as usize),
        Predicate::Range {
            start,
            finish,
            reversed: true,
            count,
        } => highest(alloc, live, finish, start, *count as usize),
    }
}

// The columns with one of these names.
#[tactic(auto, using(crate::proofs::Selected::found_named))]
fn named<'a>(alloc: Global, live: &'a [Column], names: &[Name]) -> Result<Vec<&'a Column>, Fault>
    ensures ok { IfOk result (λ found. map (λ c. c.now) found.items ≡ filter (λ c. list_any (λ n. bytes_eq n c.name) names.now) live.now) }
    ensures memory { IfErr result (λ e. e ≡ Fault.Memory) }
{
    let wanted = set_of(alloc, names)?;
    Ok(among(alloc, live, &wanted)?)
}

// The columns whose name is in the set.
fn among<'a>(
    alloc: Global,
    live: &'a [Column],
    names: &BTreeSet<Name>,
) -> Result<Vec<&'a Column>, AllocError>
    ensures { IfOk result (λ found. map (λ c. c.now) found.items ≡ filter (λ c. contains (slice_cmp nat_cmp) names.now c.name) live.now) }
{
    live.iter()
        .filter(|column| names.contains(&column.name))
        .collect(alloc)
}

// The first columns between these ends, the lowest first.
fn lowest<'a>(
    alloc: Global,
    live: &'a [Column],
    low: &Name,
    high: &Name,
    count: usize,
) -> Result<Vec<&'a Column>, Fault>
    ensures ok { IfOk result (λ found. map (λ c. c.now) found.items ≡ take count (filter (λ c. slice.is_between low.now high.now c.name) live.now)) }
    ensures memory { IfErr result (λ e. e ≡ Fault.Memory) }
{
    let found = live
        .iter()
        .filter(|column| column.name.is_between(low, high))
        .take(count)
        .collect(alloc)?;
    Ok(found)
}

// The first columns between these ends, the highest first.
fn highest<'a>(
    alloc: Global,
    live: &'a [Column],
    low: &Name,
    high: &Name,
    count: usize,
) -> Result<Vec<&'a Column>, Fault>
    ensures ok { IfOk result (λ found. map (λ c. c.now) found.items ≡ take count (reverse (filter (λ c. slice.is_between low.now high.now c.name) live.now))) }
    ensures memory { IfErr result (λ e. e ≡ Fault.Memory) }
{
    let found = live
        .iter()
        .rev()
        .filter(|column| column.name.is_between(low, high))
        .take(count)
        .collect(alloc)?;
    Ok(found)
}

// Copies of these columns.
fn copies(alloc: Global, columns: &[&Column]) -> Result<Columns, Fault>
    ensures ok { IfOk result (λ copies. copies ≡ map (λ c. c.now) columns.now) }
    ensures memory { IfErr result (λ e. e ≡ Fault.Memory) }
{
    let mut copies = Vec::with_capacity(alloc, columns.len())?;
    for column in columns {
        copies.push((**column).clone()?)?;
    }
    Ok(Columns::from_vec(alloc, copies)?)
}
