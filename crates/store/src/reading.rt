//! A row's part, found in its chains.
ghost use Rattle.std.specs.Prelude.{◌≡◌, ◌↔◌, ◌≤◌, ◌<◌, ◌++◌, ◌∷◌, [], ℕ, false, Contains, IfOk, IfErr, IfSome, true, length, map, take, drop, filter, filter_map, is_some, option_map, option_to_list, max};
ghost use Rattle.std.specs.Option.{option_copied};
ghost use Rattle.std.specs.Ordering.{is_lt};
ghost use Rattle.std.specs.List.{list_all};
ghost use Rattle.std.specs.List.Sorted.{IsStrictlySortedBy};
ghost use Rattle.logical_time.specs.Stamps.{writer_cmp};
ghost use Rattle.slice.specs.Slice.{first_of_walk, name_le, walked};
ghost use Rattle.slice.specs.Rests.{is_reached, is_within};
ghost use Rattle.logical_time.specs.declared.fault.Fault.TheVariants as fault;
ghost use Rattle.column_family.specs.Places.{row_cmp};
ghost use Rattle.store.specs.Stored.{held_by, name_cmp, no_row};
ghost use Rattle.store.specs.Latest.{IsLatest};
ghost use Rattle.store.specs.declared.sight.Moment.TheVariants.{Now};
ghost use Rattle.slice.specs.declared.predicate.Predicate.TheVariants.{Names, Range};
ghost use Rattle.slice.specs.Live.{in_name_order};
ghost use Rattle.store.specs.Part.{greatest_of};
ghost use Rattle.store.specs.Sight as sight;
ghost use Rattle.store.specs.Sight.{AreAskedFor, HaveSameWriters, IsMadeOf, IsPartSeen, laid_over, named, sight_of};
ghost use Rattle.store.specs.Struck.{IsPartUnder, ranges_over, ranges_seen};

use crate::gathering::{
    asks_for_few, few_names, gather_all, gather_named, gather_two, turned_names,
};
use crate::merging::{merged, newer_seen};
use crate::part::Part;
use crate::row::RowChains;
use crate::sight::{Moment, Seen, asked_columns, seen_deletion};
use crate::striking::{part_under, part_under_both};
use crate::walk::walk_until;
use column_family::{Name, Row};
use logical_time::{Fault, Time, Writer, Writers};
use slice::{Column, Columns, Predicate};
use std::alloc::{AllocError, Global};
use std::collections::BTreeMap;
use versions::Version;

/// Whether the row's deletion is newer than a version of a column.
pub(crate) fn is_covered(deletion: Option<&Version>, version: &Version) -> bool
    ensures { result ≡ sight.is_covered (option_copied deletion.entry) version.now }
{
    match deletion {
        None => false,
        Some(deletion) => version.stamp < deletion.stamp,
    }
}

/// The column, where it is live.
#[inline(always)]
pub(crate) fn live_column(deletion: Option<&Version>, seen: &Seen) -> Result<Option<Column>, Fault>
    ensures ok { IfOk result (λ column. column ≡ sight.live_of (option_copied deletion.entry) (named seen.now)) }
    ensures memory { IfErr result (λ e. e ≡ fault.Memory) }
{
    if is_covered(deletion, seen.version) {
        return Ok(None);
    }
    match &seen.version.what.value {
        None => Ok(None),
        Some(value) => Ok(Some(Column {
            name: seen.name.clone()?,
            value: value.clone()?,
        })),
    }
}

/// Whether the column is live.
pub(crate) fn is_live(deletion: Option<&Version>, seen: &Seen) -> bool
    ensures { result ≡ is_some (sight.live_of (option_copied deletion.entry) (named seen.now)) }
{
    seen.version.what.value.is_some() && !is_covered(deletion, seen.version)
}

// The columns that are live, in order.
fn live_columns(
    alloc: Global,
    deletion: Option<&Version>,
    seen: &[Seen],
) -> Result<Vec<Column>, Fault>
    ensures ok { IfOk result (λ columns. columns.items ≡ filter_map (λ s. sight.live_of (option_copied deletion.entry) (named s)) seen.now) }
    ensures memory { IfErr result (λ e. e ≡ fault.Memory) }
{
    let mut columns = Vec::with_capacity(alloc, seen.len())?;
    for one in seen {
        if let Some(column) = live_column(deletion, one)? {
            columns.push(column)?;
        }
    }
    Ok(columns)
}

/// Since when the deletion is seen, or 0 without one.
pub(crate) fn evt_of_deletion(deletion: Option<&Version>) -> Time
    ensures { result ≡ sight.evt_or_0 (option_copied deletion.entry) }
{
    match deletion {
        None => Time::zero(),
        Some(deletion) => deletion.evt,
    }
}

/// Since when the deletion and the columns are all seen.
pub(crate) fn evt_of(deletion: Option<&Version>, seen: &[Seen]) -> Time
    ensures { result ≡ max (sight.evt_or_0 (option_copied deletion.entry)) (greatest_of (map (λ s. s.version.now.evt) seen.now)) }
{
    let mut evt = evt_of_deletion(deletion);
    for one in seen {
        if evt < one.version.evt {
            evt = one.version.evt;
        }
    }
    evt
}

// How many of the columns, which stand in name order, come before the name.
fn count_below(seen: &[Seen], name: &Name) -> usize
    ensures bound { result ≤ length seen.now }
    ensures below { IsStrictlySortedBy name_cmp (map (λ s. s.name.now) seen.now) → drop result seen.now ≡ filter (λ s. name_le name.now s.name.now) seen.now }
{
    seen.partition_point(
        |one: &Seen| -> bool
            ensures { result ≡ is_lt (name_cmp one.now.name.now name.entry.now) }
        { one.name < name },
    )
}

// How many of the columns, which stand in name order, come before the name or are its own.
fn count_up_to(seen: &[Seen], name: &Name) -> usize
    ensures bound { result ≤ length seen.now }
    ensures up_to { IsStrictlySortedBy name_cmp (map (λ s. s.name.now) seen.now) → take result seen.now ≡ filter (λ s. name_le s.name.now name.now) seen.now }
{
    seen.partition_point(
        |one: &Seen| -> bool
            ensures { result ≡ name_le one.now.name.now name.entry.now }
        { one.name <= name },
    )
}

// Those of the columns to which a walk came that returned these columns, where all stand in name order.
fn come_to<'a, 's>(reversed: bool, columns: &[Column], seen: &'a [Seen<'s>]) -> &'a [Seen<'s>]
    ensures { IsStrictlySortedBy name_cmp (map (λ s. s.name.now) seen.now) → result.now ≡ filter (λ s. is_reached reversed columns.now s.name.now) seen.now }
{
    match columns.last() {
        None => &seen[..0],
        Some(last) if reversed => &seen[count_below(seen, &last.name)..],
        Some(last) => &seen[..count_up_to(seen, &last.name)],
    }
}

/// Those of the columns on which a read rests that returned these columns, where all stand in name order.
pub(crate) fn reached<'a, 's>(
    predicate: &Predicate,
    columns: &[Column],
    seen: &'a [Seen<'s>],
) -> &'a [Seen<'s>]
    ensures { IsStrictlySortedBy name_cmp (map (λ s. s.name.now) seen.now) → result.now ≡ filter (λ s. is_within predicate.now columns.now s.name.now) seen.now }
{
    match predicate {
        Predicate::Range {
            reversed,
            count,
            ..
        } if *count as usize <= columns.len() => come_to(*reversed, columns, seen),
        _ => seen,
    }
}

// The writer of a column's version, unless a newer deletion covers it.
fn writer_of(deletion: Option<&Version>, seen: &Seen) -> Option<Writer>
    ensures { result ≡ sight.uncovered_writer (option_copied deletion.entry) (named seen.now) }
{
    if !is_covered(deletion, seen.version) {
        Some(seen.version.what.writer)
    } else {
        None
    }
}

/// How many notes there are of where writers stand.
const NOTES: usize = 512;

// Which note tells where the writer stands, if one does.
fn note_of(writer: Writer) -> usize
    ensures { result < 512 }
{
    let txn = writer.txn();
    ((txn.number % 512 + u64::from(txn.session.get()) * 37) % 512) as usize
}

// Whether the writer stands at the place.
fn stands_at(writers: &[Writer], place: usize, writer: Writer) -> bool
    ensures { result ≡ true → Contains writers.now writer }
{
    match writers.get(place) {
        Some(other) => *other == writer,
        None => false,
    }
}

// Adds a writer, unless its note tells that it is there.
fn add_noted(
    notes: &mut [u16; NOTES],
    writers: &mut Vec<Writer>,
    writer: Writer,
) -> Result<(), AllocError>
    ensures { IfOk result (λ done. HaveSameWriters writers.new.items (writers.old.items ++ writer ∷ [])) }
{
    let note = note_of(writer);
    if !stands_at(writers, usize::from(notes[note]), writer) {
        notes[note] = (writers.len() % 65536) as u16;
        writers.push(writer)?;
    }
    Ok(())
}

// The writers of the columns' versions that no newer deletion covers. Many have one writer: most of these are met by a note.
fn column_writers(
    alloc: Global,
    deletion: Option<&Version>,
    seen: &[Seen],
) -> Result<Vec<Writer>, AllocError>
    ensures { IfOk result (λ writers. HaveSameWriters writers.items (filter_map (λ s. sight.uncovered_writer (option_copied deletion.entry) (named s)) seen.now)) }
{
    let mut notes = [0; NOTES];
    let mut writers = Vec::new(alloc);
    for one in seen {
        if let Some(writer) = writer_of(deletion, one) {
            add_noted(&mut notes, &mut writers, writer)?;
        }
    }
    Ok(writers)
}

/// The writers of the columns' versions and of the deletion.
pub(crate) fn writers_of(
    alloc: Global,
    deletion: Option<&Version>,
    seen: &[Seen],
) -> Result<Vec<Writer>, AllocError>
    ensures { IfOk result (λ writers. HaveSameWriters writers.items (filter_map (λ s. sight.uncovered_writer (option_copied deletion.entry) (named s)) seen.now ++ option_to_list (option_map (λ v. v.what.writer) (option_copied deletion.entry)))) }
{
    let mut writers = column_writers(alloc, deletion, seen)?;
    match deletion {
        Some(deletion) => writers.push(deletion.what.writer)?,
        None => {}
    }
    Ok(writers)
}

// Whether a column's version has this writer, or a newer deletion covers it.
fn has_no_other(deletion: Option<&Version>, seen: &Seen, writer: Writer) -> bool
    ensures { result ≡ sight.has_no_other writer (sight.uncovered_writer (option_copied deletion.entry) (named seen.now)) }
{
    match writer_of(deletion, seen) {
        Some(other) => other == writer,
        None => true,
    }
}

// Whether each of the columns' versions has this writer, or a newer deletion covers it.
fn have_no_other(deletion: Option<&Version>, seen: &[Seen], writer: Writer) -> bool
    ensures { result ≡ list_all (λ s. sight.has_no_other writer (sight.uncovered_writer (option_copied deletion.entry) (named s))) seen.now }
{
    seen.iter().all(|one| has_no_other(deletion, one, writer))
}

// The writer of the deletion or, without one, of the first of the columns.
fn first_writer(deletion: Option<&Version>, seen: &[Seen]) -> Option<Writer>
    ensures rests { IfSome result (λ writer. Contains (filter_map (λ s. sight.uncovered_writer (option_copied deletion.entry) (named s)) seen.now ++ option_to_list (option_map (λ v. v.what.writer) (option_copied deletion.entry))) writer) }
    ensures deletion { IfSome (option_copied deletion.entry) (λ v. IfSome result (λ writer. writer ≡ v.what.writer)) }
{
    match deletion {
        Some(deletion) => Some(deletion.what.writer),
        None => writer_of(deletion, seen.first()?),
    }
}

// The writer of all of the columns' versions and of the deletion, if it is seen to be only one.
fn only_writer(deletion: Option<&Version>, seen: &[Seen]) -> Option<Writer>
    ensures { IfSome result (λ writer. HaveSameWriters (writer ∷ []) (filter_map (λ s. sight.uncovered_writer (option_copied deletion.entry) (named s)) seen.now ++ option_to_list (option_map (λ v. v.what.writer) (option_copied deletion.entry)))) }
{
    let writer = first_writer(deletion, seen)?;
    if have_no_other(deletion, seen, writer) {
        Some(writer)
    } else {
        None
    }
}

/// A list of more writers than these is first sorted where it stands.
const FEW: usize = 20;

// The writers, many of them in their order: then sorting them once more takes one pass.
fn nearly_sorted(mut writers: Vec<Writer>) -> Vec<Writer>
    ensures { HaveSameWriters result.items writers.items }
{
    if writers.len() > FEW {
        writers.sort_unstable();
    }
    writers
}

// The writers of the columns' versions that the deletion doesn't cover and of the deletion, in order and each once.
fn rested_on(
    alloc: Global,
    deletion: Option<&Version>,
    seen: &[Seen],
) -> Result<Writers, AllocError>
    ensures same { IfOk result (λ writers. HaveSameWriters writers (filter_map (λ s. sight.uncovered_writer (option_copied deletion.entry) (named s)) seen.now ++ option_to_list (option_map (λ v. v.what.writer) (option_copied deletion.entry)))) }
    ensures in_order { IfOk result (IsStrictlySortedBy writer_cmp) }
{
    // mostly one transaction wrote all columns of a row
    if let Some(writer) = only_writer(deletion, seen) {
        return Ok(Writers::one(writer));
    }
    Writers::sorted(nearly_sorted(writers_of(alloc, deletion, seen)?))
}

// The first of the columns that are live, from the start or, reversed, from the end, and at most so many.
fn first_live<'s>(
    alloc: Global,
    reversed: bool,
    most: usize,
    deletion: Option<&Version>,
    seen: &[Seen<'s>],
) -> Result<Vec<Seen<'s>>, AllocError>
    ensures { IfOk result (λ live. live.items ≡ take most (walked reversed (filter (λ s. is_some (sight.live_of (option_copied deletion.entry) (named s))) seen.now))) }
{
    if reversed {
        seen.iter()
            .rev()
            .copied()
            .filter(|one| is_live(deletion, one))
            .take(most)
            .collect(alloc)
    } else {
        seen.iter()
            .copied()
            .filter(|one| is_live(deletion, one))
            .take(most)
            .collect(alloc)
    }
}

// The columns of a walk over these, at most so many.
fn walked_columns(
    alloc: Global,
    reversed: bool,
    most: usize,
    deletion: Option<&Version>,
    seen: &[Seen],
) -> Result<Vec<Column>, Fault>
    ensures ok { IfOk result (λ columns. columns.items ≡ take most (walked reversed (filter_map (λ s. sight.live_of (option_copied deletion.entry) (named s)) seen.now))) }
    ensures memory { IfErr result (λ e. e ≡ fault.Memory) }
{
    if !reversed && seen.len() <= most {
        return live_columns(alloc, deletion, seen);
    }
    let live = first_live(alloc, reversed, most, deletion, seen)?;
    live_columns(alloc, deletion, &live)
}

/// The columns of these that a read shows, which asks for all of them.
pub(crate) fn shown_columns(
    alloc: Global,
    predicate: &Predicate,
    deletion: Option<&Version>,
    seen: &[Seen],
) -> Result<Vec<Column>, Fault>
    ensures ok { IfOk result (λ columns. columns.items ≡ first_of_walk predicate.now (filter_map (λ s. sight.live_of (option_copied deletion.entry) (named s)) seen.now)) }
    ensures memory { IfErr result (λ e. e ≡ fault.Memory) }
{
    match predicate {
        Predicate::Names(_) => live_columns(alloc, deletion, seen),
        Predicate::Range {
            reversed,
            count,
            ..
        } => walked_columns(alloc, *reversed, *count as usize, deletion, seen),
    }
}

// The part that is made of these columns and this deletion, where the columns are asked for and stand in name order. Only
// the columns that it shows are copied.
fn made_of(
    alloc: Global,
    predicate: &Predicate,
    deletion: Option<&Version>,
    seen: &[Seen],
) -> Result<Part, Fault>
    ensures ok { IfOk result (λ part. IsStrictlySortedBy name_cmp (map (λ s. s.name.now) seen.now) → AreAskedFor predicate.now (map named seen.now) → IsMadeOf (option_copied deletion.entry) (map named seen.now) predicate.now part) }
    ensures memory { IfErr result (λ e. e ≡ fault.Memory) }
{
    let found = shown_columns(alloc, predicate, deletion, seen)?;
    let writers = rested_on(alloc, deletion, reached(predicate, found.as_slice(), seen))?;
    let columns = Columns::from_vec(alloc, found)?;
    Ok(Part {
        writers,
        evt: evt_of(deletion, seen),
        columns,
    })
}

// Which way a walk over all columns goes by their newest versions, how many it asks for, and their latest EVT: if such a
// walk is asked for and that EVT is known.
fn whole_walk(
    row: &RowChains,
    predicate: &Predicate,
    moment: &Moment,
) -> Option<(bool, usize, Time)>
    ensures { IfSome result (λ walk. (moment.now ≡ Now) × (predicate.now ≡ Range [] [] walk.0 walk.1) × IsLatest row.now.columns walk.2) }
{
    match (moment, predicate) {
        (
            Moment::Now,
            Predicate::Range {
                start,
                finish,
                reversed,
                count,
            },
        ) if start.as_slice().is_empty() && finish.as_slice().is_empty() => Some((
            *reversed,
            *count as usize,
            row.latest()?,
        )),
        _ => None,
    }
}

// What is seen now of a row by a walk over all of its columns, which ends with the one that makes its count full. The
// latest EVT tells since when all of them are seen.
fn part_walked(
    alloc: Global,
    row: &RowChains,
    reversed: bool,
    most: usize,
    latest: Time,
) -> Result<Part, Fault>
    requires { IsLatest row.now.columns latest }
    ensures ok { IfOk result (IsPartSeen (sight_of Now row.now) (Range [] [] reversed most)) }
    ensures memory { IfErr result (λ e. e ≡ fault.Memory) }
{
    let deletion = seen_deletion(row, &Moment::Now);
    let walk = walk_until(alloc, &row.columns, reversed, most, deletion)?;
    let found = live_columns(alloc, deletion, &walk)?;
    let writers = rested_on(alloc, deletion, &walk)?;
    let columns = Columns::from_vec(alloc, found)?;
    Ok(Part {
        writers,
        evt: evt_of_deletion(deletion).max(latest),
        columns,
    })
}

// What is seen of a row of the columns with these names, which are in order.
fn part_named(
    alloc: Global,
    row: &RowChains,
    names: &[Name],
    moment: &Moment,
) -> Result<Part, Fault>
    ensures ok { IfOk result (λ part. in_name_order names.now ≡ names.now → IsPartSeen (sight_of moment.now row.now) (Names names.now) part) }
    ensures memory { IfErr result (λ e. e ≡ fault.Memory) }
{
    let deletion = seen_deletion(row, moment);
    let found = gather_named(alloc, &row.columns, names, moment, deletion)?;
    found.into_part(alloc)
}

// What is seen of a row of the columns with these two names, which were listed the other way round.
fn part_of_two(
    alloc: Global,
    row: &RowChains,
    first: &Name,
    second: &Name,
    moment: &Moment,
) -> Result<Part, Fault>
    ensures ok { IfOk result (λ part. in_name_order (second.now ∷ first.now ∷ []) ≡ first.now ∷ second.now ∷ [] → IsPartSeen (sight_of moment.now row.now) (Names (second.now ∷ first.now ∷ [])) part) }
    ensures memory { IfErr result (λ e. e ≡ fault.Memory) }
{
    let deletion = seen_deletion(row, moment);
    let found = gather_two(alloc, &row.columns, first, second, moment, deletion)?;
    found.into_part(alloc)
}

// What is seen of a row by a read of all of its columns, which asks for more than there are.
fn part_whole(alloc: Global, row: &RowChains, moment: &Moment) -> Result<Part, Fault>
    ensures ok { IfOk result (λ part. (n : ℕ) → length row.now.columns < n → IsPartSeen (sight_of moment.now row.now) (Range [] [] false n) part) }
    ensures memory { IfErr result (λ e. e ≡ fault.Memory) }
{
    let deletion = seen_deletion(row, moment);
    let found = gather_all(alloc, &row.columns, moment, deletion)?;
    found.into_part(alloc)
}

/// What is seen of a row's places.
#[inline]
pub(crate) fn part_of(
    alloc: Global,
    row: &RowChains,
    predicate: &Predicate,
    moment: &Moment,
) -> Result<Part, Fault>
    ensures ok { IfOk result (IsPartSeen (sight_of moment.now row.now) predicate.now) }
    ensures memory { IfErr result (λ e. e ≡ fault.Memory) }
{
    if let Some(names) = few_names(predicate) {
        return part_named(alloc, row, names, moment);
    }
    if let Some((first, second)) = turned_names(predicate) {
        return part_of_two(alloc, row, first, second, moment);
    }
    if asks_for_few(predicate, row.columns.len()) {
        return part_whole(alloc, row, moment);
    }
    if let Some((reversed, most, latest)) = whole_walk(row, predicate, moment) {
        return part_walked(alloc, row, reversed, most, latest);
    }
    let seen = asked_columns(alloc, row, predicate, moment)?;
    made_of(alloc, predicate, seen_deletion(row, moment), &seen)
}

/// What is seen of a row's places where another is laid over it.
pub(crate) fn part_over<'s>(
    alloc: Global,
    row: &'s RowChains,
    over: &'s RowChains,
    predicate: &Predicate,
    moment: &Moment,
) -> Result<Part, Fault>
    ensures ok { IfOk result (IsPartSeen (laid_over (sight_of moment.now row.now) (sight_of moment.now over.now)) predicate.now) }
    ensures memory { IfErr result (λ e. e ≡ fault.Memory) }
{
    let below = asked_columns(alloc, row, predicate, moment)?;
    let above = asked_columns(alloc, over, predicate, moment)?;
    let seen = merged(alloc, &below, &above)?;
    let deletion = newer_seen(seen_deletion(row, moment), seen_deletion(over, moment));
    made_of(alloc, predicate, deletion, &seen)
}

// What is seen of a row of which nothing is kept.
fn empty_part(alloc: Global, predicate: &Predicate, moment: &Moment) -> Part
    ensures { IsPartUnder (sight_of moment.now no_row) (ranges_seen moment.now no_row) predicate.now result }
{
    Part {
        columns: Columns::none(),
        writers: Writers::from_vec(Vec::new(alloc)),
        evt: Time::zero(),
    }
}

/// What is seen of one of the rows.
#[inline(always)]
pub(crate) fn part_in(
    alloc: Global,
    rows: &BTreeMap<Row, RowChains>,
    row: &Row,
    predicate: &Predicate,
    moment: &Moment,
) -> Result<Part, Fault>
    ensures ok { IfOk result (IsPartUnder (sight_of moment.now (held_by row_cmp no_row rows.now.entries row.now)) (ranges_seen moment.now (held_by row_cmp no_row rows.now.entries row.now)) predicate.now) }
    ensures memory { IfErr result (λ e. e ≡ fault.Memory) }
{
    match rows.get(row) {
        Some(held) => part_under(alloc, held, predicate, moment),
        None => Ok(empty_part(alloc, predicate, moment)),
    }
}

/// What is seen of one of the rows where these chains are laid over it.
pub(crate) fn part_with<'s>(
    alloc: Global,
    rows: &'s BTreeMap<Row, RowChains>,
    over: &'s RowChains,
    row: &Row,
    predicate: &Predicate,
    moment: &Moment,
) -> Result<Part, Fault>
    ensures ok { IfOk result (IsPartUnder (laid_over (sight_of moment.now (held_by row_cmp no_row rows.now.entries row.now)) (sight_of moment.now over.now)) (ranges_over moment.now (held_by row_cmp no_row rows.now.entries row.now) over.now) predicate.now) }
    ensures memory { IfErr result (λ e. e ≡ fault.Memory) }
{
    match rows.get(row) {
        Some(held) => part_under_both(alloc, held, over, predicate, moment),
        None => part_under(alloc, over, predicate, moment),
    }
}
