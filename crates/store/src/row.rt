//! The chains of a row.
ghost use Rattle.std.specs.Prelude.{◌≡◌, ◌+◌, ◌≤◌, ◌<◌, ◌⊎◌, nat_lt, [], ℕ, List, Some, None, length, true, false, if◌then◌else◌, OnOk, IfOk, IfErr, IfSome, IsOk, IsSomeAnd, map, slice_get, unwrap_or, option_to_list};
ghost use Rattle.std.specs.List.{list_any, sum_by};
ghost use Rattle.std.specs.Option.{option_copied};
ghost use Rattle.std.specs.Map.{lookup};
ghost use Rattle.std.specs.Ordering.{is_eq};
ghost use Rattle.std.specs.Str.{bytes_eq};
ghost use Rattle.logical_time.specs.declared.fault.Fault.TheVariants as fault;
ghost use Rattle.versions.specs.Chain.{put_of};
ghost use Rattle.versions.specs.Newest.{has_stamp};
ghost use Rattle.versions.specs.Ranges as in_ranges;
ghost use Rattle.store.specs.Crowded as crowded;
ghost use Rattle.store.specs.Crowded.{comes_to_more, holds_more};
ghost use Rattle.store.specs.Holdings.{counted, versions_held, versions_of};
ghost use Rattle.store.specs.Latest.{IsLatest, IsLatestAfter};
ghost use Rattle.store.specs.Sight.{evt_or_0};
ghost use Rattle.store.specs.Stored as kept;
ghost use Rattle.store.specs.Stored.{Place, chain_of, collected_held, collected_ranges, collected_row, column_held, is_of_place, name_cmp, no_ranges, nothing_held, put_all, put_all_ranges, range_left, ranges_written, written};

use crate::boxed_chain::BoxedChain;
use crate::boxed_ranges::BoxedRanges;
use crate::origin::Origin;
use column_family::{Change, Mutation, Name, Row, Value};
use logical_time::{Fault, Time};
use std::alloc::Global;
use std::collections::BTreeMap;
use std::marker::Model;
use versions::{Chain, RangeDeletion, Ranges, Version, What};

/// What is held of a row: a chain for each of its columns, one for its deletions, and the deletions of ranges.
#[derive(Drop)]
pub(crate) struct RowChains {
    pub(crate) columns: BTreeMap<Name, BoxedChain>,
    // made with the first deletion
    deletions: Option<BoxedChain>,
    // made with the first deletion of a range
    ranges: Option<BoxedRanges>,
    // the greatest EVT of the newest versions of the columns, where it is known
    latest: Option<Time>,
}

impl Model for RowChains {
    ghost use Rattle.std.specs.Prelude.{IfSome, unwrap_or};
    ghost use Rattle.store.specs.Stored.{Chains, no_ranges, nothing_held};
    ghost use Rattle.store.specs.Latest.{IsLatest};

    ghost Value = { Chains };

    ghost view = { λ r. record { columns = r.columns.entries; deletions = unwrap_or r.deletions nothing_held; ranges = unwrap_or r.ranges no_ranges } };

    ghost invariant = { λ r. IfSome r.latest (IsLatest r.columns.entries) };
}

// The version of this origin that leaves a value, or a deletion.
fn version(origin: &Origin, value: Option<Value>) -> Version
    ensures { result ≡ record { stamp = origin.now.stamp; evt = origin.now.evt; what = record { writer = origin.now.writer; value = value } } }
{
    Version {
        stamp: origin.stamp,
        evt: origin.evt,
        what: What {
            writer: origin.writer,
            value,
        },
    }
}

// The EVT of the newest version of a chain, or 0 without one.
#[inline]
fn newest_evt(chain: &Chain) -> Time
    ensures { result ≡ evt_or_0 (slice_get chain.now.versions 0) }
{
    match chain.newest() {
        Some(version) => version.evt,
        None => Time::zero(),
    }
}

// The latest EVT once that of one column went from one to another, if it was known and still is.
#[inline]
fn latest_after(latest: Option<Time>, before: Time, after: Time) -> Option<Time>
    ensures { IfSome result (λ now. IsSomeAnd latest (λ was. IsLatestAfter was before after now)) }
{
    let was = latest?;
    if was <= after {
        Some(after)
    } else if before < was {
        Some(was)
    } else {
        None
    }
}

// Puts a version into the chain of a column, and answers whether that came to hold more than one. Keeps the latest EVT,
// where it is known.
#[inline(always)]
fn put_column(
    columns: &mut BTreeMap<Name, BoxedChain>,
    latest: &mut Option<Time>,
    name: &Name,
    version: Version,
) -> bool
    requires { (0 < (column_held columns.old.entries name.now).room) ⊎ (has_stamp (column_held columns.old.entries name.now).versions version.stamp ≡ true) }
    ensures versions { (n : List ℕ) → (column_held columns.new.entries n).versions ≡ (if bytes_eq name.now n then put_of (column_held columns.old.entries n).versions version else (column_held columns.old.entries n).versions) }
    ensures room { (n : List ℕ) → (column_held columns.old.entries n).room ≤ (column_held columns.new.entries n).room + (if bytes_eq name.now n then 1 else 0) }
    ensures more { result ≡ comes_to_more (column_held columns.old.entries name.now) (column_held columns.new.entries name.now) }
    ensures latest { IfSome latest.old (IsLatest columns.old.entries) → IfSome latest.new (IsLatest columns.new.entries) }
{
    match columns.get_mut(name) {
        Some(chain) => {
            let before = newest_evt(chain.as_chain());
            let more = chain.put(version);
            *latest = latest_after(*latest, before, newest_evt(chain.as_chain()));
            more
        }
        None => false,
    }
}

// Gives a row a column with room for one version.
fn add_column(
    alloc: Global,
    columns: &mut BTreeMap<Name, BoxedChain>,
    name: &Name,
) -> Result<(), Fault>
    requires { lookup (λ k. is_eq (name_cmp name.now k)) columns.old.entries ≡ None }
    ensures versions { (n : List ℕ) → (column_held columns.new.entries n).versions ≡ (column_held columns.old.entries n).versions }
    ensures room { (n : List ℕ) → (column_held columns.old.entries n).room ≤ (column_held columns.new.entries n).room }
    ensures ok { OnOk result (0 < (column_held columns.new.entries name.now).room) }
    ensures memory { IfErr result (λ e. e ≡ fault.Memory) }
{
    let chain = BoxedChain::new(alloc)?;
    columns.insert(name.clone()?, chain)?;
    Ok(())
}

// Makes room for one more version of a column.
#[inline(always)]
fn reserve_column(
    alloc: Global,
    columns: &mut BTreeMap<Name, BoxedChain>,
    name: &Name,
) -> Result<(), Fault>
    ensures versions { (n : List ℕ) → (column_held columns.new.entries n).versions ≡ (column_held columns.old.entries n).versions }
    ensures room { (n : List ℕ) → (column_held columns.old.entries n).room ≤ (column_held columns.new.entries n).room }
    ensures ok { OnOk result (0 < (column_held columns.new.entries name.now).room) }
    ensures succeeds { 0 < (column_held columns.old.entries name.now).room → IsOk result }
    ensures memory { IfErr result (λ e. e ≡ fault.Memory) }
{
    match columns.get_mut(name) {
        Some(chain) => chain.reserve(),
        None => add_column(alloc, columns, name),
    }
}

// Drops what can't be seen from the time on of each column.
fn collect_columns(columns: &mut BTreeMap<Name, BoxedChain>, time: Time)
    ensures { columns.new.entries ≡ map (λ e. (e.0, collected_held time e.1)) columns.old.entries }
{
    columns.retain(|_, chain| {
        chain.collect(time);
        true
    });
}

// Whether the chain of a column holds more than one version.
fn is_crowded_in(columns: &BTreeMap<Name, BoxedChain>) -> bool
    ensures { result ≡ list_any holds_more (map (λ e. e.1) columns.now.entries) }
{
    columns.values().any(|chain| chain.as_chain().len() > 1)
}

// How many versions the chains of the columns hold.
fn versions_in(columns: &BTreeMap<Name, BoxedChain>) -> u64
    ensures { result ≡ counted (sum_by versions_held (map (λ e. e.1) columns.now.entries)) }
{
    let mut sum = 0u64;
    for chain in columns.values() {
        sum = sum.saturating_add(chain.as_chain().len() as u64);
    }
    sum
}

// Puts a version into the chain of the deletions, and answers whether that came to hold more than one.
#[inline]
fn put_deletion(deletions: &mut Option<BoxedChain>, version: Version) -> bool
    requires { (0 < (unwrap_or deletions.old nothing_held).room) ⊎ (has_stamp (unwrap_or deletions.old nothing_held).versions version.stamp ≡ true) }
    ensures versions { (unwrap_or deletions.new nothing_held).versions ≡ put_of (unwrap_or deletions.old nothing_held).versions version }
    ensures room { (unwrap_or deletions.old nothing_held).room ≤ (unwrap_or deletions.new nothing_held).room + 1 }
    ensures more { result ≡ comes_to_more (unwrap_or deletions.old nothing_held) (unwrap_or deletions.new nothing_held) }
{
    match deletions {
        Some(chain) => chain.put(version),
        None => unreachable!(),
    }
}

// Makes room for one more deletion.
fn reserve_deletion(alloc: Global, deletions: &mut Option<BoxedChain>) -> Result<(), Fault>
    ensures versions { (unwrap_or deletions.new nothing_held).versions ≡ (unwrap_or deletions.old nothing_held).versions }
    ensures room { (unwrap_or deletions.old nothing_held).room ≤ (unwrap_or deletions.new nothing_held).room }
    ensures ok { OnOk result (0 < (unwrap_or deletions.new nothing_held).room) }
    ensures succeeds { 0 < (unwrap_or deletions.old nothing_held).room → IsOk result }
    ensures memory { IfErr result (λ e. e ≡ fault.Memory) }
{
    if let Some(chain) = deletions {
        return chain.reserve();
    }
    *deletions = Some(BoxedChain::new(alloc)?);
    Ok(())
}

// Drops what can't be seen from the time on of the deletions.
fn collect_deletions(deletions: &mut Option<BoxedChain>, time: Time)
    ensures { unwrap_or deletions.new nothing_held ≡ collected_held time (unwrap_or deletions.old nothing_held) }
{
    if let Some(chain) = deletions {
        chain.collect(time);
    }
}

// Puts a deletion of a range to those of a row.
fn put_range(ranges: &mut Option<BoxedRanges>, range: RangeDeletion)
    requires { 0 < (unwrap_or ranges.old no_ranges).room }
    ensures put { (unwrap_or ranges.new no_ranges).ranges ≡ in_ranges.put_range (unwrap_or ranges.old no_ranges).ranges range }
    ensures room { (unwrap_or ranges.old no_ranges).room ≤ (unwrap_or ranges.new no_ranges).room + 1 }
{
    match ranges {
        Some(held) => held.put(range),
        None => unreachable!(),
    }
}

// Makes room for so many more deletions of ranges.
fn reserve_ranges(
    alloc: Global,
    ranges: &mut Option<BoxedRanges>,
    additional: usize,
) -> Result<(), Fault>
    ensures ranges { (unwrap_or ranges.new no_ranges).ranges ≡ (unwrap_or ranges.old no_ranges).ranges }
    ensures room { (unwrap_or ranges.old no_ranges).room ≤ (unwrap_or ranges.new no_ranges).room }
    ensures ok { OnOk result (additional ≤ (unwrap_or ranges.new no_ranges).room) }
    ensures succeeds { additional ≤ (unwrap_or ranges.old no_ranges).room → IsOk result }
    ensures memory { IfErr result (λ e. e ≡ fault.Memory) }
{
    if let Some(held) = ranges {
        return held.reserve(additional);
    }
    if additional == 0 {
        return Ok(());
    }
    *ranges = Some(BoxedRanges::new(alloc, additional)?);
    Ok(())
}

// Drops the deletions of ranges that are in force at no time from the time on, below these deletions of the row.
fn collect_below(ranges: &mut Option<BoxedRanges>, deletions: &Chain, time: Time)
    ensures { unwrap_or ranges.new no_ranges ≡ collected_ranges time deletions.now.versions (unwrap_or ranges.old no_ranges) }
{
    if let Some(held) = ranges {
        held.collect(deletions, time);
    }
}

// The same where there may be no deletion of the row: then all stay.
#[tactic(auto, using(crate::proofs::applied::Collected::all_collected))]
fn collect_ranges(ranges: &mut Option<BoxedRanges>, deletions: Option<&Chain>, time: Time)
    ensures { unwrap_or ranges.new no_ranges ≡ collected_ranges time (unwrap_or (option_copied deletions.entry) nothing_held).versions (unwrap_or ranges.old no_ranges) }
{
    if let Some(chain) = deletions {
        collect_below(ranges, chain, time);
    }
}

// The chain, if there is one.
#[inline]
fn chain_in(chain: &Option<BoxedChain>) -> Option<&Chain>
    ensures { unwrap_or (option_copied result) nothing_held ≡ unwrap_or chain.now nothing_held }
{
    match chain {
        Some(chain) => Some(chain.as_chain()),
        None => None,
    }
}

impl RowChains {
    /// A row without a version.
    pub(crate) fn new(alloc: Global) -> RowChains
        ensures columns { result.columns ≡ [] }
        ensures deletions { result.deletions.versions ≡ [] }
        ensures ranges { result.ranges ≡ no_ranges }
    {
        RowChains {
            columns: BTreeMap::new(alloc),
            deletions: None,
            ranges: None,
            latest: Some(Time::zero()),
        }
    }

    /// Puts what a mutation leaves into the chain of its place, and answers whether that came to hold more than one
    /// version. A deletion of a range has no place: `put_range` is for it.
    #[inline(always)]
    pub(crate) fn put(&mut self, mutation: Mutation, origin: &Origin) -> bool
        requires { (p : Place) → is_of_place p mutation ≡ true → (0 < (chain_of self.old p).room) ⊎ (has_stamp (chain_of self.old p).versions origin.now.stamp ≡ true) }
        ensures versions { (p : Place) → (chain_of self.new p).versions ≡ (if is_of_place p mutation then put_of (chain_of self.old p).versions (kept.version_of origin.now mutation) else (chain_of self.old p).versions) }
        ensures room { (p : Place) → (chain_of self.old p).room ≤ (chain_of self.new p).room + (if is_of_place p mutation then 1 else 0) }
        ensures more { result ≡ false → (p : Place) → is_of_place p mutation ≡ true → length (chain_of self.old p).versions ≤ 1 → length (chain_of self.new p).versions ≤ 1 }
        ensures ranges { self.new.ranges ≡ self.old.ranges }
    {
        match mutation {
            Mutation::Insert { name, value } => put_column(
                &mut self.columns,
                &mut self.latest,
                &name,
                version(origin, Some(value)),
            ),
            Mutation::DeleteColumn { name } => put_column(
                &mut self.columns,
                &mut self.latest,
                &name,
                version(origin, None),
            ),
            Mutation::DeleteRow => put_deletion(&mut self.deletions, version(origin, None)),
            Mutation::DeleteRange { .. } => false,
        }
    }

    /// Puts a deletion of a range.
    pub(crate) fn put_range(&mut self, start: Name, finish: Name, origin: &Origin)
        requires { 0 < self.old.ranges.room }
        ensures places { (p : Place) → chain_of self.new p ≡ chain_of self.old p }
        ensures put { self.new.ranges.ranges ≡ in_ranges.put_range self.old.ranges.ranges (record { stamp = origin.now.stamp; evt = origin.now.evt; start = start; finish = finish; writer = origin.now.writer }) }
        ensures room { self.old.ranges.room ≤ self.new.ranges.room + 1 }
    {
        put_range(
            &mut self.ranges,
            RangeDeletion {
                stamp: origin.stamp,
                evt: origin.evt,
                start,
                finish,
                writer: origin.writer,
            },
        );
    }

    /// The greatest EVT of the newest versions of the columns, or 0 without one, where it is known: until the version that
    /// has it is followed by one with an earlier EVT.
    pub(crate) fn latest(&self) -> Option<Time>
        ensures { IfSome result (IsLatest self.now.columns) }
    {
        self.latest
    }

    /// The chain of the deletions, if there was one.
    #[inline]
    pub(crate) fn deletions(&self) -> Option<&Chain>
        ensures { unwrap_or (option_copied result) nothing_held ≡ self.now.deletions }
    {
        chain_in(&self.deletions)
    }

    /// The deletions of ranges, if there were any.
    pub(crate) fn ranges(&self) -> Option<&Ranges>
        ensures { unwrap_or (option_copied result) no_ranges ≡ self.now.ranges }
    {
        match &self.ranges {
            Some(ranges) => Some(ranges.as_ranges()),
            None => None,
        }
    }

    // Whether it holds a deletion of a range.
    fn has_ranges(&self) -> bool
        ensures { result ≡ nat_lt 0 (length self.now.ranges.ranges) }
    {
        match self.ranges() {
            Some(ranges) => ranges.len() > 0,
            None => false,
        }
    }

    /// Whether a chain holds more than one version, or a range of columns was deleted. Linear in the columns.
    pub(crate) fn is_crowded(&self) -> bool
        ensures { result ≡ crowded.is_crowded self.now }
    {
        is_crowded_in(&self.columns)
            || self.deletions().is_some_and(|chain| chain.len() > 1)
            || self.has_ranges()
    }

    /// How many versions its chains hold. Linear in the columns.
    pub(crate) fn versions(&self) -> u64
        ensures { result ≡ counted (versions_of self.now) }
    {
        let columns = versions_in(&self.columns);
        match self.deletions() {
            Some(chain) => columns.saturating_add(chain.len() as u64),
            None => columns,
        }
    }

    /// Drops the versions that are the newest of their chain at no time from this one on, and the deletions of ranges that
    /// are in force at none. Linear in all of these.
    pub(crate) fn collect(&mut self, time: Time)
        ensures { self.new ≡ collected_row time self.old }
    {
        collect_ranges(&mut self.ranges, chain_in(&self.deletions), time);
        collect_columns(&mut self.columns, time);
        collect_deletions(&mut self.deletions, time);
    }

    /// Makes room for so many more deletions of ranges.
    pub(crate) fn reserve_ranges(&mut self, alloc: Global, additional: usize) -> Result<(), Fault>
        ensures places { (p : Place) → chain_of self.new p ≡ chain_of self.old p }
        ensures ranges { self.new.ranges.ranges ≡ self.old.ranges.ranges }
        ensures room { self.old.ranges.room ≤ self.new.ranges.room }
        ensures ok { OnOk result (additional ≤ self.new.ranges.room) }
        ensures succeeds { additional ≤ self.old.ranges.room → IsOk result }
        ensures memory { IfErr result (λ e. e ≡ fault.Memory) }
    {
        reserve_ranges(alloc, &mut self.ranges, additional)
    }

    /// Makes room for what a mutation leaves at its place.
    #[inline(always)]
    pub(crate) fn reserve(&mut self, alloc: Global, mutation: &Mutation) -> Result<(), Fault>
        ensures versions { (p : Place) → (chain_of self.new p).versions ≡ (chain_of self.old p).versions }
        ensures room { (p : Place) → (chain_of self.old p).room ≤ (chain_of self.new p).room }
        ensures ok { OnOk result ((p : Place) → is_of_place p mutation.now ≡ true → 0 < (chain_of self.new p).room) }
        ensures succeeds { ((p : Place) → is_of_place p mutation.now ≡ true → 0 < (chain_of self.old p).room) → IsOk result }
        ensures memory { IfErr result (λ e. e ≡ fault.Memory) }
        ensures ranges { self.new.ranges ≡ self.old.ranges }
    {
        match mutation {
            Mutation::Insert { name, .. } | Mutation::DeleteColumn { name } => reserve_column(
                alloc,
                &mut self.columns,
                name,
            ),
            Mutation::DeleteRow => reserve_deletion(alloc, &mut self.deletions),
            Mutation::DeleteRange { .. } => Ok(()),
        }
    }
}

// Puts a change of a row, and makes the room for it.
fn put_whole(
    alloc: Global,
    held: &mut RowChains,
    mutation: &Mutation,
    origin: &Origin,
) -> Result<(), Fault>
    ensures versions { OnOk result ((p : Place) → (chain_of held.new p).versions ≡ (if is_of_place p mutation.now then put_of (chain_of held.old p).versions (kept.version_of origin.now mutation.now) else (chain_of held.old p).versions)) }
    ensures ranges { OnOk result (held.new.ranges.ranges ≡ put_all_ranges held.old.ranges.ranges (option_to_list (range_left origin.now mutation.now))) }
    ensures memory { IfErr result (λ e. e ≡ fault.Memory) }
{
    if let Mutation::DeleteRange { start, finish } = mutation {
        held.reserve_ranges(alloc, 1)?;
        held.put_range(start.clone()?, finish.clone()?, origin);
        return Ok(());
    }
    held.reserve(alloc, mutation)?;
    held.put(mutation.clone()?, origin);
    Ok(())
}

/// What the changes of one row leave, as chains of that row alone. Linear in all of the changes, and logarithmic for
/// each of the row in the columns of these.
pub(crate) fn row_written(
    alloc: Global,
    row: &Row,
    changes: &[Change],
    origin: &Origin,
) -> Result<RowChains, Fault>
    ensures ok { IfOk result (λ held. (p : Place) → (chain_of held p).versions ≡ put_all [] (written origin.now row.now p changes.now)) }
    ensures ranges { IfOk result (λ held. held.ranges.ranges ≡ put_all_ranges [] (ranges_written origin.now row.now changes.now)) }
    ensures memory { IfErr result (λ e. e ≡ fault.Memory) }
{
    let mut held = RowChains::new(alloc);
    for change in changes {
        if *row == change.row {
            put_whole(alloc, &mut held, &change.mutation, origin)?;
        }
    }
    Ok(held)
}
