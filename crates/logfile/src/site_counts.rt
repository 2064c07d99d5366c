//! How much a node's log tells.
ghost use Rattle.std.specs.Prelude.{◌≡◌, count_by, IfOk, IfErr};
ghost use Rattle.std.specs.List.{list_any};
ghost use Rattle.logical_time.specs.declared.fault.Fault.TheVariants.{Memory};
ghost use Rattle.durable_site.specs.Heard.{tells_of_one};
ghost use Rattle.logfile.specs.Sites as site;

use logical_time::Fault;
use site_ledger::Entry;
use std::alloc::Global;

/// What is told of another data centre.
#[derive(Clone, Copy)]
pub struct Other {
    /// Its number.
    pub dc: u16,
    /// How many envelopes came from there.
    pub came: usize,
    /// Whether its node was met.
    pub met: bool,
}

/// How much the entries of a node's log tell.
#[derive(Drop)]
pub struct Counts {
    /// How many requests.
    pub requests: usize,
    /// How many collections.
    pub collections: usize,
    /// How many envelopes were handled.
    pub turns: u128,
    /// What is told of each other data centre, in the order of their numbers.
    pub others: Vec<Other>,
}

// Whether it is a request.
fn is_request(entry: &Entry) -> bool
    ensures { result ≡ site.is_request entry.now }
{
    matches!(entry, Entry::Asked { .. })
}

// Whether it is a collection.
fn is_collection(entry: &Entry) -> bool
    ensures { result ≡ site.is_collection entry.now }
{
    matches!(entry, Entry::Collected { .. })
}

// Whether it is that an envelope came from this data centre.
fn is_from(entry: &Entry, dc: u16) -> bool
    ensures { result ≡ tells_of_one dc entry.now }
{
    matches!(entry, Entry::Came { from, .. } if *from == dc)
}

// Whether it is that the node of this data centre was met.
fn meets(entry: &Entry, dc: u16) -> bool
    ensures { result ≡ site.meets dc entry.now }
{
    matches!(entry, Entry::Met { dc: there, .. } if *there == dc)
}

// How many envelopes were handled, by this entry.
fn turns_in(entry: &Entry) -> u32
    ensures { result ≡ site.turns_in entry.now }
{
    match entry {
        Entry::Turned { count } => *count,
        _ => 0,
    }
}

// How many envelopes were handled, by these.
fn turns_of(entries: &[Entry]) -> u128
    ensures { result ≡ site.turns_of entries.now }
{
    let mut turns: u128 = 0;
    for entry in entries {
        turns += u128::from(turns_in(entry));
    }
    turns
}

// How many of these are requests.
fn requests_in(entries: &[Entry]) -> usize
    ensures { result ≡ count_by site.is_request entries.now }
{
    let mut requests = 0;
    for entry in entries {
        if is_request(entry) {
            requests += 1;
        }
    }
    requests
}

// How many are collections.
fn collections_in(entries: &[Entry]) -> usize
    ensures { result ≡ count_by site.is_collection entries.now }
{
    let mut collections = 0;
    for entry in entries {
        if is_collection(entry) {
            collections += 1;
        }
    }
    collections
}

// How many envelopes came from this data centre, as these tell.
fn came_from(entries: &[Entry], dc: u16) -> usize
    ensures { result ≡ count_by (tells_of_one dc) entries.now }
{
    entries.iter().filter(|entry| is_from(entry, dc)).count()
}

// Whether the node of this data centre was met, as these tell.
fn was_met(entries: &[Entry], dc: u16) -> bool
    ensures { result ≡ list_any (site.meets dc) entries.now }
{
    entries.iter().any(|entry| meets(entry, dc))
}

// What is told of this data centre.
fn other_of(entries: &[Entry], dc: u16) -> Other
    ensures { result ≡ site.other_of entries.now dc }
{
    Other {
        dc,
        came: came_from(entries, dc),
        met: was_met(entries, dc),
    }
}

// What is told of each data centre but this one. Refused with `Memory` alone.
fn others_of(alloc: Global, entries: &[Entry], here: u16, dcs: u16) -> Result<Vec<Other>, Fault>
    ensures others { IfOk result (λ others. others.items ≡ site.others_in here dcs entries.now) }
    ensures memory { IfErr result (λ e. e ≡ Memory) }
{
    let mut others = Vec::new(alloc);
    for dc in 0..dcs {
        if dc != here {
            others.push(other_of(entries, dc))?;
        }
    }
    Ok(others)
}

/// How much these entries tell, of the log of the node of this data centre, of so many. Refused with `Memory` alone. Looks at the entries
/// three times, and twice for each other data centre.
pub(crate) fn counts_in(
    alloc: Global,
    entries: &[Entry],
    here: u16,
    dcs: u16,
) -> Result<Counts, Fault>
    ensures counts { IfOk result (site.AreCountsOf here dcs entries.now) }
    ensures memory { IfErr result (λ e. e ≡ Memory) }
{
    Ok(Counts {
        requests: requests_in(entries),
        collections: collections_in(entries),
        turns: turns_of(entries),
        others: others_of(alloc, entries, here, dcs)?,
    })
}
