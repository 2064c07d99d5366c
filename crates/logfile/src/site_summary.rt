//! What is in the log of a node.
ghost use Rattle.std.specs.Prelude.{◌≡◌, ◌++◌, List, ℕ, IfOk, IfErr, OnOk, IfSome, IfNone, codes, decimal, string_bytes};
ghost use Rattle.std.specs.List.{flat_map};
ghost use Rattle.logfile.specs.Sites.{other_text, met_text, site_line, site_counts_text, rest_text, IsOfSite, IsOfNoSite, IsSiteSummaryOf, CantLookAtSite, HasNoHead};
ghost use Rattle.logfile.specs.Told.{site_text};

use crate::error::LogError;
use crate::opening::behind;
use crate::reasons::shown;
use crate::site_counts::{Counts, Other, counts_in};
use crate::site_reading::{read_site_log, site_of};
use ledger::{HeadError, read_head};
use messages::Topology;
use std::alloc::{AllocError, Global};

/// What is in the log of a node.
#[derive(Drop)]
pub struct SiteSummary {
    /// The data centre whose node's it is.
    pub dc: u16,
    /// The store's data centres, shards, families and sessions.
    pub topology: Topology,
    /// How much its entries tell.
    pub counts: Counts,
    /// How many bytes its records take.
    pub records: usize,
    /// How many stand behind them: a crash left those.
    pub torn: usize,
}

/// The data centre whose node's log a file holds; none where it is that of a server. Refused where it doesn't begin as a log, and
/// with `Memory`.
pub fn site_in(alloc: Global, file: &[u8]) -> Result<Option<u16>, LogError>
    ensures some { IfOk result (λ r. IfSome r (IsOfSite file.now)) }
    ensures none { IfOk result (λ r. IfNone r (IsOfNoSite file.now)) }
    ensures refused { IfErr result (HasNoHead file.now) }
{
    let head = read_head(alloc, file)?;
    let bytes = behind(file, &head);
    match site_of(alloc, head.secret, bytes) {
        Ok(dc) => Ok(dc),
        Err(_) => Err(LogError::Head(HeadError::Memory)),
    }
}

/// What is in the log that a file holds, that of the node of this data centre. Changes nothing. Refused where it doesn't begin as a log,
/// where a record is damaged that was synced, or tells no entry, and with `Memory`. Linear in the file, and takes a sum for each byte that
/// is torn.
pub fn site_summary_of(alloc: Global, file: &[u8], dc: u16) -> Result<SiteSummary, LogError>
    ensures ok { IfOk result (IsSiteSummaryOf file.now dc) }
    ensures refused { IfErr result (CantLookAtSite file.now) }
{
    let head = read_head(alloc, file)?;
    let bytes = behind(file, &head);
    let (entries, records) = read_site_log(alloc, head.secret, bytes)?;
    let Ok(counts) = counts_in(alloc, &entries, dc, head.topology.dcs()) else {
        return Err(LogError::Head(HeadError::Memory));
    };
    Ok(SiteSummary {
        dc,
        topology: head.topology,
        counts,
        records,
        torn: bytes.len() - records,
    })
}

// The first line, of a store that is shown so.
fn first_line(alloc: Global, dc: u16, store: &str) -> Result<String, AllocError>
    ensures { IfOk result (λ text. string_bytes text ≡ site_line dc store.now) }
{
    format!(in alloc; "the log of data centre {dc} of a store of {store}\n")
}

// The second.
fn counts_line(alloc: Global, counts: &Counts) -> Result<String, AllocError>
    ensures { IfOk result (λ text. string_bytes text ≡ site_counts_text counts.now) }
{
    let (requests, collections, turns) = (counts.requests, counts.collections, counts.turns);
    format!(in alloc; "{requests} requests, {collections} collections, {turns} turns\n")
}

// Whether it was met.
fn met_words(met: bool) -> &'static str
    ensures { result.now ≡ met_text met }
{
    if met {
        "which was met"
    } else {
        "which wasn't met yet"
    }
}

// The line of a data centre from which so many came, with these words on whether it was met.
fn came_line(alloc: Global, dc: u16, came: usize, met: &str) -> Result<String, AllocError>
    ensures { IfOk result (λ text. string_bytes text ≡ decimal came ++ codes " envelopes came from data centre " ++ decimal dc ++ codes ", " ++ met.now ++ codes "\n") }
{
    format!(in alloc; "{came} envelopes came from data centre {dc}, {met}\n")
}

// The line of another data centre.
fn other_line(alloc: Global, other: &Other) -> Result<String, AllocError>
    ensures { IfOk result (λ text. string_bytes text ≡ other_text other.now) }
{
    came_line(alloc, other.dc, other.came, met_words(other.met))
}

// Puts the lines of the other data centres behind a text.
fn put_others(alloc: Global, text: &mut String, others: &[Other]) -> Result<(), AllocError>
    ensures { OnOk result (string_bytes text.new ≡ string_bytes text.old ++ flat_map other_text others.now) }
{
    for other in others {
        text.push_str(other_line(alloc, other)?.as_str())?;
    }
    Ok(())
}

// The last line.
fn last_line(alloc: Global, records: usize, torn: usize) -> Result<String, AllocError>
    ensures { IfOk result (λ text. string_bytes text ≡ rest_text records torn) }
{
    format!(in alloc; "{records} bytes of records, and {torn} torn bytes behind them\n")
}

/// The lines that tell it.
pub(crate) fn text_of_site(alloc: Global, summary: &SiteSummary) -> Result<String, AllocError>
    ensures { IfOk result (λ text. (names : List ℕ) × (string_bytes text ≡ site_text summary.now names)) }
{
    let store = shown(alloc, &summary.topology)?;
    let mut text = first_line(alloc, summary.dc, store.as_str())?;
    text.push_str(counts_line(alloc, &summary.counts)?.as_str())?;
    put_others(alloc, &mut text, &summary.counts.others)?;
    text.push_str(last_line(alloc, summary.records, summary.torn)?.as_str())?;
    Ok(text)
}
