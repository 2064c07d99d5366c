//! What is in a log.
ghost use Rattle.std.specs.Prelude.{◌≡◌, ◌++◌, List, ℕ, count_by, codes, IfOk, IfErr, string_bytes};
ghost use Rattle.logfile.specs.Told.{is_request, counts_text, summary_text, IsSummaryOf, CantLook};

use crate::error::LogError;
use crate::opening::behind;
use crate::reasons::shown;
use durable::read_log;
use ledger::{Entry, read_head};
use messages::Topology;
use std::alloc::{AllocError, Global};

/// What is in a log.
#[derive(Drop)]
pub struct Summary {
    /// The store's data centres, shards, families and sessions.
    pub topology: Topology,
    /// How many requests it has.
    pub requests: usize,
    /// How many collections.
    pub collections: usize,
    /// How many bytes its records take.
    pub records: usize,
    /// How many stand behind them: a crash left those.
    pub torn: usize,
}

// Whether it is a request.
fn is_asked(entry: &Entry) -> bool
    ensures { result ≡ is_request entry.now }
{
    matches!(entry, Entry::Request { .. })
}

// How many of these are requests.
fn requests_in(entries: &[Entry]) -> usize
    ensures { result ≡ count_by is_request entries.now }
{
    let mut requests = 0;
    for entry in entries {
        if is_asked(entry) {
            requests += 1;
        }
    }
    requests
}

/// What is in the log that a file holds. Changes nothing. Refused where it doesn't begin as a log, where a record is damaged that was
/// synced, or tells no entry, and with `Memory`. Linear in the file, and takes a sum for each byte that is torn.
pub fn summary_of(alloc: Global, file: &[u8]) -> Result<Summary, LogError>
    ensures ok { IfOk result (IsSummaryOf file.now) }
    ensures refused { IfErr result (CantLook file.now) }
{
    let head = read_head(alloc, file)?;
    let bytes = behind(file, &head);
    let (entries, records) = read_log(alloc, head.secret, bytes)?;
    let requests = requests_in(&entries);
    Ok(Summary {
        topology: head.topology,
        requests,
        collections: entries.len() - requests,
        records,
        torn: bytes.len() - records,
    })
}

// The last two lines that tell it.
fn counts_of(alloc: Global, summary: &Summary) -> Result<String, AllocError>
    ensures { IfOk result (λ text. string_bytes text ≡ counts_text summary.now) }
{
    let (requests, collections) = (summary.requests, summary.collections);
    let (records, torn) = (summary.records, summary.torn);
    format!(in alloc;
        "{requests} requests, {collections} collections\n{records} bytes of records, and {torn} torn bytes behind them\n"
    )
}

// The line before them, of a store that is shown so.
fn store_line(alloc: Global, store: &str) -> Result<String, AllocError>
    ensures { IfOk result (λ text. string_bytes text ≡ codes "the log of " ++ store.now ++ codes "\n") }
{
    format!(in alloc; "the log of {store}\n")
}

/// The lines that tell it.
pub(crate) fn text_of_summary(alloc: Global, summary: &Summary) -> Result<String, AllocError>
    ensures { IfOk result (λ text. (names : List ℕ) × (string_bytes text ≡ summary_text summary.now names)) }
{
    let store = shown(alloc, &summary.topology)?;
    let mut text = store_line(alloc, store.as_str())?;
    text.push_str(counts_of(alloc, summary)?.as_str())?;
    Ok(text)
}
