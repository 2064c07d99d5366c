//! The entries that a node's log tells, and whose it is.
ghost use Rattle.std.specs.Prelude.{◌≡◌, ◌⊎◌, ℕ, IfOk, IfErr, IfSome, IfNone};
ghost use Rattle.logical_time.specs.declared.fault.Fault.TheVariants.{Memory};
ghost use Rattle.records.specs.Records.{recovered, view, views};
ghost use Rattle.durable.specs.Looked.{IsWholeAt};
ghost use Rattle.durable.specs.declared.error.OpenError.TheVariants.{Unread, Refused};
ghost use Rattle.site_ledger.specs.Entries.{IsTextOf, IsNumbered};
ghost use Rattle.durable_site.specs.Logged.{Tell};
ghost use Rattle.durable_site.specs.Stuck.{TellsNone};
ghost use Rattle.logfile.specs.Sites.{begun_by, IsBegunBy, IsUnreadable, CantReadSite};

use durable::OpenError;
use keeper::RecoveryError;
use logical_time::Fault;
use records::{Record, front, has_first, read_records};
use site_ledger::{Entry, read_entry, texts_are_of_one_entry};
use std::alloc::Global;

// Whose log begins with this entry, if one does.
fn whose(entry: &Entry) -> Option<u16>
    ensures { result ≡ begun_by entry.now }
{
    match entry {
        Entry::Whose { dc, .. } => Some(*dc),
        _ => None,
    }
}

/// The data centre whose node's log it is, by its first record; none where that doesn't say so. Refused with `Memory` alone.
pub(crate) fn site_of(alloc: Global, secret: u64, bytes: &[u8]) -> Result<Option<u16>, Fault>
    ensures some { IfOk result (λ r. IfSome r (IsBegunBy (recovered secret 0 0 bytes.now))) }
    ensures none { IfOk result (λ r. IfNone r ((dc : ℕ) → IsBegunBy (recovered secret 0 0 bytes.now) dc → ⊥)) }
    ensures only { IfErr result (λ e. e ≡ Memory) }
{
    let Some((_first, text)) = front(secret, 0, bytes) else {
        return Ok(None);
    };
    texts_are_of_one_entry();
    match read_entry(alloc, text)? {
        Some(entry) => Ok(whose(&entry)),
        None => Ok(None),
    }
}

// The entry that the record of this number tells. Refused with `Refused` for `Memory`, and with `Unread` where it tells none.
fn read_one(alloc: Global, written: &Record, number: usize) -> Result<Entry, OpenError>
    ensures tells { IfOk result (λ e. IsNumbered e × IsTextOf e written.now.body.items) }
    ensures refused { IfErr result (λ e. (e ≡ Refused Memory) ⊎ ((e ≡ Unread number) × TellsNone (view written.now))) }
{
    match read_entry(alloc, &written.body)? {
        Some(entry) => Ok(entry),
        None => Err(OpenError::Unread(number)),
    }
}

// What these records tell, one entry each. Refused with `Refused` for `Memory`, and with `Unread` where one tells none.
fn read_entries(alloc: Global, records: Vec<Record>) -> Result<Vec<Entry>, OpenError>
    ensures tell { IfOk result (λ es. Tell es.items (views records.items)) }
    ensures refused { IfErr result (IsUnreadable (views records.items)) }
{
    let mut entries = Vec::with_capacity(alloc, records.len())?;
    for record in records {
        let entry = read_one(alloc, &record, entries.len())?;
        entries.push(entry)?;
    }
    Ok(entries)
}

/// The entries that the bytes of a node's log tell, and where its records end. Changes nothing. Refused where a record is damaged that
/// was synced, or tells no entry, and with `Memory`. Linear in the bytes, and takes a sum for each byte that is torn.
pub(crate) fn read_site_log(
    alloc: Global,
    secret: u64,
    bytes: &[u8],
) -> Result<(Vec<Entry>, usize), OpenError>
    ensures tell { IfOk result (λ r. Tell r.0.items (recovered secret 0 0 bytes.now)) }
    ensures whole { IfOk result (λ r. IsWholeAt secret bytes.now r.1) }
    ensures refused { IfErr result (CantReadSite secret bytes.now) }
{
    let (records, end) = read_records(alloc, secret, bytes)?;
    if has_first(secret, end + 1, bytes) {
        return Err(OpenError::Unrecovered(RecoveryError::Damaged(end)));
    }
    let entries = read_entries(alloc, records)?;
    Ok((entries, end))
}
