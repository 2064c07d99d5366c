//! The entries that records tell.
ghost use Rattle.std.specs.Prelude.{◌≡◌, ◌⊎◌, IfOk, IfErr};
ghost use Rattle.logical_time.specs.declared.fault.Fault.TheVariants.{Memory};
ghost use Rattle.records.specs.Records.{view, views};
ghost use Rattle.site_ledger.specs.Entries.{IsTextOf, IsNumbered};
ghost use Rattle.durable_site.specs.Logged.{Tell};
ghost use Rattle.durable_site.specs.Stuck.{TellsNone, IsUnreadable};
ghost use Rattle.durable_site.specs.declared.error.OpenError.TheVariants.{Unread, Refused};

use crate::error::OpenError;
use records::Record;
use site_ledger::{Entry, read_entry};
use std::alloc::Global;

// The entry that the record of this number tells. Refused with `Refused` for `Memory`, and with `Unread` where it tells none.
fn read_one(alloc: Global, written: &Record, number: usize) -> Result<Entry, OpenError>
    ensures tells { IfOk result (λ e. IsNumbered e × IsTextOf e written.now.body.items) }
    ensures refused { IfErr result (λ e. (e ≡ Refused Memory) ⊎ ((e ≡ Unread number) × TellsNone (view written.now))) }
{
    match read_entry(alloc, &written.body)? {
        Some(entry) => Ok(entry),
        None => Err(OpenError::Unread(number)),
    }
}

/// What these records tell, one entry each. Refused with `Refused` for `Memory`, and with `Unread` where one tells none. Linear in
/// their texts.
pub(crate) fn read_entries(alloc: Global, records: Vec<Record>) -> Result<Vec<Entry>, OpenError>
    ensures tell { IfOk result (λ es. Tell es.items (views records.items)) }
    ensures refused { IfErr result (IsUnreadable (views records.items)) }
{
    let mut entries = Vec::with_capacity(alloc, records.len())?;
    for record in records {
        let entry = read_one(alloc, &record, entries.len())?;
        entries.push(entry)?;
    }
    Ok(entries)
}
