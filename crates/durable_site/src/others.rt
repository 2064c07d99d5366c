//! What a log tells of the sites of other data centres.
ghost use Rattle.std.specs.Prelude.{◌≡◌, IfOk, IfErr};
ghost use Rattle.logical_time.specs.declared.fault.Fault.TheVariants.{Memory};
ghost use Rattle.site_ledger.specs.Steps.{steps_told};
ghost use Rattle.durable_site.specs.Heard.{heard_from_each as heard_from_all};
ghost use Rattle.durable_site.specs.Met as met;

use crate::counting::heard_from_each;
use logical_time::Fault;
use site_ledger::Entry;
use std::alloc::Global;

/// What a log tells of the sites of other data centres, of each by its number.
#[derive(Drop)]
pub struct Others {
    /// How many envelopes came from it.
    pub heard: Vec<u64>,
    /// Which process it was when it was last met; none where it wasn't.
    pub met: Vec<Option<[u8; 16]>>,
}

// The process of the site of this data centre, where an entry tells that it was met.
fn met_by(entry: &Entry, dc: u16) -> Option<[u8; 16]>
    ensures { result ≡ met.met_by dc entry.now }
{
    match entry {
        Entry::Met {
            dc: there,
            incarnation,
        } if *there == dc => Some(*incarnation),
        _ => None,
    }
}

// The process that the site of this data centre was when it was last met, as entries tell.
fn last_met(entries: &[Entry], dc: u16) -> Option<[u8; 16]>
    ensures { result ≡ met.last_met entries.now dc }
{
    let mut last = None;
    for entry in entries {
        last = met_by(entry, dc).or(last);
    }
    last
}

// The process that the site of each data centre was when it was last met, as entries tell. Refused with `Memory` alone. Looks at the
// entries once for each.
fn last_met_of_each(
    alloc: Global,
    entries: &[Entry],
    dcs: u16,
) -> Result<Vec<Option<[u8; 16]>>, Fault>
    ensures met { IfOk result (λ ms. ms.items ≡ met.last_met_of_each dcs entries.now) }
    ensures memory { IfErr result (λ e. e ≡ Memory) }
{
    let mut met = Vec::new(alloc);
    for dc in 0..dcs {
        met.push(last_met(entries, dc))?;
    }
    Ok(met)
}

/// What entries tell of the sites of so many data centres. Refused with `Memory` alone. Looks at the entries twice for each.
pub(crate) fn tell_of_others(alloc: Global, entries: &[Entry], dcs: u16) -> Result<Others, Fault>
    ensures heard { IfOk result (λ o. o.heard.items ≡ heard_from_all dcs (steps_told entries.now)) }
    ensures met { IfOk result (λ o. o.met.items ≡ met.last_met_of_each dcs entries.now) }
    ensures memory { IfErr result (λ e. e ≡ Memory) }
{
    Ok(Others {
        heard: heard_from_each(alloc, entries, dcs)?,
        met: last_met_of_each(alloc, entries, dcs)?,
    })
}
