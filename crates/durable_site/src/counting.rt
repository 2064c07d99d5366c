//! How many envelopes came from each data centre.
ghost use Rattle.std.specs.Prelude.{◌≡◌, count_by, IfOk, IfErr};
ghost use Rattle.logical_time.specs.declared.fault.Fault.TheVariants.{Memory};
ghost use Rattle.site_ledger.specs.Steps.{steps_told};
ghost use Rattle.durable_site.specs.Heard.{heard_from_each as heard_from_all, tells_of_one};

use logical_time::Fault;
use site_ledger::Entry;
use std::alloc::Global;

// Whether an entry tells that an envelope came from the site of this data centre.
fn is_from(entry: &Entry, dc: u16) -> bool
    ensures { result ≡ tells_of_one dc entry.now }
{
    matches!(entry, Entry::Came { from, .. } if *from == dc)
}

// How many envelopes came from the site of this data centre, as entries tell.
fn heard_from(entries: &[Entry], dc: u16) -> u64
    ensures { result ≡ count_by (tells_of_one dc) entries.now }
{
    entries.iter().filter(|entry| is_from(entry, dc)).count() as u64
}

/// How many envelopes came from the site of each data centre, by its number, as entries tell. Refused with `Memory` alone. Looks at the
/// entries once for each.
pub(crate) fn heard_from_each(alloc: Global, entries: &[Entry], dcs: u16) -> Result<Vec<u64>, Fault>
    ensures counts { IfOk result (λ counts. counts.items ≡ heard_from_all dcs (steps_told entries.now)) }
    ensures memory { IfErr result (λ e. e ≡ Memory) }
{
    let mut counts = Vec::new(alloc);
    for dc in 0..dcs {
        counts.push(heard_from(entries, dc))?;
    }
    Ok(counts)
}
