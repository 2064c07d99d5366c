//! Names put in order.
ghost use Rattle.std.specs.Prelude.{◌≡◌, true, IfOk, IfErr};
ghost use Rattle.slice.specs.Live as live;
ghost use Rattle.slice.specs.Live.{ascend, in_name_order};

use column_family::Name;
use logical_time::Fault;
use std::alloc::Global;
use std::collections::BTreeSet;

/// The set of these names. Takes `n log n` steps. Refused with `Memory` alone.
#[tactic(auto, using(crate::proofs::NameOrder::put_among_none, crate::proofs::NameOrder::put_among_insert))]
pub fn set_of(alloc: Global, names: &[Name]) -> Result<BTreeSet<Name>, Fault>
    ensures ok { IfOk result (λ set. set.keys ≡ in_name_order names.now) }
    ensures memory { IfErr result (λ e. e ≡ Fault.Memory) }
{
    let mut set = BTreeSet::new(alloc);
    for name in names.iter().rev() {
        set.insert(name.clone()?)?;
    }
    Ok(set)
}

// Whether a name comes before the first of others.
fn comes_first(name: &Name, others: &[Name]) -> bool
    ensures { result ≡ live.comes_first name.now others.now }
{
    match others.first() {
        Some(other) => name < other,
        None => true,
    }
}

// Whether each name comes before the next.
fn do_ascend(names: &[Name]) -> bool
    ensures { result ≡ ascend names.now }
{
    let mut rest = names;
    while let Some((name, others)) = rest.split_first() {
        if !comes_first(name, others) {
            return false;
        }
        rest = others;
    }
    true
}

/// Whether the names stand in name order, each once, so that their set needn't be made. Linear.
#[tactic(auto, using(crate::proofs::NameOrder::ascending_in_order))]
pub fn are_in_order(names: &[Name]) -> bool
    ensures exact { result ≡ ascend names.now }
    ensures same { result ≡ true → in_name_order names.now ≡ names.now }
{
    do_ascend(names)
}
