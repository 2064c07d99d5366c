//! A predicate that is asked for many ranges.
ghost use Rattle.std.specs.Prelude.{◌≡◌, IfOk, IfErr, option_map};
ghost use Rattle.logical_time.specs.declared.fault.Fault.TheVariants as fault;
ghost use Rattle.slice.specs.Meeting as meeting;
ghost use Rattle.store.specs.Sweeping.{IsSetOf};

use column_family::Name;
use logical_time::Fault;
use slice::{Column, Predicate, has_name_between, set_of};
use std::alloc::Global;
use std::collections::BTreeSet;
use std::marker::Model;

/// A predicate that is asked for many ranges of names: of a list of names it has the set.
#[derive(Drop)]
pub(crate) struct Asked<'p> {
    predicate: &'p Predicate,
    // of a list of names
    names: Option<BTreeSet<Name>>,
}

impl<'p> Model for Asked<'p> {
    ghost use Rattle.std.specs.Prelude.{option_map};
    ghost use Rattle.slice.specs.declared.predicate.Predicate.{Predicate};
    ghost use Rattle.store.specs.Sweeping.{IsSetOf};

    ghost Value = { Predicate };

    ghost view = { λ a. a.predicate.now };

    ghost invariant = { λ a. IsSetOf (option_map (λ n. n.keys) a.names) a.predicate.now };
}

// The set of the names of a predicate that is a list of names.
fn names_of(alloc: Global, predicate: &Predicate) -> Result<Option<BTreeSet<Name>>, Fault>
    ensures ok { IfOk result (λ names. IsSetOf (option_map (λ n. n.keys) names) predicate.now) }
    ensures memory { IfErr result (λ e. e ≡ fault.Memory) }
{
    match predicate {
        Predicate::Names(names) => Ok(Some(set_of(alloc, names.as_slice())?)),
        Predicate::Range { .. } => Ok(None),
    }
}

// Whether a predicate, with the set of its names if it is a list of names, asks for some column between the two ends.
fn do_ask(predicate: &Predicate, names: Option<&BTreeSet<Name>>, low: &Name, high: &Name) -> bool
    requires { IsSetOf (option_map (λ n. n.now.keys) names) predicate.now }
    ensures { result ≡ meeting.asks_between predicate.now low.now high.now }
{
    match names {
        Some(names) => has_name_between(names, low, high),
        None => predicate.asks_between(low, high),
    }
}

// Whether a read by it that returned these columns looked at some column between the two ends.
fn do_meet(
    predicate: &Predicate,
    names: Option<&BTreeSet<Name>>,
    columns: &[Column],
    low: &Name,
    high: &Name,
) -> bool
    requires { IsSetOf (option_map (λ n. n.now.keys) names) predicate.now }
    ensures { result ≡ meeting.meets predicate.now columns.now low.now high.now }
{
    match names {
        Some(names) => has_name_between(names, low, high),
        None => predicate.meets(columns, low, high),
    }
}

impl<'p> Asked<'p> {
    ghost use Rattle.slice.specs.Meeting.{meets, asks_between};

    /// A predicate to be asked. Takes `n log n` steps for a list of `n` names. Refused with `Memory` alone.
    pub(crate) fn new(alloc: Global, predicate: &'p Predicate) -> Result<Asked<'p>, Fault>
        ensures ok { IfOk result (λ asked. asked ≡ predicate.now) }
        ensures memory { IfErr result (λ e. e ≡ fault.Memory) }
    {
        let names = names_of(alloc, predicate)?;
        Ok(Asked { predicate, names })
    }

    /// Whether the predicate asks for some column between the two ends. Logarithmic in its names.
    pub(crate) fn asks_between(&self, low: &Name, high: &Name) -> bool
        ensures { result ≡ asks_between self.now low.now high.now }
    {
        do_ask(self.predicate, self.names.as_ref(), low, high)
    }

    /// Whether a read that returned these columns looked at some column between the two ends. Logarithmic in the names.
    pub(crate) fn meets(&self, columns: &[Column], low: &Name, high: &Name) -> bool
        ensures { result ≡ meets self.now columns.now low.now high.now }
    {
        do_meet(self.predicate, self.names.as_ref(), columns, low, high)
    }
}
