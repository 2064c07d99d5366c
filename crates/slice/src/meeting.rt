//! Ranges of names that meet what a read of a row looked at.
ghost use Rattle.std.specs.Prelude.{◌≡◌, ◌&&◌, ℕ, List, true};
ghost use Rattle.std.specs.List.{list_any};
ghost use Rattle.slice.specs.Slice as slice;
ghost use Rattle.slice.specs.Live.{in_name_order};
ghost use Rattle.slice.specs.Meeting as meeting;

use crate::column::Column;
use crate::predicate::Predicate;
use column_family::Name;
use std::collections::BTreeSet;
use std::ops::Bound;

impl Predicate {
    ghost use Rattle.std.specs.Prelude.{IsTrue, ◌↔◌};
    ghost use Rattle.slice.specs.Meeting.{meets, asks_between, SomeAsked};
    ghost use Rattle.slice.specs.Rests.{SomeLookedAt};

    /// Whether a read that returned these columns of a row looked at some column between the two ends, be it there or
    /// not: whether one of its names lies between them, or its range meets them, where it returned as many columns as
    /// its count up to the last of them.
    #[tactic(auto, using(crate::proofs::Ranges::meets_exactly))]
    pub fn meets(&self, columns: &[Column], low: &Name, high: &Name) -> bool
        ensures exact { result ≡ meets self.now columns.now low.now high.now }
        ensures some { IsTrue result ↔ SomeLookedAt self.now columns.now low.now high.now }
    {
        do_meet(self, columns, low, high)
    }

    /// Whether the predicate asks for some column between the two ends, be it there or not, whatever its count is.
    #[tactic(auto, using(crate::proofs::Ranges::asks_exactly))]
    pub fn asks_between(&self, low: &Name, high: &Name) -> bool
        ensures exact { result ≡ asks_between self.now low.now high.now }
        ensures some { IsTrue result ↔ SomeAsked self.now low.now high.now }
    {
        do_ask(self, low, high)
    }
}

// Whether a read that returned these columns came between the two ends.
fn do_meet(predicate: &Predicate, columns: &[Column], low: &Name, high: &Name) -> bool
    ensures { result ≡ meeting.meets predicate.now columns.now low.now high.now }
{
    match predicate {
        Predicate::Names(names) => any_between(names.as_slice(), low, high),
        Predicate::Range {
            start,
            finish,
            reversed,
            count,
        } => {
            let least = later_low(low_end(start, finish, *reversed), low);
            let greatest = earlier_high(high_end(start, finish, *reversed), high);
            if columns.len() < *count as usize {
                has_names(least, greatest)
            } else {
                comes_to_last(*reversed, least, greatest, columns)
            }
        }
    }
}

// Whether a predicate asks for some column between the two ends.
fn do_ask(predicate: &Predicate, low: &Name, high: &Name) -> bool
    ensures { result ≡ meeting.asks_between predicate.now low.now high.now }
{
    match predicate {
        Predicate::Names(names) => any_between(names.as_slice(), low, high),
        Predicate::Range {
            start,
            finish,
            reversed,
            ..
        } => has_names(
            later_low(low_end(start, finish, *reversed), low),
            earlier_high(high_end(start, finish, *reversed), high),
        ),
    }
}

/// Whether a name of a set lies between the two ends: what `meets` and `asks_between` ask of a list of names, for where many
/// ranges are asked about one list, whose set is made once (`set_of`). Takes `log n` steps for `n` names.
pub fn has_name_between(names: &BTreeSet<Name>, low: &Name, high: &Name) -> bool
    ensures exact { result ≡ list_any (λ n. slice.is_between low.now high.now n) names.now.keys }
    ensures listed { (listed : List (List ℕ)) → names.now.keys ≡ in_name_order listed → result ≡ list_any (λ n. slice.is_between low.now high.now n) listed }
{
    find_between(names, low, high)
}

// The same, for its laws.
#[tactic(auto, using(crate::proofs::SetBetween::open_between, crate::proofs::SetBetween::closed_between))]
fn find_between(names: &BTreeSet<Name>, low: &Name, high: &Name) -> bool
    ensures { result ≡ list_any (λ n. slice.is_between low.now high.now n) names.now.keys }
{
    if is_open(high) {
        return has_name_from(names, low);
    }
    if low <= high {
        return has_name_within(names, low, high);
    }
    false
}

// Whether a name of a set isn't below an end.
fn has_name_from(names: &BTreeSet<Name>, low: &Name) -> bool
    ensures { result ≡ list_any (λ n. slice.name_le low.now n) names.now.keys }
{
    names
        .range((Bound::Included(low), Bound::Unbounded))
        .next()
        .is_some()
}

// Whether a name of a set lies between two ends that aren't open.
fn has_name_within(names: &BTreeSet<Name>, low: &Name, high: &Name) -> bool
    requires { slice.name_le low.now high.now ≡ true }
    ensures { result ≡ list_any (λ n. slice.name_le low.now n && slice.name_le n high.now) names.now.keys }
{
    names
        .range((Bound::Included(low), Bound::Included(high)))
        .next()
        .is_some()
}

// Whether one of the names lies between the two ends.
fn any_between(names: &[Name], low: &Name, high: &Name) -> bool
    ensures { result ≡ list_any (λ n. slice.is_between low.now high.now n) names.now }
{
    names.iter().any(|name| name.is_between(low, high))
}

// The lower end of a walk.
fn low_end<'n>(start: &'n Name, finish: &'n Name, reversed: bool) -> &'n Name
    ensures { result.now ≡ meeting.low_end start.now finish.now reversed }
{
    if reversed { finish } else { start }
}

// The upper end of a walk.
fn high_end<'n>(start: &'n Name, finish: &'n Name, reversed: bool) -> &'n Name
    ensures { result.now ≡ meeting.high_end start.now finish.now reversed }
{
    if reversed { start } else { finish }
}

// The greater of two lower ends: an open one is the least.
fn later_low<'n>(a: &'n Name, b: &'n Name) -> &'n Name
    ensures { result.now ≡ meeting.later_low a.now b.now }
{
    if a <= b { b } else { a }
}

// Whether an end is open.
fn is_open(end: &Name) -> bool
    ensures { result ≡ slice.is_open end.now }
{
    end.as_slice().is_empty()
}

// The lesser of two upper ends: an open one is the greatest.
fn earlier_high<'n>(a: &'n Name, b: &'n Name) -> &'n Name
    ensures { result.now ≡ meeting.earlier_high a.now b.now }
{
    if is_open(a) {
        b
    } else if is_open(b) || a <= b {
        a
    } else {
        b
    }
}

// Whether some name lies between two ends.
fn has_names(low: &Name, high: &Name) -> bool
    ensures { result ≡ meeting.has_names low.now high.now }
{
    is_open(high) || low <= high
}

// Whether some name between two ends had been come to by the last column of a walk.
fn comes_to(reversed: bool, low: &Name, high: &Name, name: &Name) -> bool
    ensures { result ≡ meeting.comes_to reversed low.now high.now name.now }
{
    if reversed {
        has_names(later_low(low, name), high)
    } else {
        has_names(low, high) && low <= name
    }
}

// The same of a walk that returned these columns.
fn comes_to_last(reversed: bool, low: &Name, high: &Name, columns: &[Column]) -> bool
    ensures { result ≡ meeting.comes_to_last reversed low.now high.now columns.now }
{
    match columns.last() {
        None => false,
        Some(last) => comes_to(reversed, low, high, &last.name),
    }
}
