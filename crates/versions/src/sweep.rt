//! A walk over names that finds the newest range deletion over each.
ghost use Rattle.std.specs.Prelude.{◌≡◌, ◌<◌, IfOk, IfErr, length, reverse, slice_index_or, true, false};
ghost use Rattle.std.specs.Option.{option_copied};
ghost use Rattle.std.specs.BinaryHeap.{heap_items};
ghost use Rattle.column_family.specs.Names.{name_le};
ghost use Rattle.versions.specs.declared.range.RangeDeletion.{RangeDeletion};
ghost use Rattle.versions.specs.Ranges.{over_of};
ghost use Rattle.versions.specs.Sweeps.{AreByStart, AreSeen, IsOnWay, name_of};

use crate::range::RangeDeletion;
use crate::range_places::newest_of_over;
use crate::sweep_steps::{come_to, newest_reached, seen_by_start};
use column_family::Name;
use logical_time::{Fault, Time};
use std::alloc::Global;
use std::collections::BinaryHeap;
use std::marker::Model;

/// A walk over names, with the range deletions of a row that are seen by a time. Names that rise cost little: of `n` names and
/// `k` range deletions the whole walk takes as many steps as `n + k`, each logarithmic in `k`.
#[derive(Drop)]
pub struct Sweep<'a> {
    // those that are held, the oldest first
    ranges: &'a [RangeDeletion],
    time: Time,
    // the indices of those that are seen, by their first names
    ahead: Vec<usize>,
    // how many of them the walk has come to
    next: usize,
    // those, without some that it has left
    reached: BinaryHeap<usize>,
    last: Option<&'a Name>,
}

impl<'a> Model for Sweep<'a> {
    ghost use Rattle.std.specs.Prelude.{reverse};
    ghost use Rattle.std.specs.Option.{option_copied};
    ghost use Rattle.std.specs.BinaryHeap.{heap_items};
    ghost use Rattle.versions.specs.Sweeps.{Swept, AreByStart, AreSeen, IsOnWay, name_of};

    ghost Value = { Swept };

    ghost view = { λ w. record { ranges = reverse w.ranges.now; time = w.time } };

    ghost invariant = { λ w. AreSeen w.ranges.now w.time w.ahead.items × AreByStart w.ranges.now w.ahead.items × IsOnWay w.ranges.now w.time w.ahead.items w.next (heap_items w.reached) (name_of (option_copied w.last)) };
}

impl<'a> Sweep<'a> {
    // A walk that has come to no name yet.
    pub(crate) fn new(
        alloc: Global,
        ranges: &'a [RangeDeletion],
        time: Time,
    ) -> Result<Sweep<'a>, Fault>
        ensures ok { IfOk result (λ sweep. sweep ≡ record { ranges = reverse ranges.now; time = time }) }
        ensures memory { IfErr result (λ e. e ≡ Fault.Memory) }
    {
        let ahead = seen_by_start(alloc, ranges, time)?;
        Ok(Sweep {
            ranges,
            time,
            ahead,
            next: 0,
            reached: BinaryHeap::new(alloc),
            last: None,
        })
    }

    /// The newest range deletion that is seen by the walk's time and has the name between its ends, as `Ranges::newest_over`
    /// tells. Logarithmic, but for those that the name is the first to come to or to leave; linear where the name stands before
    /// the last that was asked for, or where memory is refused.
    pub fn newest_over(&mut self, name: &'a Name) -> Option<&'a RangeDeletion>
        ensures exact { option_copied result ≡ over_of self.old.ranges name.now self.old.time }
        ensures same { self.new ≡ self.old }
    {
        if is_behind(self.last, name) {
            return newest_of_over(self.ranges, name, self.time);
        }
        self.last = Some(name);
        find(
            self.ranges,
            self.time,
            &self.ahead,
            &mut self.next,
            &mut self.reached,
            name,
        )
    }
}

// Whether the name stands before the last that was asked for.
#[tactic(auto, using(crate::proofs::SweepOrder::rising))]
fn is_behind(last: Option<&Name>, name: &Name) -> bool
    ensures { result ≡ false → name_le (name_of (option_copied last.entry)) name.now ≡ true }
{
    match last {
        Some(last) => name < last,
        None => false,
    }
}

// The range deletion at an index.
fn range_of(ranges: &[RangeDeletion], i: usize) -> &RangeDeletion
    requires { i < length ranges.now }
    ensures { (d : RangeDeletion) → result.now ≡ slice_index_or ranges.now i d }
{
    &ranges[i]
}

// The newest over a name to which the walk goes on.
fn find<'a>(
    ranges: &'a [RangeDeletion],
    time: Time,
    ahead: &[usize],
    next: &mut usize,
    reached: &mut BinaryHeap<usize>,
    name: &Name,
) -> Option<&'a RangeDeletion>
    requires seen { AreSeen ranges.now time ahead.now }
    requires by_start { AreByStart ranges.now ahead.now }
    requires way { IsOnWay ranges.now time ahead.now next.old (heap_items reached.old) name.now }
    ensures exact { option_copied result ≡ over_of (reverse ranges.now) name.now time }
    ensures way { IsOnWay ranges.now time ahead.now next.new (heap_items reached.new) name.now }
{
    match come_to(ranges, ahead, *next, reached, name) {
        Ok(count) => *next = count,
        Err(count) => {
            *next = count;
            return newest_of_over(ranges, name, time);
        }
    }
    match newest_reached(ranges, reached, name) {
        Some(i) => Some(range_of(ranges, i)),
        None => None,
    }
}
