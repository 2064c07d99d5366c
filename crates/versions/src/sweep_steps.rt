//! The steps of a walk over rising names.
ghost use Rattle.std.specs.Prelude.{◌≡◌, ◌≤◌, ◌<◌, ℕ, List, [], length, Contains, slice_index_or, IfOk, IfErr, MatchOption, MatchResult, false};
ghost use Rattle.std.specs.Ordering.{nat_cmp};
ghost use Rattle.std.specs.Cmp.Lexicographic.{slice_cmp};
ghost use Rattle.std.specs.List.Sorted.{IsPermutation, IsSortedBy};
ghost use Rattle.std.specs.BinaryHeap.{IsHeap, IsUpperBound, heap_items};
ghost use Rattle.versions.specs.declared.range.RangeDeletion.{RangeDeletion};
ghost use Rattle.versions.specs.Sweeps as sweeps;
ghost use Rattle.versions.specs.Sweeps.{AreAll, AreByStart, AreSeen, IsAtEnd, IsOnWay, is_before, start_at};

use crate::range::RangeDeletion;
use column_family::Name;
use logical_time::{Fault, Time};
use std::alloc::{AllocError, Global};
use std::cmp::Ordering;
use std::collections::BinaryHeap;

// Whether the name isn't before the first of the range deletion.
fn is_come_to(range: &RangeDeletion, name: &Name) -> bool
    ensures { result ≡ sweeps.is_come_to name.now range.now }
{
    range.start.as_slice().is_empty() || &range.start <= name
}

// Whether the name is behind the last of the range deletion.
fn is_left(range: &RangeDeletion, name: &Name) -> bool
    ensures { result ≡ sweeps.is_left name.now range.now }
{
    !(range.finish.as_slice().is_empty() || name <= &range.finish)
}

// Whether the name isn't before the first of the range deletion at an index.
fn is_index_come_to(ranges: &[RangeDeletion], i: usize, name: &Name) -> bool
    requires { i < length ranges.now }
    ensures { (d : RangeDeletion) → result ≡ sweeps.is_come_to name.now (slice_index_or ranges.now i d) }
{
    is_come_to(&ranges[i], name)
}

// Whether the name is behind the last of the range deletion at an index.
fn is_index_left(ranges: &[RangeDeletion], i: usize, name: &Name) -> bool
    requires { i < length ranges.now }
    ensures { (d : RangeDeletion) → result ≡ sweeps.is_left name.now (slice_index_or ranges.now i d) }
{
    is_left(&ranges[i], name)
}

// The first name of the range deletion at an index.
fn start_of<'a>(ranges: &'a [RangeDeletion], i: usize) -> &'a [u8]
    ensures { result.now ≡ start_at ranges.now i }
{
    match ranges.get(i) {
        Some(range) => range.start.as_slice(),
        None => &[],
    }
}

// How the range deletions at two indices begin.
fn compared(ranges: &[RangeDeletion], a: usize, b: usize) -> Ordering
    ensures { result ≡ slice_cmp nat_cmp (start_at ranges.now a) (start_at ranges.now b) }
{
    start_of(ranges, a).cmp(start_of(ranges, b))
}

// The indices of those that are seen by the time.
#[tactic(auto, using(crate::proofs::SweepSteps::seen_none, crate::proofs::SweepSteps::all_none, crate::proofs::SweepSteps::seen_pushed, crate::proofs::SweepSteps::all_pushed, crate::proofs::SweepSteps::all_passed))]
fn seen_of(alloc: Global, ranges: &[RangeDeletion], time: Time) -> Result<Vec<usize>, AllocError>
    ensures seen { IfOk result (λ seen. AreSeen ranges.now time seen.items) }
    ensures all { IfOk result (λ seen. AreAll ranges.now time (length ranges.now) seen.items) }
{
    let mut seen = Vec::new(alloc);
    let mut i = 0;
    while i < ranges.len() {
        if ranges[i].evt <= time {
            seen.push(i)?;
        }
        i += 1;
    }
    Ok(seen)
}

// Orders indices by the first names of their range deletions.
fn sort_by_start(ahead: &mut Vec<usize>, ranges: &[RangeDeletion])
    ensures same { IsPermutation ahead.old.items ahead.new.items }
    ensures sorted { IsSortedBy (is_before ranges.now) ahead.new.items }
{
    ahead.sort_unstable_by(|a, b| compared(ranges, *a, *b));
}

/// The indices of those that are seen by the time, by their first names.
#[tactic(auto, using(crate::proofs::SweepSteps::seen_permuted, crate::proofs::SweepSteps::all_permuted, crate::proofs::SweepOrder::by_start))]
pub(crate) fn seen_by_start(
    alloc: Global,
    ranges: &[RangeDeletion],
    time: Time,
) -> Result<Vec<usize>, Fault>
    ensures seen { IfOk result (λ ahead. AreSeen ranges.now time ahead.items) }
    ensures all { IfOk result (λ ahead. AreAll ranges.now time (length ranges.now) ahead.items) }
    ensures by_start { IfOk result (λ ahead. AreByStart ranges.now ahead.items) }
    ensures memory { IfErr result (λ e. e ≡ Fault.Memory) }
{
    let mut ahead = seen_of(alloc, ranges, time)?;
    sort_by_start(&mut ahead, ranges);
    Ok(ahead)
}

/// Comes to those ahead before which the name isn't. Gives how many were come to, as an error where memory was refused.
pub(crate) fn come_to(
    ranges: &[RangeDeletion],
    ahead: &[usize],
    next: usize,
    reached: &mut BinaryHeap<usize>,
    name: &Name,
) -> Result<usize, usize>
    requires inside { (i : ℕ) → Contains ahead.now i → i < length ranges.now }
    ensures way { (t : ℕ) → AreSeen ranges.now t ahead.now → IsOnWay ranges.now t ahead.now next (heap_items reached.old) name.now → MatchResult result (λ n. IsOnWay ranges.now t ahead.now n (heap_items reached.new) name.now) (λ n. IsOnWay ranges.now t ahead.now n (heap_items reached.new) name.now) }
    ensures end { AreByStart ranges.now ahead.now → IfOk result (λ n. IsAtEnd ranges.now ahead.now n name.now) }
{
    let mut next = next;
    while next < ahead.len() {
        let index = ahead[next];
        if !is_index_come_to(ranges, index, name) {
            return Ok(next);
        }
        match reached.push(index) {
            Ok(()) => next += 1,
            Err(_refused) => return Err(next),
        }
    }
    Ok(next)
}

/// Leaves those that the name is behind, and gives the newest of the others.
pub(crate) fn newest_reached(
    ranges: &[RangeDeletion],
    reached: &mut BinaryHeap<usize>,
    name: &Name,
) -> Option<usize>
    requires inside { (i : ℕ) → Contains (heap_items reached.old) i → i < length ranges.now }
    requires heap { IsHeap nat_cmp (heap_items reached.old) }
    ensures way { (t next : ℕ) (ahead : List ℕ) → IsOnWay ranges.now t ahead next (heap_items reached.old) name.now → IsOnWay ranges.now t ahead next (heap_items reached.new) name.now }
    ensures newest { MatchOption result (heap_items reached.new ≡ []) (λ i. Contains (heap_items reached.new) i × ((d : RangeDeletion) → sweeps.is_left name.now (slice_index_or ranges.now i d) ≡ false) × IsUpperBound nat_cmp i (heap_items reached.new)) }
{
    loop {
        let newest = match reached.peek() {
            Some(newest) => *newest,
            None => return None,
        };
        if !is_index_left(ranges, newest, name) {
            return Some(newest);
        }
        reached.pop();
    }
}
