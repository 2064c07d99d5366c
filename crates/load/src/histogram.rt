//! How long requests took.
ghost use Rattle.std.specs.Prelude.{◌≡◌, ◌+◌, ◌*◌, ◌≤◌, ◌<◌, ℕ, length, replicate, IfOk, IfSome, IfNone, OnOk};
ghost use Rattle.std.specs.List.{sum};
ghost use Rattle.load.specs.Percentiles.{bucket_of, greatest_in, counted, most, IsPercentile};

use std::alloc::{AllocError, Global};
use std::marker::Model;

/// How many buckets there are.
const BUCKETS: usize = 29_801;

/// How many times are counted, at most.
pub(crate) const MOST: u64 = 1_000_000_000_000;

/// Times in microseconds, counted in buckets. However many there are it takes the same memory. Contracts see the counts.
#[derive(Drop)]
pub struct Histogram {
    counts: Vec<u64>,
    total: u64,
}

impl Model for Histogram {
    ghost use Rattle.std.specs.Prelude.{◌≡◌, ◌≤◌, ℕ, List, length};
    ghost use Rattle.std.specs.List.{sum};

    ghost Value = { List ℕ };

    ghost view = { λ h. h.counts.items };

    ghost invariant = { λ h. (length h.counts.items ≡ 29801) × (h.total ≡ sum h.counts.items) × (h.total ≤ 1000000000000) };
}

/// What is told of a time is at least that, below 100 s, and at most a hundredth above it. Does nothing; its contract is the law.
pub fn times_are_told_closely()
    ensures within { (time : ℕ) → bucket_of time < 29801 }
    ensures above { (time : ℕ) → time < 100000000 → time ≤ greatest_in (bucket_of time) }
    ensures close { (time : ℕ) → 100 * greatest_in (bucket_of time) ≤ 101 * time }
{}

/// So many zeros.
pub(crate) fn zeros(alloc: Global, count: usize) -> Result<Vec<u64>, AllocError>
    ensures { IfOk result (λ zeros. zeros.items ≡ replicate count 0) }
{
    let mut zeros = Vec::new(alloc);
    zeros.resize(count, 0)?;
    Ok(zeros)
}

// The bucket of a time.
fn bucket_of(time: u64) -> usize
    ensures { result ≡ bucket_of time }
{
    let bucket = match time {
        0..10_000 => time,
        10_000..1_000_000 => 10_000 + (time - 10_000) / 100,
        1_000_000..100_000_000 => 19_900 + (time - 1_000_000) / 10_000,
        _ => 29_800,
    };
    bucket as usize
}

// The greatest time of a bucket.
fn greatest_in(bucket: usize) -> u64
    ensures { result ≡ greatest_in bucket }
{
    match bucket as u64 {
        bucket @ 0..10_000 => bucket,
        bucket @ 10_000..19_900 => 10_000 + (bucket - 10_000) * 100 + 99,
        bucket @ 19_900..29_800 => 1_000_000 + (bucket - 19_900) * 10_000 + 9_999,
        _ => 100_000_000,
    }
}

#[tactic(auto, using(std::proofs::lemmas::List::Sums::sum_by_more, std::proofs::lemmas::List::Sums::sum_by_more_le))]
// The bucket in which a percentile in thousandths lies, where any time is counted.
fn percentile_in(counts: &[u64], total: u64, permille: u64) -> Option<usize>
    requires total { total ≡ sum counts.now }
    requires most { total ≤ most }
    requires low { 1 ≤ permille }
    requires high { permille ≤ 1000 }
    ensures some { IfSome result (λ bucket. IsPercentile permille counts.now bucket) }
    ensures none { IfNone result (sum counts.now ≡ 0) }
{
    if total == 0 {
        return None;
    }
    let mut reached = 0;
    for bucket in 0..counts.len() {
        reached += counts[bucket];
        if permille * total <= 1000 * reached {
            return Some(bucket);
        }
    }
    None
}

impl Histogram {
    /// No time is counted.
    pub fn new(alloc: Global) -> Result<Histogram, AllocError>
        ensures { IfOk result (λ h. h ≡ replicate 29801 0) }
    {
        Ok(Histogram {
            counts: zeros(alloc, BUCKETS)?,
            total: 0,
        })
    }

    /// Counts a time, in microseconds, unless a million millions are counted. Constant.
    pub fn count(&mut self, time: u64)
        ensures { self.new ≡ counted time self.old }
    {
        if self.total < MOST {
            let bucket = bucket_of(time);
            self.counts[bucket] += 1;
            self.total += 1;
        }
    }

    /// How many times are counted.
    pub fn total(&self) -> u64
        ensures total { result ≡ sum self.now }
        ensures most { result ≤ most }
    {
        self.total
    }

    /// The percentile in thousandths, 1 to 1,000, as the greatest time of the bucket in which it lies; none where no time is counted.
    /// Linear in the buckets.
    pub fn percentile(&self, permille: u64) -> Option<u64>
        requires low { 1 ≤ permille }
        requires high { permille ≤ 1000 }
        ensures some { IfSome result (λ time. (bucket : ℕ) × IsPercentile permille self.now bucket × (time ≡ greatest_in bucket)) }
        ensures none { IfNone result (sum self.now ≡ 0) }
    {
        let bucket = percentile_in(&self.counts, self.total, permille)?;
        Some(greatest_in(bucket))
    }
}
