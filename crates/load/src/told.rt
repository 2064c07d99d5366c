//! What is told of a load.
ghost use Rattle.std.specs.Prelude.{◌≡◌, ◌≤◌, ◌++◌, codes, string_bytes, IfOk, OnOk};
ghost use Rattle.std.specs.List.{sum};
ghost use Rattle.load.specs.Percentiles.{most};
ghost use Rattle.load.specs.Told.{a_second, IsLine, line_text, refusal_text, refusals_text, asked_text, unanswered_text, IsReport};

use crate::histogram::Histogram;
use std::alloc::{AllocError, Global};

/// What came of a load.
#[derive(Drop)]
pub struct Report {
    /// How many requests were made.
    pub asked: u64,
    /// How many microseconds it was until the last reply came.
    pub time: u64,
    /// How long answered reads took.
    pub reads: Histogram,
    /// How long answered writes took.
    pub writes: Histogram,
    /// How long both took.
    pub together: Histogram,
    /// How many requests were refused with each number, from 0 on.
    pub refused: Vec<u64>,
    /// How many requests had no reply.
    pub unanswered: u64,
    /// On how many connections.
    pub silent: u64,
    /// How many connections ended before the load was over.
    pub ended: u64,
}

// Within how many microseconds half were answered, 99 of a hundred, and 999 of a thousand.
#[derive(Clone, Copy)]
struct Times {
    half: u64,
    most: u64,
    nearly_all: u64,
}

// How many there are in a second.
fn a_second(count: u64, time: u64) -> u64
    requires { count ≤ most }
    ensures { result ≡ a_second count time }
{
    count * 1_000_000 / time.max(1)
}

// The line with these figures.
fn line_with(
    alloc: Global,
    name: &str,
    count: u64,
    rate: u64,
    times: Times,
) -> Result<String, AllocError>
    ensures { IfOk result (λ text. string_bytes text ≡ line_text name.now count rate times.half times.most times.nearly_all) }
{
    let Times {
        half,
        most,
        nearly_all,
    } = times;
    format!(in alloc;
        "{name} {count}, {rate} a second, 50 % {half} us, 99 % {most} us, 99.9 % {nearly_all} us\n"
    )
}

// The line where there is nothing to tell.
fn empty_line(alloc: Global, name: &str) -> Result<String, AllocError>
    ensures { IfOk result (λ text. string_bytes text ≡ name.now ++ codes " 0\n") }
{
    format!(in alloc; "{name} 0\n")
}

// The line of those that are counted in buckets, and came in so many microseconds.
fn line_of(alloc: Global, name: &str, counted: &Histogram, time: u64) -> Result<String, AllocError>
    ensures { IfOk result (λ text. IsLine name.now counted.now time (string_bytes text)) }
{
    let (Some(half), Some(most), Some(nearly_all)) = (
        counted.percentile(500),
        counted.percentile(990),
        counted.percentile(999),
    ) else {
        return empty_line(alloc, name);
    };
    let times = Times {
        half,
        most,
        nearly_all,
    };
    let count = counted.total();
    line_with(alloc, name, count, a_second(count, time), times)
}

// The line of a refusal, where any were.
fn refusal_line(alloc: Global, number: usize, count: u64) -> Result<String, AllocError>
    ensures { IfOk result (λ text. string_bytes text ≡ refusal_text number count) }
{
    if count == 0 {
        return Ok(String::new(alloc));
    }
    format!(in alloc; "refused {number}: {count}\n")
}

// The lines of refusals.
fn refusal_lines(alloc: Global, counts: &[u64]) -> Result<String, AllocError>
    ensures { IfOk result (λ text. string_bytes text ≡ refusals_text 0 counts.now) }
{
    let mut text = String::new(alloc);
    for number in 0..counts.len() {
        let line = refusal_line(alloc, number, counts[number])?;
        text.push_str(line.as_str())?;
    }
    Ok(text)
}

// The first line.
fn asked_line(alloc: Global, report: &Report) -> Result<String, AllocError>
    ensures { IfOk result (λ text. string_bytes text ≡ asked_text report.now) }
{
    let (asked, millis) = (report.asked, report.time / 1000);
    format!(in alloc; "asked {asked} in {millis} ms\n")
}

// The last line.
fn unanswered_line(alloc: Global, report: &Report) -> Result<String, AllocError>
    ensures { IfOk result (λ text. string_bytes text ≡ unanswered_text report.now) }
{
    let (unanswered, silent, ended) = (report.unanswered, report.silent, report.ended);
    format!(in alloc; "unanswered {unanswered} on {silent} connections, {ended} ended\n")
}

// The lines one after the other.
fn joined(
    first: String,
    reads: &str,
    writes: &str,
    together: &str,
    refusals: &str,
    last: &str,
) -> Result<String, AllocError>
    ensures { IfOk result (λ text. string_bytes text ≡ string_bytes first ++ reads.now ++ writes.now ++ together.now ++ refusals.now ++ last.now) }
{
    let mut text = first;
    text.push_str(reads)?;
    text.push_str(writes)?;
    text.push_str(together)?;
    text.push_str(refusals)?;
    text.push_str(last)?;
    Ok(text)
}

impl Report {
    /// Its lines. Fails by memory alone.
    pub fn text(&self, alloc: Global) -> Result<String, AllocError>
        ensures { IfOk result (λ text. IsReport self.now (string_bytes text)) }
    {
        let reads = line_of(alloc, "reads", &self.reads, self.time)?;
        let writes = line_of(alloc, "writes", &self.writes, self.time)?;
        let together = line_of(alloc, "together", &self.together, self.time)?;
        let refusals = refusal_lines(alloc, &self.refused)?;
        let first = asked_line(alloc, self)?;
        let last = unanswered_line(alloc, self)?;
        let text = joined(
            first,
            reads.as_str(),
            writes.as_str(),
            together.as_str(),
            refusals.as_str(),
            last.as_str(),
        )?;
        Ok(text)
    }
}
