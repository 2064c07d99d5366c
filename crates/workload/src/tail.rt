//! What stands after a transcript: what an audit found.
ghost use Rattle.std.specs.Prelude.{◌≡◌, ◌≤◌, ◌++◌, IsNone, length, take};
ghost use Rattle.program.specs.Outputs.{Adds};
ghost use Rattle.workload.specs.Audited.{quiet_text, found_text, tail_text, status_for, status_of as status_by};

use crate::text::lay_number;
use audit::Audit;
use logical_time::Fault;
use program::Output;
use std::io::Write;

/// How many bytes the line of an audit has at most.
const LINE: usize = 113;

/// What stands after a transcript.
#[derive(Clone, Copy)]
pub enum Tail {
    /// Nothing: no audit was asked for.
    Nothing,
    /// What an audit found.
    Audited(Audit),
    /// Whether the run is quiet, and what an audit found in it.
    AuditedRun {
        /// Whether each message that was sent is handled.
        quiet: bool,
        /// What the audit found.
        found: Audit,
    },
}

// The line that tells whether a run is quiet.
fn quiet_line(quiet: bool) -> &'static str
    ensures { result.now ≡ quiet_text quiet }
{
    if quiet { "quiet yes\n" } else { "quiet no\n" }
}

// Lays `audit reads R wrong W`, and the end of the line: how many bytes it has.
fn lay_found(text: &mut [u8], found: Audit) -> usize
    requires { 113 ≤ length text.old }
    ensures laid { take result text.new ≡ found_text found }
    ensures most { result ≤ length text.new }
{
    let middle = lay_number(text, b"audit reads ", found.reads);
    let end = middle + lay_number(&mut text[middle..], b" wrong ", found.wrong);
    text[end] = b'\n';
    end + 1
}

// Writes the line of an audit.
fn put_found<W: Write>(output: &mut Output<W>, found: Audit) -> Result<(), Fault>
    ensures { Adds W.contents output.old output.new result (found_text found) }
{
    let mut text = [0; LINE];
    let end = lay_found(&mut text, found);
    output.put(&text[..end])
}

// Writes the line that tells whether a run is quiet, and that of an audit.
fn put_both<W: Write>(output: &mut Output<W>, quiet: bool, found: Audit) -> Result<(), Fault>
    ensures { Adds W.contents output.old output.new result (quiet_text quiet ++ found_text found) }
{
    output.put(quiet_line(quiet).as_bytes())?;
    put_found(output, found)
}

/// Writes what stands after a transcript: `quiet yes` or `quiet no`, where that is told, and `audit reads R wrong W`, with decimal
/// numbers.
pub(crate) fn put_tail<W: Write>(output: &mut Output<W>, tail: Tail) -> Result<(), Fault>
    requires { IsNone output.old.failure }
    ensures { Adds W.contents output.old output.new result (tail_text tail) }
{
    match tail {
        Tail::Nothing => Ok(()),
        Tail::Audited(found) => put_found(output, found),
        Tail::AuditedRun { quiet, found } => put_both(output, quiet, found),
    }
}

// The exit status after an audit.
fn status_after(found: Audit) -> u8
    ensures { result ≡ status_for found.wrong }
{
    if found.wrong == 0 { 0 } else { 3 }
}

/// The exit status of a program that wrote it: 3 where an audit found a wrong read, and else 0.
pub fn status_of(tail: Tail) -> u8
    ensures { result ≡ status_by tail }
{
    match tail {
        Tail::Nothing => 0,
        Tail::Audited(found) => status_after(found),
        Tail::AuditedRun { quiet: _, found } => status_after(found),
    }
}
