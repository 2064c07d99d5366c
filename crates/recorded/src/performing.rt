//! The audit of a file, over any reader and writers.
ghost use Rattle.std.specs.Prelude.{◌≡◌, ◌⊎◌, [], IsSome, IfOk, IfErr};
ghost use Rattle.logical_time.specs.declared.fault.Fault.TheVariants as fault;
ghost use Rattle.workload.specs.Performing.{Prints, Ends, TellsUnread};
ghost use Rattle.recorded.specs.Report.{wrong_in};
ghost use Rattle.recorded.specs.Performing.{IsAudited, IsReport, IsGoodReport, IsBadReport, IsRefused};

use crate::reading::read_recorded;
use crate::recorded::Recorded;
use crate::report::write_report;
use audit::{Misread, misreads};
use logical_time::Fault;
use program::{Buffered, Input, Line, Output, tell};
use serde_json::{Error, Value as Json};
use std::alloc::Global;
use std::fmt::Display;
use std::io::Read;
use std::str;

/// The status of a program that found reads that are wrong.
const SOME_WRONG: u8 = 3;

/// What is kept of an audit.
#[derive(Drop)]
struct Audited {
    /// How many reads are recorded.
    reads: usize,
    /// Those that are wrong.
    wrong: Vec<Misread>,
}

/// The reads whose answer isn't the meaning of the read at its time on the history of its home, in order, each with its place
/// and with what the table has. Where two entries of a history have one stamp, the first counts as newer. In the order of
/// n log n for n changes and asked rows of the histories of a run, as `misreads` says. Refused with `Memory`
/// alone.
pub fn audit_recorded(alloc: Global, recorded: &Recorded) -> Result<Vec<Misread>, Fault>
    ensures wrong { IfOk result (λ wrong. wrong.items ≡ wrong_in recorded.now) }
    ensures memory { IfErr result (λ e. e ≡ fault.Memory) }
{
    misreads(alloc, recorded.histories(), recorded.reads())
}

// Audits what the bytes record. Refused with `Script` where they record nothing, and with `Memory`.
fn audit_bytes(alloc: Global, input: &[u8]) -> Result<Audited, Fault>
    ensures ok { IfOk result (IsAudited input.now) }
    ensures refused { IfErr result (IsRefused input.now) }
{
    let Ok(text) = simdutf8::compat::from_utf8(input) else {
        return Err(Fault::Script);
    };
    let recorded = read_recorded(alloc, text)?;
    let wrong = audit_recorded(alloc, &recorded)?;
    Ok(Audited {
        reads: recorded.reads().len(),
        wrong,
    })
}

// Where a text that is no JSON stops being some: a line and a byte in it, both counted from 1.
fn explain_text(alloc: Global, error: &Error) -> Option<String> {
    if error.is_memory() {
        return None;
    }
    // a text that ends too soon lacks the byte after its last one
    let past = if error.is_eof() { 1 } else { 0 };
    let (line, column) = (error.line(), error.column().saturating_add(past));
    format!(in alloc; "no JSON at line {line} column {column}").ok()
}

// What people need to know of a refusal of these bytes, if more can be said.
fn explain(alloc: Global, input: &[u8], fault: Fault) -> Option<String> {
    if fault == Fault::Memory {
        return None;
    }
    let text = match str::from_utf8(input) {
        Ok(text) => text,
        Err(error) => {
            let byte = error.valid_up_to();
            return format!(in alloc; "not UTF-8 at byte {byte}").ok();
        }
    };
    match Json::from_str(alloc, text) {
        Err(error) => explain_text(alloc, &error),
        Ok(_) => String::from_str(alloc, "no recorded histories").ok(),
    }
}

/// What is said of the input or the output of this name.
pub fn line<D: Display + Drop>(alloc: Global, name: &str, said: Option<D>) -> Option<Line> {
    let said = said?;
    Line::new(format!(in alloc; "{name}: {said}").ok()?)
}

/// Audits a file for a program that ends with it: reads all that the input has left, writes what is told of what it records,
/// piece by piece and without memory, and passes it on. Gives the status of the program: 0 where no read is wrong and all is
/// written, 3 where some is and all is written, or 1 after a fault was told: `ReadFailed` where the input failed, `Script`
/// where it records nothing, `Memory`, or `WriteFailed` where the output failed. Only after the last may something be written,
/// a beginning of the text.
pub fn perform_audit<R: Read, W: Buffered, E: Buffered>(
    alloc: Global,
    input: &mut Input<R>,
    output: &mut Output<W>,
    errors: &mut Output<E>,
) -> u8
    ensures status { (result ≡ 0) ⊎ ((result ≡ 1) ⊎ (result ≡ 3)) }
    ensures good { result ≡ 0 → Prints IsGoodReport IsRefused R.remaining W.contents E.contents input.old output.old output.new errors.old errors.new }
    ensures bad { result ≡ 3 → Prints IsBadReport IsRefused R.remaining W.contents E.contents input.old output.old output.new errors.old errors.new }
    ensures passed_on { ((result ≡ 0) ⊎ (result ≡ 3)) → W.held output.new.writer ≡ [] }
    ensures unread { IsSome input.old.failure → TellsUnread E.contents result errors.old errors.new }
    ensures ended { result ≡ 1 → Ends IsReport IsRefused R.remaining W.contents E.contents input.old input.new output.old output.new errors.old errors.new }
{
    let bytes = match input.read_all(alloc) {
        Ok(bytes) => bytes,
        Err(fault) => {
            let more = line(alloc, input.name.as_str(), input.failure);
            return tell(errors, fault, more);
        }
    };
    let audited = match audit_bytes(alloc, &bytes) {
        Ok(audited) => audited,
        Err(fault) => {
            let more = line(alloc, input.name.as_str(), explain(alloc, &bytes, fault));
            return tell(errors, fault, more);
        }
    };
    match write_report(output, audited.reads, audited.wrong.as_slice()) {
        Ok(()) if audited.wrong.is_empty() => 0,
        Ok(()) => SOME_WRONG,
        Err(fault) => tell(errors, fault, line(alloc, "the output", output.failure)),
    }
}
