//! The recorded history of the run of a script, over any reader and writers.
ghost use Rattle.std.specs.Prelude.{◌≡◌, ◌⊎◌, [], IsSome, IfOk, IfErr, string_bytes};
ghost use Rattle.workload.specs.Performing.{Prints, Ends, TellsUnread};
ghost use Rattle.recorded.specs.Recording.{IsHistoryFor, IsUnrecorded};

use crate::performing::line;
use crate::recording::record_run;
use crate::writing::recorded_text;
use logical_time::Fault;
use program::{Buffered, Input, Output, tell};
use std::alloc::Global;
use std::io::Read;
use std::mem;
use workload::{explain, read_script};

// The text of the record of the run of the script that the bytes spell. Refused with `Script` where they spell none, where a
// message that was not sent is to be delivered, or where no text can hold the record, with `ClockSpent`, and with `Memory`.
fn history_text(alloc: Global, input: &[u8]) -> Result<String, Fault>
    ensures text { IfOk result (λ text. IsHistoryFor input.now (string_bytes text)) }
    ensures refused { IfErr result (IsUnrecorded input.now) }
{
    let Ok(text) = simdutf8::compat::from_utf8(input) else {
        return Err(Fault::Script);
    };
    let script = read_script(alloc, text)?;
    let recorded = record_run(alloc, &script)?;
    mem::forget(script);
    let written = recorded_text(alloc, &recorded)?;
    mem::forget(recorded);
    Ok(written)
}

/// Runs a script, and writes the record of its run in place of its transcript, for a program that ends with it: reads all that
/// the input has left, writes one JSON text without an end of line, and passes it on. Reading that text gives the history of each
/// data centre and the reads that the run answered, so that `perform_audit` of it tells whether one is wrong. Gives the status of
/// the program: 0 where all is written and the writer holds nothing back, or 1 after a fault was told: `ReadFailed` where the
/// input failed, as `sim` of `workload` is refused, `Script` where no text can hold the record, `Memory`, or `WriteFailed` where
/// the output failed. Only after the last may something be written, a beginning of the text.
pub fn perform_history<R: Read, W: Buffered, E: Buffered>(
    alloc: Global,
    input: &mut Input<R>,
    output: &mut Output<W>,
    errors: &mut Output<E>,
) -> u8
    ensures status { (result ≡ 0) ⊎ (result ≡ 1) }
    ensures printed { result ≡ 0 → Prints IsHistoryFor IsUnrecorded R.remaining W.contents E.contents input.old output.old output.new errors.old errors.new }
    ensures passed_on { result ≡ 0 → W.held output.new.writer ≡ [] }
    ensures unread { IsSome input.old.failure → TellsUnread E.contents result errors.old errors.new }
    ensures ended { result ≡ 1 → Ends IsHistoryFor IsUnrecorded R.remaining W.contents E.contents input.old input.new output.old output.new errors.old errors.new }
{
    let bytes = match input.read_all(alloc) {
        Ok(bytes) => bytes,
        Err(fault) => {
            let more = line(alloc, input.name.as_str(), input.failure);
            return tell(errors, fault, more);
        }
    };
    let text = match history_text(alloc, &bytes) {
        Ok(text) => text,
        Err(fault) => {
            let said = explain(alloc, &bytes, fault);
            let more = line(alloc, input.name.as_str(), said);
            return tell(errors, fault, more);
        }
    };
    match output.write_all(text.as_bytes()) {
        Ok(()) => 0,
        Err(fault) => tell(errors, fault, line(alloc, "the output", output.failure)),
    }
}
