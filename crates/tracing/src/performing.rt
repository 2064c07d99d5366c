//! The trace of a script, over any reader and writers.
ghost use Rattle.std.specs.Prelude.{◌≡◌, ◌⊎◌, [], IsSome, IfOk, IfErr, OnOk, OnErr};
ghost use Rattle.workload.specs.Performing.{IsTextFor, IsRefused, Prints, Ends, TellsUnread};
ghost use Rattle.tracing.specs.Traced.{IsTraceFor};
ghost use Rattle.tracing.specs.Tracing.{HasCut, TellsLines, TellsPart};

use crate::playing::{Traced, trace};
use crate::telling::write_trace;
use logical_time::Fault;
use program::{Buffered, Input, Line, Output, tell};
use std::alloc::Global;
use std::fmt::Display;
use std::io::Read;
use std::mem;
use workload::{Script, explain, read_script};

// The run of the script that the bytes spell. Refused as `sim` of `workload` is.
fn trace_bytes(alloc: Global, input: &[u8]) -> Result<(Script, Traced), Fault>
    ensures text { IfOk result (λ run. IsTextFor input.now run.1.text.items) }
    ensures refused { IfErr result (IsRefused input.now) }
{
    let Ok(text) = simdutf8::compat::from_utf8(input) else {
        return Err(Fault::Script);
    };
    let script = read_script(alloc, text)?;
    let traced = trace(alloc, &script)?;
    Ok((script, traced))
}

// What is said of the input or the output of this name.
fn line<D: Display + Drop>(alloc: Global, name: &str, said: Option<D>) -> Option<Line> {
    let said = said?;
    Line::new(format!(in alloc; "{name}: {said}").ok()?)
}

// Writes the trace. What is left of the run is given back with the memory of the process.
fn write_all<W: Buffered>(
    output: &mut Output<W>,
    script: Script,
    mut traced: Traced,
) -> Result<(), Fault>
    ensures told { OnOk result (TellsLines W.contents output.old output.new traced.text.items) }
    ensures passed_on { OnOk result (W.held output.new.writer ≡ []) }
    ensures part { OnErr result (TellsPart W.contents output.old output.new traced.text.items) }
    ensures failed { IfErr result (HasCut output.new) }
{
    let written = write_trace(output, &script, &mut traced);
    mem::forget(script);
    traced.leave();
    written
}

/// Runs a script in a world, and writes the trace of its run, for a program that ends with it: reads all that the input has left,
/// writes the trace piece by piece and without memory, and passes it on; the memory of the run is given back with that of the process.
/// The lines that `sim` of `workload` tells of the script stand in the trace, in order.
/// Gives the status of the program: 0 where all is written and the writer holds nothing back, or 1 after a fault was told:
/// `ReadFailed` where the input failed, as `sim` of `workload` is refused, `Memory`, or `WriteFailed` where the output failed. Only
/// after the last may something be written, a beginning of the trace.
pub fn perform_trace<R: Read, W: Buffered, E: Buffered>(
    alloc: Global,
    input: &mut Input<R>,
    output: &mut Output<W>,
    errors: &mut Output<E>,
) -> u8
    ensures status { (result ≡ 0) ⊎ (result ≡ 1) }
    // each line of the transcript stands in what is written, in order
    ensures printed { result ≡ 0 → Prints IsTraceFor IsRefused R.remaining W.contents E.contents input.old output.old output.new errors.old errors.new }
    ensures passed_on { result ≡ 0 → W.held output.new.writer ≡ [] }
    ensures unread { IsSome input.old.failure → TellsUnread E.contents result errors.old errors.new }
    ensures ended { result ≡ 1 → Ends IsTraceFor IsRefused R.remaining W.contents E.contents input.old input.new output.old output.new errors.old errors.new }
{
    let bytes = match input.read_all(alloc) {
        Ok(bytes) => bytes,
        Err(fault) => {
            let more = line(alloc, input.name.as_str(), input.failure);
            return tell(errors, fault, more);
        }
    };
    let (script, traced) = match trace_bytes(alloc, &bytes) {
        Ok(told) => told,
        Err(fault) => {
            let more = line(alloc, input.name.as_str(), explain(alloc, &bytes, fault));
            return tell(errors, fault, more);
        }
    };
    match write_all(output, script, traced) {
        Ok(()) => 0,
        Err(fault) => tell(errors, fault, line(alloc, "the output", output.failure)),
    }
}
