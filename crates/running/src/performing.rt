//! The program, where threads run the script.
ghost use Rattle.std.specs.Prelude.{◌≡◌, ◌⊎◌, [], IsSome, IfOk, IfErr};
ghost use Rattle.workload.specs.Audited.{told_text, status_of as status_by};
ghost use Rattle.workload.specs.Performing.{Prints, Ends, TellsUnread};
ghost use Rattle.running.specs.Performing.{IsThreadTextFor, IsThreadRefused};

use crate::crew::Crew;
use crate::scripts::told_by;
use logical_time::Fault;
use program::{Buffered, Input, Line, Output, tell};
use std::alloc::Global;
use std::fmt::Display;
use std::io::Read;
use std::sync::Wait;
use std::thread::Threads;
use std::{mem, str};
use workload::{Tail, Transcript, explain, read_script, status_of, write_transcript};

/// The transcript of what threads make of the script that the bytes spell, and what an audit of that finds, where it is asked for,
/// for a program that ends with it: the memory of the script and, without an audit, of what the seats recorded is given back with
/// that of the process. Waits for locks. Refused with `Script` where they spell none, and as `run` is.
pub fn transcript_by_threads<T: Threads + Wait + Sync, C: Crew>(
    rt: &T,
    alloc: Global,
    crew: &C,
    audit: bool,
    input: &[u8],
) -> Result<(Transcript, Tail), Fault>
    ensures text { IfOk result (λ r. IsThreadTextFor audit input.now (told_text r.0 r.1)) }
    // no read is answered wrong
    ensures right { IfOk result (λ r. status_by r.1 ≡ 0) }
    ensures refused { IfErr result (IsThreadRefused C.brings input.now) }
{
    let Ok(text) = str::from_utf8(input) else {
        return Err(Fault::Script);
    };
    let script = read_script(alloc, text)?;
    let told = told_by(rt, alloc, &script, crew, audit)?;
    mem::forget(script);
    Ok(told)
}

// What people need to know of a fault of such a run.
fn why(alloc: Global, input: &[u8], fault: Fault) -> Option<String> {
    let said = match fault {
        Fault::Script => return explain(alloc, input, fault),
        Fault::ClockSpent => "no time is left for the clock",
        Fault::JournalFull => "the journal of an actor is full",
        Fault::StrangerEnd => "what was done is no run of the script",
        _ => return None,
    };
    String::from_str(alloc, said).ok()
}

// What is said of the input or the output of this name.
fn line<D: Display + Drop>(alloc: Global, name: &str, said: Option<D>) -> Option<Line> {
    let said = said?;
    Line::new(format!(in alloc; "{name}: {said}").ok()?)
}

/// Reads a script, has a crew run it, and writes what came of it, and what an audit of that finds, where it is asked for, as `perform`
/// of `workload` does for a run in a world; waits for locks. Gives the status of the program: that of the audit, where all is written
/// and the writer holds nothing back, which is 0, since no read of a run is answered wrong; or 1 after a fault was told:
/// `ReadFailed` where the input failed, as `transcript_by_threads` is refused, `Memory`, or `WriteFailed` where the output failed.
/// Only after the last may something be written, a beginning of the text.
pub fn perform_by_threads<T: Threads + Wait + Sync, C: Crew, R: Read, W: Buffered, E: Buffered>(
    rt: &T,
    alloc: Global,
    crew: &C,
    audit: bool,
    input: &mut Input<R>,
    output: &mut Output<W>,
    errors: &mut Output<E>,
) -> u8
    ensures status { (result ≡ 0) ⊎ (result ≡ 1) }
    ensures printed { result ≡ 0 → Prints (IsThreadTextFor audit) (IsThreadRefused C.brings) R.remaining W.contents E.contents input.old output.old output.new errors.old errors.new }
    ensures passed_on { result ≡ 0 → W.held output.new.writer ≡ [] }
    ensures unread { IsSome input.old.failure → TellsUnread E.contents result errors.old errors.new }
    ensures ended { result ≡ 1 → Ends (IsThreadTextFor audit) (IsThreadRefused C.brings) R.remaining W.contents E.contents input.old input.new output.old output.new errors.old errors.new }
{
    let bytes = match input.read_all(alloc) {
        Ok(bytes) => bytes,
        Err(fault) => {
            let more = line(alloc, input.name.as_str(), input.failure);
            return tell(errors, fault, more);
        }
    };
    let (transcript, tail) = match transcript_by_threads(rt, alloc, crew, audit, &bytes) {
        Ok(told) => told,
        Err(fault) => {
            let more = line(alloc, input.name.as_str(), why(alloc, &bytes, fault));
            return tell(errors, fault, more);
        }
    };
    let written = write_transcript(output, &transcript, tail);
    mem::forget(transcript);
    match written {
        Ok(()) => status_of(tail),
        Err(fault) => tell(errors, fault, line(alloc, "the output", output.failure)),
    }
}
