//! The program, over any reader and writers.
ghost use Rattle.std.specs.Prelude.{◌≡◌, ◌⊎◌, [], IsSome, IfOk, IfErr};
ghost use Rattle.workload.specs.Audited.{told_text, status_of as status_by, IsToldFor};
ghost use Rattle.workload.specs.Performing.{IsTextFor, IsRefused, Prints, Ends, TellsUnread};
ghost use Rattle.workload.specs.Text.{text_of};

use crate::along::run_along;
use crate::auditing::sim_audited;
use crate::explaining;
use crate::reading::read_script;
use crate::script::{Script, ScriptEvent};
use crate::simulating::{happen, simulate_to_the_end};
use crate::tail::{Tail, status_of};
use crate::text::write_transcript;
use crate::transcript::Transcript;
use logical_time::Fault;
use program::{Buffered, Input, Line, Output, tell};
use serde_json::Value as Json;
use std::alloc::Global;
use std::fmt::Display;
use std::io::Read;
use std::thread::Threads;
use std::{mem, str};
use world::World;

/// The transcript of the script that the bytes spell, for a program that ends with it: the memory of the script and of what
/// its world recorded is given back with that of the process. Refused with `Script` where they spell none, or where a message
/// that was not sent is to be delivered, with `ClockSpent`, and with `Memory`.
pub fn sim(alloc: Global, input: &[u8]) -> Result<Transcript, Fault>
    ensures text { IfOk result (λ transcript. IsTextFor input.now (text_of transcript)) }
    ensures refused { IfErr result (IsRefused input.now) }
{
    let Ok(text) = simdutf8::compat::from_utf8(input) else {
        return Err(Fault::Script);
    };
    if let Some(transcript) = run_along(alloc, text) {
        return Ok(transcript);
    }
    let script = read_script(alloc, text)?;
    let transcript = simulate_to_the_end(alloc, &script)?;
    mem::forget(script);
    Ok(transcript)
}

// What the program makes of its input: a transcript, and what stands after it where an audit is asked for.
fn told_of(
    rt: &(impl Threads + Sync),
    alloc: Global,
    audit: bool,
    input: &[u8],
) -> Result<(Transcript, Tail), Fault>
    ensures text { IfOk result (λ r. IsToldFor audit input.now (told_text r.0 r.1)) }
    ensures right { IfOk result (λ r. status_by r.1 ≡ 0) }
    ensures refused { IfErr result (IsRefused input.now) }
{
    if audit {
        let (transcript, quiet, found) = sim_audited(rt, alloc, input)?;
        Ok((transcript, Tail::AuditedRun { quiet, found }))
    } else {
        Ok((sim(alloc, input)?, Tail::Nothing))
    }
}

// Why an event ends the script.
fn why(alloc: Global, event: &ScriptEvent, fault: Fault) -> Option<String> {
    match (event, fault) {
        (ScriptEvent::Deliver { number }, Fault::Script) => {
            format!(in alloc; "message {number} wasn't sent yet").ok()
        }
        (_, Fault::ClockSpent) => String::from_str(alloc, "no time is left for the clock").ok(),
        _ => None,
    }
}

// Which event ends the script, and why: its events happen once more.
fn explain_end(alloc: Global, script: &Script) -> Option<String> {
    let mut world = World::new(alloc, &script.topology).ok()?;
    let mut found = None;
    for (place, event) in script.events.as_slice().iter().enumerate() {
        if let Err(fault) = happen(&mut world, event) {
            found = why(alloc, event, fault).map(|why: String| (place, why));
            break;
        }
    }
    world.close();
    let (place, why) = found?;
    format!(in alloc; "events[{place}]: {why}").ok()
}

/// What people need to know of a fault of these bytes as a script, if more can be said.
pub fn explain(alloc: Global, input: &[u8], fault: Fault) -> Option<String> {
    if fault == Fault::Memory {
        return None;
    }
    let text = match str::from_utf8(input) {
        Ok(text) => text,
        Err(error) => {
            let byte = error.valid_up_to();
            return format!(in alloc; "not UTF-8 at byte {byte}").ok();
        }
    };
    match Json::from_str(alloc, text) {
        Err(error) => explaining::explain_text(alloc, &error),
        Ok(json) => match read_script(alloc, text) {
            Ok(script) => explain_end(alloc, &script),
            Err(_) => explaining::explain(alloc, &json),
        },
    }
}

// What is said of the input or the output of this name.
fn line<D: Display + Drop>(alloc: Global, name: &str, said: Option<D>) -> Option<Line> {
    let said = said?;
    Line::new(format!(in alloc; "{name}: {said}").ok()?)
}

/// Runs a script in a world, and audits the run where that is asked for, for a program that ends with it: reads all that the input
/// has left, writes the text of the transcript, and then of the audit, piece by piece and without memory, and passes it on; the
/// transcript's own is given back with that of the process. Gives the status of the program: that of the audit, where all is written
/// and the writer holds nothing back, which is 0, since no read of a run is answered wrong; or 1 after a fault was told:
/// `ReadFailed` where the input failed, as `sim` is refused, `Memory`, or `WriteFailed` where the output failed. Only after the last
/// may something be written, a beginning of the text.
pub fn perform<T: Threads + Sync, R: Read, W: Buffered, E: Buffered>(
    rt: &T,
    alloc: Global,
    audit: bool,
    input: &mut Input<R>,
    output: &mut Output<W>,
    errors: &mut Output<E>,
) -> u8
    ensures status { (result ≡ 0) ⊎ (result ≡ 1) }
    ensures printed { result ≡ 0 → Prints (IsToldFor audit) IsRefused R.remaining W.contents E.contents input.old output.old output.new errors.old errors.new }
    ensures passed_on { result ≡ 0 → W.held output.new.writer ≡ [] }
    ensures unread { IsSome input.old.failure → TellsUnread E.contents result errors.old errors.new }
    ensures ended { result ≡ 1 → Ends (IsToldFor audit) IsRefused R.remaining W.contents E.contents input.old input.new output.old output.new errors.old errors.new }
{
    let bytes = match input.read_all(alloc) {
        Ok(bytes) => bytes,
        Err(fault) => {
            let more = line(alloc, input.name.as_str(), input.failure);
            return tell(errors, fault, more);
        }
    };
    let (transcript, tail) = match told_of(rt, alloc, audit, &bytes) {
        Ok(told) => told,
        Err(fault) => {
            let more = line(alloc, input.name.as_str(), explain(alloc, &bytes, fault));
            return tell(errors, fault, more);
        }
    };
    let written = write_transcript(output, &transcript, tail);
    mem::forget(transcript);
    match written {
        Ok(()) => status_of(tail),
        Err(fault) => tell(errors, fault, line(alloc, "the output", output.failure)),
    }
}
