//! The program, where the sites of all data centres run the script.
ghost use Rattle.std.specs.Prelude.{◌≡◌, ◌⊎◌, [], IsSome, IfOk, IfErr};
ghost use Rattle.workload.specs.Audited.{told_text};
ghost use Rattle.workload.specs.declared.tail.Tail.TheVariants.{Nothing};
ghost use Rattle.workload.specs.Performing.{Prints, Ends, TellsUnread};
ghost use Rattle.by_sites.specs.Performing.{IsSitesTextFor, IsSitesRefused};

use crate::running::run_by_sites;
use logical_time::Fault;
use program::{Buffered, Input, Line, Output, tell};
use std::alloc::Global;
use std::fmt::Display;
use std::io::Read;
use std::{mem, str};
use workload::{Tail, Transcript, explain, read_script, write_transcript};

/// The transcript of what the sites of all data centres make of the script that the bytes spell, for a program that ends with it: the
/// memory of the script is given back with that of the process. Refused with `Script` where they spell none, and as `run_by_sites` is.
pub fn transcript_by_sites(alloc: Global, input: &[u8]) -> Result<Transcript, Fault>
    ensures text { IfOk result (λ transcript. IsSitesTextFor input.now (told_text transcript Nothing)) }
    ensures refused { IfErr result (IsSitesRefused input.now) }
{
    let Ok(text) = str::from_utf8(input) else {
        return Err(Fault::Script);
    };
    let script = read_script(alloc, text)?;
    let transcript = run_by_sites(alloc, &script)?;
    mem::forget(script);
    Ok(transcript)
}

// What people need to know of a fault of such a run.
fn why(alloc: Global, input: &[u8], fault: Fault) -> Option<String> {
    let said = match fault {
        Fault::Script => return explain(alloc, input, fault),
        Fault::ClockSpent => "no time is left for the clock",
        Fault::JournalFull => "more follows from an event than is done for one",
        Fault::Oversize => "an envelope is longer than a parcel may be",
        Fault::StrangerEnd => "what was done is no run of the script",
        _ => return None,
    };
    String::from_str(alloc, said).ok()
}

// What is said of the input or the output of this name.
fn line<D: Display + Drop>(alloc: Global, name: &str, said: Option<D>) -> Option<Line> {
    let said = said?;
    Line::new(format!(in alloc; "{name}: {said}").ok()?)
}

/// Reads a script, has the sites of all data centres run it, and writes what came of it, as `perform_by_threads` of `running` does where
/// threads run it. Gives the status of the program: 0 where all is written and the writer holds nothing back, or 1 after a fault was told:
/// `ReadFailed` where the input failed, as `transcript_by_sites` is refused, `Memory`, or `WriteFailed` where the output failed. Only
/// after the last may something be written, a beginning of the text.
pub fn perform_by_sites<R: Read, W: Buffered, E: Buffered>(
    alloc: Global,
    input: &mut Input<R>,
    output: &mut Output<W>,
    errors: &mut Output<E>,
) -> u8
    ensures status { (result ≡ 0) ⊎ (result ≡ 1) }
    ensures printed { result ≡ 0 → Prints IsSitesTextFor IsSitesRefused R.remaining W.contents E.contents input.old output.old output.new errors.old errors.new }
    ensures passed_on { result ≡ 0 → W.held output.new.writer ≡ [] }
    ensures unread { IsSome input.old.failure → TellsUnread E.contents result errors.old errors.new }
    ensures ended { result ≡ 1 → Ends IsSitesTextFor IsSitesRefused R.remaining W.contents E.contents input.old input.new output.old output.new errors.old errors.new }
{
    let bytes = match input.read_all(alloc) {
        Ok(bytes) => bytes,
        Err(fault) => {
            let more = line(alloc, input.name.as_str(), input.failure);
            return tell(errors, fault, more);
        }
    };
    let transcript = match transcript_by_sites(alloc, &bytes) {
        Ok(transcript) => transcript,
        Err(fault) => {
            let more = line(alloc, input.name.as_str(), why(alloc, &bytes, fault));
            return tell(errors, fault, more);
        }
    };
    let written = write_transcript(output, &transcript, Tail::Nothing);
    mem::forget(transcript);
    match written {
        Ok(()) => 0,
        Err(fault) => tell(errors, fault, line(alloc, "the output", output.failure)),
    }
}
