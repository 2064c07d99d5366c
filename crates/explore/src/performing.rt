//! The exploration of a file, over any reader and writers.
ghost use Rattle.std.specs.Prelude.{◌≡◌, ◌⊎◌, [], IsSome};
ghost use Rattle.workload.specs.Performing.{Prints, Ends, TellsUnread};
ghost use Rattle.explore.specs.Exploration.{IsExplorationFor, IsUnexplored};

use crate::exploring::explore_bytes;
use crate::limits::Limits;
use logical_time::Fault;
use program::{Buffered, Input, Line, Output, tell};
use std::alloc::Global;
use std::fmt::Display;
use std::io::{Read, Write};
use std::thread::Threads;
use workload::explain;

// What is said of the input or the output of this name.
fn line<D: Display + Drop>(alloc: Global, name: &str, said: Option<D>) -> Option<Line> {
    let said = said?;
    Line::new(format!(in alloc; "{name}: {said}").ok()?)
}

// What people need to know of a fault of these bytes, if more can be said.
fn why(alloc: Global, input: &[u8], fault: Fault) -> Option<String> {
    match fault {
        Fault::Script => explain(alloc, input, fault),
        Fault::ClockSpent => String::from_str(alloc, "no time is left for the clock").ok(),
        Fault::StrangerEnd => {
            String::from_str(alloc, "what was followed is no run of the script").ok()
        }
        _ => None,
    }
}

/// Explores a script for a program that ends with it: reads all that the input has left, follows each order in which
/// the script's messages can come, within the limits, writes what is told of it, and passes it on: how many runs and
/// transcripts there are, how many states and events were followed, what the audits of all ends found, where it gave
/// up, if it did, and each transcript with an order of the script of which `sim` of `workload` writes it. The script's
/// own deliveries and drains are left out; a session submits its operations in order, each once the one before has
/// ended; a shard collects in the order of the script, each time once the operations that stand before it are
/// submitted. How far the search came is told to `progress` after each half a million events. Gives the status of the
/// program: 0 where all is written and the writer holds nothing back, or 1 after a fault was told: `ReadFailed` where
/// the input failed, `Script` where it spells no script, `ClockSpent` where a clock would leave its range in some
/// order, `Memory`, `StrangerEnd` where a run that was found is no order of the script, which should never be seen, or
/// `WriteFailed` where the output failed. Only after the last may something be written, a beginning of the text. Costs,
/// for each state and each event that may follow it, a few steps for each actor and message under way, and for each
/// journal that an actor can have a run of all events before it. Each printed order is read back.
pub fn perform_exploration<T: Threads + Sync, R: Read, W: Buffered, E: Buffered, P: Write>(
    rt: &T,
    alloc: Global,
    limits: Limits,
    input: &mut Input<R>,
    output: &mut Output<W>,
    errors: &mut Output<E>,
    progress: &mut Output<P>,
) -> u8
    ensures status { (result ≡ 0) ⊎ (result ≡ 1) }
    ensures printed { result ≡ 0 → Prints (IsExplorationFor limits.lose) IsUnexplored R.remaining W.contents E.contents input.old output.old output.new errors.old errors.new }
    ensures passed_on { result ≡ 0 → W.held output.new.writer ≡ [] }
    ensures unread { IsSome input.old.failure → TellsUnread E.contents result errors.old errors.new }
    ensures ended { result ≡ 1 → Ends (IsExplorationFor limits.lose) IsUnexplored R.remaining W.contents E.contents input.old input.new output.old output.new errors.old errors.new }
{
    let bytes = match input.read_all(alloc) {
        Ok(bytes) => bytes,
        Err(fault) => {
            let more = line(alloc, input.name.as_str(), input.failure);
            return tell(errors, fault, more);
        }
    };
    let text = match explore_bytes(rt, alloc, limits, &bytes, progress) {
        Ok(text) => text,
        Err(fault) => {
            let more = line(alloc, input.name.as_str(), why(alloc, &bytes, fault));
            return tell(errors, fault, more);
        }
    };
    match output.write_all(text.as_slice()) {
        Ok(()) => 0,
        Err(fault) => tell(errors, fault, line(alloc, "the output", output.failure)),
    }
}
