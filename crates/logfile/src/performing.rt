//! A log is looked at, over any reader and writers.
ghost use Rattle.std.specs.Prelude.{◌≡◌, ◌⊎◌, [], IsSome, IfOk, IfErr, string_bytes};
ghost use Rattle.workload.specs.Performing.{Prints, Ends, TellsUnread};
ghost use Rattle.logfile.specs.Sites.{CantLookAtSite};
ghost use Rattle.logfile.specs.Told.{TellsServer, TellsNode, IsLookFor, IsLogTextFor, CantLook, IsUnseen, CantTell, IsUntold};

use crate::error::LogError;
use crate::histories::history_of_log;
use crate::reasons::{fault_of, log_reason};
use crate::site_summary::{site_in, site_summary_of, text_of_site};
use crate::summary::{summary_of, text_of_summary};
use logical_time::Fault;
use program::{Buffered, Input, Output, tell};
use recorded::line;
use std::alloc::Global;
use std::io::Read;

// What is in the log of a server that a file holds.
fn look_at_server(alloc: Global, file: &[u8]) -> Result<String, LogError>
    ensures text { IfOk result (λ text. TellsServer file.now (string_bytes text)) }
    ensures refused { IfErr result (CantLook file.now) }
{
    let summary = summary_of(alloc, file)?;
    let text = text_of_summary(alloc, &summary)?;
    Ok(text)
}

// What is in the log that a file holds, that of the node of this data centre.
fn look_at_node(alloc: Global, file: &[u8], dc: u16) -> Result<String, LogError>
    ensures text { IfOk result (λ text. TellsNode file.now dc (string_bytes text)) }
    ensures refused { IfErr result (CantLookAtSite file.now) }
{
    let summary = site_summary_of(alloc, file, dc)?;
    let text = text_of_site(alloc, &summary)?;
    Ok(text)
}

// What is in the log that a file holds, that of a server or of a node.
fn look(alloc: Global, file: &[u8]) -> Result<String, LogError>
    ensures text { IfOk result (λ text. IsLookFor file.now (string_bytes text)) }
    ensures refused { IfErr result (IsUnseen file.now) }
{
    match site_in(alloc, file)? {
        None => look_at_server(alloc, file),
        Some(dc) => look_at_node(alloc, file, dc),
    }
}

// What is told of the log that a file holds: what is in it, or its history.
fn text_of(alloc: Global, history: bool, file: &[u8]) -> Result<String, LogError>
    ensures text { IfOk result (λ text. IsLogTextFor history file.now (string_bytes text)) }
    ensures refused { IfErr result (CantTell history file.now) }
{
    if history {
        history_of_log(alloc, file)
    } else {
        look(alloc, file)
    }
}

// What people need to know of it, if more can be said.
fn explain(alloc: Global, why: &LogError) -> Option<String> {
    if fault_of(why) == Fault::Memory {
        return None;
    }
    log_reason(alloc, why).ok()
}

/// Looks at the log that a file holds, and changes nothing: reads all that the input has left, and writes what is in it, as the log of a
/// node where its first record says so; or, where that is asked for, the history of a server's, as `eiger audit` reads it. Gives the status of the program: 0 where all is written and the writer
/// holds nothing back, or 1 after a fault was told: `ReadFailed` where the input failed, is no log or is damaged, or its records lead to no
/// world, `Script` where no text can hold its history, `Memory`, or `WriteFailed` where the output failed. Only after
/// the last may something be written, a beginning of the text.
pub fn perform_log<R: Read, W: Buffered, E: Buffered>(
    alloc: Global,
    history: bool,
    input: &mut Input<R>,
    output: &mut Output<W>,
    errors: &mut Output<E>,
) -> u8
    ensures status { (result ≡ 0) ⊎ (result ≡ 1) }
    ensures printed { result ≡ 0 → Prints (IsLogTextFor history) (IsUntold history) R.remaining W.contents E.contents input.old output.old output.new errors.old errors.new }
    ensures passed_on { result ≡ 0 → W.held output.new.writer ≡ [] }
    ensures unread { IsSome input.old.failure → TellsUnread E.contents result errors.old errors.new }
    ensures ended { result ≡ 1 → Ends (IsLogTextFor history) (IsUntold history) R.remaining W.contents E.contents input.old input.new output.old output.new errors.old errors.new }
{
    let bytes = match input.read_all(alloc) {
        Ok(bytes) => bytes,
        Err(fault) => {
            let more = line(alloc, input.name.as_str(), input.failure);
            return tell(errors, fault, more);
        }
    };
    let text = match text_of(alloc, history, &bytes) {
        Ok(text) => text,
        Err(why) => {
            let more = line(alloc, input.name.as_str(), explain(alloc, &why));
            return tell(errors, fault_of(&why), more);
        }
    };
    match output.write_all(text.as_bytes()) {
        Ok(()) => 0,
        Err(fault) => tell(errors, fault, line(alloc, "the output", output.failure)),
    }
}
