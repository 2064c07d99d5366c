//! Traces of scripts.
use crate::showing::text_of;
use program::{Input, Output};
use std::alloc::{AllocError, Global};
use std::{fs, io};
use tracing::perform_trace;

/// The names of the scripts with a trace.
const SCRIPTS: [&str; 6] = [
    "dependency_holds_back",
    "lost_and_repeated",
    "range_deletion",
    "read_asks_coordinator",
    "session_moves",
    "two_shard_write",
];

/// The name of what is read.
const NAME: &str = "script.json";
/// How it is told that it is no script, or ends early.
const NO_SCRIPT: &str = "eiger: fault 35 Script\n";

/// A trace of what was opened: its status, what it writes, and what is told of faults.
fn trace(alloc: Global, script: &[u8]) -> Result<(u8, Vec<u8>, Vec<u8>), AllocError> {
    let mut input = Input::new(String::from_str(alloc, NAME)?, Ok(script));
    let mut output = Output::new(Vec::new(alloc));
    let mut errors = Output::new(Vec::new(alloc));
    let status = perform_trace(alloc, &mut input, &mut output, &mut errors);
    Ok((status, output.writer, errors.writer))
}

/// Tells whether the script of this name has its trace, and the other that it has.
fn tell_trace(rt: &HostRuntime, name: &str) -> io::Result<()> {
    let script = fs::read(rt, format!(in rt.alloc(); "{name}.json")?)?;
    let expected = fs::read(rt, format!(in rt.alloc(); "{name}.trace")?)?;
    let (status, out, errors) = trace(rt.alloc(), &script)?;
    if status == 0 && errors.is_empty() && out.as_slice() == expected.as_slice() {
        return println!(rt; "{name}, traced: as written");
    }
    let (out, errors) = (text_of(&out), text_of(&errors));
    println!(rt; "{name}, traced: {status}\n{out}{errors}")
}

/// Whether the trace of the script ends with the fault, and this is said of it, and nothing is written.
fn ends(alloc: Global, script: &str, said: &str) -> Result<bool, AllocError> {
    let (status, out, errors) = trace(alloc, script.as_bytes())?;
    let told = format!(in alloc; "{NO_SCRIPT}{NAME}: {said}\n")?;
    Ok(status == 1 && out.is_empty() && errors.as_slice() == told.as_bytes())
}

/// Tells how many lines of the file, each a script and what is said of it, end so. The others are told in full.
fn tell_lines(rt: &HostRuntime, file: &str) -> io::Result<()> {
    let text = fs::read_to_string(rt, file)?;
    let mut ended = 0u64;
    for line in text.lines() {
        let (script, said) = line.split_once(" => ").unwrap_or((line, ""));
        if ends(rt.alloc(), script, said)? {
            ended = ended.wrapping_add(1);
        } else {
            println!(rt; "{line}")?;
        }
    }
    println!(rt; "{file}, traced: {ended} as said")
}

pub(crate) fn tell(rt: &HostRuntime) -> io::Result<()> {
    for name in SCRIPTS {
        tell_trace(rt, name)?;
    }
    tell_lines(rt, "not_sent.txt")
}
