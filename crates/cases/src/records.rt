//! Recorded histories, each with what an audit of it writes.
use crate::showing::text_of;
use program::{Input, Output};
use recorded::perform_audit;
use std::alloc::{AllocError, Global};
use std::{fs, io};

/// The name of what is read.
const NAME: &str = "history.json";

/// An audit of what is recorded: its status, what it writes, and what is told of faults.
fn audit(alloc: Global, record: &[u8]) -> Result<(u8, Vec<u8>, Vec<u8>), AllocError> {
    let mut input = Input::new(String::from_str(alloc, NAME)?, Ok(record));
    let mut output = Output::new(Vec::new(alloc));
    let mut errors = Output::new(Vec::new(alloc));
    let status = perform_audit(alloc, &mut input, &mut output, &mut errors);
    Ok((status, output.writer, errors.writer))
}

/// Tells what an audit of what is recorded under this name writes, and what is told of faults.
fn tell_record(rt: &HostRuntime, name: &str, record: &str) -> io::Result<()> {
    let (status, out, errors) = audit(rt.alloc(), record.as_bytes())?;
    let (out, errors) = (text_of(&out), text_of(&errors));
    print!(rt; "{name}: {status}\n{out}{errors}")
}

/// Tells it of the example, and of each line of a file, a name and what is recorded.
pub(crate) fn tell(rt: &HostRuntime) -> io::Result<()> {
    let example = fs::read_to_string(rt, "recorded.json")?;
    tell_record(rt, "recorded.json", example.as_str())?;
    let lines = fs::read_to_string(rt, "records.txt")?;
    for line in lines.lines() {
        let (name, record) = line.split_once(" => ").unwrap_or((line, ""));
        tell_record(rt, name, record)?;
    }
    Ok(())
}
