//! The bytes that threads make of a script, and why there are none. One session waits for one shard, so not even their times
//! depend on the schedule.
use crate::showing::{print, text_of};
use logical_time::Fault;
use program::{Input, Output};
use running::{Workers, perform_by_threads};
use std::alloc::Global;
use std::sync::Wait;
use std::thread::Threads;
use std::{fs, io};

/// The script.
const FILE: &str = "insert_and_read_back.json";

/// Bytes of which nothing is run.
const FAULTS: [&[u8]; 4] = [
    b"",
    b"{\"dcs\":1,\"shards\":1,\"families\":[\"f\"],\"homes\":[0],\"events\":[[\"submit\",2,{\"batch\":[]}]]}",
    b"{\"dcs\":1,\"shards\":1,\"families\":[\"f\"],\"homes\":[0],\"events\":[[\"drain\"],[\"later\"]]}",
    b"{\"dcs\":\"\xff\"}",
];

/// What two workers write and tell of what was opened, after the status, audited where that is asked for.
fn made<R: Threads + Wait + Sync>(
    threads: &R,
    alloc: Global,
    audit: bool,
    opened: io::Result<&[u8]>,
) -> Result<(u8, Vec<u8>, Vec<u8>), Fault> {
    let workers = Workers::new(2).ok_or(Fault::Script)?;
    let mut input = Input::new(String::from_str(alloc, FILE)?, opened);
    let mut output = Output::new(Vec::new(alloc));
    let mut errors = Output::new(Vec::new(alloc));
    let status = perform_by_threads(
        threads,
        alloc,
        &workers,
        audit,
        &mut input,
        &mut output,
        &mut errors,
    );
    Ok((status, output.writer, errors.writer))
}

/// Tells what is written and told of what was opened.
fn tell_made<R: Threads + Wait + Sync>(
    rt: &HostRuntime,
    threads: &R,
    audit: bool,
    opened: io::Result<&[u8]>,
) -> Result<(), Fault> {
    let (status, output, errors) = made(threads, rt.alloc(), audit, opened)?;
    let (output, errors) = (text_of(&output), text_of(&errors));
    print!(rt; "status {status}\n{output}{errors}").map_err(|_| Fault::WriteFailed)
}

pub(crate) fn tell<R: Threads + Wait + Sync>(rt: &HostRuntime, threads: &R) -> Result<(), Fault> {
    let Ok(script) = fs::read(rt, FILE) else {
        return Err(Fault::ReadFailed);
    };
    print(rt, "threads_insert_and_read_back")?;
    tell_made(rt, threads, false, Ok(&script))?;
    print(rt, "threads_insert_and_read_back, audited")?;
    tell_made(rt, threads, true, Ok(&script))?;
    print(rt, "threads_run_nothing")?;
    for bytes in FAULTS {
        tell_made(rt, threads, false, Ok(bytes))?;
    }
    let missing = io::Error::from(io::ErrorKind::NotFound);
    tell_made(rt, threads, false, Err(missing))
}
