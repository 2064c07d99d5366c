//! Explorations of small scripts, each with all that is told of it.
use crate::building::number;
use crate::showing::text_of;
use explore::{Limits, perform_exploration};
use program::{Input, Output};
use std::alloc::{AllocError, Global};
use std::thread::Threads;
use std::{fs, io};

/// The name of what is read.
const NAME: &str = "script.json";

/// The limits that these words ask for.
fn limits_of(words: &str) -> Limits {
    let mut limits = Limits {
        repeat: false,
        lose: false,
        events: 100,
        states: 1_000_000,
    };
    for word in words.split(' ') {
        match word.split_once('=') {
            Some(("events", most)) => limits.events = u32::try_from(number(most)).unwrap_or(0),
            Some(("states", most)) => limits.states = u32::try_from(number(most)).unwrap_or(0),
            Some(_) => (),
            None => {
                limits.repeat = limits.repeat || word == "repeat";
                limits.lose = limits.lose || word == "lose";
            }
        }
    }
    limits
}

/// An exploration: its status, what it writes, and what is told of faults.
fn explored<T: Threads + Sync>(
    threads: &T,
    alloc: Global,
    limits: Limits,
    script: &[u8],
) -> Result<(u8, Vec<u8>, Vec<u8>), AllocError> {
    let mut input = Input::new(String::from_str(alloc, NAME)?, Ok(script));
    let mut output = Output::new(Vec::new(alloc));
    let mut errors = Output::new(Vec::new(alloc));
    let mut progress = Output::new(Vec::new(alloc));
    let status = perform_exploration(
        threads,
        alloc,
        limits,
        &mut input,
        &mut output,
        &mut errors,
        &mut progress,
    );
    Ok((status, output.writer, errors.writer))
}

/// Tells it of each line of a file, words and a script.
pub(crate) fn tell<T: Threads + Sync>(rt: &HostRuntime, threads: &T) -> io::Result<()> {
    let lines = fs::read_to_string(rt, "explorations.txt")?;
    for line in lines.lines() {
        let (words, script) = line.split_once(" => ").unwrap_or((line, ""));
        let limits = limits_of(words);
        let (status, out, errors) = explored(threads, rt.alloc(), limits, script.as_bytes())?;
        let (out, errors) = (text_of(&out), text_of(&errors));
        print!(rt; "{words}: {status}\n{out}{errors}")?;
    }
    Ok(())
}
