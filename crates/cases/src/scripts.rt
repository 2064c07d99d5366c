//! Whole runs of scripts, and texts that are scripts or not.
use crate::building::number;
use crate::showing::text_of;
use program::{Input, Output};
use std::alloc::{AllocError, Global};
use std::io::Read;
use std::thread::Threads;
use std::{fs, io};
use workload::perform;

/// The names of the scripts with a transcript.
const SCRIPTS: [&str; 40] = [
    "collected_while_waiting",
    "concurrent_inserts_meet",
    "count_after_deletion",
    "dependency_holds_back",
    "dependency_through_a_read",
    "each_message_twice",
    "floor_falls",
    "horizon_at_effective_time",
    "insert_and_read_back",
    "late_repeats",
    "lost_and_repeated",
    "move_and_back",
    "move_waits_for_each",
    "move_where_collected",
    "move_without_dependencies",
    "older_insert_under_range",
    "older_stamp_arrives_late",
    "range_deletion",
    "range_deletion_beside_it",
    "range_deletion_is_waited_for",
    "range_deletion_on_two_shards",
    "range_deletion_walks",
    "range_deletions_collected",
    "range_deletions_in_evt",
    "read_asked_again",
    "read_asks_coordinator",
    "read_before_dependency",
    "read_before_vote",
    "read_of_nothing",
    "reversed_ranges",
    "row_deletion_inside_batch",
    "second_round_collected",
    "session_moves",
    "sessions_meet",
    "two_shard_write",
    "undecided_is_excluded",
    "unseen_column_under_mark",
    "write_after_move",
    "write_and_read",
    "write_is_replicated",
];

/// The names of scripts that are audited.
const AUDITED: [&str; 2] = ["insert_and_read_back", "read_asks_coordinator"];

/// The names of scripts that are audited once all their messages are delivered.
const DRAINED: [&str; 2] = ["collected_while_waiting", "session_moves"];

/// The end of a script, and one with a drain before it.
const END: &str = "]}";

const DRAIN_AND_END: &str = ",[\"drain\"]]}";

/// The name of what is read.
const NAME: &str = "script.json";
/// How it is told that it is no script, or ends early.
const NO_SCRIPT: &str = "eiger: fault 35 Script\n";

/// A run of what was opened, audited where that is asked for: its status, what it writes, and what is told of faults.
pub(crate) fn run<T: Threads + Sync, R: Read>(
    threads: &T,
    alloc: Global,
    audit: bool,
    opened: io::Result<R>,
) -> Result<(u8, Vec<u8>, Vec<u8>), AllocError>
where
    R: Drop,
{
    let mut input = Input::new(String::from_str(alloc, NAME)?, opened);
    let mut output = Output::new(Vec::new(alloc));
    let mut errors = Output::new(Vec::new(alloc));
    let status = perform(threads, alloc, audit, &mut input, &mut output, &mut errors);
    Ok((status, output.writer, errors.writer))
}

/// Whether a run of the script writes this transcript, and no fault is told.
fn writes<T: Threads + Sync>(
    threads: &T,
    alloc: Global,
    script: &[u8],
    transcript: &[u8],
) -> Result<bool, AllocError> {
    let (status, out, errors) = run(threads, alloc, false, Ok(script))?;
    Ok(status == 0 && errors.is_empty() && out.as_slice() == transcript)
}

/// Tells whether the script of this name writes its transcript.
fn tell_script<T: Threads + Sync>(rt: &HostRuntime, threads: &T, name: &str) -> io::Result<()> {
    let script = fs::read(rt, format!(in rt.alloc(); "{name}.json")?)?;
    let transcript = fs::read(rt, format!(in rt.alloc(); "{name}.transcript")?)?;
    let is_written = writes(threads, rt.alloc(), &script, &transcript)?;
    let told = if is_written {
        "as written"
    } else {
        "another transcript"
    };
    println!(rt; "{name}: {told}")
}

/// Tells what an audited run of this script writes, and what is told of faults.
fn tell_audit<T: Threads + Sync>(
    rt: &HostRuntime,
    threads: &T,
    name: &str,
    script: &str,
) -> io::Result<()> {
    let (status, out, errors) = run(threads, rt.alloc(), true, Ok(script.as_bytes()))?;
    let (out, errors) = (text_of(&out), text_of(&errors));
    print!(rt; "{name}, audited: {status}\n{out}{errors}")
}

/// Tells of an audited run of the script of this name.
fn tell_audited<T: Threads + Sync>(rt: &HostRuntime, threads: &T, name: &str) -> io::Result<()> {
    let script = fs::read_to_string(rt, format!(in rt.alloc(); "{name}.json")?)?;
    tell_audit(rt, threads, name, script.as_str())
}

/// Tells of an audited run of the script of this name with a drain after its events.
fn tell_drained<T: Threads + Sync>(rt: &HostRuntime, threads: &T, name: &str) -> io::Result<()> {
    let script = fs::read_to_string(rt, format!(in rt.alloc(); "{name}.json")?)?;
    let events = script.as_str().trim_end().strip_suffix(END).unwrap_or("");
    let drained = format!(in rt.alloc(); "{events}{DRAIN_AND_END}")?;
    let name = format!(in rt.alloc(); "{name}, drained")?;
    tell_audit(rt, threads, name.as_str(), drained.as_str())
}

/// Whether a run of the script ends with the fault, and this is said of it, and nothing is written; where nothing is to be
/// said, whether it ends well.
fn ends<T: Threads + Sync>(
    threads: &T,
    alloc: Global,
    script: &str,
    said: &str,
) -> Result<bool, AllocError> {
    let (status, out, errors) = run(threads, alloc, false, Ok(script.as_bytes()))?;
    if said.is_empty() {
        return Ok(status == 0 && errors.is_empty());
    }
    let told = format!(in alloc; "{NO_SCRIPT}{NAME}: {said}\n")?;
    Ok(status == 1 && out.is_empty() && errors.as_slice() == told.as_bytes())
}

/// Tells how many lines of the file, each a script and what is said of it, end so. The others are told in full.
fn tell_lines<T: Threads + Sync>(rt: &HostRuntime, threads: &T, file: &str) -> io::Result<()> {
    let text = fs::read_to_string(rt, file)?;
    let mut ended = 0u64;
    for line in text.lines() {
        let (script, said) = line.split_once(" => ").unwrap_or((line, ""));
        if ends(threads, rt.alloc(), script, said)? {
            ended = ended.wrapping_add(1);
        } else {
            println!(rt; "{line}")?;
        }
    }
    println!(rt; "{file}: {ended} as said")
}

/// Adds the first part, the second as often as stands before, and the last.
fn add_parts(script: &mut String, parts: &[&str]) -> Result<(), AllocError> {
    if let [repeats, first, repeated, last] = parts {
        script.push_str(first)?;
        for _ in 0..number(repeats) {
            script.push_str(repeated)?;
        }
        script.push_str(last)?;
    }
    Ok(())
}

/// The script of these parts, in lines.
fn script_of(alloc: Global, lines: &str) -> Result<String, AllocError> {
    let mut script = String::new(alloc);
    for line in lines.lines() {
        let parts: Vec<&str> = line.split('|').collect(alloc)?;
        add_parts(&mut script, &parts)?;
    }
    Ok(script)
}

/// Scripts at the limits, and beyond that of events, in parts.
const LIMITS: [&str; 3] = ["limits", "events_100000", "events_100001"];

/// Tells what the script of these parts writes, and what is told of it.
fn tell_limits<T: Threads + Sync>(rt: &HostRuntime, threads: &T, name: &str) -> io::Result<()> {
    let lines = fs::read_to_string(rt, format!(in rt.alloc(); "{name}.parts")?)?;
    let script = script_of(rt.alloc(), lines.as_str())?;
    let (status, out, errors) = run(threads, rt.alloc(), false, Ok(script.as_bytes()))?;
    let (out, errors) = (text_of(&out), text_of(&errors));
    print!(rt; "{name}: {status}\n{out}{errors}")
}

pub(crate) fn tell<T: Threads + Sync>(rt: &HostRuntime, threads: &T) -> io::Result<()> {
    for name in SCRIPTS {
        tell_script(rt, threads, name)?;
    }
    for name in AUDITED {
        tell_audited(rt, threads, name)?;
    }
    for name in DRAINED {
        tell_drained(rt, threads, name)?;
    }
    tell_lines(rt, threads, "scripts.txt")?;
    tell_lines(rt, threads, "not_scripts.txt")?;
    tell_lines(rt, threads, "not_sent.txt")?;
    for name in LIMITS {
        tell_limits(rt, threads, name)?;
    }
    Ok(())
}
