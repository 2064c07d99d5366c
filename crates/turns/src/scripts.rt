//! Scripts that threads run: what is told of them, and what their journals conclude beside the histories.
use crate::auditing::{Answers, audited};
use crate::judging::{Count, entries_of};
use crate::seats::{close_all, load, run_seats};
use crate::showing::{add_entry, print};
use actors::{Mesh, Open, Seat, drain};
use audit::Audit;
use logical_time::Fault;
use messages::ActorEvent;
use running::Workers;
use std::alloc::Global;
use std::fs;
use std::sync::Wait;
use std::thread::Threads;
use threaded::{Actor, Concluded, conclude};
use workload::{Script, ScriptEvent, Transcript, read_script};

/// The names of the scripts.
const SCRIPTS: [&str; 8] = [
    "insert_and_read_back",
    "two_shard_write",
    "write_is_replicated",
    "rows_apart",
    "range_deletion",
    "session_moves",
    "move_and_back",
    "move_without_dependencies",
];

/// The names of scripts in which the schedule decides what is told: how many operations end is all that is printed.
const RACES: [&str; 12] = [
    "read_asks_coordinator",
    "undecided_is_excluded",
    "concurrent_inserts_meet",
    "dependency_holds_back",
    "dependency_through_a_read",
    "unseen_column_under_mark",
    "one_row",
    "range_deletion_is_waited_for",
    "move_waits_for_each",
    "sessions_meet",
    "write_after_move",
    "floor_falls",
];

/// The names of scripts of which one answer is changed.
const CHANGED: [&str; 2] = ["insert_and_read_back", "rows_apart"];

/// By how many workers each is run.
const WORKERS: [usize; 3] = [1, 2, 4];

fn read(rt: &HostRuntime, name: &str) -> Result<Script, Fault> {
    let file = format!(in rt.alloc(); "{name}.json")?;
    match fs::read_to_string(rt, file.as_str()) {
        Ok(text) => read_script(rt.alloc(), text.as_str()),
        Err(_) => Err(Fault::ReadFailed),
    }
}

/// A line for each entry.
fn lines_of(alloc: Global, transcript: &Transcript) -> Result<String, Fault> {
    let mut lines = String::new(alloc);
    for entry in transcript.as_slice() {
        add_entry(&mut lines, entry)?;
    }
    Ok(lines)
}

/// What a run of the script by these workers tells.
fn told<R: Threads + Wait + Sync>(
    threads: &R,
    alloc: Global,
    script: &Script,
    workers: &Workers,
) -> Result<String, Fault> {
    let transcript = running::run(threads, alloc, script, workers)?;
    lines_of(alloc, &transcript)
}

/// Gives an actor what an event of the script asks of it.
fn load_event(alloc: Global, seats: &mut [Seat<Actor>], event: &ScriptEvent) -> Result<(), Fault> {
    let (node, event) = match event {
        ScriptEvent::Submit { session, op } => (*session, ActorEvent::Submit(op.copied()?)),
        ScriptEvent::Collect { shard, time } => (*shard, ActorEvent::Collect(*time)),
        _ => return Ok(()),
    };
    match seats.get_mut(usize::from(node.get())) {
        Some(seat) => load(alloc, seat, event),
        None => Err(Fault::Script),
    }
}

fn load_all(alloc: Global, seats: &mut [Seat<Actor>], script: &Script) -> Result<(), Fault> {
    for event in script.events.as_slice() {
        load_event(alloc, seats, event)?;
    }
    Ok(())
}

fn seats_of(alloc: Global, script: &Script) -> Result<Vec<Seat<Actor>>, Fault> {
    let mut seats = Mesh::build(alloc, &script.topology)?;
    match load_all(alloc, seats.as_mut_slice(), script) {
        Ok(()) => Ok(seats),
        Err(fault) => {
            close_all(seats);
            Err(fault)
        }
    }
}

/// What the seats conclude, once all is done that they have to do.
fn concluded(alloc: Global, mut seats: Vec<Seat<Actor>>) -> Result<Concluded, Fault> {
    if let Err(fault) = drain(seats.as_mut_slice()) {
        close_all(seats);
        return Err(fault);
    }
    match conclude(alloc, seats) {
        Ok(concluded) => Ok(concluded),
        Err((fault, seats)) => {
            close_all(seats);
            Err(fault)
        }
    }
}

/// What ended in a run, what the audit finds there, and how many entries its histories have.
fn judged_of<R: Threads + Sync>(
    threads: &R,
    alloc: Global,
    concluded: &Concluded,
) -> Result<(Count, String), Fault> {
    let mut count = Count::new();
    count.add_all(alloc, concluded)?;
    let found = audited(threads, alloc, concluded, Answers::Whole)?;
    let emptied = audited(threads, alloc, concluded, Answers::Emptied)?;
    let (reads, wrong, more) = (found.reads, found.wrong, emptied.wrong);
    let entries = entries_of(alloc, concluded)?;
    let told = format!(in alloc;
        "audit {reads} wrong {wrong}, emptied wrong {more}, entries{entries}"
    )?;
    Ok((count, told))
}

/// What these workers conclude of the script.
fn concluded_by<R: Threads + Wait + Sync>(
    threads: &R,
    alloc: Global,
    script: &Script,
    workers: &Workers,
) -> Result<Concluded, Fault> {
    let seats = seats_of(alloc, script)?;
    let (seats, _) = run_seats(threads, alloc, seats, workers, &Open)?;
    concluded(alloc, seats)
}

/// What ended in a run of the script by these workers, what the audit finds there, and how many entries its histories have.
fn judged<R: Threads + Wait + Sync>(
    threads: &R,
    alloc: Global,
    script: &Script,
    workers: &Workers,
) -> Result<(Count, String), Fault> {
    let concluded = concluded_by(threads, alloc, script, workers)?;
    let judged = judged_of(threads, alloc, &concluded);
    concluded.close();
    judged
}

/// Tells what ended in a run of the script by so many workers, and how many entries its histories have.
fn tell_count<R: Threads + Wait + Sync>(
    rt: &HostRuntime,
    threads: &R,
    script: &Script,
    workers: &Workers,
) -> Result<(), Fault> {
    let (count, found) = judged(threads, rt.alloc(), script, workers)?;
    let Count {
        writes,
        missing,
        reads,
        wrong,
    } = count;
    let workers = workers.get();
    let line = format!(in rt.alloc();
        "workers {workers}: writes {writes}, missing {missing}, reads {reads}, wrong {wrong}, {found}"
    )?;
    print(rt, line.as_str())
}

/// Tells a run by so many workers: what it tells in full, if it isn't what was told before. Gives that.
fn tell_run<R: Threads + Wait + Sync>(
    rt: &HostRuntime,
    threads: &R,
    script: &Script,
    workers: usize,
    before: String,
) -> Result<String, Fault> {
    let workers = Workers::new(workers).ok_or(Fault::Script)?;
    let lines = told(threads, rt.alloc(), script, &workers)?;
    tell_count(rt, threads, script, &workers)?;
    if lines.as_str() == before.as_str() {
        print(rt, "the same is told")?;
    } else {
        print(rt, lines.as_str().trim_end())?;
    }
    Ok(lines)
}

/// Tells runs of a script in which the schedule decides what is told.
fn tell_race<R: Threads + Wait + Sync>(
    rt: &HostRuntime,
    threads: &R,
    name: &str,
) -> Result<(), Fault> {
    let script = read(rt, name)?;
    print(rt, name)?;
    for workers in WORKERS {
        let workers = Workers::new(workers).ok_or(Fault::Script)?;
        tell_count(rt, threads, &script, &workers)?;
    }
    Ok(())
}

/// Tells what the audit finds where one column of one answer of the script is changed.
fn tell_changed<R: Threads + Wait + Sync>(
    rt: &HostRuntime,
    threads: &R,
    name: &str,
) -> Result<(), Fault> {
    let alloc = rt.alloc();
    let script = read(rt, name)?;
    let workers = Workers::new(2).ok_or(Fault::Script)?;
    let concluded = concluded_by(threads, alloc, &script, &workers)?;
    let found = audited(threads, alloc, &concluded, Answers::OneChanged);
    concluded.close();
    let Audit { reads, wrong } = found?;
    let line = format!(in alloc; "{name}: one column changed, audit {reads} wrong {wrong}")?;
    print(rt, line.as_str())
}

fn tell_script<R: Threads + Wait + Sync>(
    rt: &HostRuntime,
    threads: &R,
    name: &str,
) -> Result<(), Fault> {
    let script = read(rt, name)?;
    print(rt, name)?;
    let mut before = String::new(rt.alloc());
    for workers in WORKERS {
        before = tell_run(rt, threads, &script, workers, before)?;
    }
    Ok(())
}

pub(crate) fn tell<R: Threads + Wait + Sync>(rt: &HostRuntime, threads: &R) -> Result<(), Fault> {
    for name in SCRIPTS {
        tell_script(rt, threads, name)?;
    }
    for name in RACES {
        tell_race(rt, threads, name)?;
    }
    for name in CHANGED {
        tell_changed(rt, threads, name)?;
    }
    Ok(())
}
