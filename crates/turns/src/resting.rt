//! Two workers that rest once a write of two shards has its outcome.
use crate::building::{batch, topology};
use crate::judging::count_of;
use crate::seats::{close_all, load, run_seats};
use crate::showing::{print, word_of};
use actors::{End, Mesh, Open, Report, Seat, drain};
use logical_time::Fault;
use messages::ActorEvent;
use running::Workers;
use std::alloc::Global;
use std::sync::Wait;
use std::thread::Threads;
use threaded::{Actor, conclude};

/// The node of the session that writes.
const SESSION: u16 = 2;

/// What is seen of a run by workers.
#[derive(Drop)]
struct Seen {
    /// Whether a worker rested.
    rested: bool,
    /// Whether a worker ended with a fault.
    failed: bool,
    /// How many outcomes the session had before any drain.
    outcomes: usize,
    /// How many operations ended in the run that the journals conclude.
    ended: usize,
}

/// The session of two that is to write b and a.
fn load_session(alloc: Global, seats: &mut [Seat<Actor>]) -> Result<(), Fault> {
    let Some(seat) = seats.get_mut(usize::from(SESSION)) else {
        return Err(Fault::Script);
    };
    load(
        alloc,
        seat,
        ActorEvent::Submit(batch(alloc, &["b:x1", "a:x2"])?),
    )
}

fn seats_of(alloc: Global) -> Result<Vec<Seat<Actor>>, Fault> {
    let topology = topology(alloc, (1, 2), &[0, 0])?;
    let mut seats = Mesh::build(alloc, &topology)?;
    match load_session(alloc, seats.as_mut_slice()) {
        Ok(()) => Ok(seats),
        Err(fault) => {
            close_all(seats);
            Err(fault)
        }
    }
}

/// How many outcomes the session has.
fn outcomes_of(seats: &[Seat<Actor>]) -> usize {
    match seats.get(usize::from(SESSION)) {
        Some(seat) => seat.outcomes().len(),
        None => 0,
    }
}

/// Drains the seats. How many operations ended in the run that their journals conclude.
fn ended(alloc: Global, mut seats: Vec<Seat<Actor>>) -> Result<usize, Fault> {
    if let Err(fault) = drain(seats.as_mut_slice()) {
        close_all(seats);
        return Err(fault);
    }
    match conclude(alloc, seats) {
        Ok(concluded) => {
            let ended = count_of(&concluded);
            concluded.close();
            Ok(ended)
        }
        Err((fault, seats)) => {
            close_all(seats);
            Err(fault)
        }
    }
}

fn rested(report: &Report) -> bool {
    report.shifts.iter().any(|shift| shift.end == End::Rest)
}

fn failed(report: &Report) -> bool {
    report
        .shifts
        .iter()
        .any(|shift| matches!(shift.end, End::Fault(_)))
}

fn run<R: Threads + Wait + Sync>(rt: &R, alloc: Global) -> Result<Seen, Fault> {
    let workers = Workers::new(2).ok_or(Fault::Script)?;
    let (seats, report) = run_seats(rt, alloc, seats_of(alloc)?, &workers, &Open)?;
    let outcomes = outcomes_of(seats.as_slice());
    let ended = ended(alloc, seats)?;
    Ok(Seen {
        rested: rested(&report),
        failed: failed(&report),
        outcomes,
        ended,
    })
}

pub(crate) fn tell<R: Threads + Wait + Sync>(rt: &HostRuntime, threads: &R) -> Result<(), Fault> {
    let seen = run(threads, rt.alloc())?;
    let (rested, failed) = (word_of(seen.rested), word_of(seen.failed));
    let (outcomes, ended) = (seen.outcomes, seen.ended);
    let line = format!(in rt.alloc();
        "two workers: rested {rested}, failed {failed}, outcomes {outcomes}, concluded {ended}"
    )?;
    print(rt, line.as_str())
}
