//! Seats, what is put into their backlogs, and workers that run them.
ghost use Rattle.actors.specs.Journals.{IsOwn};

use actors::{Gate, Machine, Pool, Report, Seat};
use logical_time::Fault;
use messages::ActorEvent;
use running::Workers;
use std::alloc::Global;
use std::sync::{Mutex, Wait};
use std::thread::Threads;

/// How many turns a worker takes at most.
const TURNS: u64 = 10_000_000;

/// Ends seats and their machines.
pub(crate) fn close_all<M: Machine>(mut seats: Vec<Seat<M>>) {
    while let Some(seat) = seats.pop() {
        seat.close().close();
    }
    seats.destroy_empty();
}

/// Puts an event at the end of a backlog.
pub(crate) fn load<M: Machine>(
    alloc: Global,
    seat: &mut Seat<M>,
    event: ActorEvent,
) -> Result<(), Fault>
    requires { IsOwn event }
{
    let mut events = Vec::new(alloc);
    events.push(event)?;
    match seat.load(events) {
        Ok(()) => Ok(()),
        Err((fault, _)) => Err(fault),
    }
}

/// The seats under locks, in their order. Where memory is refused they are ended.
fn locked<M: Machine>(
    alloc: Global,
    mut seats: Vec<Seat<M>>,
) -> Result<Vec<Mutex<Seat<M>>>, Fault> {
    match Vec::with_capacity(alloc, seats.len()) {
        Ok(mut locked) => {
            while !seats.is_empty() {
                locked.push_reserved(Mutex::new(seats.remove(0)));
            }
            seats.destroy_empty();
            Ok(locked)
        }
        Err(_) => {
            close_all(seats);
            Err(Fault::Memory)
        }
    }
}

fn close_locked<M: Machine>(mut locked: Vec<Mutex<Seat<M>>>) {
    while let Some(seat) = locked.pop() {
        seat.into_inner().close().close();
    }
    locked.destroy_empty();
}

/// The seats without their locks, in their order. Where memory is refused they are ended.
fn unlocked<M: Machine>(
    alloc: Global,
    mut locked: Vec<Mutex<Seat<M>>>,
) -> Result<Vec<Seat<M>>, Fault> {
    match Vec::with_capacity(alloc, locked.len()) {
        Ok(mut seats) => {
            while !locked.is_empty() {
                seats.push_reserved(locked.remove(0).into_inner());
            }
            locked.destroy_empty();
            Ok(seats)
        }
        Err(_) => {
            close_locked(locked);
            Err(Fault::Memory)
        }
    }
}

/// So many workers run the seats, each for at most 10,000,000 turns. Gives the seats and what the workers report. Without a
/// seat nothing is run. Where memory is refused the seats are ended.
pub(crate) fn run_seats<M: Machine + Send, G: Gate, R: Threads + Wait + Sync>(
    rt: &R,
    alloc: Global,
    seats: Vec<Seat<M>>,
    workers: &Workers,
    gate: &G,
) -> Result<(Vec<Seat<M>>, Report), Fault> {
    let locked = locked(alloc, seats)?;
    if locked.is_empty() {
        locked.destroy_empty();
        return Err(Fault::Script);
    }
    let report = Pool::run(rt, alloc, locked.as_slice(), workers.get(), TURNS, gate);
    let seats = unlocked(alloc, locked)?;
    match report {
        Ok(report) => Ok((seats, report)),
        Err(fault) => {
            close_all(seats);
            Err(fault)
        }
    }
}
