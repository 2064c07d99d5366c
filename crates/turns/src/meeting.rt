//! Two workers that meet: each waits, under the lock of a seat, until the other holds that of another.
use crate::building::{time, topology};
use crate::seats::{close_all, load, run_seats};
use crate::showing::{print, word_of};
use actors::{Gate, Mesh, Seat};
use logical_time::{Fault, Node};
use messages::ActorEvent;
use running::Workers;
use std::alloc::Global;
use std::sync::Wait;
use std::sync::atomic::{AtomicBool, Ordering};
use std::thread;
use std::thread::Threads;
use threaded::Actor;

/// How often a worker asks at most whether the other came.
const ASKS: u64 = 100_000_000;

/// Whether a worker came, and then whether it saw the other.
#[derive(Drop)]
struct Side {
    came: AtomicBool,
    saw: AtomicBool,
}

impl Side {
    fn new() -> Side {
        Side {
            came: AtomicBool::new(false),
            saw: AtomicBool::new(false),
        }
    }

    /// Comes; for the first time it asks for the other until that came, or it has asked often enough.
    fn meet(&self, other: &Side) {
        if self.came.swap(true, Ordering::SeqCst) {
            return;
        }
        for _ in 0..ASKS {
            if other.came.load(Ordering::SeqCst) {
                self.saw.store(true, Ordering::SeqCst);
                return;
            }
            thread::yield_now();
        }
    }

    fn saw(&self) -> bool {
        self.saw.load(Ordering::SeqCst)
    }
}

/// The gate where those meet that go to the seats of nodes 0 and 1.
#[derive(Drop)]
struct Meeting {
    first: Side,
    second: Side,
}

impl Gate for Meeting {
    fn before(&self, node: Node) {
        match node.get() {
            0 => self.first.meet(&self.second),
            1 => self.second.meet(&self.first),
            _ => {}
        }
    }

    fn after(&self, _node: Node, _did: bool) {}
}

/// Each of the two shards is to collect.
fn load_both(alloc: Global, seats: &mut [Seat<Actor>]) -> Result<(), Fault> {
    for seat in seats.iter_mut().take(2) {
        load(alloc, seat, ActorEvent::Collect(time("1")))?;
    }
    Ok(())
}

/// Two shards and a session, where each shard is to collect.
fn seats_of(alloc: Global) -> Result<Vec<Seat<Actor>>, Fault> {
    let topology = topology(alloc, (1, 2), &[0])?;
    let mut seats = Mesh::build(alloc, &topology)?;
    match load_both(alloc, seats.as_mut_slice()) {
        Ok(()) => Ok(seats),
        Err(fault) => {
            close_all(seats);
            Err(fault)
        }
    }
}

/// Runs two workers through the gate. Whether the first saw the second, and the second the first.
fn meet<R: Threads + Wait + Sync>(rt: &R, alloc: Global) -> Result<(bool, bool), Fault> {
    let gate = Meeting {
        first: Side::new(),
        second: Side::new(),
    };
    let workers = Workers::new(2).ok_or(Fault::Script)?;
    let (seats, _) = run_seats(rt, alloc, seats_of(alloc)?, &workers, &gate)?;
    close_all(seats);
    Ok((gate.first.saw(), gate.second.saw()))
}

pub(crate) fn tell<R: Threads + Wait + Sync>(rt: &HostRuntime, threads: &R) -> Result<(), Fault> {
    let (first, second) = meet(threads, rt.alloc())?;
    let (first, second) = (word_of(first), word_of(second));
    let line = format!(in rt.alloc(); "two workers: 0 saw 1: {first}, 1 saw 0: {second}")?;
    print(rt, line.as_str())
}
