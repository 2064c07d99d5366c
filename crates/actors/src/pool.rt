//! Workers that go round the seats.
ghost use Rattle.std.specs.Prelude.{◌≡◌, ◌<◌, ◌≤◌, length, All, IfOk, IfErr};
ghost use Rattle.actors.specs.Reports.{IsWithin};

use crate::machine::Machine;
use crate::report::{End, Report, Shift};
use crate::seat::Seat;
use crate::turn::Turn;
use logical_time::{Fault, Node};
use std::alloc::Global;
use std::sync::{Mutex, MutexGuard, Wait};
use std::thread;
use std::thread::Threads;

/// What stands before and after each turn of a worker, while the seat's lock is held.
pub trait Gate: Sync {
    /// A worker is going to take a turn of the seat with this node.
    fn before(&self, node: Node);

    /// It took the turn, which did something, or was refused, or was idle.
    fn after(&self, node: Node, did: bool);
}

/// The gate that does nothing.
pub struct Open;

impl Gate for Open {
    fn before(&self, _node: Node) {}

    fn after(&self, _node: Node, _did: bool) {}
}

/// Workers that go round the seats.
pub struct Pool;

/// How many turns of a seat a worker takes one after the other at most, while each handles an envelope: what a seat looks at stays
/// near then, and its lock is taken once.
const STAYS: u64 = 16;

/// Where a worker is on its way round the seats.
#[derive(Drop)]
struct Stand {
    place: usize,
    // How many idle turns it took one after the other, of seats that had nothing of their own left to do.
    resting: usize,
    // At how many seats one after the other it did nothing, since it gave way.
    vain: usize,
}

impl Stand {
    /// At the seat of this place, before its first turn.
    fn at(place: usize) -> Stand
        ensures { (result.place ≡ place) × (result.resting ≡ 0) }
    {
        Stand {
            place,
            resting: 0,
            vain: 0,
        }
    }

    /// Did nothing at a seat. After a round of those it gives way to other threads.
    fn wait(&mut self, seats: usize)
        ensures { (self.new.place ≡ self.old.place) × (self.new.resting ≡ self.old.resting) }
    {
        self.vain = self.vain.saturating_add(1);
        if self.vain >= seats {
            self.vain = 0;
            thread::yield_now();
        }
    }

    /// Goes on to the next seat.
    fn step(&mut self, seats: usize)
        requires { self.old.place < seats }
        ensures { (self.new.place < seats) × (self.new.resting ≡ self.old.resting) }
    {
        self.place = if self.place + 1 < seats {
            self.place + 1
        } else {
            0
        };
    }

    /// Passes a seat by while another worker is at it.
    fn pass(&mut self, seats: usize)
        requires { self.old.place < seats }
        ensures { (self.new.place < seats) × (self.new.resting ≡ 0) }
    {
        self.resting = 0;
        self.wait(seats);
        self.step(seats);
    }

    /// Goes on from a seat after its turns there.
    fn go_on(&mut self, visit: &Visit, seats: usize)
        requires { (self.old.place < seats) × (self.old.resting < seats) }
        ensures { (self.new.place < seats) × (self.new.resting ≤ seats) }
    {
        self.resting = match (visit.rested, visit.turns) {
            (false, _) => 0,
            (true, 1) => self.resting + 1,
            (true, _) => 1,
        };
        if visit.vain {
            self.wait(seats);
        } else {
            self.vain = 0;
        }
        self.step(seats);
    }
}

/// What a worker did at a seat.
#[derive(Drop)]
struct Visit {
    turns: u64,
    // Whether no turn did anything.
    vain: bool,
    // Whether the last turn was idle, and nothing of its own was left to do for the seat.
    rested: bool,
    // Why the last turn was refused.
    fault: Option<Fault>,
}

/// The seat at which a worker stands, locked: it passes by those at which others are.
fn locked<'s, M: Machine, R: Wait>(
    rt: &R,
    seats: &'s [Mutex<Seat<M>>],
    stand: &mut Stand,
) -> MutexGuard<'s, Seat<M>>
    requires { (stand.old.place < length seats.now) × (stand.old.resting < length seats.now) }
    ensures { (stand.new.place < length seats.now) × (stand.new.resting < length seats.now) }
{
    for _ in rt.forever() {
        match seats[stand.place].try_lock() {
            Some(seat) => return seat,
            None => stand.pass(seats.len()),
        }
    }
    unreachable!()
}

/// Takes a turn of a seat that is locked.
fn one_turn<M: Machine, G: Gate>(seat: &mut Seat<M>, gate: &G) -> Result<Turn, Fault> {
    gate.before(seat.node());
    let turn = seat.turn();
    let did = !matches!(turn, Ok(Turn::Idle));
    gate.after(seat.node(), did);
    turn
}

/// Takes turns of a seat that is locked: one, and the next while each handled an envelope, so many at most.
fn stay<M: Machine, G: Gate>(mut seat: MutexGuard<'_, Seat<M>>, gate: &G, most: u64) -> Visit
    requires { 0 < most }
    ensures { (0 < result.turns) × (result.turns ≤ most) }
{
    for before in 0..most {
        match one_turn(&mut seat, gate) {
            Ok(Turn::Handled) => {}
            Ok(turn) => {
                return Visit {
                    turns: before + 1,
                    vain: before == 0 && turn == Turn::Idle,
                    rested: turn == Turn::Idle && seat.is_done(),
                    fault: None,
                };
            }
            Err(fault) => {
                return Visit {
                    turns: before + 1,
                    vain: false,
                    rested: false,
                    fault: Some(fault),
                };
            }
        }
    }
    Visit {
        turns: most,
        vain: false,
        rested: false,
        fault: None,
    }
}

/// Goes round the seats, from the one that is the worker's. Without a seat there is nothing to do.
fn go_round<M: Machine, G: Gate, R: Wait>(
    rt: &R,
    seats: &[Mutex<Seat<M>>],
    worker: usize,
    turns: u64,
    gate: &G,
) -> Shift
    ensures { IsWithin turns result }
{
    if seats.is_empty() {
        return Shift {
            turns: 0,
            end: End::Rest,
        };
    }
    let mut stand = Stand::at(worker % seats.len());
    let mut taken = 0;
    while taken < turns {
        let seat = locked(rt, seats, &mut stand);
        let visit = stay(seat, gate, STAYS.min(turns - taken));
        taken += visit.turns;
        if let Some(fault) = visit.fault {
            return Shift {
                turns: taken,
                end: End::Fault(fault),
            };
        }
        stand.go_on(&visit, seats.len());
        if stand.resting >= seats.len() {
            return Shift {
                turns: taken,
                end: End::Rest,
            };
        }
    }
    Shift {
        turns: taken,
        end: End::Turns,
    }
}

impl Pool {
    /// Runs the seats by so many workers, each for at most so many turns. A worker goes round the seats, worker w from the
    /// seat `w mod seats` on: it locks one and takes a turn of it, and the next while each handled an envelope, 16 at most. A seat
    /// at which another worker is it passes by, and comes back; after a round in which it did nothing it gives way to other
    /// threads. It stops after its turns, after a turn that was refused, or after a round in which it came by all seats, and all were idle,
    /// all machines free and all backlogs empty. 1 to 16 workers and at least one seat are the caller's condition. Refused with
    /// `Memory` alone.
    pub fn run<M: Machine + Send, G: Gate, R: Threads + Wait + Sync>(
        rt: &R,
        alloc: Global,
        seats: &[Mutex<Seat<M>>],
        workers: usize,
        turns: u64,
        gate: &G,
    ) -> Result<Report, Fault>
        requires workers { (0 < workers) × (workers ≤ 16) }
        requires seats { 0 < length seats.now }
        ensures count { IfOk result (λ report. length report.shifts.items ≡ workers) }
        ensures each { IfOk result (λ report. All (IsWithin turns) report.shifts.items) }
        ensures memory { IfErr result (λ e. e ≡ Fault.Memory) }
    {
        let shifts = thread::map_indices(
            rt,
            alloc,
            workers,
            &|worker: usize| -> Shift
                ensures { IsWithin turns result }
            { go_round(rt, seats, worker, turns, gate) },
        )?;
        Ok(Report { shifts })
    }
}
