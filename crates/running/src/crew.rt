//! Who takes turns of seats.
ghost use Rattle.std.specs.Prelude.{◌≡◌, ⊤, List, IfOk, IfErr};
ghost use Rattle.std.specs.Thread.{IsSync};
ghost use Rattle.actors.specs.Seats.{SeatValue};

use crate::seats::{close_all, locked, room, unlocked};
use crate::workers::Workers;
use actors::{Open, Pool, Report, Seat};
use logical_time::Fault;
use std::alloc::Global;
use std::sync::Wait;
use std::thread::Threads;
use threaded::Actor;

/// How many turns a worker takes at most.
const TURNS: u64 = 10_000_000;

/// Who takes turns of seats, in whatever order. What is told of a run is told of what a crew brings back.
pub trait Crew {
    /// Which seats can come back for which.
    ghost brings: { List SeatValue → List SeatValue → Type 0 };

    /// Goes round the seats, and brings them back, with what each worker did. Waits for locks. Refused with `Memory` alone; then
    /// the seats are ended.
    fn go_round<R: Threads + Wait + Sync>(
        &self,
        rt: &R,
        alloc: Global,
        seats: Vec<Seat<Actor>>,
    ) -> Result<(Report, Vec<Seat<Actor>>), Fault>
        // what the bound says
        requires { IsSync R.row }
        ensures brought { IfOk result (λ back. brings seats.items back.1.items) }
        ensures memory { IfErr result (λ e. e ≡ Fault.Memory) };
}

/// So many threads: each takes at most 10,000,000 turns.
impl Crew for Workers {
    // No lock says what a seat was given under it.
    ghost brings = { λ loaded back. ⊤ };

    fn go_round<R: Threads + Wait + Sync>(
        &self,
        rt: &R,
        alloc: Global,
        seats: Vec<Seat<Actor>>,
    ) -> Result<(Report, Vec<Seat<Actor>>), Fault> {
        if seats.is_empty() {
            let shifts = Vec::new(alloc);
            return Ok((Report { shifts }, seats));
        }
        let (empty, back) = match room(alloc, seats.len()) {
            Ok(room) => room,
            Err(fault) => {
                close_all(seats);
                return Err(fault);
            }
        };
        let locked = locked(seats, empty);
        let report = Pool::run(rt, alloc, locked.as_slice(), self.get(), TURNS, &Open);
        let seats = unlocked(locked, back);
        match report {
            Ok(report) => Ok((report, seats)),
            Err(fault) => {
                close_all(seats);
                Err(fault)
            }
        }
    }
}
