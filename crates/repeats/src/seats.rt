//! The seats of two shards and two sessions, with each refused call made again: their turns, and what their journals conclude.
use crate::building::{batch, topology};
use crate::showing::{add_ended, add_history, print, tell_refused};
use actors::{Machine, Mesh, Seat, Turn};
use logical_time::Fault;
use messages::{Op, Topology};
use std::alloc::Global;
use table::History;
use threaded::{Actor, Concluded, conclude};

/// The place of the seat whose session writes, behind those of the shards.
const SESSION: usize = 2;

/// How many rounds of turns are taken. In the last one nothing is left to do.
const ROUNDS: u8 = 6;

/// Ends seats and their machines.
fn close_all(mut seats: Vec<Seat<Actor>>) {
    while let Some(seat) = seats.pop() {
        seat.close().close();
    }
    seats.destroy_empty();
}

fn mesh(alloc: Global, topology: &Topology) -> Result<Vec<Seat<Actor>>, Fault> {
    Mesh::build(alloc, topology)
}

/// A session submits an operation, and where memory was refused, what came back.
fn submit(rt: &HostRuntime, seat: &mut Seat<Actor>, op: Op) -> Result<u64, (Fault, Op)> {
    match seat.submit(op) {
        Err((Fault::Memory, op)) => {
            tell_refused(rt);
            seat.submit(op)
        }
        submitted => submitted,
    }
}

/// The session writes b and a, which lie on two shards.
fn write(rt: &HostRuntime, seats: &mut [Seat<Actor>]) -> Result<(), Fault> {
    let Some(seat) = seats.get_mut(SESSION) else {
        return Err(Fault::Script);
    };
    let op = again!(rt; batch(rt.alloc(), "b:x1 a:x2"))?;
    match submit(rt, seat, op) {
        Ok(_) => Ok(()),
        Err((fault, _)) => Err(fault),
    }
}

/// What a turn did.
fn word_of(turn: Turn) -> &'static str {
    match turn {
        Turn::Idle => "idle",
        Turn::Moved => "moved",
        Turn::Handled => "handled",
        Turn::Submitted(_) => "submitted",
        Turn::Collected => "collected",
        Turn::Refused(_) => "refused",
    }
}

/// Tells what each seat's next turn did.
fn tell_round(rt: &HostRuntime, seats: &mut [Seat<Actor>]) -> Result<(), Fault> {
    for seat in seats.iter_mut() {
        let word = word_of(again!(rt; seat.turn())?);
        print!(rt; "{word};").map_err(|_| Fault::WriteFailed)?;
    }
    print(rt, "")
}

fn tell_turns(rt: &HostRuntime, seats: &mut [Seat<Actor>]) -> Result<(), Fault> {
    print(rt, "two_shard_write")?;
    write(rt, seats)?;
    for _ in 0..ROUNDS {
        tell_round(rt, seats)?;
    }
    Ok(())
}

/// What the journals of the seats conclude. Where memory was refused the seats come back, and it is concluded again.
fn concluded(rt: &HostRuntime, seats: Vec<Seat<Actor>>) -> Result<Concluded, Fault> {
    let concluded = match conclude(rt.alloc(), seats) {
        Err((Fault::Memory, seats)) => {
            tell_refused(rt);
            conclude(rt.alloc(), seats)
        }
        concluded => concluded,
    };
    match concluded {
        Ok(concluded) => Ok(concluded),
        Err((fault, seats)) => {
            close_all(seats);
            Err(fault)
        }
    }
}

/// What ended, session by session.
fn ended(alloc: Global, concluded: &Concluded) -> Result<String, Fault> {
    let mut seen = String::new(alloc);
    for ended in concluded.transcript() {
        add_ended(&mut seen, (ended.node, ended.number), ended.outcome)?;
    }
    Ok(seen)
}

fn entries(alloc: Global, history: &History) -> Result<String, Fault> {
    let mut seen = String::new(alloc);
    add_history(&mut seen, history)?;
    Ok(seen)
}

fn tell_concluded(rt: &HostRuntime, concluded: &Concluded) -> Result<(), Fault> {
    let alloc = rt.alloc();
    let seen = again!(rt; ended(alloc, concluded))?;
    let seen = seen.as_str();
    println!(rt; "concluded{seen}").map_err(|_| Fault::WriteFailed)?;
    for dc in 0..concluded.topology().dcs() {
        let history = again!(rt; concluded.history(alloc, dc))?;
        let seen = again!(rt; entries(alloc, &history))?;
        let seen = seen.as_str();
        println!(rt; "history {dc}{seen}").map_err(|_| Fault::WriteFailed)?;
    }
    let is_quiet = again!(rt; concluded.is_quiet(alloc))?;
    print(rt, if is_quiet { "quiet" } else { "not quiet" })
}

pub(crate) fn tell(rt: &HostRuntime) -> Result<(), Fault> {
    let topology = again!(rt; topology(rt.alloc(), (1, 2), &[0, 0]))?;
    let mut seats = again!(rt; mesh(rt.alloc(), &topology))?;
    if let Err(fault) = tell_turns(rt, seats.as_mut_slice()) {
        close_all(seats);
        return Err(fault);
    }
    let concluded = concluded(rt, seats)?;
    let told = tell_concluded(rt, &concluded);
    concluded.close();
    told
}
