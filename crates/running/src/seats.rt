//! The seats of a script, and their locks.
ghost use Rattle.std.specs.Prelude.{◌≡◌, ◌≤◌, ◌+◌, [], length, vec_capacity, IfOk, OnOk, IfErr};
ghost use Rattle.running.specs.Loaded.{with_asked, HaveAsked, AreLoadedSeats};

use crate::asking::asked_in;
use actors::{Machine, Mesh, Seat};
use logical_time::Fault;
use std::alloc::Global;
use std::sync::Mutex;
use threaded::Actor;
use workload::{Script, ScriptEvent};

/// How many envelopes a ring of such a run holds: so few that the rings stay in the cache of a processor. What finds no place
/// waits at its seat.
const RING: usize = 32;

/// How many events the journal of a seat may hold.
const JOURNAL: usize = 1_000_000;

/// Ends seats and their machines.
pub(crate) fn close_all(mut seats: Vec<Seat<Actor>>) {
    while let Some(seat) = seats.pop() {
        seat.close().close();
    }
    seats.destroy_empty();
}

/// Gives the actor of a seat what these events of a script ask of it. Refused with `Memory` alone.
fn load(alloc: Global, seat: &mut Seat<Actor>, events: &[ScriptEvent]) -> Result<(), Fault>
    ensures ok { OnOk result (seat.new ≡ with_asked events.now seat.old) }
    ensures memory { IfErr result (λ e. e ≡ Fault.Memory) }
{
    let asked = asked_in(alloc, seat.node(), events)?;
    match seat.load(asked) {
        Ok(()) => Ok(()),
        Err((fault, _)) => Err(fault),
    }
}

/// Gives each actor what these events of a script ask of it. Refused with `Memory` alone.
fn load_all(alloc: Global, seats: &mut [Seat<Actor>], events: &[ScriptEvent]) -> Result<(), Fault>
    ensures ok { OnOk result (HaveAsked events.now seats.old seats.new) }
    ensures memory { IfErr result (λ e. e ≡ Fault.Memory) }
{
    for place in 0..seats.len() {
        load(alloc, &mut seats[place], events)?;
    }
    Ok(())
}

/// The seats of a script's actors, by their nodes: each is new, with rings for 32 envelopes and a journal for 1,000,000 events,
/// and has what the script asks of its actor as its backlog. Refused with `Memory` alone.
pub(crate) fn seats_of(alloc: Global, script: &Script) -> Result<Vec<Seat<Actor>>, Fault>
    ensures ok { IfOk result (λ seats. AreLoadedSeats script.now 32 1000000 seats.items) }
    ensures memory { IfErr result (λ e. e ≡ Fault.Memory) }
{
    let mut seats = Mesh::build_sized(alloc, &script.topology, RING, JOURNAL)?;
    match load_all(alloc, seats.as_mut_slice(), script.events.as_slice()) {
        Ok(()) => Ok(seats),
        Err(fault) => {
            close_all(seats);
            Err(fault)
        }
    }
}

/// The seats under locks, in their order, in a list with room for them.
pub(crate) fn locked(
    mut seats: Vec<Seat<Actor>>,
    mut locked: Vec<Mutex<Seat<Actor>>>,
) -> Vec<Mutex<Seat<Actor>>>
    requires { length locked.items + length seats.items ≤ vec_capacity locked }
    ensures count { length result.items ≡ length locked.items + length seats.items }
{
    while !seats.is_empty() {
        locked.push_reserved(Mutex::new(seats.remove(0)));
    }
    seats.destroy_empty();
    locked
}

/// Empty lists with room for so many seats, under locks and without. Refused with `Memory` alone.
pub(crate) fn room(
    alloc: Global,
    count: usize,
) -> Result<(Vec<Mutex<Seat<Actor>>>, Vec<Seat<Actor>>), Fault>
    ensures locked { IfOk result (λ room. (room.0.items ≡ []) × (count ≤ vec_capacity room.0)) }
    ensures seats { IfOk result (λ room. (room.1.items ≡ []) × (count ≤ vec_capacity room.1)) }
    ensures memory { IfErr result (λ e. e ≡ Fault.Memory) }
{
    let locked = Vec::with_capacity(alloc, count)?;
    match Vec::with_capacity(alloc, count) {
        Ok(seats) => Ok((locked, seats)),
        Err(_) => {
            locked.destroy_empty();
            Err(Fault::Memory)
        }
    }
}

/// The seats without their locks, in their order, in a list with room for them.
pub(crate) fn unlocked(
    mut locked: Vec<Mutex<Seat<Actor>>>,
    mut seats: Vec<Seat<Actor>>,
) -> Vec<Seat<Actor>>
    requires { length seats.items + length locked.items ≤ vec_capacity seats }
{
    while !locked.is_empty() {
        seats.push_reserved(locked.remove(0).into_inner());
    }
    locked.destroy_empty();
    seats
}
