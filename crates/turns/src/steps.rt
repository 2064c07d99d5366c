//! Steps of seats by hand: what is submitted, collected and put into backlogs, turn by turn, and what is seen after each.
use crate::building::{batch, number, small, time, topology_of};
use crate::seats::{close_all, load};
use crate::showing::{add_done, add_journal, add_number, add_outcomes, add_turn, print, word_of};
use actors::{Mesh, Seat, drain};
use logical_time::{Fault, Node};
use messages::{ActorEvent, Op};
use std::alloc::Global;
use std::fs;
use threaded::Actor;

/// The files of steps.
const FILES: [&str; 5] = [
    "by_hand.steps",
    "ring_of_one.steps",
    "ring_of_one_then_its_reader.steps",
    "journal_of_three.steps",
    "move_by_hand.steps",
];

/// How many envelopes of a seat are counted at most.
const MOST: usize = 1000;

/// The seats of a line `mesh DCS SHARDS HOMES RING JOURNAL`.
fn seats_of(alloc: Global, line: &str) -> Result<Vec<Seat<Actor>>, Fault> {
    let words: Vec<&str> = line.split(' ').collect(alloc)?;
    let ["mesh", dcs, shards, homes, ring, journal] = words.as_slice() else {
        return Err(Fault::Script);
    };
    let topology = topology_of(alloc, dcs, shards, homes)?;
    Mesh::build_sized(alloc, &topology, number(ring), number(journal))
}

fn let_go(_op: Op) {}

fn submit(seat: &mut Seat<Actor>, op: Op) -> Result<u64, Fault> {
    match seat.submit(op) {
        Ok(number) => Ok(number),
        Err((fault, op)) => {
            let_go(op);
            Err(fault)
        }
    }
}

fn load_collections(alloc: Global, seat: &mut Seat<Actor>, times: &[&str]) -> Result<(), Fault> {
    for until in times {
        load(alloc, seat, ActorEvent::Collect(time(until)))?;
    }
    Ok(())
}

/// How many envelopes a seat sent to an actor: those that went into the ring and those that wait.
fn count_sent(seat: &Seat<Actor>, to: Node) -> usize {
    for number in 0..MOST {
        if seat.sent_to(to, number).is_none() {
            return number;
        }
    }
    MOST
}

fn add_sent(seen: &mut String, seat: &Seat<Actor>, to: Node) -> Result<(), Fault> {
    let count = count_sent(seat, to);
    Ok(write!(seen, "{count}")?)
}

/// Does a step of a seat.
fn step_seat(
    alloc: Global,
    seat: &mut Seat<Actor>,
    words: &[&str],
    seen: &mut String,
) -> Result<(), Fault> {
    match words {
        ["submit", changes @ ..] => add_number(seen, submit(seat, batch(alloc, changes)?)),
        ["move", dc] => add_number(seen, submit(seat, Op::Move { dc: small(dc) })),
        ["collect", until] => add_done(seen, seat.collect(time(until))),
        ["is", "to", "submit", changes @ ..] => {
            load(alloc, seat, ActorEvent::Submit(batch(alloc, changes)?))
        }
        ["is", "to", "collect", times @ ..] => load_collections(alloc, seat, times),
        ["turn"] => add_turn(seen, seat.turn()),
        ["journal"] => add_journal(seen, seat.journal()),
        ["outcomes"] => add_outcomes(seen, seat.outcomes()),
        ["sent", to] => add_sent(seen, seat, Node::new(small(to))),
        ["done"] => Ok(seen.push_str(word_of(seat.is_done()))?),
        _ => Err(Fault::Script),
    }
}

/// Does a step: of all seats, or of the seat whose node comes first.
fn step(
    alloc: Global,
    seats: &mut [Seat<Actor>],
    line: &str,
    seen: &mut String,
) -> Result<(), Fault> {
    let words: Vec<&str> = line.split(' ').collect(alloc)?;
    match words.as_slice() {
        ["drain"] => add_done(seen, drain(seats)),
        [node, words @ ..] => match seats.get_mut(number(node)) {
            Some(seat) => step_seat(alloc, seat, words, seen),
            None => Err(Fault::Script),
        },
        _ => Err(Fault::Script),
    }
}

fn tell_step(rt: &HostRuntime, seats: &mut [Seat<Actor>], line: &str) -> Result<(), Fault> {
    let mut seen = String::new(rt.alloc());
    step(rt.alloc(), seats, line, &mut seen)?;
    let seen = seen.as_str().trim();
    if seen.is_empty() {
        return print(rt, line);
    }
    print(rt, format!(in rt.alloc(); "{line} => {seen}")?.as_str())
}

/// Tells the steps, and after each what is seen. A line that starts with `#` says why.
fn tell_steps(rt: &HostRuntime, seats: &mut [Seat<Actor>], text: &str) -> Result<(), Fault> {
    for line in text.lines().skip(1) {
        if !line.starts_with("#") {
            tell_step(rt, seats, line)?;
        }
    }
    Ok(())
}

/// Tells the steps of a file, whose first line says which seats there are.
fn tell_file(rt: &HostRuntime, file: &str) -> Result<(), Fault> {
    let Ok(text) = fs::read_to_string(rt, file) else {
        return Err(Fault::ReadFailed);
    };
    let mesh = text.lines().next().unwrap_or("");
    print(rt, format!(in rt.alloc(); "{file}: {mesh}")?.as_str())?;
    let mut seats = seats_of(rt.alloc(), mesh)?;
    let told = tell_steps(rt, seats.as_mut_slice(), text.as_str());
    close_all(seats);
    told
}

pub(crate) fn tell(rt: &HostRuntime) -> Result<(), Fault> {
    for file in FILES {
        tell_file(rt, file)?;
    }
    Ok(())
}
