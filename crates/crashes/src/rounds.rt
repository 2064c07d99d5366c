//! Many connections that ask in one round share one append and one sync: where the disk does one less, no round that asked goes well.
use crate::worlds::{SESSIONS, come_back, insertion};
use anyhow::{Context, Result};
use disk::{Call, Memory};
use doors::{MemoryDoor, Moment};
use durable::Durable;
use logical_time::Fault;
use readiness::{Call as Step, MemoryLine};
use server::Server;
use service::Housed;
use std::alloc::Global;
use std::collections::VecDeque;

/// A server over memory alone.
type MemoryServer = Server<Durable<Memory>, MemoryLine, MemoryDoor>;

/// How many calls of a line are told what to do.
const STEPS: usize = 8;

// A line that asks an insertion, whole.
fn line(alloc: Global, number: u8) -> Result<MemoryLine> {
    let mut steps = Vec::new(alloc);
    for _ in 0..STEPS {
        steps.push(Step::Bytes(4096))?;
    }
    Ok(MemoryLine::new(alloc, insertion(alloc, number)?, steps))
}

// Places that are ready: all, or none.
fn places(alloc: Global, ready: bool) -> Result<Vec<usize>> {
    let mut places = Vec::new(alloc);
    if ready {
        for place in 0..usize::from(SESSIONS) {
            places.push(place)?;
        }
    }
    Ok(places)
}

// A door by which all come at once, and whose lines are ready then.
fn door(alloc: Global, rounds: usize) -> Result<MemoryDoor> {
    let mut lines = VecDeque::new(alloc);
    for number in 0..SESSIONS as u8 {
        lines.push_back(line(alloc, number)?)?;
    }
    let mut moments = VecDeque::new(alloc);
    for round in 0..rounds {
        let come = if round == 0 { lines.len() } else { 0 };
        moments.push_back(Moment {
            ready: places(alloc, round > 0)?,
            come,
        })?;
    }
    Ok(MemoryDoor::new(moments, lines))
}

// Rounds until one is refused: how many went well, and why the last didn't.
fn serve(rt: &HostRuntime, server: &mut MemoryServer, rounds: usize) -> (usize, Fault) {
    for went in 0..rounds.saturating_add(1) {
        if let Err(fault) = server.round(rt) {
            return (went, fault);
        }
    }
    (rounds, Fault::Busy)
}

// A server whose disk has so many calls that work, and whose next one fails.
fn open(rt: &HostRuntime, works: usize, rounds: usize) -> Result<MemoryServer> {
    let alloc = rt.alloc();
    let mut calls = Vec::new(alloc);
    for _ in 0..works {
        calls.push(Call::Works)?;
    }
    calls.push(Call::Fails)?;
    let door = door(alloc, rounds)?;
    let world = come_back(alloc, &[], calls)?.ok().context("no world")?;
    Ok(Server::new(alloc, door, world)?.with_report(1))
}

// How many requests a file tells.
fn told_by(alloc: Global, file: &[u8]) -> Result<usize> {
    let world = come_back(alloc, file, Vec::new(alloc))?
        .ok()
        .context("no world")?;
    let found = world.found();
    world.close();
    Ok(found)
}

// Tells how many rounds went well, and how many requests are written then.
fn tell_served(rt: &HostRuntime, works: usize, rounds: usize) -> Result<()> {
    let mut server = open(rt, works, rounds)?;
    let (went, fault) = serve(rt, &mut server, rounds);
    let accepted = server.accepted();
    let file = server.world().disk().bytes().to_vec(rt.alloc());
    server.close();
    let kept = told_by(rt.alloc(), &file?)?;
    Ok(println!(rt;
        "{accepted} connections ask, {works} calls of the disk work: {went} rounds, then {fault}; {kept} are written"
    )?)
}

pub(crate) fn tell(rt: &HostRuntime) -> Result<()> {
    for works in 0..3 {
        tell_served(rt, works, 4)?;
    }
    Ok(())
}
