//! Seats that conclude nothing: too many, too few, and one of another mesh.
use crate::building::{batch, topology};
use crate::judging::count_of;
use crate::seats::close_all;
use crate::showing::print;
use actors::{Mesh, Seat, drain};
use logical_time::Fault;
use messages::Op;
use std::alloc::Global;
use std::mem;
use threaded::{Actor, conclude};

/// The place of the session's seat, behind those of two shards.
const SESSION: usize = 2;

/// How many seats a mesh has.
const SEATS: usize = 3;

/// The number of a refusal, 0 without one, and how many seats were handed back.
type Refusal = (u16, usize);

/// The seats of two meshes of one topology.
struct Meshes {
    first: Vec<Seat<Actor>>,
    second: Vec<Seat<Actor>>,
}

/// The seats of two shards and a session.
fn mesh(alloc: Global) -> Result<Vec<Seat<Actor>>, Fault> {
    let topology = topology(alloc, (1, 2), &[0])?;
    Mesh::build(alloc, &topology)
}

fn let_go(_op: Op) {}

/// The session writes b and a, and all is done that this asks for.
fn write(alloc: Global, seats: &mut [Seat<Actor>]) -> Result<(), Fault> {
    let Some(seat) = seats.get_mut(SESSION) else {
        return Err(Fault::Script);
    };
    if let Err((fault, op)) = seat.submit(batch(alloc, &["b:x1", "a:x2"])?) {
        let_go(op);
        return Err(fault);
    }
    drain(seats)
}

/// A mesh whose session wrote.
fn written(alloc: Global) -> Result<Vec<Seat<Actor>>, Fault> {
    let mut seats = mesh(alloc)?;
    match write(alloc, seats.as_mut_slice()) {
        Ok(()) => Ok(seats),
        Err(fault) => {
            close_all(seats);
            Err(fault)
        }
    }
}

/// A mesh whose session wrote, and one where nothing happened.
fn make_meshes(alloc: Global) -> Result<Meshes, Fault> {
    let first = written(alloc)?;
    match mesh(alloc) {
        Ok(second) => Ok(Meshes { first, second }),
        Err(fault) => {
            close_all(first);
            Err(fault)
        }
    }
}

/// Moves the seats from a place on to the end of others.
fn give(from: &mut Vec<Seat<Actor>>, first: usize, to: &mut Vec<Seat<Actor>>) -> Result<(), Fault> {
    while first < from.len() {
        to.reserve(1)?;
        to.push_reserved(from.remove(first));
    }
    Ok(())
}

impl Meshes {
    /// Why the first seats conclude nothing; they are there again. Without a refusal they are ended.
    fn refusal(&mut self, alloc: Global) -> Refusal {
        let seats = mem::replace(&mut self.first, Vec::new(alloc));
        match conclude(alloc, seats) {
            Ok(concluded) => {
                concluded.close();
                (0, 0)
            }
            Err((fault, seats)) => {
                let count = seats.len();
                close_all(mem::replace(&mut self.first, seats));
                (fault.number(), count)
            }
        }
    }

    /// Exchanges the sessions' seats.
    fn exchange(&mut self) {
        if let (Some(first), Some(second)) = (
            self.first.get_mut(SESSION),
            self.second.get_mut(SESSION),
        ) {
            mem::swap(first, second);
        }
    }

    /// Why all seats together conclude nothing, all but the first session's, and the first with the other session's. Then
    /// they are as before.
    fn refusals(&mut self, alloc: Global) -> Result<(Refusal, Refusal, Refusal), Fault> {
        give(&mut self.second, 0, &mut self.first)?;
        let together = self.refusal(alloc);
        give(&mut self.first, SEATS, &mut self.second)?;
        give(&mut self.first, SESSION, &mut self.second)?;
        let too_few = self.refusal(alloc);
        give(&mut self.second, SEATS, &mut self.first)?;
        self.exchange();
        let exchanged = self.refusal(alloc);
        self.exchange();
        Ok((together, too_few, exchanged))
    }
}

/// How many operations ended in the run that the seats conclude.
fn ended(alloc: Global, seats: Vec<Seat<Actor>>) -> Result<usize, Fault> {
    match conclude(alloc, seats) {
        Ok(concluded) => {
            let ended = count_of(&concluded);
            concluded.close();
            Ok(ended)
        }
        Err((fault, seats)) => {
            close_all(seats);
            Err(fault)
        }
    }
}

fn tell_refusal(rt: &HostRuntime, name: &str, refusal: Refusal) -> Result<(), Fault> {
    let (number, seats) = refusal;
    print(
        rt,
        format!(in rt.alloc(); "{name}: refused {number}, {seats} seats back")?.as_str(),
    )
}

pub(crate) fn tell(rt: &HostRuntime) -> Result<(), Fault> {
    let mut meshes = make_meshes(rt.alloc())?;
    let refusals = meshes.refusals(rt.alloc());
    let Meshes { first, second } = meshes;
    let (first, second) = (ended(rt.alloc(), first), ended(rt.alloc(), second));
    let (together, too_few, exchanged) = refusals?;
    tell_refusal(rt, "two meshes", together)?;
    tell_refusal(rt, "one seat too few", too_few)?;
    tell_refusal(rt, "another mesh's session", exchanged)?;
    let (first, second) = (first?, second?);
    print(
        rt,
        format!(in rt.alloc(); "each mesh: concluded {first}, concluded {second}")?.as_str(),
    )
}
