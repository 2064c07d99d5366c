//! The seats of a topology.
ghost use Rattle.std.specs.Prelude.{◌≡◌, IfOk, IfErr};
ghost use Rattle.messages.specs.Topology.{node_count};
ghost use Rattle.links.specs.Mesh.{IsMesh};
ghost use Rattle.actors.specs.Building.{AreNewSeats};

use crate::machine::Machine;
use crate::seat::Seat;
use links::{Ends, RING};
use logical_time::{Fault, Node};
use messages::Topology;
use std::alloc::Global;

/// How many events a journal may hold, where nothing else is asked for.
const JOURNAL: usize = 1_000_000;

/// The seats of a topology, joined by rings.
pub struct Mesh;

/// Ends seats and their machines.
fn close_all<M: Machine>(mut seats: Vec<Seat<M>>) {
    while let Some(seat) = seats.pop() {
        seat.close().close();
    }
    seats.destroy_empty();
}

/// A seat for each actor, with its ends of the rings.
fn seat_all<M: Machine>(
    alloc: Global,
    topology: &Topology,
    mut ends: Vec<Ends>,
    ring: usize,
    journal: usize,
) -> Result<Vec<Seat<M>>, Fault>
    requires { IsMesh topology.now ring ends.items }
    ensures ok { IfOk result (λ seats. AreNewSeats topology.now ring journal (node_count topology.now) seats.items) }
    ensures memory { IfErr result (λ e. e ≡ Fault.Memory) }
{
    let count = topology.node_count();
    let mut seats = Vec::with_capacity(alloc, usize::from(count))?;
    for node in 0..count {
        match Seat::new(alloc, topology, Node::new(node), ends.remove(0), journal) {
            Ok(seat) => seats.push_reserved(seat),
            Err(fault) => {
                close_all(seats);
                return Err(fault);
            }
        }
    }
    Ok(seats)
}

impl Mesh {
    /// A seat for each actor, by their nodes, before their first events. Each ring holds so many envelopes, and each
    /// journal so many events; 1 to 256 envelopes and 1 to 1,000,000 events are what a caller asks for: through a ring for
    /// none nothing moves, and a journal for none refuses each event. Refused with `Memory` alone.
    pub fn build_sized<M: Machine>(
        alloc: Global,
        topology: &Topology,
        ring: usize,
        journal: usize,
    ) -> Result<Vec<Seat<M>>, Fault>
        ensures ok { IfOk result (λ seats. AreNewSeats topology.now ring journal (node_count topology.now) seats.items) }
        ensures memory { IfErr result (λ e. e ≡ Fault.Memory) }
    {
        let ends = links::mesh(alloc, topology, ring)?;
        seat_all(alloc, topology, ends, ring, journal)
    }

    /// The same with rings for 256 envelopes and journals for 1,000,000 events.
    pub fn build<M: Machine>(alloc: Global, topology: &Topology) -> Result<Vec<Seat<M>>, Fault>
        ensures ok { IfOk result (λ seats. AreNewSeats topology.now 256 1000000 (node_count topology.now) seats.items) }
        ensures memory { IfErr result (λ e. e ≡ Fault.Memory) }
    {
        Mesh::build_sized(alloc, topology, RING, JOURNAL)
    }
}
