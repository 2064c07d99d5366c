//! Seats whose journals are a run.
ghost use Rattle.std.specs.Prelude.{◌≡◌, ◌<◌, ◌↔◌, true, false, None, IfOk, IfErr, IfSome, IfNone};
ghost use Rattle.logical_time.specs.declared.fault.Fault.TheVariants.{Memory};
ghost use Rattle.messages.specs.Topology.{is_topology, node_count};
ghost use Rattle.threaded.specs.OneRun.{seat_of, journal_of, AreOfTopology, AreSeatsOf, DoLinksMatch};
ghost use Rattle.threaded.specs.Matching.{IsPlace, ArePlaces, IsUnseated, IsUnconcluded};
ghost use Rattle.threaded.specs.Concluded.{AreConcluded};

use crate::actor::Actor;
use crate::concluded::Concluded;
use crate::matching::{are_timed, do_receive};
use actors::Seat;
use equality::same_topology;
use logical_time::{Fault, Node};
use messages::Topology;
use std::alloc::Global;

/// How many actors a topology has, which is within its limits.
fn count_of(topology: &Topology) -> u16
    ensures value { result ≡ node_count topology.now }
    ensures limits { is_topology topology.now.dcs topology.now.shards topology.now.homes ≡ true }
{
    let _dcs = topology.dcs();
    let _shards = topology.shards();
    let _homes = topology.homes();
    topology.node_count()
}

/// Whether all seats are of this topology.
fn are_of(topology: &Topology, seats: &[Seat<Actor>]) -> bool
    ensures { (result ≡ true) ↔ AreOfTopology topology.now seats.now }
{
    for place in 0..seats.len() {
        if !same_topology(seats[place].topology(), topology) {
            return false;
        }
    }
    true
}

/// Where the seat of the actor with a node stands, if there is one.
pub(crate) fn place_of(seats: &[Seat<Actor>], node: Node) -> Option<usize>
    ensures some { IfSome result (IsPlace seats.now node) }
    ensures none { IfNone result (seat_of seats.now node ≡ None) }
{
    for place in 0..seats.len() {
        if seats[place].node() == node {
            return Some(place);
        }
    }
    None
}

/// Where the seats of so many nodes stand. Refused with `StrangerEnd` where one has none, and with `Memory`.
fn places_of(alloc: Global, seats: &[Seat<Actor>], count: u16) -> Result<Vec<usize>, Fault>
    ensures ok { IfOk result (λ places. ArePlaces count seats.now places.items) }
    ensures refused { IfErr result (IsUnseated count seats.now) }
{
    let mut places = Vec::new(alloc);
    for node in 0..count {
        match place_of(seats, Node::new(node)) {
            Some(place) => places.push(place)?,
            None => return Err(Fault::StrangerEnd),
        }
    }
    Ok(places)
}

/// Whether all that seats sent carries the clocks of their events, and what they received is what was sent to them: exactly then
/// their journals are a run. Refused with `Memory` alone.
fn do_fit(
    alloc: Global,
    topology: &Topology,
    seats: &[Seat<Actor>],
    places: &[usize],
) -> Result<bool, Fault>
    requires seats { AreSeatsOf topology.now seats.now }
    requires places { ArePlaces (node_count topology.now) seats.now places.now }
    ensures fit { IfOk result (λ fit. fit ≡ true → AreConcluded topology.now seats.now) }
    ensures apart { IfOk result (λ fit. fit ≡ false → DoLinksMatch topology.now (journal_of seats.now) → ⊥) }
    ensures memory { IfErr result (λ e. e ≡ Memory) }
{
    if !are_timed(seats, places) {
        return Ok(false);
    }
    let all = do_receive(alloc, topology, seats, places)?;
    Ok(all)
}

/// The topology of seats whose journals are a run. Refused with `StrangerEnd` where they aren't of one run, and with `Memory`.
fn topology_of(alloc: Global, seats: &[Seat<Actor>]) -> Result<Topology, Fault>
    ensures ok { IfOk result (λ topology. AreConcluded topology seats.now) }
    ensures refused { IfErr result (IsUnconcluded seats.now) }
{
    if seats.is_empty() {
        return Err(Fault::StrangerEnd);
    }
    let topology = seats[0].topology();
    let count = count_of(topology);
    if seats.len() != usize::from(count) || !are_of(topology, seats) {
        return Err(Fault::StrangerEnd);
    }
    let places = places_of(alloc, seats, count)?;
    let fit = do_fit(alloc, topology, seats, places.as_slice())?;
    if !fit {
        return Err(Fault::StrangerEnd);
    }
    Ok(topology.copied()?)
}

/// What the journals of these seats conclude: a run of all actors, whose journals they are. Refused with `StrangerEnd`
/// exactly where the seats aren't one for each node of one topology, or where on some link the receipts aren't a beginning of
/// what the sender's journal sent there; and with `Memory`. Then the seats are handed back. Each receipt is compared once with
/// what its sender's seat shows that it sent; no event is done again.
pub fn conclude(
    alloc: Global,
    seats: Vec<Seat<Actor>>,
) -> Result<Concluded, (Fault, Vec<Seat<Actor>>)>
    ensures seats { IfOk result (λ c. c.seats ≡ seats.items) }
    ensures run { IfOk result (λ c. AreConcluded c.top seats.items) }
    ensures refused { IfErr result (λ e. IsUnconcluded seats.items e.0) }
    ensures back { IfErr result (λ e. e.1.items ≡ seats.items) }
{
    match topology_of(alloc, seats.as_slice()) {
        Ok(topology) => Ok(Concluded::new(topology, seats)),
        Err(fault) => Err((fault, seats)),
    }
}
