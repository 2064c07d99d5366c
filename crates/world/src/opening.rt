//! The actors of a topology, before their first events.
ghost use Rattle.std.specs.Prelude.{◌≡◌, ◌≤◌, ◌+◌, ◌<◌, ◌++◌, [], ◌∷◌, true, length, vec_capacity, IfOk, IfErr};
ghost use Rattle.world.specs.Log.{HasRoom};
ghost use Rattle.shard.specs.Kept.{Represents};
ghost use Rattle.messages.specs.Topology.{is_topology, is_shard, shard_count};
ghost use Rattle.messages.specs.Shard.{new_shard};
ghost use Rattle.world.specs.Run.{opening};
ghost use Rattle.world.specs.Holds.{AreShards, Sits, AreStations, IsRunning};

use crate::actors::Actors;
use crate::station::Station;
use client::Session;
use logical_time::{Fault, Node};
use messages::{Outbox, Topology};
use shard::Shard;
use std::alloc::Global;

/// Adds one more at the end. There is room.
fn add<T>(list: &mut Vec<T>, item: T)
    requires { HasRoom list.old }
    ensures items { list.new.items ≡ list.old.items ++ item ∷ [] }
    ensures capacity { vec_capacity list.old ≤ vec_capacity list.new }
{
    list.push(item).unwrap();
}

/// The shard with this node.
fn open_shard(alloc: Global, topology: &Topology, node: Node) -> Shard
    requires { is_shard topology.now node ≡ true }
    ensures { Represents topology.now node result new_shard }
{
    match Shard::new(alloc, topology, node) {
        Some(shard) => shard,
        None => unreachable!(),
    }
}

/// The shards of a topology, in the order of their nodes, before their first events. Refused with `Memory` alone.
#[tactic(auto, using(crate::proofs::in_code::Beginning::none_yet, crate::proofs::in_code::Beginning::one_more, crate::proofs::in_code::Beginning::shards_begin, crate::proofs::in_code::Beginning::node_is_shard))]
pub fn open_shards(alloc: Global, topology: &Topology) -> Result<Vec<Shard>, Fault>
    ensures ok { IfOk result (λ shards. AreShards topology.now (λ node. new_shard) shards.items) }
    ensures memory { IfErr result (λ e. e ≡ Fault.Memory) }
{
    let count = topology.shard_count();
    let mut shards = Vec::with_capacity(alloc, usize::from(count))?;
    for node in 0..count {
        add(&mut shards, open_shard(alloc, topology, Node::new(node)));
    }
    Ok(shards)
}

/// A session.
fn open_station(alloc: Global, topology: &Topology, session: u16) -> Result<Station, Fault>
    requires { session < length topology.now.homes }
    ensures ok { IfOk result (λ station. Sits (opening topology.now) topology.now (shard_count topology.now + session) station) }
    ensures memory { IfErr result (λ e. e ≡ Fault.Memory) }
{
    let node = topology.session_node(session);
    match topology.home_of(node) {
        Some(_) => {
            let session = Session::new(alloc, topology, node)?;
            Ok(Station {
                node,
                session,
                op: None,
            })
        }
        None => unreachable!(),
    }
}

/// The sessions.
#[tactic(auto, using(crate::proofs::in_code::Beginning::none_yet, crate::proofs::in_code::Beginning::one_more, crate::proofs::in_code::Beginning::stations_begin))]
fn open_stations(alloc: Global, topology: &Topology) -> Result<Vec<Station>, Fault>
    ensures ok { IfOk result (λ stations. AreStations (opening topology.now) topology.now stations.items) }
    ensures memory { IfErr result (λ e. e ≡ Fault.Memory) }
{
    let count = topology.homes().len();
    let mut stations = Vec::with_capacity(alloc, count)?;
    for session in 0..count as u16 {
        match open_station(alloc, topology, session) {
            Ok(station) => add(&mut stations, station),
            Err(fault) => {
                close_stations(stations);
                return Err(fault);
            }
        }
    }
    Ok(stations)
}

/// A copy of a topology. Refused with `Memory` alone.
pub fn copy_of(topology: &Topology) -> Result<Topology, Fault>
    ensures same { IfOk result (λ copy. copy ≡ topology.now) }
    ensures sound { IfOk result (λ copy. is_topology topology.now.dcs topology.now.shards topology.now.homes ≡ true) }
    ensures memory { IfErr result (λ e. e ≡ Fault.Memory) }
{
    Ok(topology.copied()?)
}

/// The actors.
pub fn open_actors(alloc: Global, topology: &Topology) -> Result<Actors, Fault>
    ensures ok { IfOk result (λ actors. (actors.topology ≡ topology.now) × IsRunning topology.now (opening topology.now) actors) }
    ensures memory { IfErr result (λ e. e ≡ Fault.Memory) }
{
    let copy = copy_of(topology)?;
    let stations = open_stations(alloc, topology)?;
    match open_shards(alloc, topology) {
        Ok(shards) => Ok(Actors {
            topology: copy,
            shards,
            stations,
            network: Outbox::new(alloc),
            transcript: Vec::new(alloc),
        }),
        Err(fault) => {
            close_stations(stations);
            Err(fault)
        }
    }
}

/// Ends the shards, one by one.
pub fn close_shards(mut shards: Vec<Shard>) {
    while let Some(shard) = shards.pop() {
        shard.close();
    }
    shards.destroy_empty();
}

/// Ends the shards for a program that ends with them: the memory of their rows is given back with that of the process.
pub fn leave_shards(mut shards: Vec<Shard>) {
    while let Some(shard) = shards.pop() {
        shard.leave();
    }
    shards.destroy_empty();
}

/// Ends the sessions.
pub fn close_stations(mut stations: Vec<Station>) {
    while let Some(station) = stations.pop() {
        let Station {
            node: _,
            session,
            op: _,
        } = station;
        session.close();
    }
    stations.destroy_empty();
}
