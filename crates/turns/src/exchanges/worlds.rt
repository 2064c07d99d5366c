//! Worlds whose sessions serve lines, and what clients send.
use column_family::{Family, Schema};
use logical_time::Fault;
use messages::Topology;
use std::alloc::Global;
use world::World;

/// A client's requests: a batch that inserts a column, and a read of it.
pub(crate) const REQUESTS: &str =
    "000000130100000001016600016200000178000000013100000012020166000000010001620000000001000178";

/// A world of two data centres of one shard, with so many sessions, all at home in the first.
pub(crate) fn world(alloc: Global, sessions: u16) -> Result<World, Fault> {
    let mut families = Vec::new(alloc);
    families.push(Family::from_slice(alloc, b"f")?)?;
    let schema = Schema::new(families).ok_or(Fault::UnknownFamily)?;
    let mut homes = Vec::new(alloc);
    for _ in 0..sessions {
        homes.push(0)?;
    }
    let topology = Topology::new(2, 1, schema, homes)?;
    World::new(alloc, &topology)
}
