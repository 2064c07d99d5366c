//! What one site sent to another comes there, as bytes.
ghost use Rattle.std.specs.Prelude.{◌≡◌, ◌<◌, false, List, IfOk, OnOk, length};
ghost use Rattle.workload.specs.declared.transcript.Entry.{Entry};
ghost use Rattle.site.specs.Story.{site_of as site_of_node};
ghost use Rattle.by_sites.specs.Sites.{HasCome, IsAllGiven};
ghost use Rattle.by_sites.specs.Holds.{GoesOn};

use logical_time::{Fault, Node};
use messages::Topology;
use parcels::{read_parcel, what_is_spelled_is_read, write_parcel};
use site::Site;
use std::alloc::Global;
use threaded::Actor;

/// The data centre whose site keeps the actor.
pub(crate) fn site_of(topology: &Topology, node: Node) -> u16
    ensures { result ≡ site_of_node topology.now node }
{
    if topology.is_shard(node) {
        topology.dc_of(node)
    } else {
        topology.home_of(node).unwrap_or(0)
    }
}

/// A parcel comes from the site of one data centre to that at a place. Refused as `Site::hear` is, and with `Memory`.
fn bring(
    alloc: Global,
    sites: &mut [Site<Actor>],
    from: u16,
    to: usize,
    bytes: &[u8],
) -> Result<(), Fault>
    ensures come { OnOk result (HasCome from to bytes.now sites.old sites.new) }
    ensures count { OnOk result (length sites.new ≡ length sites.old) }
{
    if to >= sites.len() {
        return Err(Fault::StrangerEnd);
    }
    let envelope = read_parcel(alloc, bytes)?;
    match sites[to].hear(alloc, from, envelope) {
        Ok(()) => Ok(()),
        Err((fault, _)) => Err(fault),
    }
}

/// What the site at a place is to give next to another is written as a parcel, which comes there. Whether there was any. Refused with
/// `Oversize` where no parcel can hold it, as `Site::hear` is, and with `Memory`.
pub(crate) fn carry(
    alloc: Global,
    topology: &Topology,
    sites: &mut [Site<Actor>],
    place: usize,
) -> Result<bool, Fault>
    requires { place < length sites.old }
    ensures on { (entries : List Entry) → OnOk result (GoesOn topology.now sites.old entries sites.new entries) }
    ensures rest { IfOk result (λ any. any ≡ false → (sites.new ≡ sites.old) × IsAllGiven place sites.new) }
    ensures count { OnOk result (length sites.new ≡ length sites.old) }
{
    what_is_spelled_is_read();
    let Some(envelope) = sites[place].give(alloc)? else {
        return Ok(false);
    };
    let parcel = write_parcel(alloc, &envelope)?;
    let from = sites[place].dc();
    let to = usize::from(site_of(topology, envelope.to));
    bring(alloc, sites, from, to, &parcel)?;
    Ok(true)
}
