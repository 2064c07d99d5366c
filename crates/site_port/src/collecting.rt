//! Clocks and collections of the shards of a site.
ghost use Rattle.std.specs.Prelude.{◌≡◌, ◌<◌, ◌-◌, ◌^◌, min, true, IfOk, OnOk, IfErr, OnErr};
ghost use Rattle.messages.specs.Topology.{shard_node, is_shard};
ghost use Rattle.site.specs.Story.{is_here};
ghost use Rattle.site_port.specs.Collecting.{clocks_of, MayHaveCollected, IsBroken, HasCollected, HasBrokenOff};
ghost use Rattle.site_port.specs.Port.{StaysKept};

use crate::turns::tell;
use crate::waiting::Late;
use actors::Machine;
use disk::Disk;
use durable_site::DurableSite;
use logical_time::{Fault, Node, Shard, Time};
use std::alloc::Global;

/// The last time that there is.
const LAST: u64 = 0xffff_ffff_ffff;

// The node of a shard of a site's data centre.
fn node_of<M: Machine, D: Disk>(site: &DurableSite<M, D>, shard: u16) -> Node
    requires { shard < site.now.site.top.shards }
    ensures node { result ≡ shard_node site.now.site.top site.now.site.dc shard }
    ensures shard { is_shard site.now.site.top result ≡ true }
    ensures here { is_here site.now.site.top site.now.site.dc result ≡ true }
{
    let home = site.topology().home(site.dc());
    match Shard::new(shard) {
        Some(shard) => home.node_of(shard),
        None => unreachable!(),
    }
}

// What a clock shows; where it is spent, the last time that there is.
fn time_of(clock: u64) -> Time
    ensures { result ≡ min clock (2 ^ 48 - 1) }
{
    match Time::new(clock.min(LAST)) {
        Some(time) => time,
        None => unreachable!(),
    }
}

/// The clocks of the shards that are here, in the order of their nodes; where one is spent, the last time that there is. Refused with
/// `Memory` alone.
pub(crate) fn clocks_here<M: Machine, D: Disk>(
    alloc: Global,
    site: &DurableSite<M, D>,
) -> Result<Vec<Time>, Fault>
    ensures clocks { IfOk result (λ list. list.items ≡ clocks_of site.now.site) }
    ensures memory { IfErr result (λ e. e ≡ Fault.Memory) }
{
    let mut clocks = Vec::new(alloc);
    for shard in 0..site.topology().shards().get() {
        let clock = site.clock_of(node_of(site, shard));
        clocks.push(time_of(clock))?;
    }
    Ok(clocks)
}

// A shard collects up to its time among these. It stays as it is where it has none, where memory is refused, and where its machine
// refuses it. Refused with `StrangerEnd` where the site isn't sound, or is no longer.
fn collect_one<M: Machine, D: Disk>(
    alloc: Global,
    site: &mut DurableSite<M, D>,
    late: &mut Vec<Late>,
    shard: u16,
    times: &[Time],
) -> Result<(), Fault>
    requires { shard < site.old.site.top.shards }
    ensures collected { OnOk result (MayHaveCollected shard times.now site.old.site late.old.items site.new.site late.new.items) }
    ensures broken { OnErr result (IsBroken shard times.now site.old.site site.new.site) }
    ensures same { OnErr result (late.new.items ≡ late.old.items) }
    ensures stranger { IfErr result (λ e. e ≡ Fault.StrangerEnd) }
    ensures kept { StaysKept site.old site.new }
{
    let Some(time) = times.get(usize::from(shard)) else {
        return Ok(());
    };
    if late.reserve(1).is_err() {
        return Ok(());
    }
    let node = node_of(site, shard);
    match site.collect(alloc, node, *time) {
        Ok(ended) => {
            let _none = tell(late, &None, node, ended);
            Ok(())
        }
        Err(_refused) => {
            if site.is_sound() {
                return Ok(());
            }
            Err(Fault::StrangerEnd)
        }
    }
}

/// Each shard that is here, in the order of their nodes, collects up to the time that it has among these. One stays as it is where it
/// has none, where memory is refused, and where its machine refuses it. What ended is put behind the ends in `late`. Costs what the
/// collections do. Refused with `StrangerEnd` where the site isn't sound, or is no longer: then the rest stay as they are.
pub(crate) fn collect_all<M: Machine, D: Disk>(
    alloc: Global,
    site: &mut DurableSite<M, D>,
    late: &mut Vec<Late>,
    times: &[Time],
) -> Result<(), Fault>
    ensures collected { OnOk result (HasCollected times.now site.old.site late.old.items site.new.site late.new.items) }
    ensures sound { OnOk result (site.old.site.sound ≡ true → site.new.site.sound ≡ true) }
    ensures broken { OnErr result (HasBrokenOff times.now site.old.site late.old.items site.new.site late.new.items) }
    ensures stranger { IfErr result (λ e. e ≡ Fault.StrangerEnd) }
    ensures kept { StaysKept site.old site.new }
{
    for shard in 0..site.topology().shards().get() {
        collect_one(alloc, site, late, shard, times)?;
    }
    Ok(())
}
