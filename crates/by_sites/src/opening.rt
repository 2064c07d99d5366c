//! The sites of all data centres, before their first events, and after their last.
ghost use Rattle.std.specs.Prelude.{◌≡◌, ◌<◌, [], IfOk, IfErr};
ghost use Rattle.by_sites.specs.Sites.{new_site, AreNewSites};

use logical_time::Fault;
use messages::Topology;
use site::Site;
use std::alloc::Global;
use threaded::Actor;

/// The site of each data centre, in order, to which nothing happened yet. Refused with `Memory` alone.
pub(crate) fn open_all(alloc: Global, topology: &Topology) -> Result<Vec<Site<Actor>>, Fault>
    ensures made { IfOk result (λ sites. AreNewSites topology.now topology.now.dcs sites.items) }
    ensures memory { IfErr result (λ e. e ≡ Fault.Memory) }
{
    let count = topology.dcs();
    let mut sites = Vec::with_capacity(alloc, usize::from(count))?;
    for dc in 0..count {
        match Site::new(alloc, topology, dc) {
            Ok(site) => sites.push_reserved(site),
            Err(fault) => {
                close_all(sites);
                return Err(fault);
            }
        }
    }
    Ok(sites)
}

/// Ends the sites.
pub(crate) fn close_all(mut sites: Vec<Site<Actor>>) {
    while let Some(site) = sites.pop() {
        site.close();
    }
    sites.destroy_empty();
}
