//! The actors of a site, before their first events.
ghost use Rattle.std.specs.Prelude.{◌≡◌, ◌<◌, IfOk, IfErr};
ghost use Rattle.messages.specs.Topology.{node_count};
ghost use Rattle.site.specs.Keeping.{AreNew, IsNew};

use crate::queues::is_here;
use actors::{Machine, Member};
use logical_time::{Fault, Node};
use messages::Topology;
use std::alloc::Global;

// What stands at a node's place: its actor, if the site keeps it.
fn open_at<M: Machine>(
    alloc: Global,
    topology: &Topology,
    dc: u16,
    node: Node,
) -> Result<Option<Member<M>>, Fault>
    requires { node < node_count topology.now }
    ensures made { IfOk result (IsNew M.came_from M.untaken topology.now dc node) }
    ensures memory { IfErr result (λ e. e ≡ Fault.Memory) }
{
    if is_here(topology, dc, node) {
        let member = Member::new(alloc, topology, node)?;
        Ok(Some(member))
    } else {
        Ok(None)
    }
}

/// What stands at the place of each node. Refused with `Memory` alone.
pub(crate) fn open_members<M: Machine>(
    alloc: Global,
    topology: &Topology,
    dc: u16,
) -> Result<Vec<Option<Member<M>>>, Fault>
    ensures made { IfOk result (λ members. AreNew M.came_from M.untaken topology.now dc (node_count topology.now) members.items) }
    ensures memory { IfErr result (λ e. e ≡ Fault.Memory) }
{
    let count = topology.node_count();
    let mut members = Vec::with_capacity(alloc, usize::from(count))?;
    for node in 0..count {
        match open_at(alloc, topology, dc, Node::new(node)) {
            Ok(member) => members.push_reserved(member),
            Err(fault) => {
                close_members(members);
                return Err(fault);
            }
        }
    }
    Ok(members)
}

/// Ends the actors.
pub(crate) fn close_members<M: Machine>(mut members: Vec<Option<Member<M>>>) {
    while let Some(place) = members.pop() {
        if let Some(member) = place {
            member.close();
        }
    }
    members.destroy_empty();
}
