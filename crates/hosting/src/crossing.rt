//! What goes to other sites, and what comes from them.
ghost use Rattle.std.specs.Prelude.{◌≡◌, ◌⊎◌, ◌+◌, [], true, false, length, IfOk, OnOk, OnErr};
ghost use Rattle.site.specs.Story.{site_of as site_of_node, given};
ghost use Rattle.site.specs.Steps.{steps};
ghost use Rattle.site_port.specs.Port.{port_of, kept_of};
ghost use Rattle.hosting.specs.Rounds.{AreGiven, HasPassed, IsComing, IsGoing, LeavesNone, GivesSome};

use actors::Machine;
use disk::Disk;
use logical_time::{Fault, Node};
use messages::Topology;
use site_port::SiteSessions;
use ways::Ways;

/// How many envelopes cross in a round at most, each way.
pub(crate) const MOST: u64 = 65_536;

// The data centre whose site keeps the actor with a node.
fn site_of(topology: &Topology, node: Node) -> u16
    ensures { result ≡ site_of_node topology.now node }
{
    if topology.is_shard(node) {
        topology.dc_of(node)
    } else {
        topology.home_of(node).unwrap_or(0)
    }
}

// Gives the next envelope that is to go to the way to its site. Gives whether there was one.
fn send_one<M: Machine, K: Disk, W: Ways>(
    port: &mut SiteSessions<M, K>,
    ways: &mut W,
) -> Result<bool, Fault>
    ensures sent { OnOk result (HasPassed IsGoing W.steps [] (port_of port.old) ways.old (port_of port.new) ways.new) }
    ensures more { IfOk result (λ more. more ≡ true → length (given port.new.site.site.story) ≡ length (given port.old.site.site.story) + 1) }
    ensures none { IfOk result (λ more. more ≡ false → AreGiven (port_of port.new)) }
    ensures broken { OnErr result (GivesSome W.steps (port_of port.old) ways.old (port_of port.new) ways.new) }
    ensures undone { steps port.new.site.site.story ≡ steps port.old.site.site.story }
    ensures kept { kept_of port.new ≡ kept_of port.old }
{
    let Some(envelope) = port.give()? else {
        return Ok(false);
    };
    let to = site_of(port.site().topology(), envelope.to);
    ways.send(to, &envelope)?;
    Ok(true)
}

/// Gives what is to go to the ways to other sites, up to so many envelopes. Refused as the site and the ways refuse it; then one that was given may be
/// lost, and the node should be ended.
pub fn send_all<M: Machine, K: Disk, W: Ways>(
    port: &mut SiteSessions<M, K>,
    ways: &mut W,
    most: u64,
) -> Result<(), Fault>
    ensures sent { OnOk result (HasPassed IsGoing W.steps [] (port_of port.old) ways.old (port_of port.new) ways.new) }
    ensures rests { OnOk result (AreGiven (port_of port.new) ⊎ (length (given port.new.site.site.story) ≡ length (given port.old.site.site.story) + most)) }
    ensures broken { OnErr result (GivesSome W.steps (port_of port.old) ways.old (port_of port.new) ways.new) }
    ensures undone { steps port.new.site.site.story ≡ steps port.old.site.site.story }
    ensures kept { kept_of port.new ≡ kept_of port.old }
{
    for _sent in 0..most {
        if !send_one(port, ways)? {
            return Ok(());
        }
    }
    Ok(())
}

// Has the site hear the next envelope that came. Gives whether there was one.
fn hear_one<M: Machine, K: Disk, W: Ways>(
    port: &mut SiteSessions<M, K>,
    ways: &mut W,
) -> Result<bool, Fault>
    ensures heard { OnOk result (HasPassed IsComing W.steps [] (port_of port.old) ways.old (port_of port.new) ways.new) }
    ensures silent { LeavesNone W.steps ways.old ways.new }
    ensures ungiven { given port.new.site.site.story ≡ given port.old.site.site.story }
    ensures kept { kept_of port.new ≡ kept_of port.old }
{
    let Some((from, envelope)) = ways.next()? else {
        return Ok(false);
    };
    match port.hear(from, envelope) {
        Ok(()) => Ok(true),
        Err((fault, _envelope)) => {
            if fault == Fault::Memory || !port.site().is_sound() {
                return Err(fault);
            }
            ways.refuse(from);
            Ok(true)
        }
    }
}

/// Has the site hear what came, up to 65,536 envelopes. Refused as the ways refuse it, and with `Memory`; then one that came may be lost, and the node should
/// be ended.
pub(crate) fn hear_all<M: Machine, K: Disk, W: Ways>(
    port: &mut SiteSessions<M, K>,
    ways: &mut W,
) -> Result<(), Fault>
    ensures heard { OnOk result (HasPassed IsComing W.steps [] (port_of port.old) ways.old (port_of port.new) ways.new) }
    ensures silent { LeavesNone W.steps ways.old ways.new }
    ensures ungiven { given port.new.site.site.story ≡ given port.old.site.site.story }
    ensures kept { kept_of port.new ≡ kept_of port.old }
{
    for _heard in 0..MOST {
        if !hear_one(port, ways)? {
            return Ok(());
        }
    }
    Ok(())
}
