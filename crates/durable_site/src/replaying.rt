//! What a log tells is done again.
ghost use Rattle.std.specs.Prelude.{◌≡◌, ◌⊎◌, ◌<◌, ◌&&◌, [], ◌∷◌, IfOk, IfErr, OnOk, replicate};
ghost use Rattle.logical_time.specs.declared.fault.Fault.TheVariants.{Memory};
ghost use Rattle.messages.specs.Topology.{is_shard as is_shard_in};
ghost use Rattle.site.specs.Story.{is_here};
ghost use Rattle.site.specs.Steps.{Asked, Came, Turned, Collected};
ghost use Rattle.site_ledger.specs.Steps.{steps_of, steps_told};
ghost use Rattle.durable_site.specs.Stuck.{HasRedone, CantDo, IsStuck, site_before};

use crate::keeping::counted;
use actors::Machine;
use logical_time::{Fault, Node, Time};
use messages::{Envelope, Op, Topology};
use site::Site;
use site_ledger::Entry;
use std::alloc::Global;

// Lets an envelope go.
fn let_go(_envelope: Envelope) {}

// Whether the node is that of a shard which is here.
fn has_shard<M: Machine>(site: &Site<M>, node: Node) -> bool
    ensures { result ≡ (is_shard_in site.now.top node && is_here site.now.top site.now.dc node) }
{
    let topology = site.topology();
    topology.is_shard(node) && topology.dc_of(node) == site.dc()
}

// A session is asked again. Refused as it is, and with `Busy` where it isn't here.
fn ask<M: Machine>(alloc: Global, site: &mut Site<M>, node: Node, op: Op) -> Result<(), Fault>
    ensures ok { OnOk result (HasRedone site.old (Asked node op ∷ []) site.new) }
    ensures refused { IfErr result (CantDo M.refuses site.old (Asked node op)) }
{
    if !site.has_session(node) {
        return Err(Fault::Busy);
    }
    match site.submit(alloc, node, op) {
        Ok(_) => Ok(()),
        Err(fault) => Err(fault),
    }
}

// An envelope comes again. Refused as it is.
fn come<M: Machine>(
    alloc: Global,
    site: &mut Site<M>,
    from: u16,
    envelope: Envelope,
) -> Result<(), Fault>
    ensures ok { OnOk result (HasRedone site.old (Came from envelope ∷ []) site.new) }
    ensures refused { IfErr result (CantDo M.refuses site.old (Came from envelope)) }
{
    match site.hear(alloc, from, envelope) {
        Ok(()) => Ok(()),
        Err((fault, envelope)) => {
            let_go(envelope);
            Err(fault)
        }
    }
}

// The first envelope that waits is handled again. Refused as it is, and with `Busy` where none waits.
fn turn<M: Machine>(alloc: Global, site: &mut Site<M>) -> Result<(), Fault>
    ensures ok { OnOk result (HasRedone site.old (Turned ∷ []) site.new) }
    ensures refused { IfErr result (CantDo M.refuses site.old Turned) }
{
    match site.turn(alloc) {
        Ok(turn) => {
            if counted(&turn) == 0 {
                return Err(Fault::Busy);
            }
            Ok(())
        }
        Err(fault) => Err(fault),
    }
}

// So many envelopes are handled again, each the first that waits.
fn turn_often<M: Machine>(alloc: Global, site: &mut Site<M>, count: u32) -> Result<(), Fault>
    ensures ok { OnOk result (HasRedone site.old (replicate count Turned) site.new) }
    ensures refused { IfErr result (IsStuck M.refuses site.old (replicate count Turned)) }
{
    for _turn in 0..count {
        turn(alloc, site)?;
    }
    Ok(())
}

// A shard collects again. Refused as it is, and with `Busy` where it isn't here.
fn collect<M: Machine>(
    alloc: Global,
    site: &mut Site<M>,
    node: Node,
    time: Time,
) -> Result<(), Fault>
    ensures ok { OnOk result (HasRedone site.old (Collected node time ∷ []) site.new) }
    ensures refused { IfErr result (CantDo M.refuses site.old (Collected node time)) }
{
    if !has_shard(site, node) {
        return Err(Fault::Busy);
    }
    match site.collect(alloc, node, time) {
        Ok(_) => Ok(()),
        Err(fault) => Err(fault),
    }
}

// What an entry tells is done again.
fn redo<M: Machine>(alloc: Global, site: &mut Site<M>, entry: Entry) -> Result<(), Fault>
    ensures ok { OnOk result (HasRedone site.old (steps_of entry) site.new) }
    ensures refused { IfErr result (IsStuck M.refuses site.old (steps_of entry)) }
{
    match entry {
        Entry::Whose { .. } | Entry::Met { .. } => Ok(()),
        Entry::Asked { session, op } => ask(alloc, site, Node::new(session), op),
        Entry::Came { from, envelope } => come(alloc, site, from, envelope),
        Entry::Turned { count } => turn_often(alloc, site, count),
        Entry::Collected { shard, time } => collect(alloc, site, Node::new(shard), time),
    }
}

// What these entries tell is done again, in order. Refused where the site gets stuck, as it is.
fn redo_all<M: Machine>(alloc: Global, site: &mut Site<M>, entries: Vec<Entry>) -> Result<(), Fault>
    ensures ok { OnOk result (HasRedone site.old (steps_told entries.items) site.new) }
    ensures refused { IfErr result (IsStuck M.refuses site.old (steps_told entries.items)) }
{
    for entry in entries {
        redo(alloc, site, entry)?;
    }
    Ok(())
}

/// The site of a data centre of this topology that did what these entries tell, in order, and nothing else. Costs what that costs.
/// Refused with `Memory`, and where the site gets stuck, as it is.
pub(crate) fn replay<M: Machine>(
    alloc: Global,
    topology: &Topology,
    dc: u16,
    entries: Vec<Entry>,
) -> Result<Site<M>, Fault>
    requires { dc < topology.now.dcs }
    ensures redone { IfOk result (λ s. HasRedone (site_before topology.now dc) (steps_told entries.items) s) }
    ensures refused { IfErr result (λ e. (e ≡ Memory) ⊎ IsStuck M.refuses (site_before topology.now dc) (steps_told entries.items) e) }
{
    let mut site = Site::new(alloc, topology, dc)?;
    match redo_all(alloc, &mut site, entries) {
        Ok(()) => Ok(site),
        Err(fault) => {
            site.close();
            Err(fault)
        }
    }
}
