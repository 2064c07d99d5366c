//! What a script asks of an actor is asked at its site.
ghost use Rattle.std.specs.Prelude.{◌≡◌, ◌↔◌, ◌++◌, ◌∷◌, [], true, OnOk};
ghost use Rattle.messages.specs.Topology.{is_shard};
ghost use Rattle.site.specs.Story.{is_here};
ghost use Rattle.by_sites.specs.Asked.{noted};
ghost use Rattle.by_sites.specs.Faults.{EndsScript};
ghost use Rattle.by_sites.specs.Holds.{HasTaken};
ghost use Rattle.workload.specs.declared.transcript.Entry.TheVariants.{Refused};
ghost use Rattle.workload.specs.declared.script.ScriptEvent.TheVariants.{Submit, Collect};

use crate::carrying::site_of;
use logical_time::{Fault, Node, Time};
use messages::{Op, Outcome, Topology};
use site::Site;
use std::alloc::Global;
use threaded::Actor;
use workload::{Entry, ScriptEvent, Transcript};

/// Tells what an event of a session ended. Refused with `Memory` alone.
pub(crate) fn note(
    told: &mut Transcript,
    node: Node,
    ended: Option<(u64, Outcome)>,
) -> Result<(), Fault>
    ensures told { OnOk result (told.new ≡ told.old ++ noted node ended) }
{
    if let Some((number, outcome)) = ended {
        told.push(Entry::of_outcome(node, number, outcome))?;
    }
    Ok(())
}

// Tells that a session refused an operation. Refused with `Memory` alone.
fn refuse(told: &mut Transcript, node: Node, fault: Fault) -> Result<(), Fault>
    ensures told { OnOk result (told.new ≡ told.old ++ Refused node fault ∷ []) }
{
    told.push(Entry::Refused { node, fault })?;
    Ok(())
}

// Whether a refusal of an operation ends the script, and isn't told.
fn ends_script(fault: Fault) -> bool
    ensures { (result ≡ true) ↔ EndsScript fault }
{
    fault == Fault::Memory || fault == Fault::ClockSpent || fault == Fault::StrangerEnd
}

// A session submits an operation at its site.
fn submit(
    alloc: Global,
    topology: &Topology,
    sites: &mut [Site<Actor>],
    session: Node,
    op: &Op,
    told: &mut Transcript,
) -> Result<(), Fault>
    ensures taken { OnOk result (HasTaken topology.now (Submit session op.now ∷ []) sites.old told.old sites.new told.new) }
{
    let place = usize::from(site_of(topology, session));
    if place >= sites.len() || !sites[place].has_session(session) {
        return Err(Fault::Script);
    }
    let copy = op.copied()?;
    match sites[place].submit(alloc, session, copy) {
        Ok(submitted) => note(told, session, submitted.ended),
        Err(fault) if ends_script(fault) => Err(fault),
        Err(fault) => refuse(told, session, fault),
    }
}

// Whether the node is that of a shard which is here.
fn has_shard(site: &Site<Actor>, node: Node) -> bool
    ensures shard { result ≡ true → is_shard site.now.top node ≡ true }
    ensures here { result ≡ true → is_here site.now.top site.now.dc node ≡ true }
{
    site.topology().is_shard(node) && site.topology().dc_of(node) == site.dc()
}

// A shard collects up to a time at its site.
fn collect(
    alloc: Global,
    topology: &Topology,
    sites: &mut [Site<Actor>],
    shard: Node,
    time: Time,
    told: &mut Transcript,
) -> Result<(), Fault>
    ensures taken { OnOk result (HasTaken topology.now (Collect shard time ∷ []) sites.old told.old sites.new told.new) }
{
    let place = usize::from(topology.dc_of(shard));
    if place >= sites.len() || !has_shard(&sites[place], shard) {
        return Err(Fault::Script);
    }
    let ended = sites[place].collect(alloc, shard, time)?;
    note(told, shard, ended)
}

/// What an event of a script asks for is asked; a delivery or a drain asks for nothing. A refused operation is told. Refused with `Script`
/// where an actor isn't there, and as its site refuses a collection, or an operation where that isn't told: with `Memory`, `ClockSpent`
/// and `StrangerEnd`.
pub(crate) fn ask(
    alloc: Global,
    topology: &Topology,
    sites: &mut [Site<Actor>],
    event: &ScriptEvent,
    told: &mut Transcript,
) -> Result<(), Fault>
    ensures taken { OnOk result (HasTaken topology.now (event.now ∷ []) sites.old told.old sites.new told.new) }
{
    match event {
        ScriptEvent::Submit { session, op } => submit(alloc, topology, sites, *session, op, told),
        ScriptEvent::Collect { shard, time } => {
            collect(alloc, topology, sites, *shard, *time, told)
        }
        ScriptEvent::Deliver { number: _ } | ScriptEvent::Drain => Ok(()),
    }
}
