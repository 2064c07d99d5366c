//! The sites of all data centres run a script.
ghost use Rattle.std.specs.Prelude.{◌≡◌, true, length, IfOk, OnOk, IfErr};
ghost use Rattle.by_sites.specs.Sites.{AreNewSites, AreSound, AreAtRest};
ghost use Rattle.by_sites.specs.Holds.{HasTaken, Holds};
ghost use Rattle.by_sites.specs.BySites.{IsSitesTranscriptOf};

use crate::asking::ask;
use crate::opening::{close_all, open_all};
use crate::settling::settle;
use logical_time::Fault;
use site::Site;
use std::alloc::Global;
use threaded::Actor;
use workload::{Script, Transcript};

// Whether all that the actors of each site sent is from them, and carries the clocks of their events: so it is in each run.
fn are_sound(sites: &[Site<Actor>]) -> bool
    ensures { result ≡ true → AreSound (length sites.now) sites.now }
{
    for place in 0..sites.len() {
        if !sites[place].is_sound() {
            return false;
        }
    }
    true
}

// All that the script asks for is done, one event after the other, with all that follows from it before the next.
fn take_all(
    alloc: Global,
    script: &Script,
    sites: &mut [Site<Actor>],
    told: &mut Transcript,
) -> Result<(), Fault>
    ensures taken { OnOk result (HasTaken script.now.topology script.now.events sites.old told.old sites.new told.new) }
{
    let events = script.events.as_slice();
    for place in 0..events.len() {
        ask(alloc, &script.topology, sites, &events[place], told)?;
        settle(alloc, &script.topology, sites, told)?;
    }
    Ok(())
}

// What new sites make of a script.
fn perform(alloc: Global, script: &Script, sites: &mut [Site<Actor>]) -> Result<Transcript, Fault>
    requires { AreNewSites script.now.topology script.now.topology.dcs sites.old }
    ensures told { IfOk result (IsSitesTranscriptOf script.now) }
{
    let mut told = Transcript::new(alloc);
    let _limits = script.topology.dcs();
    take_all(alloc, script, sites, &mut told)?;
    settle(alloc, &script.topology, sites, &mut told)?;
    if !are_sound(sites) {
        return Err(Fault::StrangerEnd);
    }
    Ok(told)
}

/// Runs a script by the sites of all data centres, in one process and one thread: each event of it at its actor's site; and then, before
/// the next, each site takes turns, and what it sends to another goes there as a parcel, until nothing is left to do. Deliveries and
/// drains ask for nothing. What is told stands in the order of ending and refusal.
///
/// Refused with `Script` where an actor isn't there; with `Memory`; with `ClockSpent` where no time is left for an actor's clock; with
/// `Oversize` where no parcel can hold an envelope; with `JournalFull` where 10,000,000 rounds didn't end what follows from one event;
/// and with `StrangerEnd` where what an actor sent isn't its own, which is so in no run. Costs what the events cost, and for each envelope
/// that goes from one site to another its parcel, written and read once; nothing of what happened is kept.
pub fn run_by_sites(alloc: Global, script: &Script) -> Result<Transcript, Fault>
    ensures told { IfOk result (IsSitesTranscriptOf script.now) }
{
    let mut sites = open_all(alloc, &script.topology)?;
    let told = perform(alloc, script, sites.as_mut_slice());
    close_all(sites);
    told
}
