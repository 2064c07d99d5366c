//! Turns of all sites, with what one sends another carried in between, until nothing is left to do.
ghost use Rattle.std.specs.Prelude.{◌≡◌, ◌<◌, ◌||◌, false, IfOk, OnOk, length};
ghost use Rattle.messages.specs.Topology.{TopologyValue};
ghost use Rattle.by_sites.specs.Sites.{AreAtRest, IsAllHandled, IsAtRestAt};
ghost use Rattle.by_sites.specs.Holds.{GoesOn};

use crate::asking::note;
use crate::carrying::carry;
use logical_time::Fault;
use messages::Topology;
use site::{Site, Turn};
use std::alloc::Global;
use threaded::Actor;
use workload::Transcript;

/// How many rounds there may be after an event of a script.
const MOST: u64 = 10_000_000;

// A turn of the site at a place, and what it ended is told. Whether it did anything. Refused as `Site::turn` is, and with `Memory`.
fn turn(
    alloc: Global,
    sites: &mut [Site<Actor>],
    place: usize,
    told: &mut Transcript,
) -> Result<bool, Fault>
    requires { place < length sites.old }
    ensures on { (top : TopologyValue) → OnOk result (GoesOn top sites.old told.old sites.new told.new) }
    ensures rest { IfOk result (λ any. any ≡ false → (sites.new ≡ sites.old) × IsAllHandled place sites.new) }
    ensures count { OnOk result (length sites.new ≡ length sites.old) }
{
    let turned = sites[place].turn(alloc)?;
    // who ended an operation is here
    let _sound = sites[place].is_sound();
    match turned {
        Turn::Idle => Ok(false),
        Turn::Handled => Ok(true),
        Turn::Ended {
            session,
            number,
            outcome,
        } => {
            note(told, session, Some((number, outcome)))?;
            Ok(true)
        }
    }
}

// A turn of the site at a place, and one parcel from there to another. Whether there was either.
fn step(
    alloc: Global,
    topology: &Topology,
    sites: &mut [Site<Actor>],
    place: usize,
    told: &mut Transcript,
) -> Result<bool, Fault>
    requires { place < length sites.old }
    ensures on { OnOk result (GoesOn topology.now sites.old told.old sites.new told.new) }
    ensures rest { IfOk result (λ any. any ≡ false → (sites.new ≡ sites.old) × IsAtRestAt place sites.new) }
    ensures count { OnOk result (length sites.new ≡ length sites.old) }
{
    let turned = turn(alloc, sites, place, told)?;
    let carried = carry(alloc, topology, sites, place)?;
    Ok(turned || carried)
}

fn either(first: bool, second: bool) -> bool
    ensures { result ≡ (first || second) }
{
    first || second
}

// A step of each site, one after the other. Whether there was anything to do.
fn round(
    alloc: Global,
    topology: &Topology,
    sites: &mut [Site<Actor>],
    told: &mut Transcript,
) -> Result<bool, Fault>
    ensures on { OnOk result (GoesOn topology.now sites.old told.old sites.new told.new) }
    ensures rest { IfOk result (λ any. any ≡ false → AreAtRest (length sites.new) sites.new) }
{
    let mut any = false;
    for place in 0..sites.len() {
        let more = step(alloc, topology, sites, place, told)?;
        any = either(any, more);
    }
    Ok(any)
}

/// Rounds until one does nothing: all that was sent is handled then. Refused as a turn is and as a parcel is, with `Memory`, and with
/// `JournalFull` after 10,000,000 rounds.
pub(crate) fn settle(
    alloc: Global,
    topology: &Topology,
    sites: &mut [Site<Actor>],
    told: &mut Transcript,
) -> Result<(), Fault>
    ensures on { OnOk result (GoesOn topology.now sites.old told.old sites.new told.new) }
    ensures rest { OnOk result (AreAtRest (length sites.new) sites.new) }
{
    for _round in 0..MOST {
        let more = round(alloc, topology, sites, told)?;
        if !more {
            return Ok(());
        }
    }
    Err(Fault::JournalFull)
}
