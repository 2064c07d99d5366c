//! Collections of a site's shards, each up to what their clocks were at the last one.
ghost use Rattle.std.specs.Prelude.{◌≡◌, [], true, IfOk, OnOk, IfSome};
ghost use Rattle.site.specs.Story.{given};
ghost use Rattle.site_port.specs.Collecting.{clocks_of, HasCollected};
ghost use Rattle.site_port.specs.Port.{kept_of};
ghost use Rattle.hosting.specs.Rounds.{is_due, due};

use disk::Disk;
use logical_time::{Fault, Time};
use site_port::SiteSessions;
use std::alloc::Global;
use threaded::Actor;

/// How many milliseconds lie between two collections at least.
const PERIOD: u64 = 5_000;

/// What the clocks of a site's shards were when they collected last.
#[derive(Drop)]
pub struct Marks {
    /// The clocks, in the order of the shards' nodes; none before the first time.
    pub clocks: Vec<Time>,
    /// When that was, in milliseconds.
    pub taken: u64,
}

impl Marks {
    /// Before the first time.
    pub(crate) fn new(alloc: Global) -> Marks
        ensures clocks { result.clocks.items ≡ [] }
        ensures taken { result.taken ≡ 0 }
    {
        Marks {
            clocks: Vec::new(alloc),
            taken: 0,
        }
    }

    // Whether it is time for the shards to collect.
    fn are_due(&self, time: u64) -> bool
        ensures { result ≡ is_due self.now time }
    {
        time.saturating_sub(self.taken) >= PERIOD
    }
}

/// Where it is time, the shards collect up to the marks; gives the marks that they have then. Where there is no memory for these nothing
/// is collected, and it is time again. Refused as the port refuses the collection.
pub(crate) fn collect_due<K: Disk>(
    port: &mut SiteSessions<Actor, K>,
    marks: &Marks,
    time: u64,
) -> Result<Option<Marks>, Fault>
    ensures ungiven { given port.new.site.site.story ≡ given port.old.site.site.story }
    ensures collected { OnOk result (HasCollected (due marks.now time) port.old.site.site port.old.late port.new.site.site port.new.late) }
    ensures stays { (port.new.waiting ≡ port.old.waiting) × (port.new.behind ≡ port.old.behind) }
    ensures kept { kept_of port.new ≡ kept_of port.old }
    ensures marked { IfOk result (λ o. IfSome o (λ m. (is_due marks.now time ≡ true) × (m.taken ≡ time) × (m.clocks.items ≡ clocks_of port.old.site.site))) }
{
    if !marks.are_due(time) {
        return Ok(None);
    }
    let Ok(clocks) = port.clocks() else {
        return Ok(None);
    };
    port.collect(&marks.clocks)?;
    Ok(Some(Marks {
        clocks,
        taken: time,
    }))
}
