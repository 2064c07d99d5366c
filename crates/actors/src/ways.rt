//! All ways from one actor.
ghost use Rattle.std.specs.Prelude.{◌≡◌, ◌<◌, ◌+◌, [], ℕ, true, false, All, length, map, IfOk, OnOk, IfErr};
ghost use Rattle.actors.specs.Journals.{followed_by};
ghost use Rattle.actors.specs.Seats.{through, ends_of, rings};
ghost use Rattle.actors.specs.Opening.{new_lane, IsUnused};
ghost use Rattle.actors.specs.Resting.{waiting_on, IsFlushed, IsSorted};

use crate::lane::{self, Lane};
use links::OutLink;
use logical_time::{Fault, Node};
use messages::{Envelope, Outbox};
use std::alloc::Global;
use std::marker::Model;

/// The ways from one actor. Where nothing waits on any of them, a look at them costs nothing.
#[derive(Drop)]
pub struct Ways {
    ways: Vec<Lane>,
    // Whether it is known that nothing waits on any of them.
    idle: bool,
}

impl Model for Ways {
    ghost use Rattle.std.specs.Prelude.{◌≡◌, List, true};
    ghost use Rattle.actors.specs.Seats.{LaneValue};
    ghost use Rattle.actors.specs.Resting.{waiting_on};

    ghost Value = { List LaneValue };

    ghost view = { λ l. l.ways.items };

    ghost invariant = { λ l. l.idle ≡ true → waiting_on l.ways.items ≡ 0 };
}

/// Whether nothing waits on any of these ways.
fn are_idle(ways: &[Lane]) -> bool
    ensures { result ≡ true → waiting_on ways.now ≡ 0 }
{
    for place in 0..ways.len() {
        if ways[place].waits() {
            return false;
        }
    }
    true
}

impl Ways {
    /// The ways over these rings, into which nothing went. Refused with `Memory` alone.
    pub fn over(alloc: Global, links: Vec<OutLink>) -> Result<Ways, Fault>
        requires { All IsUnused links.items }
        ensures ok { IfOk result (λ ways. ways ≡ map new_lane links.items) }
        ensures memory { IfErr result (λ e. e ≡ Fault.Memory) }
    {
        let ways = lane::lanes_over(alloc, links)?;
        Ok(Ways { ways, idle: false })
    }

    /// All that was to go to an actor by its way, in order: nothing where none leads there.
    pub fn sent_through(&self, to: Node) -> &[Envelope]
        ensures { result.now ≡ through self.now to }
    {
        lane::sent_through(self.ways.as_slice(), to)
    }

    /// Sorts what is in an outbox to the ways where it goes, in order. What goes to an actor without a way stays. Refused with
    /// `Memory` alone, and then the rest stays in the outbox.
    pub fn sort(&mut self, outbox: &mut Outbox) -> Result<(), Fault>
        ensures ends { ends_of self.new ≡ ends_of self.old }
        ensures rings { rings self.new ≡ rings self.old }
        ensures whole { (node : ℕ) → followed_by (through self.new) outbox.new.sent node ≡ followed_by (through self.old) outbox.old.sent node }
        ensures count { waiting_on self.new + length outbox.new.sent ≡ waiting_on self.old + length outbox.old.sent }
        ensures sorted { OnOk result (IsSorted self.new outbox.new.sent) }
        ensures memory { IfErr result (λ e. e ≡ Fault.Memory) }
    {
        if outbox.len() > 0 {
            self.idle = false;
            lane::sort(outbox, &mut self.ways)?;
        }
        Ok(())
    }

    /// Puts copies of what waits on each way into its ring, in order; a full ring holds back its own alone. Whether an envelope
    /// went into a ring. Refused with `Memory` alone, and then some may have gone. Costs nothing where nothing waits.
    pub fn flush(&mut self) -> Result<bool, Fault>
        ensures ends { ends_of self.new ≡ ends_of self.old }
        ensures whole { (node : ℕ) → through self.new node ≡ through self.old node }
        ensures still { IfOk result (λ moved. moved ≡ false → (rings self.new ≡ rings self.old) × (waiting_on self.new ≡ waiting_on self.old)) }
        ensures fewer { IfOk result (λ moved. moved ≡ true → waiting_on self.new < waiting_on self.old) }
        ensures flushed { OnOk result (All IsFlushed self.new) }
        ensures memory { IfErr result (λ e. e ≡ Fault.Memory) }
    {
        if self.idle {
            return Ok(false);
        }
        let moved = lane::flush(&mut self.ways)?;
        self.idle = are_idle(self.ways.as_slice());
        Ok(moved)
    }
}
