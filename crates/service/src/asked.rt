//! What a request asks.
ghost use Rattle.std.specs.Prelude.{◌≡◌, ◌==◌, ◌&&◌, ◌+◌, true, IfOk, IfErr, IfSome, IfNone, OnOk, OnErr};
ghost use Rattle.messages.specs.Topology.{is_session};
ghost use Rattle.world.specs.declared.run_event.RunEvent.TheVariants.{Submit};
ghost use Rattle.world.specs.World.{run_of, refusal_in, Takes, IsRefusedAs};
ghost use Rattle.service.specs.Port.{CameTo, EndedWith, HasNoCopy, IsOpen};

use drains::Deliveries;
use logical_time::{Fault, Node};
use messages::{Op, Outcome};
use world::{Completed, World};

/// A world that takes a request, is drained, and then tells what came of it.
pub(crate) trait Asked: Deliveries {
    /// A session submits an operation; the answer is its number. That the node is a session's is the caller's condition.
    /// Refused as the run refuses it, and with `Memory`; then nothing changes, and the operation is handed back.
    fn submit(&mut self, session: Node, op: Op) -> Result<u64, (Fault, Op)>
        requires { is_session (Self.world self.old).top session ≡ true }
        ensures number { IfOk result (λ n. n ≡ ((run_of (Self.world self.old)).sessions session).count + 1) }
        ensures taken { OnOk result (Takes (Self.world self.old) (Submit session op) (Self.world self.new)) }
        ensures knows { IfOk result (λ n. Self.knows self.new session n) }
        ensures refused { IfErr result (λ e. IsRefusedAs (refusal_in (Self.world self.old) (Submit session op)) e.0) }
        ensures same { OnErr result (Self.world self.new ≡ Self.world self.old) }
        ensures back { IfErr result (λ e. e.1 ≡ op) }
        ensures stays { (start : Self) → Self.stays start self.old → Self.stays start self.new };

    /// What came of the operation that was submitted last, if it has ended. It is told once. Refused with `Memory` where there is
    /// none for a copy of a read's answer.
    fn outcome(&mut self, session: Node, number: u64) -> Result<Option<Outcome>, Fault>
        requires { Self.knows self.old session number }
        ensures came { IfOk result (λ o. CameTo (run_of (Self.world self.old)) session number o) }
        ensures no_copy { IfErr result (HasNoCopy (run_of (Self.world self.old)) session number) }
        ensures same { Self.world self.new ≡ Self.world self.old }
        ensures stays { (start : Self) → Self.stays start self.old → Self.stays start self.new };
}

// Whether this is the end of an operation.
fn is_end(completed: &Completed, session: Node, number: u64) -> bool
    ensures { result ≡ ((completed.now.node == session) && (completed.now.number == number)) }
{
    completed.node == session && completed.number == number
}

// The outcome of an operation, if it has ended. What ended last is looked at first.
#[tactic(auto, using(crate::proofs::Searched::found))]
fn outcome_of(world: &World, session: Node, number: u64) -> Option<&Outcome>
    ensures some { IfSome result (λ o. EndedWith (run_of world.now) session number o.now) }
    ensures none { IfNone result (IsOpen (run_of world.now) session number) }
{
    let mut rest = world.transcript();
    while let Some((last, before)) = rest.split_last() {
        if is_end(last, session, number) {
            return Some(&last.outcome);
        }
        rest = before;
    }
    None
}

impl Asked for World {
    fn submit(&mut self, session: Node, op: Op) -> Result<u64, (Fault, Op)> {
        match World::submit(self, session, op) {
            Ok(number) => Ok(number),
            Err(refused) => Err(refused),
        }
    }

    fn outcome(&mut self, session: Node, number: u64) -> Result<Option<Outcome>, Fault> {
        match outcome_of(self, session, number) {
            Some(Outcome::Wrote { commit, stamp }) => Ok(Some(Outcome::Wrote {
                commit: *commit,
                stamp: *stamp,
            })),
            Some(Outcome::Collected) => Ok(Some(Outcome::Collected)),
            Some(Outcome::Moved { dc, floor }) => Ok(Some(Outcome::Moved {
                dc: *dc,
                floor: *floor,
            })),
            Some(read) => Ok(Some(read.copied()?)),
            None => Ok(None),
        }
    }
}
