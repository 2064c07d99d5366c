//! Worlds in which what a log tells happens again.
ghost use Rattle.std.specs.Prelude.{◌≡◌, true, IfErr, OnOk, OnErr};
ghost use Rattle.messages.specs.Topology.{is_session, is_shard};
ghost use Rattle.world.specs.Quiet.{IsQuiet};
ghost use Rattle.world.specs.World.{run_of, refusal_in, Takes, IsRefusedAs};
ghost use Rattle.world.specs.declared.run_event.RunEvent.TheVariants.{Submit, Collect};

use drains::Deliveries;
use logical_time::{Fault, Node};
use messages::Op;
use present::Present;
use world::World;

/// A world in which requests and collections can happen again.
pub(crate) trait Replayed: Deliveries {
    /// A session submits an operation again. That the node is a session's is the caller's condition. Refused as the run refuses
    /// it, and with `Memory`; then nothing changes.
    fn submit_again(&mut self, session: Node, op: Op) -> Result<(), Fault>
        requires { is_session (Self.world self.old).top session ≡ true }
        ensures taken { OnOk result (Takes (Self.world self.old) (Submit session op) (Self.world self.new)) }
        ensures refused { IfErr result (IsRefusedAs (refusal_in (Self.world self.old) (Submit session op))) }
        ensures same { OnErr result (Self.world self.new ≡ Self.world self.old) };

    /// A shard collects up to its own clock again. That nothing waits, and that the node is a shard's, is the caller's condition.
    /// Refused as the run refuses it, and with `Memory`; then nothing changes.
    fn collect_again(&mut self, shard: Node) -> Result<(), Fault>
        requires shard { is_shard (Self.world self.old).top shard ≡ true }
        requires quiet { IsQuiet (run_of (Self.world self.old)) }
        ensures taken { OnOk result (Takes (Self.world self.old) (Collect shard ((run_of (Self.world self.old)).shards shard).clock) (Self.world self.new)) }
        ensures refused { IfErr result (IsRefusedAs (refusal_in (Self.world self.old) (Collect shard ((run_of (Self.world self.old)).shards shard).clock))) }
        ensures same { OnErr result (Self.world self.new ≡ Self.world self.old) };
}

// An operation that was refused isn't needed any more.
fn let_go(_op: Op) {}

/// What ended at once isn't told again.
impl Replayed for Present {
    fn submit_again(&mut self, session: Node, op: Op) -> Result<(), Fault> {
        match Present::submit(self, session, op) {
            Ok((_number, _ended)) => Ok(()),
            Err((fault, op)) => {
                let_go(op);
                Err(fault)
            }
        }
    }

    fn collect_again(&mut self, shard: Node) -> Result<(), Fault> {
        match self.collect(shard) {
            Ok(()) => Ok(()),
            Err(fault) => Err(fault),
        }
    }
}

/// All of it is kept: what was sent, what ended, what each data centre committed.
impl Replayed for World {
    fn submit_again(&mut self, session: Node, op: Op) -> Result<(), Fault> {
        match World::submit(self, session, op) {
            Ok(_number) => Ok(()),
            Err((fault, op)) => {
                let_go(op);
                Err(fault)
            }
        }
    }

    fn collect_again(&mut self, shard: Node) -> Result<(), Fault> {
        let clock = self.clock_of(shard);
        match World::collect(self, shard, clock) {
            Ok(()) => Ok(()),
            Err(fault) => Err(fault),
        }
    }
}
