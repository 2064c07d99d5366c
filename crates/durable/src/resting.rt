//! Collections that are kept.
ghost use Rattle.std.specs.Prelude.{◌≡◌, ◌⊎◌, true, ℕ, IfErr, OnOk, OnErr};
ghost use Rattle.logical_time.specs.declared.fault.Fault.TheVariants.{Memory, ClockSpent};
ghost use Rattle.messages.specs.Topology.{is_shard, shard_count};
ghost use Rattle.world.specs.Quiet.{IsQuiet};
ghost use Rattle.world.specs.World.{run_of, refusal_in, Takes, IsRefusedAs};
ghost use Rattle.world.specs.declared.run_event.RunEvent.TheVariants.{Collect};
ghost use Rattle.present.specs.AtRest.{AreTidied, IsTidiedUntil};
ghost use Rattle.durable.specs.Logged.{IsLogged};

use crate::noting::{note_rest, take_back};
use disk::Disk;
use keeper::Log;
use logical_time::{Fault, Node};
use present::Present;
use std::alloc::Global;

// A shard collects up to its own clock, and that is noted. Refused as the collection is, and with `Memory` where there is none to
// note it; then the shard doesn't collect.
fn rest_at<D: Disk>(
    alloc: Global,
    world: &mut Present,
    log: &mut Log<D>,
    shard: u16,
) -> Result<(), Fault>
    requires shard { is_shard world.old.top shard ≡ true }
    requires quiet { IsQuiet (run_of world.old) }
    ensures taken { OnOk result (Takes world.old (Collect shard ((run_of world.old).shards shard).clock) world.new) }
    ensures same { OnErr result (world.new ≡ world.old) }
    ensures refused { IfErr result (λ e. (e ≡ Memory) ⊎ ((e ≡ ClockSpent) × IsRefusedAs (refusal_in world.old (Collect shard ((run_of world.old).shards shard).clock)) e)) }
    ensures disk { log.new.disk ≡ log.old.disk }
    ensures secret { log.new.secret ≡ log.old.secret }
    ensures logged { IsLogged D.seen D.may_leave world.old.top log.old world.old.events → IsLogged D.seen D.may_leave world.old.top log.new world.new.events }
{
    let mark = note_rest(alloc, log, shard)?;
    match world.collect(Node::new(shard)) {
        Ok(()) => Ok(()),
        Err(fault) => {
            take_back(log, mark);
            Err(fault)
        }
    }
}

/// Each shard collects up to its own clock, in the order of the nodes, as `Present::tidy` has them, and that is noted. That nothing
/// waits is the caller's condition. Refused with `ClockSpent`, where a shard's clock would leave its range, and with `Memory` where
/// there is none to note a collection; those before it did collect.
pub(crate) fn rest_keeping<D: Disk>(
    alloc: Global,
    world: &mut Present,
    log: &mut Log<D>,
) -> Result<(), Fault>
    requires { IsQuiet (run_of world.old) }
    ensures ok { OnOk result (AreTidied world.old.top (shard_count world.old.top) world.old.events world.new.events) }
    ensures tidied { (n : ℕ) × AreTidied world.old.top n world.old.events world.new.events }
    ensures refused { IfErr result (λ e. (e ≡ Memory) ⊎ ((e ≡ ClockSpent) × IsTidiedUntil world.old.top world.old.events world.new.events)) }
    ensures quiet { IsQuiet (run_of world.new) }
    ensures topology { world.new.top ≡ world.old.top }
    ensures disk { log.new.disk ≡ log.old.disk }
    ensures secret { log.new.secret ≡ log.old.secret }
    // if the log told what led to all before, it still does
    ensures logged { IsLogged D.seen D.may_leave world.old.top log.old world.old.events → IsLogged D.seen D.may_leave world.old.top log.new world.new.events }
{
    let count = world.topology().shard_count();
    for shard in 0..count {
        rest_at(alloc, world, log, shard)?;
    }
    Ok(())
}
