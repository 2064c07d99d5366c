//! All that was sent is handled.
ghost use Rattle.std.specs.Prelude.{◌≡◌, ◌<◌, ℕ, IfOk, IfErr};
ghost use Rattle.world.specs.World.{run_of};
ghost use Rattle.world.specs.Drains.{HasEnded};
ghost use Rattle.drains.specs.Drain.{IsDrained, IsDrainedUntil, LeavesNothing, HasRoom};

use crate::deliveries::Deliveries;
use logical_time::Fault;

/// How many messages a drain delivers at most.
const MOST_DELIVERIES: u64 = 1_000_000;

/// Delivers each message that was not handled, the first that was sent first, those sent meanwhile included, until there is none
/// or 1,000,000 were delivered. Gives how many; fewer than that only where each was handled. Refused with `ClockSpent` or with
/// `Memory`; what was delivered before stays. Linear in the messages delivered, each at the cost of its delivery.
pub fn drain<D: Deliveries>(world: &mut D) -> Result<u64, Fault>
    ensures ok { IfOk result (IsDrained (D.world world.old).top (D.world world.old).events (D.world world.new).events) }
    ensures refused { IfErr result (IsDrainedUntil (D.world world.old).top (D.world world.old).events (D.world world.new).events) }
    ensures topology { (D.world world.new).top ≡ (D.world world.old).top }
    // fewer than it may: then all is done
    ensures nothing_left { IfOk result (λ n. n < 1000000 → LeavesNothing (D.world world.new).top (D.world world.new).events) }
    // by the bound on what is left it is done in any case, unless memory is refused
    ensures in_time { IfOk result (λ n. HasRoom (D.world world.old).top (D.world world.old).events → HasEnded (D.world world.old).top (run_of (D.world world.old)) (run_of (D.world world.new))) }
    ensures memory_alone { IfErr result (λ e. HasRoom (D.world world.old).top (D.world world.old).events → e ≡ Fault.Memory) }
    ensures stays { (start : D) → D.stays start world.old → D.stays start world.new }
    ensures knows { (session number : ℕ) → D.knows world.old session number → D.knows world.new session number }
{
    // what is known of drains is known within the limits of a topology
    let _limits = world.topology();
    for delivered in 0..MOST_DELIVERIES {
        if !world.deliver_first()? {
            return Ok(delivered);
        }
    }
    Ok(MOST_DELIVERIES)
}
