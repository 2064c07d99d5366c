//! What a drain drains.
ghost use Rattle.std.specs.Prelude.{◌≡◌, ℕ, true, false, Some, IfOk, IfErr};
ghost use Rattle.messages.specs.Topology.{is_topology};
ghost use Rattle.world.specs.World.{WorldValue};
ghost use Rattle.drains.specs.Drain.{IsDelivery, IsStopped, IsDone};

use logical_time::Fault;
use messages::Topology;
use world::World;

/// What was sent and isn't handled yet can be delivered, the first that was sent first.
pub trait Deliveries {
    /// The world that it is: its topology, and the events so far.
    ghost world: { Self → WorldValue };

    /// From where deliveries began to where they are: what else stays.
    ghost stays: { Self → Self → Type 0 };

    /// What is known of how the operation of the session with this node and of this number ended.
    ghost knows: { Self → ℕ → ℕ → Type 0 };

    /// Which actors there are.
    fn topology(&self) -> &Topology
        ensures value { result.now ≡ (world self.now).top }
        ensures limits { is_topology (world self.now).top.dcs (world self.now).top.shards (world self.now).top.homes ≡ true };

    /// Delivers the first message that wasn't handled. False where each was handled. Refused as the delivery is; then it waits
    /// as it did.
    fn deliver_first(&mut self) -> Result<bool, Fault>
        ensures delivered { IfOk result (λ more. more ≡ true → IsDelivery (world self.old) (world self.new)) }
        ensures done { IfOk result (λ more. more ≡ false → IsDone (world self.old) (world self.new)) }
        ensures stopped { IfErr result (IsStopped (world self.old) (world self.new)) }
        ensures stays { (start : Self) → stays start self.old → stays start self.new }
        ensures knows { (session number : ℕ) → knows self.old session number → knows self.new session number };
}

impl Deliveries for World {
    ghost world = { λ w. w };

    ghost stays = { λ start w. Unit {0} };

    ghost knows = { λ w session number. Unit {0} };

    fn topology(&self) -> &Topology {
        self.topology()
    }

    fn deliver_first(&mut self) -> Result<bool, Fault> {
        let Some(number) = self.first_unhandled() else {
            return Ok(false);
        };
        self.deliver(number)?;
        Ok(true)
    }
}
