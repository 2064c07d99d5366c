//! What has sessions that answer.
ghost use Rattle.std.specs.Prelude.{◌≡◌, ◌<◌, true, length, Ok, Result};
ghost use Rattle.logical_time.specs.declared.fault.Fault.{Fault};
ghost use Rattle.messages.specs.Topology.{is_topology, session_node};
ghost use Rattle.world.specs.World.{WorldValue};
ghost use Rattle.service.specs.Port.{Asks};

use crate::asking::ask;
use logical_time::Fault;
use messages::{Op, Outcome, Topology};
use world::World;

/// A world whose sessions answer requests.
pub trait Host {
    /// The world that it is: its topology, and the events so far. Settling leaves it as it is.
    ghost world: { Self → WorldValue };

    /// What it keeps for good.
    ghost Kept: { Type 0 };

    /// That, of a host. Asking leaves it as it is.
    ghost kept: { Self → Kept };

    /// How it settles: the host before, whether it settled or why not, and the host after.
    ghost settles: { Self → Result (Unit {0}) Fault → Self → Type 0 };

    /// That what was settled lasts from one moment to a later one, by what is kept then: whatever comes between.
    ghost lasts: { Kept → Kept → Type 0 };

    /// Which actors there are.
    fn topology(&self) -> &Topology
        ensures value { result.now ≡ (world self.now).top }
        ensures limits { is_topology (world self.now).top.dcs (world self.now).top.shards (world self.now).top.homes ≡ true };

    /// A request of the session of this index and its answer: submits the operation, after a drain where it had one open,
    /// drains, and gives the outcome. That there is such a session is the caller's condition. Refused as the submission and
    /// the drains are, with `Busy` only where a drain, before or after the submission, delivered 1,000,000 messages, and with
    /// `Memory`. Costs what the submission and the deliveries do.
    fn ask(&mut self, index: u16, op: Op) -> Result<Outcome, Fault>
        requires { index < length (world self.old).top.homes }
        ensures asks { Asks (world self.old).top (session_node (world self.old).top index) (world self.old).events op result (world self.new).events }
        ensures topology { (world self.new).top ≡ (world self.old).top }
        ensures keeps_none { kept self.new ≡ kept self.old };

    /// Keeps for good all that happened so far: from then on replies to it may go out. Refused where it can't; then no reply
    /// to it may. Nothing happens to the world.
    fn settle(&mut self) -> Result<(), Fault>
        ensures asks_nothing { world self.new ≡ world self.old }
        ensures settled { settles self.old result self.new };

    /// It lasts where nothing settles.
    ghost lasts_same: { (k : Kept) → lasts k k };

    /// It lasts where more is settled, or can't be.
    ghost lasts_settled: { (old : Self) (went : Result (Unit {0}) Fault) (new : Self) → settles old went new → lasts (kept old) (kept new) };
}

/// Its outcomes are looked for in its transcript, and a read's answer is copied. It keeps nothing for good.
impl Host for World {
    ghost world = { λ w. w };

    ghost Kept = { Unit {0} };

    ghost kept = { λ w. tt };

    ghost settles = { λ w went after. (went ≡ Ok tt) × (after ≡ w) };

    ghost lasts = { λ k l. Unit {0} };

    ghost lasts_same = { λ k. tt };

    ghost lasts_settled = { λ w went after s. tt };

    fn topology(&self) -> &Topology {
        self.topology()
    }

    #[tactic(auto, using(crate::proofs::Homes::session_here))]
    fn ask(&mut self, index: u16, op: Op) -> Result<Outcome, Fault> {
        let session = self.topology().session_node(index);
        ask(self, session, op)
    }

    fn settle(&mut self) -> Result<(), Fault> {
        Ok(())
    }
}
