//! What a server holds.
ghost use Rattle.std.specs.Prelude.{◌≡◌, ◌↔◌, ℕ, true};
ghost use Rattle.present.specs.declared.actors.Actors.{Actors};
ghost use Rattle.present.specs.AtRest.{AreTidied, StandsAtRest};
ghost use Rattle.present.specs.Held.{held_by_all};
ghost use Rattle.present.specs.Promises.{KeepsPromises};
ghost use Rattle.world.specs.Quiet.{IsQuiet};
ghost use Rattle.world.specs.World.{run_of};

use crate::host::Host;
use present::Present;
use store::Holdings;

/// A world that a server holds: it keeps no past, its shards collect between requests, and it tells how much they hold. It must
/// be closed.
pub trait Housed: Host {
    /// Whether each message that was sent was handled.
    fn is_quiet(&self) -> bool
        ensures { (result ≡ true) ↔ IsQuiet (run_of (Self.world self.now)) };

    /// Each shard drops all that no read from now on can ask for: it collects up to its own clock, in the order of the nodes; or
    /// those before one that is refused do. That nothing waits is the caller's condition. Costs what the rows with superseded
    /// versions and the range deletions do.
    fn rest(&mut self)
        requires { IsQuiet (run_of (Self.world self.old)) }
        ensures rested { (n : ℕ) × AreTidied (Self.world self.old).top n (Self.world self.old).events (Self.world self.new).events }
        ensures topology { (Self.world self.new).top ≡ (Self.world self.old).top }
        ensures keeps_none { Self.kept self.new ≡ Self.kept self.old };

    /// How much its shards hold together. Linear in the rows and in their columns.
    fn holdings(&self) -> Holdings
        ensures { (a : Actors) × StandsAtRest (Self.world self.now).top (Self.world self.now).events a × (result ≡ held_by_all a.shards.items) };

    /// What every world promises of all that happened to it holds of it, and no read of it was given up. Does nothing; its
    /// contract is the law.
    fn promise(&self)
        ensures { KeepsPromises (Self.world self.now) };

    /// Ends the world, and gives up what isn't finished.
    fn close(self);
}

impl Housed for Present {
    fn is_quiet(&self) -> bool {
        self.is_quiet()
    }

    fn rest(&mut self) {
        let _spent = self.tidy();
    }

    fn holdings(&self) -> Holdings {
        self.holdings()
    }

    fn promise(&self) {
        let _promises = self.topology();
    }

    fn close(self) {
        self.close()
    }
}
