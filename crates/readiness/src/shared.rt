//! What answers the requests of many connections.
ghost use Rattle.std.specs.Prelude.{◌≡◌, ℕ, Result};
ghost use Rattle.logical_time.specs.declared.fault.Fault.{Fault};
ghost use Rattle.messages.specs.declared.op.Op.{Op};
ghost use Rattle.wire.specs.Replies.{Reply};

use logical_time::Fault;
use messages::{Op, Outcome};

/// What the connections at all places ask.
pub trait SharedPort {
    /// What its steps see of it.
    ghost State: { Type 0 };

    /// That, of a port. Settling leaves it as it is.
    ghost seen: { Self → State };

    /// Its steps: at which place, the port before, what it is asked, what it answers, and the port after.
    ghost steps: { ℕ → State → Op → Reply → State → Type 0 };

    /// What it keeps for good.
    ghost Kept: { Type 0 };

    /// That, of a port. Asking leaves it as it is.
    ghost kept: { Self → Kept };

    /// How it settles: the port before, whether it settled or why not, and the port after.
    ghost settles: { Self → Result (Unit {0}) Fault → Self → Type 0 };

    /// Answers a request of the connection at a place: what came of it, or why it was refused.
    fn ask(&mut self, place: usize, op: Op) -> Result<Outcome, Fault>
        ensures step { steps place (seen self.old) op result (seen self.new) }
        ensures keeps_none { kept self.new ≡ kept self.old };

    /// Keeps for good all that it was asked so far: from then on replies to it may go out. Refused where it can't; then no
    /// reply to it may. Asks nothing.
    fn settle(&mut self) -> Result<(), Fault>
        ensures asks_nothing { seen self.new ≡ seen self.old }
        ensures settled { settles self.old result self.new };
}
