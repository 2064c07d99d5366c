//! What answers requests.
ghost use Rattle.messages.specs.declared.op.Op.{Op};
ghost use Rattle.wire.specs.Replies.{Reply};

use logical_time::Fault;
use messages::{Op, Outcome};

/// What requests are asked of.
pub trait Port {
    /// Its steps: the port before, what it is asked, what it answers, and the port after.
    ghost steps: { Self → Op → Reply → Self → Type 0 };

    /// Answers a request: what came of it, or why it was refused.
    fn ask(&mut self, op: Op) -> Result<Outcome, Fault>
        ensures { steps self.old op result self.new };
}
