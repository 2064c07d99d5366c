//! What isn't answered yet, and what nobody was told.
ghost use Rattle.std.specs.Prelude.{◌≡◌, Some, true, false};

use equality::same_op;
use logical_time::Node;
use messages::{Op, Outcome};

/// An operation that a session submitted and that wasn't answered yet.
#[derive(Drop)]
pub struct Waiting {
    /// Its number among the session's, from 1.
    pub number: u64,
    /// What was asked; none where who asked for it is gone.
    pub op: Option<Op>,
}

impl Waiting {
    /// Whether it was asked for by who stands at its place, and is the same as this.
    pub(crate) fn is_for(&self, op: &Op) -> bool
        ensures yes { result ≡ true → self.now.op ≡ Some op.now }
        ensures no { result ≡ false → self.now.op ≡ Some op.now → ⊥ }
    {
        match &self.op {
            Some(asked) => same_op(asked, op),
            None => false,
        }
    }
}

/// The end of an operation that nobody was told yet.
#[derive(Drop)]
pub struct Late {
    /// The session.
    pub session: Node,
    /// The number of the operation among the session's, from 1.
    pub number: u64,
    /// How it ended.
    pub outcome: Outcome,
}
