//! By what connections come, and what tells which of them are ready.
ghost use Rattle.std.specs.Prelude.{◌≡◌, ◌++◌, ℕ, List, Option, None, true, false, IfOk, OnOk};
ghost use Rattle.doors.specs.Doorways.{line_of};

use logical_time::Fault;
use std::time::Duration;

/// What accepting came to.
#[derive(Drop)]
pub enum Accepted<L> {
    /// The line of one who came.
    Line(L),
    /// Nobody waits. The door tells when somebody does.
    Nobody,
    /// One came, and can't be heard.
    Lost,
    /// It failed. Somebody may still wait, and it is to be tried again.
    Failed,
}

/// What the world grants a server: lines of those who come, and word of which are ready.
pub trait Doorway<L> {
    /// A call: the door before, the line that it gave, if it gave one, and the door after.
    ghost steps: { Self → Option L → Self → Type 0 };

    /// Which places it may call ready next.
    ghost tells: { Self → List ℕ → Type 0 };

    /// The next wait may tell that somebody came.
    ghost announces: { Self → Type 0 };

    /// Nobody waits to be accepted, as far as it told.
    ghost nobody: { Self → Type 0 };

    /// The last call accepted nobody, though somebody may wait.
    ghost refuses: { Self → Type 0 };

    /// Waits until a line is ready or somebody comes, no longer than this, or without an end for none. Puts the places
    /// whose lines are ready behind those in `ready`, and gives whether somebody may have come. Refused with `ReadFailed`
    /// where it can't wait, and with `Memory`.
    fn wait(&mut self, patience: Option<Duration>, ready: &mut Vec<usize>) -> Result<bool, Fault>
        ensures step { steps self.old None self.new }
        ensures told { OnOk result ((told : List ℕ) × (ready.new.items ≡ ready.old.items ++ told) × tells self.old told) }
        ensures nobody_came { IfOk result (λ came. came ≡ false → nobody self.old → nobody self.new) }
        ensures announced { IfOk result (λ came. came ≡ true → announces self.old) };

    /// Accepts one who came, whose line is then known by this place, and doesn't wait.
    fn accept(&mut self, place: usize) -> Accepted<L>
        ensures step { steps self.old (line_of result) self.new }
        ensures none_waits { result ≡ Accepted.Nobody → nobody self.new }
        ensures lost { result ≡ Accepted.Lost → refuses self.new }
        ensures failed { result ≡ Accepted.Failed → refuses self.new };

    /// Which call of a line failed last: `ReadFailed` or `WriteFailed`; none where none did.
    fn failed(&self, line: &L) -> Option<Fault>;
}
