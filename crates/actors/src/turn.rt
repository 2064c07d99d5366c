//! What a turn of a seat answers.
ghost use Rattle.std.specs.Prelude.{◌≡◌, ◌↔◌, true};
ghost use Rattle.actors.specs.Turns.{IsOfRequest};

use logical_time::Fault;

/// The greatest number of a refusal of a batch or a read for what it asks.
const LAST_OF_REQUEST: u16 = 9;

/// What a turn of a seat did.
#[derive(Clone, Copy, Debug, PartialEq, Eq)]
pub enum Turn {
    /// Nothing.
    Idle,
    /// Sends that waited went into their rings, and nothing else.
    Moved,
    /// An envelope was handled.
    Handled,
    /// The operation of the backlog was accepted, and this is its number.
    Submitted(u64),
    /// The collection of the backlog was done.
    Collected,
    /// The operation of the backlog was refused for what it asks, and taken off.
    Refused(Fault),
}

/// Whether an operation is refused so for what it asks, and not for what is there: a batch or a read, or a move.
pub(crate) fn is_of_request(fault: Fault) -> bool
    ensures { (result ≡ true) ↔ IsOfRequest fault }
{
    fault.number() <= LAST_OF_REQUEST || fault == Fault::AlreadyHome || fault == Fault::UnknownHome
}
