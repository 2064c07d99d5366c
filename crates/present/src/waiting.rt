//! What waits: what was sent and isn't handled, in the order of sending.
ghost use Rattle.std.specs.Prelude.{◌≡◌, ◌<◌, ◌++◌, [], ◌∷◌, true, false, reverse, length, None, IfSome, IfNone};
ghost use Rattle.present.specs.Waiting.{waiting_of};

use logical_time::Fault;
use messages::{Envelope, Outbox, Refused};
use std::alloc::Global;

/// What was sent and isn't handled. The one that is handled next is taken out, and may be put back.
#[derive(Drop)]
pub(crate) struct Waiting {
    /// The first, where it was put back.
    pub(crate) held: Option<Envelope>,
    /// Those that come next, the next one last.
    pub(crate) turn: Vec<Envelope>,
    /// Those that were sent since these had their turn, in the order of sending.
    pub(crate) sent: Outbox,
}

// Where no message has its turn, all that was sent has, so that each is taken from an end. Nothing moves where the
// memory for that is refused.
fn turn_over(turn: &mut Vec<Envelope>, sent: &mut Outbox)
    ensures { reverse turn.new.items ++ sent.new.sent ≡ reverse turn.old.items ++ sent.old.sent }
{
    let count = sent.len();
    if !turn.is_empty() || turn.reserve(count).is_err() {
        return;
    }
    for number in 0..count {
        turn.push_reserved(sent.remove(count - 1 - number));
    }
}

// The first of what was sent, if there is one, is taken out.
fn take_first(sent: &mut Outbox) -> Option<Envelope>
    ensures some { IfSome result (λ e. sent.old.sent ≡ e ∷ sent.new.sent) }
    ensures none { IfNone result (sent.old.sent ≡ []) }
    ensures still { IfNone result (sent.new.sent ≡ []) }
{
    if sent.len() == 0 {
        return None;
    }
    Some(sent.remove(0))
}

impl Waiting {
    /// Nothing waits.
    pub(crate) fn new(alloc: Global) -> Waiting
        ensures { waiting_of result ≡ [] }
    {
        Waiting {
            held: None,
            turn: Vec::new(alloc),
            sent: Outbox::new(alloc),
        }
    }

    /// The first that waits, if one does, is taken out. Takes constant time a message, and as much room again as waits;
    /// where that memory is refused it costs what waits.
    pub(crate) fn take(&mut self) -> Option<Envelope>
        ensures some { IfSome result (λ e. waiting_of self.old ≡ e ∷ waiting_of self.new) }
        ensures none { IfNone result (waiting_of self.old ≡ []) }
        ensures free { self.new.held ≡ None }
    {
        if let Some(envelope) = self.held.take() {
            return Some(envelope);
        }
        turn_over(&mut self.turn, &mut self.sent);
        match self.turn.pop() {
            Some(envelope) => Some(envelope),
            None => take_first(&mut self.sent),
        }
    }

    /// One that was taken out and refused is the first that waits again. Why it was refused.
    pub(crate) fn put_back(&mut self, refused: Refused) -> Fault
        requires { self.old.held ≡ None }
        ensures waits { waiting_of self.new ≡ refused.envelope ∷ waiting_of self.old }
        ensures fault { result ≡ refused.fault }
    {
        let Refused { fault, envelope } = refused;
        self.held = Some(envelope);
        fault
    }

    /// Whether nothing waits.
    pub(crate) fn is_done(&self) -> bool
        ensures done { result ≡ true → waiting_of self.now ≡ [] }
        ensures waits { result ≡ false → 0 < length (waiting_of self.now) }
    {
        self.held.is_none() && self.turn.is_empty() && self.sent.len() == 0
    }
}
