//! The end of a ring where a sender puts envelopes.
ghost use Rattle.std.specs.Prelude.{◌≡◌, ◌<◌, ◌++◌, ◌∷◌, [], ◌↔◌, IsTrue, IsOk, OnOk, IfErr};

use logical_time::Node;
use messages::Envelope;
use rtrb::{Producer, PushError};
use std::marker::Model;

/// The end of a ring where envelopes to one actor are put.
#[derive(Drop)]
pub struct OutLink {
    pub(crate) to: Node,
    pub(crate) producer: Producer<Envelope>,
}

impl Model for OutLink {
    ghost use Rattle.links.specs.Links.{OutLinkValue};
    ghost use Rattle.links.specs.Rings.{producer_ring};
    ghost use Rattle.rtrb.specs.Ring.{sent, known_free};

    ghost Value = { OutLinkValue };

    ghost view = { λ l. record { to = l.to; ring = producer_ring l.producer; sent = sent l.producer; free = known_free l.producer } };
}

impl OutLink {
    /// The actor to which it leads.
    pub fn to(&self) -> Node
        ensures { result ≡ self.now.to }
    {
        self.to
    }

    /// Whether no place of the ring is known to be free. It looks at what the other end took, which may take more at any
    /// time.
    pub fn is_full(&mut self) -> bool
        ensures to { self.new.to ≡ self.old.to }
        ensures ring { self.new.ring ≡ self.old.ring }
        ensures same { self.new.sent ≡ self.old.sent }
        ensures full { IsTrue result ↔ (self.new.free ≡ 0) }
    {
        self.producer.is_full()
    }

    /// Puts an envelope into the ring, or hands it back where the ring is full. Takes no memory.
    pub fn push(&mut self, envelope: Envelope) -> Result<(), Envelope>
        ensures to { self.new.to ≡ self.old.to }
        ensures ring { self.new.ring ≡ self.old.ring }
        ensures ok { OnOk result (self.new.sent ≡ self.old.sent ++ envelope ∷ []) }
        ensures back { IfErr result (λ back. back ≡ envelope) }
        ensures full { IfErr result (λ _. (self.new.sent ≡ self.old.sent) × (self.new.free ≡ 0)) }
        ensures succeeds { 0 < self.old.free → IsOk result }
    {
        match self.producer.push(envelope) {
            Ok(()) => Ok(()),
            Err(PushError::Full(back)) => Err(back),
        }
    }
}
