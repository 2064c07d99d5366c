//! The end of a ring where a receiver takes envelopes.
ghost use Rattle.std.specs.Prelude.{◌≡◌, ◌<◌, ◌++◌, ◌∷◌, [], ◌↔◌, IsTrue, IsSome, IfSome, IfNone};

use logical_time::Node;
use messages::Envelope;
use rtrb::Consumer;
use std::marker::Model;

/// The end of a ring where envelopes from one actor to another are taken. What it gives bears the two addresses of the
/// link.
#[derive(Drop)]
pub struct InLink {
    pub(crate) from: Node,
    pub(crate) to: Node,
    pub(crate) consumer: Consumer<Envelope>,
}

impl Model for InLink {
    ghost use Rattle.std.specs.Prelude.{length, map};
    ghost use Rattle.links.specs.Links.{InLinkValue, readdressed};
    ghost use Rattle.links.specs.Rings.{consumer_ring};
    ghost use Rattle.rtrb.specs.Ring.{received, known_items};

    ghost Value = { InLinkValue };

    ghost view = { λ l. record { from = l.from; to = l.to; ring = consumer_ring l.consumer; received = map (readdressed l.from l.to) (received l.consumer); known = length (known_items l.consumer) } };
}

impl InLink {
    /// The actor from which it leads.
    pub fn from(&self) -> Node
        ensures { result ≡ self.now.from }
    {
        self.from
    }

    /// The actor to which it leads.
    pub fn to(&self) -> Node
        ensures { result ≡ self.now.to }
    {
        self.to
    }

    /// Whether no envelope is found in the ring. It looks at what the other end put there, which may put more at any time.
    /// Costs less than `pop` where it finds none.
    pub fn is_empty(&mut self) -> bool
        ensures addresses { (self.new.from ≡ self.old.from) × (self.new.to ≡ self.old.to) }
        ensures ring { self.new.ring ≡ self.old.ring }
        ensures same { self.new.received ≡ self.old.received }
        ensures empty { IsTrue result ↔ (self.new.known ≡ 0) }
    {
        self.consumer.is_empty()
    }

    /// Takes the oldest envelope from the ring, if one is found there. The sender may put one at any time. An actor puts
    /// its own envelopes alone into its rings, each into the one that leads to its receiver; but that is no fact for the
    /// other end, so the link writes its own addresses on what it takes, which then has them.
    #[tactic(auto, using(crate::proofs::Received::received_more))]
    pub fn pop(&mut self) -> Option<Envelope>
        ensures addresses { (self.new.from ≡ self.old.from) × (self.new.to ≡ self.old.to) }
        ensures ring { self.new.ring ≡ self.old.ring }
        ensures some { IfSome result (λ envelope. self.new.received ≡ self.old.received ++ envelope ∷ []) }
        ensures from { IfSome result (λ envelope. envelope.from ≡ self.old.from) }
        ensures to { IfSome result (λ envelope. envelope.to ≡ self.old.to) }
        ensures none { IfNone result (self.new.received ≡ self.old.received) }
        // it looks, and finds what is known to be there
        ensures looked { IfNone result (self.new.known ≡ 0) }
        ensures succeeds { 0 < self.old.known → IsSome result }
    {
        match self.consumer.pop() {
            Ok(envelope) => Some(Envelope {
                from: self.from,
                to: self.to,
                time: envelope.time,
                body: envelope.body,
            }),
            Err(_) => None,
        }
    }
}
