//! The events of a run, as a world keeps them.
ghost use Rattle.std.specs.Prelude.{◌≡◌, ◌<◌, ◌++◌, [], ◌∷◌, true, false, OnOk};
ghost use Rattle.world.specs.Events.{events_of};
ghost use Rattle.world.specs.Run.{Submit, Deliver, Collect};

use logical_time::{Node, Time};
use messages::Op;
use std::alloc::{AllocError, Global};
use std::marker::Model;

/// An event, or several deliveries.
#[derive(Drop)]
pub enum Stretch {
    /// A session submitted an operation.
    Submission {
        /// The session.
        session: Node,
        /// The operation.
        op: Op,
    },
    /// Messages that follow each other were delivered, in their order.
    Deliveries {
        /// The number of the first.
        first: usize,
        /// How many.
        count: usize,
    },
    /// A shard collected up to a time.
    Collection {
        /// The shard.
        shard: Node,
        /// The time.
        time: Time,
    },
}

/// The events of a run, oldest first. Deliveries of messages that follow each other are kept as one stretch, so that a run
/// that delivers in the order of sending keeps little beside its submissions.
#[derive(Drop)]
pub struct Events {
    stretches: Vec<Stretch>,
}

impl Model for Events {
    ghost use Rattle.std.specs.Prelude.{◌-◌, vec_len, vec_capacity};
    ghost use Rattle.world.specs.Events.{EventsValue, events_in};

    ghost Value = { EventsValue };

    ghost view = { λ e. record { items = events_in e.stretches.items; room = vec_capacity e.stretches - vec_len e.stretches } };
}

impl Stretch {
    /// Takes the delivery of this message, where it follows the last one here; the answer is whether it does.
    #[tactic(auto, using(crate::proofs::in_code::Stretched::one_more))]
    fn takes(&mut self, number: usize) -> bool
        ensures taken { result ≡ true → events_of self.new ≡ events_of self.old ++ Deliver number ∷ [] }
        ensures same { result ≡ false → self.new ≡ self.old }
    {
        if let Stretch::Deliveries { first, count } = self {
            if *first <= number && number - *first == *count && *count < usize::MAX {
                *count += 1;
                return true;
            }
        }
        false
    }
}

impl Events {
    /// None yet.
    pub fn new(alloc: Global) -> Events
        ensures { result.items ≡ [] }
    {
        Events {
            stretches: Vec::new(alloc),
        }
    }

    /// Makes room for one event. Fails by memory alone.
    pub fn reserve(&mut self) -> Result<(), AllocError>
        ensures same { self.new.items ≡ self.old.items }
        ensures room { OnOk result (0 < self.new.room) }
    {
        self.stretches.reserve(1)
    }

    /// A session submitted an operation. There is room.
    #[tactic(auto, using(crate::proofs::in_code::Stretched::stretch_added))]
    pub fn add_submission(&mut self, session: Node, op: Op)
        requires { 0 < self.old.room }
        ensures { self.new.items ≡ self.old.items ++ Submit session op ∷ [] }
    {
        self.stretches
            .push(Stretch::Submission { session, op })
            .unwrap();
    }

    /// A message was delivered. There is room.
    #[tactic(auto, using(crate::proofs::in_code::Stretched::stretch_added))]
    pub fn add_delivery(&mut self, number: usize)
        requires { 0 < self.old.room }
        ensures { self.new.items ≡ self.old.items ++ Deliver number ∷ [] }
    {
        let count = self.stretches.len();
        if count > 0 && self.stretches[count - 1].takes(number) {
            return;
        }
        let first = number;
        self.stretches
            .push(Stretch::Deliveries { first, count: 1 })
            .unwrap();
    }

    /// A shard collected up to a time. There is room.
    #[tactic(auto, using(crate::proofs::in_code::Stretched::stretch_added))]
    pub fn add_collection(&mut self, shard: Node, time: Time)
        requires { 0 < self.old.room }
        ensures { self.new.items ≡ self.old.items ++ Collect shard time ∷ [] }
    {
        self.stretches
            .push(Stretch::Collection { shard, time })
            .unwrap();
    }
}
