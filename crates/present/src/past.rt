//! What happened, for clauses alone: no code keeps it.
ghost use Rattle.std.specs.Prelude.{◌≡◌, ◌++◌, [], ◌∷◌};
ghost use Rattle.world.specs.declared.run_event.RunEvent.TheVariants.{Submit, Deliver, Collect};

use logical_time::{Node, Time};
use messages::Op;
use std::marker::Model;
use std::snapshot::Snapshot;

/// What happens.
#[derive(Drop)]
pub(crate) enum Happened {
    /// A session submitted an operation.
    Submitted {
        /// The session.
        session: Node,
        /// The operation, as clauses see it.
        op: Snapshot<Op>,
    },
    /// The next message was handled, in the order of sending.
    Delivered,
    /// A shard collected up to a time.
    Collected {
        /// The shard.
        shard: Node,
        /// The time.
        time: Time,
    },
}

/// What happened last, and what clauses see of all that happened before.
#[derive(Drop)]
struct Told {
    before: Option<Snapshot<Told>>,
    last: Happened,
}

impl Model for Told {
    ghost use Rattle.std.specs.Prelude.{List, length, ◌++◌, [], ◌∷◌};
    ghost use Rattle.std.proofs.Common.{arith, length-append};
    ghost use Rattle.world.specs.declared.run_event.RunEvent.{RunEvent};
    ghost use Rattle.present.specs.Past.{before_of, event_told};

    ghost Value = { List RunEvent };

    ghost view = { λ t. before_of t.before ++ event_told (before_of t.before) t.last ∷ [] };

    ghost size = { length };

    ghost size_decreases = { λ a h. Prim.grind (arith, length-append) };
}

/// What happened, oldest first. It takes a byte, and no memory.
#[derive(Drop)]
pub(crate) struct Past {
    last: Option<Snapshot<Told>>,
}

impl Model for Past {
    ghost use Rattle.std.specs.Prelude.{List};
    ghost use Rattle.world.specs.declared.run_event.RunEvent.{RunEvent};
    ghost use Rattle.present.specs.Past.{before_of};

    ghost Value = { List RunEvent };

    ghost view = { λ p. before_of p.last };
}

impl Past {
    ghost use Rattle.present.specs.Past.{event_told, next_number};

    /// Nothing happened yet.
    pub(crate) fn new() -> Past
        ensures { result ≡ [] }
    {
        Past { last: None }
    }

    fn add(&mut self, last: Happened)
        ensures { self.new ≡ self.old ++ event_told self.old last ∷ [] }
    {
        let told = Told {
            before: self.last.take(),
            last,
        };
        self.last = Some(Snapshot::of(&told));
    }

    /// A session submitted an operation.
    pub(crate) fn add_submission(&mut self, session: Node, op: Snapshot<Op>)
        ensures { self.new ≡ self.old ++ Submit session op.value ∷ [] }
    {
        self.add(Happened::Submitted { session, op });
    }

    /// The next message was handled.
    pub(crate) fn add_delivery(&mut self)
        ensures { self.new ≡ self.old ++ Deliver (next_number self.old) ∷ [] }
    {
        self.add(Happened::Delivered);
    }

    /// A shard collected.
    pub(crate) fn add_collection(&mut self, shard: Node, time: Time)
        ensures { self.new ≡ self.old ++ Collect shard time ∷ [] }
    {
        self.add(Happened::Collected { shard, time });
    }
}
