//! What happened, for clauses alone: no code keeps it.
ghost use Rattle.std.specs.Prelude.{◌≡◌, ◌++◌, [], ◌∷◌};
ghost use Rattle.site.specs.Story.{Did, Heard, Given};

use logical_time::Node;
use messages::{ActorEvent, Envelope, Outbox, Outcome};
use std::marker::Model;
use std::snapshot::Snapshot;

/// What happens, as it is noted for clauses.
#[derive(Drop)]
pub(crate) enum Note {
    /// An actor did an event.
    Did {
        /// The actor.
        node: Node,
        /// The event.
        event: Snapshot<ActorEvent>,
        /// What it sent.
        sends: Snapshot<Outbox>,
        /// What it ended, if it ended an operation.
        ended: Snapshot<Option<(u64, Outcome)>>,
    },
    /// An envelope came from the site of another data centre.
    Heard {
        /// The data centre.
        from: u16,
        /// The envelope.
        envelope: Snapshot<Envelope>,
    },
    /// An envelope was given to the way to another site.
    Given(Snapshot<Envelope>),
}

/// What happened last, and what clauses see of all that happened before.
#[derive(Drop)]
struct Told {
    before: Option<Snapshot<Told>>,
    last: Note,
}

impl Model for Told {
    ghost use Rattle.std.specs.Prelude.{List, length, ◌++◌, [], ◌∷◌};
    ghost use Rattle.std.proofs.Common.{arith, length-append};
    ghost use Rattle.site.specs.Story.{Story};
    ghost use Rattle.site.specs.Past.{told_of, happening_of};

    ghost Value = { Story };

    ghost view = { λ t. told_of t.before ++ happening_of t.last ∷ [] };

    ghost size = { length };

    ghost size_decreases = { λ a h. Prim.grind (arith, length-append) };
}

/// What happened, oldest first. It takes a byte, and no memory.
#[derive(Drop)]
pub(crate) struct Past {
    last: Option<Snapshot<Told>>,
}

impl Model for Past {
    ghost use Rattle.site.specs.Story.{Story};
    ghost use Rattle.site.specs.Past.{told_of};

    ghost Value = { Story };

    ghost view = { λ p. told_of p.last };
}

impl Past {
    ghost use Rattle.site.specs.Past.{happening_of};

    /// Nothing happened yet.
    pub(crate) fn new() -> Past
        ensures { result ≡ [] }
    {
        Past { last: None }
    }

    fn add(&mut self, last: Note)
        ensures { self.new ≡ self.old ++ happening_of last ∷ [] }
    {
        let told = Told {
            before: self.last.take(),
            last,
        };
        self.last = Some(Snapshot::of(&told));
    }

    /// An actor did an event.
    pub(crate) fn add_event(
        &mut self,
        node: Node,
        event: Snapshot<ActorEvent>,
        sends: &Outbox,
        ended: &Option<(u64, Outcome)>,
    )
        ensures { self.new ≡ self.old ++ Did node event.value sends.now.sent ended.now ∷ [] }
    {
        self.add(Note::Did {
            node,
            event,
            sends: Snapshot::of(sends),
            ended: Snapshot::of(ended),
        });
    }

    /// An envelope came from the site of another data centre.
    pub(crate) fn add_receipt(&mut self, from: u16, envelope: &Envelope)
        ensures { self.new ≡ self.old ++ Heard from envelope.now ∷ [] }
    {
        self.add(Note::Heard {
            from,
            envelope: Snapshot::of(envelope),
        });
    }

    /// An envelope was given to the way to another site.
    pub(crate) fn add_gift(&mut self, envelope: &Envelope)
        ensures { self.new ≡ self.old ++ Given envelope.now ∷ [] }
    {
        self.add(Note::Given(Snapshot::of(envelope)));
    }
}
