//! What was done to a file, for clauses alone: no code keeps it.
ghost use Rattle.std.specs.Prelude.{◌≡◌, ◌++◌, [], ◌∷◌};
ghost use Rattle.folder.specs.Deeds.{deed_of};

use std::marker::Model;
use std::snapshot::Snapshot;

/// What was done.
#[derive(Drop)]
pub(crate) enum Done {
    /// Bytes were written behind the end.
    Written(Snapshot<Vec<u8>>),
    /// It was cut to so many bytes.
    Shortened(usize),
    /// It was synced.
    Settled,
}

/// What was done last, and what clauses see of all before.
#[derive(Drop)]
struct Told {
    before: Option<Snapshot<Told>>,
    last: Done,
}

impl Model for Told {
    ghost use Rattle.std.specs.Prelude.{List, length, ◌++◌, [], ◌∷◌};
    ghost use Rattle.std.proofs.Common.{arith, length-append};
    ghost use Rattle.folder.specs.Deeds.{Deed, before_of, deed_of};

    ghost Value = { List Deed };

    ghost view = { λ t. before_of t.before ++ deed_of t.last ∷ [] };

    ghost size = { length };

    ghost size_decreases = { λ a h. Prim.grind (arith, length-append) };
}

/// All that was done, oldest first. It takes a byte.
#[derive(Drop)]
pub(crate) struct Past {
    last: Option<Snapshot<Told>>,
}

impl Model for Past {
    ghost use Rattle.std.specs.Prelude.{List};
    ghost use Rattle.folder.specs.Deeds.{Deed, before_of};

    ghost Value = { List Deed };

    ghost view = { λ p. before_of p.last };
}

impl Past {
    /// Nothing was done.
    pub(crate) fn new() -> Past
        ensures { result ≡ [] }
    {
        Past { last: None }
    }

    /// This was done, after all that was.
    pub(crate) fn add(&mut self, last: Done)
        ensures { self.new ≡ self.old ++ deed_of last ∷ [] }
    {
        let told = Told {
            before: self.last.take(),
            last,
        };
        self.last = Some(Snapshot::of(&told));
    }
}
