//! An open move of a session.
ghost use Rattle.std.specs.Prelude.{◌≡◌, max};

use crate::missing::Missing;
use logical_time::{Time, TxnId};
use std::marker::Model;

/// The open move of a session: the dependencies whose answers are missing, and the greatest commit time, in the new home,
/// that was told so far, 0 before the first. It must be spent: each dependency is answered, or the session is closed.
pub struct OpenMove {
    missing: Missing,
    floor: Time,
}

impl Model for OpenMove {
    ghost use Rattle.dependencies.specs.Moving.{MoveValue};

    ghost Value = { MoveValue };

    ghost view = { λ m. record { left = m.missing; floor = m.floor } };
}

/// What an answer makes of an open move.
pub enum MoveTaken {
    /// More answers are missing.
    More(OpenMove),
    /// The move ends, with the floor in the new home.
    Ended(Time),
}

/// The later of two times.
fn later(time: Time, other: Time) -> Time
    ensures { result ≡ max time other }
{
    if time < other { other } else { time }
}

impl OpenMove {
    ghost use Rattle.dependencies.specs.MoveTaken.{move_taken};

    /// The move that asked for these dependencies, of which none is answered.
    pub fn new(missing: Missing) -> OpenMove
        ensures { result ≡ record { left = missing; floor = 0 } }
    {
        OpenMove {
            missing,
            floor: Time::zero(),
        }
    }

    /// Takes the answer that a dependency is committed in the new home, at this time there. One that isn't missing, so
    /// also a repeated one, changes nothing. The last missing one ends the move: the floor is the greatest commit time
    /// told. Logarithmic in the number of dependencies, and takes no memory.
    pub fn answer(self, dependency: TxnId, commit: Time) -> MoveTaken
        ensures { result ≡ move_taken self dependency commit }
    {
        let OpenMove { mut missing, floor } = self;
        if !missing.count(dependency) {
            return MoveTaken::More(OpenMove { missing, floor });
        }
        let floor = later(floor, commit);
        if missing.is_empty() {
            MoveTaken::Ended(floor)
        } else {
            MoveTaken::More(OpenMove { missing, floor })
        }
    }

    /// Gives the move up: for a session that is closed.
    pub fn surrender(self) {
        let OpenMove {
            missing: _,
            floor: _,
        } = self;
    }
}
