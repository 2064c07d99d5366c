//! The open operation of a session.
ghost use Rattle.std.specs.Prelude.{◌≡◌};
ghost use Rattle.messages.specs.Session.{is_idle};
ghost use Rattle.client.specs.Current.{open_of, coordinator_of};

use crate::home::Home;
use dependencies::OpenMove;
use logical_time::Shard;
use read_txn::{FirstRound, SecondRound};

/// The open operation. A round of a read and an open move must be spent.
pub(crate) enum Current {
    /// None.
    Idle,
    /// A write, with its coordinator.
    Write(Shard),
    /// A read in its first round.
    First(FirstRound),
    /// A read in its second round.
    Second(SecondRound),
    /// A move.
    Move {
        /// The new home.
        home: Home,
        /// What it misses.
        open: OpenMove,
    },
}

impl Current {
    /// Whether no operation is open.
    pub(crate) fn is_idle(&self) -> bool
        ensures { result ≡ is_idle (open_of self.now) }
    {
        match self {
            Current::Idle => true,
            Current::Write(_) | Current::First(_) | Current::Second(_) | Current::Move { .. } =>
                false,
        }
    }

    /// The coordinator of the open write, if a write is open.
    pub(crate) fn coordinator(&self) -> Option<Shard>
        ensures { result ≡ coordinator_of self.now }
    {
        match self {
            Current::Write(coordinator) => Some(*coordinator),
            Current::Idle | Current::First(_) | Current::Second(_) | Current::Move { .. } => None,
        }
    }

    /// Gives up what is open: for a session that is closed.
    #[inline]
    pub(crate) fn close(self) {
        match self {
            Current::Idle | Current::Write(_) => {}
            Current::First(round) => {
                drop(round.surrender());
            }
            Current::Second(round) => {
                drop(round.surrender());
            }
            Current::Move { home: _, open } => open.surrender(),
        }
    }
}
