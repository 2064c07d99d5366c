//! Why a log tells nothing.
ghost use Rattle.std.specs.Prelude.{◌≡◌};
ghost use Rattle.ledger.specs.declared.head.HeadError.TheVariants.{Memory};
ghost use Rattle.logfile.specs.declared.error.LogError.TheVariants.{Head, Records};

use durable::OpenError;
use folder::OpenError as FolderError;
use ledger::HeadError;
use messages::Topology;
use std::alloc::AllocError;
use std::io;

/// Why the bytes of a file tell nothing.
#[derive(Drop)]
pub enum LogError {
    /// They don't begin as a log.
    Head(HeadError),
    /// They are the log of a store of this other topology.
    Other(Topology),
    /// The records behind their head tell no world.
    Records(OpenError),
    /// No text can hold what they tell.
    Unspelled,
}

impl From<HeadError> for LogError {
    ghost from_gives = { λ x e. e ≡ Head x };

    fn from(error: HeadError) -> Self {
        LogError::Head(error)
    }
}

impl From<OpenError> for LogError {
    ghost from_gives = { λ x e. e ≡ Records x };

    fn from(error: OpenError) -> Self {
        LogError::Records(error)
    }
}

impl From<AllocError> for LogError {
    ghost from_gives = { λ _ e. e ≡ Head Memory };

    fn from(_: AllocError) -> Self {
        LogError::Head(HeadError::Memory)
    }
}

/// Why no world comes back from a folder.
#[derive(Drop)]
pub enum Unopened {
    /// The folder can't be opened.
    Folder(FolderError),
    /// The system gives no chance for a new log's secret.
    System(io::Error),
    /// Its log tells no world.
    Log(LogError),
}

impl From<FolderError> for Unopened {
    fn from(error: FolderError) -> Self {
        Unopened::Folder(error)
    }
}

impl From<io::Error> for Unopened {
    fn from(error: io::Error) -> Self {
        Unopened::System(error)
    }
}

impl From<AllocError> for Unopened {
    fn from(_: AllocError) -> Self {
        Unopened::Log(LogError::Head(HeadError::Memory))
    }
}

impl From<LogError> for Unopened {
    fn from(error: LogError) -> Self {
        Unopened::Log(error)
    }
}
