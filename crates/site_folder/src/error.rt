//! Why no site comes back from a folder.
ghost use Rattle.std.specs.Prelude.{◌≡◌};
ghost use Rattle.ledger.specs.declared.head.HeadError.TheVariants.{Memory};
ghost use Rattle.logfile.specs.declared.error.LogError.TheVariants.{Head};
ghost use Rattle.logfile.specs.declared.error.Unopened.TheVariants.{Log};
ghost use Rattle.site_folder.specs.declared.error.Unreturned.TheVariants.{Folder, Records};

use disk::DiskError;
use durable_site::OpenError;
use folder::OpenError as FolderError;
use keeper::RecoveryError;
use ledger::HeadError;
use logfile::{LogError, Unopened};
use logical_time::Fault;
use std::alloc::{AllocError, Global};
use std::io;

/// Why no site comes back from a folder.
#[derive(Drop)]
pub enum Unreturned {
    /// The folder can't be opened, or its file doesn't begin as a log of this store.
    Folder(Unopened),
    /// The records of its log lead to no site.
    Records(OpenError),
}

impl From<HeadError> for Unreturned {
    ghost from_gives = { λ x e. e ≡ Folder (Log (Head x)) };

    fn from(error: HeadError) -> Self {
        Unreturned::Folder(Unopened::Log(LogError::Head(error)))
    }
}

impl From<AllocError> for Unreturned {
    ghost from_gives = { λ _ e. e ≡ Folder (Log (Head Memory)) };

    fn from(_: AllocError) -> Self {
        Unreturned::Folder(Unopened::Log(LogError::Head(HeadError::Memory)))
    }
}

impl From<FolderError> for Unreturned {
    fn from(error: FolderError) -> Self {
        Unreturned::Folder(Unopened::Folder(error))
    }
}

impl From<io::Error> for Unreturned {
    fn from(error: io::Error) -> Self {
        Unreturned::Folder(Unopened::System(error))
    }
}

// Why records lead to no site.
fn records_reason(alloc: Global, why: OpenError) -> Result<String, AllocError> {
    match why {
        OpenError::Unrecovered(RecoveryError::Damaged(place)) => {
            format!(in alloc; "the record {place} bytes behind its head is damaged")
        }
        OpenError::Unrecovered(RecoveryError::Disk(DiskError::Failed)) => {
            String::from_str(alloc, "the disk failed")
        }
        OpenError::Unread(number) => format!(in alloc; "its record {number} tells nothing"),
        OpenError::Other => String::from_str(
            alloc,
            "it is that of another data centre, or by another file of sites",
        ),
        OpenError::Unrecovered(RecoveryError::Disk(DiskError::Memory))
        | OpenError::Refused(Fault::Memory) => String::from_str(alloc, "there is no memory"),
        OpenError::Refused(fault) => format!(in alloc; "what it tells is refused: {fault}"),
    }
}

impl Unreturned {
    /// What is told of it.
    pub fn reason(&self, alloc: Global) -> Result<String, AllocError> {
        match self {
            Unreturned::Folder(why) => why.reason(alloc),
            Unreturned::Records(why) => records_reason(alloc, *why),
        }
    }

    /// The fault that it is: `Memory`, `ClockSpent` where what its log tells is refused so, `WriteFailed` where the disk fails under a new
    /// log, and `ReadFailed` for all else.
    pub fn fault(&self) -> Fault {
        match self {
            Unreturned::Folder(why) => why.fault(),
            Unreturned::Records(OpenError::Unrecovered(RecoveryError::Disk(DiskError::Memory))) => {
                Fault::Memory
            }
            Unreturned::Records(
                OpenError::Refused(
                    fault @ (Fault::Memory | Fault::ClockSpent | Fault::WriteFailed),
                ),
            ) => *fault,
            Unreturned::Records(_) => Fault::ReadFailed,
        }
    }
}
