//! Why a log tells nothing, as people read it.
ghost use Rattle.std.specs.Prelude.{◌≡◌, ◌++◌, List, ℕ, IfOk, codes, decimal, string_bytes};
ghost use Rattle.logfile.specs.Told.{store_text, fault_by};

use crate::error::{LogError, Unopened};
use disk::DiskError;
use durable::OpenError;
use folder::OpenError as FolderError;
use keeper::RecoveryError;
use ledger::HeadError;
use logical_time::Fault;
use messages::Topology;
use std::alloc::{AllocError, Global};

// The names of families, with commas between them.
fn families_of(alloc: Global, topology: &Topology) -> Result<String, AllocError> {
    let mut names = String::new(alloc);
    for family in topology.schema().families() {
        if !names.is_empty() {
            names.push(',')?;
        }
        if let Ok(name) = str::from_utf8(family.as_slice()) {
            names.push_str(name)?;
        }
    }
    Ok(names)
}

// So many data centres, shards of each and sessions, and these families.
fn shown_by(
    alloc: Global,
    dcs: u16,
    shards: u16,
    sessions: usize,
    families: &str,
) -> Result<String, AllocError>
    ensures { IfOk result (λ text. string_bytes text ≡ decimal dcs ++ codes " data centres of " ++ decimal shards ++ codes " shards with " ++ decimal sessions ++ codes " sessions, families " ++ families.now) }
{
    format!(in alloc;
        "{dcs} data centres of {shards} shards with {sessions} sessions, families {families}"
    )
}

/// Which topology it is.
pub(crate) fn shown(alloc: Global, topology: &Topology) -> Result<String, AllocError>
    ensures { IfOk result (λ text. (names : List ℕ) × (string_bytes text ≡ store_text topology.now names)) }
{
    let families = families_of(alloc, topology)?;
    let (dcs, shards) = (topology.dcs(), topology.shards().get());
    let sessions = topology.homes().len();
    shown_by(alloc, dcs, shards, sessions, families.as_str())
}

/// The fault that it is: `Memory` and `ClockSpent` where what the records tell is refused so, `Script` where no text can hold it, and
/// `ReadFailed` for all else.
pub(crate) fn fault_of(why: &LogError) -> Fault
    ensures { result ≡ fault_by why.now }
{
    match why {
        LogError::Head(HeadError::Memory)
        | LogError::Records(OpenError::Unrecovered(RecoveryError::Disk(DiskError::Memory))) => {
            Fault::Memory
        }
        LogError::Records(OpenError::Refused(Fault::Memory)) => Fault::Memory,
        LogError::Records(OpenError::Refused(Fault::ClockSpent)) => Fault::ClockSpent,
        LogError::Unspelled => Fault::Script,
        _ => Fault::ReadFailed,
    }
}

// Why a file doesn't begin as a log.
fn head_reason(alloc: Global, why: HeadError) -> Result<String, AllocError> {
    match why {
        HeadError::NoLog => String::from_str(alloc, "it holds no log"),
        HeadError::Version(version) => {
            format!(in alloc; "its log has version {version}, and 1 is wanted")
        }
        HeadError::Damaged => String::from_str(alloc, "its head is damaged"),
        HeadError::Memory => String::from_str(alloc, "there is no memory"),
    }
}

// Why records tell no world.
fn records_reason(alloc: Global, why: OpenError) -> Result<String, AllocError> {
    match why {
        OpenError::Unrecovered(RecoveryError::Damaged(place)) => {
            format!(in alloc; "the record {place} bytes behind its head is damaged")
        }
        OpenError::Unrecovered(RecoveryError::Disk(DiskError::Failed)) => {
            String::from_str(alloc, "the disk failed")
        }
        OpenError::Unread(number) => format!(in alloc; "its record {number} tells nothing"),
        OpenError::Unrecovered(RecoveryError::Disk(DiskError::Memory))
        | OpenError::Refused(Fault::Memory) => String::from_str(alloc, "there is no memory"),
        OpenError::Refused(fault) => format!(in alloc; "what it tells is refused: {fault}"),
    }
}

/// What is told of it.
pub(crate) fn log_reason(alloc: Global, why: &LogError) -> Result<String, AllocError> {
    match why {
        LogError::Head(why) => head_reason(alloc, *why),
        LogError::Other(topology) => {
            let topology = shown(alloc, topology)?;
            format!(in alloc; "it is that of {topology}")
        }
        LogError::Records(why) => records_reason(alloc, *why),
        LogError::Unspelled => String::from_str(alloc, "a name or a value is no UTF-8"),
    }
}

impl Unopened {
    /// What is told of it.
    pub fn reason(&self, alloc: Global) -> Result<String, AllocError> {
        match self {
            Unopened::Folder(FolderError::InUse) => {
                String::from_str(alloc, "another server has it open")
            }
            Unopened::Folder(FolderError::Refused(error)) | Unopened::System(error) => {
                format!(in alloc; "{error}")
            }
            Unopened::Folder(FolderError::Memory) => String::from_str(alloc, "there is no memory"),
            Unopened::Log(why) => log_reason(alloc, why),
        }
    }

    /// The fault that it is: as `fault_by` says of a log, `Memory`, and `ReadFailed` for all else.
    pub fn fault(&self) -> Fault {
        match self {
            Unopened::Folder(FolderError::Memory) => Fault::Memory,
            Unopened::Log(why) => fault_of(why),
            _ => Fault::ReadFailed,
        }
    }
}
