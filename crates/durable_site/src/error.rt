//! Why a site doesn't come back.
ghost use Rattle.std.specs.Prelude.{◌≡◌};
ghost use Rattle.logical_time.specs.declared.fault.Fault.TheVariants.{Memory};
ghost use Rattle.durable_site.specs.declared.error.OpenError.TheVariants.{Unrecovered, Refused};

use keeper::RecoveryError;
use logical_time::Fault;
use std::alloc::{AllocError, AllocFailed};

/// Why a site doesn't come back from a log.
#[derive(Clone, Copy, Debug, PartialEq, Eq)]
pub enum OpenError {
    /// The log can't be recovered.
    Unrecovered(RecoveryError),
    /// The record of this number tells no entry; the first has 0.
    Unread(usize),
    /// It is the log of another data centre, or by another file of sites.
    Other,
    /// What an entry tells is refused, a new log's disk fails, or there is no memory.
    Refused(Fault),
}

impl From<RecoveryError> for OpenError {
    ghost from_gives = { λ x e. e ≡ Unrecovered x };

    fn from(error: RecoveryError) -> Self {
        OpenError::Unrecovered(error)
    }
}

impl From<Fault> for OpenError {
    ghost from_gives = { λ x e. e ≡ Refused x };

    fn from(fault: Fault) -> Self {
        OpenError::Refused(fault)
    }
}

impl From<AllocError> for OpenError {
    ghost from_gives = { λ _ e. e ≡ Refused Memory };

    fn from(_: AllocError) -> Self {
        OpenError::Refused(Fault::Memory)
    }
}

impl<T: Drop> From<AllocFailed<T>> for OpenError {
    ghost from_gives = { λ _ e. e ≡ Refused Memory };

    fn from(_: AllocFailed<T>) -> Self {
        OpenError::Refused(Fault::Memory)
    }
}
