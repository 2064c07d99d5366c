//! Why a frame isn't read or written.
ghost use Rattle.std.specs.Prelude.{◌≡◌};
ghost use Rattle.wire.specs.declared.error.FrameError.TheVariants.{Memory};

use logical_time::Fault;
use std::alloc::{AllocError, AllocFailed};

/// Why a frame isn't read or written.
#[derive(Clone, Copy)]
pub enum FrameError {
    /// Memory was refused.
    Memory,
    /// What is wrong with the frame.
    Frame(Fault),
}

impl From<AllocError> for FrameError {
    ghost from_gives = { λ _ e. e ≡ Memory };

    fn from(_e: AllocError) -> FrameError {
        FrameError::Memory
    }
}

impl<T: Drop> From<AllocFailed<T>> for FrameError {
    ghost from_gives = { λ _ e. e ≡ Memory };

    fn from(_e: AllocFailed<T>) -> FrameError {
        FrameError::Memory
    }
}

impl FrameError {
    ghost use Rattle.wire.specs.Answers.{fault_of};

    /// The refusal that it is.
    pub fn fault(self) -> Fault
        ensures { result ≡ fault_of self }
    {
        match self {
            FrameError::Memory => Fault::Memory,
            FrameError::Frame(fault) => fault,
        }
    }
}
