//! Why an exploration ends without a result.
ghost use Rattle.explore.specs.Exploration.{IsStop};

use logical_time::Fault;
use std::alloc::{AllocError, AllocFailed};

/// Why an exploration ends without a result.
#[derive(Clone, Copy)]
pub(crate) enum Stop {
    /// There is no memory.
    Memory,
    /// A clock would leave its range.
    Clock,
    /// Something that is no step of a run was followed: that should never be seen.
    Stray,
}

impl Stop {
    /// The fault that tells it.
    pub fn fault(self) -> Fault
        ensures { IsStop result }
    {
        match self {
            Stop::Memory => Fault::Memory,
            Stop::Clock => Fault::ClockSpent,
            Stop::Stray => Fault::StrangerEnd,
        }
    }
}

impl From<AllocError> for Stop {
    fn from(_e: AllocError) -> Stop {
        Stop::Memory
    }
}

impl<T: Drop> From<AllocFailed<T>> for Stop {
    fn from(_e: AllocFailed<T>) -> Stop {
        Stop::Memory
    }
}

impl From<Fault> for Stop {
    fn from(fault: Fault) -> Stop {
        match fault {
            Fault::Memory => Stop::Memory,
            Fault::ClockSpent => Stop::Clock,
            _ => Stop::Stray,
        }
    }
}
