//! Why an end goes no further.
ghost use Rattle.std.specs.Prelude.{◌≡◌};
ghost use Rattle.logical_time.specs.declared.fault.Fault.TheVariants.{Memory};
ghost use Rattle.linking.specs.declared.trouble.Trouble.TheVariants.{Refused};

use hello::Unwelcome;
use logical_time::Fault;
use std::alloc::AllocError;

/// Why an end goes no further. After each but `Refused` the connection is over.
#[derive(Drop)]
pub enum Trouble {
    /// The other end's hello isn't welcome.
    Unwelcome(Unwelcome),
    /// What had to be the other end's proof isn't it.
    Unproved,
    /// A frame hasn't the tag that it must have.
    Forged,
    /// Bytes that are no frame of this place, or too long a one.
    Malformed,
    /// Memory was refused, or all numbers of frames are spent: the end stays as it was.
    Refused(Fault),
}

impl From<AllocError> for Trouble {
    ghost from_gives = { λ _ e. e ≡ Refused Memory };

    fn from(_e: AllocError) -> Trouble {
        Trouble::Refused(Fault::Memory)
    }
}

impl From<Fault> for Trouble {
    ghost from_gives = { λ f e. e ≡ Refused f };

    fn from(fault: Fault) -> Trouble {
        Trouble::Refused(fault)
    }
}
