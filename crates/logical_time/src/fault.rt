//! The numbered refusals.
ghost use Rattle.std.specs.Prelude.{◌≡◌};
ghost use Rattle.logical_time.specs.declared.fault.Fault.TheVariants.{Memory};

use std::alloc::{AllocError, AllocFailed};
use thiserror::Error;

/// Why a call was refused. Each refusal has one number, under which it is documented and written in
/// transcripts and frames, and prints as `NUMBER NAME`.
#[derive(Clone, Copy, Debug, PartialEq, Eq, Error)]
pub enum Fault {
    /// A batch without a mutation.
    #[error("1 EmptyBatch")]
    EmptyBatch,
    /// A column family that isn't in the schema.
    #[error("2 UnknownFamily")]
    UnknownFamily,
    /// A row key that is empty or longer than 1,024 bytes.
    #[error("3 KeyLength")]
    KeyLength,
    /// A column name that is empty or longer than 1,024 bytes, or an end of a range longer than that.
    #[error("4 NameLength")]
    NameLength,
    /// A value longer than 65,536 bytes.
    #[error("5 ValueLength")]
    ValueLength,
    /// More mutations, keys or names than one request may list.
    #[error("6 TooMany")]
    TooMany,
    /// A range whose start lies after its finish in the direction of the walk.
    #[error("7 RangeOrder")]
    RangeOrder,
    /// A read that asks for no key.
    #[error("8 EmptyRead")]
    EmptyRead,
    /// A submission while the session's operation before it is open.
    #[error("20 Busy")]
    Busy,
    /// A time below the horizon of the collections.
    #[error("21 Collected")]
    Collected,
    /// The clock would leave its range.
    #[error("22 ClockSpent")]
    ClockSpent,
    /// Memory was refused.
    #[error("23 Memory")]
    Memory,
    /// A journal that holds as many events as it may.
    #[error("24 JournalFull")]
    JournalFull,
    /// Seats whose links aren't those of one run.
    #[error("25 StrangerEnd")]
    StrangerEnd,
    /// A move to the data centre where the session is already.
    #[error("26 AlreadyHome")]
    AlreadyHome,
    /// A move to a data centre that isn't there.
    #[error("27 UnknownHome")]
    UnknownHome,
    /// A batch while more waits for a data centre that is away than may wait.
    #[error("28 Behind")]
    Behind,
    /// A frame longer than a frame may be.
    #[error("30 Oversize")]
    Oversize,
    /// A byte of a frame that stands for no kind, or a flag that is neither off nor on.
    #[error("31 UnknownTag")]
    UnknownTag,
    /// A count of a frame that its bytes can't hold.
    #[error("32 BadCount")]
    BadCount,
    /// Bytes of a frame after its request.
    #[error("33 TrailingBytes")]
    TrailingBytes,
    /// A frame that ends too early.
    #[error("34 Truncated")]
    Truncated,
    /// A text that is no script.
    #[error("35 Script")]
    Script,
    /// A reader or a socket failed.
    #[error("36 ReadFailed")]
    ReadFailed,
    /// A writer failed.
    #[error("37 WriteFailed")]
    WriteFailed,
}

impl Fault {
    ghost use Rattle.logical_time.specs.Fault.{number_of};

    /// The number under which the refusal is documented.
    pub fn number(self) -> u16
        ensures { result ≡ number_of self }
    {
        match self {
            Fault::EmptyBatch => 1,
            Fault::UnknownFamily => 2,
            Fault::KeyLength => 3,
            Fault::NameLength => 4,
            Fault::ValueLength => 5,
            Fault::TooMany => 6,
            Fault::RangeOrder => 7,
            Fault::EmptyRead => 8,
            Fault::Busy => 20,
            Fault::Collected => 21,
            Fault::ClockSpent => 22,
            Fault::Memory => 23,
            Fault::JournalFull => 24,
            Fault::StrangerEnd => 25,
            Fault::AlreadyHome => 26,
            Fault::UnknownHome => 27,
            Fault::Behind => 28,
            Fault::Oversize => 30,
            Fault::UnknownTag => 31,
            Fault::BadCount => 32,
            Fault::TrailingBytes => 33,
            Fault::Truncated => 34,
            Fault::Script => 35,
            Fault::ReadFailed => 36,
            Fault::WriteFailed => 37,
        }
    }
}

impl From<AllocError> for Fault {
    ghost from_gives = { λ _ e. e ≡ Memory };

    fn from(_e: AllocError) -> Fault {
        Fault::Memory
    }
}

impl<T: Drop> From<AllocFailed<T>> for Fault {
    ghost from_gives = { λ _ e. e ≡ Memory };

    fn from(_e: AllocFailed<T>) -> Fault {
        Fault::Memory
    }
}
