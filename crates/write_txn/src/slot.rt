//! What is known of a transaction, in sixteen bytes.
ghost use Rattle.std.specs.Prelude.{◌≡◌, ◌+◌, ◌*◌};
ghost use Rattle.write_txn.specs.Statuses.{slot_number, slot_status};

use crate::status::Status;
use logical_time::{Stamp, Time};

/// How many numbers the lower part of a commit time has: 2^32.
const PART: u64 = 0x1_0000_0000;

/// The status of a number of a block. A commit time has 48 bits, which stand in two parts, so that a slot takes sixteen
/// bytes.
#[derive(Clone, Copy)]
pub(crate) enum Slot {
    /// Something is under way, at this place.
    Open {
        /// The number, within its block.
        number: u8,
        /// The place.
        place: usize,
    },
    /// The part is applied.
    Applied {
        /// The number, within its block.
        number: u8,
    },
    /// The transaction is decided.
    Decided {
        /// The number, within its block.
        number: u8,
        /// The upper 16 bits of the commit time.
        upper: u16,
        /// The lower 32 bits of the commit time.
        lower: u32,
        /// The stamp.
        stamp: Stamp,
    },
}

impl Slot {
    /// A number with its status.
    pub(crate) fn new(number: u8, status: Status) -> Slot
        ensures number { slot_number result ≡ number }
        ensures status { slot_status result ≡ status }
    {
        match status {
            Status::Open(place) => Slot::Open { number, place },
            Status::Applied => Slot::Applied { number },
            Status::Decided { commit, stamp } => {
                let time = commit.get();
                Slot::Decided {
                    number,
                    upper: (time / PART) as u16,
                    lower: (time % PART) as u32,
                    stamp,
                }
            }
        }
    }

    /// The number, within its block.
    #[inline]
    pub(crate) fn number(&self) -> u8
        ensures { result ≡ slot_number self.now }
    {
        match self {
            Slot::Open { number, place: _ } => *number,
            Slot::Applied { number } => *number,
            Slot::Decided {
                number,
                upper: _,
                lower: _,
                stamp: _,
            } => *number,
        }
    }

    /// The status.
    #[inline]
    pub(crate) fn status(&self) -> Status
        ensures { result ≡ slot_status self.now }
    {
        match self {
            Slot::Open { number: _, place } => Status::Open(*place),
            Slot::Applied { number: _ } => Status::Applied,
            Slot::Decided {
                number: _,
                upper,
                lower,
                stamp,
            } => Status::Decided {
                commit: time_of(*upper, *lower),
                stamp: *stamp,
            },
        }
    }
}

/// The time of two parts.
#[inline]
fn time_of(upper: u16, lower: u32) -> Time
    ensures { result ≡ upper * 4294967296 + lower }
{
    match Time::new(u64::from(upper) * PART + u64::from(lower)) {
        Some(time) => time,
        None => unreachable!(),
    }
}
