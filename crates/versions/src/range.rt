//! What the range deletions of a row are kept as.
ghost use Rattle.std.specs.Prelude.{◌≡◌};
ghost use Rattle.versions.specs.Ranges as ranges;

use column_family::Name;
use logical_time::{Stamp, Time, Writer};

/// A deletion of the columns of a row between two ends, and from when on it is seen.
#[derive(Drop)]
pub struct RangeDeletion {
    /// The stamp of the transaction, the same in all data centres. The deletion of the greater stamp is the newer.
    pub stamp: Stamp,
    /// The commit time in this data centre, the earliest time at which the deletion is seen (Eiger's EVT).
    pub evt: Time,
    /// The first name. It is included, and an empty one is open.
    pub start: Name,
    /// The last name. It is included, and an empty one is open.
    pub finish: Name,
    /// The transaction, with its coordinator.
    pub writer: Writer,
}

/// Whether the range deletion is seen by the time, and has the name between its ends.
pub(crate) fn is_over(range: &RangeDeletion, name: &Name, time: Time) -> bool
    ensures { result ≡ ranges.is_over name.now time range.now }
{
    range.evt <= time && name.is_between(&range.start, &range.finish)
}
