//! Which of the versions of a chain is the newest, at a time and for how long.
ghost use Rattle.std.specs.Prelude.{◌≡◌, ◌^◌, ◌≤◌, ◌<◌, nat_lt, reverse, slice_get};
ghost use Rattle.std.specs.Option.{option_copied};
ghost use Rattle.versions.specs.Chain as chain;
ghost use Rattle.versions.specs.Chain.{at_of, interval_of, interval_if};
ghost use Rattle.versions.specs.Ends.{AreEnded, versions_of};

use crate::entry::Entry;
use crate::version::Version;
use logical_time::Time;

/// The newest version.
pub(crate) fn newest_of(entries: &[Entry]) -> Option<&Version>
    ensures { option_copied result ≡ slice_get (versions_of entries.now) 0 }
{
    match entries.last() {
        Some(entry) => Some(&entry.version),
        None => None,
    }
}

/// The newest version that is seen by the time: the first that ends after it, if it is seen. Logarithmic.
pub(crate) fn newest_at(entries: &[Entry], time: Time) -> Option<&Version>
    requires { AreEnded (2 ^ 48) (reverse entries.now) }
    ensures { option_copied result ≡ at_of (versions_of entries.now) time }
{
    let number = time.get();
    let i = entries.partition_point(|entry| entry.end <= number);
    match entries.get(i) {
        Some(entry) => if entry.version.evt <= time {
            Some(&entry.version)
        } else {
            None
        },
        None => None,
    }
}

/// The first and the last time at which the version at this place is the newest.
pub(crate) fn interval_at(entries: &[Entry], place: usize) -> Option<(Time, Time)>
    requires { AreEnded (2 ^ 48) (reverse entries.now) }
    ensures { result ≡ interval_of (2 ^ 48) (versions_of entries.now) place }
{
    let count = entries.len();
    if place < count {
        let entry = &entries[count - 1 - place];
        between(entry.version.evt, entry.end)
    } else {
        None
    }
}

/// The lesser of a bound and a time.
pub(crate) fn least(bound: u64, evt: Time) -> u64
    ensures least { result ≡ chain.least bound evt }
    ensures time { evt < 2 ^ 48 }
{
    if evt.get() < bound { evt.get() } else { bound }
}

// The times from one on and before a bound, if there are any.
fn between(evt: Time, bound: u64) -> Option<(Time, Time)>
    requires { bound ≤ 2 ^ 48 }
    ensures { result ≡ interval_if (nat_lt evt bound) evt bound }
{
    if evt.get() < bound {
        Some((evt, Time::new(bound - 1)?))
    } else {
        None
    }
}
