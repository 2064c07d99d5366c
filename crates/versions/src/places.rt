//! The places of versions, by rising stamp.
ghost use Rattle.std.specs.Prelude.{◌≡◌, ◌+◌, ◌≤◌, ◌^◌, ℕ, is_some, is_ok, IsOk, OnOk, OnErr, IfErr, if◌then◌else◌, remove, reverse, take, drop, length, slice_get, ◌++◌, ◌∷◌};
ghost use Rattle.smallvec.specs.SmallVec.{small_vec_len, HasRoomFor};
ghost use Rattle.versions.specs.Chain.{put_of, kept_from};
ghost use Rattle.versions.specs.Ends.{AreEnded, IsIndexOf, LeadTo, versions_of};

use crate::entry::{END, Entry};
use crate::times::least;
use crate::version::Version;
use logical_time::{Fault, Time};
use smallvec::SmallVec;
use std::cmp::Ordering;

/// The entries of a chain, by rising stamp. Four take no memory of their own.
pub(crate) type Entries = SmallVec<Entry, 4>;

// Where a version goes, or nowhere if its stamp is held. Looks at those of greater stamps alone.
fn index_of(entries: &[Entry], version: &Version) -> Option<usize>
    ensures { IsIndexOf version.now entries.now result }
{
    let mut i = entries.len();
    while i > 0 {
        match version.stamp.cmp(&entries[i - 1].version.stamp) {
            Ordering::Less => i -= 1,
            Ordering::Equal => return None,
            Ordering::Greater => return Some(i),
        }
    }
    Some(0)
}

// From when on a version is seen whose stamp is greater than those below this index.
fn end_below(entries: &[Entry], i: usize) -> u64
    requires ended { AreEnded (2 ^ 48) (reverse entries.now) }
    requires inside { i ≤ length entries.now }
    ensures newer { LeadTo (reverse (drop i entries.now)) result }
    ensures older { AreEnded result (reverse (take i entries.now)) }
{
    if i < entries.len() {
        let entry = &entries[i];
        least(entry.end, entry.version.evt)
    } else {
        END
    }
}

// Ends the versions below this index at the first time at which a newer one is seen: the bound, for the newest of
// them. Stops at the first that ends there already.
fn mend(entries: &mut [Entry], index: usize, bound: u64)
    requires { index ≤ length entries.old }
    ensures ended { (b : ℕ) → LeadTo (reverse (drop index entries.old)) bound → AreEnded b (reverse (take index entries.old)) → AreEnded (2 ^ 48) (reverse entries.new) }
    ensures versions { versions_of entries.new ≡ versions_of entries.old }
    ensures length { length entries.new ≡ length entries.old }
{
    let mut i = index;
    let mut end = bound;
    while i > 0 && entries[i - 1].end != end {
        i -= 1;
        entries[i].end = end;
        end = least(end, entries[i].version.evt);
    }
}

// Puts a version at this index.
fn insert_at(entries: &mut Entries, i: usize, version: Version) -> Result<(), (Fault, Version)>
    requires ended { AreEnded (2 ^ 48) (reverse entries.old.items) }
    requires inside { i ≤ length entries.old.items }
    ensures ended { AreEnded (2 ^ 48) (reverse entries.new.items) }
    ensures ok { OnOk result (versions_of entries.new.items ≡ versions_of (drop i entries.old.items) ++ version ∷ versions_of (take i entries.old.items)) }
    ensures len { OnOk result (small_vec_len entries.new ≡ small_vec_len entries.old + 1) }
    ensures succeeds { HasRoomFor entries.old 1 → IsOk result }
    ensures capacity { entries.old.capacity ≤ entries.new.capacity }
    ensures err { OnErr result (entries.new ≡ entries.old) }
    ensures back { IfErr result (λ e. e ≡ (Fault.Memory, version)) }
{
    let end = end_below(entries.as_slice(), i);
    let bound = least(end, version.evt);
    match entries.insert(i, Entry { version, end }) {
        Ok(()) => {
            mend(entries.as_mut_slice(), i, bound);
            Ok(())
        }
        Err(refused) => Err((Fault::Memory, refused.value.version)),
    }
}

/// Puts a version in its place, unless its stamp is held.
pub(crate) fn put_in(entries: &mut Entries, version: Version) -> Result<(), (Fault, Version)>
    requires { AreEnded (2 ^ 48) (reverse entries.old.items) }
    ensures ended { AreEnded (2 ^ 48) (reverse entries.new.items) }
    ensures ok { OnOk result (versions_of entries.new.items ≡ put_of (versions_of entries.old.items) version) }
    ensures len { small_vec_len entries.new ≤ small_vec_len entries.old + (if is_ok result then 1 else 0) }
    ensures capacity { entries.old.capacity ≤ entries.new.capacity }
    ensures succeeds { HasRoomFor entries.old 1 → IsOk result }
    ensures held { put_of (versions_of entries.old.items) version ≡ versions_of entries.old.items → IsOk result }
    ensures err { OnErr result (entries.new ≡ entries.old) }
    ensures back { IfErr result (λ e. e ≡ (Fault.Memory, version)) }
{
    match index_of(entries.as_slice(), &version) {
        None => Ok(()),
        Some(i) => insert_at(entries, i, version),
    }
}

/// Takes out the version at this place, if there is one.
pub(crate) fn take_out(entries: &mut Entries, place: usize) -> Option<Version>
    requires { AreEnded (2 ^ 48) (reverse entries.old.items) }
    ensures ended { AreEnded (2 ^ 48) (reverse entries.new.items) }
    ensures removed { result ≡ slice_get (versions_of entries.old.items) place }
    ensures left { versions_of entries.new.items ≡ remove (versions_of entries.old.items) place }
    ensures length { small_vec_len entries.new + (if is_some result then 1 else 0) ≡ small_vec_len entries.old }
    ensures fits { small_vec_len entries.old ≤ entries.old.capacity }
    ensures capacity { entries.new.capacity ≡ entries.old.capacity }
{
    let count = entries.len();
    if place >= count {
        return None;
    }
    let i = count - 1 - place;
    let removed = entries.remove(i);
    mend(entries.as_mut_slice(), i, removed.end);
    Some(removed.version)
}

/// Keeps the versions that are the newest at some time from this one on.
pub(crate) fn keep_from(entries: &mut Entries, time: Time)
    requires { AreEnded (2 ^ 48) (reverse entries.old.items) }
    ensures ended { AreEnded (2 ^ 48) (reverse entries.new.items) }
    ensures kept { versions_of entries.new.items ≡ kept_from time (versions_of entries.old.items) }
    ensures capacity { entries.new.capacity ≡ entries.old.capacity }
    ensures fits { small_vec_len entries.old ≤ entries.old.capacity }
    ensures fewer { small_vec_len entries.new ≤ small_vec_len entries.old }
{
    if entries.len() < 2 {
        return;
    }
    let time = time.get();
    entries.retain(|entry| entry.version.evt.get() < entry.end && time < entry.end);
}
