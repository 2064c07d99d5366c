//! Chains of versions.
ghost use Rattle.std.specs.Prelude.{◌≡◌, ◌+◌, ◌-◌, ◌≤◌, ◌<◌, [], length, slice_get, IfOk, OnOk, OnErr, IfErr, IsOk, is_ok, is_some, if◌then◌else◌, remove, MatchOption, Contains, IfSome, ℕ, ◌↔◌, ◌⊎◌, Some, true, false};
ghost use Rattle.std.specs.Option.{option_copied};

use crate::places::{Entries, keep_from, put_in, take_out};
use crate::times::{interval_at, newest_at, newest_of};
use crate::version::Version;
use logical_time::{Fault, Time};
use std::alloc::Global;
use std::marker::Model;

/// The versions of a column, or of the deletions of a row, each stamp at most once. A version's place is
/// counted from the greatest stamp, which stands at place 0.
#[derive(Drop)]
pub struct Chain {
    // by rising stamp, so that the newest comes and goes at the end
    entries: Entries,
}

impl Model for Chain {
    ghost use Rattle.std.specs.Prelude.{◌-◌, ◌^◌, reverse};
    ghost use Rattle.smallvec.specs.SmallVec.{small_vec_len};
    ghost use Rattle.versions.specs.Chain.{Held, IsFalling};
    ghost use Rattle.versions.specs.Ends.{AreEnded, versions_of};

    ghost Value = { Held };

    ghost view = { λ c. record { versions = versions_of c.entries.items; room = c.entries.capacity - small_vec_len c.entries } };

    ghost invariant = { λ c. IsFalling (versions_of c.entries.items) × AreEnded (2 ^ 48) (reverse c.entries.items) };
}

impl Chain {
    ghost use Rattle.std.specs.Prelude.{◌^◌};
    ghost use Rattle.versions.specs.Chain.{IsFalling, put_of, at_of, interval_of, kept_from};
    ghost use Rattle.versions.specs.Newest.{IsNewest, IsNewestAt, IsWithin, IsPlaceNewestAt, at_with, has_stamp};

    /// A chain without a version.
    pub fn new(alloc: Global) -> Chain
        ensures { result.versions ≡ [] }
    {
        Chain {
            entries: Entries::new(alloc),
        }
    }

    // Does nothing: the stamps fall.
    pub(crate) fn is_ordered(&self)
        ensures { IsFalling self.now.versions }
    {
        let _entries = self.entries.as_slice();
    }

    /// How many versions are held.
    pub fn len(&self) -> usize
        ensures { result ≡ length self.now.versions }
    {
        self.entries.len()
    }

    /// Makes room for so many more versions, so that the next `additional` puts succeed if no other changing
    /// call stands between. What is held stays. Refused with `Memory` alone.
    pub fn reserve(&mut self, additional: usize) -> Result<(), Fault>
        ensures same { self.new.versions ≡ self.old.versions }
        ensures ok { OnOk result (additional ≤ self.new.room) }
        ensures room { self.old.room ≤ self.new.room }
        ensures succeeds { 0 < additional → additional ≤ self.old.room → IsOk result }
        ensures memory { IfErr result (λ e. e ≡ Fault.Memory) }
    {
        self.entries.reserve(additional)?;
        Ok(())
    }

    /// Puts a version in its place, in any order of stamps; a stamp that is held already changes nothing. Takes
    /// as many steps as there are held versions of greater stamps, and as older ones end earlier for it: of versions
    /// whose EVTs rise with their stamps, the newest ends one. Refused with `Memory` alone, never where there is room
    /// or the stamp is held, and then the version comes back and the chain stays.
    #[tactic(auto, using(crate::proofs::Falling::falling_put, crate::proofs::Held::put_if_held))]
    #[inline(always)]
    pub fn put(&mut self, version: Version) -> Result<(), (Fault, Version)>
        ensures ok { OnOk result (self.new.versions ≡ put_of self.old.versions version) }
        ensures held { OnOk result ((w : Version) → Contains self.new.versions w ↔ (Contains self.old.versions w ⊎ ((w ≡ version) × (has_stamp self.old.versions version.stamp ≡ false)))) }
        ensures seen { OnOk result ((t : ℕ) → at_of self.new.versions t ≡ at_with self.old.versions version t) }
        ensures room { self.old.room ≤ self.new.room + (if is_ok result then 1 else 0) }
        ensures succeeds { (0 < self.old.room) ⊎ (has_stamp self.old.versions version.stamp ≡ true) → IsOk result }
        ensures err { OnErr result (self.new.versions ≡ self.old.versions) }
        ensures back { IfErr result (λ e. e ≡ (Fault.Memory, version)) }
    {
        put_in(&mut self.entries, version)
    }

    /// The newest version: that of the greatest stamp.
    #[tactic(auto, using(crate::proofs::Newest::newest_is_greatest))]
    pub fn newest(&self) -> Option<&Version>
        ensures first { option_copied result ≡ slice_get self.now.versions 0 }
        ensures greatest { MatchOption (option_copied result) (self.now.versions ≡ []) (IsNewest self.now.versions) }
    {
        newest_of(self.entries.as_slice())
    }

    /// The newest version at the time: that of the greatest stamp among those that are seen by then. Logarithmic
    /// in the versions that are held.
    #[tactic(auto, using(crate::proofs::Newest::newest_at_is_greatest))]
    pub fn at(&self, time: Time) -> Option<&Version>
        ensures exact { option_copied result ≡ at_of self.now.versions time }
        ensures greatest { MatchOption (option_copied result) ((w : Version) → Contains self.now.versions w → time < w.evt) (IsNewestAt self.now.versions time) }
    {
        newest_at(self.entries.as_slice(), time)
    }

    /// The first and the last time at which the version at this place is the newest of those held; none where
    /// it is at no time, or where there is no such version. The last time of the newest version is 2^48 - 1.
    #[tactic(auto, using(crate::proofs::Intervals::interval_is_exact, crate::proofs::Intervals::interval_is_ordered))]
    pub fn interval(&self, place: usize) -> Option<(Time, Time)>
        ensures exact { result ≡ interval_of (2 ^ 48) self.now.versions place }
        ensures times { (t : ℕ) → IsWithin result t ↔ ((t < 2 ^ 48) × IsPlaceNewestAt self.now.versions place t) }
        ensures ordered { IfSome result (λ times. times.0 ≤ times.1) }
    {
        interval_at(self.entries.as_slice(), place)
    }

    /// Takes out the version at this place, if there is one; all others stay. Takes as many steps as there are newer
    /// versions, and as older ones end later without it.
    #[tactic(auto, using(crate::proofs::Falling::falling_remove, crate::proofs::Held::removed_is_gone))]
    pub fn remove(&mut self, place: usize) -> Option<Version>
        ensures removed { result ≡ slice_get self.old.versions place }
        ensures left { self.new.versions ≡ remove self.old.versions place }
        ensures others { (w : Version) → Contains self.old.versions w ↔ (Contains self.new.versions w ⊎ (result ≡ Some w)) }
        ensures gone { IfSome result (λ v. Contains self.new.versions v → ⊥) }
        ensures room { self.new.room ≡ self.old.room + (if is_some result then 1 else 0) }
    {
        take_out(&mut self.entries, place)
    }

    /// Drops the versions that are the newest of those held at no time from this one on; the newest stays, and so
    /// does every answer of `at` from that time on. Linear, and takes no memory.
    #[tactic(auto, using(crate::proofs::Kept::falling_kept))]
    pub fn keep_from(&mut self, time: Time)
        ensures kept { self.new.versions ≡ kept_from time self.old.versions }
        ensures room { self.new.room + length self.new.versions ≡ self.old.room + length self.old.versions }
    {
        keep_from(&mut self.entries, time);
    }
}
