//! What is seen whatever is put and collected.
ghost use Rattle.std.specs.Prelude.{◌≡◌, ◌≤◌, [], ℕ, List};
ghost use Rattle.versions.specs.declared.version.Version.{Version};
ghost use Rattle.versions.specs.declared.range.RangeDeletion.{RangeDeletion};
ghost use Rattle.versions.specs.Chain.{at_of, kept_from};
ghost use Rattle.versions.specs.Ranges.{in_force_at, kept_ranges};
ghost use Rattle.version_gc.specs.Collection.{Deed, NoneComesBack, added_by, collected_to, held_after};
ghost use Rattle.version_gc.specs.RangeCollection.{RowDeed, NoDeletionComesBack, no_deletions, row_added, row_after, row_collected_to};

/// Over every list of puts and collections that puts no stamp again which it dropped, a chain answers as if it held
/// every version that was added, from the greatest time of its collections on. Does nothing; its contract is the law.
pub fn collections_are_not_seen()
    ensures { (deeds : List Deed) → NoneComesBack [] [] deeds → (t : ℕ) → collected_to deeds ≤ t → at_of (held_after [] deeds) t ≡ at_of (added_by [] deeds) t }
{}

/// Over every list of puts and collections of a row's deletions and range deletions that puts no deletion of the row again
/// which it dropped, the same range deletions are in force as if all that was ever added were held, from the greatest time
/// of the collections on. Does nothing; its contract is the law.
pub fn collections_of_rows_are_not_seen()
    ensures { (deeds : List RowDeed) → NoDeletionComesBack no_deletions no_deletions deeds → (t : ℕ) → row_collected_to deeds ≤ t → in_force_at (row_after no_deletions deeds).deletions (row_after no_deletions deeds).ranges t ≡ in_force_at (row_added no_deletions deeds).deletions (row_added no_deletions deeds).ranges t }
{}

/// The same range deletions are dropped before and after a collection of the deletions of the row up to the same time or a
/// lesser one. Does nothing; its contract is the law.
pub fn ranges_are_dropped_in_any_order()
    ensures { (deletions : List Version) (ranges : List RangeDeletion) (s t : ℕ) → s ≤ t → kept_ranges t (kept_from s deletions) ranges ≡ kept_ranges t deletions ranges }
{}
