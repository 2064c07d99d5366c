//! What normal forms leave, and worked batches as laws of the definitions.
ghost use Rattle.std.specs.Prelude.{◌≡◌, ◌&&◌, List, [], ◌∷◌, Some, true, false};
ghost use Rattle.std.specs.List.{list_any};
ghost use Rattle.column_family.specs.declared.batch.Change.{Change};
ghost use Rattle.column_family.specs.Location.{Location, is_same_row, ranges_over, touches};
ghost use Rattle.column_family.specs.Normal.{IsNormal};
ghost use Rattle.column_family.specs.History.{leaves_range, newest, ranges_at, stamp_of};
ghost use Rattle.column_family.specs.Places.{normal_of};
ghost use Rattle.column_family.specs.Worked.{name_a, at, name_b, name_c, committed_at, name_d, deleted, digit, name_e, inserted, open_end, range_deleted, row_deleted, stamp_at};

/// In a normal form no deletion of a range is followed by one of its row, so each counts. Does nothing; its contract is the
/// law.
#[tactic(auto, using(crate::proofs::Leaving::normal_leaves))]
pub fn normal_forms_leave_their_ranges()
    ensures { (changes : List Change) → IsNormal changes → (l : Location) → leaves_range l changes ≡ list_any (λ c. is_same_row l.row c.row && ranges_over c.mutation l.name) changes }
{}

/// A deletion of a range touches the columns between its ends, both included, and an empty end is open. Does nothing; its
/// contract is the law.
pub fn worked_ranges()
    ensures start { touches (at name_b) (range_deleted name_b name_d) ≡ true }
    ensures within { touches (at name_c) (range_deleted name_b name_d) ≡ true }
    ensures finish { touches (at name_d) (range_deleted name_b name_d) ≡ true }
    ensures below { touches (at name_a) (range_deleted name_b name_d) ≡ false }
    ensures above { touches (at name_e) (range_deleted name_b name_d) ≡ false }
    ensures open_below { touches (at name_a) (range_deleted open_end name_b) ≡ true }
    ensures open_above { touches (at name_e) (range_deleted name_b open_end) ≡ true }
    ensures all { touches (at name_c) (range_deleted open_end open_end) ≡ true }
    ensures backwards { touches (at name_c) (range_deleted name_d name_b) ≡ false }
{}

/// Normal forms of batches. Does nothing; its contract is the law.
pub fn worked_normal_forms()
    ensures ranges_stay { normal_of (range_deleted name_a name_c ∷ inserted name_b 1 ∷ range_deleted name_b name_d ∷ []) ≡ range_deleted name_a name_c ∷ range_deleted name_b name_d ∷ [] }
    ensures after_the_row { normal_of (inserted name_b 1 ∷ row_deleted ∷ inserted name_c 2 ∷ []) ≡ row_deleted ∷ inserted name_c 2 ∷ [] }
    ensures after_the_range { normal_of (range_deleted name_b name_c ∷ inserted name_c 9 ∷ []) ≡ range_deleted name_b name_c ∷ inserted name_c 9 ∷ [] }
    ensures range_before_the_row { normal_of (range_deleted name_a name_c ∷ inserted name_d 1 ∷ row_deleted ∷ []) ≡ row_deleted ∷ [] }
    ensures open_ends { normal_of (inserted name_a 1 ∷ deleted name_e ∷ inserted name_c 2 ∷ range_deleted open_end name_b ∷ range_deleted name_d open_end ∷ []) ≡ range_deleted open_end name_b ∷ range_deleted name_d open_end ∷ inserted name_c 2 ∷ [] }
    ensures range_and_row { normal_of (range_deleted name_a name_c ∷ row_deleted ∷ range_deleted name_b name_d ∷ inserted name_e 1 ∷ inserted name_b 2 ∷ inserted name_e 3 ∷ []) ≡ row_deleted ∷ range_deleted name_b name_d ∷ inserted name_b 2 ∷ inserted name_e 3 ∷ [] }
{}

/// Which transactions count at a location for their deletions of ranges: those with one that is newer than the row's
/// newest deletion, whatever else touched the location since. Does nothing; its contract is the law.
pub fn worked_range_deletions()
    ensures at_start { ranges_at (committed_at 2 (inserted name_b 1 ∷ inserted name_c 2 ∷ []) ∷ committed_at 5 (range_deleted name_b name_c ∷ inserted name_c 9 ∷ []) ∷ []) (at name_b) (stamp_at 5) ≡ true }
    ensures under_an_insertion { ranges_at (committed_at 2 (inserted name_b 1 ∷ inserted name_c 2 ∷ []) ∷ committed_at 5 (range_deleted name_b name_c ∷ inserted name_c 9 ∷ []) ∷ []) (at name_c) (stamp_at 5) ≡ true }
    ensures newest_is_inserted { stamp_of (newest (committed_at 5 (range_deleted name_b name_c ∷ []) ∷ committed_at 7 (inserted name_c 9 ∷ []) ∷ []) (at name_c)) ≡ Some (stamp_at 7) }
    ensures under_a_newer_insertion { ranges_at (committed_at 5 (range_deleted name_b name_c ∷ []) ∷ committed_at 7 (inserted name_c 9 ∷ []) ∷ []) (at name_c) (stamp_at 5) ≡ true }
    ensures each_counts { ranges_at (committed_at 5 (range_deleted name_b name_c ∷ []) ∷ committed_at 7 (range_deleted name_a name_d ∷ []) ∷ []) (at name_c) (stamp_at 5) ≡ true }
    ensures outside { ranges_at (committed_at 5 (range_deleted name_b name_c ∷ []) ∷ []) (at name_d) (stamp_at 5) ≡ false }
    ensures of_an_insertion { ranges_at (committed_at 2 (inserted name_b 1 ∷ []) ∷ committed_at 5 (range_deleted name_b name_c ∷ []) ∷ []) (at name_b) (stamp_at 2) ≡ false }
    ensures newer_row_deletion { ranges_at (committed_at 5 (range_deleted name_b name_c ∷ []) ∷ committed_at 7 (row_deleted ∷ []) ∷ []) (at name_b) (stamp_at 5) ≡ false }
    ensures older_row_deletion { ranges_at (committed_at 7 (range_deleted name_b name_c ∷ []) ∷ committed_at 5 (row_deleted ∷ []) ∷ []) (at name_b) (stamp_at 7) ≡ true }
    ensures after_the_row { ranges_at (committed_at 5 (row_deleted ∷ range_deleted name_b name_c ∷ []) ∷ []) (at name_b) (stamp_at 5) ≡ true }
    ensures before_the_row { ranges_at (committed_at 5 (range_deleted name_b name_c ∷ row_deleted ∷ []) ∷ []) (at name_b) (stamp_at 5) ≡ false }
{}
