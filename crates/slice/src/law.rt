//! Laws of live columns and of what a read rests on.
ghost use Rattle.std.specs.Prelude.{◌≡◌, ◌↔◌, ◌⊎◌, ◌&&◌, ℕ, List, [], ◌∷◌, ◌++◌, true, false, Some, AllPairs, Contains};
ghost use Rattle.std.specs.List.{list_any};
ghost use Rattle.logical_time.specs.Stamps.{StampValue};
ghost use Rattle.column_family.specs.Normal.{IsBelow, IsNormal, committed, StandsFor};
ghost use Rattle.column_family.specs.History.{History, newest, newest_of, stamp_of, up_to, table_at, live_value, value_of};
ghost use Rattle.column_family.specs.declared.batch.Change.{Change};
ghost use Rattle.column_family.specs.declared.batch.Row.{Row};
ghost use Rattle.slice.specs.declared.column.Column.{Column};
ghost use Rattle.slice.specs.Live.{live_columns};
ghost use Rattle.slice.specs.Parts.{HaveSameOf};
ghost use Rattle.slice.specs.Rests.{RestsByNewest, RowRestsOn, is_looked_at, is_rested_on};
ghost use Rattle.slice.specs.Slice.{is_between, slice_of};
ghost use Rattle.column_family.specs.Location.{is_row_deletion, is_same_row};
ghost use Rattle.slice.specs.Meeting.{asks_between, do_meet, leaves_met, meets, meets_range, ranges_met};
ghost use Rattle.column_family.specs.Worked.{name_a, name_b, name_c, name_d, name_e, open_end, row_b, stamp_at};
ghost use Rattle.slice.specs.Worked.{column, column_of, downwards, insertions, names, range_and_insertion, upwards};
ghost use Rattle.slice.specs.declared.predicate.Predicate.{Predicate};

/// The live columns of a row are its part of the table: they ascend by name, and a column is one of them exactly
/// if its location is live with its value, in the table of a whole history and in that at each time. Does nothing; its
/// contract is the law.
#[tactic(auto, using(crate::proofs::LiveTable::live_in_order, crate::proofs::LiveTable::live_if_in_table))]
pub fn live_columns_are_the_table()
    ensures ordered { (h : History) (r : Row) → AllPairs (λ c d. IsBelow c.name d.name) (live_columns h r) }
    ensures exact { (h : History) (r : Row) (c : Column) → Contains (live_columns h r) c ↔ (value_of (newest h (record { row = r; name = c.name })) ≡ Some c.value) }
    ensures table { (h : History) (t : ℕ) (r : Row) (c : Column) → Contains (live_columns (up_to t h) r) c ↔ (live_value (table_at h t (record { row = r; name = c.name })) ≡ Some c.value) }
{}

/// A read of a row rests on the same transactions after a batch that stands for another, as its normal form does:
/// in every history, at every time, whatever the read asks. Does nothing; its contract is the law.
pub fn reads_rest_on_the_same()
    ensures { (kept given : List Change) → StandsFor kept given → (before after : History) (s : StampValue) (commit time : ℕ) (r : Row) (p : Predicate) (w : StampValue)
        → RowRestsOn (up_to time (before ++ committed kept s commit ∷ after)) r p w ↔ RowRestsOn (up_to time (before ++ committed given s commit ∷ after)) r p w }
{}

/// The parts of transactions make of a row what their whole batches make of it, where they have the same of the row: at
/// each of its locations the same mutation is newest, the live columns are the same, and a read of the row rests on the
/// same transactions, whatever it asks. Does nothing; its contract is the law.
#[tactic(auto, using(crate::proofs::RowAlike::newest_alike, crate::proofs::RowAlike::live_alike))]
pub fn parts_make_the_same_of_a_row()
    ensures newest { (r : Row) (parts whole : History) → HaveSameOf r parts whole → (name : List ℕ) → newest parts (record { row = r; name = name }) ≡ newest whole (record { row = r; name = name }) }
    ensures live { (r : Row) (parts whole : History) → HaveSameOf r parts whole → live_columns parts r ≡ live_columns whole r }
    ensures rests { (r : Row) (parts whole : History) → HaveSameOf r parts whole → (p : Predicate) (s : StampValue) → RowRestsOn parts r p s ↔ RowRestsOn whole r p s }
{}

/// What a read of a row rests on: the newest mutations of the columns that it looked at and some column mutation touches, the
/// row's newest deletion, and each newer deletion of a range that meets what it looked at. Does nothing; its contract is
/// the law.
#[tactic(auto, using(crate::proofs::MetRanges::row_rests_by))]
pub fn rows_rest_on_ranges_that_are_met()
    ensures { (h : History) (r : Row) (p : Predicate) (s : StampValue) → RowRestsOn h r p s
        ↔ (RestsByNewest h r p (slice_of p (live_columns h r)) s ⊎ ((stamp_of (newest_of (is_row_deletion r) h) ≡ Some s) ⊎ (ranges_met h r p (slice_of p (live_columns h r)) s ≡ true))) }
{}

/// Of a normal form each deletion of a range of the row that meets what a read looked at counts: none of the row follows it.
/// Does nothing; its contract is the law.
#[tactic(auto, using(crate::proofs::MetRanges::normal_met))]
pub fn normal_forms_leave_what_is_met()
    ensures { (changes : List Change) → IsNormal changes → (r : Row) (p : Predicate) (columns : List Column)
        → leaves_met r p columns changes ≡ list_any (λ c. is_same_row r c.row && meets_range p columns c.mutation) changes }
{}

/// Two ranges of names meet exactly where some name lies in both: where the greater of their lower ends isn't above the
/// lesser of their upper ends, an open lower end being the least and an open upper end the greatest. Does nothing; its
/// contract is the law.
#[tactic(auto, using(crate::proofs::Ranges::some_in_both))]
pub fn ranges_meet_where_their_ends_do()
    ensures { (low high low' high' : List ℕ) → (do_meet low high low' high' ≡ true) ↔ ((name : List ℕ) × (is_between low high name ≡ true) × (is_between low' high' name ≡ true)) }
{}

/// Ranges that meet a walk that came to its end, and some that lie just outside. Does nothing; its contract is the law.
pub fn worked_meetings()
    ensures first_name { meets (upwards name_b name_d 100) (column name_c ∷ []) name_a name_b ≡ true }
    ensures last_name { meets (upwards name_b name_d 100) (column name_c ∷ []) name_d name_e ≡ true }
    ensures no_column_there { meets (upwards name_b name_d 100) [] name_c name_c ≡ true }
    ensures below { meets (upwards name_b name_d 100) (column name_c ∷ []) open_end name_a ≡ false }
    ensures above { meets (upwards name_b name_d 100) (column name_c ∷ []) name_e open_end ≡ false }
    ensures open_above { meets (upwards name_b open_end 100) (column name_c ∷ []) name_e open_end ≡ true }
    ensures open_below { meets (downwards name_b open_end 100) (column name_a ∷ []) open_end name_a ≡ true }
    ensures open_both { meets (upwards open_end open_end 100) [] name_c name_c ≡ true }
    ensures open_apart { meets (upwards name_c open_end 100) [] open_end name_b ≡ false }
    ensures downwards_below { meets (downwards name_d name_b 100) (column name_c ∷ []) name_a name_a ≡ false }
    ensures downwards_last { meets (downwards name_d name_b 100) (column name_c ∷ []) name_a name_b ≡ true }
    ensures backwards { meets (upwards open_end open_end 100) [] name_d name_b ≡ false }
    ensures listed { meets (names (name_a ∷ name_d ∷ [])) [] name_b name_d ≡ true }
    ensures between_listed { meets (names (name_a ∷ name_d ∷ [])) [] name_b name_c ≡ false }
    ensures none_listed { meets (names []) [] open_end open_end ≡ false }
{}

/// Ranges that meet a walk that ended by its count, up to the last column that it returned. Does nothing; its contract is
/// the law.
pub fn worked_meetings_of_cut_walks()
    ensures up_to_last { meets (upwards open_end open_end 2) (column name_a ∷ column name_c ∷ []) name_c name_d ≡ true }
    ensures before_last { meets (upwards open_end open_end 2) (column name_a ∷ column name_c ∷ []) name_b name_b ≡ true }
    ensures after_last { meets (upwards open_end open_end 2) (column name_a ∷ column name_c ∷ []) name_d open_end ≡ false }
    ensures before_first { meets (upwards name_b open_end 1) (column name_c ∷ []) open_end name_a ≡ false }
    ensures down_to_last { meets (downwards open_end open_end 2) (column name_e ∷ column name_c ∷ []) name_b name_c ≡ true }
    ensures above_last { meets (downwards open_end open_end 2) (column name_e ∷ column name_c ∷ []) name_d name_d ≡ true }
    ensures below_last { meets (downwards open_end open_end 2) (column name_e ∷ column name_c ∷ []) open_end name_b ≡ false }
    ensures round_last { meets (downwards open_end open_end 2) (column name_e ∷ column name_c ∷ []) name_b open_end ≡ true }
    ensures above_start { meets (downwards name_d open_end 1) (column name_c ∷ []) name_e open_end ≡ false }
    ensures at_start { meets (downwards name_d open_end 1) (column name_c ∷ []) name_d open_end ≡ true }
    ensures below_last_and_start { meets (downwards name_d name_a 1) (column name_c ∷ []) name_a name_b ≡ false }
    ensures nothing_returned { meets (upwards open_end open_end 0) [] open_end open_end ≡ false }
    ensures nothing_returned_downwards { meets (downwards open_end open_end 0) [] open_end open_end ≡ false }
    ensures asked_all_the_same { asks_between (upwards open_end open_end 0) open_end open_end ≡ true }
    ensures asked_after_last { asks_between (upwards name_b name_d 1) name_d name_d ≡ true }
    ensures asked_outside { asks_between (downwards name_d name_b 1) name_e open_end ≡ false }
{}

/// A row in which a range is deleted and one of its columns inserted again. The whole of it rests on both batches. With a count of
/// one the walk ends at that column, and what was inserted behind it counts for nothing; with none it comes to no column.
/// Does nothing; its contract is the law.
pub fn worked_rests()
    ensures shown { live_columns (insertions ∷ range_and_insertion ∷ []) row_b ≡ column_of name_c 9 ∷ column_of name_d 3 ∷ [] }
    ensures range { ranges_met (insertions ∷ range_and_insertion ∷ []) row_b (upwards open_end open_end 100) (column_of name_c 9 ∷ column_of name_d 3 ∷ []) (stamp_at 5) ≡ true }
    ensures no_range { ranges_met (insertions ∷ range_and_insertion ∷ []) row_b (upwards open_end open_end 100) (column_of name_c 9 ∷ column_of name_d 3 ∷ []) (stamp_at 2) ≡ false }
    ensures behind { is_looked_at (upwards open_end open_end 1) (column_of name_c 9 ∷ []) name_d ≡ false }
    ensures cut { ranges_met (insertions ∷ range_and_insertion ∷ []) row_b (upwards open_end open_end 1) (column_of name_c 9 ∷ []) (stamp_at 5) ≡ true }
    ensures cut_downwards { ranges_met (insertions ∷ range_and_insertion ∷ []) row_b (downwards open_end open_end 1) (column_of name_d 3 ∷ []) (stamp_at 5) ≡ false }
    ensures all_on_first { is_rested_on (insertions ∷ range_and_insertion ∷ []) row_b (upwards open_end open_end 100) (stamp_at 2) ≡ true }
    ensures all_on_second { is_rested_on (insertions ∷ range_and_insertion ∷ []) row_b (upwards open_end open_end 100) (stamp_at 5) ≡ true }
    ensures one_not_on_first { is_rested_on (insertions ∷ range_and_insertion ∷ []) row_b (upwards open_end open_end 1) (stamp_at 2) ≡ false }
    ensures one_on_second { is_rested_on (insertions ∷ range_and_insertion ∷ []) row_b (upwards open_end open_end 1) (stamp_at 5) ≡ true }
    ensures none_on_first { is_rested_on (insertions ∷ range_and_insertion ∷ []) row_b (upwards open_end open_end 0) (stamp_at 2) ≡ false }
    ensures none_on_second { is_rested_on (insertions ∷ range_and_insertion ∷ []) row_b (upwards open_end open_end 0) (stamp_at 5) ≡ false }
{}
