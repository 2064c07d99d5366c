//! Laws of the protocol's definitions.
ghost use Rattle.std.specs.Prelude.{◌≡◌, ◌↔◌, ◌<◌, ◌≤◌, ℕ, true, false, List, [], ◌∷◌, length, Some, Contains};
ghost use Rattle.std.specs.List.Sorted.{IsStrictlySortedBy};
ghost use Rattle.logical_time.specs.Stamps.{StampValue, WriterValue, writer_cmp};
ghost use Rattle.column_family.specs.declared.batch.Row.{Row};
ghost use Rattle.column_family.specs.History.{History};
ghost use Rattle.slice.specs.declared.predicate.Predicate.{Predicate};
ghost use Rattle.slice.specs.Rests.{RowRestsOn};
ghost use Rattle.messages.specs.Rows.{is_rested_on, least_mark};
ghost use Rattle.messages.specs.Topology.{TopologyValue, shard_node, session_node, dc_of, shard_of, is_shard, session_of};
ghost use Rattle.messages.specs.declared.rows_now.RowNow.{RowNow};
ghost use Rattle.messages.specs.Words.{in_writer_order};
ghost use Rattle.messages.specs.Shard.{PreparedPart};
ghost use Rattle.messages.specs.Session.{HeardNow};
ghost use Rattle.messages.specs.Rounds.{effective_time, rows_heard};
ghost use Rattle.messages.specs.Examples.{key_a, key_b, asks, hears_both, asked, asked_at};

/// Each node is one shard of one data centre or one session. Does nothing; its contract is the law.
#[tactic(auto, using(crate::proofs::Numbering::dc_of_shard, crate::proofs::Numbering::number_of_shard, crate::proofs::Numbering::shard_again, crate::proofs::Numbering::shard_is_shard, crate::proofs::Numbering::session_again, crate::proofs::Numbering::session_is_no_shard))]
pub fn nodes_are_numbered_once()
    ensures dc { (top : TopologyValue) (dc shard : ℕ) → shard < top.shards → dc_of top (shard_node top dc shard) ≡ dc }
    ensures shard { (top : TopologyValue) (dc shard : ℕ) → shard < top.shards → shard_of top (shard_node top dc shard) ≡ shard }
    ensures again { (top : TopologyValue) (node : ℕ) → shard_node top (dc_of top node) (shard_of top node) ≡ node }
    ensures is_shard { (top : TopologyValue) (dc shard : ℕ) → dc < top.dcs → shard < top.shards → is_shard top (shard_node top dc shard) ≡ true }
    ensures session { (top : TopologyValue) (i : ℕ) → i < length top.homes → session_of top (session_node top i) ≡ Some i }
    ensures apart { (top : TopologyValue) (i : ℕ) → is_shard top (session_node top i) ≡ false }
{}

/// The two rounds of reads of the rows b and a, which lie on the shards 0 and 1. A key that is listed twice is asked
/// once, of its shard. Where b is valid from 3 to 4 and a from 0 to 2, a session with floor 0 asks again for a alone,
/// at 3; with floor 5 it asks again for both, at 5. Does nothing; its contract is the law.
pub fn rounds_of_two_rows()
    ensures first_round { (asks (key_b ∷ key_a ∷ key_b ∷ [])).sends ≡ asked 0 (key_b ∷ []) ∷ asked 1 (key_a ∷ []) ∷ [] }
    ensures late_row { (hears_both 0).sends ≡ asked_at 1 3 (key_a ∷ []) ∷ [] }
    ensures floor { (hears_both 5).sends ≡ asked_at 0 5 (key_b ∷ []) ∷ asked_at 1 5 (key_a ∷ []) ∷ [] }
{}

/// The transactions whose writers a shard answers with a row are those that the read of the row rests on. Does nothing;
/// its contract is the law.
pub fn writers_are_rested_on()
    ensures { (h : History) (r : Row) (p : Predicate) (s : StampValue) → (is_rested_on h r p s ≡ true) ↔ RowRestsOn h r p s }
{}

/// Writers put in order stand in the order of their transactions' numbers, each once, and are the same writers. Does
/// nothing; its contract is the law.
#[tactic(auto, using(crate::proofs::WritersInOrder::writers_ascend))]
pub fn writers_stand_in_order()
    ensures ascend { (ws : List WriterValue) → IsStrictlySortedBy writer_cmp (in_writer_order ws) }
    ensures stay { (ws : List WriterValue) (w : WriterValue) → Contains (in_writer_order ws) w ↔ Contains ws w }
{}

/// The effective time of a read is the greatest of its session's floor and the earliest valid times of all rows, and the
/// latest valid time of a row the least of its shard's clock and the times of its marks. Does nothing; its contract is
/// the law.
pub fn times_of_reads()
    ensures floor { (floor : ℕ) (heard : List HeardNow) → floor ≤ effective_time floor heard }
    ensures each { (floor : ℕ) (heard : List HeardNow) (r : RowNow) → Contains (rows_heard heard) r → r.evt ≤ effective_time floor heard }
    ensures least { (floor : ℕ) (heard : List HeardNow) (t : ℕ) → floor ≤ t → ((r : RowNow) → Contains (rows_heard heard) r → r.evt ≤ t) → effective_time floor heard ≤ t }
    ensures clock { (n : ℕ) (marks : List PreparedPart) → least_mark n marks ≤ n }
    ensures mark { (n : ℕ) (marks : List PreparedPart) (p : PreparedPart) → Contains marks p → least_mark n marks ≤ p.time }
    ensures greatest { (n : ℕ) (marks : List PreparedPart) (t : ℕ) → t ≤ n → ((p : PreparedPart) → Contains marks p → t ≤ p.time) → t ≤ least_mark n marks }
{}
