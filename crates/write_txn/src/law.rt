//! Laws of what is known of transactions, by the protocol's definitions.
ghost use Rattle.std.specs.Prelude.{◌≡◌, ℕ, true, false, List, [], ◌∷◌, ◌++◌, Option, Some, None, is_some, option_map};
ghost use Rattle.logical_time.specs.Stamps.{StampValue, TxnValue};
ghost use Rattle.column_family.specs.declared.batch.Change.{Change};
ghost use Rattle.txn_state.specs.Votes.{counted, are_all_there};
ghost use Rattle.messages.specs.Topology.{TopologyValue};
ghost use Rattle.messages.specs.Words.{is_same_txn};
ghost use Rattle.messages.specs.Shard.{ShardState, PreparedPart, KeptPart, Cohort, quiet};
ghost use Rattle.messages.specs.Known.{is_known, is_applied, prepared_part, kept_part, decision_of};
ghost use Rattle.messages.specs.Commits.{applied_part, apply_part, on_prepare, prepare_part, on_commit, on_yes};
ghost use Rattle.write_txn.specs.declared.open.Open.TheVariants as in_open;
ghost use Rattle.write_txn.specs.declared.open.Led.{Led};
ghost use Rattle.write_txn.specs.Ledger.{State, Holds, IsApplied, decided_in};
ghost use Rattle.write_txn.specs.View.{view_of};
ghost use Rattle.write_txn.specs.Stands.{Stands, IsUnled, StandsPart, StandsLed, begun_of, is_cohorts, with_counted};
ghost use Rattle.write_txn.specs.Moves.{IsAbout, Moves};

/// Where what is known of a transaction stands for what a shard's state says of it, the state knows the transaction exactly
/// where something is known of it, and tells its decision; and a step about one transaction leaves what the state says of
/// every other one. Does nothing; its contract is the law.
pub fn transactions_stand()
    ensures known { (top : TopologyValue) (me : ℕ) (t : TxnValue) (a : ShardState) (s : Option State) → Stands top me t (view_of t a) s → is_known t a ≡ is_some s }
    ensures decided { (top : TopologyValue) (me : ℕ) (t : TxnValue) (a : ShardState) (s : Option State) → Stands top me t (view_of t a) s → decision_of t a ≡ option_map (λ (d : ℕ × StampValue). record { txn = t; commit = d.0; stamp = d.1 }) (decided_in s) }
    ensures others { (t u : TxnValue) (a b : ShardState) → is_same_txn t u ≡ false → IsAbout t a b → view_of u b ≡ view_of u a }
{}

/// A part of an unknown transaction is prepared, and a prepared one is applied, as the protocol's definitions say, and
/// nothing changes of another transaction. Does nothing; its contract is the law.
pub fn parts_move_on()
    ensures unknown { (top : TopologyValue) (me n : ℕ) (a : ShardState) (t : TxnValue) (rows : List Change) (coordinator : ℕ) → Stands top me t (view_of t a) None → on_prepare top me n a t rows coordinator ≡ prepare_part top me n a t rows coordinator Cohort }
    ensures known { (top : TopologyValue) (me n : ℕ) (a : ShardState) (t : TxnValue) (rows : List Change) (coordinator : ℕ) (s : State) → Stands top me t (view_of t a) (Some s) → on_prepare top me n a t rows coordinator ≡ quiet n a }
    ensures prepared { (top : TopologyValue) (me n : ℕ) (a : ShardState) (p : PreparedPart) → IsUnled (view_of p.txn a) → prepared_part p.txn a ≡ None → is_applied p.txn a ≡ false → is_cohorts p.role ≡ true → ((k : KeptPart) → kept_part p.txn a ≡ Some k → k.coordinator ≡ p.coordinator) → Moves top me p.txn (Some (Holds (in_open.Part p))) [] a (record a { clock = n; prepared = a.prepared ++ p ∷ [] }) }
    ensures commit { (top : TopologyValue) (me n : ℕ) (a : ShardState) (t : TxnValue) (p : PreparedPart) (commit : ℕ) (stamp : StampValue) → p.txn ≡ t → StandsPart (view_of t a) p → on_commit top me n a t commit stamp ≡ apply_part top me n a p commit stamp }
    ensures applied { (top : TopologyValue) (me n : ℕ) (a : ShardState) (t : TxnValue) (p : PreparedPart) (commit : ℕ) (stamp : StampValue) → p.txn ≡ t → StandsPart (view_of t a) p → Moves top me t (Some IsApplied) (applied_part p.txn p.coordinator p.rows commit stamp ∷ []) a (apply_part top me n a p commit stamp).state }
{}

/// A vote that isn't the last one is counted for its ballot, once, as the protocol's definitions say. Does nothing; its
/// contract is the law.
pub fn votes_are_counted()
    ensures { (top : TopologyValue) (me n : ℕ) (a : ShardState) (t : TxnValue) (l : Led) (node : ℕ) → (begun_of l).txn ≡ t → StandsLed top me (view_of t a) l → are_all_there (counted l.ballot.votes node) ≡ false → (b : ShardState) × (on_yes top me n a node t ≡ quiet n b) × Moves top me t (Some (Holds (in_open.Led (with_counted l node)))) [] a b × (b.waiting ≡ a.waiting) }
{}
