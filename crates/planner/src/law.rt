//! The law of a plan and a join.
ghost use Rattle.std.specs.Prelude.{◌≡◌, ◌↔◌, ◌<◌, ℕ, List, map, Contains};
ghost use Rattle.column_family.specs.History.{History, up_to};
ghost use Rattle.slice.specs.declared.read.Read.{Read};
ghost use Rattle.table.specs.Meaning.{each_once, meaning, shown_row};
ghost use Rattle.planner.specs.Partition.{shard_of};
ghost use Rattle.planner.specs.Plan.{shards_asked};
ghost use Rattle.planner.specs.Join.{joined, answers_of};

/// The answers of the shards of a plan, put together in any order and joined, are the read's meaning, for every number
/// of shards; where each shard answers by a history of its own, each key is shown by that of its shard. Does nothing;
/// its contract is the law.
pub fn planned_answers_join()
    ensures meaning { (shards : ℕ) (read : Read) (h : History) (t : ℕ) (order : List ℕ) → 0 < shards
        → ((s : ℕ) → Contains order s ↔ Contains (shards_asked shards read.keys) s)
        → joined read.keys (answers_of shards read (λ s. h) t order) ≡ meaning read h t }
    ensures each { (shards : ℕ) (read : Read) (history : ℕ → History) (t : ℕ) (order : List ℕ) → 0 < shards
        → ((s : ℕ) → Contains order s ↔ Contains (shards_asked shards read.keys) s)
        → joined read.keys (answers_of shards read history t order) ≡ map (λ k. shown_row read (up_to t (history (shard_of shards k))) k) (each_once read.keys) }
{}
