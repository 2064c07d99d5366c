//! Laws of runs, and worked runs as laws of the protocol's definitions.
ghost use Rattle.std.specs.Prelude.{◌≡◌, ◌↔◌, List, [], ◌∷◌, ◌++◌, slice_get, Some, None};
ghost use Rattle.logical_time.specs.declared.fault.Fault.TheVariants as fault;
ghost use Rattle.messages.specs.declared.outcome.Outcome.TheVariants as outcome;
ghost use Rattle.store.specs.declared.part.Applied.{Applied};
ghost use Rattle.messages.specs.declared.envelope.Envelope.{Envelope};
ghost use Rattle.messages.specs.declared.body.Body.TheVariants.{DepCheck};
ghost use Rattle.messages.specs.Topology.{TopologyValue};
ghost use Rattle.messages.specs.Words.{envelope};
ghost use Rattle.messages.specs.Session.{Moving};
ghost use Rattle.world.specs.Run.{Run, RunEvent, step, run};
ghost use Rattle.world.specs.Refusals.{Refusal, Refused, refusal_of, HaveReasons, IsRun};
ghost use Rattle.world.specs.Histories.{history_of};
ghost use Rattle.world.specs.Fresh.{IsKept, WasApplied};
ghost use Rattle.world.specs.Quiet.{IsQuiet};
ghost use Rattle.world.specs.Met.{horizon};
ghost use Rattle.world.specs.Before.{Past};
ghost use Rattle.world.specs.Worked.{operation, outcomes_of, shard_clocks, times_sent, valid_in, commit_times, prepare_times, times_applied, x_at, wrote, column, row, insert, digit, key_a, key_b, key_c, name_c, name_d, name_x, name_y, both_rows, one_shard, two_shards, two_centres, three_at_home, two_by_two};
ghost use Rattle.world.specs.Drains.{deliveries_left};
ghost use Rattle.world.specs.WorkedDrains.{deliveries_taken, batch_for_both, two_reads_wait};
ghost use Rattle.world.specs.Worked.{only_submitted, insert_and_read_back, messages_come_again, deletion_is_read, two_shard_write, read_asks_coordinator, second_round_collected, collected_while_waiting, horizon_at_effective_time, late_repeats, undecided_is_excluded, unseen_column_under_mark, concurrent_inserts_meet, older_stamp_arrives_late, dependency_holds_back, read_before_dependency, dependency_through_a_read, write_is_replicated};
ghost use Rattle.world.specs.WorkedMoves.{move, homes_in, one_mover, session_has_moved, session_moves, session_moves_back, move_without_dependencies, two_writers, move_is_half_answered, move_waits_for_each, reads_behind_a_commit, reads_at_earlier_times};
ghost use Rattle.world.specs.WorkedTimes.{two_shards_of_three, both_wait, one_is_let_go, reads_wait_at_two_times, times_waited, read_after_a_read, row_without_deletion, row_with_newer_deletion, row_with_older_deletion};

/// The events that a run keeps, which are those that weren't refused, lead to the same run. Does nothing; its contract is
/// the law.
#[tactic(auto, using(crate::proofs::worked::Replayed::runs_replayed))]
pub fn refused_events_are_left_out()
    ensures { (top : TopologyValue) (events : List RunEvent) → run top (run top events).events ≡ run top events }
{}

/// An event is refused, for the reason that is told, exactly where a run doesn't add it; then the run stays as it was. Actors
/// refuse submissions for an open operation and for what they ask, and any event for a spent clock. The lists of events none of
/// which is refused are those that a run keeps whole; what any run keeps is one, and one goes on by each event that isn't
/// refused. Does nothing; its contract is the law.
#[tactic(auto, using(crate::proofs::steps::Refusals::none_if_added, crate::proofs::steps::Refusals::refused_stays, crate::proofs::steps::Refusals::have_reasons, crate::proofs::steps::Refusals::is_run_if_kept, crate::proofs::steps::Refusals::kept_events_are_run, crate::proofs::steps::Refusals::run_goes_on))]
pub fn refusals_are_told()
    ensures added { (top : TopologyValue) (w : Run) (x : RunEvent) → (refusal_of top w x ≡ None) ↔ ((step top w x).events ≡ w.events ++ x ∷ []) }
    ensures refused { (top : TopologyValue) (w : Run) (x : RunEvent) (r : Refusal) → refusal_of top w x ≡ Some r → step top w x ≡ w }
    ensures reasons { (top : TopologyValue) (w : Run) → HaveReasons top w }
    ensures kept_whole { (top : TopologyValue) (events : List RunEvent) → IsRun top events ↔ ((run top events).events ≡ events) }
    ensures kept { (top : TopologyValue) (events : List RunEvent) → IsRun top (run top events).events }
    ensures goes_on { (top : TopologyValue) (events : List RunEvent) (x : RunEvent) → IsRun top events → refusal_of top (run top events) x ≡ None → IsRun top (events ++ x ∷ []) }
{}

/// A column is inserted and read back; messages that come again change nothing; a batch is committed on both of its shards.
/// Does nothing; its contract is the law.
pub fn worked_writes()
    ensures read_back { outcomes_of insert_and_read_back 1 ≡ wrote 2 0 ∷ outcome.Read 2 (row key_b (column name_x 1 ∷ []) ∷ []) ∷ [] }
    ensures read_back_times { times_sent insert_and_read_back ≡ 1 ∷ 2 ∷ 4 ∷ 5 ∷ [] }
    ensures read_back_valid { valid_in insert_and_read_back 3 ≡ 2 ∷ 5 ∷ [] }
    ensures two_shards { outcomes_of two_shard_write 2 ≡ wrote 3 0 ∷ [] }
    ensures two_shards_times { times_sent two_shard_write ≡ 1 ∷ 1 ∷ 2 ∷ 3 ∷ 3 ∷ [] }
    ensures coordinator_prepares { prepare_times two_shard_write 0 ≡ 2 ∷ [] }
    ensures cohort_prepares { prepare_times two_shard_write 1 ≡ 2 ∷ [] }
    ensures coordinator_applies { times_applied two_shard_write 0 ≡ 3 ∷ [] }
    ensures cohort_applies { times_applied two_shard_write 1 ≡ 3 ∷ [] }
    ensures again { outcomes_of messages_come_again 1 ≡ wrote 2 0 ∷ [] }
    ensures again_commits { commit_times one_shard messages_come_again 0 ≡ 2 ∷ [] }
    ensures two_shards_clocks { shard_clocks two_shards two_shard_write ≡ 3 ∷ 4 ∷ [] }
{}

/// Reads that meet a mark. The shard asks the coordinator, and the read shows the batch whole, a column that didn't exist
/// included; a batch that is undecided is excluded at the read's time, and committed above it. Does nothing; its contract
/// is the law.
pub fn worked_reads()
    ensures asks { outcomes_of read_asks_coordinator 3 ≡ outcome.Read 3 both_rows ∷ [] }
    ensures asks_times { times_sent read_asks_coordinator ≡ 1 ∷ 1 ∷ 2 ∷ 3 ∷ 3 ∷ 1 ∷ 1 ∷ 4 ∷ 3 ∷ 6 ∷ 7 ∷ 8 ∷ 9 ∷ [] }
    ensures asks_valid_b { valid_in read_asks_coordinator 7 ≡ 3 ∷ 4 ∷ [] }
    ensures asks_valid_a { valid_in read_asks_coordinator 8 ≡ 0 ∷ 2 ∷ [] }
    ensures asks_clocks { shard_clocks two_shards read_asks_coordinator ≡ 8 ∷ 9 ∷ [] }
    ensures excluded { outcomes_of undecided_is_excluded 3 ≡ wrote 3 0 ∷ outcome.Read 3 (row key_a [] ∷ []) ∷ [] }
    ensures excluded_times { times_sent undecided_is_excluded ≡ 1 ∷ 1 ∷ 2 ∷ 1 ∷ 3 ∷ 5 ∷ 6 ∷ 7 ∷ 8 ∷ 9 ∷ 10 ∷ 10 ∷ 10 ∷ [] }
    ensures excluded_valid { valid_in undecided_is_excluded 6 ≡ 0 ∷ 2 ∷ [] }
    ensures excluded_commits { commit_times two_shards undecided_is_excluded 0 ≡ 3 ∷ 10 ∷ [] }
    ensures unseen { outcomes_of unseen_column_under_mark 3 ≡ outcome.Read 6 (row key_a (column name_c 0 ∷ column name_d 2 ∷ []) ∷ row key_b (column name_x 1 ∷ []) ∷ []) ∷ [] }
    ensures unseen_times { times_sent unseen_column_under_mark ≡ 1 ∷ 2 ∷ 4 ∷ 4 ∷ 5 ∷ 6 ∷ 6 ∷ 1 ∷ 1 ∷ 7 ∷ 6 ∷ 9 ∷ 10 ∷ 11 ∷ 12 ∷ [] }
    ensures unseen_valid_b { valid_in unseen_column_under_mark 9 ≡ 6 ∷ 7 ∷ [] }
    ensures unseen_valid_a { valid_in unseen_column_under_mark 10 ≡ 2 ∷ 5 ∷ [] }
{}

/// Collections on a shard during a read's second round. One past its effective time, before the shard is asked or while it
/// waits, ends the read without an answer; one up to that time doesn't. Messages that come late or again change no outcome.
/// Does nothing; its contract is the law.
pub fn worked_collections()
    ensures collected { outcomes_of second_round_collected 3 ≡ outcome.Collected ∷ [] }
    ensures collected_clocks { shard_clocks two_shards second_round_collected ≡ 4 ∷ 7 ∷ [] }
    ensures collected_session { (second_round_collected.sessions 3).clock ≡ 8 }
    ensures waiting { outcomes_of collected_while_waiting 3 ≡ outcome.Collected ∷ [] }
    ensures waiting_clocks { shard_clocks two_shards collected_while_waiting ≡ 8 ∷ 9 ∷ [] }
    ensures waiting_horizon { horizon collected_while_waiting 1 ≡ 10 }
    ensures at_time { outcomes_of horizon_at_effective_time 3 ≡ outcome.Read 3 both_rows ∷ [] }
    ensures late { outcomes_of late_repeats 3 ≡ outcome.Read 3 both_rows ∷ [] }
    ensures late_times { times_sent late_repeats ≡ 1 ∷ 1 ∷ 2 ∷ 3 ∷ 3 ∷ 1 ∷ 1 ∷ 4 ∷ 3 ∷ 6 ∷ 7 ∷ 8 ∷ 9 ∷ 11 ∷ [] }
    ensures late_clocks { shard_clocks two_shards late_repeats ≡ 8 ∷ 11 ∷ [] }
{}

/// Two concurrent inserts of one column: the one with the greater stamp stays in both data centres, whenever the other
/// comes. Does nothing; its contract is the law.
pub fn worked_inserts_that_meet()
    ensures commits { commit_times two_centres concurrent_inserts_meet 0 ≡ 2 ∷ 3 ∷ [] }
    ensures commits_there { commit_times two_centres concurrent_inserts_meet 1 ≡ 2 ∷ 3 ∷ [] }
    ensures before { x_at (history_of two_centres concurrent_inserts_meet 0) 2 ≡ Some (digit 1) }
    ensures after { x_at (history_of two_centres concurrent_inserts_meet 0) 3 ≡ Some (digit 2) }
    ensures before_there { x_at (history_of two_centres concurrent_inserts_meet 1) 2 ≡ Some (digit 2) }
    ensures after_there { x_at (history_of two_centres concurrent_inserts_meet 1) 3 ≡ Some (digit 2) }
    ensures late { outcomes_of older_stamp_arrives_late 3 ≡ wrote 2 1 ∷ outcome.Read 2 (row key_b (column name_x 2 ∷ []) ∷ []) ∷ [] }
    ensures late_at_home { outcomes_of older_stamp_arrives_late 2 ≡ wrote 2 0 ∷ outcome.Read 3 (row key_b (column name_x 2 ∷ []) ∷ []) ∷ [] }
    ensures late_valid { valid_in older_stamp_arrives_late 8 ≡ 2 ∷ 5 ∷ [] }
    ensures late_valid_at_home { valid_in older_stamp_arrives_late 9 ≡ 3 ∷ 5 ∷ [] }
{}

/// A write waits in another data centre for what its session did before: for a write, or for writes of others that it read.
/// Who reads that a column was deleted depends on the deletion.
/// Does nothing; its contract is the law.
pub fn worked_dependencies()
    ensures held_back { outcomes_of dependency_holds_back 3 ≡ outcome.Read 9 (row key_b (column name_x 1 ∷ column name_y 2 ∷ []) ∷ []) ∷ [] }
    ensures held_back_times { times_sent dependency_holds_back ≡ 1 ∷ 2 ∷ 2 ∷ 4 ∷ 5 ∷ 5 ∷ 6 ∷ 8 ∷ 1 ∷ 10 ∷ [] }
    ensures held_back_commits { commit_times two_centres dependency_holds_back 1 ≡ 8 ∷ 9 ∷ [] }
    ensures held_back_valid { valid_in dependency_holds_back 9 ≡ 9 ∷ 10 ∷ [] }
    ensures too_early { outcomes_of read_before_dependency 3 ≡ outcome.Read 0 (row key_b [] ∷ []) ∷ [] }
    ensures too_early_valid { valid_in read_before_dependency 8 ≡ 0 ∷ 8 ∷ [] }
    ensures deletion { outcomes_of deletion_is_read 4 ≡ outcome.Read 2 (row key_b [] ∷ []) ∷ [] }
    ensures deletion_depends { (deletion_is_read.sessions 4).dependencies ≡ record { txn = operation 2 1; shard = 0 } ∷ [] }
    ensures through_reads { outcomes_of dependency_through_a_read 4 ≡ outcome.Read 2 (row key_b (column name_x 1 ∷ []) ∷ []) ∷ outcome.Read 3 (row key_c (column name_y 1 ∷ []) ∷ []) ∷ [] }
    ensures through_reads_times { times_sent dependency_through_a_read ≡ 1 ∷ 2 ∷ 2 ∷ 1 ∷ 3 ∷ 3 ∷ 1 ∷ 4 ∷ 6 ∷ 7 ∷ 9 ∷ 10 ∷ 10 ∷ 11 ∷ 11 ∷ 14 ∷ 16 ∷ [] }
    ensures through_reads_commits { commit_times three_at_home dependency_through_a_read 0 ≡ 2 ∷ 3 ∷ 10 ∷ [] }
    ensures through_reads_commits_there { commit_times three_at_home dependency_through_a_read 1 ≡ 14 ∷ 16 ∷ 17 ∷ [] }
{}

/// A batch for two shards is committed in both data centres, with one stamp. Does nothing; its contract is the law.
pub fn worked_replication()
    ensures outcomes { outcomes_of write_is_replicated 4 ≡ wrote 3 0 ∷ [] }
    ensures times { times_sent write_is_replicated ≡ 1 ∷ 1 ∷ 2 ∷ 3 ∷ 3 ∷ 3 ∷ 4 ∷ 5 ∷ 6 ∷ 7 ∷ 8 ∷ [] }
    ensures clocks { shard_clocks two_by_two write_is_replicated ≡ 3 ∷ 4 ∷ 8 ∷ 9 ∷ [] }
    ensures commits { commit_times two_by_two write_is_replicated 0 ≡ 3 ∷ [] }
    ensures commits_there { commit_times two_by_two write_is_replicated 1 ≡ 8 ∷ [] }
    ensures coordinator_there { prepare_times write_is_replicated 2 ≡ 6 ∷ [] }
    ensures cohort_there { prepare_times write_is_replicated 3 ≡ 7 ∷ [] }
    ensures applied_there { times_applied write_is_replicated 3 ≡ 8 ∷ [] }
{}

/// A session moves to the data centre where its write arrives only then, and reads it there: the floor is the write's commit
/// time there, its dependencies stay, and an entry is of the data centre where it was submitted. It moves back, to a lower
/// floor and to reads at earlier times; an answer to its first move counts for nothing then. A move asks for each dependency
/// in order, counts each answer once, and ends with the greatest commit time told, whichever came last; without dependencies
/// it ends where it is submitted. What is read right after a move isn't older than the floor. Refused are a move while
/// another operation is open, wherever to, one to no data centre and one to where the session is. Does nothing; its contract
/// is the law.
pub fn worked_moves()
    ensures outcomes { outcomes_of session_moves 2 ≡ wrote 2 0 ∷ outcome.Moved 1 6 ∷ outcome.Read 6 (row key_b (column name_x 1 ∷ []) ∷ []) ∷ [] }
    ensures homes { homes_in session_moves ≡ 0 ∷ 0 ∷ 1 ∷ [] }
    ensures times { times_sent session_moves ≡ 1 ∷ 2 ∷ 2 ∷ 4 ∷ 6 ∷ 8 ∷ 9 ∷ [] }
    ensures clocks { shard_clocks one_mover session_moves ≡ 2 ∷ 9 ∷ [] }
    ensures commits_there { commit_times one_mover session_moves 1 ≡ 6 ∷ [] }
    ensures valid { valid_in session_moves 6 ≡ 6 ∷ 9 ∷ [] }
    ensures quiet { IsQuiet session_moves }
    ensures depends_moved { (session_has_moved.sessions 2).dependencies ≡ record { txn = operation 2 1; shard = 0 } ∷ [] }
    ensures depends { (session_moves.sessions 2).dependencies ≡ record { txn = operation 2 1; shard = 0 } ∷ [] }
    ensures back { outcomes_of session_moves_back 2 ≡ wrote 2 0 ∷ outcome.Moved 1 6 ∷ outcome.Read 6 (row key_b (column name_x 1 ∷ []) ∷ []) ∷ outcome.Moved 0 2 ∷ outcome.Read 2 (row key_b (column name_x 1 ∷ []) ∷ []) ∷ [] }
    ensures back_homes { homes_in session_moves_back ≡ 0 ∷ 0 ∷ 1 ∷ 1 ∷ 0 ∷ [] }
    ensures at_once { outcomes_of move_without_dependencies 2 ≡ outcome.Moved 1 0 ∷ [] }
    ensures at_once_sends { times_sent move_without_dependencies ≡ [] }
    ensures first_check { slice_get move_is_half_answered.sent 8 ≡ Some (envelope 2 1 8 (DepCheck (operation 2 1) (operation 2 3))) }
    ensures second_check { slice_get move_is_half_answered.sent 9 ≡ Some (envelope 2 1 8 (DepCheck (operation 3 1) (operation 2 3))) }
    ensures half_left { (move_is_half_answered.sessions 2).current ≡ Moving 1 (record { txn = operation 2 1; shard = 0 } ∷ []) 12 }
    ensures half { outcomes_of move_is_half_answered 2 ≡ wrote 3 0 ∷ outcome.Read 3 (row key_c (column name_y 1 ∷ []) ∷ []) ∷ [] }
    ensures each { outcomes_of move_waits_for_each 2 ≡ wrote 3 0 ∷ outcome.Read 3 (row key_c (column name_y 1 ∷ []) ∷ []) ∷ outcome.Moved 1 12 ∷ [] }
    ensures each_depends { (move_waits_for_each.sessions 2).dependencies ≡ record { txn = operation 2 1; shard = 0 } ∷ record { txn = operation 3 1; shard = 0 } ∷ [] }
    ensures behind { outcomes_of reads_behind_a_commit 4 ≡ wrote 3 0 ∷ outcome.Moved 1 8 ∷ outcome.Read 8 (row key_a (column name_x 2 ∷ []) ∷ []) ∷ [] }
    ensures behind_valid { valid_in reads_behind_a_commit 14 ≡ 0 ∷ 7 ∷ [] }
    ensures behind_past { Past two_by_two reads_behind_a_commit (operation 4 3) (operation 4 1) }
    ensures earlier { outcomes_of reads_at_earlier_times 2 ≡ outcome.Read 3 (row key_b (column name_x 2 ∷ []) ∷ []) ∷ outcome.Moved 1 2 ∷ outcome.Read 2 (row key_b (column name_x 2 ∷ []) ∷ []) ∷ [] }
    ensures busy { refusal_of two_writers move_is_half_answered (move 2 1) ≡ Some (Refused fault.Busy) }
    ensures busy_first { refusal_of two_writers move_is_half_answered (move 2 2) ≡ Some (Refused fault.Busy) }
    ensures nowhere { refusal_of one_mover session_moves (move 2 2) ≡ Some (Refused fault.UnknownHome) }
    ensures home_again { refusal_of one_mover session_moves (move 2 1) ≡ Some (Refused fault.AlreadyHome) }
{}

/// A session's earlier write is in the past of its next one, and so is what a session has read before it writes. The
/// replicated batch leaves its run quiet. Does nothing; its contract is the law.
pub fn worked_pasts()
    ensures own_write { Past two_centres dependency_holds_back (operation 2 2) (operation 2 1) }
    ensures first_read { Past three_at_home dependency_through_a_read (operation 4 3) (operation 2 1) }
    ensures second_read { Past three_at_home dependency_through_a_read (operation 4 3) (operation 3 1) }
    ensures quiet { IsQuiet write_is_replicated }
{}

/// The answer that a session kept of a shard, and that the shard had applied an insertion when it sent this answer, which the
/// read shows. Does nothing; its contract is the law.
pub fn worked_freshness()
    ensures kept { (e : Envelope) × IsKept one_shard insert_and_read_back 1 2 3 e × (e.from ≡ 0) }
    ensures applied { (x : Applied) × WasApplied one_shard insert_and_read_back 0 3 x × (x.part.batch ≡ insert key_b name_x 1 ∷ []) }
{}

/// Two reads wait for one batch at different times: where it is excluded at the time of the one, that one is let go, and the
/// other shows it once it is committed. After a read a session's floor is the read's time, and its next read isn't below it.
/// The earliest valid time of a row is that of its newest deletion or of the asked columns, whichever is later, also where
/// the deletion is older than a column or no asked column was ever there. Does nothing; its contract is the law.
pub fn worked_times()
    ensures both { times_waited (run two_shards_of_three both_wait) 1 ≡ 3 ∷ 10 ∷ [] }
    ensures one { times_waited (run two_shards_of_three one_is_let_go) 1 ≡ 10 ∷ [] }
    ensures excluded { outcomes_of reads_wait_at_two_times 3 ≡ wrote 3 0 ∷ outcome.Read 3 (row key_a [] ∷ []) ∷ [] }
    ensures shown { outcomes_of reads_wait_at_two_times 4 ≡ wrote 10 1 ∷ outcome.Read 10 (row key_a (column name_x 2 ∷ []) ∷ []) ∷ [] }
    ensures times { times_sent reads_wait_at_two_times ≡ 1 ∷ 1 ∷ 2 ∷ 1 ∷ 3 ∷ 5 ∷ 6 ∷ 7 ∷ 8 ∷ 1 ∷ 10 ∷ 12 ∷ 13 ∷ 14 ∷ 15 ∷ 9 ∷ 16 ∷ 10 ∷ 10 ∷ 17 ∷ [] }
    ensures commits { commit_times two_shards_of_three reads_wait_at_two_times 0 ≡ 3 ∷ 10 ∷ 10 ∷ [] }
    ensures floor { (read_asks_coordinator.sessions 3).floor ≡ 3 }
    ensures next_read { outcomes_of read_after_a_read 3 ≡ outcome.Read 3 both_rows ∷ outcome.Read 3 (row key_c [] ∷ []) ∷ [] }
    ensures next_valid { valid_in read_after_a_read 14 ≡ 0 ∷ 12 ∷ [] }
    ensures no_deletion { outcomes_of row_without_deletion 2 ≡ outcome.Read 2 (row key_b (column name_x 1 ∷ []) ∷ []) ∷ [] }
    ensures no_deletion_valid { valid_in row_without_deletion 3 ≡ 2 ∷ 3 ∷ [] }
    ensures no_column { valid_in row_without_deletion 5 ≡ 0 ∷ 4 ∷ [] }
    ensures newer_deletion { outcomes_of row_with_newer_deletion 2 ≡ outcome.Read 5 (row key_b [] ∷ []) ∷ [] }
    ensures newer_deletion_valid { valid_in row_with_newer_deletion 5 ≡ 5 ∷ 6 ∷ [] }
    ensures newer_deletion_alone { valid_in row_with_newer_deletion 7 ≡ 5 ∷ 7 ∷ [] }
    ensures older_deletion { outcomes_of row_with_older_deletion 2 ≡ outcome.Read 5 (row key_b (column name_x 1 ∷ []) ∷ []) ∷ [] }
    ensures older_deletion_valid { valid_in row_with_older_deletion 5 ≡ 5 ∷ 6 ∷ [] }
    ensures older_deletion_alone { valid_in row_with_older_deletion 7 ≡ 2 ∷ 7 ∷ [] }
{}

/// How many deliveries are left of worked runs, and how many their drains take: of a write to one shard; of a batch for both
/// shards of two data centres; of a run in which two reads wait for a batch that isn't decided. Does nothing; its contract is
/// the law.
pub fn worked_drains()
    ensures one_write { deliveries_left one_shard only_submitted ≡ 10 }
    ensures one_write_takes { deliveries_taken one_shard only_submitted ≡ 2 }
    ensures batch { deliveries_left two_by_two batch_for_both ≡ 77 }
    ensures batch_takes { deliveries_taken two_by_two batch_for_both ≡ 11 }
    ensures waiting { deliveries_left two_shards_of_three two_reads_wait ≡ 45 }
    ensures waiting_takes { deliveries_taken two_shards_of_three two_reads_wait ≡ 9 }
{}
