//! Forms that resemble the promises of every run and are false: each is refuted by a worked run.
ghost use Rattle.std.specs.Prelude.{[], ◌++◌};
ghost use Rattle.world.specs.Run.{run};
ghost use Rattle.world.specs.Worked.{one_shard, home_is_nowhere, two_shards, three_sessions, two_centres, two_by_two, three_at_home, insert_then_read, submitted_twice, told_before_the_cohort, cohort_is_read, b_is_read, a_is_written, both_are_read, a_is_written_next};
ghost use Rattle.world.specs.Worked.{insert_and_read_back, only_submitted, sent_to_itself, two_shard_write, second_round_collected, read_beside_a_write, write_after_the_answer, concurrent_inserts_meet, older_stamp_arrives_late, dependency_holds_back, deletion_is_read, write_is_replicated, collected_and_quiet};
ghost use Rattle.world.specs.WorkedTimes.{two_shards_of_three};
ghost use Rattle.world.specs.WorkedMoves.{one_mover, session_moves, reads_at_earlier_times};
ghost use Rattle.world.specs.WorkedLocal.{moves_on, reads_away, asks_about};
ghost use Rattle.world.specs.WorkedDrains.{one_is_answered, batch_for_two, batch_is_prepared};
ghost use Rattle.world.specs.Lookalikes.{LowerWithYesAbove, SendsAreLower, FewerWithoutWaiting, UnhandledAreEnough, ClocksAreBelowEvents};
ghost use Rattle.world.specs.Lookalikes.{ReadsShowEarlierTable, ReadsShowLaterTable, ReadsShowFirstCentre, PastIsBelow, PastIsInFirstCentre, PastIsShown, CommitsAreAbove, LaterCommitsOfAnyRowAreAbove, LaterCommitsAreFarAbove, ReadsAreAboveTheirHome, CompletedWritesAreShown};
ghost use Rattle.world.specs.Lookalikes.{ReadsAreNewer, OtherRowsAreFresh, OtherColumnsAreFresh, ReadsAreFreshAtDelivery, HistoriesNeverGrow, SubmittedBatchesHaveEntries, EntriesHaveOwnTimes, FirstCentreDecides, CommitTimesAgree, StampsAreCommitTimes, StampsAreBelowCommitTimes, CommitTimesFollowCauses, StampsTellCauses};
ghost use Rattle.world.specs.Lookalikes.{WritesAreToldInFirstCentre, CompletedWritesAreEverywhere, TimesRise, TimesNeverFallAnywhere, SessionsStayAtHome, TimesOfACentreNeverFall, SessionsEndOnce, SessionsSubmitOnce, NothingIsGivenUp, AllEndAsWrites, SubmissionsEnd, OutcomesAreListedNext, RunsKeepAllEvents, SentIsHonest, EnvelopesMakeShards, EachNodeIsRight, LocallyQuietMeansIdle, LocallyQuietAnswersAway, OwnMessagesAreEnough, NearlyQuietMeansDone, QuietMeansDoneAnywhere, TablesAreEqualOnceOneIsDone, TablesAreEqualOneBefore, QuietMeansCompleted};

/// A read shows the table of no other time and of no other data centre; its past is committed by its effective time, not
/// below it, and at home, and what is newer can hide it. Does nothing; its contract is the law.
pub fn lookalikes_of_tables_are_false()
    ensures earlier_table { ¬ (ReadsShowEarlierTable one_shard insert_and_read_back) }
    ensures later_table { ¬ (ReadsShowLaterTable three_sessions (run three_sessions (both_are_read ++ a_is_written_next))) }
    ensures first_centre { ¬ (ReadsShowFirstCentre two_centres older_stamp_arrives_late) }
    ensures past_below { ¬ (PastIsBelow one_shard insert_and_read_back) }
    ensures past_in_first_centre { ¬ (PastIsInFirstCentre two_centres older_stamp_arrives_late) }
    ensures past_shown { ¬ (PastIsShown two_centres older_stamp_arrives_late) }
{}

/// Above the effective time of a read is what is committed later and in an asked row, by one at least; what was committed
/// elsewhere, or completed before, needn't be below it. Does nothing; its contract is the law.
pub fn lookalikes_of_later_commits_are_false()
    ensures all_commits { ¬ (CommitsAreAbove one_shard insert_then_read []) }
    ensures any_row { ¬ (LaterCommitsOfAnyRowAreAbove three_sessions b_is_read a_is_written) }
    ensures far_above { ¬ (LaterCommitsAreFarAbove three_sessions both_are_read a_is_written_next) }
    ensures above_its_home { ¬ (ReadsAreAboveTheirHome two_shards read_beside_a_write) }
    ensures completed_before { ¬ (CompletedWritesAreShown two_shards told_before_the_cohort cohort_is_read) }
{}

/// A read is as fresh as its shards' answers were when they were sent, not newer, and only where it asked. Does nothing; its
/// contract is the law.
pub fn lookalikes_of_fresh_reads_are_false()
    ensures newer { ¬ (ReadsAreNewer one_shard insert_and_read_back) }
    ensures other_rows { ¬ (OtherRowsAreFresh two_shards read_beside_a_write) }
    ensures other_columns { ¬ (OtherColumnsAreFresh two_shards read_beside_a_write) }
    ensures at_delivery { ¬ (ReadsAreFreshAtDelivery two_shards write_after_the_answer) }
{}

/// Histories grow, by what is decided and not by what is submitted; two entries can have one commit time; each data
/// centre decides for itself. Does nothing; its contract is the law.
pub fn lookalikes_of_histories_are_false()
    ensures never_grow { ¬ (HistoriesNeverGrow one_shard [] insert_then_read) }
    ensures submitted { ¬ (SubmittedBatchesHaveEntries one_shard only_submitted) }
    ensures own_times { ¬ (EntriesHaveOwnTimes three_sessions (run three_sessions (b_is_read ++ a_is_written))) }
    ensures first_centre { ¬ (FirstCentreDecides two_by_two write_is_replicated) }
{}

/// A transaction's commit times differ between data centres, and follow causal order only within one; a stamp is the commit
/// time where the write was submitted, and of two writes the smaller stamp tells no causal order. Does nothing; its contract
/// is the law.
pub fn lookalikes_of_stamps_are_false()
    ensures commit_times_agree { ¬ (CommitTimesAgree two_by_two write_is_replicated) }
    ensures commit_times { ¬ (StampsAreCommitTimes two_by_two write_is_replicated) }
    ensures below { ¬ (StampsAreBelowCommitTimes two_shards two_shard_write) }
    ensures causes { ¬ (CommitTimesFollowCauses two_centres dependency_holds_back) }
    ensures converse { ¬ (StampsTellCauses two_centres concurrent_inserts_meet) }
{}

/// A write is told as it is committed at home, before it is elsewhere; a session's times needn't rise, and those of several
/// can fall, as do those of one that moves; sessions end and submit more than one operation, and not all in one home. Does
/// nothing; its contract is the law.
pub fn lookalikes_of_sessions_are_false()
    ensures told_in_first_centre { ¬ (WritesAreToldInFirstCentre two_centres concurrent_inserts_meet) }
    ensures everywhere { ¬ (CompletedWritesAreEverywhere three_at_home deletion_is_read) }
    ensures times_rise { ¬ (TimesRise insert_and_read_back) }
    ensures times_anywhere { ¬ (TimesNeverFallAnywhere reads_at_earlier_times) }
    ensures homes { ¬ (SessionsStayAtHome session_moves) }
    ensures times_of_a_centre { ¬ (TimesOfACentreNeverFall read_beside_a_write) }
    ensures ends_once { ¬ (SessionsEndOnce insert_and_read_back) }
    ensures submits_once { ¬ (SessionsSubmitOnce insert_and_read_back) }
{}

/// A read can be given up, and doesn't end as a write does; an operation needn't end; what ended is listed under its own
/// number; and an event that was refused isn't in the run. Does nothing; its contract is the law.
pub fn lookalikes_of_transcripts_are_false()
    ensures given_up { ¬ (NothingIsGivenUp second_round_collected) }
    ensures all_writes { ¬ (AllEndAsWrites insert_and_read_back) }
    ensures submissions_end { ¬ (SubmissionsEnd only_submitted) }
    ensures next_number { ¬ (OutcomesAreListedNext one_shard insert_and_read_back) }
    ensures refused_events { ¬ (RunsKeepAllEvents one_shard submitted_twice) }
{}

/// What other shards handled isn't honest towards a shard; collections are among its events; and the node of a session is
/// no shard. Does nothing; its contract is the law.
pub fn lookalikes_of_shards_are_false()
    ensures all_that_was_sent { ¬ (SentIsHonest two_by_two write_is_replicated) }
    ensures without_collections { ¬ (EnvelopesMakeShards two_shards second_round_collected) }
    ensures each_node { ¬ (EachNodeIsRight one_shard insert_and_read_back) }
{}

/// One message that isn't handled, or a topology that isn't one, can leave a write undone; below a commit time of either
/// data centre tables can differ; and a read of a quiet run can have been given up. Does nothing; its contract is the law.
pub fn lookalikes_of_quiet_runs_are_false()
    ensures nearly_quiet { ¬ (NearlyQuietMeansDone one_shard only_submitted) }
    ensures anywhere { ¬ (QuietMeansDoneAnywhere home_is_nowhere sent_to_itself) }
    ensures one_is_done { ¬ (TablesAreEqualOnceOneIsDone two_by_two write_is_replicated) }
    ensures one_before { ¬ (TablesAreEqualOneBefore two_by_two write_is_replicated) }
    ensures completed { ¬ (QuietMeansCompleted collected_and_quiet) }
{}

/// Where one data centre has handled what its own actors sent each other, a move can still be open, and so can a read of a session that
/// has moved away; and it isn't enough that a session's own messages were handled, without those between shards. Does nothing; its
/// contract is the law.
pub fn lookalikes_of_local_answers_are_false()
    ensures moves_stay { ¬ (LocallyQuietMeansIdle one_mover moves_on 0 2) }
    ensures away { ¬ (LocallyQuietAnswersAway one_mover reads_away 0 2) }
    ensures own_messages { ¬ (OwnMessagesAreEnough asks_about 3) }
{}

/// Where Yes stood above ReplBegin in rank, Prepare would send what is above it; a decision does send what is above its
/// message. A read that is let go costs a delivery, and so does what a message leads to. A clock can be the number of events.
/// Does nothing; its contract is the law.
pub fn lookalikes_of_drains_are_false()
    ensures yes_above { ¬ (LowerWithYesAbove two_shards batch_for_two) }
    ensures decisions { ¬ (SendsAreLower two_shards batch_is_prepared) }
    ensures waiting { ¬ (FewerWithoutWaiting two_shards_of_three one_is_answered) }
    ensures unhandled { ¬ (UnhandledAreEnough one_shard only_submitted) }
    ensures clocks { ¬ (ClocksAreBelowEvents only_submitted) }
{}
