//! Forms that resemble the law of one shard and are false: each is refuted by a worked run.
ghost use Rattle.shard.specs.Worked.{two_shards, written_then_read, read_then_written, read_at_its_mark, collected_then_read, commit_at_its_mark, excluded_at_its_commit_time, read_above_its_time, two_of_one_stamp};
ghost use Rattle.shard.specs.Lookalikes.{RowsAreRightEarlier, RowsAreRightLater, RowsAtATimeAreRightEarlier, RowsAtATimeAreRightLater, PartsAreAppliedAbove, GivenUpFarBelow, Marks, Exclusions, TimesOfReads, Stamps, IsRightWithout};

/// With honest envelopes a row is right between its earliest and its latest valid time, and not one before or after; a row
/// at a time at that time alone; a part is applied at its commit time; and a read can be given up just below the horizon.
/// Does nothing; its contract is the law.
pub fn lookalikes_of_right_shards_are_false()
    ensures earlier { ¬ (RowsAreRightEarlier written_then_read) }
    ensures later { ¬ (RowsAreRightLater read_then_written) }
    ensures at_earlier { ¬ (RowsAtATimeAreRightEarlier written_then_read) }
    ensures at_later { ¬ (RowsAtATimeAreRightLater read_at_its_mark) }
    ensures applied_above { ¬ (PartsAreAppliedAbove read_at_its_mark) }
    ensures given_up { ¬ (GivenUpFarBelow collected_then_read) }
{}

/// A shard whose envelopes are honest but for one clause needn't be right: where a commit time isn't above the mark, or above
/// a time that a NotBy named, where a ReadAt names a time that isn't there yet, or where two transactions have one stamp.
/// Does nothing; its contract is the law.
pub fn shards_need_honest_envelopes()
    ensures marks { ¬ (IsRightWithout Marks two_shards 1 commit_at_its_mark) }
    ensures exclusions { ¬ (IsRightWithout Exclusions two_shards 1 excluded_at_its_commit_time) }
    ensures times_of_reads { ¬ (IsRightWithout TimesOfReads two_shards 0 read_above_its_time) }
    ensures stamps { ¬ (IsRightWithout Stamps two_shards 1 two_of_one_stamp) }
{}
