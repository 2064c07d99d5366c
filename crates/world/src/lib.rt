//! Runs of all actors, as definitions: which events there are, what each makes of a run, and what is said of runs. What is
//! promised of every run is proved as laws, and forms that resemble these and are false are refuted.
//!
//! `World` is such a run in code: it holds the actors of a topology and all that they sent, and each call is one event. What
//! is promised of every run are clauses of its calls. The worked runs are laws: each computes to the outcomes, clocks and
//! times that are stated.
#![tactic(auto)]

mod actors;
mod completed;
mod delivered;
mod history;
mod journals;
mod law;
mod log;
mod lookalikes;
mod opening;
mod promises;
mod run_event;
mod station;
mod stretches;
mod world;
mod written;

pub use completed::Completed;
pub use journals::{
    actors_are_their_journals, journals_tell_what_happened, journals_that_fit_are_a_run,
    steps_keep_time, threads_keep_the_promises,
};
pub use law::{
    refusals_are_told, refused_events_are_left_out, worked_collections, worked_dependencies,
    worked_drains, worked_freshness, worked_inserts_that_meet, worked_moves, worked_pasts,
    worked_reads, worked_replication, worked_times, worked_writes,
};
pub use lookalikes::{
    lookalikes_of_drains_are_false, lookalikes_of_fresh_reads_are_false,
    lookalikes_of_histories_are_false, lookalikes_of_later_commits_are_false,
    lookalikes_of_local_answers_are_false, lookalikes_of_quiet_runs_are_false,
    lookalikes_of_sessions_are_false, lookalikes_of_shards_are_false,
    lookalikes_of_stamps_are_false, lookalikes_of_tables_are_false,
    lookalikes_of_transcripts_are_false,
};
pub use opening::{close_shards, copy_of, leave_shards, open_shards};
pub use promises::{
    answers_are_local, clocks_count_events, completed_writes_are_in_the_history,
    deliveries_come_nearer, drains_end, each_shard_of_a_run_is_right, handled_envelopes_are_honest,
    histories_only_grow, histories_tell_what_is_decided, later_commits_are_above_reads,
    moves_bring_their_past, quiet_means_done, reads_are_fresh, reads_are_given_up_below_horizons,
    reads_show_one_table, reads_show_their_past, runs_can_be_looked_up, runs_only_grow,
    stamps_agree_everywhere, stamps_follow_causal_order, times_of_a_session_never_fall,
    transcript_tells_what_ended,
};
pub use run_event::RunEvent;
pub use world::World;
