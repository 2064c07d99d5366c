//! One shard of a data centre: it handles envelopes, each by the step of the protocol's definitions, and what it answers is
//! right.
//!
//! What it keeps is less than the definitions' state, which keeps everything for good: what it knows of each transaction, the
//! parts and ballots under way, what was applied, and whoever waits. Each event makes all its room first, so what is refused
//! changes nothing. That one shard is right is also a law of the definitions alone, and forms that resemble it and are false
//! are refuted.
#![tactic(auto)]

mod answers;
mod begun;
mod below;
mod checking;
mod coming;
mod committing;
mod deciding;
mod early;
mod excluding;
mod handling;
mod kept;
mod law;
mod lookalikes;
mod parts;
mod reading;
mod repl_begun;
mod replicas;
mod shard;
mod unfinished;
mod voting;

pub use law::one_shard_is_right;
pub use lookalikes::{lookalikes_of_right_shards_are_false, shards_need_honest_envelopes};
pub use shard::Shard;
