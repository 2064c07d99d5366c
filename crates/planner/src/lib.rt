//! The cut of a batch and of a read by shards, and the join of what shards answer to a read.
//!
//! Which batches and reads are accepted is checked here. Nothing here knows of times or of the protocol.
#![tactic(auto)]

mod batches;
mod checks;
mod homes;
mod joining;
mod law;
mod partition;
mod reads;

pub use batches::{BatchPlan, ShardPart, plan_batch};
pub use checks::{check_batch, check_read};
pub use joining::join_answers;
pub use law::planned_answers_join;
pub use partition::shard_of;
pub use reads::{ReadPlan, ShardKeys, plan_read};
