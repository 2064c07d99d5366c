//! What coordinators and cohorts send to other shards beside `Commit`.
//!
//! Each function makes envelopes of what it is given, or posts them, by the place of the shard that sends them; nothing here
//! keeps anything. What it copies shares the bytes of keys, names and values, and memory alone can refuse it.
#![tactic(auto)]

mod checking;
mod near;
mod replicating;

pub use checking::checks;
pub use near::{near_nodes, notify, post_dep_checks, prepare_remotes, yes};
pub use replicating::{announcements, repl_parts};
