//! A shard's store: chains of the versions that were applied, and slices of rows, now and at a time.
//!
//! Nothing here knows of votes, messages or sessions.
#![tactic(auto)]

mod asked;
mod boxed_chain;
mod boxed_ranges;
mod crowded;
mod gathering;
mod holdings;
mod merging;
mod origin;
mod part;
mod reading;
mod room;
mod row;
mod rows;
mod sight;
mod store;
mod striking;
mod sweeping;
mod walk;

pub use holdings::Holdings;
pub use part::{Applied, Part};
pub use store::Store;
