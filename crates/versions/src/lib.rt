//! The versions of one column, or of one row's deletion, by falling stamp, and the deletions of ranges of a row's columns.
//!
//! A chain keeps each version under its stamp, whatever the order in which they come, and tells
//! which of them is the newest, now and at each time. Nothing here knows of rows, shards or stores.
#![tactic(auto)]

mod chain;
mod entry;
mod places;
mod range;
mod range_places;
mod ranges;
mod sweep;
mod sweep_steps;
mod times;
mod version;

pub use chain::Chain;
pub use range::RangeDeletion;
pub use ranges::Ranges;
pub use sweep::Sweep;
pub use version::{Version, What};
