//! Collection of the versions that can't be seen any more.
//!
//! A chain keeps the versions that are the newest of it at some time from a time on, and a row the range deletions that are
//! in force at some time from then on. Nothing here knows of shards or stores.
#![tactic(auto)]

mod collection;
mod law;
mod range_collection;

pub use collection::collect;
pub use law::{
    collections_are_not_seen, collections_of_rows_are_not_seen, ranges_are_dropped_in_any_order,
};
pub use range_collection::collect_ranges;
