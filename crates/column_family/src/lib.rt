//! Rows of columns, mutations and batches, and what a history of batches makes of them.
//!
//! The definitions that a reader needs first stand in `specs/`: location, touches, newer, history, table and
//! what a read rests on. Nothing here knows of shards or versions.
#![tactic(auto)]

mod batch;
mod byte_strings;
mod few;
mod law;
mod newest;
mod normalizing;
mod places;
mod schema;
mod shared_bytes;

pub use batch::{Batch, Change, Committed, Mutation, Row};
pub use byte_strings::{Family, Key, Name, Value};
pub use law::{
    normal_forms_leave_their_ranges, worked_normal_forms, worked_range_deletions, worked_ranges,
};
pub use newest::{
    NewestMutation, newest_column_change, newest_row_deletion, newest_touching, up_to,
};
pub use normalizing::normal;
pub use schema::Schema;
