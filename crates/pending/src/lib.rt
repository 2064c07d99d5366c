//! The marks of pending transactions.
//!
//! A mark says that a transaction is prepared in a row and not yet applied there, and since when. Marks
//! stand on rows, never on columns: a mark covers every column of its row, also those that don't exist yet.
//! Nothing here knows of votes, messages or what a transaction writes.
#![tactic(auto)]

mod marks;
mod row_marks;
mod rows;

pub use marks::Marks;
