//! A log's file on a real disk, in a folder that one process has at a time.
//!
//! `opening` makes and opens it, `file_disk` is the disk; `done` remembers for clauses alone what was done.
#![tactic(auto)]

mod done;
mod file_disk;
mod opening;

pub use file_disk::FileDisk;
pub use opening::{OpenError, Opened, open};
