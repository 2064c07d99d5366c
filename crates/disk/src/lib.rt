//! One file that is only added to, cut and synced: what a read returns, and what a crash may leave.
//!
//! `disk` has the trait, with all that is asked of a disk, and `memory` one over memory, for tests.
#![tactic(auto)]

mod disk;
mod memory;

pub use disk::{Disk, DiskError};
pub use memory::{Call, Memory};
