//! A log on a disk: records are noted, and those noted since are synced together.
//!
//! `log` notes and commits, `recovery` reads what a crash left.
#![tactic(auto)]

mod log;
mod recovery;

pub use log::Log;
pub use recovery::{RecoveryError, recover};
