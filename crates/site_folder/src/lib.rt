//! A site that comes back from a folder: from the file of its log, which begins as each log does.
//!
//! `specs/Files.antt` says what it is for a site to come back, and why none does.
#![tactic(auto)]

mod error;
mod opening;

pub use error::Unreturned;
pub use folder::FileDisk;
pub use opening::{open_site, reopen_site};
