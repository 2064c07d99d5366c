//! The log of a server, as its folder has it: a world comes back from it, and it is looked at; so is that of a node.
//!
//! `specs/Logs.antt` says what a file tells that begins as a log, `specs/Told.antt` what is told of it and why nothing is,
//! `specs/Sites.antt` what of that of a node.
#![tactic(auto)]

mod error;
mod histories;
mod opening;
mod performing;
mod reasons;
mod site_counts;
mod site_reading;
mod site_summary;
mod summary;

pub use error::{LogError, Unopened};
pub use folder::FileDisk;
pub use histories::history_of_log;
pub use opening::{open_folder, reopen};
pub use performing::perform_log;
pub use site_counts::{Counts, Other};
pub use site_summary::{SiteSummary, site_in, site_summary_of};
pub use summary::{Summary, summary_of};
