//! A site whose steps are kept in a log, and that comes back from it.
//!
//! `specs/Logged.antt` says when a log tells the steps of a site, `specs/Settled.antt` what is on the disk for good and what a crash
//! leaves, `specs/Kept.antt` what is kept of a site, `specs/Stuck.antt` why a site doesn't come back,
//! `specs/Heard.antt` how many envelopes came from each data centre, `specs/Met.antt` which process each was when it was last met.
#![tactic(auto)]

mod counting;
mod durable_site;
mod error;
mod identity;
mod keeping;
mod opening;
mod others;
mod reading;
mod replaying;
mod step_log;

pub use durable_site::DurableSite;
pub use error::OpenError;
pub use identity::Identity;
pub use opening::open;
pub use others::Others;
