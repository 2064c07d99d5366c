//! A world whose requests are kept in a log, and that comes back from it.
//!
//! `specs/Playing.antt` says what the entries of a log make of a world, `specs/Logged.antt` when a log tells them,
//! `specs/Settled.antt` what is on the disk for good and what a crash leaves, `specs/Stuck.antt` why a world doesn't come back,
//! `specs/Looked.antt` what is seen of a log that nobody opens.
#![tactic(auto)]

mod asking;
mod durable;
mod error;
mod law;
mod noting;
mod opening;
mod progress;
mod reading;
mod recalling;
mod recovering;
mod replaying;
mod resting;

pub use durable::Durable;
pub use error::OpenError;
pub use law::{entries_lead_one_way, kept_entries_come_back, replies_outlive_crashes};
pub use opening::open;
pub use progress::{Progress, Untold};
pub use recalling::{read_log, recall};
