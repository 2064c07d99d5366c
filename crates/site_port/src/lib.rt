//! The sessions of a site as the port of many connections.
//!
//! `specs/Port.antt` says what a request makes of the site, and how it is answered; `specs/Ends.antt` what turns make of it, and
//! `specs/Collecting.antt` what collections of its shards do.
#![tactic(auto)]

mod asking;
mod collecting;
mod leaving;
mod recalling;
mod sessions;
mod turns;
mod waiting;

pub use sessions::SiteSessions;
pub use waiting::{Late, Waiting};
