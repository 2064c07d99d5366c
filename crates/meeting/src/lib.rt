//! Where sites meet: the sockets by which envelopes go to other data centres and come from them.
//!
//! Each site calls each other one, and is called by it. What goes out goes on the connection that this site made; what comes comes on
//! those that others made. A connection that is lost is made again, and goes on from what the other end has.
#![tactic(auto)]

mod call;
mod meeting;
mod peer;
mod watcher;

pub use meeting::{Meeting, Own};
pub use peer::{Other, Peer};
pub use watcher::{News, Watcher};
