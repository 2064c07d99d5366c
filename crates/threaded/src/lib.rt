//! Shards and sessions in seats, driven by threads, and what their journals conclude: one run.
//!
//! `Actor` is a machine for the seats of `actors`. `conclude` tells that the journals of all seats are those of a run, without
//! doing any event again: it compares what each journal received with what the senders' seats show that they sent. What is
//! told of the seats then is what each run with these journals has, so that all that is promised of runs is promised of what
//! the threads did.
#![tactic(auto)]

mod actor;
mod concluded;
mod concluding;
pub mod entries;
pub mod history;
mod matching;
pub mod shown;

pub use actor::Actor;
pub use concluded::Concluded;
pub use concluding::conclude;
pub use entries::{AllEnded, Ended};
