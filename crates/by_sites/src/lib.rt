//! Scripts that the sites of all data centres run, in one process and one thread, with what they send each other as bytes in between.
//!
//! Here the program itself carries what the sites send, so what comes to each was sent by an actor of its sender's site: what the
//! transcript tells is of a run, without a premise about a network.
#![tactic(auto)]

mod asking;
mod carrying;
mod opening;
mod performing;
mod running;
mod settling;

pub use performing::{perform_by_sites, transcript_by_sites};
pub use running::run_by_sites;
