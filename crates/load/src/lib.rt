//! A load: requests for a server or a node of this machine, how many it answers in a second, and how soon.
#![tactic(auto)]

mod histogram;
mod line;
mod mix;
mod replies;
mod running;
mod tally;
mod told;

pub use histogram::{Histogram, times_are_told_closely};
pub use mix::Mixture;
pub use running::{Load, run_load};
pub use told::Report;
