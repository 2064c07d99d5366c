//! The file of sites: which data centres there are, where each can be reached, and what they keep.
#![tactic(auto)]

mod reading;

pub use reading::{SiteAt, SitesFile, read_sites};
