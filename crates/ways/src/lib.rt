//! What the world grants between sites: ways that take envelopes to other data centres, and bring those that come from there.
#![tactic(auto)]

mod granted;

pub use granted::Ways;
