//! Drains: all that was sent is handled, the first that was sent first.
//!
//! `specs/Drain.antt` says what a drain makes of a run, and `Deliveries` what it asks of what it drains.
#![tactic(auto)]

mod deliveries;
mod draining;

pub use deliveries::Deliveries;
pub use draining::drain;
