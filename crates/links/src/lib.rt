//! Rings between actors: one from each actor to each that it may send to.
//!
//! `specs/Links` says which pairs have a ring, and how the two ends of one are seen. A ring has one producer and one
//! consumer, which may be in two threads. No fact crosses it: an end knows what it put or took.
#![tactic(auto)]

mod ends;
mod in_link;
mod laying;
mod out_link;

pub use ends::Ends;
pub use in_link::InLink;
pub use laying::{RING, may_exchange, mesh, ring};
pub use out_link::OutLink;
