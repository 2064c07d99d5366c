//! A node: doors by which clients come, the site of one data centre, and the ways to the others.
//!
//! `specs/Rounds.antt` says what a round makes of them.
#![tactic(auto)]

mod crossing;
mod marks;
mod node;

pub use crossing::send_all;
pub use node::Node;
