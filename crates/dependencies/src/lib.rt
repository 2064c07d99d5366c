//! Dependencies between writes, one hop back: what a session's next write depends on, who asked whether a
//! dependency is decided, and which answers a session's move misses.
//!
//! Nothing here knows of clocks, or of when a write may be prepared.
#![tactic(auto)]

mod askers;
mod dep_set;
mod missing;
mod moving;
mod ordering;
mod waiters;

pub use askers::Askers;
pub use dep_set::DepSet;
pub use missing::Missing;
pub use moving::{MoveTaken, OpenMove};
