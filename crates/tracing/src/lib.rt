//! Traces: the run of a script, told event by event as lines of JSON.
#![tactic(auto)]

mod actor;
mod bodies;
mod events;
mod lines;
mod listed;
mod performing;
mod pieces;
mod playing;
mod telling;
mod words;

pub use performing::perform_trace;
pub use playing::{Step, Traced, trace};
pub use telling::write_trace;
