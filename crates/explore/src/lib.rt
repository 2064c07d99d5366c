//! Explorations: every order in which the messages of a small script can come, and what is told in each.
//!
//! What an actor does is determined by the events that it took, in order: its journal. So runs in which each actor
//! has the same journal, and which told the same, are in the same state, and are followed once.
#![tactic(auto)]

mod exploring;
mod found;
mod journals;
mod layers;
mod learning;
mod letters;
mod limits;
mod numbering;
mod orders;
mod performing;
mod plan;
mod searching;
mod spelling;
mod stop;
mod told;

pub use limits::Limits;
pub use performing::perform_exploration;
