//! The site of one data centre: its actors in one process, without their journals.
//!
//! What happens at a site is its story, which clauses alone see (`specs/Story`). A site's value has its story; what it keeps is
//! related to it (`specs/Keeping`). Nothing here knows of runs, or of how envelopes go from one site to another.
#![tactic(auto)]

mod kept;
mod opening;
mod past;
mod queues;
mod site;
mod turn;

pub use site::Site;
pub use turn::{Submitted, Turn};
