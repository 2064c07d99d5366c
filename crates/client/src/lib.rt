//! A session: what it submits, what it hears from the shards of its home, and how it moves to another.
//!
//! A session does the steps of the protocol's machine and keeps less than it: no outcome that was taken, and the
//! writers of its last read in no order.
#![tactic(auto)]

mod accepting;
mod current;
mod envelopes;
mod first_answers;
mod handling;
mod hearing;
mod home;
mod kept;
mod moving;
mod session;

pub use messages::{Op, Outcome};
pub use session::Session;
