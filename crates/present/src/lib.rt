//! A world that keeps no past: the actors of a topology, and what was sent and isn't handled yet.
//!
//! It is a run of the protocol, as `World` is: its value is its topology and the events so far, by which its clauses
//! speak in the words of `world`. But no code keeps these events: what it keeps stands for the run that they make, and
//! grows only with what its actors hold and what waits. Messages are handled in the order of sending, each once, and
//! shards collect when nothing waits: so no read is given up.
#![tactic(auto)]

mod actors;
mod deliveries;
mod ended;
mod law;
mod opening;
mod past;
mod present;
mod waiting;

pub use ended::Ended;
pub use law::collections_at_rest_give_up_no_read;
pub use present::Present;
