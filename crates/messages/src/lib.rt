//! What actors send each other, and the definitions of the protocol.
//!
//! `specs/` holds the protocol as a pure machine: the states of a shard and of a session, and what each event makes
//! of them and sends. Nothing here knows how a body is handled in code.
#![tactic(auto)]

mod body;
mod cohorts;
mod copies;
mod envelope;
mod event;
mod home;
mod law;
mod op;
mod outbox;
mod outcome;
mod place;
mod posting;
mod rows_at;
mod rows_now;
mod shared;
mod topology;

pub use body::{Body, Dependencies};
pub use cohorts::{CohortShards, Cohorts};
pub use copies::{repl_begin, repl_part};
pub use envelope::{Envelope, Refused};
pub use event::ActorEvent;
pub use home::Home;
pub use law::{
    nodes_are_numbered_once, rounds_of_two_rows, times_of_reads, writers_are_rested_on,
    writers_stand_in_order,
};
pub use op::Op;
pub use outbox::Outbox;
pub use outcome::Outcome;
pub use place::Place;
pub use posting::announce;
pub use rows_at::{AtTime, RowAt, RowsAt};
pub use rows_now::{RowNow, RowsNow};
pub use shared::Shared;
pub use topology::Topology;
