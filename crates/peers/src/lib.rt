//! The two ends of a one-way link between two data centres, as values, and the frames in which parcels go over it.
//!
//! `outbound` keeps the parcels that the other end hasn't acknowledged, `inbound` takes each once and in order, `law` says what
//! the two are together, and `frames` cuts a stream of bytes. No socket, no clock and no thread stands here.
#![tactic(auto)]

mod frames;
mod inbound;
mod law;
mod outbound;

pub use frames::{Frames, drop_front, framed};
pub use inbound::Inbound;
pub use law::{
    all_is_taken, frames_are_one_list, frames_are_read, nothing_is_lost, taken_is_a_beginning,
};
pub use outbound::Outbound;
