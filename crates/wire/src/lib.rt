//! Requests and replies as frames, and a reader of frames that come in pieces.
//!
//! `specs/` has the grammar: `Requests` and `Replies` say what is written, `Reading` what is read, with the first
//! fault from the left, and `Frames` what stands first in a stream. Nothing here knows of sockets or sessions.
#![tactic(auto)]

pub mod error;
pub mod fields;
mod front;
mod law;
mod reader;
pub mod reading;
pub mod writing;

pub use law::{
    faults_of_frames, moves_are_spelled, no_spelling_begins_another, streams_are_read_in_one_way,
    what_is_read_is_spelled, what_is_spelled_is_read, worked_frames,
};
pub use reader::Reader;
pub use writing::{encode_op, encode_refusal, encode_reply};
