//! The two rounds of a read transaction (Eiger), as values that must be spent.
//!
//! The first round hears from each asked shard which slices it has now and from when to when they are valid. The
//! second asks again, at the effective time, for the rows that aren't known to be valid then. Nothing here sends: a
//! session does.
#![tactic(auto)]

mod answered;
mod asking;
mod completing;
mod first_round;
mod heard;
mod late;
mod second_round;
mod valid;

pub use answered::Answered;
pub use first_round::{FirstRound, FirstTaken};
pub use late::LateShard;
pub use second_round::{SecondRound, SecondTaken};
