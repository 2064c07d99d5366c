//! What a shard answers reads from its store and its marks: rows by the newest versions, with how long they are known
//! to be valid, and rows at a time, also as they will be once a part is applied. And the reads at a time that wait until
//! the transactions below their time are known.
//!
//! Nothing here sends.
#![tactic(auto)]

mod cause;
mod freeing;
mod reading_at;
mod reading_now;
mod row;
mod waits;

pub use cause::Cause;
pub use freeing::{AnswersAt, freed_answers};
pub use reading_at::{answer_at, answer_with};
pub use reading_now::rows_now;
pub use row::rows_of;
pub use waits::{Wait, Waits};
