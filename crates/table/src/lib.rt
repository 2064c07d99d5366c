//! The plain table: slow, runnable, and the meaning of every read.
#![tactic(auto)]

mod answering;
mod history;

pub use answering::{Once, answer, each_once};
pub use history::History;
