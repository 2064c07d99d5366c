//! The states of a write transaction on its way to being applied, as values that must be spent.
//!
//! A part is prepared; its coordinator holds a ballot until each cohort has voted, decides, and announces the verdict. In
//! another data centre than the write's own, a ballot waits for notices and for dependencies first. Nothing here sends,
//! marks or applies: a shard does.
#![tactic(auto)]

mod answers;
mod ballot;
mod part;
mod prepared;
mod remote_ballot;
mod verdict;
mod votes;

pub use answers::Answers;
pub use ballot::{Ballot, Complete, Voted};
pub use part::WritePart;
pub use prepared::Prepared;
pub use remote_ballot::{Ready, RemoteBallot};
pub use verdict::{Post, Verdict};
pub use votes::Votes;
