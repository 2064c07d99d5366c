//! The audit: completed reads against the plain table.
#![tactic(auto)]

mod auditing;
mod found;
mod judging;
mod laid;
mod law;

pub use auditing::audit;
pub use found::Audit;
pub use judging::{Answered, Misread, misreads};
pub use law::right_answers_are_the_meaning;
