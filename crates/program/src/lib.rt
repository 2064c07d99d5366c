//! What the program reads and writes, and how it tells a fault.
//!
//! An input and an output remember whether they failed, and aren't used after that. So it can be said of a run of the program
//! that it ended for that reason and no other.
#![tactic(auto)]

mod buffered;
mod input;
mod line;
mod output;
mod telling;

pub use buffered::Buffered;
pub use input::Input;
pub use line::Line;
pub use output::Output;
pub use telling::tell;
