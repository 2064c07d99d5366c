//! Whether two envelopes, operations, answers or topologies are the same: by all that they say, and not by where it lies.
//!
//! Each function answers exactly whether the values are equal. Lists of rows are compared row by row, and a body by the
//! function of its own kind.
#![tactic(auto)]

mod answers;
mod bodies;
mod envelopes;
mod kinds;
mod lists;
mod operations;
mod rows;
mod topologies;

pub use answers::same_answer;
pub use envelopes::same_envelope;
pub use operations::same_op;
pub use topologies::same_topology;
