//! A server of requests over any line: reads frames, asks a port, and writes replies, one for each request, in order.
//!
//! `specs/` says what a line is (`Lines`, and `Memory` for one in memory), what a chain of a port's steps is (`Ports`),
//! and what a call of `serve` makes of both (`Served`). Nothing here knows how requests are answered.
#![tactic(auto)]

mod answering;
mod ended;
mod frames;
mod law;
mod line;
mod memory;
mod port;
mod serving;
mod socket;
mod writing;

pub use ended::Ended;
pub use frames::Frames;
pub use law::bytes_spell_one_list;
pub use line::Line;
pub use memory::{Failing, MemoryLine};
pub use port::Port;
pub use serving::{serve, serve_by};
pub use socket::SocketLine;
