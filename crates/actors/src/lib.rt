//! Actors that threads drive: machines with their journals, in seats that rings join.
//!
//! A machine does one event at a time (`machine`). A seat keeps it with its journal, its backlog and its ends of the
//! rings; each turn of a seat does at most one event (`seat`). A pool of workers goes round the seats, which are under
//! locks (`pool`); or one thread takes their turns until nothing is left to do (`draining`). `specs/Seats` says what a
//! seat keeps while its lock is free: no fact crosses threads but that.
#![tactic(auto)]

mod building;
mod draining;
mod incoming;
mod lane;
mod machine;
mod member;
mod pool;
mod recorded;
mod report;
mod seat;
mod turn;
mod ways;

pub use building::Mesh;
pub use draining::drain;
pub use machine::Machine;
pub use member::{Happened, Member};
pub use pool::{Gate, Open, Pool};
pub use report::{End, Report, Shift};
pub use seat::Seat;
pub use turn::Turn;
