//! Scripts that threads run: each actor has its part of the script as the backlog of its seat, a pool of workers goes round
//! the seats, and what they did is concluded to a run and told.
//!
//! `specs/Running.antt` says what is told. No lock says what a seat was given; so each journal is compared with what the
//! script asks of its actor, and what is told stands on that.
#![tactic(auto)]

mod asking;
mod auditing;
mod course;
mod crew;
mod finishing;
mod performing;
mod scripts;
mod seats;
mod telling;
mod workers;

pub use crew::Crew;
pub use performing::{perform_by_threads, transcript_by_threads};
pub use scripts::{run, run_audited};
pub use workers::Workers;
