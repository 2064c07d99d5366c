//! A server: doors, and a world that keeps no past, whose sessions answer those who come.
//!
//! `specs/Serving.antt` says what a round makes of the world, of the places and of the door.
#![tactic(auto)]

mod pace;
mod report;
mod server;
mod timer;

pub use report::Report;
pub use server::Server;
