//! The doors of a server: connections that come by a door, each at a place, in one thread.
//!
//! What answers their requests is asked for each round anew; nothing here knows how. `specs/Rounds.antt` says what a round
//! makes of the places, and `specs/Spans.antt` what any number of rounds does.
#![tactic(auto)]

mod accepting;
mod doorway;
mod hall;
mod listening;
mod memory;
mod running;
mod silence;
mod socket;
mod sockets;

pub use doorway::{Accepted, Doorway};
pub use hall::Ended;
pub use listening::Doors;
pub use memory::{MemoryDoor, Moment};
pub use running::{run, run_lines};
pub use socket::ReadySocket;
pub use sockets::Sockets;
