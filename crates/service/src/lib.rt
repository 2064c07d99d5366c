//! Requests that come over a line, answered by a session of a world.
//!
//! `specs/Port.antt` says what a request makes of a world and how it is answered, `Meaning` what the replies mean:
//! together with what a line is served by, that leads from the bytes of a connection to the meaning of each answer.
#![tactic(auto)]

mod asked;
mod asking;
mod awaited;
mod connections;
mod host;
mod housed;
mod port;
mod session;
mod sessions;

pub use asking::{Unanswered, make_ready};
pub use awaited::ask_present;
pub use connections::serve_connections;
pub use host::Host;
pub use housed::Housed;
pub use port::WorldPort;
pub use session::serve_session;
pub use sessions::{WorldSessions, run_sessions, turn_sessions};
