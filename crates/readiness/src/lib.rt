//! Many lines in one thread, none of which is waited for: each connection has turns, and all ask one port.
//!
//! A turn takes in until its line would block, or too much waits in it; then the port settles, once for all that have a
//! turn; and then what waits is written. `specs/` says what such a line is (`Lines`),
//! what is kept of a connection (`Kept`), what a turn makes of it (`Turns`), what turns at many places make of them
//! (`Places`), and what became of every line after a whole run (`Runs`). Nothing here knows how requests are answered.
#![tactic(auto)]

mod connection;
mod last;
mod line;
mod memory;
mod places;
mod run;
mod shared;
mod taking;
mod turning;
mod writing;

pub use connection::{Connection, LIMIT};
pub use line::{Came, ReadyLine, Went};
pub use memory::{Call, MemoryLine};
pub use places::{Places, turns};
pub use run::{Act, Gone, Run, run_all};
pub use shared::SharedPort;
pub use turning::After;
