//! Scripts and transcripts: a script is read and run in a world, and what is told of it is written down.
//!
//! The run of a script, what is told of it and what its transcript shows are the definitions of `specs/Simulation.antt`.
#![tactic(auto)]

mod along;
mod auditing;
mod explaining;
mod heading;
mod law;
mod marks;
mod performing;
mod reading;
mod script;
mod shape;
mod simulating;
mod streaming;
mod tail;
mod text;
mod transcript;
mod wrong;

pub use audit::{Audit, audit};
pub use auditing::{histories_of, sim_audited, simulate_audited, simulate_recorded};
pub use law::{a_move_is_told_with_its_floor, moves_go_to_data_centres};
pub use performing::{explain, perform, sim};
pub use reading::read_script;
pub use script::{Events, Script, ScriptEvent};
pub use shape::{
    Shaped, has_items, has_members, item, list, list_of, member, member_as, part_at, whole_below,
};
pub use simulating::simulate;
pub use tail::{Tail, status_of};
pub use text::{put_rows, transcript_text, write_transcript};
pub use transcript::{Entry, Transcript};
