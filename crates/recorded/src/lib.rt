//! Recorded histories of any store: they are read from a file, and each recorded read is compared with the table; those of a
//! run are written.
#![tactic(auto)]

mod history;
mod performing;
mod reading;
mod recorded;
mod recording;
mod report;
mod writing;

pub use history::perform_history;
pub use performing::{audit_recorded, line, perform_audit};
pub use reading::read_recorded;
pub use recorded::Recorded;
pub use recording::{record_of, record_run};
pub use report::write_report;
pub use writing::recorded_text;
