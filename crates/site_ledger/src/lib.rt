//! What a site's log says: the texts of its records. Nothing here knows of disks, nor of what a site makes of them.
#![tactic(auto)]

mod entry;
mod law;
mod reading;
mod writing;

pub use entry::Entry;
pub use law::texts_are_of_one_entry;
pub use reading::read_entry;
pub use writing::{asked_text, came_text, collected_text, met_text, turned_text, whose_text};
