//! What a server's log says: its head, and the texts of its records. Nothing here knows of disks, nor of who asks.
#![tactic(auto)]

mod entry;
mod head;
mod law;

pub use entry::{Entry, read_entry, read_request, request_text, rested_text};
pub use head::{Head, HeadError, read_head, write_head};
pub use law::texts_are_of_one_entry;
