//! Envelopes as bytes: what one process of a store tells another.
//!
//! `specs/Spelling` says what is written, `specs/Reading` what is read, with the first fault from the left.
#![tactic(auto)]

mod fields;
mod law;
mod lists;
mod reading;
mod writing;

pub use law::{what_is_read_is_spelled, what_is_spelled_is_read, worked_parcels};
pub use reading::read_parcel;
pub use writing::write_parcel;
