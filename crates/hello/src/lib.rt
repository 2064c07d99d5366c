//! Who may come to the port where data centres meet.
//!
//! Two processes of different data centres share a secret, which is never sent. Each sends a hello; then each proves
//! that it knows the secret, over both hellos; then each frame has a tag. Nothing here knows of sockets, of a clock or
//! of chance.
#![tactic(auto)]

mod comparing;
mod hello;
mod key;
mod law;
mod mac;
mod role;
mod secret;
mod welcome;

pub use comparing::same;
pub use hello::Hello;
pub use key::Key;
pub use law::{
    keys_are_of_one_meeting, no_proof_is_of_a_key, proofs_are_of_one_meeting,
    tags_are_of_one_frame, what_is_spelled_is_one_hello, worked_codes,
};
pub use mac::hmac_sha256;
pub use role::Role;
pub use secret::Secret;
pub use welcome::{Expected, Unwelcome, check};
