//! One end of one connection between two data centres, as a value over bytes.
//!
//! The one that connects sends parcels, and hears which were taken. Each end begins with its hello, then each proves that it knows
//! the secret, and from then on each frame has a tag. `said` is what is said and its bytes, `side` what each frame makes of an end,
//! and `channel` cuts the bytes that come. No socket, no clock and no chance stands here.
#![tactic(auto)]

mod channel;
mod greeting;
mod law;
mod said;
mod side;
mod tagged;
mod trouble;
mod unsent;

pub use channel::Channel;
pub use law::what_is_spelled_is_one_said;
pub use said::Said;
pub use side::{Heard, Side, Stage};
pub use trouble::Trouble;
pub use unsent::Unsent;
