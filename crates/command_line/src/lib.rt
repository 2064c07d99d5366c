//! The command line of the program.
//!
//! No other crate loads what reads the words.
#![tactic(auto)]

mod exploring;
mod joining;
mod loading;
mod reading;
mod serving;
mod told;

pub use exploring::Bounds;
pub use joining::Joining;
pub use loading::Loading;
pub use reading::{Asked, read_words, refuse_words};
pub use serving::Serving;
pub use told::Told;
