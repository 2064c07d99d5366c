//! The ends of rings that one actor holds.

use crate::in_link::InLink;
use crate::out_link::OutLink;

/// The ends of all rings of one actor.
#[derive(Drop)]
pub struct Ends {
    /// The rings to others, by their nodes.
    pub outgoing: Vec<OutLink>,
    /// The rings from others, by their nodes.
    pub incoming: Vec<InLink>,
}
