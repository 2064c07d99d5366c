//! What an exploration follows, and where it gives up.

/// What an exploration follows, and where it gives up.
#[derive(Clone, Copy)]
pub struct Limits {
    /// Whether each message may be delivered a second time.
    pub repeat: bool,
    /// Whether messages may be lost.
    pub lose: bool,
    /// How many events a run may have.
    pub events: u32,
    /// How many states are followed at most.
    pub states: u32,
}
