//! What an audit finds.

/// What an audit found.
#[derive(Clone, Copy, Debug, PartialEq, Eq)]
pub struct Audit {
    /// How many reads were answered.
    pub reads: u64,
    /// How many of them were answered wrong.
    pub wrong: u64,
}
