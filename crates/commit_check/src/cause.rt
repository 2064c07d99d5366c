//! Why reads no longer wait.
use logical_time::Time;

/// Why reads need not wait for a transaction any longer.
#[derive(Clone, Copy)]
pub enum Cause {
    /// It is applied, which concerns all reads.
    Applied,
    /// It isn't committed by this time, which concerns the reads whose time isn't above it.
    NotBy(Time),
}
