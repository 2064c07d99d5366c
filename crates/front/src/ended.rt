//! How serving a line ends.
use logical_time::Fault;

/// How serving a line ended.
#[derive(Clone, Copy, PartialEq, Eq)]
pub enum Ended {
    /// The input ended between two frames.
    Clean,
    /// The stream was refused, by the last reply: with its first fault, `Oversize` to `Truncated`, or with `Memory`, which
    /// was refused for a piece of it.
    Refused(Fault),
    /// The line failed to read.
    ReadFailed,
    /// The line failed to write.
    WriteFailed,
}
