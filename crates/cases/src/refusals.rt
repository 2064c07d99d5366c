//! The printed text of each refusal.
use logical_time::Fault;
use std::io;

const REFUSALS: [Fault; 25] = [
    Fault::EmptyBatch,
    Fault::UnknownFamily,
    Fault::KeyLength,
    Fault::NameLength,
    Fault::ValueLength,
    Fault::TooMany,
    Fault::RangeOrder,
    Fault::EmptyRead,
    Fault::Busy,
    Fault::Collected,
    Fault::ClockSpent,
    Fault::Memory,
    Fault::JournalFull,
    Fault::StrangerEnd,
    Fault::AlreadyHome,
    Fault::UnknownHome,
    Fault::Behind,
    Fault::Oversize,
    Fault::UnknownTag,
    Fault::BadCount,
    Fault::TrailingBytes,
    Fault::Truncated,
    Fault::Script,
    Fault::ReadFailed,
    Fault::WriteFailed,
];

/// Tells each refusal.
pub(crate) fn tell(rt: &HostRuntime) -> io::Result<()> {
    println!(rt; "refusals")?;
    for refusal in &REFUSALS {
        println!(rt; "{refusal}")?;
    }
    Ok(())
}
