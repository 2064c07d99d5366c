//! Bytes, faults and ends as text.
use front::Ended;
use logical_time::Fault;
use std::alloc::Global;

/// The bytes that a text of hexadecimal digits spells.
pub(crate) fn bytes_of(alloc: Global, text: &str) -> Result<Vec<u8>, Fault> {
    match hex::decode(alloc, text.as_bytes()) {
        Ok(bytes) => Ok(bytes),
        Err(_) => Err(Fault::Script),
    }
}

/// The bytes in hexadecimal digits, in brackets.
pub(crate) fn digits(alloc: Global, bytes: &[u8]) -> Result<String, Fault> {
    let digits = hex::encode(alloc, bytes)?;
    Ok(format!(in alloc; "[{digits}]")?)
}

/// The number of a fault, 0 without one.
pub(crate) fn number_of(fault: Option<Fault>) -> u16 {
    fault.map_or(0, Fault::number)
}

/// How serving ended.
pub(crate) fn word_of(ended: Ended) -> &'static str {
    match ended {
        Ended::Clean => "clean",
        Ended::Refused(_) => "refused",
        Ended::ReadFailed => "read failed",
        Ended::WriteFailed => "write failed",
    }
}
