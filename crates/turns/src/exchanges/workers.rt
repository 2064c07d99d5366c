//! Clients that work: each inserts a column of its own again and again, and reads those of all.
use super::connections::send;
use logical_time::Fault;
use std::alloc::Global;
use std::io::{Read, Write};
use std::net::TcpStream;
use std::time::Duration;

/// How often a client inserts and reads.
const ROUNDS: u8 = 20;

/// How long a reply may take, in seconds.
const PATIENCE: u64 = 60;

/// A frame that inserts a column of row `b` with this name and a value of one byte.
pub(crate) fn batch(name: u8, value: u8) -> [u8; 23] {
    [
        0, 0, 0, 19, 1, 0, 0, 0, 1, 1, b'f', 0, 1, b'b', 0, 0, 1, name, 0, 0, 0, 1, value,
    ]
}

/// A frame that reads all columns of row `b`.
pub(crate) fn read_of_all() -> [u8; 24] {
    [
        0, 0, 0, 20, 2, 1, b'f', 0, 0, 0, 1, 0, 1, b'b', 1, 0, 0, 0, 0, 0, 0, 0, 0, 100,
    ]
}

/// Reads a reply, and puts it behind those before.
pub(crate) fn hear(stream: &mut TcpStream, heard: &mut Vec<u8>) -> Result<(), Fault> {
    let mut length = [0u8; 4];
    if stream.read_exact(&mut length).is_err() {
        return Err(Fault::ReadFailed);
    }
    heard.extend_from_slice(&length)?;
    let at = heard.len();
    let body = (u32::from_be_bytes(length) as usize).min(1 << 24);
    heard.resize(at.saturating_add(body), 0)?;
    match stream.read_exact(&mut heard[at..]) {
        Ok(()) => Ok(()),
        Err(_) => Err(Fault::ReadFailed),
    }
}

// Sends a frame: whole, or a byte at a time.
fn put(stream: &mut TcpStream, frame: &[u8], bytewise: bool) -> Result<(), Fault> {
    let step = if bytewise { 1 } else { frame.len().max(1) };
    for piece in frame.chunks(step) {
        if stream.write_all(piece).is_err() {
            return Err(Fault::WriteFailed);
        }
    }
    Ok(())
}

/// Has what is sent go at once, and a reply that takes too long fail.
pub(crate) fn prepare(stream: &mut TcpStream) -> Result<(), Fault> {
    let patience = Some(Duration::from_secs(PATIENCE));
    if stream.set_nodelay(true).is_err() || stream.set_read_timeout(patience).is_err() {
        return Err(Fault::ReadFailed);
    }
    Ok(())
}

/// Does the work of a client. What it heard.
pub(crate) fn work(
    rt: &HostRuntime,
    alloc: Global,
    port: u16,
    index: usize,
    bytewise: bool,
) -> Result<Vec<u8>, Fault> {
    let mut stream = send(rt, port, &[])?;
    prepare(&mut stream)?;
    let name = b'a'.saturating_add(index.min(25) as u8);
    let mut heard = Vec::new(alloc);
    for round in 0..ROUNDS {
        put(&mut stream, &batch(name, round), bytewise)?;
        hear(&mut stream, &mut heard)?;
        put(&mut stream, &read_of_all(), bytewise)?;
        hear(&mut stream, &mut heard)?;
    }
    Ok(heard)
}
