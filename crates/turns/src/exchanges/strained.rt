//! Clients that only stand there, each as bad as it can be.
use super::connections::send;
use super::workers::{batch, read_of_all};
use logical_time::Fault;
use std::alloc::Global;
use std::io::Write;
use std::net::{Shutdown, TcpStream};
use std::time::Duration;

/// What a client does that only stands there.
#[derive(Clone, Copy, PartialEq, Eq)]
pub(crate) enum Stands {
    /// It sends requests as long as it can, and reads no reply.
    Unread,
    /// It closes inside a frame.
    Cut,
    /// It announces the longest frame, and says nothing more.
    Silent,
}

/// How many requests a client sends at once that reads no reply, and how often, at most.
const REQUESTS: usize = 2_048;

const PIECES: usize = 256;

/// How many bytes the value has that it asks for again and again.
const VALUE: usize = 60_000;

/// How long it waits until what it sends is taken, in milliseconds.
const PATIENCE: u64 = 50;

// A batch that inserts a long value.
fn long_batch(alloc: Global) -> Result<Vec<u8>, Fault> {
    let mut frame = Vec::from_slice(alloc, &batch(b'~', 0))?;
    frame.truncate(18);
    let length = (VALUE as u32).to_be_bytes();
    frame.extend_from_slice(&length)?;
    frame.resize(22 + VALUE, b'v')?;
    let body = (18 + VALUE as u32).to_be_bytes();
    frame[..4].copy_from_slice(&body);
    Ok(frame)
}

// Sends requests until nothing more is taken.
fn send_all(alloc: Global, stream: &mut TcpStream) -> Result<(), Fault> {
    let patience = Some(Duration::from_millis(PATIENCE));
    if stream.set_write_timeout(patience).is_err()
        || stream.write_all(&long_batch(alloc)?).is_err()
    {
        return Err(Fault::WriteFailed);
    }
    let mut piece = Vec::new(alloc);
    for _ in 0..REQUESTS {
        piece.extend_from_slice(&read_of_all())?;
    }
    for _ in 0..PIECES {
        match stream.write(&piece) {
            Ok(n) if n == piece.len() => {}
            _ => return Ok(()),
        }
    }
    Ok(())
}

/// Comes, and does what such a client does. Its connection, if it is still there.
pub(crate) fn stand(
    rt: &HostRuntime,
    alloc: Global,
    port: u16,
    kind: Stands,
) -> Result<Option<TcpStream>, Fault> {
    match kind {
        Stands::Unread => {
            let mut stream = send(rt, port, &[])?;
            send_all(alloc, &mut stream)?;
            Ok(Some(stream))
        }
        Stands::Cut => {
            let stream = send(rt, port, &batch(b'~', 0)[..9])?;
            let _ended = stream.shutdown(Shutdown::Both);
            Ok(None)
        }
        Stands::Silent => Ok(Some(send(rt, port, &[1, 0, 0, 0])?)),
    }
}
