//! A line over a socket.
ghost use Rattle.std.specs.Prelude.{◌≡◌, None};

use crate::line::Line;
use std::io::{Read, Write};
use std::marker::Model;
use std::net::TcpStream;

/// A connection as a line. It tells none of its bytes, and none of its moments.
#[derive(Drop)]
pub struct SocketLine {
    stream: TcpStream,
    endings: u64,
    failures: u64,
}

impl Model for SocketLine {
    ghost use Rattle.std.specs.Prelude.{None};
    ghost use Rattle.front.specs.Lines.{LineValue};

    ghost Value = { LineValue };

    ghost view = { λ l. record { heard = None; said = None; endings = l.endings; failures = l.failures; moments = None } };
}

impl SocketLine {
    /// The line of a connection, before any call. What is written to it goes out at once.
    pub fn new(stream: TcpStream) -> SocketLine
        ensures { result ≡ record { heard = None; said = None; endings = 0; failures = 0; moments = None } }
    {
        // a reply isn't kept back until the peer has taken the one before; where that is refused, replies come later
        let _refused = stream.set_nodelay(true);
        SocketLine {
            stream,
            endings: 0,
            failures: 0,
        }
    }
}

impl Line for SocketLine {
    ghost seen = { λ l. l };

    /// Waits until something comes, or the peer has closed its side.
    fn read(&mut self, buffer: &mut [u8]) -> Option<usize> {
        match self.stream.read(buffer) {
            Ok(0) => {
                self.endings = self.endings.saturating_add(1);
                Some(0)
            }
            Ok(n) => Some(n),
            Err(_) => {
                self.failures = self.failures.saturating_add(1);
                None
            }
        }
    }

    /// Waits until the peer has room. A write of nothing is a failure.
    fn write(&mut self, piece: &[u8]) -> Option<usize> {
        match self.stream.write(piece) {
            Ok(n) if n > 0 => Some(n),
            _ => {
                self.failures = self.failures.saturating_add(1);
                None
            }
        }
    }

    fn failures(&self) -> u64 {
        self.failures
    }
}
