//! A socket whose calls don't wait, as a line.
ghost use Rattle.std.specs.Prelude.{◌≡◌, false, None};

use logical_time::Fault;
use mio::net::TcpStream;
use readiness::{Came, ReadyLine, Went};
use std::io::{ErrorKind, Read, Write};
use std::marker::Model;

/// A connection as a line. It tells none of its bytes.
#[derive(Drop)]
pub struct ReadySocket {
    stream: TcpStream,
    endings: u64,
    failures: u64,
    // What the last read and the last write told.
    dry: bool,
    full: bool,
    // What failed last.
    failed: Option<Fault>,
}

impl Model for ReadySocket {
    ghost use Rattle.std.specs.Prelude.{None};
    ghost use Rattle.readiness.specs.Lines.{ReadyValue};

    ghost Value = { ReadyValue };

    ghost view = { λ l. record { line = record { heard = None; said = None; endings = l.endings; failures = l.failures; moments = None }; dry = l.dry; full = l.full } };
}

impl ReadySocket {
    /// The line of a connection, before any call. What is written to it goes out at once.
    pub(crate) fn new(stream: TcpStream) -> ReadySocket
        ensures { result ≡ record { line = record { heard = None; said = None; endings = 0; failures = 0; moments = None }; dry = false; full = false } }
    {
        // a reply isn't kept back until the peer has taken the one before; where that is refused, replies come later
        let _refused = stream.set_nodelay(true);
        ReadySocket {
            stream,
            endings: 0,
            failures: 0,
            dry: false,
            full: false,
            failed: None,
        }
    }

    /// Which call failed last: `ReadFailed` or `WriteFailed`; none where none did.
    pub(crate) fn failed(&self) -> Option<Fault> {
        self.failed
    }
}

impl ReadyLine for ReadySocket {
    ghost seen = { λ l. l };

    fn read(&mut self, buffer: &mut [u8]) -> Came {
        match self.stream.read(buffer) {
            Ok(0) => {
                self.endings = self.endings.saturating_add(1);
                Came::End
            }
            Ok(n) => {
                self.dry = false;
                Came::Bytes(n)
            }
            Err(error) if error.kind() == ErrorKind::WouldBlock => {
                self.dry = true;
                Came::Nothing
            }
            Err(_) => {
                self.failures = self.failures.saturating_add(1);
                self.failed = Some(Fault::ReadFailed);
                Came::Failed
            }
        }
    }

    /// A write of nothing is a failure.
    fn write(&mut self, piece: &[u8]) -> Went {
        match self.stream.write(piece) {
            Ok(n) if n > 0 => {
                self.full = false;
                Went::Bytes(n)
            }
            Err(error) if error.kind() == ErrorKind::WouldBlock => {
                self.full = true;
                Went::Nothing
            }
            _ => {
                self.failures = self.failures.saturating_add(1);
                self.failed = Some(Fault::WriteFailed);
                Went::Failed
            }
        }
    }

    fn failures(&self) -> u64 {
        self.failures
    }
}
