//! One connection of a load.
ghost use Rattle.std.specs.Prelude.{◌≡◌, ◌++◌, ◌∷◌, [], true, false, length, OnOk};
ghost use Rattle.load.specs.Lines.{is_reply_to, IsTaken};

use crate::mix::Request;
use crate::replies::{Replies, Reply};
use crate::tally::Tally;
use bytes::BytesMut;
use logical_time::Fault;
use mio::net::TcpStream;
use mio::{Interest, Registry, Token};
use std::alloc::Global;
use std::collections::VecDeque;
use std::io::{ErrorKind, Read, Write};
use std::net::{Net, SocketAddr};

/// A request without a reply.
#[derive(Clone, Copy)]
struct Made {
    is_read: bool,
    // When it was made, in microseconds.
    at: u64,
}

/// A connection, and what is under way on it.
#[derive(Drop)]
pub(crate) struct Line {
    stream: TcpStream,
    unsent: BytesMut,
    replies: Replies,
    // The oldest first.
    under_way: VecDeque<Made>,
    over: bool,
}

// Whether a read, or a write, is answered so.
fn is_reply_to(is_read: bool, reply: Reply) -> bool
    ensures { result ≡ is_reply_to is_read reply }
{
    match reply {
        Reply::Read => is_read,
        Reply::Wrote => !is_read,
        Reply::Refused(_) => true,
    }
}

impl Line {
    /// Connects, and is watched under this number. Refused with `ReadFailed` where it can't.
    pub(crate) fn connect<R: Net>(
        rt: &R,
        alloc: Global,
        registry: &Registry,
        address: SocketAddr,
        number: usize,
    ) -> Result<Line, Fault> {
        let Ok(mut stream) = TcpStream::connect(rt, address) else {
            return Err(Fault::ReadFailed);
        };
        let interest = Interest::READABLE | Interest::WRITABLE;
        if registry
            .register(&mut stream, Token(number), interest)
            .is_err()
        {
            return Err(Fault::ReadFailed);
        }
        // a request isn't kept back until the one before was taken; where that is refused, requests come later
        let _refused = stream.set_nodelay(true);
        Ok(Line {
            stream,
            unsent: BytesMut::new(alloc),
            replies: Replies::new(alloc),
            under_way: VecDeque::new(alloc),
            over: false,
        })
    }

    /// Whether nothing more comes of it.
    pub(crate) fn is_over(&self) -> bool
        ensures { result ≡ self.now.over }
    {
        self.over
    }

    /// How many requests are under way.
    pub(crate) fn under_way(&self) -> usize
        ensures { result ≡ length self.now.under_way.items }
    {
        self.under_way.len()
    }

    /// Puts a request behind the others. Refused with `Memory`.
    pub(crate) fn ask(&mut self, request: &Request, time: u64) -> Result<(), Fault>
        ensures { OnOk result ((self.new.unsent.items ≡ self.old.unsent.items ++ request.now.frame.items) × (self.new.under_way.items ≡ self.old.under_way.items ++ record { is_read = request.now.is_read; at = time } ∷ [])) }
    {
        self.unsent.extend_from_slice(&request.frame)?;
        self.under_way.push_back(Made {
            is_read: request.is_read,
            at: time,
        })?;
        Ok(())
    }

    // Writes once. Gives whether there may be room for more.
    fn write_once(&mut self) -> bool {
        match self.stream.write(self.unsent.as_slice()) {
            Ok(n) if n > 0 => {
                self.unsent.advance(n);
                true
            }
            Err(error) if error.kind() == ErrorKind::WouldBlock => false,
            _ => {
                self.over = true;
                false
            }
        }
    }

    /// Writes what the socket takes.
    pub(crate) fn write(&mut self) {
        // each piece has a byte at least, so that all may go
        for _piece in 0..self.unsent.len() {
            if self.unsent.is_empty() || !self.write_once() {
                return;
            }
        }
    }

    // Counts a reply that came, if it is one to the request that was made first. Gives whether it is.
    fn take(&mut self, reply: Reply, time: u64, tally: &mut Tally) -> bool
        ensures taken { result ≡ true → IsTaken reply time self.old.under_way.items self.new.under_way.items tally.old tally.new }
        ensures stays { result ≡ false → (self.new.under_way.items ≡ self.old.under_way.items) × (tally.new ≡ tally.old) }
    {
        let Some(made) = self.under_way.front().copied() else {
            return false;
        };
        if !is_reply_to(made.is_read, reply) {
            return false;
        }
        let _made = self.under_way.pop_front();
        tally.note(reply, time.saturating_sub(made.at));
        true
    }

    // Counts all replies that are there. Gives whether there were any.
    fn hear(&mut self, time: u64, tally: &mut Tally) -> bool {
        let mut heard = false;
        for _reply in 0..self.under_way.len().saturating_add(1) {
            match self.replies.next() {
                Ok(Some(reply)) if self.take(reply, time, tally) => heard = true,
                Ok(None) => return heard,
                _ => {
                    self.over = true;
                    return heard;
                }
            }
        }
        heard
    }

    // Reads once. Gives whether there may be more.
    fn read_once(&mut self, buffer: &mut [u8]) -> Result<bool, Fault> {
        match self.stream.read(buffer) {
            Ok(n) if n > 0 => {
                self.replies.feed(&buffer[..n])?;
                Ok(true)
            }
            Err(error) if error.kind() == ErrorKind::WouldBlock => Ok(false),
            _ => {
                self.over = true;
                Ok(false)
            }
        }
    }

    /// Reads what is there, and counts the replies. Gives whether there were any. Refused with `Memory`.
    pub(crate) fn read(
        &mut self,
        buffer: &mut [u8],
        time: u64,
        tally: &mut Tally,
    ) -> Result<bool, Fault> {
        let mut heard = false;
        for _piece in 0..u64::MAX {
            if self.over || !self.read_once(buffer)? {
                return Ok(heard);
            }
            heard = self.hear(time, tally) || heard;
        }
        Ok(heard)
    }
}
