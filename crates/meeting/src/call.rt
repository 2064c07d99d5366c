//! One connection to another site.
ghost use Rattle.std.specs.Prelude.{◌≡◌, length, IfOk, IfSome, Ok, None, true};
ghost use Rattle.linking.specs.Side.{is_met as is_met_at};
ghost use Rattle.linking.specs.Channel.{HearsNext};

use hello::{Expected, Secret};
use linking::{Channel, Heard, Trouble};
use logical_time::Fault;
use mio::net::TcpStream;
use std::io::{ErrorKind, Read, Write};

/// How many reads a connection has in one go, at most.
const READS: usize = 16;

/// After how many milliseconds without a word a connection is given up.
const SILENCE: u64 = 10_000;

/// After how many milliseconds without another word this end says that it is still here.
const WORD: u64 = 2_000;

/// A connection, and what was said on it.
#[derive(Drop)]
pub(crate) struct Call {
    stream: TcpStream,
    channel: Channel,
    // When it was heard last, and when it said something last, in milliseconds.
    heard: u64,
    said: u64,
    over: bool,
}

impl Call {
    /// A connection that was just made.
    pub(crate) fn new(stream: TcpStream, channel: Channel, time: u64) -> Call {
        // a word isn't kept back until the other end has taken the one before; where that is refused, words come later
        let _refused = stream.set_nodelay(true);
        Call {
            stream,
            channel,
            heard: time,
            said: time,
            over: false,
        }
    }

    /// Whether nothing more comes of it.
    pub(crate) fn is_over(&self) -> bool
        ensures { result ≡ self.now.over }
    {
        self.over
    }

    /// Whether the other end proved who it is.
    pub(crate) fn is_met(&self) -> bool
        ensures { result ≡ is_met_at self.now.channel.side.stage }
    {
        self.channel.is_met()
    }

    /// How many bytes wait to be written.
    pub(crate) fn waiting(&self) -> usize
        ensures { result ≡ length self.now.channel.side.unsent }
    {
        self.channel.waiting()
    }

    /// Nothing more is taken from it.
    pub(crate) fn end(&mut self)
        ensures over { self.new.over ≡ true }
        ensures channel { self.new.channel ≡ self.old.channel }
    {
        self.over = true;
    }

    // Reads once. Gives whether there may be more.
    fn read_once(&mut self, buffer: &mut [u8], time: u64) -> Result<bool, Fault> {
        match self.stream.read(buffer) {
            Ok(0) => {
                self.over = true;
                Ok(false)
            }
            Ok(n) => {
                self.heard = time;
                self.channel.feed(&buffer[..n])?;
                Ok(true)
            }
            Err(error) if error.kind() == ErrorKind::WouldBlock => Ok(false),
            Err(_) => {
                self.over = true;
                Ok(false)
            }
        }
    }

    /// Reads what is there. Refused with `Memory`.
    pub(crate) fn read(&mut self, buffer: &mut [u8], time: u64) -> Result<(), Fault> {
        for _read in 0..READS {
            if self.over || !self.read_once(buffer, time)? {
                return Ok(());
            }
        }
        Ok(())
    }

    // Writes once. Gives whether there may be room for more.
    fn write_once(&mut self, time: u64) -> bool {
        match self.stream.write(self.channel.unsent()) {
            Ok(n) if n > 0 => {
                self.said = time;
                self.channel.sent(n);
                true
            }
            Err(error) if error.kind() == ErrorKind::WouldBlock => false,
            _ => {
                self.over = true;
                false
            }
        }
    }

    /// Writes what the socket takes. What was said before trouble goes out too, so that the other end learns who this is.
    pub(crate) fn write(&mut self, time: u64) {
        // each piece has a byte at least, so that all may go
        for _piece in 0..self.channel.waiting() {
            if self.channel.waiting() == 0 || !self.write_once(time) {
                return;
            }
        }
    }

    /// The next thing that is heard on it. After trouble it is over; refused with `Memory`.
    pub(crate) fn next(&mut self, own: &Expected, secret: &Secret) -> Result<Option<Heard>, Trouble>
        ensures heard { IfOk result (λ o. IfSome o (λ h. HearsNext own.now secret.now self.old.channel h self.new.channel)) }
        ensures over { self.old.over ≡ true → (result ≡ Ok None) × (self.new ≡ self.old) }
    {
        if self.over {
            return Ok(None);
        }
        let heard = self.channel.next(own, secret);
        if let Err(trouble) = &heard {
            if !matches!(trouble, Trouble::Refused(_)) {
                self.over = true;
            }
        }
        heard
    }

    /// The next thing that is heard on it behind a greeting.
    pub(crate) fn hear(
        &mut self,
        own: &Expected,
        secret: &Secret,
    ) -> Result<Option<Heard>, Trouble> {
        match self.next(own, secret)? {
            Some(Heard::Greeted { .. }) => self.next(own, secret),
            heard => Ok(heard),
        }
    }

    /// Gives it up where it was silent for too long, and says that this end is still here where nothing else was said for long.
    pub(crate) fn keep(&mut self, time: u64) -> Result<(), Fault> {
        if time.saturating_sub(self.heard) > SILENCE {
            self.over = true;
            return Ok(());
        }
        if self.is_met() && time.saturating_sub(self.said) > WORD {
            self.said = time;
            self.channel.say_here()?;
        }
        Ok(())
    }

    /// Sends a parcel.
    pub(crate) fn say_parcel(&mut self, number: u64, bytes: &[u8]) -> Result<(), Fault> {
        self.channel.say_parcel(number, bytes)
    }

    /// Tells that all below this number were taken.
    pub(crate) fn say_taken(&mut self, below: u64) -> Result<(), Fault> {
        self.channel.say_taken(below)
    }
}
