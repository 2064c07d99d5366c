//! What bytes come and go by, where no call waits.
ghost use Rattle.std.specs.Prelude.{◌≡◌, ◌<◌, length};
ghost use Rattle.readiness.specs.Lines.{ReadyValue, reads, writes, CameWithin, WentWithin};

/// What a read gave.
#[derive(Clone, Copy, PartialEq, Eq)]
pub enum Came {
    /// So many bytes, at least one, at the front of the buffer.
    Bytes(usize),
    /// Nothing yet. The line tells when there is more.
    Nothing,
    /// The end of input.
    End,
    /// It failed.
    Failed,
}

/// What a write gave.
#[derive(Clone, Copy, PartialEq, Eq)]
pub enum Went {
    /// So many bytes went, at least one, from the front of the piece.
    Bytes(usize),
    /// There is no room yet. The line tells when there is.
    Nothing,
    /// It failed.
    Failed,
}

/// Bytes that come, and bytes that go; no call waits.
pub trait ReadyLine {
    /// The line as who serves it sees it.
    ghost seen: { Self → ReadyValue };

    /// What has come.
    fn read(&mut self, buffer: &mut [u8]) -> Came
        requires { 0 < length buffer.old }
        ensures within { CameWithin result (length buffer.old) }
        ensures line { seen self.new ≡ reads buffer.new result (seen self.old) };

    /// What of the piece has gone.
    fn write(&mut self, piece: &[u8]) -> Went
        requires { 0 < length piece.now }
        ensures within { WentWithin result (length piece.now) }
        ensures line { seen self.new ≡ writes piece.now result (seen self.old) };

    /// How many calls failed. Each failure raises it, and it stays at its greatest value.
    fn failures(&self) -> u64
        ensures { result ≡ (seen self.now).line.failures };
}
