//! What bytes come and go by.
ghost use Rattle.std.specs.Prelude.{◌≡◌, ◌≤◌, ◌<◌, length, IfSome};
ghost use Rattle.front.specs.Lines.{LineValue, reads, writes};

/// Bytes that come, and bytes that go.
pub trait Line {
    /// The line as who serves it sees it.
    ghost seen: { Self → LineValue };

    /// How many bytes came, at the front of the buffer; 0 at the end of input. None where it failed.
    fn read(&mut self, buffer: &mut [u8]) -> Option<usize>
        requires { 0 < length buffer.old }
        ensures within { IfSome result (λ n. n ≤ length buffer.old) }
        ensures line { seen self.new ≡ reads buffer.new result (seen self.old) };

    /// How many bytes of the piece went, from its front: at least one. None where it failed.
    fn write(&mut self, piece: &[u8]) -> Option<usize>
        requires { 0 < length piece.now }
        ensures some { IfSome result (λ n. 0 < n) }
        ensures within { IfSome result (λ n. n ≤ length piece.now) }
        ensures line { seen self.new ≡ writes piece.now result (seen self.old) };

    /// How many calls failed. Each failure raises it, and it stays at its greatest value.
    fn failures(&self) -> u64
        ensures { result ≡ (seen self.now).failures };
}
