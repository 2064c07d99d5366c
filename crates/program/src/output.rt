//! What the program writes.
ghost use Rattle.std.specs.Prelude.{◌≡◌, ◌≤◌, [], length, take, Err, IsSome, IsNone, IfOk, OnOk, OnErr, IfErr};
ghost use Rattle.std.specs.Io.KnownBytes.{Appends, Keeps};
ghost use Rattle.logical_time.specs.declared.fault.Fault.TheVariants as fault;
ghost use Rattle.program.specs.Outputs.{Adds, AppendsPart};

use crate::buffered::Buffered;
use logical_time::Fault;
use std::io;
use std::io::{ErrorKind, Write};

/// A writer that is not used after it has failed.
#[derive(Drop)]
pub struct Output<W> {
    /// The writer.
    pub writer: W,
    /// Why it failed, if it did.
    pub failure: Option<io::Error>,
}

impl<W: Write> Output<W> {
    /// An output that has not failed.
    pub fn new(writer: W) -> Output<W>
        ensures writer { result.writer ≡ writer }
        ensures sound { IsNone result.failure }
    {
        Output {
            writer,
            failure: None,
        }
    }

    // Writes some of the bytes, and gives how many: none where it was interrupted.
    fn write_some(&mut self, bytes: &[u8]) -> Result<usize, Fault>
        requires { IsNone self.old.failure }
        ensures bound { IfOk result (λ n. n ≤ length bytes.now) }
        ensures sound { IfOk result (λ n. IsNone self.new.failure) }
        ensures some { IfOk result (λ n. Appends (W.contents self.old.writer) (W.contents self.new.writer) (take n bytes.now)) }
        ensures none { OnErr result (Keeps (W.contents self.old.writer) (W.contents self.new.writer)) }
        ensures failed { IfErr result (λ e. (e ≡ fault.WriteFailed) × IsSome self.new.failure) }
    {
        let error = match self.writer.write(bytes) {
            Ok(0) => io::Error::from(ErrorKind::WriteZero),
            Ok(count) => return Ok(count),
            Err(error) if error.kind() == ErrorKind::Interrupted => return Ok(0),
            Err(error) => error,
        };
        self.failure = Some(error);
        Err(Fault::WriteFailed)
    }

    /// Writes the bytes, without a `flush`. Refused with `WriteFailed` exactly where it has failed; then a beginning of them is
    /// written, and nothing where it had failed before. Takes no memory.
    #[inline]
    pub fn put(&mut self, bytes: &[u8]) -> Result<(), Fault>
        ensures adds { Adds W.contents self.old self.new result bytes.now }
        ensures spent { IsSome self.old.failure → (self.new ≡ self.old) × (result ≡ Err fault.WriteFailed) }
    {
        if self.failure.is_some() {
            return Err(Fault::WriteFailed);
        }
        let mut written = 0;
        for _ in 0..u64::MAX {
            if written == bytes.len() {
                return Ok(());
            }
            written += self.write_some(&bytes[written..])?;
        }
        self.failure = Some(io::Error::from(ErrorKind::Interrupted));
        Err(Fault::WriteFailed)
    }
}

impl<W: Buffered> Output<W> {
    /// Passes on what was written: then the writer holds nothing back. Refused with `WriteFailed` exactly where it has failed,
    /// and nothing changes where it had failed before. Takes no memory.
    pub fn flush(&mut self) -> Result<(), Fault>
        ensures same { Keeps (W.contents self.old.writer) (W.contents self.new.writer) }
        ensures passed_on { OnOk result (W.held self.new.writer ≡ []) }
        ensures sound { OnOk result (IsNone self.new.failure) }
        ensures failed { IfErr result (λ e. (e ≡ fault.WriteFailed) × IsSome self.new.failure) }
        ensures spent { IsSome self.old.failure → (self.new ≡ self.old) × (result ≡ Err fault.WriteFailed) }
    {
        if self.failure.is_none() {
            match self.writer.hand_on() {
                Ok(()) => return Ok(()),
                Err(error) => self.failure = Some(error),
            }
        }
        Err(Fault::WriteFailed)
    }

    /// Writes the bytes and passes them on: then the writer holds nothing back. Refused with `WriteFailed` exactly where it has
    /// failed; then a beginning of them is written, and nothing where it had failed before.
    pub fn write_all(&mut self, bytes: &[u8]) -> Result<(), Fault>
        ensures whole { OnOk result (Appends (W.contents self.old.writer) (W.contents self.new.writer) bytes.now) }
        ensures passed_on { OnOk result (W.held self.new.writer ≡ []) }
        ensures sound { OnOk result (IsNone self.new.failure) }
        ensures part { OnErr result (AppendsPart (W.contents self.old.writer) (W.contents self.new.writer) bytes.now) }
        ensures failed { IfErr result (λ e. (e ≡ fault.WriteFailed) × IsSome self.new.failure) }
        ensures spent { IsSome self.old.failure → (self.new ≡ self.old) × (result ≡ Err fault.WriteFailed) }
    {
        self.put(bytes)?;
        self.flush()
    }
}
