//! Writers that tell what they hold back.
ghost use Rattle.std.specs.Prelude.{◌≡◌, [], ℕ, List, OnOk};
ghost use Rattle.std.specs.Io.KnownBytes.{Keeps};
ghost use Rattle.std.specs.Io.Buffered.{writer_buffer};

use std::alloc::Allocator;
use std::io;
use std::io::{BufWriter, Stderr, Write};

/// A writer that tells what it holds back.
pub trait Buffered: Write {
    /// The bytes that were written to it and that it hasn't handed on yet.
    ghost held: { Self → List ℕ };

    /// Hands on what it holds back. Where it fails, some of that may still be held back.
    fn hand_on(&mut self) -> io::Result<()>
        ensures same { Keeps (Self.contents self.old) (Self.contents self.new) }
        ensures none_held { OnOk result (held self.new ≡ []) };
}

impl<W: Write + Drop, A: Allocator> Buffered for BufWriter<W, A> {
    ghost held = { writer_buffer };

    fn hand_on(&mut self) -> io::Result<()> {
        Write::flush(self)
    }
}

impl<A: Allocator> Buffered for Vec<u8, A> {
    ghost held = { λ _. [] };

    fn hand_on(&mut self) -> io::Result<()> {
        self.flush()
    }
}

impl Buffered for Stderr {
    ghost held = { λ _. [] };

    fn hand_on(&mut self) -> io::Result<()> {
        self.flush()
    }
}
