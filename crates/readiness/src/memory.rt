//! A line in memory.
ghost use Rattle.std.specs.Prelude.{◌≡◌, ◌<◌, [], false, length};
ghost use Rattle.readiness.specs.Lines.{CameWithin, WentWithin, reads, writes};
ghost use Rattle.readiness.specs.Memory.{MemoryValue, line_of};

use crate::line::{Came, ReadyLine, Went};
use std::alloc::Global;
use std::marker::Model;

/// What a call of a line in memory does.
#[derive(Clone, Copy, PartialEq, Eq)]
pub enum Call {
    /// It isn't ready.
    Nothing,
    /// It gives or takes so many bytes, at most, and at least one.
    Bytes(usize),
    /// It fails.
    Fails,
}

/// A line over bytes in memory, for tests: each call is ready or not, or fails, as the next item of a list says; behind
/// the list each is ready. It tells all of its bytes.
#[derive(Drop)]
pub struct MemoryLine {
    input: Vec<u8>,
    // How many bytes of the input were read.
    at: usize,
    output: Vec<u8>,
    calls: Vec<Call>,
    // How many calls there were.
    called: usize,
    endings: u64,
    failures: u64,
    dry: bool,
    full: bool,
}

impl Model for MemoryLine {
    ghost use Rattle.std.specs.Prelude.{◌≤◌, length, take, drop};
    ghost use Rattle.readiness.specs.Memory.{MemoryValue};

    ghost Value = { MemoryValue };

    ghost view = { λ l. record { heard = take l.at l.input.items; unread = drop l.at l.input.items; said = l.output.items; endings = l.endings; failures = l.failures; dry = l.dry; full = l.full } };

    ghost invariant = { λ l. l.at ≤ length l.input.items };
}

impl MemoryLine {
    /// A line over this input, of which nothing is read yet, and whose calls are these.
    pub fn new(alloc: Global, input: Vec<u8>, calls: Vec<Call>) -> MemoryLine
        ensures { result ≡ record { heard = []; unread = input.items; said = []; endings = 0; failures = 0; dry = false; full = false } }
    {
        MemoryLine {
            input,
            at: 0,
            output: Vec::new(alloc),
            calls,
            called: 0,
            endings: 0,
            failures: 0,
            dry: false,
            full: false,
        }
    }

    /// What was written.
    pub fn said(&self) -> &[u8]
        ensures { result.now ≡ self.now.said }
    {
        &self.output
    }

    // What the next call does.
    fn next_call(&mut self) -> Call
        ensures { self.new ≡ self.old }
    {
        let call = match self.calls.get(self.called) {
            Some(call) => *call,
            None => Call::Bytes(usize::MAX),
        };
        self.called = self.called.saturating_add(1);
        call
    }

    // Gives what it has, at most so many bytes and at least one.
    fn give(&mut self, most: usize, buffer: &mut [u8]) -> Came
        requires { 0 < length buffer.old }
        ensures within { CameWithin result (length buffer.old) }
        ensures line { line_of self.new ≡ reads buffer.new result (line_of self.old) }
    {
        let rest = &self.input[self.at..];
        if rest.is_empty() {
            self.endings = self.endings.saturating_add(1);
            return Came::End;
        }
        let n = most.max(1).min(rest.len()).min(buffer.len());
        buffer[..n].copy_from_slice(&rest[..n]);
        self.at += n;
        self.dry = false;
        Came::Bytes(n)
    }

    // Takes so many bytes of a piece, at most and at least one.
    fn take(&mut self, most: usize, piece: &[u8]) -> Went
        requires { 0 < length piece.now }
        ensures within { WentWithin result (length piece.now) }
        ensures line { line_of self.new ≡ writes piece.now result (line_of self.old) }
    {
        let n = most.max(1).min(piece.len());
        match self.output.extend_from_slice(&piece[..n]) {
            Ok(()) => {
                self.full = false;
                Went::Bytes(n)
            }
            Err(_) => {
                self.failures = self.failures.saturating_add(1);
                Went::Failed
            }
        }
    }
}

impl ReadyLine for MemoryLine {
    ghost seen = { line_of };

    fn read(&mut self, buffer: &mut [u8]) -> Came {
        match self.next_call() {
            Call::Nothing => {
                self.dry = true;
                Came::Nothing
            }
            Call::Bytes(most) => self.give(most, buffer),
            Call::Fails => {
                self.failures = self.failures.saturating_add(1);
                Came::Failed
            }
        }
    }

    fn write(&mut self, piece: &[u8]) -> Went {
        match self.next_call() {
            Call::Nothing => {
                self.full = true;
                Went::Nothing
            }
            Call::Bytes(most) => self.take(most, piece),
            Call::Fails => {
                self.failures = self.failures.saturating_add(1);
                Went::Failed
            }
        }
    }

    fn failures(&self) -> u64 {
        self.failures
    }
}
