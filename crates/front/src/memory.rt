//! A line in memory.
ghost use Rattle.std.specs.Prelude.{◌≡◌, ◌<◌, []};
ghost use Rattle.front.specs.Lines.{raised};
ghost use Rattle.front.specs.Memory.{MemoryValue, line_of};

use crate::line::Line;
use std::alloc::Global;
use std::marker::Model;

/// Which call of a line in memory fails: none, or the read or the write of this number, the first being 1.
#[derive(Clone, Copy)]
pub enum Failing {
    /// None.
    Never,
    /// One read.
    Read(u64),
    /// One write.
    Write(u64),
}

impl Failing {
    fn is_read(self, number: u64) -> bool {
        matches!(self, Failing::Read(failing) if failing == number)
    }

    fn is_write(self, number: u64) -> bool {
        matches!(self, Failing::Write(failing) if failing == number)
    }
}

// How much had come, and how much had gone, when the line was waited for.
#[derive(Clone, Copy)]
struct Mark {
    heard: usize,
    said: usize,
}

/// A line over bytes in memory, for tests: it gives and takes a few bytes in a call, and fails where it is told to, or
/// where memory is refused. It tells all of its bytes, and what had come and gone before each read.
#[derive(Drop)]
pub struct MemoryLine {
    input: Vec<u8>,
    // How many bytes of the input were read.
    at: usize,
    output: Vec<u8>,
    // How many bytes a call gives or takes, at most.
    step: usize,
    failing: Failing,
    reads: u64,
    writes: u64,
    endings: u64,
    failures: u64,
    // Each read that didn't fail.
    marks: Vec<Mark>,
}

impl Model for MemoryLine {
    ghost use Rattle.std.specs.Prelude.{◌≡◌, ◌≤◌, ◌<◌, All, length, map, take, drop};
    ghost use Rattle.front.specs.Memory.{MemoryValue, moment_at};

    ghost Value = { MemoryValue };

    ghost view = { λ l. record { heard = take l.at l.input.items; unread = drop l.at l.input.items; said = l.output.items; endings = l.endings; reads = l.reads; writes = l.writes; failing = l.failing; failures = l.failures; moments = map (moment_at l.input.items l.output.items) l.marks.items } };

    ghost invariant = { λ l. (0 < l.step) × (l.at ≤ length l.input.items) × (0 < l.endings → l.at ≡ length l.input.items) × All (λ mark. mark.said ≤ length l.output.items) l.marks.items };
}

impl MemoryLine {
    /// A line over this input, of which nothing is read yet. Each call gives or takes at most `step` bytes.
    pub fn new(alloc: Global, input: Vec<u8>, step: usize, failing: Failing) -> MemoryLine
        requires { 0 < step }
        ensures { result ≡ record { heard = []; unread = input.items; said = []; endings = 0; reads = 0; writes = 0; failing = failing; failures = 0; moments = [] } }
    {
        MemoryLine {
            input,
            at: 0,
            output: Vec::new(alloc),
            step,
            failing,
            reads: 0,
            writes: 0,
            endings: 0,
            failures: 0,
            marks: Vec::new(alloc),
        }
    }

    /// What was written.
    pub fn said(&self) -> &[u8]
        ensures { result.now ≡ self.now.said }
    {
        &self.output
    }

    /// What wasn't read: nothing where the end of input was told.
    pub fn unread(&self) -> &[u8]
        ensures rest { result.now ≡ self.now.unread }
        ensures none { 0 < self.now.endings → result.now ≡ [] }
    {
        &self.input[self.at..]
    }

    fn fail(&mut self) -> Option<usize>
        ensures none { result ≡ None }
        ensures counted { self.new ≡ record self.old { failures = raised self.old.failures } }
    {
        self.failures = self.failures.saturating_add(1);
        None
    }
}

impl Line for MemoryLine {
    ghost seen = { line_of };

    fn read(&mut self, buffer: &mut [u8]) -> Option<usize> {
        self.reads = self.reads.saturating_add(1);
        if self.failing.is_read(self.reads) {
            return self.fail();
        }
        let mark = Mark {
            heard: self.at,
            said: self.output.len(),
        };
        if self.marks.push(mark).is_err() {
            return self.fail();
        }
        let rest = &self.input[self.at..];
        if rest.is_empty() {
            self.endings = self.endings.saturating_add(1);
            return Some(0);
        }
        let n = self.step.min(rest.len()).min(buffer.len());
        buffer[..n].copy_from_slice(&rest[..n]);
        self.at += n;
        Some(n)
    }

    fn write(&mut self, piece: &[u8]) -> Option<usize> {
        self.writes = self.writes.saturating_add(1);
        if self.failing.is_write(self.writes) {
            return self.fail();
        }
        let n = self.step.min(piece.len());
        if self.output.extend_from_slice(&piece[..n]).is_err() {
            return self.fail();
        }
        Some(n)
    }

    fn failures(&self) -> u64 {
        self.failures
    }
}
