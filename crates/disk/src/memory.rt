//! A file in memory. It keeps what it held at first and each step since, so a crash may leave all that the contract
//! allows.
ghost use Rattle.std.specs.Prelude.{◌≡◌, ◌++◌, ◌∷◌, [], Some, true, false, length, IfOk, OnOk, OnErr};
ghost use Rattle.disk.specs.Disk.{Only};
ghost use Rattle.disk.specs.Memory.{left_of, LeftSince, counts, only, memory_bytes, MemoryLeaves, memory_failed};

use crate::disk::{Disk, DiskError};
use std::alloc::{AllocError, Global};

/// What a call of a file in memory does.
#[derive(Clone, Copy, PartialEq, Eq)]
pub enum Call {
    /// What was asked.
    Works,
    /// Nothing: it fails.
    Fails,
}

/// What was done to a file in memory.
#[derive(Drop)]
pub(crate) enum Step {
    /// Something was added.
    Added,
    /// It was cut to so many bytes.
    Shortened(usize),
    /// It was synced, and held this.
    Synced(Vec<u8>),
}

/// A file in memory, for tests: each call of it works or fails as the next item of a list says, and behind the list
/// each works.
#[derive(Drop)]
pub struct Memory {
    alloc: Global,
    first: Vec<u8>,
    bytes: Vec<u8>,
    steps: Vec<Step>,
    calls: Vec<Call>,
    // How many calls there were.
    called: usize,
    failed: bool,
}

impl Memory {
    /// A file that holds these bytes, all of them on the disk, and whose calls are these.
    pub fn new(alloc: Global, bytes: Vec<u8>, calls: Vec<Call>) -> Result<Memory, AllocError>
        ensures bytes { IfOk result (λ m. memory_bytes m ≡ bytes.items) }
        ensures durable { IfOk result (λ m. Only bytes.items (MemoryLeaves m)) }
        ensures works { IfOk result (λ m. memory_failed m ≡ false) }
    {
        let first = bytes.to_vec(alloc)?;
        Ok(Memory {
            alloc,
            first,
            bytes,
            steps: Vec::new(alloc),
            calls,
            called: 0,
            failed: false,
        })
    }

    /// The bytes.
    pub fn bytes(&self) -> &[u8]
        ensures { result.now ≡ memory_bytes self.now }
    {
        &self.bytes
    }
}

// Whether the next of these calls fails: each does where one has failed.
fn fails_next(failed: bool, calls: &[Call], called: &mut usize) -> bool
    ensures { failed ≡ true → result ≡ true }
{
    let fails = match calls.get(*called) {
        Some(call) => *call == Call::Fails,
        None => false,
    };
    *called = called.saturating_add(1);
    failed || fails
}

// Notes a step.
fn note(steps: &mut Vec<Step>, step: Step) -> Result<(), AllocError>
    ensures ok { OnOk result (steps.new.items ≡ steps.old.items ++ step ∷ []) }
    ensures err { OnErr result (steps.new.items ≡ steps.old.items) }
{
    steps.push(step)?;
    Ok(())
}

impl Disk for Memory {
    ghost seen = { λ m. Some m.bytes.items };

    ghost may_leave = { MemoryLeaves };

    ghost moment = { λ m. length m.steps.items };

    ghost left_since = { λ m. LeftSince m.first.items m.steps.items };

    ghost failed = { memory_failed };

    ghost counts_now = { λ m. counts m.first.items m.steps.items };

    ghost only_now = { λ m. only m.first.items m.steps.items };

    fn append(&mut self, bytes: &Vec<u8>) -> Result<(), DiskError> {
        if fails_next(self.failed, &self.calls, &mut self.called) {
            self.failed = true;
            return Err(DiskError::Failed);
        }
        self.failed = true;
        note(&mut self.steps, Step::Added)?;
        self.bytes.extend_from_slice(bytes)?;
        self.failed = false;
        Ok(())
    }

    fn cut(&mut self, len: usize) -> Result<(), DiskError> {
        if fails_next(self.failed, &self.calls, &mut self.called) {
            self.failed = true;
            return Err(DiskError::Failed);
        }
        self.failed = true;
        note(&mut self.steps, Step::Shortened(len))?;
        self.bytes.truncate(len);
        self.failed = false;
        Ok(())
    }

    fn sync(&mut self) -> Result<(), DiskError> {
        if fails_next(self.failed, &self.calls, &mut self.called) {
            self.failed = true;
            return Err(DiskError::Failed);
        }
        self.failed = true;
        let file = self.bytes.to_vec(self.alloc)?;
        note(&mut self.steps, Step::Synced(file))?;
        self.failed = false;
        Ok(())
    }

    fn has_failed(&self) -> bool {
        self.failed
    }
}
