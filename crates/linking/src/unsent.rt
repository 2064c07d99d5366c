//! The bytes that are to be written.
ghost use Rattle.std.specs.Prelude.{◌≡◌, ◌⊎◌, ◌≤◌, ◌<◌, ◌^◌, ◌++◌, [], length, drop, OnOk, OnErr, IfErr};
ghost use Rattle.logical_time.specs.declared.fault.Fault.TheVariants.{Memory};
ghost use Rattle.peers.specs.Frames.{frame};

use logical_time::Fault;
use peers::{drop_front, framed};
use std::alloc::Global;
use std::marker::Model;

/// The bytes that are to be written. Contracts see these bytes.
#[derive(Drop)]
pub struct Unsent {
    // The bytes from `start` on are those that are left.
    bytes: Vec<u8>,
    start: usize,
}

impl Model for Unsent {
    ghost use Rattle.std.specs.Prelude.{ℕ, List, ◌≤◌, length, drop};

    ghost Value = { List ℕ };

    ghost view = { λ u. drop u.start u.bytes.items };

    ghost invariant = { λ u. u.start ≤ length u.bytes.items };
}

impl Unsent {
    /// Nothing is to be written.
    pub(crate) fn new(alloc: Global) -> Unsent
        ensures { result ≡ [] }
    {
        Unsent {
            bytes: Vec::new(alloc),
            start: 0,
        }
    }

    /// The bytes.
    pub(crate) fn bytes(&self) -> &[u8]
        ensures { result.now ≡ self.now }
    {
        &self.bytes[self.start..]
    }

    /// Puts the frame of a body of less than 2^32 bytes behind the others. Refused with `Memory`; then nothing changes. Over many
    /// calls linear in the bodies: bytes are moved only where as many were written.
    pub(crate) fn put(&mut self, body: &[u8]) -> Result<(), Fault>
        requires { length body.now < 2 ^ 32 }
        ensures ok { OnOk result (self.new ≡ self.old ++ frame body.now) }
        ensures refused { IfErr result (λ f. f ≡ Memory) }
        ensures stays { OnErr result (self.new ≡ self.old) }
    {
        if self.start >= self.bytes.len() - self.start {
            drop_front(&mut self.bytes, self.start);
            self.start = 0;
        }
        framed(&mut self.bytes, body)
    }

    /// Drops the first bytes, which were written. Constant.
    pub(crate) fn sent(&mut self, count: usize)
        requires { count ≤ length self.old }
        ensures { self.new ≡ drop count self.old }
    {
        self.start += count;
    }
}
