//! Messages between actors.
ghost use Rattle.std.specs.Prelude.{◌≡◌};

use crate::body::Body;
use logical_time::{Fault, Node, Time};
use std::alloc::AllocError;

/// A message from one actor to another.
#[derive(Drop)]
pub struct Envelope {
    /// Who sent it.
    pub from: Node,
    /// Whom it is for.
    pub to: Node,
    /// What the sender's clock showed after the event that sent it.
    pub time: Time,
    /// What it says.
    pub body: Body,
}

impl Envelope {
    ghost use Rattle.std.specs.Prelude.{◌≡◌, IfOk};

    /// A copy, which shares the bytes of keys, names and values. Fails by memory alone.
    #[inline(always)]
    pub fn copied(&self) -> Result<Envelope, AllocError>
        ensures { IfOk result (λ copy. copy ≡ self.now) }
    {
        let body = self.body.copied()?;
        Ok(Envelope {
            from: self.from,
            to: self.to,
            time: self.time,
            body,
        })
    }
}

/// An envelope that wasn't taken, and why. It may come again.
#[derive(Drop)]
pub struct Refused {
    /// Why.
    pub fault: Fault,
    /// The envelope, handed back.
    pub envelope: Envelope,
}
