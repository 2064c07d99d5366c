//! What sessions submit.
ghost use Rattle.std.specs.Prelude.{◌≡◌};

use crate::shared::Shared;
use column_family::Batch;
use slice::Read;
use std::alloc::{AllocError, Global};

/// What a session submits. Copies share what it asks.
#[derive(Drop, Clone)]
pub enum Op {
    /// A write transaction.
    Batch(Shared<Batch>),
    /// A read transaction.
    Read(Shared<Read>),
    /// The session moves to another data centre, which is its home from the end of the move on.
    Move {
        /// The number of the new home.
        dc: u16,
    },
}

impl Op {
    ghost use Rattle.std.specs.Prelude.{◌≡◌, IfOk};
    ghost use Rattle.messages.specs.declared.op.Op.TheVariants as op;

    /// The write transaction of a batch. Fails by memory alone.
    pub fn write(alloc: Global, batch: Batch) -> Result<Op, AllocError>
        ensures { IfOk result (λ made. made ≡ op.Batch batch) }
    {
        Ok(Op::Batch(Shared::new(alloc, batch)?))
    }

    /// A read transaction. Fails by memory alone.
    pub fn read(alloc: Global, read: Read) -> Result<Op, AllocError>
        ensures { IfOk result (λ made. made ≡ op.Read read) }
    {
        Ok(Op::Read(Shared::new(alloc, read)?))
    }

    /// A copy, which shares what it asks. Fails by memory alone.
    pub fn copied(&self) -> Result<Op, AllocError>
        ensures { IfOk result (λ copy. copy ≡ self.now) }
    {
        self.clone()
    }
}
