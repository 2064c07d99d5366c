//! What stands first in a stream.
ghost use Rattle.std.specs.Prelude.{◌≡◌, IfOk};
ghost use Rattle.wire.specs.Frames.{front_of};
ghost use Rattle.wire.specs.Seen.{seen};

use crate::error::FrameError;
use crate::reading::body;
use byteorder::{BigEndian, ByteOrder};
use logical_time::Fault;
use messages::Op;
use std::alloc::{AllocError, Global};

/// What stands first in a stream.
#[derive(Drop)]
pub(crate) enum Front {
    /// No whole frame yet.
    Waits,
    /// A fault.
    Faulty(Fault),
    /// A request, and the length of its frame.
    Whole(Op, usize),
}

/// How many bytes the body of a frame may have.
pub(crate) const LONGEST: usize = 16_777_216;

/// What stands first in the bytes. Looks at the length alone, until the frame is whole.
#[tactic(auto, unfolding(crate::specs::Frames::front_of))]
pub(crate) fn look(alloc: Global, bytes: &[u8]) -> Result<Front, AllocError>
    ensures { IfOk result (λ f. seen f ≡ front_of bytes.now) }
{
    if bytes.len() < 4 {
        return Ok(Front::Waits);
    }
    let length = BigEndian::read_u32(bytes) as usize;
    if length > LONGEST {
        return Ok(Front::Faulty(Fault::Oversize));
    }
    if bytes.len() < 4 + length {
        return Ok(Front::Waits);
    }
    match body(alloc, &bytes[4..4 + length]) {
        Ok(op) => Ok(Front::Whole(op, 4 + length)),
        Err(FrameError::Frame(fault)) => Ok(Front::Faulty(fault)),
        Err(FrameError::Memory) => Err(AllocError),
    }
}
