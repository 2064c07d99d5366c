//! A last reply.
ghost use Rattle.std.specs.Prelude.{◌≡◌, ◌==◌, ◌≤◌, [], length, drop};
ghost use Rattle.front.specs.Served.{IsRefusal};

use logical_time::Fault;
use std::marker::Model;
use wire::encode_refusal;

/// How many bytes a refusal has.
pub(crate) const REFUSAL_BYTES: usize = 7;

/// What is left of a last reply, which takes no memory.
#[derive(Drop)]
pub(crate) struct Last {
    bytes: [u8; REFUSAL_BYTES],
    gone: usize,
}

impl Model for Last {
    ghost use Rattle.std.specs.Prelude.{◌≤◌, List, ℕ, length, drop};

    ghost Value = { List ℕ };

    ghost view = { λ l. drop l.gone l.bytes };

    ghost invariant = { λ l. l.gone ≤ length l.bytes };
}

impl Last {
    /// No reply.
    pub(crate) fn none() -> Last
        ensures { result ≡ [] }
    {
        Last {
            bytes: [0; REFUSAL_BYTES],
            gone: REFUSAL_BYTES,
        }
    }

    /// A refusal of which all is left.
    pub(crate) fn refusal(fault: Fault) -> Last
        ensures { IsRefusal fault result }
    {
        Last {
            bytes: encode_refusal(fault),
            gone: 0,
        }
    }

    /// The bytes that are left.
    pub(crate) fn as_slice(&self) -> &[u8]
        ensures { result.now ≡ self.now }
    {
        &self.bytes[self.gone..]
    }

    /// Whether nothing is left.
    pub(crate) fn is_empty(&self) -> bool
        ensures { result ≡ (length self.now == 0) }
    {
        self.gone == REFUSAL_BYTES
    }

    /// So many bytes more have gone.
    pub(crate) fn advance(&mut self, count: usize)
        requires { count ≤ length self.old }
        ensures { self.new ≡ drop count self.old }
    {
        self.gone += count;
    }
}
