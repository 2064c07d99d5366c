//! Lists of writers.
ghost use Rattle.std.specs.Prelude.{◌≡◌, ◌∷◌, [], ◌↔◌, Contains, IfOk};
ghost use Rattle.std.specs.List.Sorted.{IsStrictlySortedBy};
ghost use Rattle.logical_time.specs.Stamps.{WriterValue, writer_cmp};

use crate::ids::Writer;
use std::alloc::AllocError;
use std::marker::Model;

/// Where writers are kept.
#[derive(Drop)]
enum WriterList {
    /// One in the handle: mostly one wrote all that is shown of a row.
    One([Writer; 1]),
    /// None, or more.
    Many(Vec<Writer>),
}

/// Transactions that something rests on, in order and each once. One alone takes no memory.
#[derive(Drop)]
pub struct Writers {
    kept: WriterList,
}

impl Model for Writers {
    ghost use Rattle.std.specs.Prelude.{List};
    ghost use Rattle.logical_time.specs.Stamps.{WriterValue};
    ghost use Rattle.logical_time.specs.Writers.{kept_in};

    ghost Value = { List WriterValue };

    ghost view = { λ list. kept_in list.kept };
}

/// A list that is kept may have room for so many more.
const SPARE: usize = 4;

/// The list without much room for more, since it is kept as long as the answer that it came with.
fn trimmed(mut writers: Vec<Writer>) -> Vec<Writer>
    ensures { result.items ≡ writers.items }
{
    if writers.capacity() - writers.len() > SPARE {
        writers.shrink_to_fit();
    }
    writers
}

impl Writers {
    /// These writers.
    pub fn from_vec(writers: Vec<Writer>) -> Writers
        ensures { result ≡ writers.items }
    {
        Writers {
            kept: WriterList::Many(writers),
        }
    }

    /// This writer alone. Takes no memory.
    pub fn one(writer: Writer) -> Writers
        ensures { result ≡ writer ∷ [] }
    {
        Writers {
            kept: WriterList::One([writer]),
        }
    }

    /// These writers in the order of their transactions' numbers, each once. In the order of n log n for n writers, and
    /// linear where they are two lists in order, one after the other.
    pub fn sorted(mut writers: Vec<Writer>) -> Result<Writers, AllocError>
        ensures same { IfOk result (λ all. (w : WriterValue) → Contains all w ↔ Contains writers.items w) }
        ensures sorted { IfOk result (λ all. IsStrictlySortedBy writer_cmp all) }
    {
        writers.sort()?;
        writers.dedup();
        Ok(Writers::from_vec(trimmed(writers)))
    }

    /// The writers.
    pub fn as_slice(&self) -> &[Writer]
        ensures { result.now ≡ self.now }
    {
        match &self.kept {
            WriterList::One(writer) => writer.as_slice(),
            WriterList::Many(writers) => writers.as_slice(),
        }
    }
}

impl Clone for Writers {
    ghost is_clone = { λ list copy. copy ≡ list };

    fn clone(&self) -> Result<Writers, AllocError> {
        let kept = match &self.kept {
            WriterList::One(writer) => WriterList::One(*writer),
            WriterList::Many(writers) => WriterList::Many(writers.clone()?),
        };
        Ok(Writers { kept })
    }
}
