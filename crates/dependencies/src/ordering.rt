//! Writers put in order.
ghost use Rattle.std.specs.Prelude.{◌≡◌, ◌∷◌, [], ◌++◌, IfSome, IfOk, IfErr};
ghost use Rattle.messages.specs.Words.{in_writer_order};

use logical_time::{Fault, Writer, Writers};
use std::alloc::Global;

/// The one of these writers and those, if there is no other.
fn only(writers: &[Writer], others: &[Writer]) -> Option<Writer>
    ensures { IfSome result (λ w. (writers.now ++ others.now) ≡ (w ∷ [])) }
{
    match (writers, others) {
        ([one], []) | ([], [one]) => Some(*one),
        _ => None,
    }
}

/// These writers and those in the order of their transactions' numbers, each once. In the order of n log n for n
/// writers. Refused with `Memory` alone.
#[inline]
pub(crate) fn in_order(
    alloc: Global,
    writers: &[Writer],
    others: &[Writer],
) -> Result<Writers, Fault>
    ensures ok { IfOk result (λ all. all ≡ in_writer_order (writers.now ++ others.now)) }
    ensures memory { IfErr result (λ e. e ≡ Fault.Memory) }
{
    if let Some(one) = only(writers, others) {
        return Ok(Writers::one(one));
    }
    let mut all = Vec::with_capacity(alloc, writers.len() + others.len())?;
    all.extend_from_slice(writers)?;
    all.extend_from_slice(others)?;
    Ok(Writers::sorted(all)?)
}
