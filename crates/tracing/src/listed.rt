//! Lists of JSON.
ghost use Rattle.std.specs.Prelude.{IfErr};
ghost use Rattle.tracing.specs.Tracing.{HasCut, HasGrown};

use crate::pieces::put;
use logical_time::Fault;
use program::Output;
use std::io::Write;

/// What is told as an item of a list.
pub(crate) trait Listed {
    /// Writes it, as a value of JSON.
    fn put<W: Write>(&self, output: &mut Output<W>) -> Result<(), Fault>
        ensures grown { HasGrown W.contents output.old output.new }
        ensures failed { IfErr result (HasCut output.new) };
}

/// Words, and then a list.
pub(crate) fn put_list<T: Listed, W: Write>(
    output: &mut Output<W>,
    words: &[u8],
    items: &[T],
) -> Result<(), Fault>
    ensures grown { HasGrown W.contents output.old output.new }
    ensures failed { IfErr result (HasCut output.new) }
{
    put(output, words)?;
    let mut mark: &[u8] = b"[";
    for item in items {
        put(output, mark)?;
        item.put(output)?;
        mark = b",";
    }
    put(output, if items.is_empty() { b"[]" } else { b"]" })
}
