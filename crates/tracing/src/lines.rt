//! The lines of a transcript.
ghost use Rattle.std.specs.Prelude.{◌≡◌, ◌<◌, ◌≤◌, ℕ, List, [], ◌∷◌, length, IfSome, IsNone, IfOk, IfErr, OnOk};
ghost use Rattle.program.specs.Outputs.{Adds};
ghost use Rattle.tracing.specs.Lines.{lines_of, quoted};
ghost use Rattle.tracing.specs.Tracing.{HasCut, HasGrown, Shows};

use crate::pieces::put;
use logical_time::Fault;
use program::Output;
use std::io::Write;

// The first line of a text, without its end, and what stands behind it. None where the text has no byte.
fn first_line(text: &[u8]) -> Option<(&[u8], &[u8])>
    ensures first { IfSome result (λ r. lines_of text.now ≡ r.0.now ∷ lines_of r.1.now) }
    ensures shorter { IfSome result (λ r. length r.1.now < length text.now) }
    ensures none { IsNone result → text.now ≡ [] }
{
    for end in 0..text.len() {
        if text[end] == b'\n' {
            return Some((&text[..end], &text[end + 1..]));
        }
    }
    if 0 < text.len() {
        return Some((text, &[]));
    }
    None
}

// A line between quotes.
fn put_line<W: Write>(output: &mut Output<W>, line: &[u8]) -> Result<(), Fault>
    ensures { Adds W.contents output.old output.new result (quoted line.now) }
{
    output.put(b"\"")?;
    output.put(line)?;
    output.put(b"\"")
}

// Words, and then a line as a text of JSON: each of its characters stands for itself.
fn put_quoted<W: Write>(output: &mut Output<W>, words: &[u8], line: &[u8]) -> Result<(), Fault>
    ensures grown { HasGrown W.contents output.old output.new }
    ensures told { OnOk result ((text rest : List ℕ) → lines_of text ≡ line.now ∷ lines_of rest → Shows W.contents output.old output.new text rest) }
    ensures failed { IfErr result (HasCut output.new) }
{
    put(output, words)?;
    put_line(output, line)
}

/// The end of an event: the first lines of what the transcript has left, so many. Gives what it has left then.
pub(crate) fn put_lines<'t, W: Write>(
    output: &mut Output<W>,
    text: &'t [u8],
    count: usize,
) -> Result<&'t [u8], Fault>
    ensures grown { HasGrown W.contents output.old output.new }
    ensures told { IfOk result (λ rest. Shows W.contents output.old output.new text.now rest.now) }
    ensures all { IfOk result (λ rest. length text.now ≤ count → rest.now ≡ []) }
    ensures failed { IfErr result (HasCut output.new) }
{
    let mut rest = text;
    for told in 0..count {
        let words: &[u8] = if told == 0 {
            b",\"transcript\":["
        } else {
            b","
        };
        if let Some((line, behind)) = first_line(rest) {
            put_quoted(output, words, line)?;
            rest = behind;
        }
    }
    put(
        output,
        if count == 0 {
            b",\"transcript\":[]}\n"
        } else {
            b"]}\n"
        },
    )?;
    Ok(rest)
}

/// The lines that no event has told, if there are any: none is left out.
pub(crate) fn put_rest<W: Write>(output: &mut Output<W>, text: &[u8]) -> Result<(), Fault>
    ensures grown { HasGrown W.contents output.old output.new }
    ensures told { OnOk result (Shows W.contents output.old output.new text.now []) }
    ensures failed { IfErr result (HasCut output.new) }
{
    if text.is_empty() {
        return Ok(());
    }
    put(output, b"{\"event\":\"end\"")?;
    put_lines(output, text, text.len())?;
    Ok(())
}
