//! Pieces of JSON, written without memory.
ghost use Rattle.std.specs.Prelude.{◌≡◌, ◌≤◌, ◌*◌, length, IsSome, IfErr};
ghost use Rattle.logical_time.specs.declared.fault.Fault.TheVariants as fault;
ghost use Rattle.tracing.specs.Tracing.{HasCut, HasGrown};

use itoa::Buffer;
use logical_time::Fault;
use program::Output;
use std::io::Write;
use std::str;

/// How many bytes are few: their digits are put together on the stack before they are written.
const FEW: usize = 64;

/// How long words before a number are mostly at most: they are put together with it before they are written.
const WORDS: usize = 64;

/// How many digits a number has at most.
const MOST_DIGITS: usize = 20;

/// How many bytes are short: their digits and their text are put together before they are written.
const SHORT: usize = 32;

/// The digits of a control byte.
const DIGITS: &[u8; 16] = b"0123456789abcdef";

/// Bytes.
pub(crate) fn put<W: Write>(output: &mut Output<W>, bytes: &[u8]) -> Result<(), Fault>
    ensures grown { HasGrown W.contents output.old output.new }
    ensures failed { IfErr result (HasCut output.new) }
{
    output.put(bytes)
}

// Words, and then digits.
fn put_pair<W: Write>(output: &mut Output<W>, words: &[u8], digits: &[u8]) -> Result<(), Fault>
    ensures grown { HasGrown W.contents output.old output.new }
    ensures failed { IfErr result (HasCut output.new) }
{
    if WORDS < words.len() || MOST_DIGITS < digits.len() {
        put(output, words)?;
        return put(output, digits);
    }
    let mut text = [0; WORDS + MOST_DIGITS];
    let end = words.len() + digits.len();
    text[..words.len()].copy_from_slice(words);
    text[words.len()..end].copy_from_slice(digits);
    put(output, &text[..end])
}

/// Words, and then a number.
#[inline]
pub(crate) fn put_number<W: Write>(
    output: &mut Output<W>,
    words: &[u8],
    number: u64,
) -> Result<(), Fault>
    ensures grown { HasGrown W.contents output.old output.new }
    ensures failed { IfErr result (HasCut output.new) }
{
    let mut buffer = Buffer::new();
    put_pair(output, words, buffer.format(number).as_bytes())
}

// Few bytes in hexadecimal.
fn put_few<W: Write>(output: &mut Output<W>, bytes: &[u8]) -> Result<(), Fault>
    requires { length bytes.now ≤ 64 }
    ensures grown { HasGrown W.contents output.old output.new }
    ensures failed { IfErr result (HasCut output.new) }
{
    let mut digits = [0; 2 * FEW];
    let shown = &mut digits[..2 * bytes.len()];
    hex::encode_to_slice(bytes, shown).unwrap();
    put(output, shown)
}

// Bytes in hexadecimal, a few at a time.
fn put_digits<W: Write>(output: &mut Output<W>, bytes: &[u8]) -> Result<(), Fault>
    ensures grown { HasGrown W.contents output.old output.new }
    ensures failed { IfErr result (HasCut output.new) }
{
    let mut rest = bytes;
    while FEW < rest.len() {
        let (few, more) = rest.split_at(FEW);
        put_few(output, few)?;
        rest = more;
    }
    put_few(output, rest)
}

// Whether a byte stands for itself in a text of JSON.
fn is_plain(byte: u8) -> bool {
    32 <= byte && byte != b'"' && byte != b'\\'
}

// A byte that doesn't stand for itself.
fn put_escape<W: Write>(output: &mut Output<W>, byte: u8) -> Result<(), Fault>
    ensures grown { HasGrown W.contents output.old output.new }
    ensures failed { IfErr result (HasCut output.new) }
{
    if 32 <= byte {
        return put(output, &[b'\\', byte]);
    }
    let high = DIGITS[usize::from(byte / 16)];
    let low = DIGITS[usize::from(byte % 16)];
    put(output, &[b'\\', b'u', b'0', b'0', high, low])
}

// A text that has bytes that don't stand for themselves.
fn put_escaped<W: Write>(output: &mut Output<W>, text: &[u8]) -> Result<(), Fault>
    ensures grown { HasGrown W.contents output.old output.new }
    ensures failed { IfErr result (HasCut output.new) }
{
    for byte in text {
        if is_plain(*byte) {
            put(output, &[*byte])?;
        } else {
            put_escape(output, *byte)?;
        }
    }
    Ok(())
}

// What stands between the quotes of a text of JSON.
fn put_text<W: Write>(output: &mut Output<W>, text: &[u8]) -> Result<(), Fault>
    ensures grown { HasGrown W.contents output.old output.new }
    ensures failed { IfErr result (HasCut output.new) }
{
    if text.iter().all(|byte| is_plain(*byte)) {
        return put(output, text);
    }
    put_escaped(output, text)
}

// Whether a byte is a character that stands for itself.
fn is_letter(byte: u8) -> bool {
    byte < 127 && is_plain(byte)
}

// Few bytes, each a character that stands for itself: their digits, and their text.
fn put_short<W: Write>(output: &mut Output<W>, bytes: &[u8]) -> Result<(), Fault>
    requires { length bytes.now ≤ 32 }
    ensures grown { HasGrown W.contents output.old output.new }
    ensures failed { IfErr result (HasCut output.new) }
{
    let mut text = [0; 8 + 2 * SHORT + 10 + SHORT + 2];
    let middle = 8 + 2 * bytes.len();
    let start = middle + 10;
    let end = start + bytes.len();
    text[..8].copy_from_slice(b"{\"hex\":\"");
    hex::encode_to_slice(bytes, &mut text[8..middle]).unwrap();
    text[middle..start].copy_from_slice(b"\",\"text\":\"");
    text[start..end].copy_from_slice(bytes);
    text[end] = b'"';
    text[end + 1] = b'}';
    put(output, &text[..end + 2])
}

// Any bytes: their digits, and the text that they are, if they are one.
fn put_long<W: Write>(output: &mut Output<W>, bytes: &[u8]) -> Result<(), Fault>
    ensures grown { HasGrown W.contents output.old output.new }
    ensures failed { IfErr result (HasCut output.new) }
{
    put(output, b"{\"hex\":\"")?;
    put_digits(output, bytes)?;
    if str::from_utf8(bytes).is_ok() {
        put(output, b"\",\"text\":\"")?;
        put_text(output, bytes)?;
    }
    put(output, b"\"}")
}

/// Words, and then bytes: their digits, and the text that they are, if they are one.
pub(crate) fn put_bytes<W: Write>(
    output: &mut Output<W>,
    words: &[u8],
    bytes: &[u8],
) -> Result<(), Fault>
    ensures grown { HasGrown W.contents output.old output.new }
    ensures failed { IfErr result (HasCut output.new) }
{
    put(output, words)?;
    if bytes.len() <= SHORT && bytes.iter().all(|byte| is_letter(*byte)) {
        return put_short(output, bytes);
    }
    put_long(output, bytes)
}
