//! The texts of transcripts, written piece by piece: no piece takes memory.
ghost use Rattle.std.specs.Prelude.{◌≡◌, ◌≤◌, ◌+◌, ◌*◌, ◌++◌, ◌∷◌, [], true, Err, IsSome, IsNone, IfOk, OnOk, OnErr, IfErr, length, take, codes, decimal};
ghost use Rattle.std.specs.List.{flat_map, list_all};
ghost use Rattle.std.specs.Io.KnownBytes.{Appends};
ghost use Rattle.hex.specs.Hex.{encode_lower};
ghost use Rattle.logical_time.specs.declared.fault.Fault.TheVariants as fault;
ghost use Rattle.program.specs.Outputs.{Adds, AppendsPart};
ghost use Rattle.workload.specs.Audited.{told_text};
ghost use Rattle.workload.specs.Text.{is_short_column, column_text, line_text, row_text, op_text, commit_text, answer_text, move_text, refusal_text, entry_text, text_of};

use crate::tail::{Tail, put_tail};
use crate::transcript::{Entry, Transcript};
use itoa::Buffer;
use logical_time::{Fault, Node, Stamp, Time};
use program::{Buffered, Output};
use slice::{AnsweredRow, Column};
use std::alloc::Global;
use std::io::Write;

/// How many bytes are few: their digits are put together on the stack before they are written.
const FEW: usize = 64;

/// How many bytes a key, a name or a value has at most that is written in one piece with what stands around it.
const SHORT: usize = 32;

/// How many short columns are written in one piece at most.
const COLUMNS: usize = 4;

/// How many bytes a few words and a number behind them have at most.
const NUMBER: usize = 56;

// A few bytes in hexadecimal.
fn put_few<W: Write>(output: &mut Output<W>, bytes: &[u8]) -> Result<(), Fault>
    requires { length bytes.now ≤ 64 }
    ensures { Adds W.contents output.old output.new result (encode_lower bytes.now) }
{
    let mut digits = [0; 2 * FEW];
    let shown = &mut digits[..2 * bytes.len()];
    hex::encode_to_slice(bytes, shown).unwrap();
    output.put(shown)
}

// A mark, and then a few bytes in hexadecimal.
fn put_marked_few<W: Write>(output: &mut Output<W>, mark: u8, bytes: &[u8]) -> Result<(), Fault>
    requires { length bytes.now ≤ 64 }
    ensures { Adds W.contents output.old output.new result (mark ∷ encode_lower bytes.now) }
{
    let mut text = [mark; 1 + 2 * FEW];
    let end = 1 + 2 * bytes.len();
    hex::encode_to_slice(bytes, &mut text[1..end]).unwrap();
    output.put(&text[..end])
}

// Many bytes in hexadecimal, a few at a time.
fn put_many<W: Write>(output: &mut Output<W>, bytes: &[u8]) -> Result<(), Fault>
    requires { IsNone output.old.failure }
    ensures { Adds W.contents output.old output.new result (encode_lower bytes.now) }
{
    let mut rest = bytes;
    while FEW < rest.len() {
        let (few, more) = rest.split_at(FEW);
        put_few(output, few)?;
        rest = more;
    }
    put_few(output, rest)
}

// A mark, and then bytes in hexadecimal.
#[inline(always)]
fn put_marked<W: Write>(output: &mut Output<W>, mark: u8, bytes: &[u8]) -> Result<(), Fault>
    ensures { Adds W.contents output.old output.new result (mark ∷ encode_lower bytes.now) }
{
    if bytes.len() <= FEW {
        return put_marked_few(output, mark, bytes);
    }
    output.put(&[mark])?;
    put_many(output, bytes)
}

// Whether a column's name and its value are short.
fn is_short(column: &Column) -> bool
    ensures { result ≡ is_short_column column.now }
{
    column.name.as_slice().len() <= SHORT && column.value.as_slice().len() <= SHORT
}

// Whether each of the columns is short.
fn are_short(columns: &[Column]) -> bool
    ensures { result ≡ list_all is_short_column columns.now }
{
    columns.iter().all(|column| is_short(column))
}

// Lays ` NAME=VALUE`, of a short name and a short value, at the beginning of a text: how many bytes it has.
fn lay_column(text: &mut [u8], name: &[u8], value: &[u8]) -> usize
    requires room { 130 ≤ length text.old }
    requires name { length name.now ≤ 32 }
    requires value { length value.now ≤ 32 }
    ensures laid { take result text.new ≡ codes " " ++ encode_lower name.now ++ codes "=" ++ encode_lower value.now }
    ensures length { length text.new ≡ length text.old }
    ensures most { result ≤ 130 }
{
    let middle = 1 + 2 * name.len();
    let end = middle + 1 + 2 * value.len();
    text[0] = b' ';
    hex::encode_to_slice(name, &mut text[1..middle]).unwrap();
    text[middle] = b'=';
    hex::encode_to_slice(value, &mut text[middle + 1..end]).unwrap();
    end
}

// Lays short columns one after the other at the beginning of a text: how many bytes they have.
#[inline(always)]
fn lay_columns(text: &mut [u8], columns: &[Column]) -> usize
    requires room { 130 * length columns.now ≤ length text.old }
    requires short { list_all is_short_column columns.now ≡ true }
    ensures laid { take result text.new ≡ flat_map column_text columns.now }
    ensures length { length text.new ≡ length text.old }
    ensures most { result ≤ 130 * length columns.now }
{
    let mut end = 0;
    for column in columns {
        let (name, value) = (column.name.as_slice(), column.value.as_slice());
        end += lay_column(&mut text[end..], name, value);
    }
    end
}

// Up to four short columns, in one piece.
fn put_short_columns<W: Write>(output: &mut Output<W>, columns: &[Column]) -> Result<(), Fault>
    requires few { length columns.now ≤ 4 }
    requires short { list_all is_short_column columns.now ≡ true }
    ensures { Adds W.contents output.old output.new result (flat_map column_text columns.now) }
{
    let mut text = [b' '; COLUMNS * (2 + 4 * SHORT)];
    let end = lay_columns(&mut text, columns);
    output.put(&text[..end])
}

// ` NAME=VALUE`, of any name and value.
fn put_long_column<W: Write>(output: &mut Output<W>, name: &[u8], value: &[u8]) -> Result<(), Fault>
    ensures { Adds W.contents output.old output.new result (codes " " ++ encode_lower name.now ++ codes "=" ++ encode_lower value.now) }
{
    put_marked(output, b' ', name)?;
    put_marked(output, b'=', value)
}

// ` NAME=VALUE`, of any column.
fn put_column<W: Write>(output: &mut Output<W>, column: &Column) -> Result<(), Fault>
    ensures { Adds W.contents output.old output.new result (column_text column.now) }
{
    put_long_column(output, column.name.as_slice(), column.value.as_slice())
}

// Each column, in order.
fn put_each_column<W: Write>(output: &mut Output<W>, columns: &[Column]) -> Result<(), Fault>
    requires { IsNone output.old.failure }
    ensures { Adds W.contents output.old output.new result (flat_map column_text columns.now) }
{
    for column in columns {
        put_column(output, column)?;
    }
    Ok(())
}

// Up to four columns, in order.
#[inline]
fn put_few_columns<W: Write>(output: &mut Output<W>, columns: &[Column]) -> Result<(), Fault>
    requires few { length columns.now ≤ 4 }
    requires sound { IsNone output.old.failure }
    ensures { Adds W.contents output.old output.new result (flat_map column_text columns.now) }
{
    if are_short(columns) {
        put_short_columns(output, columns)
    } else {
        put_each_column(output, columns)
    }
}

// Each column, in order, four at a time.
fn put_columns<W: Write>(output: &mut Output<W>, columns: &[Column]) -> Result<(), Fault>
    requires { IsNone output.old.failure }
    ensures { Adds W.contents output.old output.new result (flat_map column_text columns.now) }
{
    let mut rest = columns;
    while COLUMNS < rest.len() {
        let (few, more) = rest.split_at(COLUMNS);
        put_few_columns(output, few)?;
        rest = more;
    }
    put_few_columns(output, rest)
}

// `  KEY:`, of any key.
fn put_key<W: Write>(output: &mut Output<W>, key: &[u8]) -> Result<(), Fault>
    ensures { Adds W.contents output.old output.new result (codes "  " ++ encode_lower key.now ++ codes ":") }
{
    output.put(b" ")?;
    put_marked(output, b' ', key)?;
    output.put(b":")
}

// `  KEY:`, then each column, and the end of the line, of any key and columns.
fn put_long_row<W: Write>(
    output: &mut Output<W>,
    key: &[u8],
    columns: &[Column],
) -> Result<(), Fault>
    ensures { Adds W.contents output.old output.new result (line_text key.now columns.now) }
{
    put_key(output, key)?;
    put_columns(output, columns)?;
    output.put(b"\n")
}

// Lays `  KEY:`, of a short key, at the beginning of a text: how many bytes it has.
fn lay_key(text: &mut [u8], key: &[u8]) -> usize
    requires room { 67 ≤ length text.old }
    requires key { length key.now ≤ 32 }
    ensures laid { take result text.new ≡ codes "  " ++ encode_lower key.now ++ codes ":" }
    ensures length { length text.new ≡ length text.old }
    ensures most { result ≤ 67 }
{
    let end = 2 + 2 * key.len();
    text[0] = b' ';
    text[1] = b' ';
    hex::encode_to_slice(key, &mut text[2..end]).unwrap();
    text[end] = b':';
    end + 1
}

// Lays the line of a short key and of up to four short columns at the beginning of a text: how many bytes it has.
fn lay_row(text: &mut [u8], key: &[u8], columns: &[Column]) -> usize
    requires room { 588 ≤ length text.old }
    requires key { length key.now ≤ 32 }
    requires few { length columns.now ≤ 4 }
    requires short { list_all is_short_column columns.now ≡ true }
    ensures laid { take result text.new ≡ line_text key.now columns.now }
    ensures most { result ≤ length text.new }
{
    let middle = lay_key(text, key);
    let end = middle + lay_columns(&mut text[middle..], columns);
    text[end] = b'\n';
    end + 1
}

// The line of a short key and of up to four short columns, in one piece.
fn put_short_row<W: Write>(
    output: &mut Output<W>,
    key: &[u8],
    columns: &[Column],
) -> Result<(), Fault>
    requires key { length key.now ≤ 32 }
    requires few { length columns.now ≤ 4 }
    requires short { list_all is_short_column columns.now ≡ true }
    ensures { Adds W.contents output.old output.new result (line_text key.now columns.now) }
{
    let mut text = [0; 4 + 2 * SHORT + COLUMNS * (2 + 4 * SHORT)];
    let end = lay_row(&mut text, key, columns);
    output.put(&text[..end])
}

// `  KEY:`, then each column, and the end of the line.
fn put_line<W: Write>(output: &mut Output<W>, key: &[u8], columns: &[Column]) -> Result<(), Fault>
    ensures { Adds W.contents output.old output.new result (line_text key.now columns.now) }
{
    if key.len() <= SHORT && columns.len() <= COLUMNS && are_short(columns) {
        put_short_row(output, key, columns)
    } else {
        put_long_row(output, key, columns)
    }
}

// The line of a row.
fn put_row<W: Write>(output: &mut Output<W>, row: &AnsweredRow) -> Result<(), Fault>
    ensures { Adds W.contents output.old output.new result (row_text row.now) }
{
    put_line(output, row.key.as_slice(), row.columns.as_slice())
}

/// Writes the lines of rows, in order, as a transcript has them, to an output that hasn't failed, and passes nothing on. Refused
/// with `WriteFailed` exactly where the output has failed; then a beginning of the lines is written. Linear in them. Takes no
/// memory.
pub fn put_rows<W: Write>(output: &mut Output<W>, rows: &[AnsweredRow]) -> Result<(), Fault>
    requires { IsNone output.old.failure }
    ensures { Adds W.contents output.old output.new result (flat_map row_text rows.now) }
{
    for row in rows {
        put_row(output, row)?;
    }
    Ok(())
}

/// Lays a few words, and then a number, at the beginning of a text: how many bytes they have.
#[inline(always)]
pub(crate) fn lay_number(text: &mut [u8], words: &[u8], number: u64) -> usize
    requires room { 56 ≤ length text.old }
    requires words { length words.now ≤ 16 }
    ensures laid { take result text.new ≡ words.now ++ decimal number }
    ensures length { length text.new ≡ length text.old }
    ensures most { result ≤ 56 }
{
    let mut buffer = Buffer::new();
    let digits = buffer.format(number).as_bytes();
    let middle = words.len();
    let end = middle + digits.len();
    text[..middle].copy_from_slice(words);
    text[middle..end].copy_from_slice(digits);
    end
}

// Lays `node N op M`: how many bytes it has.
fn lay_op(text: &mut [u8], node: Node, number: u64) -> usize
    requires { 112 ≤ length text.old }
    ensures laid { take result text.new ≡ op_text node number }
    ensures length { length text.new ≡ length text.old }
    ensures most { result ≤ 112 }
{
    let middle = lay_number(text, b"node ", u64::from(node.get()));
    middle + lay_number(&mut text[middle..], b" op ", number)
}

// Lays ` stamp T.K`: how many bytes it has.
fn lay_stamp(text: &mut [u8], stamp: Stamp) -> usize
    requires { 112 ≤ length text.old }
    ensures laid { take result text.new ≡ codes " stamp " ++ decimal stamp.time ++ codes "." ++ decimal stamp.node }
    ensures length { length text.new ≡ length text.old }
    ensures most { result ≤ 112 }
{
    let middle = lay_number(text, b" stamp ", stamp.time().get());
    middle + lay_number(&mut text[middle..], b".", u64::from(stamp.node().get()))
}

// Lays ` wrote commit C stamp T.K`, and the end of the line: how many bytes it has.
fn lay_commit(text: &mut [u8], commit: Time, stamp: Stamp) -> usize
    requires { 169 ≤ length text.old }
    ensures laid { take result text.new ≡ commit_text commit stamp }
    ensures most { result ≤ 169 }
    ensures length { length text.new ≡ length text.old }
{
    let middle = lay_number(text, b" wrote commit ", commit.get());
    let end = middle + lay_stamp(&mut text[middle..], stamp);
    text[end] = b'\n';
    end + 1
}

// Lays a write: how many bytes it has.
fn lay_wrote(text: &mut [u8], node: Node, number: u64, commit: Time, stamp: Stamp) -> usize
    requires { 281 ≤ length text.old }
    ensures laid { take result text.new ≡ op_text node number ++ commit_text commit stamp }
    ensures most { result ≤ length text.new }
{
    let middle = lay_op(text, node, number);
    middle + lay_commit(&mut text[middle..], commit, stamp)
}

// Lays the line of a read, without its rows: how many bytes it has.
fn lay_read(text: &mut [u8], node: Node, number: u64, effective: Time) -> usize
    requires { 169 ≤ length text.old }
    ensures laid { take result text.new ≡ op_text node number ++ codes " read at " ++ decimal effective ++ codes "\n" }
    ensures most { result ≤ length text.new }
{
    let middle = lay_op(text, node, number);
    let end = middle + lay_number(&mut text[middle..], b" read at ", effective.get());
    text[end] = b'\n';
    end + 1
}

// Lays ` moved to D floor F`, and the end of the line: how many bytes it has.
fn lay_move(text: &mut [u8], dc: u16, floor: Time) -> usize
    requires { 113 ≤ length text.old }
    ensures laid { take result text.new ≡ move_text dc floor }
    ensures most { result ≤ 113 }
    ensures length { length text.new ≡ length text.old }
{
    let middle = lay_number(text, b" moved to ", u64::from(dc));
    let end = middle + lay_number(&mut text[middle..], b" floor ", floor.get());
    text[end] = b'\n';
    end + 1
}

// Lays a move: `node N op M moved to D floor F`, and the end of the line: how many bytes it has.
fn lay_moved(text: &mut [u8], node: Node, number: u64, dc: u16, floor: Time) -> usize
    requires { 225 ≤ length text.old }
    ensures laid { take result text.new ≡ op_text node number ++ move_text dc floor }
    ensures most { result ≤ length text.new }
{
    let middle = lay_op(text, node, number);
    middle + lay_move(&mut text[middle..], dc, floor)
}

// Lays a refusal: `node N refused R`, and the end of the line: how many bytes it has.
fn lay_refusal(text: &mut [u8], node: Node, fault: Fault) -> usize
    requires { 113 ≤ length text.old }
    ensures laid { take result text.new ≡ refusal_text node fault }
    ensures most { result ≤ length text.new }
{
    let middle = lay_number(text, b"node ", u64::from(node.get()));
    let end = middle + lay_number(&mut text[middle..], b" refused ", u64::from(fault.number()));
    text[end] = b'\n';
    end + 1
}

// A refusal.
fn put_refusal<W: Write>(output: &mut Output<W>, node: Node, fault: Fault) -> Result<(), Fault>
    ensures { Adds W.contents output.old output.new result (refusal_text node fault) }
{
    let mut text = [0; 1 + 2 * NUMBER];
    let end = lay_refusal(&mut text, node, fault);
    output.put(&text[..end])
}

// A write.
fn put_wrote<W: Write>(
    output: &mut Output<W>,
    node: Node,
    number: u64,
    commit: Time,
    stamp: Stamp,
) -> Result<(), Fault>
    ensures { Adds W.contents output.old output.new result (op_text node number ++ commit_text commit stamp) }
{
    let mut text = [0; 1 + 5 * NUMBER];
    let end = lay_wrote(&mut text, node, number, commit, stamp);
    output.put(&text[..end])
}

// A read, with its rows.
fn put_read<W: Write>(
    output: &mut Output<W>,
    node: Node,
    number: u64,
    effective: Time,
    rows: &[AnsweredRow],
) -> Result<(), Fault>
    ensures { Adds W.contents output.old output.new result (op_text node number ++ answer_text effective rows.now) }
{
    let mut text = [0; 1 + 3 * NUMBER];
    let end = lay_read(&mut text, node, number, effective);
    output.put(&text[..end])?;
    put_rows(output, rows)
}

// A read that came too late.
fn put_collected<W: Write>(output: &mut Output<W>, node: Node, number: u64) -> Result<(), Fault>
    ensures { Adds W.contents output.old output.new result (op_text node number ++ codes " collected\n") }
{
    let mut text = [0; 2 * NUMBER];
    let end = lay_op(&mut text, node, number);
    output.put(&text[..end])?;
    output.put(b" collected\n")
}

// A move.
fn put_moved<W: Write>(
    output: &mut Output<W>,
    node: Node,
    number: u64,
    dc: u16,
    floor: Time,
) -> Result<(), Fault>
    ensures { Adds W.contents output.old output.new result (op_text node number ++ move_text dc floor) }
{
    let mut text = [0; 1 + 4 * NUMBER];
    let end = lay_moved(&mut text, node, number, dc, floor);
    output.put(&text[..end])
}

// An entry, with the rows of a read.
fn put_entry<W: Write>(output: &mut Output<W>, entry: &Entry) -> Result<(), Fault>
    ensures { Adds W.contents output.old output.new result (entry_text entry.now) }
{
    match entry {
        Entry::Wrote {
            node,
            number,
            commit,
            stamp,
        } => put_wrote(output, *node, *number, *commit, *stamp),
        Entry::Read {
            node,
            number,
            effective,
            answer,
        } => put_read(output, *node, *number, *effective, answer.as_slice()),
        Entry::Collected { node, number } => put_collected(output, *node, *number),
        Entry::Moved {
            node,
            number,
            dc,
            floor,
        } => put_moved(output, *node, *number, *dc, *floor),
        Entry::Refused { node, fault } => put_refusal(output, *node, *fault),
    }
}

// Each entry, in order.
fn put_entries<W: Write>(output: &mut Output<W>, entries: &[Entry]) -> Result<(), Fault>
    requires { IsNone output.old.failure }
    ensures { Adds W.contents output.old output.new result (text_of entries.now) }
{
    for entry in entries {
        put_entry(output, entry)?;
    }
    Ok(())
}

// Each entry, in order, and then what stands after them.
fn put_told<W: Write>(output: &mut Output<W>, entries: &[Entry], tail: Tail) -> Result<(), Fault>
    requires { IsNone output.old.failure }
    ensures { Adds W.contents output.old output.new result (told_text entries.now tail) }
{
    put_entries(output, entries)?;
    put_tail(output, tail)
}

/// Writes the text of a transcript, and what stands after it, and passes it on, so that the writer holds nothing back: a line for
/// each entry and, after that of a read, one for each asked row; then those of the tail. Numbers are decimal, bytes lower-case
/// hexadecimal. Refused with `WriteFailed` exactly where the output has failed; then a beginning of the text is written, and nothing
/// where it had failed before. Linear in the text. Takes no memory: the text is written in pieces of up to 588 bytes, so a writer
/// that calls the system for each should have a buffer before it.
pub fn write_transcript<W: Buffered>(
    output: &mut Output<W>,
    transcript: &Transcript,
    tail: Tail,
) -> Result<(), Fault>
    ensures whole { OnOk result (Appends (W.contents output.old.writer) (W.contents output.new.writer) (told_text transcript.now tail)) }
    ensures passed_on { OnOk result (W.held output.new.writer ≡ []) }
    ensures sound { OnOk result (IsNone output.new.failure) }
    ensures part { OnErr result (AppendsPart (W.contents output.old.writer) (W.contents output.new.writer) (told_text transcript.now tail)) }
    ensures failed { IfErr result (λ e. (e ≡ fault.WriteFailed) × IsSome output.new.failure) }
    ensures spent { IsSome output.old.failure → (output.new ≡ output.old) × (result ≡ Err fault.WriteFailed) }
{
    if output.failure.is_some() {
        return Err(Fault::WriteFailed);
    }
    put_told(output, transcript.as_slice(), tail)?;
    output.flush()
}

/// The text of a transcript, as `write_transcript` writes it. Refused with `Memory` alone. Linear in the text.
pub fn transcript_text(alloc: Global, transcript: &Transcript) -> Result<Vec<u8>, Fault>
    ensures text { IfOk result (λ text. text.items ≡ text_of transcript.now) }
    ensures memory { IfErr result (λ e. e ≡ fault.Memory) }
{
    let mut output = Output::new(Vec::new(alloc));
    let written = write_transcript(&mut output, transcript, Tail::Nothing);
    let Output { writer, failure: _ } = output;
    match written {
        Ok(()) => Ok(writer),
        Err(_) => Err(Fault::Memory),
    }
}
