//! What is told of recorded histories, written piece by piece: no piece takes memory.
ghost use Rattle.std.specs.Prelude.{◌≡◌, ◌++◌, [], IsSome, IsNone, OnOk, OnErr, IfErr, decimal, Err};
ghost use Rattle.std.specs.List.{flat_map};
ghost use Rattle.std.specs.Io.KnownBytes.{Appends};
ghost use Rattle.logical_time.specs.declared.fault.Fault.TheVariants as fault;
ghost use Rattle.program.specs.Outputs.{Adds, AppendsPart};
ghost use Rattle.recorded.specs.Report.{parts_text, misread_text, counts_text, report_text};

use audit::Misread;
use itoa::Buffer;
use logical_time::Fault;
use program::{Buffered, Output};
use slice::AnsweredRow;
use std::io::Write;
use workload::put_rows;

// Words, a number, and words behind it.
fn put_number<W: Write>(
    output: &mut Output<W>,
    before: &[u8],
    number: u64,
    behind: &[u8],
) -> Result<(), Fault>
    ensures { Adds W.contents output.old output.new result (before.now ++ decimal number ++ behind.now) }
{
    let mut buffer = Buffer::new();
    output.put(before)?;
    output.put(buffer.format(number).as_bytes())?;
    output.put(behind)
}

// Where a wrong read stands, the rows of its answer, and those that the table has.
fn put_parts<W: Write>(
    output: &mut Output<W>,
    place: u64,
    answered: &[AnsweredRow],
    table: &[AnsweredRow],
) -> Result<(), Fault>
    ensures { Adds W.contents output.old output.new result (parts_text place answered.now table.now) }
{
    put_number(output, b"reads[", place, b"] answered\n")?;
    put_rows(output, answered)?;
    output.put(b"table has\n")?;
    put_rows(output, table)
}

// A wrong read.
fn put_misread<W: Write>(output: &mut Output<W>, misread: &Misread) -> Result<(), Fault>
    ensures { Adds W.contents output.old output.new result (misread_text misread.now) }
{
    put_parts(
        output,
        misread.place as u64,
        misread.answered.as_slice(),
        misread.table.as_slice(),
    )
}

// Each wrong read, in order.
fn put_misreads<W: Write>(output: &mut Output<W>, misreads: &[Misread]) -> Result<(), Fault>
    requires { IsNone output.old.failure }
    ensures { Adds W.contents output.old output.new result (flat_map misread_text misreads.now) }
{
    for misread in misreads {
        put_misread(output, misread)?;
    }
    Ok(())
}

// How many reads there are, and how many of them are wrong.
fn put_counts<W: Write>(output: &mut Output<W>, reads: usize, wrong: usize) -> Result<(), Fault>
    ensures { Adds W.contents output.old output.new result (counts_text reads wrong) }
{
    put_number(output, b"audit reads ", reads as u64, b" wrong ")?;
    put_number(output, b"", wrong as u64, b"\n")
}

// The whole report.
fn put_report<W: Write>(
    output: &mut Output<W>,
    reads: usize,
    wrong: &[Misread],
) -> Result<(), Fault>
    requires { IsNone output.old.failure }
    ensures { Adds W.contents output.old output.new result (report_text reads wrong.now) }
{
    put_misreads(output, wrong)?;
    put_counts(output, reads, wrong.len())
}

/// Writes what is told of so many reads of which these are wrong, and passes it on, so that the writer holds nothing back: of
/// each wrong read the line `reads[N] answered`, a line for each row of its answer, the line `table has`, and a line for each
/// row that the table has, rows as in a transcript; then the line `audit reads R wrong W`. Refused with `WriteFailed` exactly
/// where the output has failed; then a beginning of the text is written, and nothing where it had failed before. Linear in the
/// text. Takes no memory.
pub fn write_report<W: Buffered>(
    output: &mut Output<W>,
    reads: usize,
    wrong: &[Misread],
) -> Result<(), Fault>
    ensures whole { OnOk result (Appends (W.contents output.old.writer) (W.contents output.new.writer) (report_text reads wrong.now)) }
    ensures passed_on { OnOk result (W.held output.new.writer ≡ []) }
    ensures sound { OnOk result (IsNone output.new.failure) }
    ensures part { OnErr result (AppendsPart (W.contents output.old.writer) (W.contents output.new.writer) (report_text reads wrong.now)) }
    ensures failed { IfErr result (λ e. (e ≡ fault.WriteFailed) × IsSome output.new.failure) }
    ensures spent { IsSome output.old.failure → (output.new ≡ output.old) × (result ≡ Err fault.WriteFailed) }
{
    if output.failure.is_some() {
        return Err(Fault::WriteFailed);
    }
    put_report(output, reads, wrong)?;
    output.flush()
}
