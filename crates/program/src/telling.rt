//! How a fault is told.
ghost use Rattle.std.specs.Prelude.{◌≡◌};
ghost use Rattle.program.specs.Outputs.{Writes};
ghost use Rattle.program.specs.Telling.{fault_line, told_text, Tells};

use crate::buffered::Buffered;
use crate::line::Line;
use crate::output::Output;
use logical_time::Fault;

// The line of a fault. No other ends the program.
fn fault_line(fault: Fault) -> &'static str
    ensures { result.now ≡ fault_line fault }
{
    match fault {
        Fault::ClockSpent => "eiger: fault 22 ClockSpent\n",
        Fault::Memory => "eiger: fault 23 Memory\n",
        Fault::JournalFull => "eiger: fault 24 JournalFull\n",
        Fault::StrangerEnd => "eiger: fault 25 StrangerEnd\n",
        Fault::Script => "eiger: fault 35 Script\n",
        Fault::ReadFailed => "eiger: fault 36 ReadFailed\n",
        Fault::WriteFailed => "eiger: fault 37 WriteFailed\n",
        _ => "",
    }
}

// Writes the line of the fault and the line for people, until the output fails.
fn write_lines<E: Buffered>(
    errors: &mut Output<E>,
    fault: Fault,
    more: Option<Line>,
) -> Result<(), Fault>
    ensures { Writes E.contents errors.old errors.new (told_text fault more) }
{
    errors.write_all(fault_line(fault).as_bytes())?;
    let Some(line) = more else {
        return Ok(());
    };
    errors.write_all(line.as_str().as_bytes())?;
    errors.write_all(b"\n")
}

/// Tells a fault that ends the program: its line, `eiger: fault NUMBER NAME`, and the line that says more, if there is one.
/// Gives the exit status 1.
pub fn tell<E: Buffered>(errors: &mut Output<E>, fault: Fault, more: Option<Line>) -> u8
    ensures status { result ≡ 1 }
    ensures told { Tells E.contents fault more errors.old errors.new }
{
    let _ = write_lines(errors, fault, more);
    1
}
