//! What happens is noted in a log.
ghost use Rattle.std.specs.Prelude.{◌≡◌, ◌<◌, ◌^◌, List, length, IfOk, IfErr, OnErr};
ghost use Rattle.logical_time.specs.declared.fault.Fault.TheVariants.{Memory};
ghost use Rattle.ledger.specs.declared.entry.Entry.{Entry};
ghost use Rattle.ledger.specs.declared.entry.Entry.TheVariants.{Request, Rested};
ghost use Rattle.ledger.specs.Entries.{IsTextOf, IsNumbered};
ghost use Rattle.durable.specs.Logged.{Notes, NotesLast};

use disk::Disk;
use keeper::Log;
use ledger::{request_text, rested_text};
use logical_time::Fault;
use messages::Op;
use std::alloc::Global;

// Notes a text, and gives its mark. Refused with `Memory`; then nothing is noted.
fn note<D: Disk>(log: &mut Log<D>, text: &[u8]) -> Result<usize, Fault>
    requires { length text.now < 256 ^ 4 }
    ensures ok { IfOk result (λ mark. (es : List Entry) (e : Entry) → Notes D.seen D.may_leave log.old es → IsNumbered e → IsTextOf e text.now → NotesLast D.seen D.may_leave log.new mark es e) }
    ensures err { OnErr result ((es : List Entry) → Notes D.seen D.may_leave log.old es → Notes D.seen D.may_leave log.new es) }
    ensures disk { log.new.disk ≡ log.old.disk }
    ensures secret { log.new.secret ≡ log.old.secret }
    ensures memory { IfErr result (λ e. e ≡ Memory) }
{
    match log.note(text) {
        Ok(mark) => Ok(mark),
        Err(_) => Err(Fault::Memory),
    }
}

/// Notes a request of the session of this index, and gives its mark. Refused with `Oversize` where it has no frame, and with
/// `Memory`; then nothing is noted.
pub(crate) fn note_request<D: Disk>(
    alloc: Global,
    log: &mut Log<D>,
    session: u16,
    op: &Op,
) -> Result<usize, Fault>
    ensures ok { IfOk result (λ mark. (es : List Entry) → Notes D.seen D.may_leave log.old es → NotesLast D.seen D.may_leave log.new mark es (Request session op.now)) }
    ensures err { OnErr result ((es : List Entry) → Notes D.seen D.may_leave log.old es → Notes D.seen D.may_leave log.new es) }
    ensures disk { log.new.disk ≡ log.old.disk }
    ensures secret { log.new.secret ≡ log.old.secret }
{
    let text = request_text(alloc, session, op)?;
    match note(log, &text) {
        Ok(mark) => Ok(mark),
        Err(fault) => Err(fault),
    }
}

/// Notes that a shard collected, and gives its mark. Refused with `Memory`; then nothing is noted.
pub(crate) fn note_rest<D: Disk>(
    alloc: Global,
    log: &mut Log<D>,
    shard: u16,
) -> Result<usize, Fault>
    ensures ok { IfOk result (λ mark. (es : List Entry) → Notes D.seen D.may_leave log.old es → NotesLast D.seen D.may_leave log.new mark es (Rested shard)) }
    ensures err { OnErr result ((es : List Entry) → Notes D.seen D.may_leave log.old es → Notes D.seen D.may_leave log.new es) }
    ensures disk { log.new.disk ≡ log.old.disk }
    ensures secret { log.new.secret ≡ log.old.secret }
    ensures memory { IfErr result (λ e. e ≡ Memory) }
{
    let text = rested_text(alloc, shard)?;
    match note(log, &text) {
        Ok(mark) => Ok(mark),
        Err(fault) => Err(fault),
    }
}

/// What was noted last isn't noted after all. Takes no memory.
pub(crate) fn take_back<D: Disk>(log: &mut Log<D>, mark: usize)
    ensures back { (es : List Entry) (e : Entry) → NotesLast D.seen D.may_leave log.old mark es e → Notes D.seen D.may_leave log.new es }
    ensures disk { log.new.disk ≡ log.old.disk }
    ensures secret { log.new.secret ≡ log.old.secret }
{
    log.take_back(mark);
}
