//! Answers the requests of what was read.
ghost use Rattle.std.specs.Prelude.{◌≡◌, ◌<◌, ◌+◌, List, ℕ, length};
ghost use Rattle.front.specs.Lines.{LineValue, hears};
ghost use Rattle.front.specs.Parts.{Puts, AnswersHeld, Going, GoesOn, EndsInput};
ghost use Rattle.front.specs.Served.{IsEncoding};
ghost use Rattle.wire.specs.Replies.{Reply};

use crate::ended::Ended;
use crate::frames::Frames;
use crate::line::Line;
use crate::port::Port;
use crate::writing::{refuse, reply, write_waiting};
use messages::Op;
use std::alloc::Global;

// Answers a request; its reply may wait. False where the line failed first.
fn answer<L: Line, P: Port, F: Frames>(
    alloc: Global,
    line: &mut L,
    waiting: &mut Vec<u8>,
    port: &mut P,
    frames: &F,
    op: Op,
) -> bool
    ensures { (told : Reply) × (bytes : List ℕ) × P.steps port.old op told port.new × IsEncoding F.refuses told bytes × Puts bytes result waiting.old.items (L.seen line.old) waiting.new.items (L.seen line.new) }
{
    let told = port.ask(op);
    reply(alloc, line, waiting, frames, &told)
}

// Answers the requests that are held, and writes their replies together. False where the line failed first.
pub(crate) fn answer_held<L: Line, P: Port, F: Frames>(
    alloc: Global,
    line: &mut L,
    waiting: &mut Vec<u8>,
    port: &mut P,
    reader: &mut F,
) -> bool
    ensures { AnswersHeld F.refuses P.steps result (F.kept reader.old) (L.seen line.old) port.old (F.kept reader.new) (L.seen line.new) port.new }
{
    waiting.clear();
    while let Some(op) = reader.next() {
        if !answer(alloc, line, waiting, port, reader, op) {
            return false;
        }
    }
    write_waiting(line, waiting)
}

// Takes a piece that came, and answers the requests that it completes. Gives how serving ended, unless it goes on.
pub(crate) fn take_piece<L: Line, P: Port, F: Frames>(
    alloc: Global,
    line: &mut L,
    waiting: &mut Vec<u8>,
    port: &mut P,
    reader: &mut F,
    piece: &[u8],
) -> Option<Ended>
    requires { 0 < length piece.now }
    ensures goes_on { (n : ℕ) (l m : LineValue) (p : P) → Going F.refuses n P.steps l p (F.kept reader.old) m port.old → L.seen line.old ≡ hears piece.now m → GoesOn F.refuses (n + 1) P.steps result l p (F.kept reader.new) (L.seen line.new) port.new }
    ensures moments { (L.seen line.new).moments ≡ (L.seen line.old).moments }
{
    let fed = reader.feed(piece);
    if !answer_held(alloc, line, waiting, port, reader) {
        return Some(Ended::WriteFailed);
    }
    match fed {
        Ok(()) => None,
        Err(fault) => Some(refuse(line, fault)),
    }
}

// Ends with the input.
pub(crate) fn end_of_input<L: Line, F: Frames>(line: &mut L, reader: &mut F) -> Ended
    ensures { EndsInput (F.kept reader.old) result (L.seen line.old) (L.seen line.new) }
{
    match reader.finish() {
        Ok(()) => Ended::Clean,
        Err(fault) => refuse(line, fault),
    }
}
