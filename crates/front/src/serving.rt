//! Serves a line by a port.
ghost use Rattle.std.specs.Prelude.{◌≡◌, ◌<◌, ◌+◌, [], ℕ, length};
ghost use Rattle.front.specs.Lines.{LineValue};
ghost use Rattle.front.specs.Parts.{Going, GoesOn, GivesUp};
ghost use Rattle.front.specs.Served.{Served, ServedBy, IsNeverHeldBack, any_need};
ghost use Rattle.wire.specs.Frames.{ReaderValue};

use crate::answering::{end_of_input, take_piece};
use crate::ended::Ended;
use crate::frames::Frames;
use crate::line::Line;
use crate::port::Port;
use crate::writing::refuse;
use logical_time::Fault;
use std::alloc::Global;
use wire::Reader;

// How many bytes are read at once, at most.
const PIECE: usize = 4096;

// Reads a piece and takes it. Gives how serving ended, unless it goes on.
fn round<L: Line, P: Port, F: Frames>(
    alloc: Global,
    line: &mut L,
    waiting: &mut Vec<u8>,
    port: &mut P,
    reader: &mut F,
    buffer: &mut [u8],
) -> Option<Ended>
    requires { 0 < length buffer.old }
    ensures goes_on { (n : ℕ) (l : LineValue) (p : P) → Going F.refuses n P.steps l p (F.kept reader.old) (L.seen line.old) port.old → GoesOn F.refuses (n + 1) P.steps result l p (F.kept reader.new) (L.seen line.new) port.new }
    ensures prompt { (n : ℕ) (l : LineValue) (p : P) → Going F.refuses n P.steps l p (F.kept reader.old) (L.seen line.old) port.old → IsNeverHeldBack F.refuses P.steps l p (L.seen line.old).moments → IsNeverHeldBack F.refuses P.steps l p (L.seen line.new).moments }
{
    match line.read(buffer) {
        None => Some(Ended::ReadFailed),
        Some(0) => Some(end_of_input(line, reader)),
        Some(n) => take_piece(alloc, line, waiting, port, reader, &buffer[..n]),
    }
}

// Takes no piece any more.
fn give_up<L: Line, F: Frames>(line: &mut L, reader: &mut F, buffer: &mut [u8]) -> Ended
    requires { 0 < length buffer.old }
    ensures { GivesUp (F.kept reader.old) result (L.seen line.old) (L.seen line.new) }
{
    match line.read(buffer) {
        None => Ended::ReadFailed,
        Some(0) => end_of_input(line, reader),
        Some(_) => refuse(line, Fault::Memory),
    }
}

// Goes on until it ends. No line comes to the end of the count, which is there because each loop ends.
fn rounds<L: Line, P: Port, F: Frames>(
    alloc: Global,
    line: &mut L,
    waiting: &mut Vec<u8>,
    port: &mut P,
    reader: &mut F,
    buffer: &mut [u8],
) -> Ended
    requires { 0 < length buffer.old }
    ensures served { (l : LineValue) (p : P) → Going F.refuses 0 P.steps l p (F.kept reader.old) (L.seen line.old) port.old → ServedBy F.refuses P.steps result l p (L.seen line.new) port.new }
    ensures prompt { (l : LineValue) (p : P) → Going F.refuses 0 P.steps l p (F.kept reader.old) (L.seen line.old) port.old → IsNeverHeldBack F.refuses P.steps l p (L.seen line.old).moments → IsNeverHeldBack F.refuses P.steps l p (L.seen line.new).moments }
{
    for _piece in 0..u64::MAX {
        if let Some(ended) = round(alloc, line, waiting, port, reader, buffer) {
            return ended;
        }
    }
    give_up(line, reader, buffer)
}

/// Answers the requests that come by a line, in order, each by one reply, as the port answers them. An outcome that has no
/// encoding becomes a refusal by `Oversize`, and one for whose encoding memory was refused a refusal by `Memory`; then
/// it goes on. The first fault of the stream, an end of input inside a frame, and memory refused for a piece are
/// answered by a last reply, which says so. The replies to what one read brought are written together, up to 65,536 bytes at
/// once, and before the next read. Waits for its line, and goes on as long as bytes come; after 2^64 - 1 pieces a further one
/// is refused with `Memory`. It is `serve_by` with a new `Reader`.
pub fn serve<L: Line, P: Port>(alloc: Global, line: &mut L, port: &mut P) -> Ended
    ensures served { Served P.steps result (L.seen line.old) port.old (L.seen line.new) port.new }
    ensures prompt { IsNeverHeldBack any_need P.steps (L.seen line.old) port.old (L.seen line.new).moments }
{
    serve_by(alloc, line, port, &mut Reader::new(alloc))
}

/// Serves as `serve` does, with any `Frames` before their first piece, that being the caller's condition. It is refused
/// with `Memory` only where they refuse a piece with it, and after 2^64 - 1 pieces; and it answers an outcome by that
/// refusal only where they refuse to encode it.
pub fn serve_by<L: Line, P: Port, F: Frames>(
    alloc: Global,
    line: &mut L,
    port: &mut P,
    frames: &mut F,
) -> Ended
    requires { F.kept frames.old ≡ record { held = []; rest = []; fault = None } }
    ensures served { ServedBy F.refuses P.steps result (L.seen line.old) port.old (L.seen line.new) port.new }
    ensures prompt { IsNeverHeldBack F.refuses P.steps (L.seen line.old) port.old (L.seen line.new).moments }
{
    let mut buffer = [0u8; PIECE];
    let mut waiting = Vec::new(alloc);
    rounds(alloc, line, &mut waiting, port, frames, &mut buffer)
}
