//! Writes replies.
ghost use Rattle.std.specs.Prelude.{◌≡◌, ◌≤◌, ◌++◌, [], List, ℕ, length, true, false};
ghost use Rattle.front.specs.Served.{IsEncoding};
ghost use Rattle.front.specs.Parts.{Wrote, Puts, Refuses};

use crate::ended::Ended;
use crate::frames::Frames;
use crate::line::Line;
use logical_time::Fault;
use messages::Outcome;
use std::alloc::Global;
use wire::encode_refusal;

// How many bytes wait to be written together, at most.
const MOST_WAITING: usize = 65_536;

// Writes a piece. False where the line failed first.
pub(crate) fn write_all<L: Line>(line: &mut L, piece: &[u8]) -> bool
    ensures { Wrote piece.now result (L.seen line.old) (L.seen line.new) }
{
    let mut at = 0;
    while at < piece.len() {
        match line.write(&piece[at..]) {
            None => return false,
            Some(n) => at += n,
        }
    }
    true
}

// Writes what waits. False where the line failed first.
pub(crate) fn write_waiting<L: Line>(line: &mut L, waiting: &mut Vec<u8>) -> bool
    ensures wrote { Wrote waiting.old.items result (L.seen line.old) (L.seen line.new) }
    ensures none { waiting.new.items ≡ [] }
{
    let written = write_all(line, waiting);
    waiting.clear();
    written
}

// Puts a frame behind what waits. False where more would wait than may, or memory for it is refused.
fn add(waiting: &mut Vec<u8>, frame: &[u8]) -> bool
    ensures yes { result ≡ true → waiting.new.items ≡ waiting.old.items ++ frame.now }
    ensures no { result ≡ false → waiting.new.items ≡ waiting.old.items }
    ensures bounded { result ≡ true → length waiting.new.items ≤ MOST_WAITING }
{
    if waiting.len() + frame.len() > MOST_WAITING {
        return false;
    }
    match waiting.extend_from_slice(frame) {
        Ok(()) => true,
        Err(_) => false,
    }
}

// Puts a frame behind what waits, or else writes what waits and the frame. False where the line failed first.
fn put<L: Line>(line: &mut L, waiting: &mut Vec<u8>, frame: &[u8]) -> bool
    ensures puts { Puts frame.now result waiting.old.items (L.seen line.old) waiting.new.items (L.seen line.new) }
    ensures bounded { length waiting.new.items ≤ MOST_WAITING }
{
    if add(waiting, frame) {
        return true;
    }
    if !write_waiting(line, waiting) {
        return false;
    }
    write_all(line, frame)
}

// Puts the reply to an answer behind what waits; a refusal takes no memory but that. False where the line failed first.
pub(crate) fn reply<L: Line, F: Frames>(
    alloc: Global,
    line: &mut L,
    waiting: &mut Vec<u8>,
    frames: &F,
    answer: &Result<Outcome, Fault>,
) -> bool
    ensures puts { (bytes : List ℕ) × IsEncoding F.refuses answer.now bytes × Puts bytes result waiting.old.items (L.seen line.old) waiting.new.items (L.seen line.new) }
    ensures bounded { length waiting.new.items ≤ MOST_WAITING }
{
    match answer {
        Err(fault) => put(line, waiting, &encode_refusal(*fault)),
        Ok(_) => match frames.encode(alloc, answer) {
            Ok(frame) => put(line, waiting, &frame),
            Err(fault) => put(line, waiting, &encode_refusal(fault)),
        },
    }
}

// Refuses the stream, by the last reply.
pub(crate) fn refuse<L: Line>(line: &mut L, fault: Fault) -> Ended
    ensures { Refuses fault result (L.seen line.old) (L.seen line.new) }
{
    if write_all(line, &encode_refusal(fault)) {
        Ended::Refused(fault)
    } else {
        Ended::WriteFailed
    }
}
