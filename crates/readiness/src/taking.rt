//! Takes in what has come, and answers it.
ghost use Rattle.std.specs.Prelude.{◌≡◌, ◌<◌, ◌≤◌, ◌++◌, [], List, ℕ, length, false, None, IfSome};
ghost use Rattle.front.specs.Lines.{hears, ends};
ghost use Rattle.front.specs.Served.{IsEncoding, IsRefusal, any_need};
ghost use Rattle.readiness.specs.Kept.{view};
ghost use Rattle.readiness.specs.Lines.{ReadyValue};
ghost use Rattle.readiness.specs.Turns.{Turned, Keeps, AnswersNext, IsRefused, StopsAt, IsBounded, StopsFor, SaysNothing, is_open};

use crate::connection::{Connection, LIMIT, Stage, Stop};
use crate::last::{Last, REFUSAL_BYTES};
use crate::line::{Came, ReadyLine};
use crate::shared::SharedPort;
use bytes::BytesMut;
use logical_time::Fault;
use messages::Outcome;
use std::alloc::Global;
use wire::{encode_refusal, encode_reply};

/// How many steps of taking in a turn has at most, before others have theirs.
const STEPS: usize = 4096;

// Puts a refusal behind what waits, for which there is room.
fn put_refusal(waiting: &mut BytesMut, fault: Fault)
    requires { REFUSAL_BYTES ≤ waiting.old.spare }
    ensures { (bytes : List ℕ) × IsRefusal fault bytes × (waiting.new.items ≡ waiting.old.items ++ bytes) }
{
    match waiting.extend_from_slice(&encode_refusal(fault)) {
        Ok(()) => {}
        Err(_) => unreachable!(),
    }
}

// Puts a reply behind what waits, where there is room for a refusal. An outcome that has no encoding, or for which
// memory is refused, becomes a refusal.
fn put_reply(alloc: Global, waiting: &mut BytesMut, answer: &Result<Outcome, Fault>)
    requires { REFUSAL_BYTES ≤ waiting.old.spare }
    ensures { (bytes : List ℕ) × IsEncoding any_need answer.now bytes × (waiting.new.items ≡ waiting.old.items ++ bytes) }
{
    match answer {
        Err(fault) => put_refusal(waiting, *fault),
        Ok(_) => match encode_reply(alloc, answer) {
            Err(fault) => put_refusal(waiting, fault),
            Ok(frame) => match waiting.extend_from_slice(&frame) {
                Ok(()) => {}
                Err(_) => put_refusal(waiting, Fault::Memory),
            },
        },
    }
}

// Answers the first request that is held, where there is room for a refusal. False where none is held.
fn answer_next<L: ReadyLine, P: SharedPort>(
    alloc: Global,
    port: &mut P,
    place: usize,
    connection: &mut Connection<L>,
) -> bool
    requires { REFUSAL_BYTES ≤ connection.old.waiting.spare }
    ensures answers { AnswersNext (P.steps place) result (view L.seen connection.old) (P.seen port.old) (view L.seen connection.new) (P.seen port.new) }
    ensures keeps_none { P.kept port.new ≡ P.kept port.old }
{
    let Some(op) = connection.reader.next() else {
        return false;
    };
    let answer = port.ask(place, op);
    put_reply(alloc, &mut connection.waiting, &answer);
    true
}

// Refuses the stream, by a last reply.
fn refuse<L: ReadyLine>(connection: &mut Connection<L>, fault: Fault)
    ensures { IsRefused fault (view L.seen connection.old) (view L.seen connection.new) }
{
    connection.stage = Stage::Ending(Last::refusal(fault));
    connection.refused = Some(fault);
}

// Takes a piece that came. Gives why no more is taken in, if memory for it is refused.
fn take_piece<L: ReadyLine>(connection: &mut Connection<L>, piece: &[u8]) -> Option<Stop>
    requires stage { connection.old.stage ≡ Stage.Open None }
    requires held { connection.old.reader.held ≡ [] }
    ensures keeps { (s : ReadyValue) → (L.seen connection.old.line).line ≡ hears piece.now s.line → Keeps (record { line = s; reader = connection.old.reader; waiting = connection.old.waiting.items; stage = connection.old.stage }) (view L.seen connection.new) }
    ensures waiting { connection.new.waiting.items ≡ connection.old.waiting.items }
    ensures stops { IfSome result (λ stop. StopsFor LIMIT stop (view L.seen connection.new)) }
    ensures line { L.seen connection.new.line ≡ L.seen connection.old.line }
{
    match connection.reader.feed(piece) {
        Ok(()) => None,
        Err(fault) => stop_at(connection, fault),
    }
}

// Stops at a fault of the stream, before which all is answered first. Refuses the stream at once, if memory was
// refused.
fn stop_at<L: ReadyLine>(connection: &mut Connection<L>, fault: Fault) -> Option<Stop>
    ensures { StopsAt fault result (view L.seen connection.old) (view L.seen connection.new) }
{
    if fault == Fault::Memory {
        refuse(connection, fault);
        return Some(Stop::Over);
    }
    connection.stage = Stage::Open(Some(fault));
    None
}

// Ends with the input.
fn end_of_input<L: ReadyLine>(connection: &mut Connection<L>)
    requires stage { connection.old.stage ≡ Stage.Open None }
    requires held { connection.old.reader.held ≡ [] }
    ensures keeps { (s : ReadyValue) → (L.seen connection.old.line).line ≡ ends s.line → Keeps (record { line = s; reader = connection.old.reader; waiting = connection.old.waiting.items; stage = connection.old.stage }) (view L.seen connection.new) }
    ensures waiting { connection.new.waiting.items ≡ connection.old.waiting.items }
    ensures stops { is_open connection.new.stage ≡ false }
    ensures line { L.seen connection.new.line ≡ L.seen connection.old.line }
{
    match connection.reader.finish() {
        Ok(()) => connection.stage = Stage::Ending(Last::none()),
        Err(fault) => refuse(connection, fault),
    }
}

// Reads what has come, when all that was read is answered. Gives why no more is taken in, unless something came.
fn hear<L: ReadyLine>(connection: &mut Connection<L>, buffer: &mut [u8]) -> Option<Stop>
    requires stage { connection.old.stage ≡ Stage.Open None }
    requires held { connection.old.reader.held ≡ [] }
    requires room { 0 < length buffer.old }
    ensures keeps { Keeps (view L.seen connection.old) (view L.seen connection.new) }
    ensures waiting { connection.new.waiting.items ≡ connection.old.waiting.items }
    ensures stops { IfSome result (λ stop. StopsFor LIMIT stop (view L.seen connection.new)) }
    ensures silent { SaysNothing (view L.seen connection.old) (view L.seen connection.new) }
{
    match connection.line.read(buffer) {
        Came::Bytes(n) => take_piece(connection, &buffer[..n]),
        Came::Nothing => Some(Stop::Dry),
        Came::End => {
            end_of_input(connection);
            Some(Stop::Over)
        }
        Came::Failed => {
            connection.stage = Stage::Failed;
            Some(Stop::Over)
        }
    }
}

// Answers a request that is held; else refuses the stream, or reads. Gives why no more is taken in, unless it goes on.
fn go_on<L: ReadyLine, P: SharedPort>(
    alloc: Global,
    port: &mut P,
    place: usize,
    connection: &mut Connection<L>,
    stopped: Option<Fault>,
    buffer: &mut [u8],
) -> Option<Stop>
    requires stage { connection.old.stage ≡ Stage.Open stopped }
    requires spare { REFUSAL_BYTES ≤ connection.old.waiting.spare }
    requires room { 0 < length buffer.old }
    ensures turned { Turned (P.steps place) (view L.seen connection.old) (P.seen port.old) (view L.seen connection.new) (P.seen port.new) }
    ensures bounded { length connection.old.waiting.items ≤ LIMIT → IsBounded LIMIT (view L.seen connection.new) }
    ensures stops { IfSome result (λ stop. StopsFor LIMIT stop (view L.seen connection.new)) }
    ensures silent { SaysNothing (view L.seen connection.old) (view L.seen connection.new) }
    ensures keeps_none { P.kept port.new ≡ P.kept port.old }
{
    if answer_next(alloc, port, place, connection) {
        return None;
    }
    match stopped {
        Some(fault) => {
            refuse(connection, fault);
            Some(Stop::Over)
        }
        None => hear(connection, buffer),
    }
}

// Goes on, unless too much waits. Where there is no room for a refusal, the stream is refused.
fn step_open<L: ReadyLine, P: SharedPort>(
    alloc: Global,
    port: &mut P,
    place: usize,
    connection: &mut Connection<L>,
    stopped: Option<Fault>,
    buffer: &mut [u8],
) -> Option<Stop>
    requires stage { connection.old.stage ≡ Stage.Open stopped }
    requires room { 0 < length buffer.old }
    ensures turned { Turned (P.steps place) (view L.seen connection.old) (P.seen port.old) (view L.seen connection.new) (P.seen port.new) }
    ensures bounded { IsBounded LIMIT (view L.seen connection.old) → IsBounded LIMIT (view L.seen connection.new) }
    ensures stops { IfSome result (λ stop. StopsFor LIMIT stop (view L.seen connection.new)) }
    ensures silent { SaysNothing (view L.seen connection.old) (view L.seen connection.new) }
    ensures keeps_none { P.kept port.new ≡ P.kept port.old }
{
    let waits = connection.waiting.len();
    if waits > LIMIT {
        return Some(Stop::Full);
    }
    match connection.waiting.reserve(REFUSAL_BYTES) {
        Ok(()) => go_on(alloc, port, place, connection, stopped, buffer),
        Err(_) => {
            refuse(connection, Fault::Memory);
            Some(Stop::Over)
        }
    }
}

// Takes in a request that is held, or what has come. Gives why no more is taken in, unless it goes on.
fn step<L: ReadyLine, P: SharedPort>(
    alloc: Global,
    port: &mut P,
    place: usize,
    connection: &mut Connection<L>,
    buffer: &mut [u8],
) -> Option<Stop>
    requires { 0 < length buffer.old }
    ensures turned { Turned (P.steps place) (view L.seen connection.old) (P.seen port.old) (view L.seen connection.new) (P.seen port.new) }
    ensures bounded { IsBounded LIMIT (view L.seen connection.old) → IsBounded LIMIT (view L.seen connection.new) }
    ensures stops { IfSome result (λ stop. StopsFor LIMIT stop (view L.seen connection.new)) }
    ensures silent { SaysNothing (view L.seen connection.old) (view L.seen connection.new) }
    ensures keeps_none { P.kept port.new ≡ P.kept port.old }
{
    match connection.stage {
        Stage::Open(stopped) => step_open(alloc, port, place, connection, stopped, buffer),
        Stage::Ending(_) | Stage::Failed => Some(Stop::Over),
    }
}

/// Takes in what has come, until no more is there, or no more is wanted. Gives why it stopped. Writes nothing.
pub(crate) fn take_in<L: ReadyLine, P: SharedPort>(
    alloc: Global,
    port: &mut P,
    place: usize,
    connection: &mut Connection<L>,
    buffer: &mut [u8],
) -> Stop
    requires { 0 < length buffer.old }
    ensures turned { Turned (P.steps place) (view L.seen connection.old) (P.seen port.old) (view L.seen connection.new) (P.seen port.new) }
    ensures bounded { IsBounded LIMIT (view L.seen connection.old) → IsBounded LIMIT (view L.seen connection.new) }
    ensures stops { StopsFor LIMIT result (view L.seen connection.new) }
    ensures silent { SaysNothing (view L.seen connection.old) (view L.seen connection.new) }
    ensures keeps_none { P.kept port.new ≡ P.kept port.old }
{
    for _ in 0..STEPS {
        if let Some(stop) = step(alloc, port, place, connection, buffer) {
            return stop;
        }
    }
    Stop::Spent
}
