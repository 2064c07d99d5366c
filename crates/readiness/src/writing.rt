//! Writes what waits.
ghost use Rattle.std.specs.Prelude.{◌≡◌, ◌≤◌, [], length};
ghost use Rattle.readiness.specs.Kept.{view};
ghost use Rattle.readiness.specs.Turns.{Keeps, Pushed, Flushed, WaitingFlushed, LastWritten};

use crate::connection::{Connection, Stage};
use crate::last::Last;
use crate::line::{ReadyLine, Went};
use std::mem;

/// Why no more is written.
#[derive(Clone, Copy)]
pub(crate) enum Flow {
    /// All has gone.
    All,
    /// The line has no room yet.
    Full,
    /// The line failed.
    Failed,
}

/// How many bytes of a piece went, and why no more did.
#[derive(Clone, Copy)]
pub(crate) struct Sent {
    gone: usize,
    flow: Flow,
}

// Writes a piece, as far as the line takes it.
fn push<L: ReadyLine>(line: &mut L, piece: &[u8]) -> Sent
    ensures within { result.gone ≤ length piece.now }
    ensures pushed { Pushed piece.now result.gone result.flow (L.seen line.old) (L.seen line.new) }
{
    let mut gone = 0;
    while gone < piece.len() {
        match line.write(&piece[gone..]) {
            Went::Bytes(n) => gone += n,
            Went::Nothing => {
                return Sent {
                    gone,
                    flow: Flow::Full,
                };
            }
            Went::Failed => {
                return Sent {
                    gone,
                    flow: Flow::Failed,
                };
            }
        }
    }
    Sent {
        gone,
        flow: Flow::All,
    }
}

// Writes the replies that wait. Gives why no more of them went.
fn flush_waiting<L: ReadyLine>(connection: &mut Connection<L>) -> Flow
    ensures flushed { WaitingFlushed result (view L.seen connection.old) (view L.seen connection.new) }
    ensures stop { connection.new.stop ≡ connection.old.stop }
{
    let sent = push(&mut connection.line, connection.waiting.as_slice());
    connection.waiting.advance(sent.gone);
    sent.flow
}

// Writes what is left of a last reply. Gives what the connection comes to.
fn write_last<L: ReadyLine>(line: &mut L, mut last: Last) -> Stage
    ensures { LastWritten last (L.seen line.old) result (L.seen line.new) }
{
    let sent = push(line, last.as_slice());
    last.advance(sent.gone);
    match sent.flow {
        Flow::All => Stage::Ending(last),
        Flow::Full => Stage::Ending(last),
        Flow::Failed => Stage::Failed,
    }
}

// Writes what is left of a last reply, if there is one.
fn flush_last<L: ReadyLine>(connection: &mut Connection<L>)
    requires { connection.old.waiting.items ≡ [] }
    ensures keeps { Keeps (view L.seen connection.old) (view L.seen connection.new) }
    ensures waiting { connection.new.waiting.items ≡ [] }
    ensures dry { (L.seen connection.new.line).dry ≡ (L.seen connection.old.line).dry }
    ensures flushed { Flushed (view L.seen connection.old) (view L.seen connection.new) }
    ensures stop { connection.new.stop ≡ connection.old.stop }
{
    match mem::replace(&mut connection.stage, Stage::Failed) {
        Stage::Open(fault) => connection.stage = Stage::Open(fault),
        Stage::Ending(last) => connection.stage = write_last(&mut connection.line, last),
        Stage::Failed => {}
    }
}

/// Writes what waits, as far as the line takes it: the replies, and then what is left of a last one.
pub(crate) fn flush<L: ReadyLine>(connection: &mut Connection<L>)
    ensures keeps { Keeps (view L.seen connection.old) (view L.seen connection.new) }
    ensures shrinks { length connection.new.waiting.items ≤ length connection.old.waiting.items }
    ensures dry { (L.seen connection.new.line).dry ≡ (L.seen connection.old.line).dry }
    ensures flushed { Flushed (view L.seen connection.old) (view L.seen connection.new) }
    ensures stop { connection.new.stop ≡ connection.old.stop }
{
    if connection.has_failed() {
        return;
    }
    match flush_waiting(connection) {
        Flow::All => flush_last(connection),
        Flow::Full => {}
        Flow::Failed => connection.stage = Stage::Failed,
    }
}
