//! A turn of one connection, in two halves: first it takes in, and when the port has settled, it writes.
ghost use Rattle.std.specs.Prelude.{◌≡◌, ◌<◌, ◌≤◌, length};
ghost use Rattle.readiness.specs.Kept.{view};
ghost use Rattle.readiness.specs.Turns.{Turned, Keeps, IsBounded, IsLeft, HasStopped, SaysNothing};

use crate::connection::{Connection, LIMIT};
use crate::line::ReadyLine;
use crate::shared::SharedPort;
use crate::taking::take_in;
use crate::writing::flush;
use std::alloc::Global;

/// What a turn leaves.
#[derive(Clone, Copy, PartialEq, Eq)]
pub enum After {
    /// It waits until its line is ready.
    Waits,
    /// It could go on at once.
    Again,
    /// It is over: all has gone, or a call of its line failed.
    Over,
}

/// The first half: takes in what has come by the connection at a place, and answers its requests. Answers no further
/// request while more than `LIMIT` bytes wait, and doesn't end before its line said that it would block, unless 4,096
/// steps are spent. Notes why it ended. Writes nothing, and waits for nothing.
pub(crate) fn listen<L: ReadyLine, P: SharedPort>(
    alloc: Global,
    port: &mut P,
    place: usize,
    connection: &mut Connection<L>,
    buffer: &mut [u8],
)
    requires { 0 < length buffer.old }
    ensures turned { Turned (P.steps place) (view L.seen connection.old) (P.seen port.old) (view L.seen connection.new) (P.seen port.new) }
    ensures bounded { IsBounded LIMIT (view L.seen connection.old) → IsBounded LIMIT (view L.seen connection.new) }
    ensures stops { HasStopped connection.new.stop (view L.seen connection.new) }
    ensures silent { SaysNothing (view L.seen connection.old) (view L.seen connection.new) }
    ensures keeps_none { P.kept port.new ≡ P.kept port.old }
{
    let stop = take_in(alloc, port, place, connection, buffer);
    connection.stop = stop;
}

/// The second half: writes what waits, as far as the line takes it, and tells what the turn leaves. Asks nothing, and
/// waits for nothing.
pub(crate) fn reply<L: ReadyLine>(connection: &mut Connection<L>) -> After
    ensures keeps { Keeps (view L.seen connection.old) (view L.seen connection.new) }
    ensures shrinks { length connection.new.waiting.items ≤ length connection.old.waiting.items }
    ensures stays { HasStopped connection.old.stop (view L.seen connection.old) → HasStopped connection.new.stop (view L.seen connection.new) }
    ensures left { HasStopped connection.old.stop (view L.seen connection.old) → IsLeft LIMIT (view L.seen connection.new) result }
{
    flush(connection);
    if connection.is_over() {
        return After::Over;
    }
    if connection.could_go_on() {
        return After::Again;
    }
    After::Waits
}
