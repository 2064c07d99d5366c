//! One line, served by a session of a world.
ghost use Rattle.std.specs.Prelude.{◌≡◌, true};
ghost use Rattle.front.specs.Served.{Served};
ghost use Rattle.messages.specs.Topology.{is_session};
ghost use Rattle.world.specs.World.{run_of};
ghost use Rattle.service.specs.Meaning.{Replies};

use crate::port::WorldPort;
use front::{Ended, Line};
use logical_time::Node;
use std::alloc::Global;
use world::World;

/// Serves a line with this session of the world, until its input ends, the stream is refused, or the line fails. That the node
/// is a session's is the caller's condition. Each request costs what its submission and its drain do, beside the bytes of its
/// frames.
pub fn serve_session<L: Line>(
    alloc: Global,
    world: &mut World,
    session: Node,
    line: &mut L,
) -> Ended
    requires { is_session world.old.top session ≡ true }
    // what was written are the replies to the requests that the bytes spell; each read's is the meaning of its request, and each
    // write's is its entry, in the history of the data centre where the session submitted it, in the world left behind; each
    // move's is the data centre that it asked for, where each write before it is committed by the floor that the reply names
    ensures served { Served (Replies world.old.top session (run_of world.new)) result (L.seen line.old) world.old.events (L.seen line.new) world.new.events }
    ensures topology { world.new.top ≡ world.old.top }
{
    let mut port = WorldPort::new(world, session);
    port.serve_line(alloc, line)
}
