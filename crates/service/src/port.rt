//! A session of a world as a port.
ghost use Rattle.std.specs.Prelude.{◌≡◌, true};
ghost use Rattle.front.specs.Served.{Served};
ghost use Rattle.messages.specs.Topology.{is_session};
ghost use Rattle.world.specs.World.{run_of};
ghost use Rattle.service.specs.Meaning.{Replies};
ghost use Rattle.service.specs.Port.{IsPortStep};

use crate::asking::ask;
use front::{Ended, Line, Port, serve};
use logical_time::{Fault, Node};
use messages::{Op, Outcome};
use std::alloc::Global;
use world::World;

/// A session of a world, as the port of a line: each request is submitted to the world, and drained.
#[derive(Drop)]
pub struct WorldPort<'w> {
    world: &'w mut World,
    session: Node,
}

impl<'w> WorldPort<'w> {
    /// A port of this session. That the node is a session's is the caller's condition.
    pub fn new(world: &'w mut World, session: Node) -> WorldPort<'w>
        requires { is_session world.old.top session ≡ true }
        ensures same_world { result.world.ghost_name ≡ world.entry.ghost_name }
        ensures world_is { result.world.now ≡ world.old }
        ensures session_is { result.session ≡ session }
    {
        WorldPort { world, session }
    }

    /// Serves a line, until its input ends, the stream is refused, or the line fails.
    pub(crate) fn serve_line<L: Line>(&mut self, alloc: Global, line: &mut L) -> Ended
        requires { is_session self.old.world.now.top self.old.session ≡ true }
        ensures same_world { self.new.world.ghost_name ≡ self.old.world.ghost_name }
        ensures topology { self.new.world.now.top ≡ self.old.world.now.top }
        ensures served { Served (Replies self.old.world.now.top self.old.session (run_of self.new.world.now)) result (L.seen line.old) self.old.world.now.events (L.seen line.new) self.new.world.now.events }
    {
        // what is known of runs is known within the limits of a topology
        let _limits = self.world.topology();
        serve(alloc, line, self)
    }
}

impl Port for WorldPort<'_> {
    ghost steps = { IsPortStep };

    fn ask(&mut self, op: Op) -> Result<Outcome, Fault> {
        if self.world.topology().session_of(self.session).is_none() {
            return Err(Fault::Busy);
        }
        ask(self.world, self.session, op)
    }
}
