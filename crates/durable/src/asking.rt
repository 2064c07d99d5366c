//! A request that is kept.
ghost use Rattle.std.specs.Prelude.{◌≡◌, ◌<◌, true, length};
ghost use Rattle.messages.specs.Topology.{is_session, session_node};
ghost use Rattle.world.specs.World.{refusal_in, IsRefusedAs};
ghost use Rattle.world.specs.declared.run_event.RunEvent.TheVariants.{Submit};
ghost use Rattle.service.specs.Port.{Asks};
ghost use Rattle.durable.specs.Logged.{IsLogged};

use crate::noting::{note_request, take_back};
use disk::Disk;
use keeper::Log;
use logical_time::{Fault, Node};
use messages::{Op, Outcome};
use present::Present;
use service::{Unanswered, ask_present, make_ready};
use std::alloc::Global;

// The fault for a request that couldn't be noted: the world's own refusal, or else `Memory`.
fn unkept(world: &Present, session: Node, op: &Op) -> Fault
    requires { is_session world.now.top session ≡ true }
    ensures { IsRefusedAs (refusal_in world.now (Submit session op.now)) result }
{
    match world.check(session, op) {
        Ok(()) => Fault::Memory,
        Err(fault) => fault,
    }
}

/// The request of the session of this index and its answer, as `Host::ask` says, where its operation is noted in the log just where
/// it is submitted. That there is such a session is the caller's condition. Refused as that is, and with `Memory` where there is
/// none for what the log notes, or its operation is too long for a frame; then it isn't submitted. What is noted is on the disk
/// only after a commit: no reply is to be sent before.
pub(crate) fn ask_keeping<D: Disk>(
    alloc: Global,
    world: &mut Present,
    log: &mut Log<D>,
    index: u16,
    op: Op,
) -> Result<Outcome, Fault>
    requires { index < length world.old.top.homes }
    ensures asks { Asks world.old.top (session_node world.old.top index) world.old.events op result world.new.events }
    ensures topology { world.new.top ≡ world.old.top }
    ensures disk { log.new.disk ≡ log.old.disk }
    ensures secret { log.new.secret ≡ log.old.secret }
    // if the log told what led to all before, it still does
    ensures logged { IsLogged D.seen D.may_leave world.old.top log.old world.old.events → IsLogged D.seen D.may_leave world.old.top log.new world.new.events }
{
    let session = world.topology().session_node(index);
    make_ready(world)?;
    let mark = match note_request(alloc, log, index, &op) {
        Ok(mark) => mark,
        Err(_) => return Err(unkept(world, session, &op)),
    };
    match ask_present(world, session, op) {
        Ok(outcome) => Ok(outcome),
        Err(Unanswered::Untold(fault)) => Err(fault),
        Err(Unanswered::TurnedAway(fault)) => {
            take_back(log, mark);
            Err(fault)
        }
    }
}
