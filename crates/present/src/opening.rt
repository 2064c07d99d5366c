//! The actors of a topology, before their first events.
ghost use Rattle.std.specs.Prelude.{◌≡◌, ◌+◌, ◌<◌, length, IfOk, IfErr};
ghost use Rattle.messages.specs.Topology.{shard_count};
ghost use Rattle.world.specs.Run.{opening};
ghost use Rattle.present.specs.Present.{IsAt, AreSessions, IsPresentOf};

use crate::actors::Actors;
use crate::waiting::Waiting;
use client::Session;
use logical_time::Fault;
use messages::Topology;
use std::alloc::Global;
use world::{copy_of, open_shards};

// A session.
fn open_session(alloc: Global, topology: &Topology, session: u16) -> Result<Session, Fault>
    requires { session < length topology.now.homes }
    ensures ok { IfOk result (λ kept. IsAt topology.now (opening topology.now).sessions (shard_count topology.now + session) kept) }
    ensures memory { IfErr result (λ e. e ≡ Fault.Memory) }
{
    let node = topology.session_node(session);
    match topology.home_of(node) {
        Some(_) => Session::new(alloc, topology, node),
        None => unreachable!(),
    }
}

// The sessions.
#[tactic(auto, using(world::proofs::in_code::Beginning::none_yet, world::proofs::in_code::Beginning::one_more, crate::proofs::Opened::sessions_begin))]
fn open_sessions(alloc: Global, topology: &Topology) -> Result<Vec<Session>, Fault>
    ensures count { IfOk result (λ sessions. length sessions.items ≡ length topology.now.homes) }
    ensures ok { IfOk result (λ sessions. AreSessions topology.now (shard_count topology.now) (opening topology.now).sessions sessions.items) }
    ensures memory { IfErr result (λ e. e ≡ Fault.Memory) }
{
    let count = topology.homes().len();
    let mut sessions = Vec::with_capacity(alloc, count)?;
    for session in 0..count as u16 {
        match open_session(alloc, topology, session) {
            Ok(session) => sessions.push_reserved(session),
            Err(fault) => {
                close_sessions(sessions);
                return Err(fault);
            }
        }
    }
    Ok(sessions)
}

/// The actors, and nothing that waits. Refused with `Memory` alone.
pub(crate) fn open_actors(alloc: Global, topology: &Topology) -> Result<Actors, Fault>
    ensures ok { IfOk result (λ actors. (actors.topology ≡ topology.now) × IsPresentOf topology.now (opening topology.now) actors) }
    ensures memory { IfErr result (λ e. e ≡ Fault.Memory) }
{
    let copy = copy_of(topology)?;
    let sessions = open_sessions(alloc, topology)?;
    match open_shards(alloc, topology) {
        Ok(shards) => Ok(Actors {
            topology: copy,
            shards,
            sessions,
            waiting: Waiting::new(alloc),
        }),
        Err(fault) => {
            close_sessions(sessions);
            Err(fault)
        }
    }
}

/// Ends the sessions.
pub(crate) fn close_sessions(mut sessions: Vec<Session>) {
    while let Some(session) = sessions.pop() {
        session.close();
    }
    sessions.destroy_empty();
}
