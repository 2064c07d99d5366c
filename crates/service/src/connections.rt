//! Connections, served by the sessions of a world.
ghost use Rattle.std.specs.Prelude.{◌≡◌, ◌≤◌, ◌<◌, ℕ, true, false, length, IfErr, OnOk, OnErr};
ghost use Rattle.messages.specs.Topology.{is_session};
ghost use Rattle.service.specs.Connections.{AreServed, IsServed};

use crate::session::serve_session;
use front::SocketLine;
use logical_time::{Fault, Node};
use std::alloc::Global;
use std::net::TcpListener;
use world::World;

// Waits for a connection, and serves it by this session. False where none can be accepted.
fn serve_next(alloc: Global, listener: &TcpListener, world: &mut World, session: Node) -> bool
    requires { is_session world.old.top session ≡ true }
    ensures served { result ≡ true → IsServed world.old.top session world.old.events world.new.events }
    ensures same { result ≡ false → world.new ≡ world.old }
    ensures topology { world.new.top ≡ world.old.top }
{
    let Ok((stream, _)) = listener.accept() else {
        return false;
    };
    let mut line = SocketLine::new(stream);
    let _ended = serve_session(alloc, world, session, &mut line);
    true
}

/// Waits for so many connections, one after the other, and serves each to its end, however it ends: the first by the first
/// session, and each by the next one. That there are so many sessions is the caller's condition. Refused with `ReadFailed`
/// where a connection can't be accepted; those before it were served.
pub fn serve_connections(
    alloc: Global,
    listener: &TcpListener,
    world: &mut World,
    sessions: u16,
) -> Result<(), Fault>
    requires { sessions ≤ length world.old.top.homes }
    ensures ok { OnOk result (AreServed world.old.top sessions world.old.events world.new.events) }
    ensures err { OnErr result ((n : ℕ) × (n < sessions) × AreServed world.old.top n world.old.events world.new.events) }
    ensures fault { IfErr result (λ e. e ≡ Fault.ReadFailed) }
    ensures topology { world.new.top ≡ world.old.top }
{
    for index in 0..sessions {
        let session = world.topology().session_node(index);
        if !serve_next(alloc, listener, world, session) {
            return Err(Fault::ReadFailed);
        }
    }
    Ok(())
}
