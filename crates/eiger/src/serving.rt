//! The server.
ghost use Rattle.std.specs.Prelude.{◌⊎◌, ◌≡◌};
ghost use Rattle.eiger.specs.Answering.{IsDone, HasFailed, IsServed};

use crate::together::serve_together;
use command_line::Serving;
use logical_time::Fault;
use messages::Topology;
use program::{Buffered, Output, tell};
use service::serve_connections;
use std::alloc::Global;
use std::net::TcpListener;
use std::sync::Wait;
use world::World;

/// Says that it listens.
pub(crate) fn tell_port<W: Buffered>(
    alloc: Global,
    port: u16,
    output: &mut Output<W>,
) -> Result<(), Fault> {
    let line = format!(in alloc; "listening {port}\n")?;
    output.write_all(line.as_bytes())
}

// Serves a connection for each session of a world of this topology.
fn serve_all(alloc: Global, listener: &TcpListener, topology: &Topology) -> Result<(), Fault> {
    let sessions = topology.homes().len() as u16;
    let mut world = World::new(alloc, topology)?;
    let served = serve_connections(alloc, listener, &mut world, sessions);
    world.close();
    served
}

// Listens, says so, and serves.
fn listen<W: Buffered>(
    rt: &HostRuntime,
    serving: &Serving,
    output: &mut Output<W>,
) -> Result<(), Fault> {
    let Ok(listener) = TcpListener::bind(rt, ("127.0.0.1", serving.port)) else {
        return Err(Fault::ReadFailed);
    };
    tell_port(rt.alloc(), serving.port, output)?;
    serve_all(rt.alloc(), &listener, &serving.topology)
}

// Listens on the port, says so, and serves a connection for each session, one after the other.
fn serve_in_turn<W: Buffered, E: Buffered>(
    rt: &HostRuntime,
    serving: &Serving,
    output: &mut Output<W>,
    errors: &mut Output<E>,
) -> u8
    ensures { IsDone result errors.old errors.new ⊎ HasFailed E.contents result errors.old errors.new }
{
    match listen(rt, serving, output) {
        Ok(()) => 0,
        Err(fault) => tell(errors, fault, None),
    }
}

/// Listens on the port, says so, and serves: a connection for each session, one after the other; or, where that is asked for,
/// all sessions at once, until it is stopped. Gives the exit status: 0, but not of the second; 1 after a fault was told:
/// `ReadFailed` where it can't listen or accept, `WriteFailed` where it can't say that it listens, `Memory`.
pub(crate) fn serve<T: Wait, W: Buffered, E: Buffered>(
    rt: &HostRuntime,
    threads: &T,
    serving: &Serving,
    output: &mut Output<W>,
    errors: &mut Output<E>,
) -> u8
    ensures { IsServed E.contents serving.now.concurrent result errors.old errors.new }
{
    if serving.concurrent {
        return serve_together(rt, threads, serving, output, errors);
    }
    serve_in_turn(rt, serving, output, errors)
}
