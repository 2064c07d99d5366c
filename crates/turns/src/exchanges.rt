//! Exchanges: worked frames and parcels, lines in memory and connections, with what is read of them, answered and left.
//! An empty file leaves its part out.
mod connections;
mod crowds;
mod envelopes;
mod frames;
mod judged;
mod lines;
mod showing;
mod strained;
mod waiting;
mod workers;
mod worlds;

use logical_time::Fault;
use std::thread::{self, Threads};

/// Tells of the clients that are served over loopback, one after the other, by a world with a session for each.
fn tell_clients<R: Threads>(rt: &HostRuntime, threads: &R) -> Result<(), Fault> {
    let clients = connections::clients(rt)?;
    let sessions = connections::count(clients.as_str());
    let (listener, port) = connections::listen(rt)?;
    let mut world = worlds::world(rt.alloc(), sessions.max(1))?;
    let (served, told) = thread::join(
        threads,
        || connections::serve(rt.alloc(), &listener, &mut world, sessions),
        || connections::run_all(rt, rt.alloc(), port, clients.as_str()),
    );
    world.close();
    served?;
    connections::tell(rt, told?.as_str())
}

/// Tells of frames, parcels, lines and connections.
pub(crate) fn tell<R: Threads + Sync>(rt: &HostRuntime, threads: &R) -> Result<(), Fault> {
    frames::tell(rt)?;
    envelopes::tell(rt)?;
    lines::tell(rt)?;
    tell_clients(rt, threads)?;
    crowds::tell(rt, threads)?;
    waiting::tell(rt, threads)
}
