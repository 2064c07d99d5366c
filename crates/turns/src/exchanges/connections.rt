//! Connections over loopback, one client after the other: those that ask, those that talk, and those that leave without an answer.
use super::showing::{bytes_of, digits};
use super::workers;
use crate::showing::print;
use logical_time::Fault;
use service::serve_connections;
use std::alloc::Global;
use std::fs;
use std::io::{Read, Write};
use std::net::{Shutdown, TcpListener, TcpStream};
use world::World;

/// What the clients do, one a line: `asks`, `talks` or `leaves`, a name, and the bytes that are sent, of one that talks frame by
/// frame.
pub(crate) fn clients(rt: &HostRuntime) -> Result<String, Fault> {
    fs::read_to_string(rt, "clients.txt").map_err(|_| Fault::ReadFailed)
}

/// How many clients there are.
pub(crate) fn count(clients: &str) -> u16 {
    let mut count = 0u16;
    for _ in clients.lines() {
        count = count.saturating_add(1);
    }
    count
}

/// A listener on some port of 127.0.0.1, and the port.
pub(crate) fn listen(rt: &HostRuntime) -> Result<(TcpListener, u16), Fault> {
    let Ok(listener) = TcpListener::bind(rt, "127.0.0.1:0") else {
        return Err(Fault::ReadFailed);
    };
    let Ok(address) = listener.local_addr() else {
        return Err(Fault::ReadFailed);
    };
    Ok((listener, address.port()))
}

/// Serves so many clients, if the world has a session for each.
pub(crate) fn serve(
    alloc: Global,
    listener: &TcpListener,
    world: &mut World,
    sessions: u16,
) -> Result<(), Fault> {
    if world.topology().homes().len() < sessions as usize {
        return Err(Fault::Script);
    }
    serve_connections(alloc, listener, world, sessions)
}

/// Comes, and sends this.
pub(crate) fn send(rt: &HostRuntime, port: u16, sent: &[u8]) -> Result<TcpStream, Fault> {
    let Ok(mut stream) = TcpStream::connect(rt, ("127.0.0.1", port)) else {
        return Err(Fault::ReadFailed);
    };
    match stream.write_all(sent) {
        Ok(()) => Ok(stream),
        Err(_) => Err(Fault::WriteFailed),
    }
}

/// Ends its side, and gives what comes back.
fn hear(alloc: Global, mut stream: TcpStream) -> Result<Vec<u8>, Fault> {
    if stream.shutdown(Shutdown::Write).is_err() {
        return Err(Fault::WriteFailed);
    }
    let mut heard = Vec::new(alloc);
    match stream.read_to_end(&mut heard) {
        Ok(_) => Ok(heard),
        Err(_) => Err(Fault::ReadFailed),
    }
}

/// Comes, sends each frame once the one before is answered, and gives what comes back.
fn talk(rt: &HostRuntime, alloc: Global, port: u16, frames: &str) -> Result<Vec<u8>, Fault> {
    let mut stream = send(rt, port, &[])?;
    workers::prepare(&mut stream)?;
    let mut heard = Vec::new(alloc);
    for frame in frames.split(' ') {
        if stream.write_all(&bytes_of(alloc, frame)?).is_err() {
            return Err(Fault::WriteFailed);
        }
        workers::hear(&mut stream, &mut heard)?;
    }
    Ok(heard)
}

/// Runs a client, and gives the line that tells of it.
fn run(rt: &HostRuntime, alloc: Global, port: u16, client: &str) -> Result<String, Fault> {
    let (kind, rest) = client.split_once(' ').ok_or(Fault::Script)?;
    let (name, sent) = rest.split_once(' ').ok_or(Fault::Script)?;
    let heard = match kind {
        "asks" => hear(alloc, send(rt, port, &bytes_of(alloc, sent)?)?)?,
        "talks" => talk(rt, alloc, port, sent)?,
        "leaves" => {
            let _stream = send(rt, port, &bytes_of(alloc, sent)?)?;
            return Ok(format!(in alloc; "{name}: left\n")?);
        }
        _ => return Err(Fault::Script),
    };
    let heard = digits(alloc, &heard)?;
    Ok(format!(in alloc; "{name}: answered {heard}\n")?)
}

/// Runs the clients, and gives the lines that tell of them.
pub(crate) fn run_all(
    rt: &HostRuntime,
    alloc: Global,
    port: u16,
    clients: &str,
) -> Result<String, Fault> {
    let mut told = String::new(alloc);
    for client in clients.lines() {
        told.push_str(run(rt, alloc, port, client)?.as_str())?;
    }
    Ok(told)
}

/// Tells of the clients.
pub(crate) fn tell(rt: &HostRuntime, told: &str) -> Result<(), Fault> {
    for line in told.lines() {
        print(rt, line)?;
    }
    Ok(())
}
