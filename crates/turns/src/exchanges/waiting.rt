//! More clients than places: those that find none wait, and are served as others leave.
use super::connections::send;
use super::crowds::serve;
use super::judged::right;
use super::workers::{batch, hear, read_of_all};
use super::worlds::world;
use crate::showing::print;
use doors::Doors;
use logical_time::Fault;
use std::alloc::Global;
use std::io::Read;
use std::net::{Shutdown, TcpStream};
use std::thread::{self, Threads};
use std::time::Duration;
use world::World;

/// How many places there are, and how many clients come.
const PLACES: usize = 4;

const CLIENTS: usize = 8;

/// How long a client listens that isn't served, in milliseconds.
const PATIENCE: u64 = 30;

/// What was seen.
#[derive(Drop)]
struct Seen {
    // Clients that were answered as they came, and that weren't.
    answered: usize,
    waited: usize,
    // What each of the first heard, and behind that what the client heard that was served once it had left.
    heard: Vec<Vec<u8>>,
}

// Whether nothing is heard.
fn is_silent(stream: &mut TcpStream) -> bool {
    let patience = Some(Duration::from_millis(PATIENCE));
    if stream.set_read_timeout(patience).is_err() {
        return false;
    }
    let silent = stream.read(&mut [0u8; 1]).is_err();
    silent && stream.set_read_timeout(None).is_ok()
}

// Adds the replies to both requests.
fn add_replies(stream: &mut TcpStream, heard: &mut Vec<u8>) -> Result<(), Fault> {
    hear(stream, heard)?;
    hear(stream, heard)
}

// Clients that come at once, each with two requests.
fn come(rt: &HostRuntime, alloc: Global, port: u16) -> Result<Vec<TcpStream>, Fault> {
    let mut clients = Vec::new(alloc);
    for index in 0..CLIENTS {
        let mut sent = Vec::from_slice(alloc, &batch(b'a', index as u8))?;
        sent.extend_from_slice(&read_of_all())?;
        clients.push(send(rt, port, &sent)?)?;
    }
    Ok(clients)
}

// All come; those that stand first are answered. Each leaves in turn, and then one that waits is answered.
fn run_all(rt: &HostRuntime, alloc: Global, port: u16) -> Result<Seen, Fault> {
    let mut first = come(rt, alloc, port)?;
    let mut rest = first.split_off(PLACES.min(first.len()))?;
    let mut heard = Vec::new(alloc);
    for client in first.iter_mut() {
        let mut replies = Vec::new(alloc);
        add_replies(client, &mut replies)?;
        heard.push(replies)?;
    }
    let mut waited: usize = 0;
    for client in rest.iter_mut() {
        if is_silent(client) {
            waited = waited.wrapping_add(1);
        }
    }
    let answered = heard.len();
    for ((client, next), replies) in first.iter().zip(rest.iter_mut()).zip(heard.iter_mut()) {
        let _left = client.shutdown(Shutdown::Both);
        add_replies(next, replies)?;
    }
    Ok(Seen {
        answered,
        waited,
        heard,
    })
}

// The line that tells of them.
fn line_of(alloc: Global, seen: &Seen, world: &World) -> Result<String, Fault> {
    let (answered, waited) = (seen.answered, seen.waited);
    let right = right(alloc, world, seen.heard.as_slice())?;
    Ok(format!(in alloc;
        "more than places: {answered} answered, {waited} wait, {right} sessions answered who came and who came once that one left"
    )?)
}

/// Tells of them.
pub(crate) fn tell<R: Threads + Sync>(rt: &HostRuntime, threads: &R) -> Result<(), Fault> {
    let alloc = rt.alloc();
    let mut doors = Doors::open(rt, alloc, 0, PLACES)?;
    let port = doors.port().ok_or(Fault::ReadFailed)?;
    let mut world = world(alloc, PLACES as u16)?;
    let (served, seen) = thread::join(
        threads,
        || serve(&mut doors, &mut world, CLIENTS as u64),
        || run_all(rt, alloc, port),
    );
    let line = match (served, seen) {
        (Ok(_), Ok(seen)) => line_of(alloc, &seen, &world),
        (Err(fault), _) | (_, Err(fault)) => Err(fault),
    };
    world.close();
    print(rt, line?.as_str())
}
