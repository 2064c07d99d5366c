//! Crowds of clients, served at once by one world: some work, in threads of their own, while others only stand there.
use super::strained::{Stands, stand};
use super::worlds::world;
use super::{judged, workers};
use crate::showing::print;
use audit::Audit;
use doors::Doors;
use logical_time::Fault;
use service::WorldSessions;
use std::alloc::Global;
use std::fs;
use std::net::TcpStream;
use std::thread::{self, Threads};
use world::World;

/// A crowd: how many places there are, and which clients come.
#[derive(Drop)]
struct Crowd {
    places: usize,
    standing: Vec<Stands>,
    // Whether each of those that work sends a byte at a time.
    working: Vec<bool>,
}

/// What came of those that were served: how many connections ended with a fault of their bytes, and how many failed.
#[derive(Clone, Copy)]
pub(crate) struct Ends {
    pub(crate) refused: usize,
    pub(crate) failed: usize,
}

impl Ends {
    fn new() -> Ends {
        Ends {
            refused: 0,
            failed: 0,
        }
    }

    // Adds those of the last round.
    fn add(&mut self, doors: &Doors) {
        for ended in doors.ended() {
            match ended.fault {
                Fault::ReadFailed | Fault::WriteFailed => self.failed = self.failed.wrapping_add(1),
                _ => self.refused = self.refused.wrapping_add(1),
            }
        }
    }
}

/// Serves by the doors until so many connections came, and all are over.
pub(crate) fn serve(doors: &mut Doors, world: &mut World, count: u64) -> Result<Ends, Fault> {
    let mut ends = Ends::new();
    let mut port = WorldSessions::new(world);
    for _ in 0..u64::MAX {
        doors.round(&mut port, 0)?;
        ends.add(doors);
        if count <= doors.accepted() && doors.are_empty() {
            return Ok(ends);
        }
    }
    Err(Fault::ReadFailed)
}

/// Adds so many clients of a kind.
fn add(crowd: &mut Crowd, kind: &str, count: usize) -> Result<(), Fault> {
    for _ in 0..count {
        match kind {
            "works" => crowd.working.push(false)?,
            "byte_by_byte" => crowd.working.push(true)?,
            "stalls" => crowd.standing.push(Stands::Unread)?,
            "cuts" => crowd.standing.push(Stands::Cut)?,
            "claims" => crowd.standing.push(Stands::Silent)?,
            _ => return Err(Fault::Script),
        }
    }
    Ok(())
}

/// The crowd of a line: its places, and then kinds of clients, each with how many.
fn crowd_of(alloc: Global, words: &str) -> Result<Crowd, Fault> {
    let (places, kinds) = words.split_once(' ').ok_or(Fault::Script)?;
    let mut crowd = Crowd {
        places: places.parse().unwrap_or(0),
        standing: Vec::new(alloc),
        working: Vec::new(alloc),
    };
    for kind in kinds.split(' ') {
        let (kind, count) = kind.split_once('*').ok_or(Fault::Script)?;
        add(&mut crowd, kind, count.parse().unwrap_or(0))?;
    }
    Ok(crowd)
}

/// Those that stand there come first; and while they do, the others work. What each of these heard.
fn run_all<R: Threads + Sync>(
    rt: &HostRuntime,
    threads: &R,
    port: u16,
    crowd: &Crowd,
) -> Result<Vec<Vec<u8>>, Fault> {
    let mut standing: Vec<Option<TcpStream>> = Vec::new(rt.alloc());
    for kind in &crowd.standing {
        standing.push(stand(rt, rt.alloc(), port, *kind)?)?;
    }
    let working = crowd.working.as_slice();
    let alloc = rt.alloc();
    let heard = thread::map_indices(
        threads,
        alloc,
        working.len(),
        &|index: usize| {
            workers::work(rt, alloc, port, index, working.get(index) == Some(&true))
        },
    )?;
    let mut whole = Vec::new(alloc);
    for one in heard {
        whole.push(one?)?;
    }
    Ok(whole)
}

/// What a crowd leaves.
struct Left {
    world: World,
    ends: Ends,
    heard: Vec<Vec<u8>>,
}

/// Serves a crowd by a new world with a session for each place.
fn serve_crowd<R: Threads + Sync>(
    rt: &HostRuntime,
    threads: &R,
    crowd: &Crowd,
) -> Result<Left, Fault> {
    let alloc = rt.alloc();
    let mut doors = Doors::open(rt, alloc, 0, crowd.places)?;
    let port = doors.port().ok_or(Fault::ReadFailed)?;
    let count = crowd.standing.len().saturating_add(crowd.working.len()) as u64;
    let mut world = world(alloc, crowd.places.min(16) as u16)?;
    let (served, heard) = thread::join(
        threads,
        || serve(&mut doors, &mut world, count),
        || run_all(rt, threads, port, crowd),
    );
    match (served, heard) {
        (Ok(ends), Ok(heard)) => Ok(Left { world, ends, heard }),
        (Err(fault), _) | (_, Err(fault)) => {
            world.close();
            Err(fault)
        }
    }
}

/// The line that tells of a crowd: of those that worked, and what the audit finds.
fn line_of(
    alloc: Global,
    name: &str,
    (right, workers): (usize, usize),
    ends: Ends,
    found: &Audit,
) -> Result<String, Fault> {
    let Ends { refused, failed } = ends;
    let audited = if found.reads > 0 {
        "audited"
    } else {
        "no read"
    };
    let wrong = found.wrong;
    Ok(format!(in alloc;
        "{name}: {right} of {workers} answered as the run says, {audited}, {wrong} wrong; refused {refused}, failed {failed}"
    )?)
}

/// Serves a crowd, and tells of it.
fn tell_crowd<R: Threads + Sync>(
    rt: &HostRuntime,
    threads: &R,
    name: &str,
    crowd: &Crowd,
) -> Result<(), Fault> {
    let Left { world, ends, heard } = serve_crowd(rt, threads, crowd)?;
    let right = judged::right(rt.alloc(), &world, heard.as_slice());
    let found = judged::audited(threads, rt.alloc(), &world);
    let line = match (right, found) {
        (Ok(right), Ok(found)) => line_of(rt.alloc(), name, (right, heard.len()), ends, &found),
        (Err(fault), _) | (_, Err(fault)) => Err(fault),
    };
    world.close();
    print(rt, line?.as_str())
}

/// Tells of each crowd.
pub(crate) fn tell<R: Threads + Sync>(rt: &HostRuntime, threads: &R) -> Result<(), Fault> {
    let Ok(crowds) = fs::read_to_string(rt, "crowds.txt") else {
        return Err(Fault::ReadFailed);
    };
    for line in crowds.lines() {
        let (name, words) = line.split_once(' ').ok_or(Fault::Script)?;
        tell_crowd(rt, threads, name, &crowd_of(rt.alloc(), words)?)?;
    }
    Ok(())
}
