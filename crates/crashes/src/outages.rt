//! Worlds that come back: of a file that was cut at each byte, and where a call of the disk failed.
use crate::calls::failing_at;
use crate::count::Count;
use crate::tearing::{changed, torn};
use crate::worlds::{come_back, insert, is_read, settle};
use crate::written::Back;
use anyhow::{Context, Result};
use disk::{Call, Memory};
use durable::{Durable, OpenError};
use keeper::RecoveryError;
use service::{Host, Housed};
use std::alloc::Global;

/// How many insertions are settled together at first, and how many there are.
const FIRST: u8 = 4;

const ALL: u8 = 7;

/// What was acknowledged: so many insertions, the last at this commit time, and the file was so long then.
#[derive(Clone, Copy)]
struct Acknowledged {
    count: u8,
    last: u64,
    synced: usize,
}

/// Nothing was.
const NOTHING: Acknowledged = Acknowledged {
    count: 0,
    last: 0,
    synced: 0,
};

// Asks these insertions and settles. What is acknowledged then; the same as before where settling fails.
fn write(
    alloc: Global,
    world: &mut Durable<Memory>,
    before: Acknowledged,
    to: u8,
) -> Result<Acknowledged> {
    let mut last = before.last;
    for number in before.count..to {
        let commit = insert(alloc, world, number)?.context("an insertion is refused")?;
        if commit <= last {
            return None.context("an insertion commits at an earlier time");
        }
        last = commit;
    }
    match settle(world) {
        Ok(()) => Ok(Acknowledged {
            count: to,
            last,
            synced: world.disk().bytes().len(),
        }),
        Err(_) => Ok(before),
    }
}

// Whether all that was acknowledged is read, and what is inserted now commits later.
fn keeps(alloc: Global, world: &mut Durable<Memory>, known: Acknowledged) -> Result<bool> {
    for number in 0..known.count {
        if !is_read(alloc, world, number)? {
            return Ok(false);
        }
    }
    let commit = insert(alloc, world, ALL)?;
    Ok(commit.is_some_and(|commit| commit > known.last))
}

// What comes back of a file in which this was acknowledged.
fn look(alloc: Global, file: &[u8], known: Acknowledged) -> Result<Back> {
    let mut world = match come_back(alloc, file, Vec::new(alloc))? {
        Ok(world) => world,
        Err(OpenError::Unrecovered(RecoveryError::Damaged(_))) => return Ok(Back::Damaged),
        Err(_) => return Ok(Back::Other),
    };
    let found = world.found();
    let kept = keeps(alloc, &mut world, known);
    world.close();
    Ok(if kept? {
        Back::Records(found)
    } else {
        Back::Other
    })
}

/// A file, and what was acknowledged of it first and last.
#[derive(Drop)]
struct Told {
    file: Vec<u8>,
    first: Acknowledged,
    all: Acknowledged,
    // Whether settling once more works.
    works: bool,
}

// Two groups of insertions, each settled.
fn write_both(alloc: Global, world: &mut Durable<Memory>) -> Result<Told> {
    let first = write(alloc, world, NOTHING, FIRST)?;
    let all = write(alloc, world, first, ALL)?;
    let works = world.settle().is_ok();
    let file = world.disk().bytes().to_vec(alloc)?;
    Ok(Told {
        file,
        first,
        all,
        works,
    })
}

// What is written by a disk with these calls.
fn written(alloc: Global, calls: Vec<Call>) -> Result<Told> {
    let mut world = come_back(alloc, &[], calls)?.ok().context("no world")?;
    let told = write_both(alloc, &mut world);
    world.close();
    told
}

// The file cut at each byte.
fn cut(rt: &HostRuntime, told: &Told) -> Result<()> {
    let mut count = Count::new();
    for kept in 0..told.file.len() + 1 {
        let known = if kept >= told.all.synced {
            told.all
        } else if kept >= told.first.synced {
            told.first
        } else {
            NOTHING
        };
        count.add(look(rt.alloc(), &told.file[..kept], known)?);
    }
    count.tell(rt, "a world's log, cut at each byte")
}

// The file torn at each byte behind what was synced first, and this behind it.
fn tear(rt: &HostRuntime, told: &Told, label: &str, behind: &[u8]) -> Result<()> {
    let mut count = Count::new();
    for kept in told.first.synced..told.file.len() + 1 {
        let image = torn(rt.alloc(), &told.file[..kept], behind)?;
        let whole = kept >= told.all.synced;
        let known = if whole { told.all } else { told.first };
        count.add(look(rt.alloc(), &image, known)?);
    }
    count.tell(rt, label)
}

// The file with a bit of each byte changed: what was synced first is damaged, and what was synced last cut off.
fn change(rt: &HostRuntime, told: &Told) -> Result<()> {
    let mut count = Count::new();
    for at in 0..told.file.len() {
        let image = changed(rt.alloc(), &told.file, at, 1)?;
        let first = at < told.first.synced;
        let known = if first { NOTHING } else { told.first };
        count.add(look(rt.alloc(), &image, known)?);
    }
    count.tell(rt, "a world's log, a bit of each byte changed")
}

// A world one of whose disk's calls fails, a crash after it, and what comes back.
fn tell_failing(rt: &HostRuntime, at: usize) -> Result<()> {
    let told = written(rt.alloc(), failing_at(rt.alloc(), at)?)?;
    let mut count = Count::new();
    for kept in told.all.synced..told.file.len() + 1 {
        count.add(look(rt.alloc(), &told.file[..kept], told.all)?);
    }
    let word = if told.works { "works" } else { "fails" };
    let acknowledged = told.all.count;
    print!(rt;
        "call {at} of a world fails, {acknowledged} acknowledged, settling once more {word}; "
    )?;
    count.tell(rt, "left")
}

// It comes back, more is asked, and it comes back again.
fn again(alloc: Global, told: &Told) -> Result<Back> {
    let calls = Vec::new(alloc);
    let mut world = come_back(alloc, &told.file, calls)?
        .ok()
        .context("no world")?;
    let more = write(alloc, &mut world, told.all, ALL + 1);
    let file = world.disk().bytes().to_vec(alloc);
    world.close();
    look(alloc, &file?, more?)
}

pub(crate) fn tell(rt: &HostRuntime) -> Result<()> {
    let told = written(rt.alloc(), Vec::new(rt.alloc()))?;
    let (all, synced) = (told.file.len(), told.first.synced);
    println!(rt; "a world's log: {all} bytes, of which {synced} were synced first")?;
    cut(rt, &told)?;
    tear(rt, &told, "a world's log, torn, and zeros behind", &[0; 50])?;
    tear(
        rt,
        &told,
        "a world's log, torn, and ones behind",
        &[255; 50],
    )?;
    change(rt, &told)?;
    for at in 0..5 {
        tell_failing(rt, at)?;
    }
    let mut count = Count::new();
    count.add(again(rt.alloc(), &told)?);
    count.tell(rt, "back, more, and back again")
}
