//! Schedules: operations are submitted and messages delivered as random numbers say, and then all that is left. Each
//! completed read has to be answered with its meaning on the history of the home where it was submitted, and in the end
//! nothing is open, and both data centres hold one table. In some schedules the sessions move between the two.
use crate::building::{batch, number, range, read, time, topology};
use crate::worlds::{deliver, history, submit};
use drains::drain;
use logical_time::{Fault, Node, Time};
use messages::{Op, Outcome};
use slice::{Answer, Read};
use std::alloc::Global;
use std::fs;
use std::thread::Threads;
use table::{History, answer};
use workload::audit;
use world::{Completed, World};

/// How many sessions there are.
const SESSIONS: u16 = 3;

/// The node of the first session.
const FIRST_SESSION: u16 = 4;

/// How many random numbers a schedule takes.
const LENGTH: u16 = 300;

/// The random number after this one.
fn following(number: u64) -> u64 {
    number.wrapping_mul(1_103_515_245).wrapping_add(12_345) % 0x8000_0000
}

/// Insertions of this number into two rows that lie on two shards.
fn insertions(alloc: Global, number: u64) -> Result<Op, Fault> {
    let first = format!(in alloc; "b:x{number}")?;
    let second = format!(in alloc; "a:x{number}")?;
    Ok(Op::write(alloc, batch(alloc, &[first.as_str(), second.as_str()])?)?)
}

/// A read of all columns of these rows.
fn all_columns(alloc: Global) -> Result<Read, Fault> {
    let all = range(alloc, "-", "-", "100", false)?;
    read(alloc, "ab", all)
}

/// Whether sessions stay in their data centres.
#[derive(Clone, Copy, PartialEq, Eq)]
enum Sessions {
    Stay,
    Move,
}

/// The operation of this number of a session that stays: insertions, if it is odd, and else a read of what they write. One that
/// moves does so at even numbers, to the one data centre and the other, and inserts and reads between.
fn operation(alloc: Global, sessions: Sessions, number: u64) -> Result<Op, Fault> {
    if sessions == Sessions::Move && number % 2 == 0 {
        let dc = (number / 2 % 2) as u16;
        return Ok(Op::Move { dc });
    }
    if number % 4 == 1 || (sessions == Sessions::Stay && number % 2 == 1) {
        return insertions(alloc, number);
    }
    Ok(Op::read(alloc, all_columns(alloc)?)?)
}

/// The session whose turn it is submits its next operation. While it is busy, it keeps that for its next turn. A move to the data
/// centre where it is is refused, and not made again.
fn submit_next(
    alloc: Global,
    world: &mut World,
    sessions: Sessions,
    next: &mut [u64],
    turn: u16,
) -> Result<(), Fault> {
    let session = turn % SESSIONS;
    let Some(number) = next.get_mut(session as usize) else {
        return Err(Fault::Script);
    };
    let op = operation(alloc, sessions, *number)?;
    match submit(world, Node::new(FIRST_SESSION + session), op) {
        Ok(()) | Err(Fault::AlreadyHome) => {
            *number = number.wrapping_add(1);
            Ok(())
        }
        Err(Fault::Busy) => Ok(()),
        Err(fault) => Err(fault),
    }
}

/// Delivers the message that the number names, if any was sent.
fn deliver_one(world: &mut World, number: u64) -> Result<(), Fault> {
    match world.sent() {
        0 => Ok(()),
        sent => deliver(world, (number % sent as u64) as usize),
    }
}

/// Plays the schedule of this seed, and then drains the world.
fn play(alloc: Global, world: &mut World, sessions: Sessions, seed: u64) -> Result<(), Fault> {
    let mut next = [1u64; SESSIONS as usize];
    let mut number = seed;
    for step in 1..=LENGTH {
        number = following(number);
        if step % 10 == 0 {
            submit_next(alloc, world, sessions, &mut next, step / 10)?;
        }
        deliver_one(world, number / 65_536)?;
    }
    drain(world)?;
    Ok(())
}

fn are_same(first: &Answer, second: &Answer) -> bool {
    let (first, second) = (first.as_slice(), second.as_slice());
    first.len() == second.len()
        && first.iter().zip(second).all(|(first, second)| {
            first.key == second.key && first.columns.as_slice() == second.columns.as_slice()
        })
}

/// Whether the answer is what the read means on the history of its home.
fn is_meant(
    alloc: Global,
    world: &World,
    (home, effective): (u16, Time),
    (read, shown): (&Read, &Answer),
) -> Result<bool, Fault> {
    let history = history(alloc, world, home)?;
    let meant = answer(alloc, &history, effective, read)?;
    Ok(are_same(&meant, shown))
}

/// Whether it is a completed read, and then whether its answer is what it means.
fn judged(alloc: Global, world: &World, ended: &Completed) -> Result<Option<bool>, Fault> {
    match (&ended.op, &ended.outcome) {
        (Op::Read(read), Outcome::Read { effective, answer }) => {
            let at = (ended.home, *effective);
            Ok(Some(is_meant(alloc, world, at, (read.get(), answer))?))
        }
        _ => Ok(None),
    }
}

/// The history of each data centre.
fn histories(alloc: Global, world: &World) -> Result<Vec<History>, Fault> {
    let mut histories = Vec::new(alloc);
    for dc in 0..world.topology().dcs() {
        histories.push(history(alloc, world, dc)?)?;
    }
    Ok(histories)
}

/// Whether all these histories have one table at the greatest time.
fn agree(alloc: Global, histories: &[History]) -> Result<bool, Fault> {
    let (read, last) = (all_columns(alloc)?, time("281474976710655"));
    for history in histories {
        for other in histories {
            let first = answer(alloc, history, last, &read)?;
            if !are_same(&first, &answer(alloc, other, last, &read)?) {
                return Ok(false);
            }
        }
    }
    Ok(true)
}

/// How many moves and reads completed, how many reads with another answer than they mean, how many the audit finds and how
/// many wrong ones, and after how many schedules nothing was open, and all data centres held one table.
#[derive(Drop)]
struct Count {
    moves: u64,
    reads: u64,
    wrong: u64,
    audited: u64,
    misread: u64,
    quiet: u64,
    agreed: u64,
}

fn add(count: &mut u64, is_one: bool) {
    if is_one {
        *count = count.wrapping_add(1);
    }
}

impl Count {
    fn new() -> Count {
        Count {
            moves: 0,
            reads: 0,
            wrong: 0,
            audited: 0,
            misread: 0,
            quiet: 0,
            agreed: 0,
        }
    }

    /// Adds what ended.
    fn add_ended(&mut self, alloc: Global, world: &World) -> Result<(), Fault> {
        for ended in world.transcript() {
            add(
                &mut self.moves,
                matches!(&ended.outcome, Outcome::Moved { .. }),
            );
            if let Some(is_right) = judged(alloc, world, ended)? {
                add(&mut self.reads, true);
                add(&mut self.wrong, !is_right);
            }
        }
        Ok(())
    }

    /// Adds what the audit finds, and how the world was left.
    fn add_left<T: Threads + Sync>(
        &mut self,
        threads: &T,
        alloc: Global,
        world: &World,
    ) -> Result<(), Fault> {
        let histories = histories(alloc, world)?;
        let found = audit(threads, alloc, histories.as_slice(), world.transcript())?;
        self.audited = self.audited.wrapping_add(found.reads);
        self.misread = self.misread.wrapping_add(found.wrong);
        add(&mut self.quiet, world.is_quiet());
        add(&mut self.agreed, agree(alloc, histories.as_slice())?);
        Ok(())
    }

    /// Adds all of a world in which the schedule of this seed was played.
    fn add_played<T: Threads + Sync>(
        &mut self,
        threads: &T,
        alloc: Global,
        world: &mut World,
        (sessions, seed): (Sessions, u64),
    ) -> Result<(), Fault> {
        play(alloc, world, sessions, seed)?;
        self.add_ended(alloc, world)?;
        self.add_left(threads, alloc, world)
    }

    /// Adds the schedule of this seed.
    fn add_schedule<T: Threads + Sync>(
        &mut self,
        threads: &T,
        alloc: Global,
        schedule: (Sessions, u64),
    ) -> Result<(), Fault> {
        let topology = topology(alloc, (2, 2), &[0, 1, 0])?;
        let mut world = World::new(alloc, &topology)?;
        let added = self.add_played(threads, alloc, &mut world, schedule);
        world.close();
        added
    }
}

/// Plays so many schedules, and tells what came of them.
fn tell_all<T: Threads + Sync>(
    rt: &HostRuntime,
    threads: &T,
    sessions: Sessions,
    schedules: u64,
) -> Result<(), Fault> {
    let mut count = Count::new();
    for seed in 1..=schedules {
        count.add_schedule(threads, rt.alloc(), (sessions, seed))?;
    }
    let Count {
        moves,
        reads,
        wrong,
        audited,
        misread,
        quiet,
        agreed,
    } = count;
    let word = if sessions == Sessions::Move {
        " with moves"
    } else {
        ""
    };
    println!(rt;
        "schedules {schedules}{word}: moves {moves}, reads {reads}, wrong {wrong}, audit {audited} wrong {misread}, quiet {quiet}, agreed {agreed}"
    ).map_err(|_| Fault::WriteFailed)
}

/// Plays as many schedules as the file says in its first line, and in its second with moves.
pub(crate) fn tell<T: Threads + Sync>(rt: &HostRuntime, threads: &T) -> Result<(), Fault> {
    let Ok(text) = fs::read_to_string(rt, "schedules.txt") else {
        return Err(Fault::ReadFailed);
    };
    let (staying, moving) = text.split_once('\n').unwrap_or((text.as_str(), ""));
    tell_all(rt, threads, Sessions::Stay, number(staying.trim()))?;
    tell_all(rt, threads, Sessions::Move, number(moving.trim()))
}
