//! Three lines in memory that two sessions serve together, each as it is ready: what they are answered where memory is
//! refused once, where a call of one of them fails, and where neither does.
use crate::building::topology;
use crate::lines::{BATCH, EMPTY, MEMORY, QUERY, READ, WROTE, copy_of};
use crate::showing::{note, print};
use logical_time::Fault;
use readiness::{Act, Call, MemoryLine, Run};
use service::run_sessions;
use std::alloc::Global;
use world::World;

/// How many calls of a line are told what to do, at most.
const CALLS: usize = 9;

/// The calls of the line with the batch: it is read in two pieces, and its reply is written in two, at first with no
/// room for it.
const WRITER: [Call; CALLS] = [
    Call::Bytes(9),
    Call::Nothing,
    Call::Bytes(4096),
    Call::Nothing,
    Call::Nothing,
    Call::Bytes(4096),
    Call::Bytes(7),
    Call::Bytes(4096),
    Call::Bytes(4096),
];

/// The calls of a line with a read beside it: nothing comes at first, and then a piece.
const READER: [Call; CALLS] = [
    Call::Nothing,
    Call::Bytes(4),
    Call::Nothing,
    Call::Bytes(4096),
    Call::Bytes(4096),
    Call::Bytes(11),
    Call::Bytes(4096),
    Call::Bytes(4096),
    Call::Bytes(4096),
];

/// The calls of a line with a read that comes when the first has left: each is ready.
const NEXT: [Call; CALLS] = [Call::Bytes(4096); CALLS];

/// Which line fails, and at which of its calls; none does behind the last.
#[derive(Clone, Copy)]
struct Failing {
    line: usize,
    call: usize,
}

impl Failing {
    /// Whether a call of this line fails.
    fn fails(self, line: usize) -> bool {
        self.line == line && self.call < CALLS
    }
}

/// No call fails.
const NEVER: Failing = Failing {
    line: 0,
    call: CALLS,
};

/// What was written to a line.
#[derive(Clone, Copy, PartialEq, Eq)]
enum Told {
    /// The reply to its request.
    Reply,
    /// A row without a column.
    Empty,
    /// 23, alone or behind the reply.
    Refused,
    /// A beginning of one of these.
    Cut,
    /// Anything else.
    Other,
}

/// What was written to each line.
#[derive(Clone, Copy)]
struct Came {
    batch: Told,
    read: Told,
    next: Told,
}

/// Whether 23 stands behind this reply, and nothing else.
fn is_refused_behind(said: &[u8], reply: &[u8]) -> bool {
    if said.len() < reply.len() {
        return false;
    }
    let (before, after) = said.split_at(reply.len());
    before == reply && after == MEMORY
}

fn is_beginning(said: &[u8], reply: &[u8]) -> bool {
    said.len() < reply.len() && reply.starts_with(said)
}

fn told_of(said: &[u8], reply: &[u8]) -> Told {
    if said == reply {
        return Told::Reply;
    }
    if said == EMPTY {
        return Told::Empty;
    }
    if [b"", reply, EMPTY]
        .iter()
        .any(|before| is_refused_behind(said, before))
    {
        return Told::Refused;
    }
    if [reply, EMPTY, MEMORY]
        .iter()
        .any(|whole| is_beginning(said, whole))
    {
        return Told::Cut;
    }
    Told::Other
}

/// What was written to the line that left as this one, from 0; something else where it left another place.
fn said(run: &Run<MemoryLine>, number: usize, place: usize) -> &[u8] {
    match run.gone().get(number) {
        Some(gone) if gone.place() == place => gone.connection().line().said(),
        _ => b"another place",
    }
}

impl Came {
    fn of(run: &Run<MemoryLine>) -> Came {
        Came {
            batch: told_of(said(run, 0, 0), WROTE),
            read: told_of(said(run, 1, 1), READ),
            next: told_of(said(run, 2, 0), READ),
        }
    }

    fn line(&self, line: usize) -> Told {
        match line {
            0 => self.batch,
            1 => self.read,
            _ => self.next,
        }
    }

    /// Whether this line was told what it asked: a read shows no column only where the batch wasn't answered.
    fn is_answered(&self, line: usize) -> bool {
        match self.line(line) {
            Told::Reply => true,
            Told::Empty => line > 0 && self.batch != Told::Reply,
            Told::Refused | Told::Cut | Told::Other => false,
        }
    }

    /// Whether all lines were answered but the one that fails, which was cut.
    fn is_whole(&self, failing: Failing) -> bool {
        (0..3).all(|line| {
            if failing.fails(line) {
                self.line(line) == Told::Cut
            } else {
                self.is_answered(line)
            }
        })
    }

    /// Whether beside the line that fails at most one was answered with 23, or was cut as it had no room.
    fn is_refused_once(&self, failing: Failing) -> bool {
        let mut others = 0u64;
        for line in 0..3 {
            if failing.fails(line) || self.is_answered(line) {
                continue;
            }
            others = others.wrapping_add(1);
        }
        others <= 1
            && [self.batch, self.read, self.next]
                .iter()
                .all(|told| *told != Told::Other)
    }
}

/// A line with this request, whose calls are these.
fn line(
    alloc: Global,
    request: &[u8],
    calls: &[Call],
    fails: Option<usize>,
) -> Result<MemoryLine, Fault> {
    let mut calls = Vec::from_slice(alloc, calls)?;
    if let Some(fails) = fails {
        if let Some(call) = calls.get_mut(fails) {
            *call = Call::Fails;
        }
    }
    let input = copy_of(alloc, request)?;
    Ok(MemoryLine::new(alloc, input, calls))
}

/// The lines arrive, and each has turns until it is over. The last arrives when the first has left, and is given its
/// place.
fn acts(alloc: Global, failing: Failing) -> Result<Vec<Act<MemoryLine>>, Fault> {
    let fails = |line: usize| (failing.line == line).then_some(failing.call);
    let mut acts = Vec::new(alloc);
    acts.push(Act::Arrives(line(alloc, BATCH, &WRITER, fails(0))?))?;
    acts.push(Act::Arrives(line(alloc, QUERY, &READER, fails(1))?))?;
    for _ in 0..3 {
        acts.push(Act::Ready(1))?;
        acts.push(Act::Ready(0))?;
    }
    acts.push(Act::Ready(1))?;
    acts.push(Act::Leaves(0))?;
    acts.push(Act::Arrives(line(alloc, QUERY, &NEXT, fails(2))?))?;
    acts.push(Act::Ready(0))?;
    acts.push(Act::Leaves(1))?;
    acts.push(Act::Leaves(0))?;
    Ok(acts)
}

fn run_in(alloc: Global, world: &mut World, failing: Failing) -> Result<Came, Fault> {
    let acts = acts(alloc, failing)?;
    let mut buffer = [0u8; 4096];
    let run = run_sessions(alloc, world, acts, &mut buffer)?;
    Ok(Came::of(&run))
}

/// Serves the lines by the two sessions of a new world of one shard.
fn run(alloc: Global, failing: Failing) -> Result<Came, Fault> {
    let topology = topology(alloc, (1, 1), &[0, 0])?;
    let mut world = World::new(alloc, &topology)?;
    let came = run_in(alloc, &mut world, failing);
    world.close();
    came
}

/// Whether all is answered, beside the line that fails. Where memory was refused, it is asked of another run after that.
fn run_whole(rt: &HostRuntime, failing: Failing) -> Result<bool, Fault> {
    let mut came = again!(rt; run(rt.alloc(), failing))?;
    if !came.is_whole(failing) {
        if came.is_refused_once(failing) {
            note(rt, "a line was answered 23, or had no room");
        } else {
            print(rt, "another answer")?;
        }
        came = run(rt.alloc(), failing)?;
    }
    Ok(came.is_whole(failing))
}

/// Tells of a line which of its calls may fail, one in each run, so that it alone is cut.
fn tell_failing(rt: &HostRuntime, line: usize, calls: usize) -> Result<(), Fault> {
    let mut cut = 0u64;
    for call in 0..calls {
        if run_whole(rt, Failing { line, call })? {
            cut = cut.wrapping_add(1);
        }
    }
    println!(rt; "line {line} fails at each of {calls} calls: alone cut at {cut}").map_err(
        |_| Fault::WriteFailed,
    )
}

pub(crate) fn tell(rt: &HostRuntime) -> Result<(), Fault> {
    let word = if run_whole(rt, NEVER)? {
        "whole"
    } else {
        "not whole"
    };
    println!(rt; "three lines of two sessions: {word}").map_err(|_| Fault::WriteFailed)?;
    tell_failing(rt, 0, 8)?;
    tell_failing(rt, 1, 7)?;
    tell_failing(rt, 2, 3)
}
