//! Schedules: who asks what where, and what comes when. A step is `write DC KEY.. VALUE`, `read DC KEY..`, `move DC TO`, `leave DC`
//! or `mail FROM TO HOW`.
use crate::building;
use crate::mail::How;
use crate::stores::Stores;
use logical_time::Fault;
use messages::Op;
use std::alloc::Global;

const SCHEDULES: [(&str, &str); 12] = [
    (
        "a write comes to the others",
        "write 0 r a; read 0 r; read 1 r; mail 0 1 forward; read 1 r; read 2 r; mail 0 2 forward; read 2 r",
    ),
    (
        "a write of two shards comes whole, whatever came first",
        "write 0 r s a; mail 0 1 backward; mail 0 2 twice; read 1 r s; read 2 r s; mail 1 0 forward; read 0 r s",
    ),
    (
        "what comes again does nothing",
        "write 0 r a; mail 0 1 twice; write 0 r b; mail 0 1 twice; read 1 r; write 1 r c; mail 1 0 twice; read 0 r",
    ),
    (
        "what depends on a write waits for it",
        "write 0 photo p; mail 0 1 forward; read 1 photo; write 1 comment c; mail 1 2 forward; read 2 photo comment; mail 0 2 forward; read 2 photo comment",
    ),
    (
        "a dependency through the writer's own writes",
        "write 0 photo p; write 0 comment c; mail 0 1 backward; read 1 photo comment",
    ),
    (
        "two writes of one row are in one order everywhere",
        "write 0 r a; write 1 r b; mail 0 1 forward; mail 1 0 forward; mail 0 2 forward; mail 1 2 forward; read 0 r; read 1 r; read 2 r",
    ),
    (
        "the same the other way round",
        "write 1 r b; write 0 r a; mail 1 2 backward; mail 0 2 backward; mail 1 0 backward; mail 0 1 backward; read 0 r; read 1 r; read 2 r",
    ),
    (
        "who is cut off for good reads and writes on",
        "write 0 r a; mail 0 1 never; mail 0 2 never; write 1 r b; read 1 r; write 2 r s c; read 2 r s; read 0 r",
    ),
    (
        "a move waits for what its session depends on, and is answered to who asks again",
        "write 0 r a; move 0 1; move 0 1; read 0 r; mail 0 1 forward; mail 1 0 forward; mail 0 1 forward; mail 1 0 forward; move 0 1",
    ),
    (
        "who asks for another thing once it has ended is served anew",
        "move 0 1; read 0 r; mail 0 1 forward; mail 1 0 forward; read 0 r",
    ),
    (
        "a session that moved is answered from there",
        "write 1 r b; move 0 1; read 0 r; read 0 r; mail 0 1 forward; mail 1 0 forward; read 0 r",
    ),
    (
        "who comes behind one that left is told nothing of what that one asked",
        "move 0 1; write 0 r a; leave 0; mail 0 1 forward; mail 1 0 forward; write 1 r b; write 0 r a; read 1 r; mail 0 1 forward; mail 1 0 forward; write 0 r a; read 1 r",
    ),
];

// What a request came to, in words.
fn ask(alloc: Global, stores: &mut Stores, dc: &str, op: Op) -> Result<String, Fault> {
    match stores.ask(alloc, dc.parse().unwrap_or(0), op) {
        Ok(outcome) => building::words(alloc, &outcome),
        Err(Fault::Memory) => Err(Fault::Memory),
        Err(fault) => Ok(format!(in alloc; " fault {fault}")?),
    }
}

// What a step came to, in words.
fn take(alloc: Global, stores: &mut Stores, step: &str) -> Result<String, Fault> {
    let mut words: Vec<&str> = Vec::new(alloc);
    for word in step.split(' ') {
        words.push(word)?;
    }
    match words.as_slice() {
        ["write", dc, keys @ .., value] => {
            let op = building::write(alloc, keys, value)?;
            ask(alloc, stores, dc, op)
        }
        ["read", dc, keys @ ..] => {
            let op = building::read(alloc, keys)?;
            ask(alloc, stores, dc, op)
        }
        ["move", dc, to] => {
            let op = Op::Move {
                dc: to.parse().unwrap_or(0),
            };
            ask(alloc, stores, dc, op)
        }
        ["leave", dc] => {
            stores.leave(dc.parse().unwrap_or(0));
            Ok(String::new(alloc))
        }
        ["mail", from, to, how] => {
            let (from, to) = (from.parse().unwrap_or(0), to.parse().unwrap_or(0));
            stores.carry(alloc, from, to, How::named(how)?)?;
            Ok(String::new(alloc))
        }
        _ => Err(Fault::Script),
    }
}

fn take_all(rt: &HostRuntime, stores: &mut Stores, steps: &str) -> Result<(), Fault> {
    for step in steps.split("; ") {
        let words = take(rt.alloc(), stores, step)?;
        if println!(rt; "  {step}:{words}").is_err() {
            return Err(Fault::WriteFailed);
        }
    }
    Ok(())
}

/// Takes the steps of each schedule, and tells what each came to.
pub(crate) fn tell(rt: &HostRuntime) -> Result<(), Fault> {
    for (name, steps) in &SCHEDULES {
        if println!(rt; "{name}").is_err() {
            return Err(Fault::WriteFailed);
        }
        let mut stores = Stores::open(rt.alloc())?;
        let taken = take_all(rt, &mut stores, steps);
        stores.close();
        taken?;
    }
    Ok(())
}
