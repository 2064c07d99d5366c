//! A shard and a session that hear messages of the last times: what they refuse, what they hand back, and that nothing changes.
use crate::building::{batch, stamp, time, topology, txn};
use crate::showing::{add_message, add_space};
use crate::steps::{Subject, tell as tell_steps};
use client::Session;
use logical_time::{Clock, Fault, Node};
use messages::{Body, Envelope, Op, Outbox, Refused, Topology};
use shard::Shard;
use std::alloc::Global;

/// A shard, which is node 0, a session, which is node 1, and what both send.
struct Late {
    shard: Shard,
    session: Session,
    sent: Outbox,
}

/// A message that is handled without any earlier one: a question after a transaction that nobody knows.
fn question(at: &str) -> Envelope {
    Envelope {
        from: Node::new(0),
        to: Node::new(0),
        time: time(at),
        body: Body::Check {
            txn: txn("1.1"),
            time: time("1"),
        },
    }
}

/// A message that a session passes over: the end of a write that isn't open.
fn end_of_a_write(at: &str) -> Envelope {
    Envelope {
        from: Node::new(0),
        to: Node::new(1),
        time: time(at),
        body: Body::Done {
            txn: txn("1.1"),
            commit: time("1"),
            stamp: stamp("1.0"),
        },
    }
}

/// Adds why a message was refused, and the message that came back.
fn add_refused(seen: &mut String, heard: Result<(), Refused>) -> Result<(), Fault> {
    match heard {
        Ok(()) => Ok(()),
        Err(Refused { fault, envelope }) => {
            write!(seen, "{fault}, back:")?;
            add_message(seen, 0, &envelope)
        }
    }
}

/// Adds why an operation was refused.
fn add_fault(seen: &mut String, submitted: Result<u64, (Fault, Op)>) -> Result<(), Fault> {
    match submitted {
        Ok(number) => Ok(write!(seen, "{number};")?),
        Err((fault, _)) => Ok(write!(seen, "{fault};")?),
    }
}

/// Adds a clock, and how many messages were sent.
fn add_state(seen: &mut String, clock: Clock, sent: &Outbox) -> Result<(), Fault> {
    let (clock, sent) = (clock.now().get(), sent.len());
    add_space(seen)?;
    Ok(write!(seen, "clock {clock}, {sent} sent")?)
}

impl Subject for Late {
    fn step(&mut self, alloc: Global, words: &[&str], seen: &mut String) -> Result<(), Fault> {
        match words {
            ["shard", at] => {
                let heard = self.shard.handle(question(at), &mut self.sent);
                add_refused(seen, heard)?;
                add_state(seen, self.shard.clock(), &self.sent)
            }
            ["session", at] => {
                let heard = self.session.handle(end_of_a_write(at), &mut self.sent);
                add_refused(seen, heard)?;
                add_state(seen, self.session.clock(), &self.sent)
            }
            ["write", changes @ ..] => {
                let op = Op::write(alloc, batch(alloc, changes)?)?;
                add_fault(seen, self.session.submit(op, &mut self.sent))?;
                add_state(seen, self.session.clock(), &self.sent)
            }
            _ => Err(Fault::Script),
        }
    }
}

fn new_session(alloc: Global, topology: &Topology) -> Result<Session, Fault> {
    let node = Node::new(1);
    match topology.home_of(node) {
        Some(_) => Session::new(alloc, topology, node),
        None => Err(Fault::UnknownHome),
    }
}

/// Tells the steps of this shard, and of a session of this topology.
fn tell_with(rt: &HostRuntime, topology: &Topology, shard: Shard) -> Result<(), Fault> {
    let session = match new_session(rt.alloc(), topology) {
        Ok(session) => session,
        Err(fault) => {
            shard.close();
            return Err(fault);
        }
    };
    let sent = Outbox::new(rt.alloc());
    let mut late = Late {
        shard,
        session,
        sent,
    };
    let told = tell_steps(rt, "spent_clocks.steps", &mut late);
    let Late {
        shard,
        session,
        sent: _,
    } = late;
    session.close();
    shard.close();
    told
}

pub(crate) fn tell(rt: &HostRuntime) -> Result<(), Fault> {
    let topology = topology(rt.alloc(), (1, 1), &[0])?;
    match Shard::new(rt.alloc(), &topology, Node::new(0)) {
        Some(shard) => tell_with(rt, &topology, shard),
        None => Err(Fault::UnknownHome),
    }
}
