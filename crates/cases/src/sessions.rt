//! A session that is node 2 and at home with two shards. The rows b and a lie on the shards 0 and 1, and ab on 1.
use crate::building::{batch, columns_named, node, number, read, stamp, time, topology, txn};
use crate::showing::{add_outcome, text_of};
use crate::steps::{Subject, tell as tell_steps};
use client::Session;
use column_family::{Key, Name, Value};
use logical_time::{Fault, Node, Writers};
use messages::{AtTime, Body, Envelope, Op, Outbox, RowAt, RowNow, RowsAt, RowsNow};
use slice::{Column, Columns};
use std::alloc::Global;

/// A session, what it sends, and how much of that was seen.
struct Sending {
    session: Session,
    outbox: Outbox,
    seen: usize,
}

fn new_session(alloc: Global) -> Result<Session, Fault> {
    let topology = topology(alloc, (1, 2), &[0])?;
    let node = Node::new(2);
    match topology.home_of(node) {
        Some(_) => Session::new(alloc, &topology, node),
        None => Err(Fault::UnknownHome),
    }
}

/// Column x of this value.
fn columns(alloc: Global, value: &str) -> Result<Columns, Fault> {
    let name = Name::from_slice(alloc, b"x")?;
    let value = Value::from_slice(alloc, value.as_bytes())?;
    let mut columns = Vec::new(alloc);
    columns.push(Column { name, value })?;
    Ok(Columns::from_vec(alloc, columns)?)
}

fn row_now(
    alloc: Global,
    (key, value): (&str, &str),
    (evt, lvt): (&str, &str),
) -> Result<RowNow, Fault> {
    let key = Key::from_slice(alloc, key.as_bytes())?;
    let columns = columns(alloc, value)?;
    Ok(RowNow {
        key,
        columns,
        writers: Writers::from_vec(Vec::new(alloc)),
        evt: time(evt),
        lvt: time(lvt),
    })
}

fn row_at(alloc: Global, (key, value): (&str, &str)) -> Result<RowAt, Fault> {
    let key = Key::from_slice(alloc, key.as_bytes())?;
    let columns = columns(alloc, value)?;
    Ok(RowAt {
        key,
        columns,
        writers: Writers::from_vec(Vec::new(alloc)),
    })
}

fn add_number(seen: &mut String, submitted: Result<u64, Fault>) -> Result<(), Fault> {
    match submitted {
        Ok(number) => write!(seen, "{number}")?,
        Err(fault) => write!(seen, "{fault}")?,
    }
    Ok(())
}

/// Adds the keys that a message asks for, or its kind.
fn add_body(seen: &mut String, body: &Body) -> Result<(), Fault> {
    match body {
        Body::Read { read, .. } => add_keys(seen, read.get().keys.as_slice()),
        Body::ReadAt { time, read, .. } => {
            let time = time.get();
            write!(seen, "@{time}")?;
            add_keys(seen, read.get().keys.as_slice())
        }
        Body::Begin { .. } => Ok(seen.push_str(" begin")?),
        Body::Prepare { .. } => Ok(seen.push_str(" prepare")?),
        _ => Err(Fault::Script),
    }
}

fn add_keys(seen: &mut String, keys: &[Key]) -> Result<(), Fault> {
    for key in keys {
        let key = text_of(key.as_slice());
        write!(seen, " {key}")?;
    }
    Ok(())
}

impl Sending {
    fn submit(&mut self, op: Op) -> Result<u64, Fault> {
        match self.session.submit(op, &mut self.outbox) {
            Ok(number) => Ok(number),
            Err((fault, _)) => Err(fault),
        }
    }

    fn write(&mut self, alloc: Global, changes: &[&str]) -> Result<u64, Fault> {
        self.submit(Op::write(alloc, batch(alloc, changes)?)?)
    }

    fn read(&mut self, alloc: Global) -> Result<u64, Fault> {
        let predicate = columns_named(alloc, "x")?;
        self.submit(Op::read(alloc, read(alloc, "bab", predicate)?)?)
    }

    fn hear(&mut self, shard: &str, body: Body) -> Result<(), Fault> {
        let envelope = Envelope {
            from: node(shard),
            to: Node::new(2),
            time: time("4"),
            body,
        };
        match self.session.handle(envelope, &mut self.outbox) {
            Ok(()) => Ok(()),
            Err(refused) => Err(refused.fault),
        }
    }

    fn hear_done(&mut self, written: &str, commit: &str) -> Result<(), Fault> {
        let body = Body::Done {
            txn: txn(written),
            commit: stamp(commit).time(),
            stamp: stamp(commit),
        };
        self.hear("0", body)
    }

    fn hear_now(
        &mut self,
        alloc: Global,
        from: (&str, &str),
        row: Result<RowNow, Fault>,
    ) -> Result<(), Fault> {
        let mut rows = Vec::new(alloc);
        rows.push(row?)?;
        let body = Body::PartNow {
            number: number(from.1),
            rows: RowsNow::from_vec(alloc, rows)?,
        };
        self.hear(from.0, body)
    }

    fn hear_at(&mut self, from: (&str, &str), answer: AtTime) -> Result<(), Fault> {
        let body = Body::PartAt {
            number: number(from.1),
            time: time("3"),
            answer,
        };
        self.hear(from.0, body)
    }

    fn hear_row_at(
        &mut self,
        alloc: Global,
        from: (&str, &str),
        row: Result<RowAt, Fault>,
    ) -> Result<(), Fault> {
        let mut rows = Vec::new(alloc);
        rows.push(row?)?;
        self.hear_at(from, AtTime::Rows(RowsAt::from_vec(alloc, rows)?))
    }

    /// Adds what was sent and not seen.
    fn add_sent(&mut self, seen: &mut String) -> Result<(), Fault> {
        for envelope in self.outbox.as_slice().iter().skip(self.seen) {
            let to = envelope.to.get();
            write!(seen, "{to}")?;
            add_body(seen, &envelope.body)?;
            seen.push_str(";")?;
        }
        self.seen = self.outbox.len();
        Ok(())
    }

    fn add_taken(&mut self, seen: &mut String) -> Result<(), Fault> {
        match self.session.take_answer() {
            Some((_, outcome)) => add_outcome(seen, &outcome.copied()?),
            None => Ok(()),
        }
    }
}

impl Subject for Sending {
    fn step(&mut self, alloc: Global, words: &[&str], seen: &mut String) -> Result<(), Fault> {
        match words {
            ["write", changes @ ..] => add_number(seen, self.write(alloc, changes)),
            ["read"] => add_number(seen, self.read(alloc)),
            ["sent"] => self.add_sent(seen),
            ["take"] => self.add_taken(seen),
            ["done", written, commit] => self.hear_done(written, commit),
            ["now", shard, number, key, value, evt, lvt] => self.hear_now(
                alloc,
                (shard, number),
                row_now(alloc, (key, value), (evt, lvt)),
            ),
            ["at", shard, number, key, value] => self.hear_row_at(
                alloc,
                (shard, number),
                row_at(alloc, (key, value)),
            ),
            ["collected", shard, number] => self.hear_at((shard, number), AtTime::Collected),
            _ => Err(Fault::Script),
        }
    }
}

pub(crate) fn tell(rt: &HostRuntime) -> Result<(), Fault> {
    let mut sending = Sending {
        session: new_session(rt.alloc())?,
        outbox: Outbox::new(rt.alloc()),
        seen: 0,
    };
    let told = tell_steps(rt, "session_of_two_shards.steps", &mut sending);
    let Sending {
        session,
        outbox: _,
        seen: _,
    } = sending;
    session.close();
    told
}
