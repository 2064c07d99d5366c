//! Events as lines of JSON.
ghost use Rattle.std.specs.Prelude.{IfErr};
ghost use Rattle.tracing.specs.Tracing.{HasCut, HasGrown};

use crate::actor::{Actor, put_name};
use crate::pieces::{put, put_bytes, put_number};
use crate::words::{put_batch, put_read};
use logical_time::{Fault, Node, Time};
use messages::{Body, Envelope, Op, RowNow, Topology};
use program::Output;
use std::io::Write;

// `,"homes":`, and then the first homes of the sessions.
fn put_homes<W: Write>(output: &mut Output<W>, homes: &[u16]) -> Result<(), Fault>
    ensures grown { HasGrown W.contents output.old output.new }
    ensures failed { IfErr result (HasCut output.new) }
{
    let mut words: &[u8] = b",\"homes\":[";
    for home in homes {
        put_number(output, words, u64::from(*home))?;
        words = b",";
    }
    put(output, b"]")
}

/// The line that tells which actors there are, each at the place of its node.
pub(crate) fn put_actors<W: Write>(output: &mut Output<W>, topology: &Topology) -> Result<(), Fault>
    ensures grown { HasGrown W.contents output.old output.new }
    ensures failed { IfErr result (HasCut output.new) }
{
    put_number(
        output,
        b"{\"event\":\"begin\",\"dcs\":",
        u64::from(topology.dcs()),
    )?;
    put_number(output, b",\"shards\":", u64::from(topology.shards().get()))?;
    put_homes(output, topology.homes())?;
    let mut words: &[u8] = b",\"actors\":[";
    for node in 0..topology.node_count() {
        put(output, words)?;
        put_name(output, topology, Node::new(node))?;
        words = b",";
    }
    put(output, b"]}\n")
}

/// The beginning of an event: its place in the script, its kind, its actor, and the clock after it.
pub(crate) fn put_head<W: Write>(
    output: &mut Output<W>,
    topology: &Topology,
    place: usize,
    kind: &[u8],
    node: Node,
    clock: Time,
) -> Result<(), Fault>
    ensures grown { HasGrown W.contents output.old output.new }
    ensures failed { IfErr result (HasCut output.new) }
{
    put_number(output, b"{\"place\":", place as u64)?;
    put(output, b",\"event\":\"")?;
    put(output, kind)?;
    put_number(output, b"\",\"node\":", u64::from(node.get()))?;
    put(output, b",\"name\":")?;
    put_name(output, topology, node)?;
    put_number(output, b",\"clock\":", clock.get())
}

/// What a session submits.
pub(crate) fn put_op<W: Write>(output: &mut Output<W>, op: &Op) -> Result<(), Fault>
    ensures grown { HasGrown W.contents output.old output.new }
    ensures failed { IfErr result (HasCut output.new) }
{
    match op {
        Op::Batch(batch) => put_batch(output, b",\"batch\":", batch.get()),
        Op::Read(read) => put_read(output, read.get()),
        Op::Move { dc } => put_number(output, b",\"move\":", u64::from(*dc)),
    }
}

// Whether a row of the first round is valid at the effective time, and in which round it was accepted.
fn put_accepted<W: Write>(
    output: &mut Output<W>,
    words: &[u8],
    effective: Time,
    shard: Node,
    row: &RowNow,
) -> Result<(), Fault>
    ensures grown { HasGrown W.contents output.old output.new }
    ensures failed { IfErr result (HasCut output.new) }
{
    put_bytes(output, words, row.key.as_slice())?;
    put_number(output, b",\"from\":", u64::from(shard.get()))?;
    put_number(output, b",\"evt\":", row.evt.get())?;
    put_number(output, b",\"lvt\":", row.lvt.get())?;
    let round = if row.lvt < effective { 2 } else { 1 };
    put_number(output, b",\"round\":", round)?;
    put(output, b"}")
}

// The rows of an answer in the first round, from this shard.
fn put_answered<W: Write>(
    output: &mut Output<W>,
    effective: Time,
    message: &Envelope,
    first: bool,
) -> Result<(), Fault>
    ensures grown { HasGrown W.contents output.old output.new }
    ensures failed { IfErr result (HasCut output.new) }
{
    let mut words: &[u8] = if first { b"{\"key\":" } else { b",{\"key\":" };
    if let Body::PartNow { number: _, rows } = &message.body {
        for row in rows.as_slice() {
            put_accepted(output, words, effective, message.from, row)?;
            words = b",{\"key\":";
        }
    }
    Ok(())
}

/// A read that was answered: its effective time, and how each row was accepted.
pub(crate) fn put_rounds<W: Write>(
    output: &mut Output<W>,
    actor: &Actor,
    messages: &[Envelope],
    effective: Time,
) -> Result<(), Fault>
    ensures grown { HasGrown W.contents output.old output.new }
    ensures failed { IfErr result (HasCut output.new) }
{
    put_number(output, b",\"effective\":", effective.get())?;
    put(output, b",\"accepted\":[")?;
    let mut first = true;
    for number in actor.first {
        if let Some(message) = messages.get(number.unwrap_or(usize::MAX)) {
            put_answered(output, effective, message, first)?;
            first = false;
        }
    }
    put(output, b"]")
}
