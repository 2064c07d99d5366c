//! What an event leads to: a world is led there.
use crate::numbering::Move;
use crate::stop::Stop;
use logical_time::{Fault, Node, Time};
use messages::{Envelope, Op};
use std::alloc::Global;
use workload::{Entry, Script, ScriptEvent, Transcript, transcript_text};
use world::{Completed, World};

/// What the last event of a run led to.
#[derive(Drop)]
pub(crate) struct Learned {
    /// What it sent.
    pub sent: Vec<Envelope>,
    /// What it told.
    pub told: Option<Vec<u8>>,
}

// Why a submission was refused, unless that ends the exploration.
fn refusal_of(fault: Fault) -> Result<Option<Fault>, Stop> {
    match fault {
        Fault::Memory | Fault::ClockSpent => Err(Stop::from(fault)),
        _ => Ok(Some(fault)),
    }
}

// A session submits a copy of an operation. Gives why it was refused, if it was.
fn submit(world: &mut World, session: Node, op: &Op) -> Result<Option<Fault>, Stop> {
    if world.topology().session_of(session).is_none() {
        return Err(Stop::Stray);
    }
    match world.submit(session, op.copied()?) {
        Ok(_) => Ok(None),
        Err((fault, _)) => refusal_of(fault),
    }
}

// A shard collects.
fn collect(world: &mut World, shard: Node, time: Time) -> Result<(), Stop> {
    if !world.topology().is_shard(shard) {
        return Err(Stop::Stray);
    }
    world.collect(shard, time)?;
    Ok(())
}

// A message is delivered.
fn deliver(world: &mut World, number: usize) -> Result<(), Stop> {
    if world.sent() <= number {
        return Err(Stop::Stray);
    }
    world.deliver(number)?;
    Ok(())
}

// An event of the script happens. Gives the refusal of a submission, and whose it was.
fn happen(world: &mut World, event: &ScriptEvent) -> Result<Option<(Node, Fault)>, Stop> {
    match event {
        ScriptEvent::Submit { session, op } => match submit(world, *session, op)? {
            Some(fault) => Ok(Some((*session, fault))),
            None => Ok(None),
        },
        ScriptEvent::Collect { shard, time } => {
            collect(world, *shard, *time)?;
            Ok(None)
        }
        _ => Err(Stop::Stray),
    }
}

// An event happens. Gives the refusal of a submission, and whose it was.
fn make(world: &mut World, script: &Script, one: Move) -> Result<Option<(Node, Fault)>, Stop> {
    match one {
        Move::Own(place) => match script.events.as_slice().get(place) {
            Some(event) => happen(world, event),
            None => Err(Stop::Stray),
        },
        Move::Deliver(number) => {
            deliver(world, number)?;
            Ok(None)
        }
    }
}

// Copies of messages.
fn copies(alloc: Global, envelopes: &[Envelope]) -> Result<Vec<Envelope>, Stop> {
    let mut all = Vec::with_capacity(alloc, envelopes.len())?;
    for envelope in envelopes {
        all.push(envelope.copied()?)?;
    }
    Ok(all)
}

// What is told of a refusal and of operations that ended, if anything is.
fn text_of(
    alloc: Global,
    refused: Option<(Node, Fault)>,
    ended: &[Completed],
) -> Result<Option<Vec<u8>>, Stop> {
    let mut transcript = Transcript::new(alloc);
    if let Some((node, fault)) = refused {
        transcript.push(Entry::Refused { node, fault })?;
    }
    for one in ended {
        transcript.push(Entry::ended(one.node, one.number, &one.outcome)?)?;
    }
    if transcript.as_slice().is_empty() {
        return Ok(None);
    }
    Ok(Some(transcript_text(alloc, &transcript)?))
}

// The events happen in a world. Gives what the last of them led to.
fn lead(
    alloc: Global,
    world: &mut World,
    script: &Script,
    moves: &[Move],
) -> Result<Learned, Stop> {
    let (mut sent, mut ended, mut refused) = (0, 0, None);
    for one in moves {
        sent = world.messages().len();
        ended = world.transcript().len();
        refused = make(world, script, *one)?;
    }
    let told = match world.transcript().get(ended..) {
        Some(completed) => text_of(alloc, refused, completed)?,
        None => None,
    };
    let sent = match world.messages().get(sent..) {
        Some(envelopes) => copies(alloc, envelopes)?,
        None => Vec::new(alloc),
    };
    Ok(Learned { sent, told })
}

/// What the last of these events leads to, where they happen in a world of the script's topology. Refused with
/// `Memory`, with `Clock`, and with `Stray` where they aren't events of a run.
pub(crate) fn learn(alloc: Global, script: &Script, moves: &[Move]) -> Result<Learned, Stop> {
    let mut world = World::new(alloc, &script.topology)?;
    let learned = lead(alloc, &mut world, script, moves);
    world.close();
    learned
}
