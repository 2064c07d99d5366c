//! The run of a script, with what came of each event.
ghost use Rattle.std.specs.Prelude.{◌≡◌, ◌≢◌, ◌≤◌, ◌⊎◌, ◌++◌, [], Some, Err, length, drop, map, option_to_list, IfOk, IfErr, OnOk, IsOkAnd};
ghost use Rattle.world.specs.World.{run_of};
ghost use Rattle.workload.specs.declared.script.ScriptEvent.TheVariants as script;
ghost use Rattle.workload.specs.declared.transcript.Entry.TheVariants as entry;
ghost use Rattle.workload.specs.Simulation as simulation;
ghost use Rattle.workload.specs.Simulation.{entry_of, simulated_in, simulated};
ghost use Rattle.workload.specs.Text.{text_of};
ghost use Rattle.workload.specs.Playing.{Plays, PlaysBefore, Adds, EndsWith};
ghost use Rattle.workload.specs.HasTold.{HasTold};
ghost use Rattle.tracing.specs.Traced.{IsTextOf};

use crate::actor::{Actor, all_actors};
use logical_time::{Fault, Node, Time};
use messages::{Op, Topology};
use std::alloc::Global;
use std::mem;
use workload::{Entry, Script, ScriptEvent, Transcript, transcript_text};
use world::{Completed, World};

/// How many messages a drain delivers at most.
const MOST_DELIVERIES: u64 = 1_000_000;

/// What happened at an event of a run, up to which messages and outcomes.
#[derive(Drop)]
pub struct Step {
    /// The place of the script's event.
    pub place: usize,
    /// The number of the message that was delivered, if one was.
    pub message: Option<usize>,
    /// Why the submission was refused, if it was one that was.
    pub refusal: Option<Fault>,
    /// How many messages were sent by then.
    pub sent: usize,
    /// How many operations had ended by then.
    pub ended: usize,
}

/// The run of a script. It must be closed.
pub struct Traced {
    /// The world in which it happened.
    pub world: World,
    /// The text of its transcript.
    pub text: Vec<u8>,
    /// What happened, in order: each event of the script, and each delivery of a drain.
    pub steps: Vec<Step>,
    /// The actors before their first events.
    pub(crate) actors: Vec<Actor>,
}

impl Traced {
    /// Gives the run up.
    pub fn close(self) {
        let Traced {
            world,
            text: _,
            steps: _,
            actors: _,
        } = self;
        world.close();
    }

    /// Gives the run up, for a program that ends with it: its memory is given back with that of the process.
    pub fn leave(self) {
        let Traced {
            world,
            text,
            steps,
            actors,
        } = self;
        mem::forget(text);
        mem::forget(steps);
        mem::forget(actors);
        mem::forget(world.leave());
    }
}

// Notes what happened.
fn note(
    world: &World,
    place: usize,
    message: Option<usize>,
    refusal: Option<Fault>,
    steps: &mut Vec<Step>,
) -> Result<(), Fault>
    ensures { IfErr result (λ e. e ≡ Fault.Memory) }
{
    let sent = world.sent();
    let ended = world.transcript().len();
    steps.push(Step {
        place,
        message,
        refusal,
        sent,
        ended,
    })?;
    Ok(())
}

// Why an operation was refused; it isn't needed any more.
fn fault_of(refused: (Fault, Op)) -> Fault
    ensures { result ≡ refused.0 }
{
    refused.0
}

// The entry of a refused submission, unless it ends the script.
fn refusal_of(node: Node, fault: Fault) -> Result<Option<Entry>, Fault>
    ensures told { IfOk result (λ refusal. refusal ≡ Some (entry.Refused node fault)) }
    ensures known { OnOk result (fault ≢ Fault.Memory) }
    ensures unspent { OnOk result (fault ≢ Fault.ClockSpent) }
    ensures ends { IfErr result (λ e. (e ≡ Fault.Memory) ⊎ ((e ≡ Fault.ClockSpent) × (fault ≡ Fault.ClockSpent))) }
{
    match fault {
        Fault::Memory | Fault::ClockSpent => Err(fault),
        _ => Ok(Some(Entry::Refused { node, fault })),
    }
}

// Why a submission was refused, if it was.
fn fault_in(refusal: &Option<Entry>) -> Option<Fault> {
    match refusal {
        Some(Entry::Refused { node: _, fault }) => Some(*fault),
        _ => None,
    }
}

// A session submits a copy of the operation. The answer is the entry of its refusal, if it refuses.
fn submit(world: &mut World, session: Node, op: &Op) -> Result<Option<Entry>, Fault>
    ensures ok { IfOk result (λ refusal. PlaysBefore world.old (script.Submit session op.now) world.new (option_to_list refusal)) }
    ensures ends { IfErr result (EndsWith world.old (script.Submit session op.now)) }
{
    if world.topology().session_of(session).is_none() {
        return Err(Fault::Script);
    }
    match world.submit(session, op.copied()?) {
        Ok(_) => Ok(None),
        Err(why) => refusal_of(session, fault_of(why)),
    }
}

// A message is delivered, if it was sent.
fn deliver(world: &mut World, number: usize) -> Result<(), Fault>
    ensures ok { OnOk result (PlaysBefore world.old (script.Deliver number) world.new []) }
    ensures ends { IfErr result (EndsWith world.old (script.Deliver number)) }
{
    if world.sent() <= number {
        return Err(Fault::Script);
    }
    world.deliver(number)
}

// A shard collects, if the node is one.
fn collect(world: &mut World, shard: Node, time: Time) -> Result<(), Fault>
    ensures ok { OnOk result (PlaysBefore world.old (script.Collect shard time) world.new []) }
    ensures ends { IfErr result (EndsWith world.old (script.Collect shard time)) }
{
    if !world.topology().is_shard(shard) {
        return Err(Fault::Script);
    }
    world.collect(shard, time)
}

// All that was sent is handled, and each delivery is noted. The answer is how many there were.
fn drain(world: &mut World, place: usize, steps: &mut Vec<Step>) -> Result<u64, Fault>
    ensures ok { OnOk result (PlaysBefore world.old script.Drain world.new []) }
    ensures ends { IfErr result (EndsWith world.old script.Drain) }
{
    for delivered in 0..MOST_DELIVERIES {
        let Some(number) = world.first_unhandled() else {
            return Ok(delivered);
        };
        world.deliver(number)?;
        note(world, place, Some(number), None, steps)?;
    }
    Ok(MOST_DELIVERIES)
}

// An event happens. The answer is the entry of its submission's refusal, if it is one that is refused.
fn happen(
    world: &mut World,
    place: usize,
    event: &ScriptEvent,
    steps: &mut Vec<Step>,
) -> Result<Option<Entry>, Fault>
    ensures ok { IfOk result (λ refusal. PlaysBefore world.old event.now world.new (option_to_list refusal)) }
    ensures ends { IfErr result (EndsWith world.old event.now) }
{
    match event {
        ScriptEvent::Submit { session, op } => {
            let refusal = submit(world, *session, op)?;
            note(world, place, None, fault_in(&refusal), steps)?;
            Ok(refusal)
        }
        ScriptEvent::Deliver { number } => {
            deliver(world, *number)?;
            note(world, place, Some(*number), None, steps)?;
            Ok(None)
        }
        ScriptEvent::Collect { shard, time } => {
            collect(world, *shard, *time)?;
            note(world, place, None, None, steps)?;
            Ok(None)
        }
        ScriptEvent::Drain => {
            drain(world, place, steps)?;
            Ok(None)
        }
    }
}

// The entries of operations that ended are added. Fails by memory alone.
fn add_ended(transcript: &mut Transcript, completed: &[Completed]) -> Result<(), Fault>
    ensures ok { OnOk result (transcript.new ≡ transcript.old ++ map entry_of completed.now) }
    ensures memory { IfErr result (λ e. e ≡ Fault.Memory) }
{
    for one in completed {
        let entry = Entry::ended(one.node, one.number, &one.outcome)?;
        transcript.push(entry)?;
    }
    Ok(())
}

// The entries of what has ended in a world since so many operations had are added. Fails by memory alone.
fn add_since(world: &World, before: usize, transcript: &mut Transcript) -> Result<(), Fault>
    requires { before ≤ length (run_of world.now).transcript }
    ensures ok { OnOk result (transcript.new ≡ transcript.old ++ map entry_of (drop before (run_of world.now).transcript)) }
    ensures memory { IfErr result (λ e. e ≡ Fault.Memory) }
{
    add_ended(transcript, &world.transcript()[before..])
}

// The entry of a refusal is added, if there was one. Fails by memory alone.
fn add_refusal(transcript: &mut Transcript, refusal: Option<Entry>) -> Result<(), Fault>
    ensures ok { OnOk result (transcript.new ≡ transcript.old ++ option_to_list refusal) }
    ensures memory { IfErr result (λ e. e ≡ Fault.Memory) }
{
    if let Some(entry) = refusal {
        transcript.push(entry)?;
    }
    Ok(())
}

// An event happens, and its entries are told.
fn play(
    world: &mut World,
    place: usize,
    event: &ScriptEvent,
    transcript: &mut Transcript,
    steps: &mut Vec<Step>,
) -> Result<(), Fault>
    ensures ok { OnOk result (Adds transcript.old transcript.new (Plays world.old event.now world.new)) }
    ensures ends { IfErr result (EndsWith world.old event.now) }
{
    let before = world.transcript().len();
    let refusal = happen(world, place, event, steps)?;
    add_refusal(transcript, refusal)?;
    add_since(world, before, transcript)
}

// The events happen in order, until one ends the script, and their entries are told.
fn play_all(
    alloc: Global,
    world: &mut World,
    events: &[ScriptEvent],
    steps: &mut Vec<Step>,
) -> Result<Transcript, Fault>
    requires opening { world.old.events ≡ [] }
    ensures topology { OnOk result (world.new.top ≡ world.old.top) }
    ensures ok { IfOk result (HasTold world.old.top events.now (run_of world.new)) }
    ensures ends { IfErr result (λ e. (e ≡ Fault.Memory) ⊎ (simulated_in world.old.top events.now ≡ Err e)) }
{
    let mut transcript = Transcript::new(alloc);
    let mut place = 0usize;
    for event in events {
        play(world, place, event, &mut transcript, steps)?;
        place = place.wrapping_add(1);
    }
    Ok(transcript)
}

// What is told beside the run: the text of the transcript, and the actors before their first events.
fn told_beside(
    alloc: Global,
    topology: &Topology,
    played: Result<Transcript, Fault>,
) -> Result<(Vec<u8>, Vec<Actor>), Fault>
    ensures ok { IfOk result (λ told. IsOkAnd played (λ transcript. told.0.items ≡ text_of transcript)) }
    ensures ends { IfErr result (λ e. (e ≡ Fault.Memory) ⊎ (played ≡ Err e)) }
{
    let transcript = played?;
    let text = transcript_text(alloc, &transcript)?;
    let actors = all_actors(alloc, topology)?;
    Ok((text, actors))
}

/// The run of a script, whose events happen in a world of its topology, in order, as `simulate` has them happen, with what came
/// of each. Refused as `simulate` is: with `Script` at an event that names a message that was not sent, or an actor that isn't
/// there, with `ClockSpent` where a clock would leave its range, and with `Memory`. Linear in the script and in what is
/// delivered, each at the cost of its delivery.
pub fn trace(alloc: Global, script: &Script) -> Result<Traced, Fault>
    ensures run { IfOk result (λ traced. run_of traced.world ≡ simulation.run_of script.now) }
    ensures text { IfOk result (λ traced. IsTextOf script.now traced.text.items) }
    ensures faults { IfErr result (λ e. (e ≡ Fault.Memory) ⊎ (simulated script.now ≡ Err e)) }
{
    // each data centre has a shard
    let _limits = script.topology.shards();
    let mut world = World::new(alloc, &script.topology)?;
    let mut steps = Vec::new(alloc);
    let played = play_all(alloc, &mut world, script.events.as_slice(), &mut steps);
    match told_beside(alloc, &script.topology, played) {
        Ok((text, actors)) => Ok(Traced {
            world,
            text,
            steps,
            actors,
        }),
        Err(fault) => {
            world.close();
            Err(fault)
        }
    }
}
