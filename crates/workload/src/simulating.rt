//! A script is run in a world.
ghost use Rattle.std.specs.Prelude.{◌≡◌, ◌≢◌, ◌⊎◌, List, [], ◌++◌, length, Some, Err, IsOkAnd, IfOk, IfErr, OnOk};
ghost use Rattle.world.specs.World.{run_of};
ghost use Rattle.workload.specs.declared.script.ScriptEvent.{ScriptEvent};
ghost use Rattle.workload.specs.declared.script.ScriptEvent.TheVariants as script;
ghost use Rattle.workload.specs.Marks.{ended_in, merged, told_refusal};
ghost use Rattle.workload.specs.Simulation.{simulated_in, simulated, IsTranscriptOf};
ghost use Rattle.workload.specs.Playing.{Plays, PlaysBefore, Adds, EndsWith};
ghost use Rattle.workload.specs.HasTold.{HasTold, HasNoted};

use crate::marks::{Mark, Refusal, note, with_copies, with_outcomes};
use crate::script::{Script, ScriptEvent};
use crate::transcript::Transcript;
use drains::drain;
use logical_time::{Fault, Node, Time};
use messages::Op;
use std::alloc::Global;
use world::World;

// Why an operation was refused; it isn't needed any more.
fn fault_of(refused: (Fault, Op)) -> Fault
    ensures { result ≡ refused.0 }
{
    refused.0
}

// The refusal of a submission, unless it ends the script.
fn refusal_of(node: Node, fault: Fault) -> Result<Option<Refusal>, Fault>
    ensures told { IfOk result (λ refusal. refusal ≡ Some (record { node = node; fault = fault })) }
    ensures known { OnOk result (fault ≢ Fault.Memory) }
    ensures unspent { OnOk result (fault ≢ Fault.ClockSpent) }
    ensures ends { IfErr result (λ e. (e ≡ Fault.Memory) ⊎ ((e ≡ Fault.ClockSpent) × (fault ≡ Fault.ClockSpent))) }
{
    match fault {
        Fault::Memory | Fault::ClockSpent => Err(fault),
        _ => Ok(Some(Refusal { node, fault })),
    }
}

// A session submits a copy of the operation. The answer is its refusal, if it refuses.
fn submit(world: &mut World, session: Node, op: &Op) -> Result<Option<Refusal>, Fault>
    ensures ok { IfOk result (λ refusal. PlaysBefore world.old (script.Submit session op.now) world.new (told_refusal refusal)) }
    ensures ends { IfErr result (EndsWith world.old (script.Submit session op.now)) }
{
    if world.topology().session_of(session).is_none() {
        return Err(Fault::Script);
    }
    match world.submit(session, op.copied()?) {
        Ok(_) => Ok(None),
        Err(why) => refusal_of(session, fault_of(why)),
    }
}

// A message is delivered, if it was sent.
fn deliver(world: &mut World, number: usize) -> Result<(), Fault>
    ensures ok { OnOk result (PlaysBefore world.old (script.Deliver number) world.new []) }
    ensures ends { IfErr result (EndsWith world.old (script.Deliver number)) }
{
    if world.sent() <= number {
        return Err(Fault::Script);
    }
    world.deliver(number)
}

// A shard collects, if the node is one.
fn collect(world: &mut World, shard: Node, time: Time) -> Result<(), Fault>
    ensures ok { OnOk result (PlaysBefore world.old (script.Collect shard time) world.new []) }
    ensures ends { IfErr result (EndsWith world.old (script.Collect shard time)) }
{
    if !world.topology().is_shard(shard) {
        return Err(Fault::Script);
    }
    world.collect(shard, time)
}

// All that was sent is handled.
fn drain_all(world: &mut World) -> Result<(), Fault>
    ensures ok { OnOk result (PlaysBefore world.old script.Drain world.new []) }
    ensures ends { IfErr result (EndsWith world.old script.Drain) }
{
    drain(world)?;
    Ok(())
}

/// An event happens. The answer is the refusal of its submission, if it is one that is refused.
pub(crate) fn happen(world: &mut World, event: &ScriptEvent) -> Result<Option<Refusal>, Fault>
    ensures ok { IfOk result (λ refusal. PlaysBefore world.old event.now world.new (told_refusal refusal)) }
    ensures ends { IfErr result (EndsWith world.old event.now) }
{
    match event {
        ScriptEvent::Submit { session, op } => submit(world, *session, op),
        ScriptEvent::Deliver { number } => {
            deliver(world, *number)?;
            Ok(None)
        }
        ScriptEvent::Collect { shard, time } => {
            collect(world, *shard, *time)?;
            Ok(None)
        }
        ScriptEvent::Drain => {
            drain_all(world)?;
            Ok(None)
        }
    }
}

// An event happens, and is noted: each operation that ended has its mark, before it and after it.
fn play(world: &mut World, event: &ScriptEvent, marks: &mut Vec<Mark>) -> Result<(), Fault>
    requires marked { ended_in marks.old.items ≡ length (run_of world.old).transcript }
    ensures marked { OnOk result (ended_in marks.new.items ≡ length (run_of world.new).transcript) }
    ensures ok { OnOk result (Adds (merged marks.old.items (run_of world.old).transcript) (merged marks.new.items (run_of world.new).transcript) (Plays world.old event.now world.new)) }
    ensures ends { IfErr result (EndsWith world.old event.now) }
{
    let before = world.transcript().len();
    let refusal = happen(world, event)?;
    note(refusal, world.transcript().len() - before, marks)
}

/// The events happen in order, until one ends the script, and are noted. Others may have happened before.
pub(crate) fn play_some(
    world: &mut World,
    events: &[ScriptEvent],
    marks: &mut Vec<Mark>,
) -> Result<(), Fault>
    requires marked { ended_in marks.old.items ≡ length (run_of world.old).transcript }
    ensures topology { OnOk result (world.new.top ≡ world.old.top) }
    ensures marked { OnOk result (ended_in marks.new.items ≡ length (run_of world.new).transcript) }
    ensures ok { OnOk result ((before : List ScriptEvent) → HasNoted world.old.top before (run_of world.old) marks.old.items → HasNoted world.old.top (before ++ events.now) (run_of world.new) marks.new.items) }
    ensures ends { IfErr result (λ e. (e ≡ Fault.Memory) ⊎ ((before : List ScriptEvent) → HasNoted world.old.top before (run_of world.old) marks.old.items → simulated_in world.old.top (before ++ events.now) ≡ Err e)) }
{
    for event in events {
        play(world, event, marks)?;
    }
    Ok(())
}

/// The events happen in order, until one ends the script, and are noted.
pub(crate) fn play_all(
    alloc: Global,
    world: &mut World,
    events: &[ScriptEvent],
) -> Result<Vec<Mark>, Fault>
    requires opening { world.old.events ≡ [] }
    ensures topology { OnOk result (world.new.top ≡ world.old.top) }
    ensures ok { IfOk result (λ marks. HasTold world.old.top events.now (run_of world.new) (merged marks.items (run_of world.new).transcript)) }
    ensures ends { IfErr result (λ e. (e ≡ Fault.Memory) ⊎ (simulated_in world.old.top events.now ≡ Err e)) }
{
    let mut marks = Vec::new(alloc);
    play_some(world, events, &mut marks)?;
    Ok(marks)
}

/// The transcript of what was played, with copies of the outcomes, unless something ended the script.
pub(crate) fn copied_transcript(
    alloc: Global,
    world: &World,
    played: Result<Vec<Mark>, Fault>,
) -> Result<Transcript, Fault>
    ensures ok { IfOk result (λ transcript. IsOkAnd played (λ marks. transcript ≡ merged marks.items (run_of world.now).transcript)) }
    ensures ends { IfErr result (λ e. (e ≡ Fault.Memory) ⊎ (played ≡ Err e)) }
{
    let marks = played?;
    with_copies(alloc, marks.as_slice(), world.transcript())
}

/// The transcript of a script, whose events happen in a world of its topology, in order: the outcome of each operation,
/// where it ended, and the refusal of each submission that was refused. Refused with `Script` at an event that names a
/// message that was not sent, or an actor that isn't there, with `ClockSpent` where a clock would leave its range, and with
/// `Memory`. Linear in the script and in what is delivered, each at the cost of its delivery.
pub fn simulate(alloc: Global, script: &Script) -> Result<Transcript, Fault>
    ensures ok { IfOk result (IsTranscriptOf script.now) }
    ensures faults { IfErr result (λ e. (e ≡ Fault.Memory) ⊎ (simulated script.now ≡ Err e)) }
{
    // each data centre has a shard
    let _limits = script.topology.shards();
    let mut world = World::new(alloc, &script.topology)?;
    let played = play_all(alloc, &mut world, script.events.as_slice());
    let transcript = copied_transcript(alloc, &world, played);
    world.close();
    transcript
}

/// The same for a program that ends with it: the memory of what the world recorded is given back with that of the process.
pub(crate) fn simulate_to_the_end(alloc: Global, script: &Script) -> Result<Transcript, Fault>
    ensures ok { IfOk result (IsTranscriptOf script.now) }
    ensures faults { IfErr result (λ e. (e ≡ Fault.Memory) ⊎ (simulated script.now ≡ Err e)) }
{
    let _limits = script.topology.shards();
    let mut world = World::new(alloc, &script.topology)?;
    let played = play_all(alloc, &mut world, script.events.as_slice());
    let completed = world.leave();
    let marks = played?;
    with_outcomes(alloc, marks.as_slice(), completed)
}
