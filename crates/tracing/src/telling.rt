//! What happened, told line by line and without memory.
ghost use Rattle.std.specs.Prelude.{◌≡◌, [], IsNone, IfOk, IfErr, OnOk, OnErr};
ghost use Rattle.tracing.specs.Tracing.{HasCut, HasGrown, Shows, TellsLines, TellsPart};

use crate::actor::Actor;
use crate::bodies::{put_message, put_sent};
use crate::events::{put_actors, put_head, put_op, put_rounds};
use crate::lines::{put_lines, put_rest};
use crate::pieces::put_number;
use crate::playing::{Step, Traced};
use logical_time::{Fault, Node, Time};
use messages::{Envelope, Op, Outcome, Topology};
use program::{Buffered, Output};
use std::io::Write;
use workload::{Script, ScriptEvent};
use world::Completed;

/// What a trace is told of.
#[derive(Clone, Copy)]
struct Run<'t> {
    topology: &'t Topology,
    events: &'t [ScriptEvent],
    messages: &'t [Envelope],
    completed: &'t [Completed],
}

// A submission.
fn put_submission<W: Write>(
    output: &mut Output<W>,
    topology: &Topology,
    step: &Step,
    session: Node,
    op: &Op,
    actor: &mut Actor,
) -> Result<(), Fault>
    ensures grown { HasGrown W.contents output.old output.new }
    ensures failed { IfErr result (HasCut output.new) }
{
    if step.refusal.is_none() {
        actor.accept();
    }
    let clock = actor.clock.now();
    put_head(output, topology, step.place, b"submit", session, clock)?;
    match step.refusal {
        None => put_number(output, b",\"operation\":", actor.accepted)?,
        Some(fault) => put_number(output, b",\"refused\":", u64::from(fault.number()))?,
    }
    put_op(output, op)
}

// A delivery, by an event of its own or by a drain.
fn put_delivery<W: Write>(
    output: &mut Output<W>,
    topology: &Topology,
    step: &Step,
    number: usize,
    message: &Envelope,
    actor: &mut Actor,
) -> Result<(), Fault>
    ensures grown { HasGrown W.contents output.old output.new }
    ensures failed { IfErr result (HasCut output.new) }
{
    let shard = topology.shard_of(message.from);
    actor.handle(number, usize::from(shard.get()), message);
    let clock = actor.clock.now();
    put_head(output, topology, step.place, b"deliver", message.to, clock)?;
    put_message(output, b",\"message\":{\"number\":", number, message)
}

// A collection.
fn put_collection<W: Write>(
    output: &mut Output<W>,
    topology: &Topology,
    step: &Step,
    shard: Node,
    time: Time,
    actor: &mut Actor,
) -> Result<(), Fault>
    ensures grown { HasGrown W.contents output.old output.new }
    ensures failed { IfErr result (HasCut output.new) }
{
    actor.act();
    let clock = actor.clock.now();
    put_head(output, topology, step.place, b"collect", shard, clock)?;
    put_number(output, b",\"time\":", time.get())
}

// The delivery of the message of this number.
fn put_delivered<W: Write>(
    output: &mut Output<W>,
    run: Run<'_>,
    step: &Step,
    number: usize,
    actors: &mut [Actor],
) -> Result<(), Fault>
    ensures grown { HasGrown W.contents output.old output.new }
    ensures failed { IfErr result (HasCut output.new) }
{
    let Some(message) = run.messages.get(number) else {
        return Ok(());
    };
    match actors.get_mut(usize::from(message.to.get())) {
        Some(actor) => put_delivery(output, run.topology, step, number, message, actor),
        None => Ok(()),
    }
}

// What was asked of this actor.
fn put_asked<W: Write>(
    output: &mut Output<W>,
    topology: &Topology,
    step: &Step,
    event: &ScriptEvent,
    actor: &mut Actor,
) -> Result<(), Fault>
    ensures grown { HasGrown W.contents output.old output.new }
    ensures failed { IfErr result (HasCut output.new) }
{
    match event {
        ScriptEvent::Submit { session, op } => {
            put_submission(output, topology, step, *session, op, actor)
        }
        ScriptEvent::Collect { shard, time } => {
            put_collection(output, topology, step, *shard, *time, actor)
        }
        _ => Ok(()),
    }
}

// What is done by hand to the actor of this node.
fn put_called<W: Write>(
    output: &mut Output<W>,
    topology: &Topology,
    step: &Step,
    event: &ScriptEvent,
    actors: &mut [Actor],
) -> Result<(), Fault>
    ensures grown { HasGrown W.contents output.old output.new }
    ensures failed { IfErr result (HasCut output.new) }
{
    let node = match event {
        ScriptEvent::Submit { session, op: _ } => session.get(),
        ScriptEvent::Collect { shard, time: _ } => shard.get(),
        _ => 0,
    };
    match actors.get_mut(usize::from(node)) {
        Some(actor) => put_asked(output, topology, step, event, actor),
        None => Ok(()),
    }
}

// What happened, with its actor and the clock after it.
fn put_happened<W: Write>(
    output: &mut Output<W>,
    run: Run<'_>,
    step: &Step,
    actors: &mut [Actor],
) -> Result<(), Fault>
    ensures grown { HasGrown W.contents output.old output.new }
    ensures failed { IfErr result (HasCut output.new) }
{
    if let Some(number) = step.message {
        return put_delivered(output, run, step, number, actors);
    }
    match run.events.get(step.place) {
        Some(event) => put_called(output, run.topology, step, event, actors),
        None => Ok(()),
    }
}

// How the rows of reads that ended were accepted.
fn put_reads<W: Write>(
    output: &mut Output<W>,
    messages: &[Envelope],
    completed: &[Completed],
    actors: &[Actor],
) -> Result<(), Fault>
    ensures grown { HasGrown W.contents output.old output.new }
    ensures failed { IfErr result (HasCut output.new) }
{
    for ended in completed {
        if let Outcome::Read {
            effective,
            answer: _,
        } = &ended.outcome
        {
            if let Some(actor) = actors.get(usize::from(ended.node.get())) {
                put_rounds(output, actor, messages, *effective)?;
            }
        }
    }
    Ok(())
}

// How many lines of a transcript a refusal and these operations have.
fn lines_of(refusal: Option<Fault>, completed: &[Completed]) -> usize {
    let mut count = if refusal.is_some() { 1usize } else { 0 };
    for ended in completed {
        let rows = match &ended.outcome {
            Outcome::Read {
                effective: _,
                answer,
            } => answer.as_slice().len(),
            _ => 0,
        };
        count = count.saturating_add(rows).saturating_add(1);
    }
    count
}

// The line of what happened after so many messages and outcomes, with the first lines that the transcript has left. Gives what it
// has left then.
fn put_step<'t, W: Write>(
    output: &mut Output<W>,
    run: Run<'_>,
    step: &Step,
    before: (usize, usize),
    actors: &mut [Actor],
    text: &'t [u8],
) -> Result<&'t [u8], Fault>
    ensures grown { HasGrown W.contents output.old output.new }
    ensures told { IfOk result (λ rest. Shows W.contents output.old output.new text.now rest.now) }
    ensures failed { IfErr result (HasCut output.new) }
{
    put_happened(output, run, step, actors)?;
    let (sent, ended) = before;
    put_sent(
        output,
        sent,
        run.messages.get(sent..step.sent).unwrap_or(&[]),
    )?;
    let completed = run.completed.get(ended..step.ended).unwrap_or(&[]);
    put_reads(output, run.messages, completed, actors)?;
    put_lines(output, text, lines_of(step.refusal, completed))
}

// Each line.
fn put_steps<W: Write>(
    output: &mut Output<W>,
    run: Run<'_>,
    steps: &[Step],
    actors: &mut [Actor],
    text: &[u8],
) -> Result<(), Fault>
    ensures grown { HasGrown W.contents output.old output.new }
    ensures told { OnOk result (Shows W.contents output.old output.new text.now []) }
    ensures failed { IfErr result (HasCut output.new) }
{
    put_actors(output, run.topology)?;
    let mut rest = text;
    let mut before = (0, 0);
    for step in steps {
        rest = put_step(output, run, step, before, actors, rest)?;
        before = (step.sent, step.ended);
    }
    put_rest(output, rest)
}

/// Writes a trace and passes it on, so that the writer holds nothing back: a line that tells which actors there are, and one for
/// each event that happened, with the lines of the transcript that it adds. Refused with `WriteFailed` exactly where the output has failed; then a beginning is written. Linear in
/// the text. Takes no memory.
pub fn write_trace<W: Buffered>(
    output: &mut Output<W>,
    script: &Script,
    traced: &mut Traced,
) -> Result<(), Fault>
    // each line of the transcript, in order
    ensures told { OnOk result (TellsLines W.contents output.old output.new traced.old.text.items) }
    ensures passed_on { OnOk result (W.held output.new.writer ≡ []) }
    ensures sound { OnOk result (IsNone output.new.failure) }
    ensures part { OnErr result (TellsPart W.contents output.old output.new traced.old.text.items) }
    ensures failed { IfErr result (HasCut output.new) }
{
    let run = Run {
        topology: &script.topology,
        events: script.events.as_slice(),
        messages: traced.world.messages(),
        completed: traced.world.transcript(),
    };
    let text = traced.text.as_slice();
    put_steps(output, run, &traced.steps, &mut traced.actors, text)?;
    output.flush()
}
