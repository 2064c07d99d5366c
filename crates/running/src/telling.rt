//! What became of the operations of sessions is told.
ghost use Rattle.std.specs.Prelude.{◌≡◌, ◌↔◌, ◌++◌, ◌∷◌, [], ◌⊎◌, true, map, drop, All, IfOk, OnOk, IfErr};
ghost use Rattle.actors.specs.Resting.{IsResting};
ghost use Rattle.threaded.specs.OneRun.{seat_of};
ghost use Rattle.running.specs.Faults.{TookIn, HaveTaken, AreOfScript};
ghost use Rattle.workload.specs.Simulation.{entry_by};
ghost use Rattle.running.specs.Told.{refusal_by, told_before, left_after, told_by, told_at, told_of};
ghost use Rattle.running.specs.Running.{IsToldOf};

use crate::course::has_taken;
use actors::Seat;
use equality::same_topology;
use logical_time::{Fault, Node};
use messages::Outcome;
use std::alloc::Global;
use threaded::{Actor, Concluded};
use workload::{Entry, Script, Transcript};

/// Tells the refusals of a seat, from a place on, that came before the operation of this number was accepted. Gives the place
/// of the next one. Refused with `Memory` alone.
fn tell_before(
    node: Node,
    seat: &Seat<Actor>,
    first: usize,
    number: u64,
    transcript: &mut Transcript,
) -> Result<usize, Fault>
    ensures told { OnOk result (transcript.new ≡ transcript.old ++ told_before node number (drop first seat.now.refusals)) }
    ensures left { IfOk result (λ place. drop place seat.now.refusals ≡ left_after number (drop first seat.now.refusals)) }
    ensures memory { IfErr result (λ e. e ≡ Fault.Memory) }
{
    let refusals = seat.refusals();
    for place in first..refusals.len() {
        if refusals[place].0 >= number {
            return Ok(place);
        }
        let fault = refusals[place].1;
        transcript.push(Entry::Refused { node, fault })?;
    }
    Ok(refusals.len())
}

/// Tells the refusals of a seat from a place on. Refused with `Memory` alone.
fn tell_left(
    node: Node,
    seat: &Seat<Actor>,
    first: usize,
    transcript: &mut Transcript,
) -> Result<(), Fault>
    ensures told { OnOk result (transcript.new ≡ transcript.old ++ map (refusal_by node) (drop first seat.now.refusals)) }
    ensures memory { IfErr result (λ e. e ≡ Fault.Memory) }
{
    let refusals = seat.refusals();
    for place in first..refusals.len() {
        let fault = refusals[place].1;
        transcript.push(Entry::Refused { node, fault })?;
    }
    Ok(())
}

/// Tells an outcome of a seat, after the refusals, from a place on, that came before its operation was accepted. Gives the place
/// of the next refusal. Refused with `Memory` alone.
fn tell_outcome(
    node: Node,
    seat: &Seat<Actor>,
    first: usize,
    outcome: &(u64, Outcome),
    transcript: &mut Transcript,
) -> Result<usize, Fault>
    ensures told { OnOk result (transcript.new ≡ (transcript.old ++ told_before node outcome.now.0 (drop first seat.now.refusals)) ++ entry_by node outcome.now.0 outcome.now.1 ∷ []) }
    ensures left { IfOk result (λ place. drop place seat.now.refusals ≡ left_after outcome.now.0 (drop first seat.now.refusals)) }
    ensures memory { IfErr result (λ e. e ≡ Fault.Memory) }
{
    let place = tell_before(node, seat, first, outcome.0, transcript)?;
    transcript.push(Entry::ended(node, outcome.0, &outcome.1)?)?;
    Ok(place)
}

/// Tells the outcomes of a session and its refusals, each where it came. Refused with `Memory` alone.
fn tell_session(node: Node, seat: &Seat<Actor>, transcript: &mut Transcript) -> Result<(), Fault>
    ensures told { OnOk result (transcript.new ≡ transcript.old ++ told_by node seat.now.outcomes seat.now.refusals) }
    ensures memory { IfErr result (λ e. e ≡ Fault.Memory) }
{
    let outcomes = seat.outcomes();
    let mut told = 0;
    for place in 0..outcomes.len() {
        told = tell_outcome(node, seat, told, &outcomes[place], transcript)?;
    }
    tell_left(node, seat, told, transcript)
}

/// Tells the session with this node, if it has a seat. Refused with `Memory` alone.
fn tell_at(concluded: &Concluded, node: Node, transcript: &mut Transcript) -> Result<(), Fault>
    ensures told { OnOk result (transcript.new ≡ transcript.old ++ told_at node (seat_of concluded.now.seats node)) }
    ensures memory { IfErr result (λ e. e ≡ Fault.Memory) }
{
    match concluded.seat(node) {
        Some(seat) => tell_session(node, seat, transcript),
        None => Ok(()),
    }
}

/// Tells all sessions, one after the other. Refused with `Memory` alone.
fn tell_sessions(concluded: &Concluded, transcript: &mut Transcript) -> Result<(), Fault>
    ensures told { OnOk result (transcript.new ≡ transcript.old ++ told_of concluded.now.top concluded.now.seats) }
    ensures memory { IfErr result (λ e. e ≡ Fault.Memory) }
{
    let topology = concluded.topology();
    for session in 0..topology.homes().len() as u16 {
        tell_at(concluded, topology.session_node(session), transcript)?;
    }
    Ok(())
}

/// Whether the actor with this node has a seat, and did all that the script asks of it, and nothing else of its own.
fn took(script: &Script, concluded: &Concluded, node: Node) -> bool
    ensures { (result ≡ true) ↔ TookIn script.now concluded.now.seats node }
{
    match concluded.seat(node) {
        Some(seat) => has_taken(script, node, seat),
        None => false,
    }
}

/// Whether so it is of each actor.
fn have_taken(script: &Script, concluded: &Concluded) -> bool
    ensures { (result ≡ true) ↔ HaveTaken script.now concluded.now.seats }
{
    for node in 0..script.topology.node_count() {
        if !took(script, concluded, Node::new(node)) {
            return false;
        }
    }
    true
}

/// Whether the seats are the script's, and their actors did what it asks.
fn are_of(script: &Script, concluded: &Concluded) -> bool
    ensures { (result ≡ true) ↔ ((concluded.now.top ≡ script.now.topology) × HaveTaken script.now concluded.now.seats) }
{
    if !same_topology(concluded.topology(), &script.topology) {
        return false;
    }
    have_taken(script, concluded)
}

/// What became of the operations of a script, if these seats did what it asks of their actors, and received all that was sent. That
/// they rest is the caller's condition. Refused with `StrangerEnd` exactly where they didn't, and with `Memory`. For each actor the
/// script and its journal are gone through once, and then as `Concluded::is_quiet` says.
pub(crate) fn tell(
    alloc: Global,
    script: &Script,
    concluded: &Concluded,
) -> Result<Transcript, Fault>
    requires { All IsResting concluded.now.seats }
    ensures told { IfOk result (IsToldOf script.now concluded.now) }
    ensures of { IfOk result (λ transcript. AreOfScript script.now concluded.now.seats) }
    ensures refused { IfErr result (λ e. (e ≡ Fault.Memory) ⊎ ((e ≡ Fault.StrangerEnd) × (AreOfScript script.now concluded.now.seats → ⊥))) }
{
    // the journals are those of a run
    let _concluded = concluded.seats();
    if !are_of(script, concluded) {
        return Err(Fault::StrangerEnd);
    }
    let quiet = concluded.is_quiet(alloc)?;
    if !quiet {
        return Err(Fault::StrangerEnd);
    }
    let mut transcript = Transcript::new(alloc);
    tell_sessions(concluded, &mut transcript)?;
    Ok(transcript)
}
