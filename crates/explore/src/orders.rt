//! Orders in which the messages of a script can come: what the actors do on their own is what the script asks of them.
ghost use Rattle.std.specs.Prelude.{◌≡◌, ◌↔◌, ◌<◌, ℕ, true, IfOk, map};
ghost use Rattle.std.specs.List.{list_all};
ghost use Rattle.explore.specs.Orders as spec;

use crate::stop::Stop;
use equality::{same_op, same_topology};
use logical_time::Node;
use std::alloc::{AllocError, Global};
use workload::{Script, ScriptEvent};

// Whether two events are the same.
fn same_event(a: &ScriptEvent, b: &ScriptEvent) -> bool
    ensures { (result ≡ true) ↔ (a.now ≡ b.now) }
{
    match (a, b) {
        (
            ScriptEvent::Submit {
                session: a_session,
                op: a_op,
            },
            ScriptEvent::Submit { session, op },
        ) => *a_session == *session && same_op(a_op, op),
        (ScriptEvent::Deliver { number: a_number }, ScriptEvent::Deliver { number }) => {
            *a_number == *number
        }
        (
            ScriptEvent::Collect {
                shard: a_shard,
                time: a_time,
            },
            ScriptEvent::Collect { shard, time },
        ) => *a_shard == *shard && *a_time == *time,
        (ScriptEvent::Drain, ScriptEvent::Drain) => true,
        _ => false,
    }
}

// Whether this actor does it on its own.
fn is_own(event: &ScriptEvent, node: Node) -> bool
    ensures { result ≡ spec.is_own node event.now }
{
    match event {
        ScriptEvent::Submit { session, op: _ } => *session == node,
        ScriptEvent::Collect { shard, time: _ } => *shard == node,
        ScriptEvent::Deliver { number: _ } | ScriptEvent::Drain => false,
    }
}

// Whether it is a delivery, or one of so many actors does it on its own.
fn is_step(event: &ScriptEvent, actors: u16) -> bool
    ensures { result ≡ spec.is_step actors event.now }
{
    match event {
        ScriptEvent::Submit { session, op: _ } => session.get() < actors,
        ScriptEvent::Deliver { number: _ } => true,
        ScriptEvent::Collect { shard, time: _ } => shard.get() < actors,
        ScriptEvent::Drain => false,
    }
}

fn are_steps(events: &[ScriptEvent], actors: u16) -> bool
    ensures { result ≡ list_all (spec.is_step actors) events.now }
{
    events.iter().all(|event| is_step(event, actors))
}

// What this actor does on its own, in order.
fn own_of<'a>(
    alloc: Global,
    events: &'a [ScriptEvent],
    node: Node,
) -> Result<Vec<&'a ScriptEvent>, AllocError>
    ensures { IfOk result (λ own. map (λ e. e.now) own.items ≡ spec.own_of node events.now) }
{
    events
        .iter()
        .filter(|event| is_own(event, node))
        .collect(alloc)
}

// Whether these events are the first of those that were asked.
fn are_first(done: &[&ScriptEvent], asked: &[&ScriptEvent]) -> bool
    ensures { (result ≡ true) ↔ spec.IsDone true (map (λ e. e.now) asked.now) (map (λ e. e.now) done.now) }
{
    if asked.len() < done.len() {
        return false;
    }
    for place in 0..done.len() {
        if !same_event(done[place], asked[place]) {
            return false;
        }
    }
    true
}

// Whether all that was asked is done; or a beginning of it, where messages may be lost.
fn is_done(lose: bool, done: &[&ScriptEvent], asked: &[&ScriptEvent]) -> bool
    ensures { (result ≡ true) ↔ spec.IsDone lose (map (λ e. e.now) asked.now) (map (λ e. e.now) done.now) }
{
    (lose || done.len() == asked.len()) && are_first(done, asked)
}

// Whether this actor does what is asked of it.
fn does(
    alloc: Global,
    lose: bool,
    asked: &[ScriptEvent],
    done: &[ScriptEvent],
    node: Node,
) -> Result<bool, AllocError>
    ensures { IfOk result (λ is. (is ≡ true) ↔ spec.IsDone lose (spec.own_of node asked.now) (spec.own_of node done.now)) }
{
    let asked = own_of(alloc, asked, node)?;
    let done = own_of(alloc, done, node)?;
    Ok(is_done(lose, done.as_slice(), asked.as_slice()))
}

// Whether each of so many actors does what is asked of it.
fn all_do(
    alloc: Global,
    lose: bool,
    asked: &[ScriptEvent],
    done: &[ScriptEvent],
    actors: u16,
) -> Result<bool, AllocError>
    ensures { IfOk result (λ are. (are ≡ true) ↔ ((node : ℕ) → node < actors → spec.IsDone lose (spec.own_of node asked.now) (spec.own_of node done.now))) }
{
    for node in 0..actors {
        if !does(alloc, lose, asked, done, Node::new(node))? {
            return Ok(false);
        }
    }
    Ok(true)
}

// Whether so many actors do what is asked of them, and all else are deliveries.
fn are_ordered(
    alloc: Global,
    lose: bool,
    actors: u16,
    asked: &[ScriptEvent],
    done: &[ScriptEvent],
) -> Result<bool, AllocError>
    ensures { IfOk result (λ are. (are ≡ true) ↔ spec.AreOrdered lose actors asked.now done.now) }
{
    if !are_steps(done, actors) {
        return Ok(false);
    }
    let own = all_do(alloc, lose, asked, done, actors)?;
    Ok(own)
}

/// Whether a script is an order of another: the same actors, each of which submits or collects the same in the same order,
/// or a beginning of it where messages may be lost, and deliveries. Costs what both are long, for each actor. Refused with
/// `Memory` alone.
pub(crate) fn is_order_of(
    alloc: Global,
    lose: bool,
    script: &Script,
    order: &Script,
) -> Result<bool, Stop>
    ensures { IfOk result (λ is. (is ≡ true) ↔ spec.IsOrderOf lose script.now order.now) }
{
    if !same_topology(&order.topology, &script.topology) {
        return Ok(false);
    }
    let actors = script.topology.node_count();
    let asked = script.events.as_slice();
    let ordered = are_ordered(alloc, lose, actors, asked, order.events.as_slice())?;
    Ok(ordered)
}
