//! What a script asks of each actor.
ghost use Rattle.std.specs.Prelude.{◌≡◌, ◌++◌, option_to_list, IfOk, OnOk, IfErr};
ghost use Rattle.running.specs.Asked as spec;

use logical_time::{Fault, Node};
use messages::ActorEvent;
use std::alloc::Global;
use workload::ScriptEvent;

/// What an event of a script asks of the actor with this node, if it asks it for something. Refused with `Memory` alone.
fn asked_by(node: Node, event: &ScriptEvent) -> Result<Option<ActorEvent>, Fault>
    ensures ok { IfOk result (λ asked. asked ≡ spec.asked_by node event.now) }
    ensures memory { IfErr result (λ e. e ≡ Fault.Memory) }
{
    match event {
        ScriptEvent::Submit { session, op } if *session == node => {
            Ok(Some(ActorEvent::Submit(op.copied()?)))
        }
        ScriptEvent::Collect { shard, time } if *shard == node => Ok(Some(ActorEvent::Collect(
            *time,
        ))),
        _ => Ok(None),
    }
}

/// Adds what an event of a script asks of the actor with this node, if it asks it for something. Refused with `Memory` alone.
fn add_asked(list: &mut Vec<ActorEvent>, node: Node, event: &ScriptEvent) -> Result<(), Fault>
    ensures ok { OnOk result (list.new.items ≡ list.old.items ++ option_to_list (spec.asked_by node event.now)) }
    ensures memory { IfErr result (λ e. e ≡ Fault.Memory) }
{
    if let Some(asked) = asked_by(node, event)? {
        list.push(asked)?;
    }
    Ok(())
}

/// What these events of a script ask of the actor with this node, in order. Refused with `Memory` alone.
pub(crate) fn asked_in(
    alloc: Global,
    node: Node,
    events: &[ScriptEvent],
) -> Result<Vec<ActorEvent>, Fault>
    ensures ok { IfOk result (λ list. list.items ≡ spec.asked_in node events.now) }
    ensures memory { IfErr result (λ e. e ≡ Fault.Memory) }
{
    let mut list = Vec::new(alloc);
    for place in 0..events.len() {
        add_asked(&mut list, node, &events[place])?;
    }
    Ok(list)
}
