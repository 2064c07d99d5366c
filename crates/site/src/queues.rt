//! What waits at a site, and what is to go.
ghost use Rattle.std.specs.Prelude.{◌≡◌, ◌≤◌, ◌+◌, ◌++◌, [], ◌∷◌, filter, length, reverse, IfErr, OnOk, OnErr};
ghost use Rattle.std.specs.VecDeque.{deque_len, deque_capacity};
ghost use Rattle.std.specs.Prelude.{vec_len, vec_capacity};
ghost use Rattle.site.specs.Story as spec;

use logical_time::{Fault, Node};
use messages::{Envelope, Outbox, Topology};
use std::alloc::Global;
use std::collections::VecDeque;

/// Whether the site of a data centre keeps the actor with a node.
pub(crate) fn is_here(topology: &Topology, dc: u16, node: Node) -> bool
    ensures { result ≡ spec.is_here topology.now dc node }
{
    if topology.is_shard(node) {
        return topology.dc_of(node) == dc;
    }
    match topology.home_of(node) {
        Some(home) => home == dc,
        None => false,
    }
}

// All that was sent, the last one first. There is room.
fn turn_over(fresh: &mut Outbox, turn: &mut Vec<Envelope>)
    requires { vec_len turn.old + length fresh.old.sent ≤ vec_capacity turn.old }
    ensures turned { reverse turn.new.items ≡ fresh.old.sent ++ reverse turn.old.items }
    ensures empty { fresh.new.sent ≡ [] }
{
    let count = fresh.len();
    for number in 0..count {
        turn.push_reserved(fresh.remove(count - 1 - number));
    }
}

// Puts each of these, the last one first, where it waits or is to go. There is room.
fn put(
    topology: &Topology,
    dc: u16,
    turn: Vec<Envelope>,
    inbox: &mut VecDeque<Envelope>,
    outgoing: &mut VecDeque<Envelope>,
)
    requires inbox { deque_len inbox.old + length turn.items ≤ deque_capacity inbox.old }
    requires outgoing { deque_len outgoing.old + length turn.items ≤ deque_capacity outgoing.old }
    ensures inbox { inbox.new.items ≡ inbox.old.items ++ filter (spec.is_near topology.now dc) (reverse turn.items) }
    ensures outgoing { outgoing.new.items ≡ outgoing.old.items ++ filter (spec.is_far topology.now dc) (reverse turn.items) }
{
    let mut turn = turn;
    while let Some(envelope) = turn.pop() {
        if is_here(topology, dc, envelope.to) {
            inbox.push_back_reserved(envelope);
        } else {
            outgoing.push_back_reserved(envelope);
        }
    }
}

/// Sorts what the last event sent: what is for an actor of the site waits for it, and the rest is to go to other sites. Linear.
/// Refused with `Memory` alone, and then nothing changes.
pub(crate) fn sort(
    alloc: Global,
    topology: &Topology,
    dc: u16,
    fresh: &mut Outbox,
    inbox: &mut VecDeque<Envelope>,
    outgoing: &mut VecDeque<Envelope>,
) -> Result<(), Fault>
    ensures inbox { OnOk result (inbox.new.items ≡ inbox.old.items ++ filter (spec.is_near topology.now dc) fresh.old.sent) }
    ensures outgoing { OnOk result (outgoing.new.items ≡ outgoing.old.items ++ filter (spec.is_far topology.now dc) fresh.old.sent) }
    ensures empty { OnOk result (fresh.new.sent ≡ []) }
    ensures waits { OnErr result (inbox.new.items ≡ inbox.old.items) }
    ensures goes { OnErr result (outgoing.new.items ≡ outgoing.old.items) }
    ensures same { OnErr result (fresh.new.sent ≡ fresh.old.sent) }
    ensures memory { IfErr result (λ e. e ≡ Fault.Memory) }
{
    let count = fresh.len();
    inbox.reserve(count)?;
    outgoing.reserve(count)?;
    let mut turn = Vec::with_capacity(alloc, count)?;
    turn_over(fresh, &mut turn);
    put(topology, dc, turn, inbox, outgoing);
    Ok(())
}
