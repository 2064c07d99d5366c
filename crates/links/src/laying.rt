//! The rings of a topology.
ghost use Rattle.std.specs.Prelude.{◌≡◌, ◌<◌, ◌==◌, ◌++◌, ◌∷◌, [], ℕ, if◌then◌else◌, length, IfOk, OnOk, IfErr};
ghost use Rattle.messages.specs.Topology.{node_count};
ghost use Rattle.links.specs.Links as spec;
ghost use Rattle.links.specs.Mesh.{IsLaid, AreLaid, IsMesh, outgoing_at, incoming_at, new_out_link, new_in_link};

use crate::ends::Ends;
use crate::in_link::InLink;
use crate::out_link::OutLink;
use logical_time::{Fault, Node};
use messages::Topology;
use rtrb::RingBuffer;
use std::alloc::Global;

/// How many envelopes a ring holds, where nothing else is asked for.
pub const RING: usize = 256;

/// Whether the shards are in one data centre, or are the same shard of two.
fn are_near(topology: &Topology, a: Node, b: Node) -> bool
    ensures { result ≡ spec.are_near topology.now a b }
{
    topology.dc_of(a) == topology.dc_of(b) || topology.shard_of(a) == topology.shard_of(b)
}

/// Whether the two actors may exchange envelopes: an actor with itself, the shards of one data centre with each other, the
/// same shard of two data centres, and a session with every shard, since it may move to any data centre.
pub fn may_exchange(topology: &Topology, a: Node, b: Node) -> bool
    ensures { result ≡ spec.may_exchange topology.now a b }
{
    if a == b {
        return true;
    }
    match (topology.is_shard(a), topology.is_shard(b)) {
        (true, true) => are_near(topology, a, b),
        (true, false) | (false, true) => true,
        (false, false) => false,
    }
}

/// A ring from one actor to another, for so many envelopes: the two ends are of one ring. Refused with `Memory` alone.
pub fn ring(
    alloc: Global,
    from: Node,
    to: Node,
    capacity: usize,
) -> Result<(OutLink, InLink), Fault>
    ensures out { IfOk result (λ r. r.0 ≡ new_out_link capacity r.0.ring to) }
    ensures into { IfOk result (λ r. r.1 ≡ new_in_link r.0.ring to from) }
    ensures memory { IfErr result (λ e. e ≡ Fault.Memory) }
{
    let (producer, consumer) = RingBuffer::new(alloc, capacity)?;
    Ok((OutLink { to, producer }, InLink { from, to, consumer }))
}

/// So many actors without rings.
fn unlinked(alloc: Global, count: u16) -> Result<Vec<Ends>, Fault>
    ensures count { IfOk result (λ ends. length ends.items ≡ count) }
    ensures outgoing { IfOk result (λ ends. (node : ℕ) → outgoing_at ends.items node ≡ []) }
    ensures incoming { IfOk result (λ ends. (node : ℕ) → incoming_at ends.items node ≡ []) }
    ensures memory { IfErr result (λ e. e ≡ Fault.Memory) }
{
    let mut ends = Vec::new(alloc);
    for _ in 0..count {
        ends.push(Ends {
            outgoing: Vec::new(alloc),
            incoming: Vec::new(alloc),
        })?;
    }
    Ok(ends)
}

/// The actor with this node holds the sender's end of one more ring.
fn add_outgoing(ends: &mut Vec<Ends>, place: usize, link: OutLink) -> Result<(), Fault>
    requires { place < length ends.old.items }
    ensures count { length ends.new.items ≡ length ends.old.items }
    ensures outgoing { (node : ℕ) → OnOk result (outgoing_at ends.new.items node ≡ outgoing_at ends.old.items node ++ (if node == place then link ∷ [] else [])) }
    ensures incoming { (node : ℕ) → incoming_at ends.new.items node ≡ incoming_at ends.old.items node }
    ensures memory { IfErr result (λ e. e ≡ Fault.Memory) }
{
    ends[place].outgoing.push(link)?;
    Ok(())
}

/// The actor with this node holds the receiver's end of one more ring.
fn add_incoming(ends: &mut Vec<Ends>, place: usize, link: InLink) -> Result<(), Fault>
    requires { place < length ends.old.items }
    ensures count { length ends.new.items ≡ length ends.old.items }
    ensures outgoing { (node : ℕ) → outgoing_at ends.new.items node ≡ outgoing_at ends.old.items node }
    ensures incoming { (node : ℕ) → OnOk result (incoming_at ends.new.items node ≡ incoming_at ends.old.items node ++ (if node == place then link ∷ [] else [])) }
    ensures memory { IfErr result (λ e. e ≡ Fault.Memory) }
{
    ends[place].incoming.push(link)?;
    Ok(())
}

/// Lays a ring from one actor to another, which hold its two ends.
fn lay(
    alloc: Global,
    ends: &mut Vec<Ends>,
    from: u16,
    to: u16,
    capacity: usize,
) -> Result<(), Fault>
    requires { (from < length ends.old.items) × (to < length ends.old.items) }
    ensures count { length ends.new.items ≡ length ends.old.items }
    ensures laid { OnOk result (IsLaid capacity from to ends.old.items ends.new.items) }
    ensures memory { IfErr result (λ e. e ≡ Fault.Memory) }
{
    let (out, into) = ring(alloc, Node::new(from), Node::new(to), capacity)?;
    add_outgoing(ends, usize::from(from), out)?;
    add_incoming(ends, usize::from(to), into)
}

/// Lays the rings from one actor.
fn lay_from(
    alloc: Global,
    topology: &Topology,
    ends: &mut Vec<Ends>,
    from: u16,
    capacity: usize,
) -> Result<(), Fault>
    requires { (from < node_count topology.now) × (length ends.old.items ≡ node_count topology.now) }
    ensures count { length ends.new.items ≡ length ends.old.items }
    ensures laid { OnOk result (AreLaid topology.now capacity from ends.old.items ends.new.items) }
    ensures memory { IfErr result (λ e. e ≡ Fault.Memory) }
{
    let count = topology.node_count();
    for to in 0..count {
        if may_exchange(topology, Node::new(from), Node::new(to)) {
            lay(alloc, ends, from, to, capacity)?;
        }
    }
    Ok(())
}

/// The rings of a topology, each for so many envelopes: the ends that each actor holds, by the actors' nodes. In the order
/// of n² for n actors. Refused with `Memory` alone.
pub fn mesh(alloc: Global, topology: &Topology, capacity: usize) -> Result<Vec<Ends>, Fault>
    ensures ok { IfOk result (λ ends. IsMesh topology.now capacity ends.items) }
    ensures memory { IfErr result (λ e. e ≡ Fault.Memory) }
{
    let count = topology.node_count();
    let mut ends = unlinked(alloc, count)?;
    for from in 0..count {
        lay_from(alloc, topology, &mut ends, from, capacity)?;
    }
    Ok(ends)
}
