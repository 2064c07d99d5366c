//! A world that comes back.
ghost use Rattle.std.specs.Prelude.{◌≡◌, ◌⊎◌, ◌++◌, ◌∷◌, [], List, IfOk, IfErr, OnOk};
ghost use Rattle.logical_time.specs.declared.fault.Fault.TheVariants.{Memory};
ghost use Rattle.world.specs.declared.run_event.RunEvent.{RunEvent};
ghost use Rattle.world.specs.Quiet.{IsQuiet};
ghost use Rattle.world.specs.World.{run_of};
ghost use Rattle.ledger.specs.declared.entry.Entry.{Entry};
ghost use Rattle.ledger.specs.declared.entry.Entry.TheVariants.{Request, Rested};
ghost use Rattle.durable.specs.Playing.{IsLed, Outlives};
ghost use Rattle.durable.specs.Stuck.{CantHappen, IsStuck};

use crate::progress::Progress;
use crate::replaying::Replayed;
use ledger::Entry;
use logical_time::{Fault, Node};
use messages::{Op, Topology};
use present::Present;
use service::make_ready;
use std::alloc::Global;
use world::World;

// The request of the session of this index is submitted again, once all that was sent is handled. Refused as it is, and with `Busy`
// where there is no such session.
fn replay_request<W: Replayed>(world: &mut W, index: u16, op: Op) -> Result<(), Fault>
    ensures refused { IfErr result (CantHappen (W.world world.old).top (W.world world.old).events (Request index op)) }
    ensures ok { OnOk result ((es : List Entry) → IsLed (W.world world.old).top (W.world world.old).events es → IsLed (W.world world.old).top (W.world world.new).events (es ++ Request index op ∷ [])) }
    ensures topology { (W.world world.new).top ≡ (W.world world.old).top }
{
    if usize::from(index) >= world.topology().homes().len() {
        return Err(Fault::Busy);
    }
    make_ready(world)?;
    let session = world.topology().session_node(index);
    match world.submit_again(session, op) {
        Ok(()) => Ok(()),
        Err(fault) => Err(fault),
    }
}

// The shard collects again, once all that was sent is handled. Refused as it does, and with `Busy` where there is no such shard.
fn replay_rest<W: Replayed>(world: &mut W, shard: u16) -> Result<(), Fault>
    ensures refused { IfErr result (CantHappen (W.world world.old).top (W.world world.old).events (Rested shard)) }
    ensures ok { OnOk result ((es : List Entry) → IsLed (W.world world.old).top (W.world world.old).events es → IsLed (W.world world.old).top (W.world world.new).events (es ++ Rested shard ∷ [])) }
    ensures topology { (W.world world.new).top ≡ (W.world world.old).top }
{
    make_ready(world)?;
    let node = Node::new(shard);
    if !world.topology().is_shard(node) {
        return Err(Fault::Busy);
    }
    match world.collect_again(node) {
        Ok(()) => Ok(()),
        Err(fault) => Err(fault),
    }
}

// What an entry tells happens again.
fn replay<W: Replayed>(world: &mut W, entry: Entry) -> Result<(), Fault>
    ensures refused { IfErr result (CantHappen (W.world world.old).top (W.world world.old).events entry) }
    ensures ok { OnOk result ((es : List Entry) → IsLed (W.world world.old).top (W.world world.old).events es → IsLed (W.world world.old).top (W.world world.new).events (es ++ entry ∷ [])) }
    ensures topology { (W.world world.new).top ≡ (W.world world.old).top }
{
    match entry {
        Entry::Request { session, op } => replay_request(world, session, op),
        Entry::Rested { shard } => replay_rest(world, shard),
    }
}

// What these entries tell happens again, one after the other, and then all is handled. How far it is is told after each.
fn replay_all<W: Replayed, P: Progress>(
    world: &mut W,
    entries: Vec<Entry>,
    watch: &mut P,
) -> Result<(), Fault>
    ensures refused { IfErr result (λ e. (es : List Entry) → IsLed (W.world world.old).top (W.world world.old).events es → IsStuck (W.world world.old).top es entries.items e) }
    ensures ok { OnOk result ((es : List Entry) → IsLed (W.world world.old).top (W.world world.old).events es → IsLed (W.world world.old).top (W.world world.new).events (es ++ entries.items)) }
    ensures quiet { OnOk result (IsQuiet (run_of (W.world world.new))) }
    ensures topology { (W.world world.new).top ≡ (W.world world.old).top }
{
    let all = entries.len();
    let mut done: usize = 0;
    for entry in entries {
        replay(world, entry)?;
        done = done.saturating_add(1);
        watch.came(done, all);
    }
    match make_ready(world) {
        Ok(()) => Ok(()),
        Err(fault) => Err(fault),
    }
}

/// The world of this topology that a log's entries lead to, in the order of the log, when all is handled: what happened before a
/// crash is a beginning of what happened to it, where the log has all entries until then, and each reply that was given then keeps
/// its meaning in it. Costs what the requests cost when they were asked. Refused with `Memory`, and where an entry can't happen, as
/// it is: as a request of its session or a collection of its shard is refused, a drain included, and with `Busy` where there is no
/// such session or shard.
pub(crate) fn recover<P: Progress>(
    alloc: Global,
    topology: &Topology,
    entries: Vec<Entry>,
    watch: &mut P,
) -> Result<Present, Fault>
    ensures refused { IfErr result (λ e. (e ≡ Memory) ⊎ IsStuck topology.now [] entries.items e) }
    ensures topology { IfOk result (λ w. w.top ≡ topology.now) }
    ensures led { IfOk result (λ w. IsLed topology.now w.events entries.items) }
    ensures quiet { IfOk result (λ w. IsQuiet (run_of w)) }
    ensures outlives { IfOk result (λ w. (before : List RunEvent) (es more : List Entry) → entries.items ≡ es ++ more → IsLed topology.now before es → Outlives topology.now before w.events) }
{
    let mut world = Present::new(alloc, topology)?;
    match replay_all(&mut world, entries, watch) {
        Ok(()) => Ok(world),
        Err(fault) => {
            world.close();
            Err(fault)
        }
    }
}

/// The same world, with all its past. It takes memory for each of its requests, and is refused as `recover` is.
pub(crate) fn recall_entries<P: Progress>(
    alloc: Global,
    topology: &Topology,
    entries: Vec<Entry>,
    watch: &mut P,
) -> Result<World, Fault>
    ensures refused { IfErr result (λ e. (e ≡ Memory) ⊎ IsStuck topology.now [] entries.items e) }
    ensures topology { IfOk result (λ w. w.top ≡ topology.now) }
    ensures led { IfOk result (λ w. IsLed topology.now w.events entries.items) }
    ensures quiet { IfOk result (λ w. IsQuiet (run_of w)) }
    ensures outlives { IfOk result (λ w. (before : List RunEvent) (es more : List Entry) → entries.items ≡ es ++ more → IsLed topology.now before es → Outlives topology.now before w.events) }
{
    let mut world = World::new(alloc, topology)?;
    match replay_all(&mut world, entries, watch) {
        Ok(()) => Ok(world),
        Err(fault) => {
            world.close();
            Err(fault)
        }
    }
}
