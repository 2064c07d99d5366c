//! Histories of data centres, by asking the shards in their seats.
ghost use Rattle.std.specs.Prelude.{◌≡◌, ◌<◌, ◌++◌, ℕ, List, filter_map, option_map, option_and_then, option_to_list, true, OnOk, IfOk, IfErr};
ghost use Rattle.column_family.specs.declared.batch.Change.{Change};
ghost use Rattle.planner.specs.Plan.{coordinator_of};
ghost use Rattle.messages.specs.Topology.{TopologyValue, is_topology, shard_node};
ghost use Rattle.messages.specs.Shard.{ShardState, Decision};
ghost use Rattle.messages.specs.Actors.{OfShard};
ghost use Rattle.messages.specs.Known.{decision_of};
ghost use Rattle.actors.specs.Seats.{SeatValue};
ghost use Rattle.world.specs.declared.run_event.RunEvent.{RunEvent};
ghost use Rattle.world.specs.Run.{run};
ghost use Rattle.world.specs.Asked.{entry_by, entry_of};
ghost use Rattle.world.specs.Histories.{batch_in, IsHistory};
ghost use Rattle.world.specs.Journals.{IsRunOf};
ghost use Rattle.threaded.specs.Machines.{Stands};
ghost use Rattle.threaded.specs.OneRun.{journal_of, AreSeatsOf};
ghost use Rattle.threaded.specs.Asking.{writes_by, asked_of, AreReplays, AreAsked};

use crate::actor::Actor;
use crate::concluding::place_of;
use crate::entries::submitted;
use actors::Seat;
use column_family::{Batch, Committed};
use logical_time::{Fault, Node, Shard as Number, Stamp, Time, TxnId};
use messages::{ActorEvent, Home, Op, Topology};
use planner::shard_of;
use std::alloc::Global;
use table::History;

/// The coordinator of a batch: the shard of its first row.
fn coordinator(home: Home, batch: &Batch) -> Number
    ensures { result ≡ coordinator_of home.shards batch.now }
{
    match batch.as_slice().first() {
        Some(change) => shard_of(&change.row.key, home.shards()),
        None => Number::first(),
    }
}

/// What a shard decided of the transaction, if it did. A session decides nothing.
fn decision(actor: &Actor, txn: TxnId) -> Option<(Time, Stamp)>
    ensures { (top : TopologyValue) (node : ℕ) (a : ShardState) → Stands top node actor.now (OfShard a)
        → option_map (λ (d : Decision). (d.commit, d.stamp)) (decision_of txn a) ≡ result }
{
    match actor {
        Actor::Shard(shard) => shard.decided(txn),
        Actor::Session {
            session: _,
            waits: _,
            ended: _,
        } => None,
    }
}

/// What the coordinator of the batch in this data centre decided of the transaction, if it did.
fn decided(home: Home, seats: &[Seat<Actor>], batch: &Batch, txn: TxnId) -> Option<(Time, Stamp)>
    ensures { (top : TopologyValue) (states : ℕ → ShardState) → AreAsked top states home seats.now
        → option_map (λ (d : Decision). (d.commit, d.stamp)) (decision_of txn (states (shard_node top home.dc (coordinator_of top.shards batch.now)))) ≡ result }
{
    let node = home.node_of(coordinator(home, batch));
    match place_of(seats, node) {
        Some(place) => decision(seats[place].machine(), txn),
        None => None,
    }
}

/// The entry of a batch, by what was told of it. Refused with `Memory` alone.
fn entry_with(batch: &Batch, told: Option<(Time, Stamp)>) -> Result<Option<Committed>, Fault>
    ensures ok { IfOk result (λ o. o ≡ entry_by batch.now told) }
    ensures memory { IfErr result (λ e. e ≡ Fault.Memory) }
{
    match told {
        None => Ok(None),
        Some((commit, stamp)) => Ok(Some(Committed {
            batch: batch.clone()?,
            stamp,
            commit,
        })),
    }
}

/// Adds an entry at the end, if there is one. Refused with `Memory` alone.
fn add(history: &mut History, entry: Option<Committed>) -> Result<(), Fault>
    ensures ok { OnOk result (history.new ≡ history.old ++ option_to_list entry) }
    ensures memory { IfErr result (λ e. e ≡ Fault.Memory) }
{
    if let Some(entry) = entry {
        history.push(entry)?;
    }
    Ok(())
}

/// Adds the entry of an operation, if it is a write that is decided in the data centre. Refused with `Memory` alone.
fn add_of(
    history: &mut History,
    home: Home,
    seats: &[Seat<Actor>],
    op: &Op,
    txn: TxnId,
) -> Result<(), Fault>
    ensures ok { (top : TopologyValue) (states : ℕ → ShardState) → AreAsked top states home seats.now
        → OnOk result (history.new ≡ history.old ++ option_to_list (option_and_then (entry_of top states home.dc) (option_map (λ (batch : List Change). (txn, batch)) (batch_in op.now)))) }
    ensures memory { IfErr result (λ e. e ≡ Fault.Memory) }
{
    if let Op::Batch(batch) = op {
        let batch = batch.get();
        let told = decided(home, seats, batch, txn);
        add(history, entry_with(batch, told)?)?;
    }
    Ok(())
}

/// Adds the entries of a session's writes, in the order of its journal. Refused with `Memory` alone.
fn add_session(
    history: &mut History,
    home: Home,
    seats: &[Seat<Actor>],
    session: Node,
    journal: &[ActorEvent],
) -> Result<(), Fault>
    ensures ok { (top : TopologyValue) (states : ℕ → ShardState) → AreAsked top states home seats.now
        → OnOk result (history.new ≡ history.old ++ filter_map (entry_of top states home.dc) (writes_by session journal.now)) }
    ensures memory { IfErr result (λ e. e ≡ Fault.Memory) }
{
    let mut number = 0;
    for event in journal {
        if let Some(op) = submitted(event) {
            number += 1;
            add_of(history, home, seats, op, TxnId { session, number })?;
        }
    }
    Ok(())
}

/// What the coordinators in a data centre tell of all writes that the sessions' journals submitted, one session after the other.
/// Refused with `Memory` alone. Linear in the journals, beside what is asked of the coordinators.
pub(crate) fn history(
    alloc: Global,
    seats: &[Seat<Actor>],
    topology: &Topology,
    dc: u16,
) -> Result<History, Fault>
    requires { dc < topology.now.dcs }
    ensures ok { (states : ℕ → ShardState) → AreSeatsOf topology.now seats.now → AreReplays topology.now seats.now states
        → IfOk result (λ h. h ≡ asked_of topology.now states seats.now dc) }
    ensures memory { IfErr result (λ e. e ≡ Fault.Memory) }
{
    let home = topology.home(dc);
    let mut history = History::new(alloc);
    for session in 0..topology.homes().len() as u16 {
        let node = topology.session_node(session);
        if let Some(place) = place_of(seats, node) {
            add_session(&mut history, home, seats, node, seats[place].journal())?;
        }
    }
    Ok(history)
}

/// Where the journals of seats are those of a run, what its shards tell of all submitted writes is the history of a data centre.
/// Does nothing; its contract is the law.
#[tactic(auto, using(crate::proofs::Asked::asked_is_history))]
pub fn asked_seats_tell_the_history()
    ensures { (top : TopologyValue) (seats : List SeatValue) → is_topology top.dcs top.shards top.homes ≡ true → (events : List RunEvent) → IsRunOf top (journal_of seats) events
        → (dc : ℕ) → dc < top.dcs → IsHistory top (run top events) dc (asked_of top (run top events).shards seats dc) }
{}
