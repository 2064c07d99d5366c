//! A world that keeps no past.
ghost use Rattle.std.specs.Prelude.{◌≡◌, ◌<◌, ◌+◌, ◌↔◌, true, false, [], length, None, Some, IfOk, IfErr, OnOk, OnErr};
ghost use Rattle.messages.specs.Topology.{is_shard, is_session, is_topology, shard_count};
ghost use Rattle.world.specs.declared.run_event.RunEvent.TheVariants.{Submit, Deliver, Collect};
ghost use Rattle.world.specs.Lookups.{first_unhandled};
ghost use Rattle.world.specs.Refusals.{Refused};
ghost use Rattle.world.specs.Quiet.{IsQuiet};
ghost use Rattle.world.specs.Settled.{Settled};
ghost use Rattle.world.specs.World.{run_of, refusal_in, Takes, IsRefusedAs};
ghost use Rattle.present.specs.Past.{next_number};
ghost use Rattle.present.specs.Present.{IsEnd};
ghost use Rattle.present.specs.declared.actors.Actors.{Actors};
ghost use Rattle.present.specs.AtRest.{AreTidied, IsTidiedUntil, StandsAtRest};
ghost use Rattle.present.specs.Held.{held_by_all};
ghost use Rattle.present.specs.Promises.{KeepsPromises};

use crate::actors::Actors;
use crate::ended::Ended;
use crate::opening::{close_sessions, open_actors};
use crate::past::Past;
use logical_time::{Fault, Node};
use messages::{Op, Topology};
use std::alloc::Global;
use std::marker::Model;
use std::mem;
use std::snapshot::Snapshot;
use store::Holdings;
use world::{close_shards, leave_shards};

/// The actors of a topology and the messages that wait for them: each call is one event of one actor, and a tidying one
/// for each shard. It is the protocol's run of its events, oldest first, which only clauses see. It must be closed.
pub struct Present {
    actors: Actors,
    past: Past,
}

impl Model for Present {
    ghost use Rattle.world.specs.World.{WorldValue};
    ghost use Rattle.present.specs.AtRest.{StandsAtRest};

    ghost Value = { WorldValue };

    ghost view = { λ p. record { top = p.actors.topology; events = p.past } };

    ghost invariant = { λ p. StandsAtRest p.actors.topology p.past p.actors };
}

impl Present {
    /// The world of this topology before its first event, with a copy of it. Refused with `Memory` alone.
    pub fn new(alloc: Global, topology: &Topology) -> Result<Present, Fault>
        ensures made { IfOk result (λ p. p ≡ record { top = topology.now; events = [] }) }
        ensures memory { IfErr result (λ e. e ≡ Fault.Memory) }
    {
        let actors = open_actors(alloc, topology)?;
        Ok(Present {
            actors,
            past: Past::new(),
        })
    }

    /// A session submits an operation; the answer is its number among the session's operations, from 1, and the
    /// operation itself where it ended at once: a move of a session that depends on nothing does. That the node is a
    /// session's is the caller's condition. In the order of m log m for m mutations or keys, with the dependencies that
    /// a batch or a move takes along. Refused with `Busy` while another operation is open, then as `plan_batch` and
    /// `plan_read` refuse it and a move with `UnknownHome` and `AlreadyHome`, then with `ClockSpent`, and with
    /// `Memory`; then nothing changes, and the operation is handed back.
    pub fn submit(&mut self, session: Node, op: Op) -> Result<(u64, Option<Ended>), (Fault, Op)>
        requires { is_session self.old.top session ≡ true }
        ensures number { IfOk result (λ r. r.0 ≡ ((run_of self.old).sessions session).count + 1) }
        ensures taken { OnOk result (Takes self.old (Submit session op) self.new) }
        ensures ended { IfOk result (λ r. IsEnd (run_of self.old) (run_of self.new) r.1) }
        ensures refused { IfErr result (λ e. IsRefusedAs (refusal_in self.old (Submit session op)) e.0) }
        ensures same { OnErr result (self.new ≡ self.old) }
        ensures back { IfErr result (λ e. e.1 ≡ op) }
    {
        let was = Snapshot::of(&op);
        match self.actors.submit(session, op) {
            Ok(accepted) => {
                self.past.add_submission(session, was);
                Ok(accepted)
            }
            Err(refused) => Err(refused),
        }
    }

    /// The first message that waits, in the order of sending, is handled; the answer is the operation that ended by
    /// that, if one did. That one waits is the caller's condition. Costs what the actor's event does: the message is
    /// moved, and goes with it. Refused with `ClockSpent` where the clock of its actor would leave its range, and with
    /// `Memory`; then nothing changes, and it waits as it did.
    pub fn deliver(&mut self) -> Result<Option<Ended>, Fault>
        requires { next_number self.old.events < length (run_of self.old).sent }
        ensures taken { OnOk result (Takes self.old (Deliver (next_number self.old.events)) self.new) }
        ensures ended { IfOk result (IsEnd (run_of self.old) (run_of self.new)) }
        ensures refused { IfErr result (IsRefusedAs (refusal_in self.old (Deliver (next_number self.old.events)))) }
        ensures same { OnErr result (self.new ≡ self.old) }
    {
        let ended = self.actors.deliver()?;
        self.past.add_delivery();
        Ok(ended)
    }

    /// Whether the session would accept the operation now, with enough memory. That the node is a session's is the
    /// caller's condition. Refused as `submit` is otherwise, and never with `Memory`. In the order of m log m for m
    /// mutations or keys, and constant for a move.
    pub fn check(&self, session: Node, op: &Op) -> Result<(), Fault>
        requires { is_session self.now.top session ≡ true }
        ensures allowed { OnOk result (refusal_in self.now (Submit session op.now) ≡ None) }
        ensures refused { IfErr result (λ e. refusal_in self.now (Submit session op.now) ≡ Some (Refused e)) }
    {
        self.actors.check(session, op)
    }

    /// A shard drops all that no read from now on can ask for: it collects up to its own clock. That nothing waits, and
    /// that the node is a shard's, is the caller's condition. Costs what the rows with superseded versions and the range
    /// deletions do. Refused with `ClockSpent` alone, where its clock would leave its range; then nothing changes.
    pub fn collect(&mut self, shard: Node) -> Result<(), Fault>
        requires shard { is_shard self.old.top shard ≡ true }
        requires quiet { IsQuiet (run_of self.old) }
        ensures taken { OnOk result (Takes self.old (Collect shard ((run_of self.old).shards shard).clock) self.new) }
        ensures refused { IfErr result (IsRefusedAs (refusal_in self.old (Collect shard ((run_of self.old).shards shard).clock))) }
        ensures spent { IfErr result (λ e. e ≡ Fault.ClockSpent) }
        ensures same { OnErr result (self.new ≡ self.old) }
    {
        let time = self.actors.clock_of(shard);
        self.actors.collect(shard, time)?;
        self.past.add_collection(shard, time);
        Ok(())
    }

    /// Each shard drops all that no read from now on can ask for: it collects up to its own clock, in the order of the
    /// nodes. That nothing waits is the caller's condition. Costs what the rows with superseded versions and the range
    /// deletions do. Refused with `ClockSpent` alone, where a shard's clock would leave its range; those before it did
    /// collect.
    pub fn tidy(&mut self) -> Result<(), Fault>
        requires { IsQuiet (run_of self.old) }
        ensures ok { OnOk result (AreTidied self.old.top (shard_count self.old.top) self.old.events self.new.events) }
        ensures err { OnErr result (IsTidiedUntil self.old.top self.old.events self.new.events) }
        ensures spent { IfErr result (λ e. e ≡ Fault.ClockSpent) }
        ensures quiet { IsQuiet (run_of self.new) }
        ensures topology { self.new.top ≡ self.old.top }
    {
        let count = self.actors.topology.shard_count();
        for node in 0..count {
            self.collect(Node::new(node))?;
        }
        Ok(())
    }

    /// Which actors there are.
    pub fn topology(&self) -> &Topology
        ensures value { result.now ≡ self.now.top }
        ensures limits { is_topology self.now.top.dcs self.now.top.shards self.now.top.homes ≡ true }
        // what every world promises of all that happened to it, and no read of it was given up
        ensures promises { KeepsPromises self.now }
    {
        &self.actors.topology
    }

    /// Whether each message that was sent was handled: then all operations ended, and shards may be tidied. Takes no
    /// search.
    pub fn is_quiet(&self) -> bool
        ensures exact { (result ≡ true) ↔ IsQuiet (run_of self.now) }
        ensures done { result ≡ true → Settled self.now.top (run_of self.now) }
        // else the next one waits, and is the first that wasn't
        ensures waits { result ≡ false → next_number self.now.events < length (run_of self.now).sent }
        ensures first { result ≡ false → first_unhandled (run_of self.now) ≡ Some (next_number self.now.events) }
    {
        self.actors.waiting.is_done()
    }

    /// How much its shards hold together: what the actors keep that stand for the run of its events. Linear in the rows
    /// and in their columns.
    pub fn holdings(&self) -> Holdings
        ensures { (a : Actors) × StandsAtRest self.now.top self.now.events a × (result ≡ held_by_all a.shards.items) }
    {
        self.actors.holdings()
    }

    /// Ends the world, and gives up what isn't finished.
    pub fn close(self) {
        let Present { actors, past: _ } = self;
        let Actors {
            topology: _,
            shards,
            sessions,
            waiting: _,
        } = actors;
        close_shards(shards);
        close_sessions(sessions);
    }

    /// Ends the world for a program that ends with it: the memory of what waits and of the rows of its shards is given
    /// back with that of the process.
    pub fn leave(self) {
        let Present { actors, past: _ } = self;
        let Actors {
            topology: _,
            shards,
            sessions,
            waiting,
        } = actors;
        mem::forget(waiting);
        leave_shards(shards);
        close_sessions(sessions);
    }
}
