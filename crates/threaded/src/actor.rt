//! Shards and sessions as machines.
ghost use Rattle.std.specs.Prelude.{◌≡◌, ◌<◌, ◌⊎◌, ◌++◌, ◌∷◌, [], ℕ, true, false, List, None, IsSome, IfOk, OnOk, IfErr, OnErr};
ghost use Rattle.messages.specs.declared.envelope.Envelope.{Envelope};
ghost use Rattle.messages.specs.declared.outcome.Outcome.{Outcome};
ghost use Rattle.messages.specs.declared.event.ActorEvent.{ActorEvent};
ghost use Rattle.messages.specs.Topology.{TopologyValue};
ghost use Rattle.messages.specs.Session.{SessionState};
ghost use Rattle.messages.specs.SessionEvents.{session_taken};
ghost use Rattle.client.specs.Represents.{Represents};
ghost use Rattle.actors.specs.Journals.{number_after};
ghost use Rattle.threaded.specs.Machines.{CameFrom, untaken_of, is_free, Refuses};
ghost use Rattle.threaded.specs.declared.actor.Actor.TheVariants as actor;

use actors::Machine;
use client::Session;
use logical_time::{Fault, Node};
use messages::{ActorEvent, Outbox, Outcome, Topology};
use shard::Shard;
use std::alloc::Global;

/// A shard or a session, as the machine of a seat. It must be closed.
pub enum Actor {
    /// A shard.
    Shard(Shard),
    /// A session.
    Session {
        /// The session.
        session: Session,
        /// Whether an operation that it accepted hasn't ended.
        waits: bool,
        /// What the last event ended, unless it was taken.
        ended: Option<(u64, Outcome)>,
    },
}

/// A shard does one event. A submission is refused with `StrangerEnd`, and what else as the shard refuses it: as the
/// protocol does, and with `Memory`; then it stands for what it stood for, and the event is handed back.
fn step_shard(
    shard: &mut Shard,
    event: ActorEvent,
    outbox: &mut Outbox,
) -> Result<Option<u64>, (Fault, ActorEvent)>
    ensures came { (top : TopologyValue) (node : ℕ) (journal : List ActorEvent) (before : List Envelope) (outcomes : List (ℕ × Outcome))
        → CameFrom top node journal (before ++ outbox.old.sent) outcomes (actor.Shard shard.old)
        → OnOk result (CameFrom top node (journal ++ event ∷ []) (before ++ outbox.new.sent) outcomes (actor.Shard shard.new)) }
    ensures number { (journal : List ActorEvent) → IfOk result (λ number. number ≡ number_after journal event) }
    ensures same { (top : TopologyValue) (node : ℕ) (journal : List ActorEvent) (sent : List Envelope) (outcomes : List (ℕ × Outcome))
        → CameFrom top node journal sent outcomes (actor.Shard shard.old) → OnErr result (CameFrom top node journal sent outcomes (actor.Shard shard.new)) }
    ensures refused { (top : TopologyValue) (node : ℕ) (journal : List ActorEvent) (sent : List Envelope) (outcomes : List (ℕ × Outcome))
        → CameFrom top node journal sent outcomes (actor.Shard shard.old) → IfErr result (λ e. (e.0 ≡ Fault.Memory) ⊎ Refuses top node journal event e.0) }
    ensures unsent { OnErr result (outbox.new.sent ≡ outbox.old.sent) }
    ensures back { IfErr result (λ e. e.1 ≡ event) }
{
    match event {
        ActorEvent::Handle(envelope) => match shard.handle(envelope, outbox) {
            Ok(()) => Ok(None),
            Err(refused) => Err((refused.fault, ActorEvent::Handle(refused.envelope))),
        },
        ActorEvent::Collect(time) => match shard.collect(time) {
            Ok(()) => Ok(None),
            Err(fault) => Err((fault, ActorEvent::Collect(time))),
        },
        ActorEvent::Submit(op) => Err((Fault::StrangerEnd, ActorEvent::Submit(op))),
    }
}

/// Takes what a session finished, if it finished something; then it waits no more.
fn end(session: &mut Session, waits: &mut bool, ended: &mut Option<(u64, Outcome)>)
    ensures ended { ended.new ≡ session.old.untaken }
    ensures kept { session.new ≡ record session.old { untaken = None } }
    ensures stays { session.old.untaken ≡ None → waits.new ≡ waits.old }
    ensures over { IsSome session.old.untaken → waits.new ≡ false }
    ensures node { session.new.node ≡ session.old.node }
    ensures taken { (top : TopologyValue) (a : SessionState) → Represents session.old top a → Represents session.new top (session_taken a) }
{
    *ended = session.take_answer();
    if ended.is_some() {
        *waits = false;
    }
}

/// A session does one event. A collection is refused with `StrangerEnd`, and what else as the session refuses it: as the
/// protocol does, and with `Memory`; then nothing changes, and the event is handed back.
fn step_session(
    session: &mut Session,
    waits: &mut bool,
    ended: &mut Option<(u64, Outcome)>,
    event: ActorEvent,
    outbox: &mut Outbox,
) -> Result<Option<u64>, (Fault, ActorEvent)>
    requires { ended.old ≡ None }
    ensures came { (top : TopologyValue) (node : ℕ) (journal : List ActorEvent) (before : List Envelope) (outcomes : List (ℕ × Outcome))
        → CameFrom top node journal (before ++ outbox.old.sent) outcomes (actor.Session session.old waits.old ended.old)
        → OnOk result (CameFrom top node (journal ++ event ∷ []) (before ++ outbox.new.sent) outcomes (actor.Session session.new waits.new ended.new)) }
    ensures number { (top : TopologyValue) (node : ℕ) (journal : List ActorEvent) (sent : List Envelope) (outcomes : List (ℕ × Outcome))
        → CameFrom top node journal sent outcomes (actor.Session session.old waits.old ended.old) → IfOk result (λ number. number ≡ number_after journal event) }
    ensures same { OnErr result ((session.new ≡ session.old) × (waits.new ≡ waits.old) × (ended.new ≡ ended.old)) }
    ensures refused { (top : TopologyValue) (node : ℕ) (journal : List ActorEvent) (sent : List Envelope) (outcomes : List (ℕ × Outcome))
        → CameFrom top node journal sent outcomes (actor.Session session.old waits.old ended.old) → IfErr result (λ e. (e.0 ≡ Fault.Memory) ⊎ Refuses top node journal event e.0) }
    ensures unsent { OnErr result (outbox.new.sent ≡ outbox.old.sent) }
    ensures back { IfErr result (λ e. e.1 ≡ event) }
{
    match event {
        ActorEvent::Handle(envelope) => match session.handle(envelope, outbox) {
            Ok(()) => {
                end(session, waits, ended);
                Ok(None)
            }
            Err(refused) => Err((refused.fault, ActorEvent::Handle(refused.envelope))),
        },
        ActorEvent::Submit(op) => match session.submit(op, outbox) {
            Ok(number) => {
                *waits = true;
                end(session, waits, ended);
                Ok(Some(number))
            }
            Err((fault, op)) => Err((fault, ActorEvent::Submit(op))),
        },
        ActorEvent::Collect(time) => Err((Fault::StrangerEnd, ActorEvent::Collect(time))),
    }
}

impl Machine for Actor {
    ghost came_from = { CameFrom };

    ghost untaken = { untaken_of };

    ghost is_free = { is_free };

    ghost refuses = { Refuses };

    fn new(alloc: Global, topology: &Topology, node: Node) -> Result<Actor, Fault> {
        match Shard::new(alloc, topology, node) {
            Some(shard) => Ok(Actor::Shard(shard)),
            None => Ok(Actor::Session {
                session: Session::new(alloc, topology, node)?,
                waits: false,
                ended: None,
            }),
        }
    }

    fn step(
        &mut self,
        event: ActorEvent,
        outbox: &mut Outbox,
    ) -> Result<Option<u64>, (Fault, ActorEvent)> {
        match self {
            Actor::Shard(shard) => step_shard(shard, event, outbox),
            Actor::Session {
                session,
                waits,
                ended,
            } => step_session(session, waits, ended, event, outbox),
        }
    }

    fn take_answer(&mut self) -> Option<(u64, Outcome)> {
        match self {
            Actor::Shard(_) => None,
            Actor::Session {
                session: _,
                waits: _,
                ended,
            } => ended.take(),
        }
    }

    fn free(&self) -> bool {
        match self {
            Actor::Shard(_) => true,
            Actor::Session {
                session: _,
                waits,
                ended: _,
            } => !*waits,
        }
    }

    fn close(self) {
        match self {
            Actor::Shard(shard) => shard.close(),
            Actor::Session {
                session,
                waits: _,
                ended: _,
            } => session.close(),
        }
    }
}
