//! The actors of a topology, and what waits for them.
ghost use Rattle.std.specs.Prelude.{◌≡◌, ◌<◌, ◌≤◌, ◌+◌, ◌∷◌, ℕ, List, [], length, None, Some, Err, IfOk, IfErr, IsOk, OnOk, OnErr};
ghost use Rattle.messages.specs.declared.envelope.Envelope.{Envelope};
ghost use Rattle.messages.specs.Topology.{TopologyValue};
ghost use Rattle.messages.specs.Shard.{ShardState};
ghost use Rattle.messages.specs.Session.{SessionState};
ghost use Rattle.messages.specs.ShardEvents.{shard_handle, shard_collect};
ghost use Rattle.messages.specs.SessionEvents.{session_handle};
ghost use Rattle.messages.specs.Submitting.{session_submit};
ghost use Rattle.shard.specs.Kept.{IsRefusalOf};
ghost use Rattle.client.specs.Represents.{IsRefusalOf as IsSessionRefusal};
ghost use Rattle.world.specs.declared.run_event.RunEvent.{RunEvent};
ghost use Rattle.world.specs.declared.run_event.RunEvent.TheVariants.{Submit, Deliver, Collect};
ghost use Rattle.world.specs.Run.{run, step};
ghost use Rattle.world.specs.Refusals.{Refused as IsRefusedFor, refusal_of};
ghost use Rattle.world.specs.Holds.{AreShards};
ghost use Rattle.world.specs.World.{IsRefusedAs};
ghost use Rattle.world.specs.Steps.{StaysApart, DidShard};
ghost use Rattle.present.specs.Held.{held_by_all};
ghost use Rattle.present.specs.Past.{next_number};
ghost use Rattle.present.specs.Waiting.{waiting_of};
ghost use Rattle.present.specs.Present.{ended_of, AreSessions, DidSession, HasTaken, Holds, IsEnd};

use crate::ended::Ended;
use crate::waiting::Waiting;
use client::Session;
use logical_time::{Fault, Node, Time};
use messages::{Envelope, Op, Outbox, Outcome, Refused, Topology};
use shard::Shard;
use store::Holdings;

/// The actors of a topology, and what was sent and isn't handled.
pub(crate) struct Actors {
    /// Which actors there are.
    pub(crate) topology: Topology,
    /// The shards, by their nodes.
    pub(crate) shards: Vec<Shard>,
    /// The sessions, by their nodes, which follow those of the shards.
    pub(crate) sessions: Vec<Session>,
    /// What waits for them.
    pub(crate) waiting: Waiting,
}

// A shard handles an envelope. Refused as the shard refuses it; then all stand for what they stood for.
fn hand_over(
    shards: &mut Vec<Shard>,
    place: usize,
    envelope: Envelope,
    sent: &mut Outbox,
) -> Result<(), Refused>
    requires { place < length shards.old.items }
    ensures ok { (top : TopologyValue) (states : ℕ → ShardState) → AreShards top states shards.old.items → StaysApart (shard_handle top place (states place) envelope)
        → OnOk result (DidShard top states place (shard_handle top place (states place) envelope) shards.new.items sent.old.sent sent.new.sent) }
    ensures refused { (top : TopologyValue) (states : ℕ → ShardState) → AreShards top states shards.old.items
        → IfErr result (λ r. IsRefusalOf (shard_handle top place (states place) envelope) r.fault) }
    ensures same { (top : TopologyValue) (states : ℕ → ShardState) → AreShards top states shards.old.items → OnErr result (AreShards top states shards.new.items) }
    ensures unsent { OnErr result (sent.new.sent ≡ sent.old.sent) }
    ensures back { IfErr result (λ r. r.envelope ≡ envelope) }
{
    shards[place].handle(envelope, sent)
}

// A shard collects up to a time. Refused as the shard refuses it; then all stand for what they stood for.
fn collect_in(shards: &mut Vec<Shard>, place: usize, time: Time) -> Result<(), Fault>
    requires { place < length shards.old.items }
    ensures ok { (top : TopologyValue) (states : ℕ → ShardState) → AreShards top states shards.old.items → StaysApart (shard_collect (states place) time)
        → OnOk result (DidShard top states place (shard_collect (states place) time) shards.new.items [] []) }
    ensures refused { (top : TopologyValue) (states : ℕ → ShardState) → AreShards top states shards.old.items
        → IfErr result (λ e. IsRefusalOf (shard_collect (states place) time) e) }
    ensures spent { IfErr result (λ e. e ≡ Fault.ClockSpent) }
    ensures same { (top : TopologyValue) (states : ℕ → ShardState) → AreShards top states shards.old.items → OnErr result (AreShards top states shards.new.items) }
{
    shards[place].collect(time)
}

// A session handles an envelope; what it finished is handed out. Refused as the session refuses it; then nothing
// changes.
fn hear(
    sessions: &mut Vec<Session>,
    place: usize,
    envelope: Envelope,
    sent: &mut Outbox,
) -> Result<Option<(u64, Outcome)>, Refused>
    requires { place < length sessions.old.items }
    ensures ok { (top : TopologyValue) (from : ℕ) (states : ℕ → SessionState) → AreSessions top from states sessions.old.items
        → IfOk result (λ f. DidSession top from states place (session_handle top (from + place) (states (from + place)) envelope) sessions.new.items sent.old.sent sent.new.sent f) }
    ensures refused { (top : TopologyValue) (from : ℕ) (states : ℕ → SessionState) → AreSessions top from states sessions.old.items
        → IfErr result (λ r. IsSessionRefusal (session_handle top (from + place) (states (from + place)) envelope) r.fault) }
    ensures count { length sessions.new.items ≡ length sessions.old.items }
    ensures same { OnErr result (sessions.new.items ≡ sessions.old.items) }
    ensures unsent { OnErr result (sent.new.sent ≡ sent.old.sent) }
    ensures back { IfErr result (λ r. r.envelope ≡ envelope) }
{
    let session = &mut sessions[place];
    match session.handle(envelope, sent) {
        Ok(()) => Ok(session.take_answer()),
        Err(refused) => Err(refused),
    }
}

// A session submits an operation; what it finished at once is handed out. Refused as the session refuses it; then
// nothing changes, and the operation is handed back.
fn begin(
    sessions: &mut Vec<Session>,
    place: usize,
    op: Op,
    sent: &mut Outbox,
) -> Result<(u64, Option<(u64, Outcome)>), (Fault, Op)>
    requires { place < length sessions.old.items }
    ensures ok { (top : TopologyValue) (from : ℕ) (states : ℕ → SessionState) → AreSessions top from states sessions.old.items
        → IfOk result (λ r. DidSession top from states place (session_submit top (from + place) (states (from + place)) op) sessions.new.items sent.old.sent sent.new.sent r.1 × (r.0 ≡ (states (from + place)).count + 1)) }
    ensures refused { (top : TopologyValue) (from : ℕ) (states : ℕ → SessionState) → AreSessions top from states sessions.old.items
        → IfErr result (λ r. IsSessionRefusal (session_submit top (from + place) (states (from + place)) op) r.0) }
    ensures count { length sessions.new.items ≡ length sessions.old.items }
    ensures same { OnErr result (sessions.new.items ≡ sessions.old.items) }
    ensures unsent { OnErr result (sent.new.sent ≡ sent.old.sent) }
    ensures back { IfErr result (λ r. r.1 ≡ op) }
{
    let session = &mut sessions[place];
    match session.submit(op, sent) {
        Ok(number) => Ok((number, session.take_answer())),
        Err(refused) => Err(refused),
    }
}

// Whether a session would accept an operation now, with enough memory.
fn check_in(sessions: &Vec<Session>, place: usize, op: &Op) -> Result<(), Fault>
    requires { place < length sessions.now.items }
    ensures allowed { (top : TopologyValue) (from : ℕ) (states : ℕ → SessionState) → AreSessions top from states sessions.now.items
        → OnOk result (IsOk (session_submit top (from + place) (states (from + place)) op.now)) }
    ensures refused { (top : TopologyValue) (from : ℕ) (states : ℕ → SessionState) → AreSessions top from states sessions.now.items
        → IfErr result (λ e. session_submit top (from + place) (states (from + place)) op.now ≡ Err e) }
{
    sessions[place].check(op)
}

// What ended, as it is told.
fn ended(session: Node, finished: Option<(u64, Outcome)>) -> Option<Ended>
    ensures { result ≡ ended_of session finished }
{
    match finished {
        None => None,
        Some((number, outcome)) => Some(Ended {
            session,
            number,
            outcome,
        }),
    }
}

impl Actors {
    /// The first message that waits is handled. That one waits is the caller's condition. Refused as its actor refuses
    /// it; then all stand for what they stood for.
    pub(crate) fn deliver(&mut self) -> Result<Option<Ended>, Fault>
        requires waits { 0 < length (waiting_of self.old.waiting) }
        requires addressed { (e : Envelope) (rest : List Envelope) → waiting_of self.old.waiting ≡ e ∷ rest → e.to < length self.old.shards.items + length self.old.sessions.items }
        ensures ok { (top : TopologyValue) (events : List RunEvent) → Holds top events self.old
            → IfOk result (λ x. HasTaken top events (Deliver (next_number events)) self.new × IsEnd (run top events) (step top (run top events) (Deliver (next_number events))) x) }
        ensures refused { (top : TopologyValue) (events : List RunEvent) → Holds top events self.old
            → IfErr result (IsRefusedAs (refusal_of top (run top events) (Deliver (next_number events)))) }
        ensures same { (top : TopologyValue) (events : List RunEvent) → Holds top events self.old → OnErr result (Holds top events self.new) }
        ensures topology { self.new.topology ≡ self.old.topology }
    {
        let Some(envelope) = self.waiting.take() else {
            unreachable!()
        };
        let to = envelope.to;
        let place = usize::from(to.get());
        let shards = self.shards.len();
        if place < shards {
            match hand_over(&mut self.shards, place, envelope, &mut self.waiting.sent) {
                Ok(()) => Ok(None),
                Err(refused) => Err(self.waiting.put_back(refused)),
            }
        } else {
            match hear(
                &mut self.sessions,
                place - shards,
                envelope,
                &mut self.waiting.sent,
            ) {
                Ok(finished) => Ok(ended(to, finished)),
                Err(refused) => Err(self.waiting.put_back(refused)),
            }
        }
    }

    /// A session submits an operation. That the node is a session's is the caller's condition. Refused as the session
    /// refuses it; then nothing changes, and the operation is handed back.
    pub(crate) fn submit(
        &mut self,
        session: Node,
        op: Op,
    ) -> Result<(u64, Option<Ended>), (Fault, Op)>
        requires session { length self.old.shards.items ≤ session }
        requires sessions { session < length self.old.shards.items + length self.old.sessions.items }
        ensures ok { (top : TopologyValue) (events : List RunEvent) → Holds top events self.old
            → IfOk result (λ r. HasTaken top events (Submit session op) self.new × IsEnd (run top events) (step top (run top events) (Submit session op)) r.1 × (r.0 ≡ ((run top events).sessions session).count + 1)) }
        ensures refused { (top : TopologyValue) (events : List RunEvent) → Holds top events self.old
            → IfErr result (λ r. IsRefusedAs (refusal_of top (run top events) (Submit session op)) r.0) }
        ensures same { (top : TopologyValue) (events : List RunEvent) → Holds top events self.old → OnErr result (Holds top events self.new) }
        ensures back { IfErr result (λ r. r.1 ≡ op) }
        ensures topology { self.new.topology ≡ self.old.topology }
    {
        let place = usize::from(session.get()) - self.shards.len();
        match begin(&mut self.sessions, place, op, &mut self.waiting.sent) {
            Ok((number, finished)) => Ok((number, ended(session, finished))),
            Err(refused) => Err(refused),
        }
    }

    /// Whether a session would accept an operation now, with enough memory. That the node is a session's is the caller's
    /// condition. Refused as the session refuses it, and never with `Memory`.
    pub(crate) fn check(&self, session: Node, op: &Op) -> Result<(), Fault>
        requires session { length self.now.shards.items ≤ session }
        requires sessions { session < length self.now.shards.items + length self.now.sessions.items }
        ensures allowed { (top : TopologyValue) (events : List RunEvent) → Holds top events self.now → OnOk result (refusal_of top (run top events) (Submit session op.now) ≡ None) }
        ensures refused { (top : TopologyValue) (events : List RunEvent) → Holds top events self.now → IfErr result (λ e. refusal_of top (run top events) (Submit session op.now) ≡ Some (IsRefusedFor e)) }
    {
        let place = usize::from(session.get()) - self.shards.len();
        match check_in(&self.sessions, place, op) {
            Ok(()) => Ok(()),
            Err(fault) => Err(fault),
        }
    }

    /// The clock of a shard. That the node is a shard's is the caller's condition.
    pub(crate) fn clock_of(&self, shard: Node) -> Time
        requires { shard < length self.now.shards.items }
        ensures { (top : TopologyValue) (events : List RunEvent) → Holds top events self.now → result ≡ ((run top events).shards shard).clock }
    {
        let place = usize::from(shard.get());
        self.shards[place].clock().now()
    }

    /// How much the shards hold together.
    pub(crate) fn holdings(&self) -> Holdings
        ensures { result ≡ held_by_all self.now.shards.items }
    {
        let mut held = Holdings::none();
        for shard in &self.shards {
            held = held.and(shard.holdings());
        }
        held
    }

    /// A shard collects up to a time. That the node is a shard's is the caller's condition. Refused as the shard
    /// refuses it; then all stand for what they stood for.
    pub(crate) fn collect(&mut self, shard: Node, time: Time) -> Result<(), Fault>
        requires { shard < length self.old.shards.items }
        ensures ok { (top : TopologyValue) (events : List RunEvent) → Holds top events self.old → OnOk result (HasTaken top events (Collect shard time) self.new) }
        ensures refused { (top : TopologyValue) (events : List RunEvent) → Holds top events self.old
            → IfErr result (IsRefusedAs (refusal_of top (run top events) (Collect shard time))) }
        ensures spent { IfErr result (λ e. e ≡ Fault.ClockSpent) }
        ensures same { (top : TopologyValue) (events : List RunEvent) → Holds top events self.old → OnErr result (Holds top events self.new) }
        ensures topology { self.new.topology ≡ self.old.topology }
    {
        match collect_in(&mut self.shards, usize::from(shard.get()), time) {
            Ok(()) => Ok(()),
            Err(fault) => Err(fault),
        }
    }
}
