//! Sessions.
ghost use Rattle.std.specs.Prelude.{◌≡◌, ◌+◌, ℕ, Some, None, Err, IsSome, IsOk, IfOk, OnOk, IfErr, OnErr};
ghost use Rattle.messages.specs.Topology.{TopologyValue, home_of};
ghost use Rattle.messages.specs.Session.{SessionState, new_session};
ghost use Rattle.messages.specs.Submitting.{session_submit};
ghost use Rattle.messages.specs.SessionEvents.{session_handle, session_taken};
ghost use Rattle.client.specs.Ignored.{IsIgnored};
ghost use Rattle.client.specs.Represents.{Represents, IsStepOf, IsRefusalOf};
ghost use Rattle.client.specs.Right.{AnswersRight};

use crate::current::Current;
use crate::home::Home;
use crate::kept::SessionKept;
use crate::{accepting, handling};
use dependencies::DepSet;
use logical_time::{Clock, Fault, Node, Time, Writers};
use messages::{Envelope, Op, Outbox, Outcome, Refused, Topology};
use std::alloc::Global;
use std::marker::Model;

/// A session: it submits one operation after the other to the shards of its home, hears from them, and moves to another
/// data centre. It is the protocol's machine: for every state of the machine that it stands for, a call does that state's
/// step. It must be closed.
pub struct Session {
    kept: SessionKept,
}

impl Model for Session {
    ghost use Rattle.std.specs.Prelude.{◌≤◌};
    ghost use Rattle.client.specs.declared.kept.SessionKept.{SessionKept};

    ghost Value = { SessionKept };

    ghost view = { λ s. s.kept };

    ghost invariant = { λ s. s.kept.count ≤ s.kept.clock };
}

/// The home of a session.
#[tactic(auto, using(crate::proofs::Opening::home_below))]
fn home(topology: &Topology, node: Node) -> Home
    requires { IsSome (home_of topology.now node) }
    ensures dc { home_of topology.now node ≡ Some result.dc }
    ensures dcs { result.dcs ≡ topology.now.dcs }
    ensures shards { result.shards ≡ topology.now.shards }
{
    let _homes = topology.homes();
    match topology.home_of(node) {
        Some(dc) => Home::new(dc, topology.dcs(), topology.shards()),
        None => unreachable!(),
    }
}

impl Session {
    /// A session before its first event. That the node is a session's is the caller's condition. Refused with `Memory`
    /// alone.
    pub fn new(alloc: Global, topology: &Topology, node: Node) -> Result<Session, Fault>
        requires { IsSome (home_of topology.now node) }
        ensures node { IfOk result (λ s. s.node ≡ node) }
        ensures state { IfOk result (λ s. (home : ℕ) → home_of topology.now node ≡ Some home → Represents s topology.now (new_session home)) }
        ensures memory { IfErr result (λ e. e ≡ Fault.Memory) }
    {
        let home = home(topology, node);
        let schema = topology.schema().copied()?;
        let kept = SessionKept {
            alloc,
            node,
            home,
            schema,
            clock: Clock::new(),
            count: 0,
            floor: Time::zero(),
            dependencies: DepSet::new(alloc),
            added: Writers::from_vec(Vec::new(alloc)),
            current: Current::Idle,
            untaken: None,
        };
        Ok(Session { kept })
    }

    /// Submits an operation: a batch goes, cut by shards, to its coordinator and cohorts, a read asks each shard that
    /// holds one of its keys, and a move asks the coordinator of each dependency in the new data centre; a move without
    /// dependencies ends at once. The answer is the operation's number, from 1. It drops an outcome that wasn't taken. In
    /// the order of m log m for m mutations, keys or dependencies, with the dependencies that a batch takes along, and of
    /// the writers of the read before it, however many came before. Refused with `Busy` while another operation is open,
    /// then as `plan_batch` and `plan_read` refuse it, or, for a move, with `UnknownHome` and with `AlreadyHome`, then with
    /// `ClockSpent`, and with `Memory`; then nothing changes, and the operation is handed back.
    pub fn submit(&mut self, op: Op, outbox: &mut Outbox) -> Result<u64, (Fault, Op)>
        ensures number { IfOk result (λ n. n ≡ self.old.count + 1) }
        ensures step { (top : TopologyValue) (a : SessionState) → Represents self.old top a
            → OnOk result (IsStepOf (session_submit top self.old.node a op) top self.new outbox.old.sent outbox.new.sent) }
        ensures refused { (top : TopologyValue) (a : SessionState) → Represents self.old top a
            → IfErr result (λ e. IsRefusalOf (session_submit top self.old.node a op) e.0) }
        ensures node { self.new.node ≡ self.old.node }
        ensures same { OnErr result (self.new ≡ self.old) }
        ensures unsent { OnErr result (outbox.new.sent ≡ outbox.old.sent) }
        ensures back { IfErr result (λ e. e.1 ≡ op) }
    {
        match accepting::submit(&mut self.kept, op, outbox) {
            Ok(number) => Ok(number),
            Err(refused) => Err(refused),
        }
    }

    /// Whether the operation would be accepted now, with enough memory: refused as `submit` is otherwise, and never with
    /// `Memory`. In the order of m log m for m mutations or keys, and constant for a move.
    pub fn check(&self, op: &Op) -> Result<(), Fault>
        ensures allowed { (top : TopologyValue) (a : SessionState) → Represents self.now top a
            → OnOk result (IsOk (session_submit top self.now.node a op.now)) }
        ensures refused { (top : TopologyValue) (a : SessionState) → Represents self.now top a
            → IfErr result (λ e. session_submit top self.now.node a op.now ≡ Err e) }
    {
        accepting::would_accept(&self.kept, op)
    }

    /// Its clock.
    pub fn clock(&self) -> Clock
        ensures { result ≡ self.now.clock }
    {
        self.kept.clock
    }

    /// The data centre where it is now: after a move it is the new one.
    pub fn home(&self) -> u16
        ensures { result ≡ self.now.home.dc }
    {
        self.kept.home.dc()
    }

    /// Handles an envelope: Done of the open write, a shard's answer to the open read, or DepOk of a dependency for the
    /// open move, each dependency once; what else comes moves the clock alone. A session that completes an operation keeps
    /// its outcome, and after a move its home is the new one. In the order of m log m for m rows, with the last answer of a
    /// round, and logarithmic for DepOk. Refused with `ClockSpent` where the clock would leave its range, and with `Memory`, but not
    /// what is ignored; then nothing changes, and the envelope is handed back.
    pub fn handle(&mut self, envelope: Envelope, outbox: &mut Outbox) -> Result<(), Refused>
        ensures step { (top : TopologyValue) (a : SessionState) → Represents self.old top a
            → OnOk result (IsStepOf (session_handle top self.old.node a envelope) top self.new outbox.old.sent outbox.new.sent) }
        ensures refused { (top : TopologyValue) (a : SessionState) → Represents self.old top a
            → IfErr result (λ r. IsRefusalOf (session_handle top self.old.node a envelope) r.fault) }
        // what is ignored needs no memory
        ensures ignored { (top : TopologyValue) (a : SessionState) → Represents self.old top a → IsIgnored top self.old.node a envelope
            → IfErr result (λ r. r.fault ≡ Fault.ClockSpent) }
        // a read that completes from right rows is answered right
        ensures right { OnOk result (AnswersRight self.old envelope self.new.untaken) }
        ensures node { self.new.node ≡ self.old.node }
        ensures same { OnErr result (self.new ≡ self.old) }
        ensures unsent { OnErr result (outbox.new.sent ≡ outbox.old.sent) }
        ensures back { IfErr result (λ r. r.envelope ≡ envelope) }
    {
        match handling::handle(&mut self.kept, envelope, outbox) {
            Ok(()) => Ok(()),
            Err(refused) => Err(refused),
        }
    }

    /// The last outcome, with the number of its operation, unless it was taken already or another operation was
    /// accepted since.
    pub fn take_answer(&mut self) -> Option<(u64, Outcome)>
        ensures answer { result ≡ self.old.untaken }
        ensures node { self.new.node ≡ self.old.node }
        ensures state { self.new ≡ record self.old { untaken = None } }
        ensures taken { (top : TopologyValue) (a : SessionState) → Represents self.old top a → Represents self.new top (session_taken a) }
    {
        self.kept.untaken.take()
    }

    /// Ends the session, and gives up its open operation.
    pub fn close(self) {
        let Session { kept } = self;
        let SessionKept {
            alloc: _,
            node: _,
            home: _,
            schema: _,
            clock: _,
            count: _,
            floor: _,
            dependencies: _,
            added: _,
            current,
            untaken: _,
        } = kept;
        current.close();
    }
}
