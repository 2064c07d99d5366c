//! Sessions in a world.
ghost use Rattle.std.specs.Prelude.{◌≡◌, ◌+◌, IfOk, IfErr, OnOk, OnErr};
ghost use Rattle.messages.specs.Topology.{TopologyValue};
ghost use Rattle.messages.specs.Session.{SessionState};
ghost use Rattle.messages.specs.Submitting.{session_submit};
ghost use Rattle.messages.specs.SessionEvents.{session_handle};
ghost use Rattle.client.specs.Represents.{Represents, IsRefusalOf};
ghost use Rattle.client.specs.State.{finished_of};
ghost use Rattle.world.specs.Run.{with_ended};
ghost use Rattle.world.specs.Log.{HasRoom};
ghost use Rattle.world.specs.Holds.{ended_as, kept_after};
ghost use Rattle.world.specs.Steps.{DidSessionOf, DidSubmitOf};

use crate::completed::Completed;
use client::Session;
use logical_time::{Fault, Node};
use messages::{Envelope, Op, Outbox, Outcome};

/// A session, and its open operation.
pub struct Station {
    /// Its node.
    pub node: Node,
    /// The session.
    pub session: Session,
    /// The operation that it submitted last, until that ends.
    pub op: Option<Op>,
}

impl Station {
    /// The session handles an envelope. What ended is added to the transcript, where there is room for it. Refused as the
    /// session refuses it; then nothing changes.
    pub fn hear(
        &mut self,
        envelope: Envelope,
        network: &mut Outbox,
        transcript: &mut Vec<Completed>,
    ) -> Result<(), Fault>
        requires { HasRoom transcript.old }
        ensures ok { (top : TopologyValue) (a : SessionState) → Represents self.old.session top a
            → OnOk result (DidSessionOf top (session_handle top self.old.session.node a envelope) self.old self.new network.old.sent network.new.sent transcript.old.items transcript.new.items) }
        ensures refused { (top : TopologyValue) (a : SessionState) → Represents self.old.session top a
            → IfErr result (IsRefusalOf (session_handle top self.old.session.node a envelope)) }
        ensures same { OnErr result (self.new ≡ self.old) }
        ensures unsent { OnErr result (network.new.sent ≡ network.old.sent) }
        ensures untold { OnErr result (transcript.new.items ≡ transcript.old.items) }
    {
        let home = self.session.home();
        match self.session.handle(envelope, network) {
            Ok(()) => {
                let ended = self.session.take_answer();
                self.tell(home, ended, transcript);
                Ok(())
            }
            Err(refused) => Err(refused.fault),
        }
    }

    /// What the session finished, if it finished something, is added to the transcript, of the home where it was submitted.
    /// There is room.
    fn tell(&mut self, home: u16, ended: Option<(u64, Outcome)>, transcript: &mut Vec<Completed>)
        requires { HasRoom transcript.old }
        ensures kept { self.new ≡ record self.old { op = kept_after self.old.op (finished_of ended) } }
        ensures told { transcript.new.items ≡ with_ended transcript.old.items (ended_as self.old.node home self.old.op (finished_of ended)) }
    {
        match ended {
            None => {}
            Some((number, outcome)) => {
                if let Some(op) = self.op.take() {
                    let ended = Completed {
                        node: self.node,
                        number,
                        home,
                        op,
                        outcome,
                    };
                    transcript.push(ended).unwrap();
                }
            }
        }
    }

    /// The session submits an operation, which is kept beside it until it ends; the answer is its number. A move may end at
    /// once: then it is added to the transcript, where there is room for it. Refused as the session refuses it; then nothing
    /// changes, and the operation is handed back.
    pub fn submit(
        &mut self,
        op: Op,
        kept: Op,
        network: &mut Outbox,
        transcript: &mut Vec<Completed>,
    ) -> Result<u64, (Fault, Op)>
        requires { HasRoom transcript.old }
        ensures number { IfOk result (λ n. n ≡ self.old.session.count + 1) }
        ensures ok { (top : TopologyValue) (a : SessionState) → Represents self.old.session top a
            → OnOk result (DidSubmitOf top (session_submit top self.old.session.node a op) kept self.old self.new network.old.sent network.new.sent transcript.old.items transcript.new.items) }
        ensures refused { (top : TopologyValue) (a : SessionState) → Represents self.old.session top a
            → IfErr result (λ e. IsRefusalOf (session_submit top self.old.session.node a op) e.0) }
        ensures same { OnErr result (self.new ≡ self.old) }
        ensures unsent { OnErr result (network.new.sent ≡ network.old.sent) }
        ensures untold { OnErr result (transcript.new.items ≡ transcript.old.items) }
        ensures back { IfErr result (λ e. e.1 ≡ op) }
    {
        let home = self.session.home();
        let number = self.session.submit(op, network)?;
        self.op = Some(kept);
        let ended = self.session.take_answer();
        self.tell(home, ended, transcript);
        Ok(number)
    }
}
