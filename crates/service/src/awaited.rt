//! The outcome that is awaited of a world that keeps no past.
ghost use Rattle.std.specs.Prelude.{◌≡◌, true, Ok};
ghost use Rattle.messages.specs.Topology.{is_session};
ghost use Rattle.service.specs.Awaited.{outcome_heard, AsksSame, IsAwaited};
ghost use Rattle.service.specs.Port.{AsksTelling};

use crate::asked::Asked;
use crate::asking::{Unanswered, ask_telling};
use crate::host::Host;
use drains::Deliveries;
use logical_time::{Fault, Node};
use messages::{Op, Outcome, Topology};
use present::{Ended, Present};

/// A world that keeps no past, and what came of the operation that was submitted last: it is taken out of the delivery that
/// ended it.
pub(crate) struct Awaited<'p> {
    world: &'p mut Present,
    session: Node,
    number: u64,
    outcome: Option<Outcome>,
}

// The outcome that is awaited, once this ended, too.
fn hear(session: Node, number: u64, had: Option<Outcome>, ended: Option<Ended>) -> Option<Outcome>
    ensures { result ≡ outcome_heard session number had ended }
{
    let Some(ended) = ended else {
        return had;
    };
    if ended.session == session && ended.number == number {
        Some(ended.outcome)
    } else {
        had
    }
}

impl<'p> Awaited<'p> {
    /// Nothing was submitted yet.
    pub(crate) fn new(world: &'p mut Present, session: Node) -> Awaited<'p>
        ensures same_world { result.world.ghost_name ≡ world.entry.ghost_name }
        ensures world_is { result.world.now ≡ world.old }
    {
        Awaited {
            world,
            session,
            number: 0,
            outcome: None,
        }
    }

    /// A session's request and its answer, as `asking::ask_telling` says.
    pub(crate) fn ask(&mut self, session: Node, op: Op) -> Result<Outcome, Unanswered>
        requires { is_session self.old.world.now.top session ≡ true }
        ensures same_world { self.new.world.ghost_name ≡ self.old.world.ghost_name }
        ensures asks { AsksTelling self.old.world.now.top session self.old.world.now.events op result self.new.world.now.events }
        ensures topology { self.new.world.now.top ≡ self.old.world.now.top }
    {
        ask_telling(self, session, op)
    }
}

impl Deliveries for Awaited<'_> {
    ghost world = { λ a. a.world.now };

    ghost stays = { AsksSame };

    ghost knows = { IsAwaited };

    fn topology(&self) -> &Topology {
        self.world.topology()
    }

    fn deliver_first(&mut self) -> Result<bool, Fault> {
        if self.world.is_quiet() {
            return Ok(false);
        }
        let ended = self.world.deliver()?;
        let had = self.outcome.take();
        self.outcome = hear(self.session, self.number, had, ended);
        Ok(true)
    }
}

impl Asked for Awaited<'_> {
    fn submit(&mut self, session: Node, op: Op) -> Result<u64, (Fault, Op)> {
        // what is known of runs is known within the limits of a topology
        let _limits = self.world.topology();
        match self.world.submit(session, op) {
            Ok((number, ended)) => {
                self.session = session;
                self.number = number;
                self.outcome = hear(session, number, None, ended);
                Ok(number)
            }
            Err(refused) => Err(refused),
        }
    }

    fn outcome(&mut self, _session: Node, _number: u64) -> Result<Option<Outcome>, Fault> {
        Ok(self.outcome.take())
    }
}

/// A session's request and its answer, as `Host::ask` says of this world; where there is none it is told whether the operation was
/// submitted. That the node is a session's is the caller's condition.
pub fn ask_present(world: &mut Present, session: Node, op: Op) -> Result<Outcome, Unanswered>
    requires { is_session world.old.top session ≡ true }
    ensures asks { AsksTelling world.old.top session world.old.events op result world.new.events }
    ensures topology { world.new.top ≡ world.old.top }
{
    let mut awaited = Awaited::new(world, session);
    let answer = awaited.ask(session, op);
    let Awaited {
        world: _world,
        session: _,
        number: _,
        outcome: _outcome,
    } = awaited;
    answer
}

/// Each outcome is taken out of the delivery that ended it: nothing is looked for, and nothing is copied. It keeps nothing for
/// good.
impl Host for Present {
    ghost world = { λ p. p };

    ghost Kept = { Unit {0} };

    ghost kept = { λ p. tt };

    ghost settles = { λ p went after. (went ≡ Ok tt) × (after ≡ p) };

    ghost lasts = { λ k l. Unit {0} };

    ghost lasts_same = { λ k. tt };

    ghost lasts_settled = { λ p went after s. tt };

    fn topology(&self) -> &Topology {
        self.topology()
    }

    #[tactic(auto, using(crate::proofs::Homes::session_here))]
    fn ask(&mut self, index: u16, op: Op) -> Result<Outcome, Fault> {
        let session = self.topology().session_node(index);
        match ask_present(self, session, op) {
            Ok(outcome) => Ok(outcome),
            Err(Unanswered::TurnedAway(fault)) => Err(fault),
            Err(Unanswered::Untold(fault)) => Err(fault),
        }
    }

    fn settle(&mut self) -> Result<(), Fault> {
        Ok(())
    }
}
