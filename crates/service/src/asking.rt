//! One request, from its submission to its outcome.
ghost use Rattle.std.specs.Prelude.{◌≡◌, true, IfOk, IfErr, OnOk};
ghost use Rattle.messages.specs.Topology.{is_session};
ghost use Rattle.service.specs.Port.{Asks, AsksTelling, IsReady, IsSubmitted, IsTurnedAway, IsFull};
ghost use Rattle.drains.specs.Drain.{IsDrainedUntil};
ghost use Rattle.std.specs.Prelude.{◌⊎◌};

use crate::asked::Asked;
use drains::{Deliveries, drain};
use logical_time::{Fault, Node};
use messages::{Op, Outcome};

/// How many messages a drain delivers at most.
const MOST_DELIVERIES: u64 = 1_000_000;

/// Why a request has no outcome to tell.
#[derive(Clone, Copy, PartialEq, Eq)]
pub enum Unanswered {
    /// Its operation wasn't submitted.
    TurnedAway(Fault),
    /// It was.
    Untold(Fault),
}

// An operation that was refused isn't needed any more.
fn let_go(_op: Op) {}

/// All that was sent is handled, so that a request can be submitted. Refused as the drain is, and with `Busy` where that
/// delivered 1,000,000 messages, as many as it may; what was delivered stays. Costs nothing where nothing waits.
pub fn make_ready<D: Deliveries>(world: &mut D) -> Result<(), Fault>
    ensures ok { OnOk result (IsReady (D.world world.old).top (D.world world.old).events (D.world world.new).events) }
    ensures refused { IfErr result (λ e. IsDrainedUntil (D.world world.old).top (D.world world.old).events (D.world world.new).events e ⊎ IsFull (D.world world.old).top (D.world world.old).events e (D.world world.new).events) }
    ensures topology { (D.world world.new).top ≡ (D.world world.old).top }
    ensures stays { (start : D) → D.stays start world.old → D.stays start world.new }
{
    let delivered = drain(world)?;
    if delivered < MOST_DELIVERIES {
        Ok(())
    } else {
        Err(Fault::Busy)
    }
}

// Submits an operation, once all that was sent is handled.
fn submit<A: Asked>(world: &mut A, session: Node, op: Op) -> Result<u64, Fault>
    requires { is_session (A.world world.old).top session ≡ true }
    ensures ok { IfOk result (λ number. IsSubmitted (A.world world.old).top session op (A.world world.old).events number (A.world world.new).events) }
    ensures knows { IfOk result (λ number. A.knows world.new session number) }
    ensures refused { IfErr result (λ e. IsTurnedAway (A.world world.old).top session op (A.world world.old).events e (A.world world.new).events) }
    ensures topology { (A.world world.new).top ≡ (A.world world.old).top }
    ensures stays { (start : A) → A.stays start world.old → A.stays start world.new }
{
    make_ready(world)?;
    match world.submit(session, op) {
        Ok(number) => Ok(number),
        Err((fault, op)) => {
            let_go(op);
            Err(fault)
        }
    }
}

/// A session's request and its answer, or whether it was submitted where there is none: as `ask` says.
pub(crate) fn ask_telling<A: Asked>(
    world: &mut A,
    session: Node,
    op: Op,
) -> Result<Outcome, Unanswered>
    requires { is_session (A.world world.old).top session ≡ true }
    ensures asks { AsksTelling (A.world world.old).top session (A.world world.old).events op result (A.world world.new).events }
    ensures topology { (A.world world.new).top ≡ (A.world world.old).top }
    ensures stays { (start : A) → A.stays start world.old → A.stays start world.new }
{
    // what is known of runs is known within the limits of a topology
    let _limits = world.topology();
    let number = match submit(world, session, op) {
        Ok(number) => number,
        Err(fault) => return Err(Unanswered::TurnedAway(fault)),
    };
    if let Err(fault) = drain(world) {
        return Err(Unanswered::Untold(fault));
    }
    match world.outcome(session, number) {
        Ok(Some(outcome)) => Ok(outcome),
        Ok(None) => Err(Unanswered::Untold(Fault::Busy)),
        Err(fault) => Err(Unanswered::Untold(fault)),
    }
}

/// A session's request and its answer: drains what waits, submits the operation, drains, and gives the outcome. Refused as the
/// submission and the drains are; with `Busy` only where a drain, before or after the submission, delivered 1,000,000 messages;
/// and with `Memory` where the world has none for a copy of a read's answer.
pub(crate) fn ask<A: Asked>(world: &mut A, session: Node, op: Op) -> Result<Outcome, Fault>
    requires { is_session (A.world world.old).top session ≡ true }
    ensures asks { Asks (A.world world.old).top session (A.world world.old).events op result (A.world world.new).events }
    ensures topology { (A.world world.new).top ≡ (A.world world.old).top }
    ensures stays { (start : A) → A.stays start world.old → A.stays start world.new }
{
    match ask_telling(world, session, op) {
        Ok(outcome) => Ok(outcome),
        Err(Unanswered::TurnedAway(fault)) => Err(fault),
        Err(Unanswered::Untold(fault)) => Err(fault),
    }
}
