//! Submissions.
ghost use Rattle.std.specs.Prelude.{◌≡◌, ◌+◌, ◌^◌, ◌<◌, ◌≤◌, ◌++◌, [], max, None, Err, IsOk, IfOk, OnOk, IfErr, OnErr};
ghost use Rattle.logical_time.specs.Fault.{IsRefusedFor};
ghost use Rattle.messages.specs.declared.op.Op.TheVariants as op;
ghost use Rattle.messages.specs.Clock.{ticked};
ghost use Rattle.messages.specs.Submitting.{session_submit};
ghost use Rattle.messages.specs.Rounds.{asked_nodes};
ghost use Rattle.client.specs.declared.current.Current.TheVariants.{Idle};
ghost use Rattle.client.specs.Accepted.{fault_of, accepted, leaves, posted};
ghost use Rattle.client.specs.State.{dependencies_of, state_of, topology_of};
ghost use Rattle.client.specs.Represents.{IsRefusalOf, IsSpentOrMemory};

use crate::current::Current;
use crate::envelopes::{nodes, post_writes, reads};
use crate::hearing::put;
use crate::home::Home;
use crate::kept::SessionKept;
use crate::moving::{check_move, end_move, move_checks};
use column_family::Batch;
use dependencies::{Missing, OpenMove};
use logical_time::{Clock, Fault, Node, Shard, Time, TxnId, Writers};
use messages::{Dependencies, Envelope, Op, Outbox, Shared};
use planner::{BatchPlan, check_batch, check_read, plan_batch, plan_read};
use read_txn::FirstRound;
use slice::Read;

/// Whether the operation may be submitted: refused with `Busy` while another is open, and then as a plan of it is, or as
/// `check_move` refuses a move.
#[inline(always)]
fn check(kept: &SessionKept, op: &Op) -> Result<(), Fault>
    ensures { IsRefusedFor (fault_of kept.now op.now) result }
{
    if !kept.current.is_idle() {
        return Err(Fault::Busy);
    }
    match op {
        Op::Batch(batch) => check_batch(&kept.schema, batch.get()),
        Op::Read(read) => check_read(&kept.schema, read.get()),
        Op::Move { dc } => check_move(kept, *dc),
    }
}

/// Whether the operation would be accepted now, with enough memory: refused as `submit` is otherwise.
pub(crate) fn would_accept(kept: &SessionKept, op: &Op) -> Result<(), Fault>
    ensures allowed { OnOk result (IsOk (session_submit (topology_of kept.now) kept.now.node (state_of kept.now) op.now)) }
    ensures refused { IfErr result (λ e. session_submit (topology_of kept.now) kept.now.node (state_of kept.now) op.now ≡ Err e) }
{
    check(kept, op)?;
    let mut moved = kept.clock;
    moved.receive(kept.clock.now())?;
    Ok(())
}

/// The clock that a submission moves to.
fn moved(kept: &SessionKept) -> Result<Clock, Fault>
    ensures clock { IfOk result (λ c. (c ≡ max kept.now.clock kept.now.clock + 1) × (c < 2 ^ 48)) }
    ensures refused { IfErr result (λ e. IsSpentOrMemory (ticked kept.now.clock kept.now.clock) e) }
{
    let mut clock = kept.clock;
    clock.receive(kept.clock.now())?;
    Ok(clock)
}

/// Makes all the room that a submission needs which sends so many envelopes, and puts the writers of the last read among the
/// dependencies.
#[inline]
fn settle(kept: &mut SessionKept, sends: usize, outbox: &mut Outbox) -> Result<(), Fault>
    ensures state { OnOk result (kept.new ≡ record kept.old { dependencies = dependencies_of kept.old }) }
    ensures room { OnOk result (sends ≤ outbox.new.room) }
    ensures unsent { outbox.new.sent ≡ outbox.old.sent }
    ensures same { OnErr result (kept.new ≡ kept.old) }
    ensures memory { IfErr result (λ e. e ≡ Fault.Memory) }
{
    outbox.reserve(sends)?;
    kept.dependencies.completed_read(kept.added.as_slice())?;
    Ok(())
}

/// Accepts an operation, which can't fail, and gives it the next number. The writers of the last read are among the
/// dependencies.
#[inline]
fn accept(kept: &mut SessionKept, clock: Clock, current: Current) -> u64
    requires counted { kept.old.count < 2 ^ 48 }
    requires idle { kept.old.current ≡ Idle }
    ensures number { result ≡ kept.old.count + 1 }
    ensures state { kept.new ≡ record kept.old { clock = clock; count = kept.old.count + 1; added = []; current = current; untaken = None } }
{
    kept.clock = clock;
    kept.count += 1;
    kept.added = Writers::from_vec(Vec::new(kept.alloc));
    kept.untaken = None;
    put(kept, current);
    kept.count
}

/// The coordinator of a plan.
fn coordinator_of(plan: &BatchPlan) -> Shard
    ensures { result ≡ plan.now.coordinator.shard }
{
    plan.coordinator.shard
}

/// Submits a batch that is allowed.
#[tactic(auto, using(crate::proofs::Idle::idle_allowed))]
#[inline(always)]
fn submit_batch(kept: &mut SessionKept, batch: &Batch, outbox: &mut Outbox) -> Result<u64, Fault>
    requires counted { kept.old.count ≤ kept.old.clock }
    requires allowed { fault_of kept.old (op.Batch batch.now) ≡ None }
    ensures number { IfOk result (λ n. n ≡ kept.old.count + 1) }
    ensures time { OnOk result (max kept.old.clock kept.old.clock + 1 < 2 ^ 48) }
    ensures state { OnOk result (kept.new ≡ accepted kept.old (max kept.old.clock kept.old.clock + 1) (op.Batch batch.now)) }
    ensures sends { OnOk result (outbox.new.sent ≡ outbox.old.sent ++ posted kept.old (max kept.old.clock kept.old.clock + 1) (op.Batch batch.now)) }
    ensures refused { IfErr result (λ e. IsSpentOrMemory (ticked kept.old.clock kept.old.clock) e) }
    ensures same { OnErr result (kept.new ≡ kept.old) }
    ensures unsent { OnErr result (outbox.new.sent ≡ outbox.old.sent) }
{
    let clock = moved(kept)?;
    let plan = plan_batch(kept.alloc, batch, &kept.schema, kept.home.shards())?;
    let coordinator = coordinator_of(&plan);
    let txn = TxnId {
        session: kept.node,
        number: kept.count + 1,
    };
    let writers = kept.dependencies.to_writers(kept.added.as_slice())?;
    let dependencies = Dependencies::from_writers(kept.alloc, writers)?;
    settle(kept, plan.cohorts.len() + 1, outbox)?;
    post_writes(
        outbox,
        kept.home,
        kept.node,
        clock.now(),
        txn,
        dependencies,
        plan,
    );
    Ok(accept(kept, clock, Current::Write(coordinator)))
}

/// What a read asks: the shards, and the envelopes to them.
fn asks(
    kept: &SessionKept,
    clock: Clock,
    read: &Shared<Read>,
) -> Result<(Vec<Node>, Vec<Envelope>), Fault>
    requires counted { kept.now.count < 2 ^ 48 }
    requires allowed { fault_of kept.now (op.Read read.now) ≡ None }
    ensures asked { IfOk result (λ asks. asks.0.items ≡ asked_nodes (topology_of kept.now) (state_of kept.now) read.now) }
    ensures sends { IfOk result (λ asks. asks.1.items ≡ posted kept.now clock (op.Read read.now)) }
    ensures memory { IfErr result (λ e. e ≡ Fault.Memory) }
{
    let plan = plan_read(kept.alloc, read.get(), &kept.schema, kept.home.shards())?;
    let asked = nodes(kept.alloc, kept.home, plan.asked.as_slice())?;
    let envelopes = reads(
        kept.alloc,
        kept.home,
        kept.node,
        clock.now(),
        kept.count + 1,
        read,
        plan.asked,
    )?;
    Ok((asked, envelopes))
}

/// Moves the clock, sends what a read asks, and gives the clock, a copy of the read, and the shards that it asks.
fn ask(
    kept: &mut SessionKept,
    read: &Shared<Read>,
    outbox: &mut Outbox,
) -> Result<(Clock, Read, Vec<Node>), Fault>
    requires counted { kept.old.count ≤ kept.old.clock }
    requires allowed { fault_of kept.old (op.Read read.now) ≡ None }
    ensures clock { IfOk result (λ asked. (asked.0 ≡ max kept.old.clock kept.old.clock + 1) × (asked.0 < 2 ^ 48)) }
    ensures read { IfOk result (λ asked. asked.1 ≡ read.now) }
    ensures asked { IfOk result (λ asked. asked.2.items ≡ asked_nodes (topology_of kept.old) (state_of kept.old) read.now) }
    ensures state { OnOk result (kept.new ≡ record kept.old { dependencies = dependencies_of kept.old }) }
    ensures sends { OnOk result (outbox.new.sent ≡ outbox.old.sent ++ posted kept.old (max kept.old.clock kept.old.clock + 1) (op.Read read.now)) }
    ensures refused { IfErr result (λ e. IsSpentOrMemory (ticked kept.old.clock kept.old.clock) e) }
    ensures same { OnErr result (kept.new ≡ kept.old) }
    ensures unsent { OnErr result (outbox.new.sent ≡ outbox.old.sent) }
{
    let clock = moved(kept)?;
    let own = read.get().clone()?;
    let (asked, envelopes) = asks(kept, clock, read)?;
    settle(kept, envelopes.len(), outbox)?;
    outbox.post_all(envelopes);
    Ok((clock, own, asked))
}

/// Submits a read that is allowed.
#[tactic(auto, using(crate::proofs::Idle::idle_allowed))]
fn submit_read(
    kept: &mut SessionKept,
    read: &Shared<Read>,
    outbox: &mut Outbox,
) -> Result<u64, Fault>
    requires counted { kept.old.count ≤ kept.old.clock }
    requires allowed { fault_of kept.old (op.Read read.now) ≡ None }
    ensures number { IfOk result (λ n. n ≡ kept.old.count + 1) }
    ensures time { OnOk result (max kept.old.clock kept.old.clock + 1 < 2 ^ 48) }
    ensures state { OnOk result (kept.new ≡ accepted kept.old (max kept.old.clock kept.old.clock + 1) (op.Read read.now)) }
    ensures sends { OnOk result (outbox.new.sent ≡ outbox.old.sent ++ posted kept.old (max kept.old.clock kept.old.clock + 1) (op.Read read.now)) }
    ensures refused { IfErr result (λ e. IsSpentOrMemory (ticked kept.old.clock kept.old.clock) e) }
    ensures same { OnErr result (kept.new ≡ kept.old) }
    ensures unsent { OnErr result (outbox.new.sent ≡ outbox.old.sent) }
{
    let (clock, own, asked) = ask(kept, read, outbox)?;
    let round = FirstRound::new(kept.alloc, own, kept.floor, asked);
    Ok(accept(kept, clock, Current::First(round)))
}

/// Accepts a move to this home that asks for these dependencies, which can't fail, and gives it the next number: without
/// dependencies it ends at once. The writers of the last read are among the dependencies.
fn leave(kept: &mut SessionKept, clock: Clock, home: Home, missing: Missing) -> u64
    requires counted { kept.old.count < 2 ^ 48 }
    requires idle { kept.old.current ≡ Idle }
    ensures number { result ≡ kept.old.count + 1 }
    ensures state { kept.new ≡ leaves missing kept.old clock home }
{
    if missing.is_empty() {
        let number = accept(kept, clock, Current::Idle);
        end_move(kept, clock, home, Time::zero());
        return number;
    }
    let open = OpenMove::new(missing);
    accept(kept, clock, Current::Move { home, open })
}

/// Submits a move that is allowed.
#[tactic(auto, using(crate::proofs::Idle::idle_allowed))]
fn submit_move(kept: &mut SessionKept, dc: u16, outbox: &mut Outbox) -> Result<u64, Fault>
    requires counted { kept.old.count ≤ kept.old.clock }
    requires allowed { fault_of kept.old (op.Move dc) ≡ None }
    ensures number { IfOk result (λ n. n ≡ kept.old.count + 1) }
    ensures time { OnOk result (max kept.old.clock kept.old.clock + 1 < 2 ^ 48) }
    ensures state { OnOk result (kept.new ≡ accepted kept.old (max kept.old.clock kept.old.clock + 1) (op.Move dc)) }
    ensures sends { OnOk result (outbox.new.sent ≡ outbox.old.sent ++ posted kept.old (max kept.old.clock kept.old.clock + 1) (op.Move dc)) }
    ensures refused { IfErr result (λ e. IsSpentOrMemory (ticked kept.old.clock kept.old.clock) e) }
    ensures same { OnErr result (kept.new ≡ kept.old) }
    ensures unsent { OnErr result (outbox.new.sent ≡ outbox.old.sent) }
{
    let clock = moved(kept)?;
    let home = kept.home.moved(dc);
    let (missing, checks) = move_checks(kept, clock, home)?;
    settle(kept, checks.len(), outbox)?;
    outbox.post_all(checks);
    Ok(leave(kept, clock, home, missing))
}

/// Submits an operation. What is kept changes as `accepted` says.
pub(crate) fn submit(
    kept: &mut SessionKept,
    op: Op,
    outbox: &mut Outbox,
) -> Result<u64, (Fault, Op)>
    requires counted { kept.old.count ≤ kept.old.clock }
    ensures number { IfOk result (λ n. n ≡ kept.old.count + 1) }
    ensures allowed { OnOk result (fault_of kept.old op ≡ None) }
    ensures time { OnOk result (max kept.old.clock kept.old.clock + 1 < 2 ^ 48) }
    ensures state { OnOk result (kept.new ≡ accepted kept.old (max kept.old.clock kept.old.clock + 1) op) }
    ensures sends { OnOk result (outbox.new.sent ≡ outbox.old.sent ++ posted kept.old (max kept.old.clock kept.old.clock + 1) op) }
    ensures refused { IfErr result (λ e. IsRefusalOf (session_submit (topology_of kept.old) kept.old.node (state_of kept.old) op) e.0) }
    ensures same { OnErr result (kept.new ≡ kept.old) }
    ensures unsent { OnErr result (outbox.new.sent ≡ outbox.old.sent) }
    ensures back { IfErr result (λ e. e.1 ≡ op) }
{
    match check(kept, &op) {
        Ok(()) => {}
        Err(fault) => return Err((fault, op)),
    }
    let submitted = match &op {
        Op::Batch(batch) => submit_batch(kept, batch.get(), outbox),
        Op::Read(read) => submit_read(kept, read, outbox),
        Op::Move { dc } => submit_move(kept, *dc, outbox),
    };
    match submitted {
        Ok(number) => Ok(number),
        Err(fault) => Err((fault, op)),
    }
}
