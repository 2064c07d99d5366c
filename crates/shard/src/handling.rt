//! Envelopes.
ghost use Rattle.std.specs.Prelude.{◌≡◌, ◌+◌, ◌^◌, ◌<◌, max, ℕ, false, IsOk, OnOk, OnErr, IfErr};
ghost use Rattle.logical_time.specs.declared.fault.Fault.TheVariants as fault;
ghost use Rattle.messages.specs.declared.envelope.Envelope.{Envelope};
ghost use Rattle.messages.specs.Topology.{TopologyValue};
ghost use Rattle.messages.specs.Clock.{ticked};
ghost use Rattle.messages.specs.Shard.{ShardState};
ghost use Rattle.messages.specs.ShardEvents.{handled};
ghost use Rattle.shard.specs.Handled.{is_handed_over};
ghost use Rattle.shard.specs.Ignored.{IfIgnored, IsIgnored};
ghost use Rattle.shard.specs.Kept.{Represents, Does, IsSpentOrMemory};
ghost use Rattle.shard.specs.Effects.{IsSpared};

use crate::begun::{Begun, begin};
use crate::checking::{check, dep_check};
use crate::committing::commit;
use crate::excluding::not_by;
use crate::kept::ShardKept;
use crate::parts::{prepare, prepare_remote, repl_part};
use crate::reading::{read, read_at};
use crate::repl_begun::{ReplBegun, repl_begin};
use crate::replicas::{dep_ok, notice};
use crate::voting::yes;
use logical_time::{Clock, Fault, Node, Writer};
use messages::{Body, Envelope, Outbox, Refused};
use txn_state::WritePart;
use write_txn::ReplicatedPart;

/// Hears a body of which nothing is kept but numbers. What is for a session moves the clock alone. Refused with `Memory`
/// alone.
#[rattlefmt::skip]
fn hear(kept: &mut ShardKept, clock: Clock, from: Node, body: &Body, outbox: &mut Outbox) -> Result<(), Fault>
    requires { is_handed_over body.now ≡ false }
    ensures step { OnOk result (Does (λ top me a. handled top me clock a from body.now) kept.old kept.new outbox.old.sent outbox.new.sent) }
    ensures same { OnErr result (IsSpared kept.old kept.new) }
    ensures unsent { OnErr result (outbox.new.sent ≡ outbox.old.sent) }
    // it takes no memory where only the clock moves
    ensures quiet { IfIgnored (λ top me a. handled top me clock a from body.now) clock kept.old (IsOk result) }
    ensures memory { IfErr result (λ e. e ≡ fault.Memory) }
{
    match *body {
        Body::Yes { txn } => yes(kept, clock, txn, from, outbox),
        Body::Commit { txn, commit: time, stamp } => commit(kept, clock, txn, time, stamp, outbox),
        Body::At { txn, commit: time, stamp } => commit(kept, clock, txn, time, stamp, outbox),
        Body::NotBy { txn, time } => not_by(kept, clock, txn, time, outbox),
        Body::Check { txn, time } => check(kept, clock, from, txn, time, outbox),
        Body::Read { number, read: ref asked } => read(kept, clock, from, number, asked, outbox),
        Body::Notify { txn } => notice(kept, clock, txn, from, outbox),
        Body::PrepareRemote { txn } => prepare_remote(kept, clock, txn, outbox),
        Body::DepCheck { dependency, waiter } => dep_check(kept, clock, from, dependency, waiter, outbox),
        Body::DepOk { dependency, waiter, commit: _ } => dep_ok(kept, clock, dependency, waiter, outbox),
        _ => {
            kept.clock = clock;
            Ok(())
        }
    }
}

/// Does what a body makes of the shard at this clock. Refused with `Memory` alone, and then the body comes back.
#[rattlefmt::skip]
fn act(kept: &mut ShardKept, clock: Clock, from: Node, body: Body, outbox: &mut Outbox) -> Result<(), (Fault, Body)>
    ensures step { OnOk result (Does (λ top me a. handled top me clock a from body) kept.old kept.new outbox.old.sent outbox.new.sent) }
    ensures same { OnErr result (IsSpared kept.old kept.new) }
    ensures unsent { OnErr result (outbox.new.sent ≡ outbox.old.sent) }
    // it takes no memory where only the clock moves
    ensures quiet { IfIgnored (λ top me a. handled top me clock a from body) clock kept.old (IsOk result) }
    ensures memory { IfErr result (λ e. (e.0 ≡ fault.Memory) × (e.1 ≡ body)) }
{
    match body {
        Body::Begin { txn, rows, cohorts, dependencies } => match begin(kept, clock, Begun { txn, rows, cohorts, dependencies }, outbox) {
            Ok(()) => Ok(()),
            Err((fault, Begun { txn, rows, cohorts, dependencies })) => Err((fault, Body::Begin { txn, rows, cohorts, dependencies })),
        },
        Body::Prepare { txn, rows, coordinator } => {
            let writer = Writer::new(txn, coordinator);
            match prepare(kept, clock, WritePart { writer, batch: rows }, outbox) {
                Ok(()) => Ok(()),
                Err((fault, WritePart { writer: _, batch })) => Err((fault, Body::Prepare { txn, rows: batch, coordinator })),
            }
        }
        Body::ReadAt { number, time, read } => match read_at(kept, clock, from, number, time, read, outbox) {
            Ok(()) => Ok(()),
            Err((fault, read)) => Err((fault, Body::ReadAt { number, time, read })),
        },
        Body::ReplBegin { txn, rows, stamp, cohorts, dependencies } => match repl_begin(kept, clock, ReplBegun { txn, rows, stamp, cohorts, dependencies }, outbox) {
            Ok(()) => Ok(()),
            Err((fault, ReplBegun { txn, rows, stamp, cohorts, dependencies })) => Err((fault, Body::ReplBegin { txn, rows, stamp, cohorts, dependencies })),
        },
        Body::ReplPart { txn, rows, stamp, coordinator } => {
            let part = WritePart { writer: Writer::new(txn, coordinator), batch: rows };
            match repl_part(kept, clock, ReplicatedPart { part, stamp }, outbox) {
                Ok(()) => Ok(()),
                Err((fault, ReplicatedPart { part, stamp })) => Err((fault, Body::ReplPart { txn, rows: part.batch, stamp, coordinator })),
            }
        }
        other => match hear(kept, clock, from, &other, outbox) {
            Ok(()) => Ok(()),
            Err(fault) => Err((fault, other)),
        },
    }
}

/// Handles an envelope, at one past the later of the shard's clock and its time. Refused where that is no time, and with
/// `Memory`, and then the envelope comes back.
pub(crate) fn handle(
    kept: &mut ShardKept,
    envelope: Envelope,
    outbox: &mut Outbox,
) -> Result<(), Refused>
    ensures time { OnOk result (max kept.old.clock envelope.time + 1 < 2 ^ 48) }
    ensures step { OnOk result (Does (λ top me a. handled top me (max kept.old.clock envelope.time + 1) a envelope.from envelope.body) kept.old kept.new outbox.old.sent outbox.new.sent) }
    ensures same { OnErr result (IsSpared kept.old kept.new) }
    ensures unsent { OnErr result (outbox.new.sent ≡ outbox.old.sent) }
    ensures refused { IfErr result (λ r. IsSpentOrMemory (ticked kept.old.clock envelope.time) r.fault) }
    ensures ignored { (top : TopologyValue) (me : ℕ) (a : ShardState) → Represents top me kept.old a → IsIgnored top me a envelope → IfErr result (λ r. r.fault ≡ fault.ClockSpent) }
    ensures back { IfErr result (λ r. r.envelope ≡ envelope) }
{
    let mut clock = kept.clock;
    match clock.receive(envelope.time) {
        Ok(_) => {}
        Err(fault) => return Err(Refused { fault, envelope }),
    }
    let Envelope {
        from,
        to,
        time,
        body,
    } = envelope;
    match act(kept, clock, from, body, outbox) {
        Ok(()) => Ok(()),
        Err((fault, body)) => Err(Refused {
            fault,
            envelope: Envelope {
                from,
                to,
                time,
                body,
            },
        }),
    }
}
