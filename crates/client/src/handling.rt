//! Envelopes.
ghost use Rattle.std.specs.Prelude.{◌≡◌, ◌+◌, ◌^◌, ◌<◌, ◌++◌, max, false, IsOk, OnOk, OnErr, IfErr};
ghost use Rattle.messages.specs.Clock.{ticked};
ghost use Rattle.client.specs.Ignored.{heeds};
ghost use Rattle.client.specs.Represents.{IsSpentOrMemory};
ghost use Rattle.client.specs.Steps as steps;

use crate::first_answers::part_now;
use crate::hearing::{done, part_at};
use crate::kept::SessionKept;
use crate::moving::dep_ok;
use logical_time::{Clock, Fault, Node};
use messages::{Body, Envelope, Outbox, Refused};

/// Hears what an envelope says.
fn hear(
    kept: &mut SessionKept,
    clock: Clock,
    from: Node,
    body: Body,
    outbox: &mut Outbox,
) -> Result<(), (Fault, Body)>
    ensures state { OnOk result (kept.new ≡ steps.heard_kept clock kept.old from body) }
    ensures sends { OnOk result (outbox.new.sent ≡ outbox.old.sent ++ steps.heard_sends clock kept.old from body) }
    ensures ignored { heeds kept.old from body ≡ false → IsOk result }
    ensures same { OnErr result (kept.new ≡ kept.old) }
    ensures unsent { OnErr result (outbox.new.sent ≡ outbox.old.sent) }
    ensures memory { IfErr result (λ e. e.0 ≡ Fault.Memory) }
    ensures back { IfErr result (λ e. e.1 ≡ body) }
{
    match body {
        Body::Done { txn, commit, stamp } => {
            done(kept, clock, txn, commit, stamp);
            Ok(())
        }
        Body::PartNow { number, rows } => match part_now(kept, clock, from, number, rows, outbox) {
            Ok(()) => Ok(()),
            Err((fault, rows)) => Err((fault, Body::PartNow { number, rows })),
        },
        Body::PartAt {
            number,
            time,
            answer,
        } => match part_at(kept, clock, from, number, answer) {
            Ok(()) => Ok(()),
            Err((fault, answer)) => Err((
                fault,
                Body::PartAt {
                    number,
                    time,
                    answer,
                },
            )),
        },
        Body::DepOk {
            dependency,
            waiter,
            commit,
        } => {
            dep_ok(kept, clock, dependency, waiter, commit);
            Ok(())
        }
        other => {
            drop(other);
            kept.clock = clock;
            Ok(())
        }
    }
}

/// Handles an envelope. What is kept changes as `heard_kept` says.
pub(crate) fn handle(
    kept: &mut SessionKept,
    envelope: Envelope,
    outbox: &mut Outbox,
) -> Result<(), Refused>
    ensures time { OnOk result (max kept.old.clock envelope.time + 1 < 2 ^ 48) }
    ensures state { OnOk result (kept.new ≡ steps.heard_kept (max kept.old.clock envelope.time + 1) kept.old envelope.from envelope.body) }
    ensures sends { OnOk result (outbox.new.sent ≡ outbox.old.sent ++ steps.heard_sends (max kept.old.clock envelope.time + 1) kept.old envelope.from envelope.body) }
    ensures refused { IfErr result (λ r. IsSpentOrMemory (ticked kept.old.clock envelope.time) r.fault) }
    ensures ignored { heeds kept.old envelope.from envelope.body ≡ false → IfErr result (λ r. r.fault ≡ Fault.ClockSpent) }
    ensures same { OnErr result (kept.new ≡ kept.old) }
    ensures unsent { OnErr result (outbox.new.sent ≡ outbox.old.sent) }
    ensures back { IfErr result (λ r. r.envelope ≡ envelope) }
{
    let mut clock = kept.clock;
    match clock.receive(envelope.time) {
        Ok(_) => {}
        Err(fault) => return Err(Refused { fault, envelope }),
    }
    let Envelope {
        from,
        to,
        time,
        body,
    } = envelope;
    match hear(kept, clock, from, body, outbox) {
        Ok(()) => Ok(()),
        Err((fault, body)) => Err(Refused {
            fault,
            envelope: Envelope {
                from,
                to,
                time,
                body,
            },
        }),
    }
}
