//! Read and ReadAt.
ghost use Rattle.std.specs.Prelude.{◌≡◌, ℕ, nat_lt, if◌then◌else◌, ◌++◌, [], ◌∷◌, map, IsOk, IfOk, IfErr, OnOk, OnErr};
ghost use Rattle.logical_time.specs.declared.fault.Fault.TheVariants as fault;
ghost use Rattle.messages.specs.Topology.{TopologyValue};
ghost use Rattle.messages.specs.Place.{IsPlace};
ghost use Rattle.messages.specs.Shard.{ShardState};
ghost use Rattle.messages.specs.Reads.{answer, asked_below, check_of, on_read, on_read_at, part_at, waiting_read};
ghost use Rattle.shard.specs.Ignored.{IfIgnored};
ghost use Rattle.shard.specs.Kept.{Does, Represents};
ghost use Rattle.shard.specs.Effects.{IsSpared};

use crate::below::writers_below;
use crate::kept::ShardKept;
use commit_check::{Wait, answer_at, rows_now};
use logical_time::{Clock, Fault, Node, Time, TxnId, Writer};
use messages::{Body, Envelope, Outbox, Shared};
use replicator::checks;
use slice::Read;

/// Read: the rows by the newest versions, with how long they are known to be valid, go to the session. Refused with
/// `Memory` alone.
pub(crate) fn read(
    kept: &mut ShardKept,
    clock: Clock,
    from: Node,
    number: u64,
    asked: &Shared<Read>,
    outbox: &mut Outbox,
) -> Result<(), Fault>
    ensures step { OnOk result (Does (λ top me a. on_read me clock a from number asked.now) kept.old kept.new outbox.old.sent outbox.new.sent) }
    ensures same { OnErr result (IsSpared kept.old kept.new) }
    ensures unsent { OnErr result (outbox.new.sent ≡ outbox.old.sent) }
    // it takes no memory where only the clock moves, which is nowhere: it always answers
    ensures quiet { IfIgnored (λ top me a. on_read me clock a from number asked.now) clock kept.old (IsOk result) }
    ensures memory { IfErr result (λ e. e ≡ fault.Memory) }
{
    let time = clock.now();
    let transactions = &kept.transactions;
    let rows = rows_now(
        kept.alloc,
        transactions.store(),
        transactions.marks(),
        time,
        asked.get(),
    )?;
    outbox.reserve(1)?;
    let part = Envelope {
        from: kept.place.node(),
        to: from,
        time,
        body: Body::PartNow { number, rows },
    };
    outbox.post(part).unwrap();
    kept.clock = clock;
    Ok(())
}

/// The answer to a read at a time, which may be that the versions of that time are collected, goes to the session. Refused
/// with `Memory` alone.
fn answered(
    kept: &mut ShardKept,
    clock: Clock,
    from: Node,
    number: u64,
    time: Time,
    asked: &Shared<Read>,
    outbox: &mut Outbox,
) -> Result<(), Fault>
    ensures step { OnOk result (Does (λ top me a. answer clock a (part_at me clock a (waiting_read from number time asked.now []))) kept.old kept.new outbox.old.sent outbox.new.sent) }
    ensures same { OnErr result (IsSpared kept.old kept.new) }
    ensures unsent { OnErr result (outbox.new.sent ≡ outbox.old.sent) }
    ensures memory { IfErr result (λ e. e ≡ fault.Memory) }
{
    let answer = answer_at(kept.alloc, kept.transactions.store(), time, asked.get())?;
    outbox.reserve(1)?;
    let part = Envelope {
        from: kept.place.node(),
        to: from,
        time: clock.now(),
        body: Body::PartAt {
            number,
            time,
            answer,
        },
    };
    outbox.post(part).unwrap();
    kept.clock = clock;
    Ok(())
}

/// The transactions of these writers, and a Check of each at this time, for a read at another. Refused with `Memory` alone.
fn asking(
    kept: &ShardKept,
    now: Time,
    time: Time,
    writers: &[Writer],
) -> Result<(Vec<TxnId>, Vec<Envelope>), Fault>
    ensures txns { IfOk result (λ r. r.0.items ≡ map (λ w. w.txn) writers.now) }
    ensures checks { (top : TopologyValue) (me : ℕ) → IsPlace top me kept.now.place → IfOk result (λ r. r.1.items ≡ map (check_of top me now time) writers.now) }
    ensures memory { IfErr result (λ e. e ≡ fault.Memory) }
{
    let txns: Vec<TxnId> = writers
        .iter()
        .map(|writer| writer.txn())
        .collect(kept.alloc)?;
    let checks = checks(kept.alloc, kept.place, now, time, writers)?;
    Ok((txns, checks))
}

/// A read at a time waits for the transactions of these writers, and each one's coordinator is asked. Refused with `Memory`
/// alone, and then the read comes back.
fn waits(
    kept: &mut ShardKept,
    clock: Clock,
    from: Node,
    number: u64,
    time: Time,
    asked: Shared<Read>,
    writers: &[Writer],
    outbox: &mut Outbox,
) -> Result<(), (Fault, Shared<Read>)>
    ensures step { OnOk result (Does (λ top me a. record { state = record a { clock = clock; waiting = a.waiting ++ waiting_read from number time asked writers.now ∷ [] }; sends = map (check_of top me clock time) writers.now }) kept.old kept.new outbox.old.sent outbox.new.sent) }
    ensures same { OnErr result (IsSpared kept.old kept.new) }
    ensures unsent { OnErr result (outbox.new.sent ≡ outbox.old.sent) }
    ensures memory { IfErr result (λ e. (e.0 ≡ fault.Memory) × (e.1 ≡ asked)) }
{
    let (left, checks) = match asking(kept, clock.now(), time, writers) {
        Ok(both) => both,
        Err(fault) => return Err((fault, asked)),
    };
    match outbox.reserve(checks.len()) {
        Ok(()) => {}
        Err(fault) => return Err((fault, asked)),
    }
    let wait = Wait {
        session: from,
        number,
        time,
        read: asked,
        left,
    };
    match kept.waiting.add(wait) {
        Ok(()) => {}
        Err((fault, wait)) => return Err((fault, wait.read)),
    }
    outbox.post_all(checks);
    kept.clock = clock;
    Ok(())
}

/// The writers whose transactions a read at a time waits for: none where the horizon is above the time, since it is answered
/// then. Refused with `Memory` alone.
fn waited_for(kept: &ShardKept, time: Time, read: &Shared<Read>) -> Result<Vec<Writer>, Fault>
    ensures ok { (top : TopologyValue) (me : ℕ) (a : ShardState) → Represents top me kept.now a → IfOk result (λ writers. writers.items ≡ (if nat_lt time a.low then [] else asked_below a time read.now)) }
    ensures memory { IfErr result (λ e. e ≡ fault.Memory) }
{
    if time < kept.transactions.store().low() {
        return Ok(Vec::new(kept.alloc));
    }
    writers_below(kept, time, read.get())
}

/// ReadAt: ignored where the read waits; else it is answered where the horizon is above its time, or nothing has a mark below
/// its time in an asked row; else it waits, and a Check goes to the coordinator of each such transaction. Refused with
/// `Memory` alone, and then the read comes back.
pub(crate) fn read_at(
    kept: &mut ShardKept,
    clock: Clock,
    from: Node,
    number: u64,
    time: Time,
    asked: Shared<Read>,
    outbox: &mut Outbox,
) -> Result<(), (Fault, Shared<Read>)>
    ensures step { OnOk result (Does (λ top me a. on_read_at top me clock a from number time asked) kept.old kept.new outbox.old.sent outbox.new.sent) }
    ensures same { OnErr result (IsSpared kept.old kept.new) }
    ensures unsent { OnErr result (outbox.new.sent ≡ outbox.old.sent) }
    // it takes no memory where only the clock moves
    ensures quiet { IfIgnored (λ top me a. on_read_at top me clock a from number time asked) clock kept.old (IsOk result) }
    ensures memory { IfErr result (λ e. (e.0 ≡ fault.Memory) × (e.1 ≡ asked)) }
{
    if kept.waiting.is_waiting(from, number) {
        kept.clock = clock;
        return Ok(());
    }
    let writers = match waited_for(kept, time, &asked) {
        Ok(writers) => writers,
        Err(fault) => return Err((fault, asked)),
    };
    if !writers.is_empty() {
        return waits(
            kept,
            clock,
            from,
            number,
            time,
            asked,
            writers.as_slice(),
            outbox,
        );
    }
    match answered(kept, clock, from, number, time, &asked, outbox) {
        Ok(()) => Ok(()),
        Err(fault) => Err((fault, asked)),
    }
}
