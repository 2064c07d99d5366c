//! Answers of the first round of a read.
ghost use Rattle.std.specs.Prelude.{◌≡◌, ◌<◌, false, List, [], ◌∷◌, ◌++◌, length, map, IsOk, IfOk, OnOk, OnErr, IfErr};
ghost use Rattle.messages.specs.Session.{HeardNow};
ghost use Rattle.messages.specs.Rounds.{is_missing};
ghost use Rattle.read_txn.specs.States.{asked_again};
ghost use Rattle.read_txn.specs.Taken.{first_taken};
ghost use Rattle.client.specs.declared.current.Current.TheVariants.{Idle, First, Second};
ghost use Rattle.client.specs.Ignored.{heeds_now};
ghost use Rattle.client.specs.Steps as steps;

use crate::current::Current;
use crate::envelopes::{send, share_of};
use crate::hearing::{complete, put};
use crate::kept::SessionKept;
use logical_time::{Clock, Fault, Node, Time};
use messages::{Body, Envelope, Outbox, RowsNow, Shared};
use read_txn::{FirstRound, FirstTaken, LateShard, SecondRound};
use slice::Read;
use std::mem;

/// What is asked again of a shard.
fn late_read(round: &SecondRound, late: &LateShard) -> Result<Read, Fault>
    ensures ok { IfOk result (λ read. read ≡ record round.now.read { keys = late.now.keys }) }
    ensures memory { IfErr result (λ e. e ≡ Fault.Memory) }
{
    let keys = late.keys.clone()?;
    share_of(round.read(), keys)
}

/// A ReadAt for each shard that the second round asks.
fn late_reads(kept: &SessionKept, time: Time, round: &SecondRound) -> Result<Vec<Envelope>, Fault>
    ensures ok { IfOk result (λ envelopes. envelopes.items ≡ map (steps.read_late time kept.now round.now) (asked_again round.now.asked round.now.time round.now.first)) }
    ensures memory { IfErr result (λ e. e ≡ Fault.Memory) }
{
    let asks = round.asks();
    let mut envelopes = Vec::with_capacity(kept.alloc, asks.len())?;
    let effective = round.time();
    for late in asks {
        let read = Shared::new(kept.alloc, late_read(round, late)?)?;
        envelopes.push(Envelope {
            from: kept.node,
            to: late.node,
            time,
            body: Body::ReadAt {
                number: kept.count,
                time: effective,
                read,
            },
        })?;
    }
    Ok(envelopes)
}

/// Sends what the second round asks.
fn ask_again(
    kept: &SessionKept,
    time: Time,
    round: &SecondRound,
    outbox: &mut Outbox,
) -> Result<(), Fault>
    ensures sends { OnOk result (outbox.new.sent ≡ outbox.old.sent ++ map (steps.read_late time kept.now round.now) (asked_again round.now.asked round.now.time round.now.first)) }
    ensures unsent { OnErr result (outbox.new.sent ≡ outbox.old.sent) }
    ensures memory { IfErr result (λ e. e ≡ Fault.Memory) }
{
    let envelopes = late_reads(kept, time, round)?;
    send(outbox, envelopes)?;
    Ok(())
}

/// Opens a second round and sends what it asks. Where that fails, the first round, of this floor, is open again as it was
/// before its last answer, and the rows of that are handed back.
fn open_second(
    kept: &mut SessionKept,
    clock: Clock,
    round: SecondRound,
    floor: Time,
    outbox: &mut Outbox,
) -> Result<(), (Fault, RowsNow)>
    requires idle { kept.old.current ≡ Idle }
    requires heard { 0 < length round.first }
    ensures state { OnOk result (kept.new ≡ record kept.old { clock = clock; current = Second round }) }
    ensures sends { OnOk result (outbox.new.sent ≡ outbox.old.sent ++ map (steps.read_late clock kept.old round) (asked_again round.asked round.time round.first)) }
    ensures same { (heard : List HeardNow) (last : HeardNow) → round.first ≡ heard ++ last ∷ []
        → OnErr result (kept.new ≡ record kept.old { current = First (record { read = round.read; floor = floor; asked = round.asked; heard = heard }) }) }
    ensures unsent { OnErr result (outbox.new.sent ≡ outbox.old.sent) }
    ensures memory { IfErr result (λ e. e.0 ≡ Fault.Memory) }
    ensures back { (heard : List HeardNow) (last : HeardNow) → round.first ≡ heard ++ last ∷ [] → IfErr result (λ e. e.1 ≡ last.rows) }
{
    match ask_again(kept, clock.now(), &round, outbox) {
        Ok(()) => {
            kept.clock = clock;
            put(kept, Current::Second(round));
            Ok(())
        }
        Err(fault) => {
            let (round, rows) = round.back(floor);
            put(kept, Current::First(round));
            Err((fault, rows))
        }
    }
}

/// PartNow in a first round, which was taken out: it is heard if it is of the open read.
fn first(
    kept: &mut SessionKept,
    clock: Clock,
    round: FirstRound,
    from: Node,
    rows: RowsNow,
    outbox: &mut Outbox,
) -> Result<(), (Fault, RowsNow)>
    requires { kept.old.current ≡ Idle }
    ensures state { OnOk result (kept.new ≡ steps.after_now (first_taken round from rows) clock kept.old) }
    ensures sends { OnOk result (outbox.new.sent ≡ outbox.old.sent ++ steps.sent_now (first_taken round from rows) clock kept.old) }
    ensures unasked { is_missing round.asked round.heard from ≡ false → IsOk result }
    ensures same { OnErr result (kept.new ≡ record kept.old { current = First round }) }
    ensures unsent { OnErr result (outbox.new.sent ≡ outbox.old.sent) }
    ensures memory { IfErr result (λ e. e.0 ≡ Fault.Memory) }
    ensures back { IfErr result (λ e. e.1 ≡ rows) }
{
    let floor = round.floor();
    match round.take(from, rows) {
        Ok(FirstTaken::More(round)) => {
            kept.clock = clock;
            put(kept, Current::First(round));
            Ok(())
        }
        Ok(FirstTaken::Done(answered)) => {
            complete(kept, clock, answered);
            Ok(())
        }
        Ok(FirstTaken::Second(round)) => open_second(kept, clock, round, floor, outbox),
        Err((fault, round, rows)) => {
            put(kept, Current::First(round));
            Err((fault, rows))
        }
    }
}

/// PartNow: heard where it is of the open read in its first round.
pub(crate) fn part_now(
    kept: &mut SessionKept,
    clock: Clock,
    from: Node,
    number: u64,
    rows: RowsNow,
    outbox: &mut Outbox,
) -> Result<(), (Fault, RowsNow)>
    ensures state { OnOk result (kept.new ≡ steps.now_in kept.old.current clock kept.old from number rows) }
    ensures sends { OnOk result (outbox.new.sent ≡ outbox.old.sent ++ steps.sent_in kept.old.current clock kept.old from number rows) }
    ensures ignored { heeds_now kept.old.current kept.old from number ≡ false → IsOk result }
    ensures same { OnErr result (kept.new ≡ kept.old) }
    ensures unsent { OnErr result (outbox.new.sent ≡ outbox.old.sent) }
    ensures memory { IfErr result (λ e. e.0 ≡ Fault.Memory) }
    ensures back { IfErr result (λ e. e.1 ≡ rows) }
{
    if number != kept.count {
        kept.clock = clock;
        return Ok(());
    }
    match mem::replace(&mut kept.current, Current::Idle) {
        Current::First(round) => first(kept, clock, round, from, rows, outbox),
        current => {
            kept.clock = clock;
            put(kept, current);
            Ok(())
        }
    }
}
