//! A cohort's parts: Prepare, PrepareRemote and ReplPart.
ghost use Rattle.std.specs.Prelude.{◌≡◌, IsOk, OnOk, OnErr, IfErr};
ghost use Rattle.logical_time.specs.declared.fault.Fault.TheVariants as fault;
ghost use Rattle.messages.specs.Commits.{on_prepare};
ghost use Rattle.messages.specs.Replication.{on_repl_part, on_prepare_remote};
ghost use Rattle.write_txn.specs.Stands.{kept_part_of};
ghost use Rattle.shard.specs.Kept.{Does};
ghost use Rattle.shard.specs.Effects.{IsSpared};
ghost use Rattle.shard.specs.Ignored.{IfIgnored};

use crate::kept::ShardKept;
use logical_time::{Clock, Fault, TxnId};
use messages::Outbox;
use replicator::{notify, yes};
use txn_state::WritePart;
use write_txn::{Open, ReplicatedPart};

/// Prepare: ignored where the transaction is known; else the part is prepared and its rows are marked, and a Yes goes to
/// its coordinator. Refused with `Memory` alone, and then the part comes back.
pub(crate) fn prepare(
    kept: &mut ShardKept,
    clock: Clock,
    part: WritePart,
    outbox: &mut Outbox,
) -> Result<(), (Fault, WritePart)>
    ensures step { OnOk result (Does (λ top me a. on_prepare top me clock a part.writer.txn part.batch part.writer.shard) kept.old kept.new outbox.old.sent outbox.new.sent) }
    ensures same { OnErr result (IsSpared kept.old kept.new) }
    ensures unsent { OnErr result (outbox.new.sent ≡ outbox.old.sent) }
    // it takes no memory where only the clock moves
    ensures quiet { IfIgnored (λ top me a. on_prepare top me clock a part.writer.txn part.batch part.writer.shard) clock kept.old (IsOk result) }
    ensures memory { IfErr result (λ e. (e.0 ≡ fault.Memory) × (e.1 ≡ part)) }
{
    let writer = part.writer;
    let txn = writer.txn();
    if kept.knows(txn) {
        drop(part);
        kept.clock = clock;
        return Ok(());
    }
    let time = clock.now();
    match outbox.reserve(1) {
        Ok(()) => {}
        Err(fault) => return Err((fault, part)),
    }
    kept.transactions.prepare(part, time)?;
    kept.transactions.forget_votes(txn);
    kept.notices.forget(txn);
    outbox
        .post(yes(kept.place, time, txn, writer.shard()))
        .unwrap();
    kept.clock = clock;
    Ok(())
}

/// ReplPart: ignored where the transaction is known; else the part is kept, without a mark, and a Notify goes to its
/// coordinator in this data centre. Refused with `Memory` alone, and then the part comes back.
pub(crate) fn repl_part(
    kept: &mut ShardKept,
    clock: Clock,
    held: ReplicatedPart,
    outbox: &mut Outbox,
) -> Result<(), (Fault, ReplicatedPart)>
    ensures step { OnOk result (Does (λ top me a. on_repl_part top me clock a (kept_part_of held)) kept.old kept.new outbox.old.sent outbox.new.sent) }
    ensures same { OnErr result (IsSpared kept.old kept.new) }
    ensures unsent { OnErr result (outbox.new.sent ≡ outbox.old.sent) }
    // it takes no memory where only the clock moves
    ensures quiet { IfIgnored (λ top me a. on_repl_part top me clock a (kept_part_of held)) clock kept.old (IsOk result) }
    ensures memory { IfErr result (λ e. (e.0 ≡ fault.Memory) × (e.1 ≡ held)) }
{
    let ReplicatedPart { part, stamp } = held;
    let writer = part.writer;
    if kept.knows(writer.txn()) {
        drop(part);
        kept.clock = clock;
        return Ok(());
    }
    match outbox.reserve(1) {
        Ok(()) => {}
        Err(fault) => return Err((fault, ReplicatedPart { part, stamp })),
    }
    kept.transactions.keep(ReplicatedPart { part, stamp })?;
    kept.transactions.forget_votes(writer.txn());
    kept.notices.forget(writer.txn());
    outbox
        .post(notify(kept.place, clock.now(), writer.txn(), writer.shard()))
        .unwrap();
    kept.clock = clock;
    Ok(())
}

/// PrepareRemote: a part that is kept is prepared and its rows are marked, and a Yes goes to its coordinator; else
/// ignored. Refused with `Memory` alone.
pub(crate) fn prepare_remote(
    kept: &mut ShardKept,
    clock: Clock,
    txn: TxnId,
    outbox: &mut Outbox,
) -> Result<(), Fault>
    ensures step { OnOk result (Does (λ top me a. on_prepare_remote top me clock a txn) kept.old kept.new outbox.old.sent outbox.new.sent) }
    ensures same { OnErr result (IsSpared kept.old kept.new) }
    ensures unsent { OnErr result (outbox.new.sent ≡ outbox.old.sent) }
    // it takes no memory where only the clock moves
    ensures quiet { IfIgnored (λ top me a. on_prepare_remote top me clock a txn) clock kept.old (IsOk result) }
    ensures memory { IfErr result (λ e. e ≡ fault.Memory) }
{
    let time = clock.now();
    let coordinator = match kept.transactions.ledger().open(txn) {
        Some(Open::Kept(held)) => held.part.writer.shard(),
        _ => {
            kept.clock = clock;
            return Ok(());
        }
    };
    outbox.reserve(1)?;
    kept.transactions.prepare_kept(txn, time)?;
    outbox
        .post(yes(kept.place, time, txn, coordinator))
        .unwrap();
    kept.clock = clock;
    Ok(())
}
