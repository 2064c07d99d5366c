//! What other shards ask about decisions: Check and DepCheck.
ghost use Rattle.std.specs.Prelude.{◌≡◌, IsOk, OnOk, OnErr, IfErr};
ghost use Rattle.logical_time.specs.declared.fault.Fault.TheVariants as fault;
ghost use Rattle.messages.specs.Commits.{on_check};
ghost use Rattle.messages.specs.Replication.{on_dep_check};
ghost use Rattle.shard.specs.Kept.{Does};
ghost use Rattle.shard.specs.Effects.{IsSpared};
ghost use Rattle.shard.specs.Ignored.{IfIgnored};

use crate::kept::ShardKept;
use logical_time::{Clock, Fault, Node, Time, TxnId};
use messages::{Body, Envelope, Outbox};

/// Check: an At with the commit time and the stamp where the transaction is decided here, else a NotBy with the same
/// time. Refused with `Memory` alone.
#[inline(always)]
pub(crate) fn check(
    kept: &mut ShardKept,
    clock: Clock,
    from: Node,
    txn: TxnId,
    time: Time,
    outbox: &mut Outbox,
) -> Result<(), Fault>
    ensures step { OnOk result (Does (λ top me a. on_check me clock a from txn time) kept.old kept.new outbox.old.sent outbox.new.sent) }
    ensures same { OnErr result (IsSpared kept.old kept.new) }
    ensures unsent { OnErr result (outbox.new.sent ≡ outbox.old.sent) }
    // it takes no memory where only the clock moves, which is nowhere: it always answers
    ensures quiet { IfIgnored (λ top me a. on_check me clock a from txn time) clock kept.old (IsOk result) }
    ensures memory { IfErr result (λ e. e ≡ fault.Memory) }
{
    outbox.reserve(1)?;
    let body = match kept.transactions.ledger().decided(txn) {
        Some((commit, stamp)) => Body::At { txn, commit, stamp },
        None => Body::NotBy { txn, time },
    };
    let answer = Envelope {
        from: kept.place.node(),
        to: from,
        time: clock.now(),
        body,
    };
    outbox.post(answer).unwrap();
    kept.clock = clock;
    Ok(())
}

/// DepCheck: a DepOk where the dependency is decided here; else the asker is remembered, once for each dependency,
/// sender and waiter. Refused with `Memory` alone.
pub(crate) fn dep_check(
    kept: &mut ShardKept,
    clock: Clock,
    from: Node,
    dependency: TxnId,
    waiter: TxnId,
    outbox: &mut Outbox,
) -> Result<(), Fault>
    ensures step { OnOk result (Does (λ top me a. on_dep_check me clock a (record { dependency = dependency; waiter = waiter; from = from })) kept.old kept.new outbox.old.sent outbox.new.sent) }
    ensures same { OnErr result (IsSpared kept.old kept.new) }
    ensures unsent { OnErr result (outbox.new.sent ≡ outbox.old.sent) }
    // it takes no memory where only the clock moves
    ensures quiet { IfIgnored (λ top me a. on_dep_check me clock a (record { dependency = dependency; waiter = waiter; from = from })) clock kept.old (IsOk result) }
    ensures memory { IfErr result (λ e. e ≡ fault.Memory) }
{
    let decided = kept.transactions.ledger().decided(dependency);
    match decided {
        None => kept.askers.remember(dependency, waiter, from)?,
        Some((commit, _)) => {
            outbox.reserve(1)?;
            let body = Body::DepOk {
                dependency,
                waiter,
                commit,
            };
            let answer = Envelope {
                from: kept.place.node(),
                to: from,
                time: clock.now(),
                body,
            };
            outbox.post(answer).unwrap();
        }
    }
    kept.clock = clock;
    Ok(())
}
