//! Parts that are applied.
ghost use Rattle.std.specs.Prelude.{◌≡◌, ◌≤◌, ◌+◌, ◌++◌, length, map, Some};
ghost use Rattle.messages.specs.Posting.{commit_to};
ghost use Rattle.store.specs.Stored.{HasRoom};
ghost use Rattle.txn_state.specs.Prepared.{PreparedValue};
ghost use Rattle.write_txn.specs.Ledger.{state_of, part_in, Becomes, state_applied};
ghost use Rattle.write_txn.specs.Transactions.{AreMarksOf, KeepsAlso, KeepsIf};

use crate::ledger::Ledger;
use logical_time::{Node, Stamp, Time, TxnId};
use messages::{Outbox, announce};
use pending::Marks;
use store::Store;
use txn_state::{Complete, Prepared};

/// Applies a part for which there is room.
fn apply(store: &mut Store, prepared: Prepared, commit: Time, stamp: Stamp)
    requires { HasRoom store.old prepared.part.batch }
    ensures { KeepsAlso prepared commit stamp store.old store.new }
{
    store.apply_in_room(prepared, commit, stamp);
}

/// Applies the part of a transaction, if one is prepared, and takes its marks away.
pub(crate) fn commit_part(
    ledger: &mut Ledger,
    marks: &mut Marks,
    store: &mut Store,
    txn: TxnId,
    commit: Time,
    stamp: Stamp,
)
    requires room { (p : PreparedValue) → part_in (state_of ledger.old txn) ≡ Some p → HasRoom store.old p.part.batch }
    requires marks { AreMarksOf marks.old ledger.old }
    ensures marks { AreMarksOf marks.new ledger.new }
    ensures applied { Becomes txn (state_applied (state_of ledger.old txn)) ledger.old ledger.new }
    ensures keeps { KeepsIf (part_in (state_of ledger.old txn)) commit stamp store.old store.new }
{
    if let Some(prepared) = ledger.finish(txn) {
        marks.clear_rows(prepared.part().as_slice(), txn);
        apply(store, prepared, commit, stamp);
    }
}

/// Decides a ballot that is complete: tells its cohorts, and applies the coordinator's own part.
pub(crate) fn decide_own(
    store: &mut Store,
    complete: Complete,
    me: Node,
    commit: Time,
    stamp: Stamp,
    outbox: &mut Outbox,
)
    requires posts { length complete.cohorts ≤ outbox.old.room }
    requires room { HasRoom store.old complete.own.part.batch }
    ensures keeps { KeepsAlso complete.own commit stamp store.old store.new }
    ensures sent { outbox.new.sent ≡ outbox.old.sent ++ map (commit_to me commit complete.own.part.writer.txn commit stamp) complete.cohorts }
    ensures room { outbox.old.room ≤ outbox.new.room + length complete.cohorts }
{
    let own = announce(complete.decide(commit, stamp), outbox, me, commit);
    apply(store, own, commit, stamp);
}
