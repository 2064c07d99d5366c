//! Steps of transactions of which something is under way, and their marks.
//!
//! Where a step prepares a part, its rows are marked first, since that can be refused.
ghost use Rattle.std.specs.Prelude.{◌≡◌, false, IsOk, OnOk, OnErr, IfErr, IfOk, IfSome};
ghost use Rattle.logical_time.specs.declared.fault.Fault.TheVariants as fault;
ghost use Rattle.write_txn.specs.Ledger.{state_of, Becomes, HaveSameStates, state_prepared, remote_with, state_with, state_ready, readied_by, lacks_nothing, state_voted, completed_by};
ghost use Rattle.write_txn.specs.Marking.{AreMarksWith, is_to_vote};
ghost use Rattle.write_txn.specs.Transactions.{AreMarksOf};

use crate::ledger::Ledger;
use crate::open::{Missing, Open, Remote};
use logical_time::{Fault, Node, Time, TxnId};
use pending::Marks;
use txn_state::Complete;

/// Marks the rows of a part that is kept.
fn mark_kept(ledger: &Ledger, marks: &mut Marks, txn: TxnId, time: Time) -> Result<(), Fault>
    requires { AreMarksOf marks.old ledger.now }
    ensures ok { OnOk result (AreMarksWith txn (state_prepared time (state_of ledger.now txn)) marks.new ledger.now) }
    ensures err { OnErr result (AreMarksOf marks.new ledger.now) }
    ensures memory { IfErr result (λ e. e ≡ fault.Memory) }
{
    match ledger.open(txn) {
        Some(Open::Kept(kept)) => marks.mark_all(kept.part.batch.as_slice(), txn, time),
        _ => Ok(()),
    }
}

/// Prepares a part that is kept, if there is one.
pub(crate) fn prepare_kept(
    ledger: &mut Ledger,
    marks: &mut Marks,
    txn: TxnId,
    time: Time,
) -> Result<(), Fault>
    requires { AreMarksOf marks.old ledger.old }
    ensures marks { AreMarksOf marks.new ledger.new }
    ensures ok { OnOk result (Becomes txn (state_prepared time (state_of ledger.old txn)) ledger.old ledger.new) }
    ensures err { OnErr result (HaveSameStates ledger.old ledger.new) }
    ensures memory { IfErr result (λ e. e ≡ fault.Memory) }
{
    mark_kept(ledger, marks, txn, time)?;
    ledger.prepare(txn, time);
    Ok(())
}

/// Whether this is the last thing that is missing of a ballot that has cohorts.
fn makes_vote(remote: &Remote, missing: &Missing) -> bool
    ensures { result ≡ is_to_vote (remote_with remote.now missing.now).ballot }
{
    remote.is_last(missing) && !remote.ballot.notices().cohorts().is_empty()
}

/// Marks the rows of a ballot's own part if this makes its cohorts vote.
fn mark_counted(
    ledger: &Ledger,
    marks: &mut Marks,
    txn: TxnId,
    missing: &Missing,
    time: Time,
) -> Result<(), Fault>
    requires { AreMarksOf marks.old ledger.now }
    ensures ok { OnOk result (AreMarksWith txn (state_ready time (state_with missing.now (state_of ledger.now txn))) marks.new ledger.now) }
    // it takes no memory where nothing is made ready
    ensures waits { lacks_nothing (state_with missing.now (state_of ledger.now txn)) ≡ false → IsOk result }
    ensures err { OnErr result (AreMarksOf marks.new ledger.now) }
    ensures memory { IfErr result (λ e. e ≡ fault.Memory) }
{
    match ledger.open(txn) {
        Some(Open::Remote(remote)) if makes_vote(remote, missing) => {
            marks.mark_all(remote.ballot.part().as_slice(), txn, time)
        }
        _ => Ok(()),
    }
}

/// Counts what was missing of a ballot that waits, and makes it ready if nothing is missing then.
pub(crate) fn count(
    ledger: &mut Ledger,
    marks: &mut Marks,
    txn: TxnId,
    missing: Missing,
    time: Time,
) -> Result<Option<Complete>, Fault>
    requires { AreMarksOf marks.old ledger.old }
    ensures marks { AreMarksOf marks.new ledger.new }
    ensures complete { IfOk result (λ c. c ≡ readied_by time (state_with missing (state_of ledger.old txn))) }
    ensures own { IfOk result (λ c. IfSome c (λ complete. complete.own.part.writer.txn ≡ txn)) }
    ensures ok { OnOk result (Becomes txn (state_ready time (state_with missing (state_of ledger.old txn))) ledger.old ledger.new) }
    // it takes no memory where nothing is made ready
    ensures waits { lacks_nothing (state_with missing (state_of ledger.old txn)) ≡ false → IsOk result }
    ensures err { OnErr result (HaveSameStates ledger.old ledger.new) }
    ensures memory { IfErr result (λ e. e ≡ fault.Memory) }
{
    if !ledger.count_early(txn, missing) {
        return Ok(None);
    }
    mark_counted(ledger, marks, txn, &missing, time)?;
    ledger.count(txn, missing);
    Ok(ledger.ready(txn, time))
}

/// Counts a vote for a ballot whose cohorts are voting. Where that decides, the marks of the transaction are taken away.
pub(crate) fn vote(
    ledger: &mut Ledger,
    marks: &mut Marks,
    txn: TxnId,
    node: Node,
    me: Node,
    commit: Time,
) -> Option<Complete>
    requires { AreMarksOf marks.old ledger.old }
    ensures marks { AreMarksOf marks.new ledger.new }
    ensures complete { result ≡ completed_by node (state_of ledger.old txn) }
    ensures own { IfSome result (λ complete. complete.own.part.writer.txn ≡ txn) }
    ensures voted { Becomes txn (state_voted me commit node (state_of ledger.old txn)) ledger.old ledger.new }
{
    let complete = ledger.vote(txn, node, me, commit);
    if let Some(complete) = &complete {
        marks.clear_rows(complete.part().as_slice(), txn);
    }
    complete
}
