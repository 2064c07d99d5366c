//! The steps of what is under way, each over the statuses and the list of what is under way.
ghost use Rattle.std.specs.Prelude.{◌≡◌, [], true, false, OnOk, OnErr, IfErr, IfSome, None, Some};
ghost use Rattle.std.specs.Option.{option_copied};
ghost use Rattle.logical_time.specs.declared.fault.Fault.TheVariants as fault;
ghost use Rattle.write_txn.specs.Ledger as ledger;
ghost use Rattle.write_txn.specs.Places.{ledger_of};
ghost use Rattle.write_txn.specs.Ledger.{IsPlaced, state_of, status_in, state_at, txn_of, Holds, Becomes, HaveSameStates, state_prepared, state_applied, part_in, state_voted, completed_by, state_with, state_ready, readied_by, lacks_nothing};

use crate::next::{count, finished, is_last, prepared, readied, voted};
use crate::open::{Missing, Open};
use crate::places::{place_in, put, put_back};
use crate::status::Status;
use crate::statuses::Statuses;
use logical_time::{Fault, Node, Stamp, Time, TxnId};
use txn_state::{Complete, Prepared};

/// What is under way of a transaction.
pub(crate) fn open_in<'a>(
    statuses: &Statuses,
    under_way: &'a [Open],
    txn: TxnId,
) -> Option<&'a Open>
    requires { IsPlaced (ledger_of statuses.now under_way.now) }
    ensures exact { option_copied result ≡ ledger.open_in (state_of (ledger_of statuses.now under_way.now) txn) }
    ensures own { IfSome result (λ held. txn_of held.now ≡ txn) }
{
    match place_in(statuses, txn) {
        None => None,
        Some(place) => under_way.get(place),
    }
}

/// The commit time and the stamp of a transaction that is decided.
pub(crate) fn decided_in(statuses: &Statuses, txn: TxnId) -> Option<(Time, Stamp)>
    ensures { result ≡ ledger.decided_in (state_at [] (status_in statuses.now txn)) }
{
    let status = statuses.get(txn)?;
    match status {
        Status::Decided { commit, stamp } => Some((commit, stamp)),
        _ => None,
    }
}

/// Adds what is under way of a transaction of which nothing is known.
pub(crate) fn add_open(
    statuses: &mut Statuses,
    under_way: &mut Vec<Open>,
    held: Open,
) -> Result<(), (Fault, Open)>
    requires unknown { status_in statuses.old (txn_of held) ≡ None }
    requires placed { IsPlaced (ledger_of statuses.old under_way.old.items) }
    ensures placed { IsPlaced (ledger_of statuses.new under_way.new.items) }
    ensures ok { OnOk result (Becomes (txn_of held) (Some (Holds held)) (ledger_of statuses.old under_way.old.items) (ledger_of statuses.new under_way.new.items)) }
    ensures err { OnErr result (HaveSameStates (ledger_of statuses.old under_way.old.items) (ledger_of statuses.new under_way.new.items)) }
    ensures memory { IfErr result (λ e. (e.0 ≡ fault.Memory) × (e.1 ≡ held)) }
{
    if under_way.reserve(1).is_err() {
        return Err((Fault::Memory, held));
    }
    let place = under_way.len();
    match statuses.add(held.txn(), Status::Open(place)) {
        Err(fault) => Err((fault, held)),
        Ok(()) => {
            under_way.push(held).unwrap();
            Ok(())
        }
    }
}

/// Prepares the part of a transaction, if one is kept.
pub(crate) fn prepare_in(statuses: &Statuses, under_way: &mut Vec<Open>, txn: TxnId, time: Time)
    requires { IsPlaced (ledger_of statuses.now under_way.old.items) }
    ensures placed { IsPlaced (ledger_of statuses.now under_way.new.items) }
    ensures becomes { Becomes txn (state_prepared time (state_of (ledger_of statuses.now under_way.old.items) txn)) (ledger_of statuses.now under_way.old.items) (ledger_of statuses.now under_way.new.items) }
{
    if let Some(place) = place_in(statuses, txn) {
        let held = under_way.swap_remove(place);
        put_back(under_way, place, prepared(held, time));
    }
}

/// Takes the part of a transaction out, if one is prepared.
pub(crate) fn finish_in(
    statuses: &mut Statuses,
    under_way: &mut Vec<Open>,
    txn: TxnId,
) -> Option<Prepared>
    requires { IsPlaced (ledger_of statuses.old under_way.old.items) }
    ensures placed { IsPlaced (ledger_of statuses.new under_way.new.items) }
    ensures own { IfSome result (λ part. part.part.writer.txn ≡ txn) }
    ensures part { result ≡ part_in (state_of (ledger_of statuses.old under_way.old.items) txn) }
    ensures becomes { Becomes txn (state_applied (state_of (ledger_of statuses.old under_way.old.items) txn)) (ledger_of statuses.old under_way.old.items) (ledger_of statuses.new under_way.new.items) }
{
    match place_in(statuses, txn) {
        None => None,
        Some(place) => {
            let held = under_way.swap_remove(place);
            let (next, part) = finished(held);
            put(statuses, under_way, place, txn, next);
            part
        }
    }
}

/// Counts a vote for a transaction, if a ballot of it is held.
pub(crate) fn vote_in(
    statuses: &mut Statuses,
    under_way: &mut Vec<Open>,
    txn: TxnId,
    node: Node,
    me: Node,
    commit: Time,
) -> Option<Complete>
    requires { IsPlaced (ledger_of statuses.old under_way.old.items) }
    ensures placed { IsPlaced (ledger_of statuses.new under_way.new.items) }
    ensures own { IfSome result (λ complete. complete.own.part.writer.txn ≡ txn) }
    ensures complete { result ≡ completed_by node (state_of (ledger_of statuses.old under_way.old.items) txn) }
    ensures becomes { Becomes txn (state_voted me commit node (state_of (ledger_of statuses.old under_way.old.items) txn)) (ledger_of statuses.old under_way.old.items) (ledger_of statuses.new under_way.new.items) }
{
    match place_in(statuses, txn) {
        None => None,
        Some(place) => {
            let held = under_way.swap_remove(place);
            let (next, complete) = voted(held, node, me, commit);
            put(statuses, under_way, place, txn, next);
            complete
        }
    }
}

/// Counts what was missing of a transaction's ballot, if one waits.
pub(crate) fn count_in(statuses: &Statuses, under_way: &mut Vec<Open>, txn: TxnId, missing: Missing)
    requires { IsPlaced (ledger_of statuses.now under_way.old.items) }
    ensures placed { IsPlaced (ledger_of statuses.now under_way.new.items) }
    ensures becomes { Becomes txn (state_with missing (state_of (ledger_of statuses.now under_way.old.items) txn)) (ledger_of statuses.now under_way.old.items) (ledger_of statuses.now under_way.new.items) }
{
    if let Some(place) = place_in(statuses, txn) {
        count(&mut under_way[place], missing);
    }
}

/// Counts what was missing of a transaction's ballot, if one waits that misses more. Whether one waits that misses nothing
/// else; then nothing is counted.
#[inline(always)]
pub(crate) fn count_early_in(
    statuses: &Statuses,
    under_way: &mut Vec<Open>,
    txn: TxnId,
    missing: Missing,
) -> bool
    requires { IsPlaced (ledger_of statuses.now under_way.old.items) }
    ensures placed { IsPlaced (ledger_of statuses.now under_way.new.items) }
    ensures last { result ≡ lacks_nothing (state_with missing (state_of (ledger_of statuses.now under_way.old.items) txn)) }
    ensures counted { result ≡ false → Becomes txn (state_with missing (state_of (ledger_of statuses.now under_way.old.items) txn)) (ledger_of statuses.now under_way.old.items) (ledger_of statuses.now under_way.new.items) }
    ensures same { result ≡ true → under_way.new.items ≡ under_way.old.items }
{
    let Some(place) = place_in(statuses, txn) else {
        return false;
    };
    if is_last(&under_way[place], &missing) {
        return true;
    }
    count(&mut under_way[place], missing);
    false
}

/// Makes the ballot of a transaction ready, if one waits of which nothing is missing.
pub(crate) fn ready_in(
    statuses: &mut Statuses,
    under_way: &mut Vec<Open>,
    txn: TxnId,
    time: Time,
) -> Option<Complete>
    requires { IsPlaced (ledger_of statuses.old under_way.old.items) }
    ensures placed { IsPlaced (ledger_of statuses.new under_way.new.items) }
    ensures own { IfSome result (λ complete. complete.own.part.writer.txn ≡ txn) }
    ensures complete { result ≡ readied_by time (state_of (ledger_of statuses.old under_way.old.items) txn) }
    ensures becomes { Becomes txn (state_ready time (state_of (ledger_of statuses.old under_way.old.items) txn)) (ledger_of statuses.old under_way.old.items) (ledger_of statuses.new under_way.new.items) }
{
    match place_in(statuses, txn) {
        None => None,
        Some(place) => {
            let held = under_way.swap_remove(place);
            let (next, complete) = readied(held, time);
            put(statuses, under_way, place, txn, next);
            complete
        }
    }
}
