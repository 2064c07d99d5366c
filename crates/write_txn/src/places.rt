//! The statuses of transactions, and the places of what is under way.
//!
//! What is taken out at a place leaves the last one there: it is put back, which moves the last one to the end again, or
//! the last one's status gets its new place.
ghost use Rattle.std.specs.Prelude.{◌≡◌, ◌<◌, ◌≤◌, ◌∷◌, [], ◌++◌, slice_get, length, vec_len, vec_capacity, Some};
ghost use Rattle.std.specs.List.{swap};
ghost use Rattle.logical_time.specs.Stamps.{TxnValue};
ghost use Rattle.write_txn.specs.Ledger.{status_in};
ghost use Rattle.write_txn.specs.Places.{place_of, status_set, status_moved, IsPut};

use crate::next::Next;
use crate::open::Open;
use crate::status::Status;
use crate::statuses::Statuses;
use logical_time::TxnId;

/// The place of what is under way of a transaction.
pub(crate) fn place_in(statuses: &Statuses, txn: TxnId) -> Option<usize>
    ensures { result ≡ place_of (status_in statuses.now txn) }
{
    match statuses.get(txn) {
        Some(Status::Open(place)) => Some(place),
        _ => None,
    }
}

/// Gives what stands at this place, if something does, the place as its status.
fn close_gap(statuses: &mut Statuses, under_way: &[Open], place: usize)
    ensures { (u : TxnValue) → status_in statuses.new u ≡ status_moved (slice_get under_way.now place) place u (status_in statuses.old u) }
{
    if let Some(moved) = under_way.get(place) {
        statuses.set(moved.txn(), Status::Open(place));
    }
}

/// Closes the gap at a place, and changes the status of the transaction that left it.
#[inline(always)]
fn settle(statuses: &mut Statuses, under_way: &[Open], place: usize, txn: TxnId, status: Status)
    ensures { (u : TxnValue) → status_in statuses.new u ≡ status_set txn status u (status_moved (slice_get under_way.now place) place u (status_in statuses.old u)) }
{
    close_gap(statuses, under_way, place);
    statuses.set(txn, status);
}

/// Puts what was taken out at a place back.
#[inline(always)]
pub(crate) fn put_back(under_way: &mut Vec<Open>, place: usize, held: Open)
    requires place { place ≤ vec_len under_way.old }
    requires room { vec_len under_way.old < vec_capacity under_way.old }
    ensures { under_way.new.items ≡ swap (under_way.old.items ++ held ∷ []) place (length under_way.old.items) }
{
    under_way.push(held).unwrap();
    let last = under_way.len() - 1;
    under_way.swap(place, last);
}

/// Puts what became of a transaction in the place of what was taken out there.
#[inline(always)]
pub(crate) fn put(
    statuses: &mut Statuses,
    under_way: &mut Vec<Open>,
    place: usize,
    txn: TxnId,
    next: Next,
)
    requires place { place ≤ vec_len under_way.old }
    requires room { vec_len under_way.old < vec_capacity under_way.old }
    ensures { IsPut place txn next statuses.old under_way.old.items statuses.new under_way.new.items }
{
    match next {
        Next::Holds(held) => put_back(under_way, place, held),
        Next::Applied => settle(statuses, under_way.as_slice(), place, txn, Status::Applied),
        Next::Decided { commit, stamp } => {
            let status = Status::Decided { commit, stamp };
            settle(statuses, under_way.as_slice(), place, txn, status);
        }
    }
}
