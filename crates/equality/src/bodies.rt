//! Bodies of all kinds.
ghost use Rattle.std.specs.Prelude.{◌≡◌, ◌↔◌, true};

use crate::kinds;
use messages::Body;

/// Whether two messages say the same.
#[rattlefmt::skip]
pub(crate) fn same_body(a: &Body, b: &Body) -> bool
    ensures { (result ≡ true) ↔ (a.now ≡ b.now) }
{
    match a {
        Body::Begin { txn, rows, cohorts, dependencies } => kinds::is_begin(b, *txn, rows, cohorts, dependencies),
        Body::Prepare { txn, rows, coordinator } => kinds::is_prepare(b, *txn, rows, *coordinator),
        Body::Yes { txn } => kinds::is_yes(b, *txn),
        Body::Commit { txn, commit, stamp } => kinds::is_commit(b, *txn, *commit, *stamp),
        Body::At { txn, commit, stamp } => kinds::is_decided(b, *txn, *commit, *stamp),
        Body::NotBy { txn, time } => kinds::is_not_by(b, *txn, *time),
        Body::Check { txn, time } => kinds::is_check(b, *txn, *time),
        Body::Read { number, read } => kinds::is_first_round(b, *number, read.get()),
        Body::ReadAt { number, time, read } => kinds::is_second_round(b, *number, *time, read.get()),
        Body::ReplBegin { txn, rows, stamp, cohorts, dependencies } => kinds::is_repl_begin(b, *txn, rows, *stamp, cohorts, dependencies),
        Body::ReplPart { txn, rows, stamp, coordinator } => kinds::is_repl_part(b, *txn, rows, *stamp, *coordinator),
        Body::Notify { txn } => kinds::is_notify(b, *txn),
        Body::PrepareRemote { txn } => kinds::is_prepare_remote(b, *txn),
        Body::DepCheck { dependency, waiter } => kinds::is_dep_check(b, *dependency, *waiter),
        Body::DepOk { dependency, waiter, commit } => kinds::is_dep_ok(b, *dependency, *waiter, *commit),
        Body::Done { txn, commit, stamp } => kinds::is_done(b, *txn, *commit, *stamp),
        Body::PartNow { number, rows } => kinds::is_part_now(b, *number, rows),
        Body::PartAt { number, time, answer } => kinds::is_part_at(b, *number, *time, answer),
    }
}
