//! When the rows of the first round are valid.
ghost use Rattle.std.specs.Prelude.{◌≡◌, ◌==◌, ◌&&◌, max, nat_lt};
ghost use Rattle.std.specs.List.{list_any};
ghost use Rattle.messages.specs.Rounds as rounds;

use crate::heard::ShardNow;
use logical_time::{Node, Time};
use messages::RowNow;

fn later(time: Time, other: Time) -> Time
    ensures { result ≡ max time other }
{
    if time < other { other } else { time }
}

/// The greatest of a time and the earliest valid times of these rows.
fn greatest_evt(floor: Time, rows: &[RowNow]) -> Time
    ensures { result ≡ rounds.greatest_evt floor rows.now }
{
    let mut greatest = floor;
    for row in rows {
        greatest = later(row.evt, greatest);
    }
    greatest
}

/// The effective time of a read: the greatest of the session's floor and the earliest valid times of all rows.
pub(crate) fn effective_time(floor: Time, heard: &[ShardNow]) -> Time
    ensures { result ≡ rounds.effective_time floor heard.now }
{
    let mut greatest = floor;
    for answer in heard {
        greatest = greatest_evt(greatest, answer.rows());
    }
    greatest
}

/// Whether a row isn't known to be valid at the time.
fn has_late_row(time: Time, rows: &[RowNow]) -> bool
    ensures { result ≡ list_any (λ r. nat_lt r.lvt time) rows.now }
{
    rows.iter().any(|row| row.lvt < time)
}

/// Whether this is the answer of the shard, with a row that isn't known to be valid at the time.
fn is_late_answer(time: Time, answer: &ShardNow, node: Node) -> bool
    ensures { result ≡ ((answer.now.from == node) && list_any (λ r. nat_lt r.lvt time) answer.now.rows) }
{
    answer.from() == node && has_late_row(time, answer.rows())
}

fn has_late_answer(time: Time, heard: &[ShardNow], node: Node) -> bool
    ensures { result ≡ list_any (λ h. (h.from == node) && list_any (λ r. nat_lt r.lvt time) h.rows) heard.now }
{
    heard
        .iter()
        .any(|answer| is_late_answer(time, answer, node))
}

/// Whether the shard answered a row that isn't known to be valid at the time.
pub(crate) fn is_late(time: Time, heard: &[ShardNow], node: Node) -> bool
    ensures { result ≡ rounds.is_late time heard.now node }
{
    has_late_answer(time, heard, node)
}
