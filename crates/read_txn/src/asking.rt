//! Which shards are asked again, and which of them have answered.
ghost use Rattle.std.specs.Prelude.{◌≡◌, ◌==◌, ◌&&◌, ◌++◌, not, nat_lt, map, filter, IfOk, OnOk, IfErr};
ghost use Rattle.std.specs.List.{list_any, list_all};
ghost use Rattle.messages.specs.Rounds as rounds;
ghost use Rattle.read_txn.specs.States.{asked_again};

use crate::heard::{ShardAt, ShardNow, was_heard_at};
use crate::late::LateShard;
use crate::valid::is_late;
use column_family::Key;
use logical_time::{Fault, Node, Time};
use messages::RowNow;
use slice::Keys;
use std::alloc::Global;

/// Adds the keys of the rows that aren't known to be valid at the time.
fn add_late_keys(keys: &mut Vec<Key>, time: Time, rows: &[RowNow]) -> Result<(), Fault>
    ensures ok { OnOk result (keys.new.items ≡ keys.old.items ++ map (λ r. r.key) (filter (λ r. nat_lt r.lvt time) rows.now)) }
    ensures memory { IfErr result (λ e. e ≡ Fault.Memory) }
{
    for row in rows {
        if row.lvt < time {
            keys.push(row.key.clone()?)?;
        }
    }
    Ok(())
}

/// The keys of a shard's rows that aren't known to be valid at the time.
fn late_keys(alloc: Global, time: Time, heard: &[ShardNow], node: Node) -> Result<Keys, Fault>
    ensures exact { IfOk result (λ keys. keys ≡ rounds.late_keys time heard.now node) }
    ensures memory { IfErr result (λ e. e ≡ Fault.Memory) }
{
    let mut keys = Vec::new(alloc);
    for answer in heard {
        if answer.from() == node {
            add_late_keys(&mut keys, time, answer.rows())?;
        }
    }
    Ok(Keys::from_vec(alloc, keys)?)
}

/// What the second round asks, in the order of the first round's shards.
pub(crate) fn late_shards(
    alloc: Global,
    asked: &[Node],
    time: Time,
    heard: &[ShardNow],
) -> Result<Vec<LateShard>, Fault>
    ensures exact { IfOk result (λ late. late.items ≡ asked_again asked.now time heard.now) }
    ensures memory { IfErr result (λ e. e ≡ Fault.Memory) }
{
    let mut late = Vec::new(alloc);
    for node in asked {
        if is_late(time, heard, *node) {
            let keys = late_keys(alloc, time, heard, *node)?;
            late.push(LateShard { node: *node, keys })?;
        }
    }
    Ok(late)
}

fn is_asked_again(late: &[LateShard], node: Node) -> bool
    ensures { result ≡ list_any (λ l. l.node == node) late.now }
{
    late.iter().any(|shard| shard.node == node)
}

/// Whether the shard is asked again and hasn't answered.
pub(crate) fn is_missing_at(late: &[LateShard], heard: &[ShardAt], node: Node) -> bool
    ensures { result ≡ (list_any (λ l. l.node == node) late.now && not (rounds.was_heard_at heard.now node)) }
{
    is_asked_again(late, node) && !was_heard_at(heard, node)
}

/// Whether all shards that are asked again have answered.
pub(crate) fn all_heard_at(late: &[LateShard], heard: &[ShardAt]) -> bool
    ensures { result ≡ list_all (λ l. rounds.was_heard_at heard.now l.node) late.now }
{
    late.iter().all(|shard| was_heard_at(heard, shard.node))
}
