//! The cut of a read by shards.
ghost use Rattle.std.specs.Prelude.{◌≡◌, ◌∷◌, [], length, map, IfOk, IfErr, IfSome};
ghost use Rattle.planner.specs.Checks.{read_fault, IsRefusedForOrMemory};
ghost use Rattle.planner.specs.Plan as plans;
ghost use Rattle.planner.specs.Homes.{kept_of};
ghost use Rattle.planner.specs.Partition.{shard_of};
ghost use Rattle.planner.specs.Planned.{keys_on, IsKeyCut};

use crate::checks::check_read;
use crate::homes::{count_of, is_home};
use crate::partition::shard_of;
use column_family::{Key, Schema};
use logical_time::{Fault, Shard, Shards};
use slice::{Keys, Read};
use std::alloc::Global;
use table::each_once;

/// The keys that a read asks of a shard.
#[derive(Drop)]
pub struct ShardKeys {
    /// The shard.
    pub shard: Shard,
    /// Its keys among those that the read lists, each once, in the order of first asking.
    pub keys: Keys,
}

/// The plan of a read: what is asked of which shards.
#[derive(Drop)]
pub struct ReadPlan {
    /// The shards that hold an asked key, ascending, each with its keys.
    pub asked: Vec<ShardKeys>,
}

/// The shard of each of the keys.
fn homes_of(alloc: Global, keys: &[Key], shards: Shards) -> Result<Vec<Shard>, Fault>
    ensures exact { IfOk result (λ homes. homes.items ≡ map (shard_of shards) keys.now) }
    ensures memory { IfErr result (λ e. e ≡ Fault.Memory) }
{
    let mut homes = Vec::with_capacity(alloc, keys.len())?;
    for key in keys {
        homes.push(shard_of(key, shards))?;
    }
    Ok(homes)
}

/// Of the keys, with the shard of each, the only one of a shard, if it has one and no other.
fn only_of<'k>(keys: &'k [Key], homes: &[Shard], shard: Shard) -> Option<&'k Key>
    requires { length homes.now ≡ length keys.now }
    ensures { IfSome result (λ key. kept_of shard homes.now keys.now ≡ key.now ∷ []) }
{
    let mut only = None;
    for place in 0..homes.len() {
        let home = homes[place];
        if home == shard {
            if only.is_some() {
                return None;
            }
            only = Some(&keys[place]);
        }
    }
    only
}

/// Of the keys, with the shard of each, all of a shard. There is room for these alone, since they are kept as long as the
/// message that brings them.
fn all_of(alloc: Global, keys: &[Key], homes: &[Shard], shard: Shard) -> Result<Vec<Key>, Fault>
    requires { length homes.now ≡ length keys.now }
    ensures exact { IfOk result (λ own. own.items ≡ kept_of shard homes.now keys.now) }
    ensures memory { IfErr result (λ e. e ≡ Fault.Memory) }
{
    let mut own = Vec::with_capacity(alloc, count_of(homes, shard))?;
    for place in 0..homes.len() {
        if homes[place] == shard {
            own.push(keys[place].clone()?)?;
        }
    }
    Ok(own)
}

/// Of the keys, with the shard of each, those of a shard: mostly it has one.
fn keys_of(alloc: Global, keys: &[Key], homes: &[Shard], shard: Shard) -> Result<Keys, Fault>
    requires { length homes.now ≡ length keys.now }
    ensures exact { IfOk result (λ own. own ≡ kept_of shard homes.now keys.now) }
    ensures memory { IfErr result (λ e. e ≡ Fault.Memory) }
{
    match only_of(keys, homes, shard) {
        Some(key) => Ok(Keys::one(key.clone()?)),
        None => Ok(Keys::from_vec(alloc, all_of(alloc, keys, homes, shard)?)?),
    }
}

/// The keys of each shard that has some of those that a read lists, ascending by shard.
fn cut(alloc: Global, keys: &[Key], shards: Shards) -> Result<ReadPlan, Fault>
    ensures exact { IfOk result (λ plan. plan.asked.items ≡ map (keys_on shards keys.now) (plans.shards_asked shards keys.now)) }
    ensures memory { IfErr result (λ e. e ≡ Fault.Memory) }
{
    let listed = each_once(alloc, keys)?;
    let once = listed.as_slice();
    let placed = homes_of(alloc, once, shards)?;
    let homes = placed.as_slice();
    let mut asked = Vec::new(alloc);
    for shard in shards.all() {
        if is_home(homes, shard) {
            let keys = keys_of(alloc, once, homes, shard)?;
            asked.push(ShardKeys { shard, keys })?;
        }
    }
    Ok(ReadPlan { asked })
}

/// The plan of a read for so many shards: its keys, each once, cut by shards. In the order of n log n for n keys as
/// listed, and once through them for each shard. Refused as `check_read` refuses it, and else with `Memory` alone.
pub fn plan_read(
    alloc: Global,
    read: &Read,
    schema: &Schema,
    shards: Shards,
) -> Result<ReadPlan, Fault>
    ensures refused { IsRefusedForOrMemory (read_fault schema.now read.now) result }
    ensures asked { IfOk result (λ plan. plan.asked.items ≡ map (keys_on shards read.now.keys) (plans.shards_asked shards read.now.keys)) }
    ensures cut { IfOk result (λ plan. IsKeyCut shards read.now.keys plan.asked.items) }
{
    let _some = shards.get();
    check_read(schema, read)?;
    cut(alloc, read.keys.as_slice(), shards)
}
