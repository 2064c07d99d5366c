//! The cut of a batch by shards.
ghost use Rattle.std.specs.Prelude.{◌≡◌, ◌<◌, IsTrue, ◌&&◌, ◌==◌, not, ◌∷◌, length, map, filter, IfOk, IfErr};
ghost use Rattle.std.specs.List.{list_any, range_with_len};
ghost use Rattle.column_family.specs.Places.{normal_of};
ghost use Rattle.planner.specs.Checks.{batch_fault, IsRefusedForOrMemory};
ghost use Rattle.planner.specs.Homes.{home_of, kept_of};
ghost use Rattle.planner.specs.Plan as plans;
ghost use Rattle.planner.specs.Planned.{part_on, IsCut};

use crate::checks::check_batch;
use crate::homes::{count_of, is_home};
use crate::partition::shard_of;
use column_family::{Batch, Change, Schema, normal};
use logical_time::{Fault, Shard, Shards};
use std::alloc::Global;

/// The part of a shard in the plan of a batch.
#[derive(Drop)]
pub struct ShardPart {
    /// The shard.
    pub shard: Shard,
    /// The changes of its rows, in normal form.
    pub batch: Batch,
}

/// The plan of a batch: what each shard has to keep of it.
#[derive(Drop)]
pub struct BatchPlan {
    /// The part of the coordinator, which is the shard of the batch's first row (Eiger).
    pub coordinator: ShardPart,
    /// The parts of the other shards that the batch touches, ascending by shard.
    pub cohorts: Vec<ShardPart>,
}

/// The shard of each of the changes.
fn homes_of(alloc: Global, changes: &[Change], shards: Shards) -> Result<Vec<Shard>, Fault>
    ensures exact { IfOk result (λ homes. homes.items ≡ map (home_of shards) changes.now) }
    ensures memory { IfErr result (λ e. e ≡ Fault.Memory) }
{
    let mut homes = Vec::with_capacity(alloc, changes.len())?;
    for change in changes {
        homes.push(shard_of(&change.row.key, shards))?;
    }
    Ok(homes)
}

/// Of changes, with the shard of each, those of a shard's rows, in order. There is room for these alone, since a part is
/// kept as long as the message that brings it.
fn part_of(alloc: Global, changes: &[Change], homes: &[Shard], shard: Shard) -> Result<Batch, Fault>
    requires { length homes.now ≡ length changes.now }
    ensures exact { IfOk result (λ part. part ≡ kept_of shard homes.now changes.now) }
    ensures memory { IfErr result (λ e. e ≡ Fault.Memory) }
{
    let mut part = Vec::with_capacity(alloc, count_of(homes, shard))?;
    for place in 0..homes.len() {
        if homes[place] == shard {
            part.push(changes[place].copied()?)?;
        }
    }
    Ok(Batch::from_changes(part))
}

/// The batch, without room for more: a part is kept as long as the message that brings it.
fn fitted(batch: Batch) -> Batch
    ensures { result ≡ batch }
{
    let mut changes = batch.into_vec();
    changes.shrink_to_fit();
    Batch::from_changes(changes)
}

/// The changes of a shard's rows, in order; the others are let go of. Takes no memory.
fn part_left(batch: Batch, shard: Shard, shards: Shards) -> Batch
    ensures { result ≡ plans.part_for shards batch shard }
{
    let mut changes = batch.into_vec();
    changes.retain(|change| shard_of(&change.row.key, shards) == shard);
    fitted(Batch::from_changes(changes))
}

/// The changes of a shard's rows, in order, where it is known whether the shard has all.
fn own_part(batch: Batch, is_alone: bool, shard: Shard, shards: Shards) -> Batch
    requires { IsTrue is_alone → plans.part_for shards batch shard ≡ batch }
    ensures { result ≡ plans.part_for shards batch shard }
{
    if is_alone {
        fitted(batch)
    } else {
        part_left(batch, shard, shards)
    }
}

/// Whether the shard is another than the coordinator, and has one of the changes.
fn is_cohort(homes: &[Shard], shard: Shard, coordinator: Shard) -> bool
    ensures { result ≡ (not (shard == coordinator) && list_any (λ h. h == shard) homes.now) }
{
    shard != coordinator && is_home(homes, shard)
}

/// Of a batch in normal form, with the shard of each change, the parts of the shards that it touches, without that of the
/// coordinator, ascending.
fn cohort_parts(
    alloc: Global,
    changes: &[Change],
    homes: &[Shard],
    coordinator: Shard,
    shards: Shards,
) -> Result<Vec<ShardPart>, Fault>
    requires { homes.now ≡ map (home_of shards) changes.now }
    ensures exact { IfOk result (λ parts. parts.items ≡ map (part_on shards changes.now) (filter (λ s. not (s == coordinator) && plans.is_touched shards changes.now s) (range_with_len 0 shards))) }
    ensures memory { IfErr result (λ e. e ≡ Fault.Memory) }
{
    let mut parts = Vec::new(alloc);
    for shard in shards.all() {
        if is_cohort(homes, shard, coordinator) {
            let batch = part_of(alloc, changes, homes, shard)?;
            parts.push(ShardPart { shard, batch })?;
        }
    }
    Ok(parts)
}

/// The shard of the first row.
fn coordinator_of(changes: &[Change], shards: Shards) -> Shard
    ensures { result ≡ plans.coordinator_of shards changes.now }
{
    match changes.first() {
        Some(first) => shard_of(&first.row.key, shards),
        None => Shard::first(),
    }
}

/// The plan of a batch that is accepted. Where no other shard is touched, the coordinator's part is the normal form.
fn cut(alloc: Global, batch: &Batch, shards: Shards) -> Result<BatchPlan, Fault>
    requires { 0 < shards }
    ensures coordinator { IfOk result (λ plan. plan.coordinator ≡ part_on shards (normal_of batch.now) (plans.coordinator_of shards batch.now)) }
    ensures cohorts { IfOk result (λ plan. plan.cohorts.items ≡ map (part_on shards (normal_of batch.now)) (filter (λ s. not (s == plans.coordinator_of shards batch.now) && plans.is_touched shards (normal_of batch.now) s) (range_with_len 0 shards))) }
    ensures memory { IfErr result (λ e. e ≡ Fault.Memory) }
{
    let kept = normal(alloc, batch)?;
    let shard = coordinator_of(batch.as_slice(), shards);
    let homes = homes_of(alloc, kept.as_slice(), shards)?;
    let cohorts = cohort_parts(alloc, kept.as_slice(), &homes, shard, shards)?;
    let batch = own_part(kept, cohorts.is_empty(), shard, shards);
    Ok(BatchPlan {
        coordinator: ShardPart { shard, batch },
        cohorts,
    })
}

/// The plan of a batch for so many shards: its normal form, cut by the shards of its rows. In the order of m log m for
/// m changes, and once through them for each shard. Refused as `check_batch` refuses it, and else with `Memory` alone.
pub fn plan_batch(
    alloc: Global,
    batch: &Batch,
    schema: &Schema,
    shards: Shards,
) -> Result<BatchPlan, Fault>
    ensures refused { IsRefusedForOrMemory (batch_fault schema.now batch.now) result }
    ensures coordinator { IfOk result (λ plan. plan.coordinator ≡ part_on shards (normal_of batch.now) (plans.coordinator_of shards batch.now)) }
    ensures cohorts { IfOk result (λ plan. plan.cohorts.items ≡ map (part_on shards (normal_of batch.now)) (plans.cohorts_of shards batch.now)) }
    ensures cut { IfOk result (λ plan. IsCut shards (normal_of batch.now) (plan.coordinator ∷ plan.cohorts.items)) }
{
    let _some = shards.get();
    check_batch(schema, batch)?;
    cut(alloc, batch, shards)
}
