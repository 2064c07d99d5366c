//! The envelopes of submissions.
ghost use Rattle.std.specs.Prelude.{◌≡◌, ◌≤◌, ◌+◌, ◌++◌, true, length, map, IfOk, OnOk, OnErr, IfErr};
ghost use Rattle.std.specs.List.Sorted.{IsStrictlyIncreasing};
ghost use Rattle.client.specs.Envelopes.{node_in, prepare_part, batch_envelopes, read_keys};

use crate::home::Home;
use column_family::Key;
use logical_time::{Fault, Node, Shard, Time, TxnId};
use messages::{Body, Cohorts, Dependencies, Envelope, Outbox, Shared};
use planner::{BatchPlan, ShardKeys, ShardPart};
use slice::{Keys, Read};
use std::alloc::Global;

/// Posts a Prepare for each part of a cohort. There is room for them. Takes no memory.
fn post_prepares(
    outbox: &mut Outbox,
    home: Home,
    node: Node,
    time: Time,
    txn: TxnId,
    coordinator: Shard,
    parts: Vec<ShardPart>,
)
    requires { length parts.items ≤ outbox.old.room }
    ensures { outbox.new.sent ≡ outbox.old.sent ++ map (prepare_part home node time txn coordinator) parts.items }
{
    for part in parts {
        let ShardPart { shard, batch } = part;
        let prepare = Envelope {
            from: node,
            to: home.node_of(shard),
            time,
            body: Body::Prepare {
                txn,
                rows: batch,
                coordinator,
            },
        };
        outbox.post(prepare).unwrap();
    }
}

/// The read, of these keys.
#[inline]
pub(crate) fn share_of(read: &Read, keys: Keys) -> Result<Read, Fault>
    ensures ok { IfOk result (λ share. share ≡ record read.now { keys = keys }) }
    ensures memory { IfErr result (λ e. e ≡ Fault.Memory) }
{
    Ok(Read {
        family: read.family.clone()?,
        keys,
        predicate: read.predicate.clone()?,
    })
}

/// Whether these keys are those, in their order.
#[tactic(auto, using(crate::proofs::SameKeys::same_keys))]
fn are_same(keys: &[Key], others: &[Key]) -> bool
    ensures { result ≡ true → keys.now ≡ others.now }
{
    keys == others
}

/// What a shard is asked that holds these keys. Where they are all of the read's, it is the read itself, which is shared.
#[inline]
fn asked_of(alloc: Global, read: &Shared<Read>, keys: Keys) -> Result<Shared<Read>, Fault>
    ensures ok { IfOk result (λ share. share ≡ record read.now { keys = keys }) }
    ensures memory { IfErr result (λ e. e ≡ Fault.Memory) }
{
    if are_same(keys.as_slice(), read.get().keys.as_slice()) {
        return Ok(read.clone()?);
    }
    Ok(Shared::new(alloc, share_of(read.get(), keys)?)?)
}

/// A Read for each shard that holds an asked key.
pub(crate) fn reads(
    alloc: Global,
    home: Home,
    node: Node,
    time: Time,
    number: u64,
    read: &Shared<Read>,
    shares: Vec<ShardKeys>,
) -> Result<Vec<Envelope>, Fault>
    ensures ok { IfOk result (λ envelopes. envelopes.items ≡ map (read_keys home node time number read.now) shares.items) }
    ensures memory { IfErr result (λ e. e ≡ Fault.Memory) }
{
    let mut envelopes = Vec::with_capacity(alloc, shares.len())?;
    for share in shares {
        let ShardKeys { shard, keys } = share;
        let own = asked_of(alloc, read, keys)?;
        envelopes.push(Envelope {
            from: node,
            to: home.node_of(shard),
            time,
            body: Body::Read { number, read: own },
        })?;
    }
    Ok(envelopes)
}

/// The nodes of these shards.
pub(crate) fn nodes(alloc: Global, home: Home, shares: &[ShardKeys]) -> Result<Vec<Node>, Fault>
    ensures ok { IfOk result (λ nodes. nodes.items ≡ map (λ s. node_in home s.shard) shares.now) }
    ensures memory { IfErr result (λ e. e ≡ Fault.Memory) }
{
    let mut nodes = Vec::with_capacity(alloc, shares.len())?;
    let mut rest = shares;
    while let [first, others @ ..] = rest {
        nodes.push(home.node_of(first.shard))?;
        rest = others;
    }
    Ok(nodes)
}

/// Sends all of these envelopes, or none.
pub(crate) fn send(outbox: &mut Outbox, envelopes: Vec<Envelope>) -> Result<(), Fault>
    ensures sends { OnOk result (outbox.new.sent ≡ outbox.old.sent ++ envelopes.items) }
    ensures unsent { OnErr result (outbox.new.sent ≡ outbox.old.sent) }
    ensures memory { IfErr result (λ e. e ≡ Fault.Memory) }
{
    outbox.reserve(envelopes.len())?;
    outbox.post_all(envelopes);
    Ok(())
}

/// The shards of these parts, which ascend.
fn shards_of(parts: &[ShardPart]) -> Cohorts
    requires { IsStrictlyIncreasing (map (λ p. p.shard) parts.now) }
    ensures { result ≡ map (λ p. p.shard) parts.now }
{
    let mut cohorts = Cohorts::none();
    for part in parts {
        cohorts = cohorts.with(part.shard);
    }
    cohorts
}

/// Posts a Begin for the coordinator and a Prepare for each cohort, whose shards ascend. There is room for them. Takes no
/// memory.
#[inline]
pub(crate) fn post_writes(
    outbox: &mut Outbox,
    home: Home,
    node: Node,
    time: Time,
    txn: TxnId,
    dependencies: Dependencies,
    plan: BatchPlan,
)
    requires ascend { IsStrictlyIncreasing (map (λ p. p.shard) plan.cohorts.items) }
    requires room { length plan.cohorts.items + 1 ≤ outbox.old.room }
    ensures { outbox.new.sent ≡ outbox.old.sent ++ batch_envelopes home node time txn dependencies plan.coordinator plan.cohorts.items }
{
    let others = shards_of(plan.cohorts.as_slice());
    let BatchPlan {
        coordinator: ShardPart { shard, batch },
        cohorts,
    } = plan;
    let begin = Envelope {
        from: node,
        to: home.node_of(shard),
        time,
        body: Body::Begin {
            txn,
            rows: batch,
            cohorts: others,
            dependencies,
        },
    };
    outbox.post(begin).unwrap();
    post_prepares(outbox, home, node, time, txn, shard, cohorts);
}
