//! Envelopes to other data centres.
ghost use Rattle.std.specs.Prelude.{◌≡◌, ◌++◌, ℕ, map, IfOk, IfErr, OnOk};
ghost use Rattle.messages.specs.declared.body.Body.TheVariants as body;
ghost use Rattle.messages.specs.Topology.{TopologyValue};
ghost use Rattle.messages.specs.Words.{envelope};
ghost use Rattle.messages.specs.Place.{IsPlace};
ghost use Rattle.messages.specs.Shard.{PreparedPart};
ghost use Rattle.messages.specs.Commits as machine;
ghost use Rattle.write_txn.specs.Roles.{role_of};

use column_family::Batch;
use logical_time::{Fault, Node, Stamp, Time, TxnId, Writer};
use messages::{Body, Cohorts, Dependencies, Envelope, Place, repl_begin, repl_part};
use std::alloc::Global;
use write_txn::Origin;

// A ReplPart to each of these nodes.
fn parts_to(
    alloc: Global,
    from: Node,
    time: Time,
    nodes: Vec<Node>,
    writer: Writer,
    rows: &Batch,
    stamp: Stamp,
) -> Result<Vec<Envelope>, Fault>
    ensures ok { IfOk result (λ envelopes. envelopes.items ≡ map (λ n. envelope from n time (body.ReplPart writer.txn rows.now stamp writer.shard)) nodes.items) }
    ensures memory { IfErr result (λ e. e ≡ Fault.Memory) }
{
    let mut envelopes = Vec::new(alloc);
    for to in nodes {
        let body = repl_part(writer.txn(), rows, stamp, writer.shard())?;
        envelopes.push(Envelope {
            from,
            to,
            time,
            body,
        })?;
    }
    Ok(envelopes)
}

/// What a cohort sends once its part is applied: where the write was submitted a ReplPart to the same shard of each
/// other data centre, ascending, elsewhere nothing. Refused with `Memory` alone.
pub fn repl_parts(
    alloc: Global,
    place: Place,
    time: Time,
    origin: Origin,
    writer: Writer,
    rows: &Batch,
    stamp: Stamp,
) -> Result<Vec<Envelope>, Fault>
    ensures envelopes { (top : TopologyValue) (me : ℕ) (p : PreparedPart) → IsPlace top me place → p.txn ≡ writer.txn → p.rows ≡ rows.now → p.coordinator ≡ writer.shard → IfOk result (λ envelopes. envelopes.items ≡ machine.repl_parts (role_of origin) top me time p stamp) }
    ensures memory { IfErr result (λ e. e ≡ Fault.Memory) }
{
    match origin {
        Origin::Submitted => {
            let nodes = place.others(alloc)?;
            parts_to(alloc, place.node(), time, nodes, writer, rows, stamp)
        }
        Origin::Replicated => Ok(Vec::new(alloc)),
    }
}

// Adds a ReplBegin to each of these nodes, of a write that was submitted here: its stamp is the time and the sender.
fn add_begins(
    envelopes: &mut Vec<Envelope>,
    nodes: Vec<Node>,
    txn: TxnId,
    rows: &Batch,
    stamp: Stamp,
    cohorts: &Cohorts,
    dependencies: &Dependencies,
) -> Result<(), Fault>
    ensures ok { OnOk result (envelopes.new.items ≡ envelopes.old.items ++ map (λ n. envelope stamp.node n stamp.time (body.ReplBegin cohorts.now txn rows.now stamp dependencies.now)) nodes.items) }
    ensures memory { IfErr result (λ e. e ≡ Fault.Memory) }
{
    for to in nodes {
        let body = repl_begin(txn, rows, stamp, cohorts, dependencies)?;
        envelopes.push(Envelope {
            from: stamp.node(),
            to,
            time: stamp.time(),
            body,
        })?;
    }
    Ok(())
}

/// What a coordinator tells of its decision beside `Commit`: where the write was submitted, which has no stamp yet, Done
/// to the session and a ReplBegin to the same shard of each other data centre, ascending, elsewhere nothing. Refused
/// with `Memory` alone.
pub fn announcements(
    alloc: Global,
    place: Place,
    time: Time,
    txn: TxnId,
    rows: &Batch,
    cohorts: &Cohorts,
    dependencies: &Dependencies,
    stamp: &Option<Stamp>,
) -> Result<Vec<Envelope>, Fault>
    ensures envelopes { (top : TopologyValue) (me : ℕ) → IsPlace top me place → IfOk result (λ envelopes. envelopes.items ≡ machine.announcements top me time (record { txn = txn; rows = rows.now; cohorts = cohorts.now; dependencies = dependencies.now; stamp = stamp.now }) stamp.now) }
    ensures memory { IfErr result (λ e. e ≡ Fault.Memory) }
{
    let mut envelopes = Vec::new(alloc);
    if stamp.is_some() {
        return Ok(envelopes);
    }
    let node = place.node();
    let stamp = Stamp::new(time, node);
    envelopes.push(Envelope {
        from: node,
        to: txn.session,
        time,
        body: Body::Done {
            txn,
            commit: time,
            stamp,
        },
    })?;
    let nodes = place.others(alloc)?;
    add_begins(
        &mut envelopes,
        nodes,
        txn,
        rows,
        stamp,
        cohorts,
        dependencies,
    )?;
    Ok(envelopes)
}
