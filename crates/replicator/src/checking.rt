//! Checks of transactions that a read at a time waits for.
ghost use Rattle.std.specs.Prelude.{◌≡◌, ℕ, map, IfOk, IfErr};
ghost use Rattle.messages.specs.Topology.{TopologyValue};
ghost use Rattle.messages.specs.Place.{IsPlace};
ghost use Rattle.messages.specs.Reads.{check_of};

use logical_time::{Fault, Time, Writer};
use messages::{Body, Envelope, Place};
use std::alloc::Global;

/// A Check for each of these transactions, in their order, whether it commits at or before the time of a read: to its
/// coordinator in this data centre. Refused with `Memory` alone.
pub fn checks(
    alloc: Global,
    place: Place,
    time: Time,
    read_time: Time,
    writers: &[Writer],
) -> Result<Vec<Envelope>, Fault>
    ensures envelopes { (top : TopologyValue) (me : ℕ) → IsPlace top me place → IfOk result (λ envelopes. envelopes.items ≡ map (check_of top me time read_time) writers.now) }
    ensures memory { IfErr result (λ e. e ≡ Fault.Memory) }
{
    let envelopes: Vec<Envelope> = writers
        .iter()
        .map(|writer| {
            let body = Body::Check {
                txn: writer.txn(),
                time: read_time,
            };
            place.envelope_near(time, writer.shard(), body)
        })
        .collect(alloc)?;
    Ok(envelopes)
}
