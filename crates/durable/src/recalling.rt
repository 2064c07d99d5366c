//! What a log tells, with all its past.
ghost use Rattle.std.specs.Prelude.{◌≡◌, List, IfOk, IfErr};
ghost use Rattle.world.specs.declared.run_event.RunEvent.{RunEvent};
ghost use Rattle.world.specs.Quiet.{IsQuiet};
ghost use Rattle.world.specs.World.{run_of};
ghost use Rattle.records.specs.Records.{recovered, IsUndamaged};
ghost use Rattle.ledger.specs.declared.entry.Entry.{Entry};
ghost use Rattle.durable.specs.Playing.{IsLed, Outlives};
ghost use Rattle.durable.specs.Logged.{Tell};
ghost use Rattle.durable.specs.Settled.{Holds};
ghost use Rattle.durable.specs.Stuck.{CantRead, CantRecall};
ghost use Rattle.durable.specs.Looked.{IsWholeAt};

use crate::error::OpenError;
use crate::law::kept_entries_come_back;
use crate::progress::Progress;
use crate::reading::read_entries;
use crate::recovering::recall_entries;
use keeper::RecoveryError;
use ledger::Entry;
use messages::Topology;
use records::{has_first, read_records};
use std::alloc::Global;
use world::World;

/// The entries that the bytes of a log tell, and where its records end. Changes nothing. Refused where a record is damaged that was
/// synced, or tells no entry, and with `Memory`. Linear in the bytes, and takes a sum for each byte that is torn.
pub fn read_log(alloc: Global, secret: u64, bytes: &[u8]) -> Result<(Vec<Entry>, usize), OpenError>
    ensures tell { IfOk result (λ r. Tell r.0.items (recovered secret 0 0 bytes.now)) }
    ensures whole { IfOk result (λ r. IsWholeAt secret bytes.now r.1) }
    ensures refused { IfErr result (CantRead secret bytes.now) }
{
    let (records, end) = read_records(alloc, secret, bytes)?;
    if has_first(secret, end + 1, bytes) {
        return Err(OpenError::Unrecovered(RecoveryError::Damaged(end)));
    }
    let entries = read_entries(alloc, records)?;
    Ok((entries, end))
}

/// The world of this topology that the bytes of a log led to, when all is handled, with all its past. Changes nothing else. Costs
/// what the requests cost when they were asked, and takes memory for all of them. Who watches is told after each entry how far it is.
/// Refused as `open` is, but for the disk.
pub fn recall<P: Progress>(
    alloc: Global,
    topology: &Topology,
    secret: u64,
    bytes: &[u8],
    watch: &mut P,
) -> Result<World, OpenError>
    ensures topology { IfOk result (λ w. w.top ≡ topology.now) }
    ensures led { IfOk result (λ w. (es : List Entry) × Tell es (recovered secret 0 0 bytes.now) × IsLed topology.now w.events es) }
    ensures undamaged { IfOk result (λ _. IsUndamaged secret bytes.now) }
    ensures quiet { IfOk result (λ w. IsQuiet (run_of w)) }
    ensures comes_back { IfOk result (λ w. (before : List RunEvent) → Holds topology.now secret before bytes.now → Outlives topology.now before w.events) }
    ensures refused { IfErr result (CantRecall topology.now secret bytes.now) }
{
    let (entries, _end) = read_log(alloc, secret, bytes)?;
    let world = recall_entries(alloc, topology, entries, watch)?;
    kept_entries_come_back();
    Ok(world)
}
