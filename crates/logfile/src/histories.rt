//! The history of what a log tells.
ghost use Rattle.std.specs.Prelude.{◌≡◌, IfOk, IfErr, string_bytes};
ghost use Rattle.logical_time.specs.declared.fault.Fault.TheVariants as fault;
ghost use Rattle.world.specs.World.{run_of};
ghost use Rattle.workload.specs.Audited.{AreFirstHistories};
ghost use Rattle.recorded.specs.Recording.{reads_in};
ghost use Rattle.logfile.specs.Told.{IsHistoryOf, IsLogHistoryFor, HasNoHistory};

use crate::error::LogError;
use crate::opening::behind;
use column_family::Schema;
use durable::{Untold, recall};
use ledger::{HeadError, read_head};
use logical_time::Fault;
use recorded::{Recorded, record_of, recorded_text};
use std::alloc::Global;
use workload::histories_of;
use world::World;

// The history of each data centre of a world with these families, and the reads that it answered. The memory of what else it has is
// given back with that of the process. Refused with `Memory` alone.
fn record_world(alloc: Global, families: &Schema, world: World) -> Result<Recorded, Fault>
    ensures families { IfOk result (λ r. r.families ≡ families.now) }
    ensures histories { IfOk result (λ r. AreFirstHistories world.top (run_of world) world.top.dcs r.histories) }
    ensures reads { IfOk result (λ r. r.reads ≡ reads_in (run_of world).transcript) }
    ensures memory { IfErr result (λ e. e ≡ fault.Memory) }
{
    let histories = histories_of(alloc, &world);
    let completed = world.leave();
    record_of(alloc, families, histories?, completed.as_slice())
}

// What the log that a file holds came to. Refused as `history_of_log` is.
fn record_log(alloc: Global, file: &[u8]) -> Result<Recorded, LogError>
    ensures history { IfOk result (IsHistoryOf file.now) }
    ensures refused { IfErr result (HasNoHistory file.now) }
{
    let head = read_head(alloc, file)?;
    let bytes = behind(file, &head);
    let world = recall(alloc, &head.topology, head.secret, bytes, &mut Untold)?;
    match record_world(alloc, head.topology.schema(), world) {
        Ok(recorded) => Ok(recorded),
        Err(_) => Err(LogError::Head(HeadError::Memory)),
    }
}

/// The text of the history of the log that a file holds: of each data centre, and the reads that were answered. Costs what the
/// requests cost when they were asked, and takes memory for each of them; for a program that ends with it. Refused where the file
/// doesn't begin as a log, where its records tell no world, where no text can hold a name or a value, and with `Memory`.
pub fn history_of_log(alloc: Global, file: &[u8]) -> Result<String, LogError>
    ensures text { IfOk result (λ text. IsLogHistoryFor file.now (string_bytes text)) }
    ensures refused { IfErr result (HasNoHistory file.now) }
{
    let recorded = record_log(alloc, file)?;
    match recorded_text(alloc, &recorded) {
        Ok(text) => Ok(text),
        Err(Fault::Memory) => Err(LogError::Head(HeadError::Memory)),
        Err(_) => Err(LogError::Unspelled),
    }
}
