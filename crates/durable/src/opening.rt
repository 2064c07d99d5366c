//! A world that comes back from its log.
ghost use Rattle.std.specs.Prelude.{◌≡◌, ℕ, true, false, List, Some, IfOk, IfErr, IsErrAnd, length};
ghost use Rattle.world.specs.declared.run_event.RunEvent.{RunEvent};
ghost use Rattle.world.specs.Quiet.{IsQuiet};
ghost use Rattle.world.specs.World.{run_of};
ghost use Rattle.disk.specs.Disk.{Only, LeavesOnly};
ghost use Rattle.disk.specs.declared.disk.DiskError.TheVariants.{Failed};
ghost use Rattle.records.specs.Records.{recovered, IsUndamaged};
ghost use Rattle.keeper.specs.Log.{IsKept, IsAsBefore};
ghost use Rattle.keeper.specs.declared.recovery.RecoveryError.TheVariants.{Disk, Damaged};
ghost use Rattle.ledger.specs.declared.entry.Entry.{Entry};
ghost use Rattle.durable.specs.Playing.{IsLed, Outlives};
ghost use Rattle.durable.specs.Logged.{Tell};
ghost use Rattle.durable.specs.Settled.{Holds, IsSettled};
ghost use Rattle.durable.specs.Stuck.{CantOpen};
ghost use Rattle.durable.specs.declared.error.OpenError.TheVariants.{Unrecovered};

use crate::durable::Durable;
use crate::error::OpenError;
use crate::law::kept_entries_come_back;
use crate::progress::Progress;
use crate::reading::read_entries;
use crate::recovering::recover;
use disk::Disk;
use keeper::{Log, recover as recover_log};
use messages::Topology;
use present::Present;
use std::alloc::Global;

// What bytes of a log led to, when all is handled; where its records end, and how many they are. As `open` says.
fn reopen<D: Disk, P: Progress>(
    alloc: Global,
    topology: &Topology,
    disk: &mut D,
    secret: u64,
    bytes: &[u8],
    watch: &mut P,
) -> Result<(Present, usize, usize), OpenError>
    requires seen { D.seen disk.old ≡ Some bytes.now }
    requires durable { Only bytes.now (D.may_leave disk.old) }
    ensures topology { IfOk result (λ r. r.0.top ≡ topology.now) }
    ensures led { IfOk result (λ r. (es : List Entry) × Tell es (recovered secret 0 0 bytes.now) × IsLed topology.now r.0.events es × (r.2 ≡ length es)) }
    ensures quiet { IfOk result (λ r. IsQuiet (run_of r.0)) }
    ensures kept { IfOk result (λ r. IsKept D.seen D.may_leave disk.new secret r.1 (recovered secret 0 0 bytes.now)) }
    ensures comes_back { IfOk result (λ r. (before : List RunEvent) → Holds topology.now secret before bytes.now → Outlives topology.now before r.0.events) }
    ensures any_moment { LeavesOnly D.moment D.left_since disk.old disk.new (IsAsBefore secret bytes.now) }
    ensures refused { IfErr result (CantOpen topology.now secret bytes.now) }
    ensures undamaged { IfOk result (λ _. IsUndamaged secret bytes.now) }
    ensures damaged { (at : ℕ) → IsErrAnd result (λ e. e ≡ Unrecovered (Damaged at)) → disk.new ≡ disk.old }
    ensures fails { IfErr result (λ e. e ≡ Unrecovered (Disk Failed) → D.failed disk.new ≡ true) }
    ensures works { D.failed disk.old ≡ false → IfOk result (λ _. D.failed disk.new ≡ false) }
{
    let (records, end) = recover_log(alloc, disk, bytes, secret)?;
    let entries = read_entries(alloc, records)?;
    let found = entries.len();
    let world = recover(alloc, topology, entries, watch)?;
    kept_entries_come_back();
    Ok((world, end, found))
}

/// The world of this topology that a log led to, as the bytes of its file tell, when all is handled; and the log, to which more is
/// noted. The sums of its records are made with this secret. Who watches is told after each entry how far it is. What a crash left behind the records is cut off first; a crash may
/// come at any moment of that too. Costs what the requests cost when they were asked, and takes memory for all of them at once.
/// Refused where a record is damaged that was synced, or tells no entry, where an entry can't happen, where the disk fails, and with
/// `Memory`; then the disk is handed back.
pub fn open<D: Disk + Drop, P: Progress>(
    alloc: Global,
    topology: &Topology,
    disk: D,
    secret: u64,
    bytes: &[u8],
    watch: &mut P,
) -> Result<Durable<D>, (OpenError, D)>
    // these bytes are what it holds, all of them on the disk
    requires seen { D.seen disk ≡ Some bytes.now }
    requires durable { Only bytes.now (D.may_leave disk) }
    ensures topology { IfOk result (λ d. d.world.top ≡ topology.now) }
    ensures secret { IfOk result (λ d. d.log.secret ≡ secret) }
    // what its records tell led to all that happened
    ensures led { IfOk result (λ d. (es : List Entry) × Tell es (recovered secret 0 0 bytes.now) × IsLed topology.now d.world.events es × (d.found ≡ length es)) }
    ensures quiet { IfOk result (λ d. IsQuiet (run_of d.world)) }
    // nothing that was synced is damaged
    ensures undamaged { IfOk result (λ _. IsUndamaged secret bytes.now) }
    // all of it is on the disk for good
    ensures settled { IfOk result (λ d. IsSettled D.seen D.may_leave D.failed topology.now secret d.log.disk d.world.events) }
    // whatever the file held came back, and each reply that was given then keeps its meaning
    ensures comes_back { IfOk result (λ d. (before : List RunEvent) → Holds topology.now secret before bytes.now → Outlives topology.now before d.world.events) }
    // and a crash meanwhile leaves a file of the same records, which is no more damaged
    ensures any_moment { IfOk result (λ d. LeavesOnly D.moment D.left_since disk d.log.disk (IsAsBefore secret bytes.now)) }
    ensures any_moment_refused { IfErr result (λ e. LeavesOnly D.moment D.left_since disk e.1 (IsAsBefore secret bytes.now)) }
    ensures refused { IfErr result (λ e. CantOpen topology.now secret bytes.now e.0) }
    // where something is damaged, nothing is done
    ensures damaged { IfErr result (λ e. (at : ℕ) → e.0 ≡ Unrecovered (Damaged at) → e.1 ≡ disk) }
    ensures fails { IfErr result (λ e. e.0 ≡ Unrecovered (Disk Failed) → D.failed e.1 ≡ true) }
    ensures works { D.failed disk ≡ false → IfOk result (λ d. D.failed d.log.disk ≡ false) }
{
    let mut disk = disk;
    match reopen(alloc, topology, &mut disk, secret, bytes, watch) {
        Ok((world, end, found)) => Ok(Durable {
            alloc,
            world,
            log: Log::over(alloc, disk, secret, end),
            found,
        }),
        Err(error) => Err((error, disk)),
    }
}
