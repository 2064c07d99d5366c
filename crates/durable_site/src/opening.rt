//! A site that comes back from its log.
ghost use Rattle.std.specs.Prelude.{◌≡◌, ◌⊎◌, ◌<◌, [], ◌∷◌, ℕ, true, false, List, Some, IfOk, IfErr, OnOk};
ghost use Rattle.logical_time.specs.declared.fault.Fault.TheVariants.{Memory, WriteFailed};
ghost use Rattle.disk.specs.Disk.{Only, LeavesOnly, IsBeginning};
ghost use Rattle.records.specs.Records.{Entry as Record, recovered, views, IsUndamaged};
ghost use Rattle.keeper.specs.Log.{Stands};
ghost use Rattle.keeper.specs.declared.recovery.RecoveryError.TheVariants.{Damaged};
ghost use Rattle.site.specs.Steps.{Step, steps};
ghost use Rattle.site_ledger.specs.declared.entry.Entry as entry;
ghost use Rattle.site_ledger.specs.declared.entry.Entry.TheVariants.{Whose};
ghost use Rattle.site_ledger.specs.Steps.{steps_told};
ghost use Rattle.durable_site.specs.declared.error.OpenError.TheVariants.{Unrecovered, Other, Refused};
ghost use Rattle.durable_site.specs.Logged.{Tell, IsLogged, whose_of};
ghost use Rattle.durable_site.specs.Settled.{Holds, HoldsOnly, IsSettled};
ghost use Rattle.durable_site.specs.Kept.{IsOpened};
ghost use Rattle.durable_site.specs.Heard.{heard_from_each};
ghost use Rattle.durable_site.specs.Met.{WereMet};
ghost use Rattle.durable_site.specs.Stuck.{IsWhose, IsOther, ComesBack, CantResume, CantOpen, IsLeft};

use crate::durable_site::DurableSite;
use crate::error::OpenError;
use crate::identity::Identity;
use crate::others::{Others, tell_of_others};
use crate::reading::read_entries;
use crate::replaying::replay;
use crate::step_log::{StepLog, note_whose};
use actors::Machine;
use disk::Disk;
use keeper::{Log, recover};
use logical_time::Fault;
use messages::Topology;
use records::Record as Read;
use site::Site;
use site_ledger::{Entry, texts_are_of_one_entry};
use std::alloc::Global;

// The first entry of a new log is on the disk for good. Refused with `Memory`, and with `WriteFailed` where the disk fails.
fn begin<D: Disk>(alloc: Global, log: &mut StepLog<D>, identity: &Identity) -> Result<(), Fault>
    requires stands { Stands D.seen D.may_leave log.old.log [] [] }
    requires turned { log.old.turned ≡ 0 }
    ensures logged { OnOk result (IsLogged D.seen D.may_leave (whose_of identity.now) log.new []) }
    ensures settled { OnOk result (IsSettled D.seen D.may_leave D.failed log.new.log.secret log.new.log.disk (whose_of identity.now) []) }
    ensures works { OnOk result (D.failed log.new.log.disk ≡ false) }
    ensures secret { log.new.log.secret ≡ log.old.log.secret }
    // a crash meanwhile leaves what was there, or nothing else than this entry
    ensures any_moment { (log.new.log.disk ≡ log.old.log.disk) ⊎ LeavesOnly D.moment D.left_since log.old.log.disk log.new.log.disk (HoldsOnly log.old.log.secret (whose_of identity.now) []) }
    ensures only { IfErr result (λ e. (e ≡ Memory) ⊎ ((D.failed log.new.log.disk ≡ true) × (e ≡ WriteFailed))) }
{
    note_whose(alloc, &mut log.log, identity)?;
    log.settle(alloc)
}

// Whose log it is by its first entry. Refused where that is of another data centre or by another file of sites.
fn whose_log(first: &Entry, mine: Identity) -> Result<Identity, OpenError>
    ensures own { IfOk result (λ i. (first.now ≡ whose_of i) × (i.dc ≡ mine.dc) × (i.digest ≡ mine.digest)) }
    ensures other { IfErr result (λ e. (e ≡ Other) × ((incarnation : List ℕ) → first.now ≡ Whose mine.dc incarnation mine.digest → ⊥)) }
{
    match first {
        Entry::Whose {
            dc,
            incarnation,
            digest,
        } if *dc == mine.dc && *digest == mine.digest => Ok(Identity {
            dc: *dc,
            incarnation: *incarnation,
            digest: *digest,
        }),
        _ => Err(OpenError::Other),
    }
}

// Whose log it is that tells these entries; where there is none, it is a new one of this process, and that is noted and on the disk for
// good. Refused where it is another's, and as `begin` is.
fn identify<D: Disk>(
    alloc: Global,
    log: &mut StepLog<D>,
    identity: Identity,
    entries: &[Entry],
) -> Result<Identity, OpenError>
    requires stands { (kept : List Record) × Stands D.seen D.may_leave log.old.log kept [] × Tell entries.now kept }
    requires turned { log.old.turned ≡ 0 }
    ensures whose { IfOk result (λ i. IsWhose identity entries.now i) }
    ensures logged { IfOk result (λ i. IsLogged D.seen D.may_leave (whose_of i) log.new (steps_told entries.now)) }
    ensures settled { IfOk result (λ i. IsSettled D.seen D.may_leave D.failed log.new.log.secret log.new.log.disk (whose_of i) (steps_told entries.now)) }
    ensures works { D.failed log.old.log.disk ≡ false → OnOk result (D.failed log.new.log.disk ≡ false) }
    ensures secret { log.new.log.secret ≡ log.old.log.secret }
    ensures any_moment { (log.new.log.disk ≡ log.old.log.disk) ⊎ ((entries.now ≡ []) × LeavesOnly D.moment D.left_since log.old.log.disk log.new.log.disk (HoldsOnly log.old.log.secret (whose_of identity) [])) }
    ensures refused { IfErr result (λ e. (e ≡ Refused Memory) ⊎ (((entries.now ≡ []) × (D.failed log.new.log.disk ≡ true) × (e ≡ Refused WriteFailed)) ⊎ ((e ≡ Other) × IsOther identity entries.now))) }
{
    match entries.first() {
        None => {
            begin(alloc, log, &identity)?;
            Ok(identity)
        }
        Some(first) => match whose_log(first, identity) {
            Ok(identity) => Ok(identity),
            Err(error) => Err(error),
        },
    }
}

// The site that the records of a log lead to, whose that log is, and what it tells of the others. As `open` says.
fn resume<M: Machine, D: Disk>(
    alloc: Global,
    topology: &Topology,
    log: &mut StepLog<D>,
    records: Vec<Read>,
    identity: Identity,
) -> Result<(Site<M>, Identity, Others), OpenError>
    requires there { identity.dc < topology.now.dcs }
    requires stands { Stands D.seen D.may_leave log.old.log (views records.items) [] }
    requires turned { log.old.turned ≡ 0 }
    ensures back { IfOk result (λ r. ComesBack topology.now identity (views records.items) r.1 r.0) }
    ensures heard { IfOk result (λ r. r.2.heard.items ≡ heard_from_each topology.now.dcs (steps r.0.story)) }
    ensures met { IfOk result (λ r. WereMet topology.now.dcs (views records.items) r.2.met.items) }
    ensures logged { IfOk result (λ r. IsLogged D.seen D.may_leave (whose_of r.1) log.new (steps r.0.story)) }
    ensures settled { IfOk result (λ r. IsSettled D.seen D.may_leave D.failed log.new.log.secret log.new.log.disk (whose_of r.1) (steps r.0.story)) }
    ensures works { D.failed log.old.log.disk ≡ false → OnOk result (D.failed log.new.log.disk ≡ false) }
    ensures secret { log.new.log.secret ≡ log.old.log.secret }
    ensures any_moment { (log.new.log.disk ≡ log.old.log.disk) ⊎ ((views records.items ≡ []) × LeavesOnly D.moment D.left_since log.old.log.disk log.new.log.disk (HoldsOnly log.old.log.secret (whose_of identity) [])) }
    ensures refused { IfErr result (CantResume M.refuses topology.now identity (views records.items) (D.failed log.new.log.disk)) }
{
    let entries = read_entries(alloc, records)?;
    let whose = identify(alloc, log, identity, &entries)?;
    let others = tell_of_others(alloc, &entries, topology.dcs())?;
    let site = replay(alloc, topology, identity.dc, entries)?;
    Ok((site, whose, others))
}

/// The site that a log led to, as the bytes of its file tell, and the log, to which more is noted; and what it tells of the sites of the
/// other data centres: from which envelope on each is to send, and which process it was. The sums of its records are made with this
/// secret. A new log is this process's; another is that of the process whose it was. What a crash left behind the records is cut off first; a crash
/// may come at any moment of that too. What the site gave isn't known. Costs what the steps cost when they were done, and takes memory
/// for all of them at once. Refused where a record is damaged that was synced, or tells no entry, where it is the log of another data
/// centre or by another file of sites, where the site gets stuck on a step, where the disk fails, and with `Memory`; then the disk is
/// handed back.
pub fn open<M: Machine, D: Disk + Drop>(
    alloc: Global,
    topology: &Topology,
    disk: D,
    secret: u64,
    bytes: &[u8],
    identity: Identity,
) -> Result<(DurableSite<M, D>, Others), (OpenError, D)>
    requires there { identity.dc < topology.now.dcs }
    // these bytes are what it holds, all of them on the disk
    requires seen { D.seen disk ≡ Some bytes.now }
    requires durable { Only bytes.now (D.may_leave disk) }
    // what its records tell was done again, and nothing else
    ensures back { IfOk result (λ r. ComesBack topology.now identity (recovered secret 0 0 bytes.now) r.0.identity r.0.site) }
    ensures heard { IfOk result (λ r. r.1.heard.items ≡ heard_from_each topology.now.dcs (steps r.0.site.story)) }
    ensures met { IfOk result (λ r. WereMet topology.now.dcs (recovered secret 0 0 bytes.now) r.1.met.items) }
    // all of it is on the disk for good, and a crash meanwhile leaves a file of the same records, which is no more damaged
    ensures opened { IfOk result (λ r. IsOpened D.seen D.may_leave D.failed D.moment D.left_since secret disk (IsLeft secret (whose_of identity) bytes.now) r.0) }
    // nothing that was synced is damaged
    ensures undamaged { IfOk result (λ _. IsUndamaged secret bytes.now) }
    // whatever the file held came back, first, in a log of the same process
    ensures comes_back { IfOk result (λ r. (whose : entry.Entry) (all : List Step) → Holds secret whose all bytes.now → (whose ≡ whose_of r.0.identity) × IsBeginning all (steps r.0.site.story)) }
    ensures any_moment { IfErr result (λ e. LeavesOnly D.moment D.left_since disk e.1 (IsLeft secret (whose_of identity) bytes.now)) }
    ensures refused { IfErr result (λ e. CantOpen M.refuses topology.now identity secret bytes.now (D.failed e.1) e.0) }
    // where something is damaged, nothing is done
    ensures damaged { IfErr result (λ e. (at : ℕ) → e.0 ≡ Unrecovered (Damaged at) → e.1 ≡ disk) }
{
    let mut disk = disk;
    let (records, end) = match recover(alloc, &mut disk, bytes, secret) {
        Ok(found) => found,
        Err(error) => return Err((OpenError::Unrecovered(error), disk)),
    };
    let mut log = StepLog {
        log: Log::over(alloc, disk, secret, end),
        turned: 0,
    };
    texts_are_of_one_entry();
    match resume(alloc, topology, &mut log, records, identity) {
        Ok((site, identity, others)) => {
            let log = Some(log);
            Ok((
                DurableSite {
                    site,
                    identity,
                    log,
                },
                others,
            ))
        }
        Err(error) => Err((error, log.log.into_disk())),
    }
}
