//! A log that a crash may have left.
ghost use Rattle.std.specs.Prelude.{◌≡◌, ◌≤◌, ◌+◌, List, ℕ, true, false, length, drop, take, option_map, IfOk, OnOk, OnErr, IfErr, IsErrAnd, IfSome, Some};
ghost use Rattle.disk.specs.Disk.{Cut, Only, LeavesOnly};
ghost use Rattle.records.specs.Records.{recovered, spelled, views, has_first as holds_first};
ghost use Rattle.keeper.specs.Log.{IsKept, IsAsBefore};
ghost use Rattle.keeper.specs.declared.recovery.RecoveryError.TheVariants.{Disk};
ghost use Rattle.disk.specs.declared.disk.DiskError.TheVariants as disk_error;

use disk::{Disk, DiskError};
use records::{Record, has_first, read_records};
use std::alloc::{AllocError, Global};

/// Why a log can't be opened.
#[derive(Clone, Copy, Debug, PartialEq, Eq)]
pub enum RecoveryError {
    /// The disk failed, or there is no memory.
    Disk(DiskError),
    /// No record stands at this place, and behind it begins one that was written after all before it were synced.
    Damaged(usize),
}

impl From<DiskError> for RecoveryError {
    ghost from_gives = { λ x e. e ≡ Disk x };

    fn from(error: DiskError) -> Self {
        RecoveryError::Disk(error)
    }
}

impl From<AllocError> for RecoveryError {
    ghost from_gives = { λ _ e. e ≡ Disk disk_error.Memory };

    fn from(_: AllocError) -> Self {
        RecoveryError::Disk(DiskError::Memory)
    }
}

// Cuts a file of this length, if it is longer, and syncs.
fn cut<D: Disk>(disk: &mut D, end: usize, long: usize) -> Result<(), DiskError>
    requires { IfSome (D.seen disk.old) (λ s. (long ≡ length s) × Only s (D.may_leave disk.old)) }
    ensures seen { OnOk result (IfSome (D.seen disk.old) (λ s. D.seen disk.new ≡ Some (take end s))) }
    ensures durable { OnOk result (IfSome (D.seen disk.old) (λ s. Only (take end s) (D.may_leave disk.new))) }
    ensures any_moment { IfSome (D.seen disk.old) (λ s. LeavesOnly D.moment D.left_since disk.old disk.new (Cut end s)) }
    ensures fails { OnErr result (D.failed disk.new ≡ true) }
    ensures works { D.failed disk.old ≡ false → OnOk result (D.failed disk.new ≡ false) }
{
    if end < long {
        disk.cut(end)?;
        disk.sync()?;
    }
    Ok(())
}

/// The records of a file that a crash may have left, and where they end. What a crash left behind them is cut off; it
/// may come at any moment of this too. Where a record is damaged that was synced the file stays as it is. Costs one
/// pass over the file, and over what is cut off a sum for each byte.
pub fn recover<D: Disk>(
    alloc: Global,
    disk: &mut D,
    bytes: &[u8],
    secret: u64,
) -> Result<(Vec<Record>, usize), RecoveryError>
    // These bytes are what it holds, all of them on the disk.
    requires { IfSome (D.seen disk.old) (λ s. (bytes.now ≡ s) × Only s (D.may_leave disk.old)) }
    ensures records { IfOk result (λ r. IfSome (D.seen disk.old) (λ s. views r.0.items ≡ recovered secret 0 0 s)) }
    ensures kept { IfOk result (λ r. IfSome (D.seen disk.old) (λ s. IsKept D.seen D.may_leave disk.new secret r.1 (recovered secret 0 0 s))) }
    // nothing behind them was synced after they were
    ensures last { IfOk result (λ r. IfSome (D.seen disk.old) (λ s. holds_first secret (r.1 + 1) (drop (r.1 + 1) s) ≡ false)) }
    ensures damaged { (at : ℕ) → IsErrAnd result (λ e. e ≡ RecoveryError.Damaged at) → (disk.new ≡ disk.old) × IfSome (D.seen disk.old) (λ s. (at ≡ length (spelled secret 0 (recovered secret 0 0 s))) × (holds_first secret (at + 1) (drop (at + 1) s) ≡ true)) }
    ensures fails { IfErr result (λ e. e ≡ Disk disk_error.Failed → D.failed disk.new ≡ true) }
    ensures works { D.failed disk.old ≡ false → OnOk result (D.failed disk.new ≡ false) }
    // a crash at any moment leaves the same records, and makes no damage
    ensures any_moment { IfSome (D.seen disk.old) (λ s. LeavesOnly D.moment D.left_since disk.old disk.new (IsAsBefore secret s)) }
{
    let (records, end) = read_records(alloc, secret, bytes)?;
    if has_first(secret, end + 1, bytes) {
        return Err(RecoveryError::Damaged(end));
    }
    cut(disk, end, bytes.len())?;
    Ok((records, end))
}
