//! A file as a log sees it.
ghost use Rattle.std.specs.Prelude.{◌≡◌, ◌≤◌, ◌++◌, List, ℕ, Bool, true, Option, take, option_map, is_err, IsErr, OnOk, OnErr, IfSome};
ghost use Rattle.disk.specs.declared.disk.DiskError.TheVariants.{Memory};
ghost use Rattle.disk.specs.Disk.{IsBeginning, Cut, Follows, Only, Elapses};

use std::alloc::{AllocError, AllocFailed, Global};

/// Why a call of a disk failed.
#[derive(Clone, Copy, Debug, PartialEq, Eq)]
pub enum DiskError {
    /// There is no memory.
    Memory,
    /// The disk failed.
    Failed,
}

impl From<AllocError> for DiskError {
    ghost from_gives = { λ _ e. e ≡ Memory };

    fn from(_: AllocError) -> Self {
        DiskError::Memory
    }
}

impl<T: Drop> From<AllocFailed<T>> for DiskError {
    ghost from_gives = { λ _ e. e ≡ Memory };

    fn from(_: AllocFailed<T>) -> Self {
        DiskError::Memory
    }
}

/// A file that is added to at its end, and cut. Whoever opens it reads it once, before. After a call that failed, each
/// further call fails: a second sync may succeed where the first lost what was written, so what is there is for whoever
/// opens it next to find.
pub trait Disk {
    /// The bytes that a read returns; none where the disk tells none.
    ghost seen: { Self → Option (List ℕ) };

    /// What a crash at this moment may leave.
    ghost may_leave: { Self → List ℕ → Type 0 };

    /// The moment, as a number that doesn't fall.
    ghost moment: { Self → ℕ };

    /// What a crash at some moment from that one on might have left, during a call or between two.
    ghost left_since: { Self → ℕ → List ℕ → Type 0 };

    /// Whether a call failed.
    ghost failed: { Self → Bool };

    /// Writes behind the end. It takes a vector, so that a disk can remember it for clauses alone. Until a sync, a
    /// crash may leave anything behind what it might have left before.
    fn append(&mut self, bytes: &Vec<u8>) -> Result<(), DiskError>
        ensures written { OnOk result (seen self.new ≡ option_map (λ s. s ++ bytes.now.items) (seen self.old)) }
        ensures crash { Follows IsBeginning (may_leave self.old) (may_leave self.new) }
        ensures time { Elapses (moment self.old) (moment self.new) (left_since self.old) (left_since self.new) (may_leave self.new) }
        ensures fails { failed self.new ≡ is_err result }
        ensures stays_failed { failed self.old ≡ true → IsErr result };

    /// Cuts off what stands behind so many bytes. Until a sync, a crash may leave some of it.
    fn cut(&mut self, len: usize) -> Result<(), DiskError>
        ensures cut { OnOk result (seen self.new ≡ option_map (λ s. take len s) (seen self.old)) }
        ensures crash { Follows (Cut len) (may_leave self.old) (may_leave self.new) }
        ensures time { Elapses (moment self.old) (moment self.new) (left_since self.old) (left_since self.new) (may_leave self.new) }
        ensures fails { failed self.new ≡ is_err result }
        ensures stays_failed { failed self.old ≡ true → IsErr result };

    /// After it, a crash leaves what a read returns.
    fn sync(&mut self) -> Result<(), DiskError>
        ensures durable { OnOk result (IfSome (seen self.old) (λ s. Only s (may_leave self.new))) }
        ensures seen { seen self.new ≡ seen self.old }
        ensures crash { OnErr result ((c : List ℕ) → may_leave self.new c → may_leave self.old c) }
        ensures time { Elapses (moment self.old) (moment self.new) (left_since self.old) (left_since self.new) (may_leave self.new) }
        ensures fails { failed self.new ≡ is_err result }
        ensures stays_failed { failed self.old ≡ true → IsErr result };

    /// Whether a call failed.
    fn has_failed(&self) -> bool
        ensures { result ≡ failed self.now };

    /// This moment is one of those since an earlier one.
    ghost counts_now: { (file : Self) (t : ℕ) (c : List ℕ) → t ≤ moment file → may_leave file c → left_since file t c };

    /// Since this moment there is no other.
    ghost only_now: { (file : Self) (c : List ℕ) → left_since file (moment file) c → may_leave file c };
}
