//! A file of the system as a disk.
//!
//! **What is trusted**, here and nowhere else: that a file is as the clauses of `Disk` say. Each method makes the one
//! call of the system that it tells, so in the words of the system's pages that is:
//!
//! - `pwrite` at the end of a file puts bytes there. Whenever the machine stops, what stood before that place and was
//!   synced stands there still; behind it anything may stand, also what was never written.
//! - `ftruncate` to fewer bytes keeps those. Whenever the machine stops before the next sync, some of the others may
//!   stand there still.
//! - Once `fdatasync` has returned 0, the file's bytes and its length are on the disk, and the next start reads them.
//! - What `open` reads, after it had the file synced and the system's copy of it dropped, is on the disk.
//! - Nobody else writes the file: the folder's lock keeps out those who ask for it.
//!
//! A sync that failed isn't tried again: the system may have dropped what it could not write, and the second may
//! return 0. So each call after one that failed fails, and asks the system nothing.
ghost use Rattle.std.specs.Prelude.{◌≡◌, Some, List, ℕ, length, false};
ghost use Rattle.folder.specs.Left.{seen_after, left_of, LeftSince, counts, only};
ghost use Rattle.folder.specs.Deeds.{Deed};
ghost use Rattle.disk.specs.Disk.{Only};

use crate::done::{Done, Past};
use disk::{Disk, DiskError};
use std::fs::File;
use std::os::unix::fs::FileExt;
use std::snapshot::Snapshot;

/// What stands behind the head of a file, and, for clauses alone, what that was and what was done to it.
#[derive(Drop)]
pub struct FileDisk {
    file: File,
    // How long the head is.
    head: u64,
    // How much stands behind it.
    end: u64,
    // Held as long as the file is.
    _lock: File,
    failed: bool,
    first: Snapshot<Vec<u8>>,
    past: Past,
}

impl FileDisk {
    ghost use Rattle.folder.specs.Shown.{file_bytes, FileLeaves, file_moment, file_failed};

    /// A file that holds these bytes behind a head of this length, all of them on the disk.
    pub(crate) fn new(file: File, lock: File, head: u64, bytes: &Vec<u8>) -> FileDisk
        ensures seen { file_bytes result ≡ bytes.now.items }
        ensures durable { Only bytes.now.items (FileLeaves result) }
        ensures works { file_failed result ≡ false }
        ensures untouched { file_moment result ≡ 0 }
    {
        FileDisk {
            file,
            head,
            end: bytes.len() as u64,
            _lock: lock,
            failed: false,
            first: Snapshot::of(bytes),
            past: Past::new(),
        }
    }
}

// The place of a file so many bytes behind another, if there is one.
fn place(head: u64, at: u64) -> Result<u64, DiskError> {
    match head.checked_add(at) {
        Some(place) => Ok(place),
        None => Err(DiskError::Failed),
    }
}

impl Disk for FileDisk {
    ghost use Rattle.folder.specs.Shown.{file_failed};

    ghost seen = { λ h. Some (seen_after h.first.value.items h.past) };

    ghost may_leave = { λ h. left_of h.first.value.items h.past };

    ghost moment = { λ h. length h.past };

    ghost left_since = { λ h. LeftSince h.first.value.items h.past };

    ghost failed = { file_failed };

    ghost counts_now = { λ h. counts h.first.value.items h.past };

    ghost only_now = { λ h. only h.first.value.items h.past };

    fn append(&mut self, bytes: &Vec<u8>) -> Result<(), DiskError> {
        if self.failed {
            return Err(DiskError::Failed);
        }
        self.failed = true;
        let end = place(self.end, bytes.len() as u64)?;
        let at = place(self.head, self.end)?;
        self.past.add(Done::Written(Snapshot::of(bytes)));
        if self.file.write_all_at(bytes, at).is_err() {
            return Err(DiskError::Failed);
        }
        self.end = end;
        self.failed = false;
        Ok(())
    }

    fn cut(&mut self, len: usize) -> Result<(), DiskError> {
        if self.failed {
            return Err(DiskError::Failed);
        }
        self.failed = true;
        let end = self.end.min(len as u64);
        let at = place(self.head, end)?;
        self.past.add(Done::Shortened(len));
        if self.file.set_len(at).is_err() {
            return Err(DiskError::Failed);
        }
        self.end = end;
        self.failed = false;
        Ok(())
    }

    fn sync(&mut self) -> Result<(), DiskError> {
        if self.failed {
            return Err(DiskError::Failed);
        }
        if self.file.sync_data().is_err() {
            self.failed = true;
            return Err(DiskError::Failed);
        }
        self.past.add(Done::Settled);
        Ok(())
    }

    fn has_failed(&self) -> bool {
        self.failed
    }
}
