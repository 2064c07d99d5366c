//! A folder with a log.
ghost use Rattle.std.specs.Prelude.{◌≡◌, drop, false, IfOk};
ghost use Rattle.disk.specs.Disk.{Only};
ghost use Rattle.folder.specs.Shown.{file_bytes, FileLeaves, file_moment, file_failed};

use crate::file_disk::FileDisk;
use std::alloc::{AllocError, Global};
use std::fs::{self, File, OpenOptions, TryLockError};
use std::io::{self, ErrorKind, Read};
use std::os::fd::AsRawFd;
use std::os::unix::fs::FileExt;

/// Why a folder can't be opened.
#[derive(Debug, Drop)]
pub enum OpenError {
    /// Another process has it open.
    InUse,
    /// There is no memory.
    Memory,
    /// The system refused something.
    Refused(io::Error),
}

impl From<io::Error> for OpenError {
    fn from(error: io::Error) -> Self {
        if error.kind() == ErrorKind::OutOfMemory {
            return OpenError::Memory;
        }
        OpenError::Refused(error)
    }
}

impl From<AllocError> for OpenError {
    fn from(_: AllocError) -> Self {
        OpenError::Memory
    }
}

/// A log's file that is open and was read, with the lock of its folder.
#[derive(Drop)]
pub struct Opened {
    file: File,
    lock: File,
    bytes: Vec<u8>,
}

impl Opened {
    /// All that it holds.
    pub fn bytes(&self) -> &[u8]
        ensures { result.now ≡ self.now.bytes.items }
    {
        &self.bytes
    }

    /// What stands behind a head of this length, as a disk and as bytes. Copies them.
    pub fn behind(self, alloc: Global, head: usize) -> Result<(FileDisk, Vec<u8>), AllocError>
        ensures bytes { IfOk result (λ r. r.1.items ≡ drop head self.bytes.items) }
        ensures seen { IfOk result (λ r. file_bytes r.0 ≡ r.1.items) }
        ensures durable { IfOk result (λ r. Only r.1.items (FileLeaves r.0)) }
        ensures works { IfOk result (λ r. file_failed r.0 ≡ false) }
        // nothing was done to it
        ensures untouched { IfOk result (λ r. file_moment r.0 ≡ 0) }
    {
        let Opened { file, lock, bytes } = self;
        let head = head.min(bytes.len());
        let rest = bytes[head..].to_vec(alloc)?;
        let disk = FileDisk::new(file, lock, head as u64, &rest);
        Ok((disk, rest))
    }
}

// Makes a file with this head, whole or not at all: a draft is written and synced, and then gets its name.
fn make(rt: &HostRuntime, draft: &str, log: &str, head: &[u8]) -> io::Result<()> {
    let file = File::create(rt, draft)?;
    file.write_all_at(head, 0)?;
    file.sync_all()?;
    fs::rename(rt, draft, log)
}

// What the system has of the file is written, and what is read after this comes from the disk.
fn settle(file: &File) -> io::Result<()> {
    file.sync_all()?;
    let advised = libc::posix_fadvise(file.as_raw_fd(), 0, 0, libc::POSIX_FADV_DONTNEED);
    if advised != 0 {
        return Err(io::Error::from_raw_os_error(advised));
    }
    Ok(())
}

// The bytes of a file.
fn read_all(alloc: Global, file: &mut File) -> io::Result<Vec<u8>> {
    let mut bytes = Vec::new(alloc);
    file.read_to_end(&mut bytes)?;
    Ok(bytes)
}

// Makes the folder where it is missing. The one above it is synced in any case: an earlier start may have ended between.
fn make_folder(rt: &HostRuntime, folder: &str) -> Result<(), OpenError> {
    if !fs::exists(rt, folder)? {
        fs::create_dir(rt, folder)?;
    }
    let parent = format!(in rt.alloc(); "{folder}/..")?;
    File::open(rt, parent.as_str())?.sync_all()?;
    Ok(())
}

// Takes the lock of a folder.
fn take_lock(rt: &HostRuntime, folder: &str) -> Result<File, OpenError> {
    let name = format!(in rt.alloc(); "{folder}/lock")?;
    let lock = OpenOptions::new()
        .write(true)
        .create(true)
        .open(rt, name.as_str())?;
    match lock.try_lock() {
        Ok(()) => Ok(lock),
        Err(TryLockError::WouldBlock) => Err(OpenError::InUse),
        Err(TryLockError::Error(error)) => Err(OpenError::Refused(error)),
    }
}

/// Opens the log of a folder for as long as what it gives is held, and reads it once. Makes folder and log where they
/// are missing; then it has this head. The folder and the one above it are synced each time, so
/// that both names are there after a crash, whichever start gave them.
pub fn open(rt: &HostRuntime, folder: &str, head: &[u8]) -> Result<Opened, OpenError> {
    let alloc = rt.alloc();
    let log = format!(in alloc; "{folder}/log")?;
    let draft = format!(in alloc; "{folder}/log.new")?;
    make_folder(rt, folder)?;
    let lock = take_lock(rt, folder)?;
    if !fs::exists(rt, log.as_str())? {
        make(rt, draft.as_str(), log.as_str(), head)?;
    }
    File::open(rt, folder)?.sync_all()?;
    let mut file = OpenOptions::new()
        .read(true)
        .write(true)
        .open(rt, log.as_str())?;
    settle(&file)?;
    let bytes = read_all(alloc, &mut file)?;
    Ok(Opened { file, lock, bytes })
}
