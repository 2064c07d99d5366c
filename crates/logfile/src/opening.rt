//! A world that comes back from a folder.
ghost use Rattle.std.specs.Prelude.{◌≡◌, ◌++◌, drop, length, IfOk, IfErr};
ghost use Rattle.ledger.specs.Heads.{head_of};
ghost use Rattle.logfile.specs.Logs.{ComesBack};
ghost use Rattle.logfile.specs.Told.{CantReopen};

use crate::error::{LogError, Unopened};
use durable::{Durable, Progress, open};
use folder::{FileDisk, Opened};
use ledger::{Head, read_head, write_head};
use messages::Topology;
use std::alloc::Global;
use std::io;
use std::random::RandomSource;

/// What stands behind the head with which a file begins. That it does is the caller's condition.
pub(crate) fn behind<'f>(file: &'f [u8], head: &Head) -> &'f [u8]
    requires { (file.now ≡ head_of head.now.secret head.now.topology ++ drop head.now.length file.now) × (head.now.length ≡ length (head_of head.now.secret head.now.topology)) }
    ensures { result.now ≡ drop head.now.length file.now }
{
    &file[head.length.min(file.len())..]
}

/// The world of this topology that a folder's log led to, as `open` of `durable` says. The log's head has the secret of its records.
/// Refused where its file doesn't begin as a log, where it is that of another topology, and as `open` is.
pub fn reopen<P: Progress>(
    alloc: Global,
    topology: &Topology,
    opened: Opened,
    watch: &mut P,
) -> Result<Durable<FileDisk>, LogError>
    ensures back { IfOk result (ComesBack ⟦<FileDisk as disk::Disk>⟧.seen ⟦<FileDisk as disk::Disk>⟧.may_leave ⟦<FileDisk as disk::Disk>⟧.failed ⟦<FileDisk as disk::Disk>⟧.left_since opened.bytes.items topology.now) }
    ensures refused { IfErr result (CantReopen topology.now opened.bytes.items) }
{
    let head = read_head(alloc, opened.bytes())?;
    if !head.is_of(topology) {
        return Err(LogError::Other(head.topology));
    }
    let (disk, bytes) = opened.behind(alloc, head.length)?;
    match open(alloc, topology, disk, head.secret, &bytes, watch) {
        Ok(world) => Ok(world),
        Err((error, _disk)) => Err(LogError::Records(error)),
    }
}

// What the sums of a new log are made with.
fn new_secret(rt: &HostRuntime) -> io::Result<u64> {
    let mut bytes = [0; 8];
    rt.fill_bytes(&mut bytes)?;
    Ok(u64::from_be_bytes(bytes))
}

/// The world of this topology that the log in a folder led to; a new one where there is no log. The folder is this process's for as
/// long as the world is there. Refused where another process has it, where the system refuses something, and as `reopen` is.
pub fn open_folder<P: Progress>(
    rt: &HostRuntime,
    topology: &Topology,
    folder: &str,
    watch: &mut P,
) -> Result<Durable<FileDisk>, Unopened> {
    let alloc = rt.alloc();
    let fresh = write_head(alloc, new_secret(rt)?, topology)?;
    let opened = folder::open(rt, folder, &fresh)?;
    match reopen(alloc, topology, opened, watch) {
        Ok(world) => Ok(world),
        Err(error) => Err(Unopened::Log(error)),
    }
}
