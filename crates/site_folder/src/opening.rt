//! A site that comes back from a folder.
ghost use Rattle.std.specs.Prelude.{◌≡◌, ◌<◌, IfOk, IfErr};
ghost use Rattle.site_folder.specs.Files.{HasReturned, CantReturn};

use crate::error::Unreturned;
use actors::Machine;
use durable_site::{DurableSite, Identity, Others, open};
use folder::{FileDisk, Opened};
use ledger::{read_head, write_head};
use logfile::{LogError, Unopened};
use messages::Topology;
use std::alloc::Global;
use std::io;
use std::random::RandomSource;

/// The site of a data centre that a folder's log led to, and what it tells of the sites of others, as `open` of `durable_site` says. The
/// log's head has the secret of its records. Refused where its file doesn't begin as a log, where it is that of
/// another topology, and as `open` is.
pub fn reopen_site<M: Machine>(
    alloc: Global,
    topology: &Topology,
    opened: Opened,
    identity: Identity,
) -> Result<(DurableSite<M, FileDisk>, Others), Unreturned>
    requires { identity.dc < topology.now.dcs }
    ensures back { IfOk result (λ r. HasReturned ⟦<FileDisk as disk::Disk>⟧.seen ⟦<FileDisk as disk::Disk>⟧.may_leave ⟦<FileDisk as disk::Disk>⟧.failed ⟦<FileDisk as disk::Disk>⟧.left_since opened.bytes.items topology.now identity r.0 r.1.heard.items r.1.met.items) }
    ensures refused { IfErr result (CantReturn M.refuses opened.bytes.items topology.now identity) }
{
    let head = read_head(alloc, opened.bytes())?;
    if !head.is_of(topology) {
        return Err(Unreturned::Folder(Unopened::Log(LogError::Other(head.topology))));
    }
    let (disk, bytes) = opened.behind(alloc, head.length)?;
    match open(alloc, topology, disk, head.secret, &bytes, identity) {
        Ok(found) => Ok(found),
        Err((error, _disk)) => Err(Unreturned::Records(error)),
    }
}

// What the sums of a new log are made with.
fn new_secret(rt: &HostRuntime) -> io::Result<u64> {
    let mut bytes = [0; 8];
    rt.fill_bytes(&mut bytes)?;
    Ok(u64::from_be_bytes(bytes))
}

/// The site of a data centre that the log in a folder led to, and what it tells of the sites of others; where there is no log, a new
/// site, and a new log of this process. The folder is this process's for as long as the site is there. Refused where another process
/// has it, where the system refuses something, and as `reopen_site` is.
pub fn open_site<M: Machine>(
    rt: &HostRuntime,
    topology: &Topology,
    folder: &str,
    identity: Identity,
) -> Result<(DurableSite<M, FileDisk>, Others), Unreturned>
    requires { identity.dc < topology.now.dcs }
{
    let alloc = rt.alloc();
    let fresh = write_head(alloc, new_secret(rt)?, topology)?;
    let opened = folder::open(rt, folder, &fresh)?;
    reopen_site(alloc, topology, opened, identity)
}
