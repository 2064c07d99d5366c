//! A world that is kept in a log.
ghost use Rattle.std.specs.Prelude.{◌≡◌, false};
ghost use Rattle.durable.specs.Logged.{IsLogged};

use crate::asking::ask_keeping;
use crate::resting::rest_keeping;
use disk::Disk;
use keeper::Log;
use logical_time::Fault;
use messages::{Op, Outcome, Topology};
use present::Present;
use service::{Host, Housed};
use std::alloc::Global;
use std::marker::Model;
use store::Holdings;

/// A world that keeps no past, whose requests and collections are kept in a log on a disk. What happened is noted, and is on the
/// disk for good once it has settled; the log tells what led to all of it, as long as the disk hasn't failed. It must be closed.
pub struct Durable<D: Disk> {
    pub(crate) alloc: Global,
    pub(crate) world: Present,
    pub(crate) log: Log<D>,
    // How many entries the log had when it was opened.
    pub(crate) found: usize,
}

impl<D: Disk> Model for Durable<D> {
    ghost use Rattle.std.specs.Prelude.{◌≡◌, false};
    ghost use Rattle.durable.specs.Logged.{IsLogged};
    ghost use Rattle.durable.specs.Settled.{DurableValue};

    ghost Value = { DurableValue D };

    ghost view = { λ d. record { world = d.world; log = d.log; found = d.found } };

    ghost invariant = { λ d. D.failed d.log.disk ≡ false → IsLogged D.seen D.may_leave d.world.top d.log d.world.events };
}

impl<D: Disk> Durable<D> {
    /// How many requests and collections its log had when it was opened.
    pub fn found(&self) -> usize
        ensures { result ≡ self.now.found }
    {
        self.found
    }

    /// What its log stands on.
    pub fn disk(&self) -> &D
        ensures { result.now ≡ self.now.log.disk }
    {
        self.log.disk()
    }

    /// What happened is told by the log, as long as the disk hasn't failed. Does nothing; its contract is the law.
    pub fn is_logged(&self)
        ensures { D.failed self.now.log.disk ≡ false → IsLogged D.seen D.may_leave self.now.world.top self.now.log self.now.world.events }
    {
        let _log = &self.log;
    }
}

/// A request is noted just where it is submitted, and settling syncs what was noted: a request that isn't submitted isn't kept. One
/// that is too long for the log, or for which that has no memory, is refused.
impl<D: Disk> Host for Durable<D> {
    ghost use Rattle.std.specs.Prelude.{ℕ};
    ghost use Rattle.durable.specs.Settled.{kept_by, Lasts, Settles, lasts_unwritten};

    ghost world = { λ d. d.world };

    ghost Kept = { ℕ × D };

    ghost kept = { kept_by };

    ghost settles = { Settles D.seen D.may_leave D.failed D.moment D.left_since };

    ghost lasts = { Lasts D.seen D.may_leave D.failed D.moment D.left_since };

    ghost lasts_same = { lasts_unwritten D.seen D.may_leave D.failed D.moment D.left_since D.only_now };

    ghost lasts_settled = { λ old went new s. s.lasts };

    fn topology(&self) -> &Topology {
        self.world.topology()
    }

    fn ask(&mut self, index: u16, op: Op) -> Result<Outcome, Fault> {
        ask_keeping(self.alloc, &mut self.world, &mut self.log, index, op)
    }

    fn settle(&mut self) -> Result<(), Fault> {
        match self.log.commit() {
            Ok(()) => {}
            Err(_) => return Err(Fault::WriteFailed),
        }
        Ok(())
    }
}

impl<D: Disk + Drop> Housed for Durable<D> {
    fn is_quiet(&self) -> bool {
        self.world.is_quiet()
    }

    /// It is noted which shards collect; where there is no memory for that, they don't.
    fn rest(&mut self) {
        let _unrested = rest_keeping(self.alloc, &mut self.world, &mut self.log);
    }

    fn holdings(&self) -> Holdings {
        self.world.holdings()
    }

    fn promise(&self) {
        let _promises = self.world.topology();
    }

    fn close(self) {
        let Durable {
            alloc: _,
            world,
            log: _log,
            found: _,
        } = self;
        world.close();
    }
}
