//! A site whose steps are kept in a log.
ghost use Rattle.std.specs.Prelude.{◌≡◌, ◌&&◌, ◌⊎◌, ◌<◌, true, false, None, IfOk, OnOk, IfErr, OnErr};
ghost use Rattle.logical_time.specs.declared.fault.Fault.TheVariants.{Memory, StrangerEnd};
ghost use Rattle.messages.specs.Topology.{is_topology, is_session, is_shard};
ghost use Rattle.messages.specs.declared.event.ActorEvent.TheVariants.{Submit, Collect};
ghost use Rattle.site.specs.Story.{Heard, is_here, may_come};
ghost use Rattle.site.specs.Sites.{IsStory, IsSound};
ghost use Rattle.site.specs.Steps.{steps};
ghost use Rattle.site.specs.Turns.{goes_on, clock_in, HasDone, HasSubmitted, HasTurned, HasGiven, IsRefused, IsTurnRefused};
ghost use Rattle.site_ledger.specs.declared.entry.Entry.TheVariants.{Met};
ghost use Rattle.durable_site.specs.Settled.{SettlesLog};
ghost use Rattle.durable_site.specs.Kept.{KeepsSteps, is_kept};
ghost use Rattle.durable_site.specs.Logged.{NotesToo, whose_of};

use crate::identity::Identity;
use crate::keeping::{collect_keeping, hear_keeping, submit_keeping, turn_keeping};
use crate::step_log::StepLog;
use actors::Machine;
use disk::Disk;
use logical_time::{Fault, Node, Time};
use messages::{Envelope, Op, Outcome, Topology};
use site::{Site, Submitted, Turn};
use std::alloc::Global;
use std::marker::Model;

/// A site, and the log of its steps, if it keeps one. What happened is noted, and is on the disk for good once it has settled; the
/// log tells all its steps, as long as the disk hasn't failed. It must be closed.
pub struct DurableSite<M: Machine, D: Disk> {
    pub(crate) site: Site<M>,
    pub(crate) identity: Identity,
    pub(crate) log: Option<StepLog<D>>,
}

impl<M: Machine, D: Disk> Model for DurableSite<M, D> {
    ghost use Rattle.durable_site.specs.Kept.{DurableSiteValue, KeepsSteps};

    ghost Value = { DurableSiteValue D };

    ghost view = { λ d. record { site = d.site; identity = d.identity; log = d.log } };

    ghost invariant = { λ d. KeepsSteps D.seen D.may_leave D.failed (record { site = d.site; identity = d.identity; log = d.log }) };
}

impl<M: Machine, D: Disk> DurableSite<M, D> {
    /// A site that keeps no log.
    pub fn without_log(site: Site<M>, identity: Identity) -> DurableSite<M, D>
        ensures { result ≡ record { site = site; identity = identity; log = None } }
    {
        DurableSite {
            site,
            identity,
            log: None,
        }
    }

    /// A session submits an operation, as `Site::submit` says, and that is noted. Refused as that is, and with `Memory` where there is
    /// none to note it, or the operation is too long for a frame; then the site stays.
    pub fn submit(&mut self, alloc: Global, node: Node, op: Op) -> Result<Submitted, Fault>
        requires session { is_session self.old.site.top node ≡ true }
        requires here { is_here self.old.site.top self.old.site.dc node ≡ true }
        ensures submitted { IfOk result (λ r. HasSubmitted self.old.site node op r self.new.site) }
        ensures sound { OnOk result (self.old.site.sound ≡ true) }
        ensures refused { IfErr result (λ e. IsRefused M.refuses self.old.site node (Submit op) e self.new.site) }
        ensures identity { self.new.identity ≡ self.old.identity }
        ensures kept { is_kept self.new ≡ is_kept self.old }
    {
        match &mut self.log {
            None => self.site.submit(alloc, node, op),
            Some(log) => submit_keeping(alloc, &mut self.site, log, node, op),
        }
    }

    /// A shard collects up to a time, as `Site::collect` says, and that is noted. Refused as that is, and with `Memory` where there is
    /// none to note it; then the site stays.
    pub fn collect(
        &mut self,
        alloc: Global,
        node: Node,
        time: Time,
    ) -> Result<Option<(u64, Outcome)>, Fault>
        requires shard { is_shard self.old.site.top node ≡ true }
        requires here { is_here self.old.site.top self.old.site.dc node ≡ true }
        ensures collected { IfOk result (λ ended. HasDone self.old.site node (Collect time) ended self.new.site) }
        ensures sound { OnOk result (self.old.site.sound ≡ true) }
        ensures refused { IfErr result (λ e. IsRefused M.refuses self.old.site node (Collect time) e self.new.site) }
        ensures identity { self.new.identity ≡ self.old.identity }
        ensures kept { is_kept self.new ≡ is_kept self.old }
    {
        match &mut self.log {
            None => self.site.collect(alloc, node, time),
            Some(log) => collect_keeping(alloc, &mut self.site, log, node, time),
        }
    }

    /// The first envelope that waits is handled, as `Site::turn` says, and that is counted. Refused as that is, and with `Memory` where
    /// there is none to note a full count; then the site stays.
    pub fn turn(&mut self, alloc: Global) -> Result<Turn, Fault>
        ensures turned { IfOk result (λ t. HasTurned self.old.site t self.new.site) }
        ensures sound { OnOk result (self.old.site.sound ≡ true) }
        ensures refused { IfErr result (λ e. IsTurnRefused M.refuses self.old.site e self.new.site) }
        ensures identity { self.new.identity ≡ self.old.identity }
        ensures kept { is_kept self.new ≡ is_kept self.old }
    {
        match &mut self.log {
            None => self.site.turn(alloc),
            Some(log) => turn_keeping(alloc, &mut self.site, log),
        }
    }

    /// An envelope comes from another data centre, as `Site::hear` says, and that is noted. Refused as that is, and with `Memory` where
    /// there is none to note it, or the envelope has no parcel; then the site stays, and the envelope is handed back.
    pub fn hear(
        &mut self,
        alloc: Global,
        from: u16,
        envelope: Envelope,
    ) -> Result<(), (Fault, Envelope)>
        ensures heard { OnOk result (self.new.site ≡ goes_on self.old.site (Heard from envelope)) }
        ensures allowed { OnOk result ((self.old.site.sound ≡ true) × (may_come self.old.site.top self.old.site.dc from envelope ≡ true)) }
        ensures same { OnErr result (self.new.site ≡ self.old.site) }
        ensures fault { IfErr result (λ e. (e.0 ≡ Memory) ⊎ ((e.0 ≡ StrangerEnd) × ((self.old.site.sound ≡ false) ⊎ (may_come self.old.site.top self.old.site.dc from envelope ≡ false)))) }
        ensures back { IfErr result (λ e. e.1 ≡ envelope) }
        ensures identity { self.new.identity ≡ self.old.identity }
        ensures kept { is_kept self.new ≡ is_kept self.old }
    {
        match &mut self.log {
            None => self.site.hear(alloc, from, envelope),
            Some(log) => hear_keeping(alloc, &mut self.site, log, from, envelope),
        }
    }

    /// The next envelope that is to go to another site, as `Site::give` says. Nothing is noted: what a site gave isn't known to the one
    /// that comes back.
    pub fn give(&mut self, alloc: Global) -> Result<Option<Envelope>, Fault>
        ensures given { IfOk result (λ e. HasGiven self.old.site e self.new.site) }
        ensures sound { OnOk result (self.old.site.sound ≡ true) }
        ensures same { OnErr result (self.new.site ≡ self.old.site) }
        ensures fault { IfErr result (λ e. (e ≡ Memory) ⊎ ((e ≡ StrangerEnd) × (self.old.site.sound ≡ false))) }
        ensures identity { self.new.identity ≡ self.old.identity }
        ensures log { self.new.log ≡ self.old.log }
    {
        self.site.give(alloc)
    }

    /// The site of another data centre was met, and is the process of this incarnation: that is noted, behind the turns that were counted.
    /// Where no log is kept it does nothing. Refused with `Memory`; then at most these turns are noted.
    pub fn note_met(&mut self, alloc: Global, dc: u16, incarnation: &[u8; 16]) -> Result<(), Fault>
        ensures noted { OnOk result (NotesToo D.seen D.may_leave self.old.log (Met dc incarnation.now) self.new.log) }
        ensures memory { IfErr result (λ e. e ≡ Memory) }
        ensures same { self.new.site ≡ self.old.site }
        ensures identity { self.new.identity ≡ self.old.identity }
        ensures kept { is_kept self.new ≡ is_kept self.old }
    {
        let Some(log) = &mut self.log else {
            return Ok(());
        };
        log.note_met(alloc, dc, incarnation)
    }

    /// All that happened is on the disk for good, where this isn't refused: nothing is to leave the process before. A crash at any moment
    /// leaves what was settled before, and nothing that didn't happen. Where no log is kept it does nothing. Refused with `WriteFailed`
    /// where the disk fails, and with `Memory`; always once the disk has failed.
    pub fn settle(&mut self, alloc: Global) -> Result<(), Fault>
        ensures same { self.new.site ≡ self.old.site }
        ensures identity { self.new.identity ≡ self.old.identity }
        ensures settles { SettlesLog D.seen D.may_leave D.failed D.moment D.left_since (whose_of self.old.identity) (steps self.old.site.story) (is_kept self.old) result (is_kept self.new) }
    {
        let Some(log) = &mut self.log else {
            return Ok(());
        };
        log.settle(alloc)
    }

    /// All steps are told by the log, as long as its disk hasn't failed. Does nothing; its contract is the law.
    pub fn is_logged(&self)
        ensures { KeepsSteps D.seen D.may_leave D.failed self.now }
    {
        let _log = &self.log;
    }

    /// Which process it is of.
    pub fn identity(&self) -> Identity
        ensures { result ≡ self.now.identity }
    {
        self.identity
    }

    /// As `Site::is_sound` says.
    pub fn is_sound(&self) -> bool
        ensures value { result ≡ self.now.site.sound }
        ensures story { IsStory M.came_from M.untaken self.now.site.top self.now.site.dc self.now.site.story }
        ensures sound { result ≡ true → IsSound M.came_from M.untaken self.now.site.top self.now.site.dc self.now.site.story }
    {
        self.site.is_sound()
    }

    /// Which actors there are.
    pub fn topology(&self) -> &Topology
        ensures value { result.now ≡ self.now.site.top }
        ensures limits { is_topology self.now.site.top.dcs self.now.site.top.shards self.now.site.top.homes ≡ true }
    {
        self.site.topology()
    }

    /// The data centre of which it is the site.
    pub fn dc(&self) -> u16
        ensures value { result ≡ self.now.site.dc }
        ensures there { result < self.now.site.top.dcs }
    {
        self.site.dc()
    }

    /// Whether the node is that of a session which is here.
    pub fn has_session(&self, node: Node) -> bool
        ensures { result ≡ (is_session self.now.site.top node && is_here self.now.site.top self.now.site.dc node) }
    {
        self.site.has_session(node)
    }

    /// The clock of an actor, as `Site::clock_of` says. That it is here is the caller's condition.
    pub fn clock_of(&self, node: Node) -> u64
        requires { is_here self.now.site.top self.now.site.dc node ≡ true }
        ensures { result ≡ clock_in self.now.site.story node }
    {
        self.site.clock_of(node)
    }
}

impl<M: Machine, D: Disk + Drop> DurableSite<M, D> {
    /// Ends the site. What hasn't settled is lost.
    pub fn close(self) {
        let DurableSite {
            site,
            identity: _,
            log: _log,
        } = self;
        site.close();
    }
}
