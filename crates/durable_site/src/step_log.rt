//! A log of steps.
ghost use Rattle.std.specs.Prelude.{◌≡◌, ◌<◌, ◌^◌, ◌+◌, ◌++◌, ◌∷◌, [], false, List, length, IfOk, IfErr, OnOk, OnErr};
ghost use Rattle.logical_time.specs.declared.fault.Fault.TheVariants.{Memory};
ghost use Rattle.site.specs.Steps.{Step, Turned};
ghost use Rattle.site_ledger.specs.declared.entry.Entry.{Entry};
ghost use Rattle.site_ledger.specs.declared.entry.Entry.TheVariants.{Asked, Came, Collected, Met};
ghost use Rattle.site_ledger.specs.Entries.{IsTextOf, IsNumbered};
ghost use Rattle.durable_site.specs.Logged.{Notes, NotesLast, IsLogged, turns_noted, whose_of};
ghost use Rattle.durable_site.specs.Settled.{Settles, kept_by};

use crate::identity::Identity;
use disk::{Disk, DiskError};
use keeper::Log;
use logical_time::{Fault, Node, Time};
use messages::{Envelope, Op};
use site_ledger::{asked_text, came_text, collected_text, met_text, turned_text, whose_text};
use std::alloc::Global;

/// A log, and how many envelopes were handled since its last entry.
#[derive(Drop)]
pub(crate) struct StepLog<D: Disk> {
    pub(crate) log: Log<D>,
    pub(crate) turned: u32,
}

// Notes a text, and gives its mark. Refused with `Memory`; then nothing is noted.
fn note<D: Disk>(log: &mut Log<D>, text: &[u8]) -> Result<usize, Fault>
    requires { length text.now < 256 ^ 4 }
    ensures ok { IfOk result (λ mark. (es : List Entry) (e : Entry) → Notes D.seen D.may_leave log.old es → IsNumbered e → IsTextOf e text.now → NotesLast D.seen D.may_leave log.new mark es e) }
    ensures err { OnErr result ((es : List Entry) → Notes D.seen D.may_leave log.old es → Notes D.seen D.may_leave log.new es) }
    ensures disk { log.new.disk ≡ log.old.disk }
    ensures secret { log.new.secret ≡ log.old.secret }
    ensures memory { IfErr result (λ e. e ≡ Memory) }
{
    match log.note(text) {
        Ok(mark) => Ok(mark),
        Err(_) => Err(Fault::Memory),
    }
}

/// Notes what a session is asked, and gives its mark. Refused with `Memory`, also where the operation has no frame; then nothing is
/// noted.
pub(crate) fn note_asked<D: Disk>(
    alloc: Global,
    log: &mut Log<D>,
    session: Node,
    op: &Op,
) -> Result<usize, Fault>
    ensures ok { IfOk result (λ mark. (es : List Entry) → Notes D.seen D.may_leave log.old es → NotesLast D.seen D.may_leave log.new mark es (Asked session op.now)) }
    ensures err { OnErr result ((es : List Entry) → Notes D.seen D.may_leave log.old es → Notes D.seen D.may_leave log.new es) }
    ensures disk { log.new.disk ≡ log.old.disk }
    ensures secret { log.new.secret ≡ log.old.secret }
    ensures memory { IfErr result (λ e. e ≡ Memory) }
{
    let Ok(text) = asked_text(alloc, session.get(), op) else {
        return Err(Fault::Memory);
    };
    match note(log, &text) {
        Ok(mark) => Ok(mark),
        Err(fault) => Err(fault),
    }
}

/// Notes what comes from another data centre, and gives its mark. Refused with `Memory`, also where the envelope has no parcel; then
/// nothing is noted.
pub(crate) fn note_came<D: Disk>(
    alloc: Global,
    log: &mut Log<D>,
    from: u16,
    envelope: &Envelope,
) -> Result<usize, Fault>
    ensures ok { IfOk result (λ mark. (es : List Entry) → Notes D.seen D.may_leave log.old es → NotesLast D.seen D.may_leave log.new mark es (Came from envelope.now)) }
    ensures err { OnErr result ((es : List Entry) → Notes D.seen D.may_leave log.old es → Notes D.seen D.may_leave log.new es) }
    ensures disk { log.new.disk ≡ log.old.disk }
    ensures secret { log.new.secret ≡ log.old.secret }
    ensures memory { IfErr result (λ e. e ≡ Memory) }
{
    let Ok(text) = came_text(alloc, from, envelope) else {
        return Err(Fault::Memory);
    };
    match note(log, &text) {
        Ok(mark) => Ok(mark),
        Err(fault) => Err(fault),
    }
}

/// Notes that a shard collects, and gives its mark. Refused with `Memory`; then nothing is noted.
pub(crate) fn note_collected<D: Disk>(
    alloc: Global,
    log: &mut Log<D>,
    shard: Node,
    time: Time,
) -> Result<usize, Fault>
    ensures ok { IfOk result (λ mark. (es : List Entry) → Notes D.seen D.may_leave log.old es → NotesLast D.seen D.may_leave log.new mark es (Collected shard time)) }
    ensures err { OnErr result ((es : List Entry) → Notes D.seen D.may_leave log.old es → Notes D.seen D.may_leave log.new es) }
    ensures disk { log.new.disk ≡ log.old.disk }
    ensures secret { log.new.secret ≡ log.old.secret }
    ensures memory { IfErr result (λ e. e ≡ Memory) }
{
    let text = collected_text(alloc, shard.get(), time)?;
    match note(log, &text) {
        Ok(mark) => Ok(mark),
        Err(fault) => Err(fault),
    }
}

/// Notes whose log it is, behind nothing. Refused with `Memory`; then nothing is noted.
pub(crate) fn note_whose<D: Disk>(
    alloc: Global,
    log: &mut Log<D>,
    identity: &Identity,
) -> Result<(), Fault>
    ensures ok { OnOk result (Notes D.seen D.may_leave log.old [] → Notes D.seen D.may_leave log.new (whose_of identity.now ∷ [])) }
    ensures disk { log.new.disk ≡ log.old.disk }
    ensures secret { log.new.secret ≡ log.old.secret }
    ensures memory { IfErr result (λ e. e ≡ Memory) }
{
    let text = whose_text(alloc, identity.dc, &identity.incarnation, &identity.digest)?;
    match note(log, &text) {
        Ok(_) => Ok(()),
        Err(fault) => Err(fault),
    }
}

/// What was noted last isn't noted after all. Takes no memory.
pub(crate) fn take_back<D: Disk>(log: &mut Log<D>, mark: usize)
    ensures back { (es : List Entry) (e : Entry) → NotesLast D.seen D.may_leave log.old mark es e → Notes D.seen D.may_leave log.new es }
    ensures disk { log.new.disk ≡ log.old.disk }
    ensures secret { log.new.secret ≡ log.old.secret }
{
    log.take_back(mark);
}

impl<D: Disk> StepLog<D> {
    /// Notes how many envelopes were handled since the last entry, if any were. Refused with `Memory`; then nothing is noted.
    pub(crate) fn note_turns(&mut self, alloc: Global) -> Result<(), Fault>
        ensures logged { (whose : Entry) (all : List Step) → IsLogged D.seen D.may_leave whose self.old all → IsLogged D.seen D.may_leave whose self.new all }
        ensures none { OnOk result (self.new.turned ≡ 0) }
        ensures noted { OnOk result ((es : List Entry) → Notes D.seen D.may_leave self.old.log es → Notes D.seen D.may_leave self.new.log (es ++ turns_noted self.old.turned)) }
        ensures disk { self.new.log.disk ≡ self.old.log.disk }
        ensures secret { self.new.log.secret ≡ self.old.log.secret }
        ensures memory { IfErr result (λ e. e ≡ Memory) }
    {
        if self.turned == 0 {
            return Ok(());
        }
        let text = turned_text(alloc, self.turned)?;
        match note(&mut self.log, &text) {
            Ok(_) => {
                self.turned = 0;
                Ok(())
            }
            Err(fault) => Err(fault),
        }
    }

    /// Notes that the site of a data centre was met, and is this process, behind the turns since the last entry. Refused with `Memory`;
    /// then at most these are noted.
    pub(crate) fn note_met(
        &mut self,
        alloc: Global,
        dc: u16,
        incarnation: &[u8; 16],
    ) -> Result<(), Fault>
        ensures logged { (whose : Entry) (all : List Step) → IsLogged D.seen D.may_leave whose self.old all → IsLogged D.seen D.may_leave whose self.new all }
        ensures noted { OnOk result ((es : List Entry) → Notes D.seen D.may_leave self.old.log es → Notes D.seen D.may_leave self.new.log (es ++ (turns_noted self.old.turned ++ Met dc incarnation.now ∷ []))) }
        ensures disk { self.new.log.disk ≡ self.old.log.disk }
        ensures secret { self.new.log.secret ≡ self.old.log.secret }
        ensures memory { IfErr result (λ e. e ≡ Memory) }
    {
        self.note_turns(alloc)?;
        let text = met_text(alloc, dc, incarnation)?;
        match note(&mut self.log, &text) {
            Ok(_) => Ok(()),
            Err(fault) => Err(fault),
        }
    }

    /// One more turn can be counted: a full count is noted. Refused with `Memory`; then nothing is noted.
    pub(crate) fn make_room(&mut self, alloc: Global) -> Result<(), Fault>
        ensures logged { (whose : Entry) (all : List Step) → IsLogged D.seen D.may_leave whose self.old all → IsLogged D.seen D.may_leave whose self.new all }
        ensures room { OnOk result (self.new.turned + 1 < 2 ^ 32) }
        ensures disk { self.new.log.disk ≡ self.old.log.disk }
        ensures secret { self.new.log.secret ≡ self.old.log.secret }
        ensures memory { IfErr result (λ e. e ≡ Memory) }
    {
        if self.turned == u32::MAX {
            self.note_turns(alloc)?;
        }
        Ok(())
    }

    /// All that was done is on the disk for good, where this isn't refused. A crash at any moment leaves what was settled before, and
    /// nothing that wasn't done. Refused with `WriteFailed`, where the disk fails, and with `Memory`; always once the disk has failed.
    pub(crate) fn settle(&mut self, alloc: Global) -> Result<(), Fault>
        ensures settles { (whose : Entry) (all : List Step) → (D.failed self.old.log.disk ≡ false → IsLogged D.seen D.may_leave whose self.old all) → Settles D.seen D.may_leave D.failed D.moment D.left_since whose all (kept_by self.old) result (kept_by self.new) }
        ensures logged { (whose : Entry) (all : List Step) → (D.failed self.old.log.disk ≡ false → IsLogged D.seen D.may_leave whose self.old all) → D.failed self.new.log.disk ≡ false → IsLogged D.seen D.may_leave whose self.new all }
    {
        self.note_turns(alloc)?;
        match self.log.commit() {
            Ok(()) => Ok(()),
            Err(DiskError::Failed) => Err(Fault::WriteFailed),
            Err(DiskError::Memory) => Err(Fault::Memory),
        }
    }
}
