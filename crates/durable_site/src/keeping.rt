//! What a site does, and notes.
ghost use Rattle.std.specs.Prelude.{◌≡◌, ◌⊎◌, true, false, IfOk, OnOk, IfErr, OnErr};
ghost use Rattle.messages.specs.Topology.{is_session, is_shard};
ghost use Rattle.messages.specs.declared.event.ActorEvent.TheVariants.{Submit, Collect};
ghost use Rattle.site.specs.Story.{Heard, is_here, may_come};
ghost use Rattle.site.specs.Steps.{steps};
ghost use Rattle.site.specs.Turns.{goes_on, HasDone, HasSubmitted, HasTurned, IsRefused, IsTurnRefused};
ghost use Rattle.site_ledger.specs.declared.entry.Entry.{Entry};
ghost use Rattle.durable_site.specs.Logged.{IsLogged};
ghost use Rattle.durable_site.specs.Stuck.{count_of};

use crate::step_log::{StepLog, note_asked, note_came, note_collected, take_back};
use actors::Machine;
use disk::Disk;
use logical_time::{Fault, Node, Time};
use messages::{Envelope, Op, Outcome};
use site::{Site, Submitted, Turn};
use std::alloc::Global;

/// How many steps a turn is.
pub(crate) fn counted(turn: &Turn) -> u32
    ensures { result ≡ count_of turn.now }
{
    match turn {
        Turn::Idle => 0,
        Turn::Handled | Turn::Ended { .. } => 1,
    }
}

/// `Site::submit`, which is noted before. The note is taken back where the site stays as it was.
pub(crate) fn submit_keeping<M: Machine, D: Disk>(
    alloc: Global,
    site: &mut Site<M>,
    log: &mut StepLog<D>,
    node: Node,
    op: Op,
) -> Result<Submitted, Fault>
    requires session { is_session site.old.top node ≡ true }
    requires here { is_here site.old.top site.old.dc node ≡ true }
    ensures submitted { IfOk result (λ r. HasSubmitted site.old node op r site.new) }
    ensures sound { OnOk result (site.old.sound ≡ true) }
    ensures refused { IfErr result (λ e. IsRefused M.refuses site.old node (Submit op) e site.new) }
    ensures disk { log.new.log.disk ≡ log.old.log.disk }
    ensures secret { log.new.log.secret ≡ log.old.log.secret }
    // if the log told all steps before, it still does
    ensures logged { (whose : Entry) → IsLogged D.seen D.may_leave whose log.old (steps site.old.story) → IsLogged D.seen D.may_leave whose log.new (steps site.new.story) }
{
    if !site.is_sound() {
        return Err(Fault::StrangerEnd);
    }
    log.note_turns(alloc)?;
    let mark = note_asked(alloc, &mut log.log, node, &op)?;
    match site.submit(alloc, node, op) {
        Ok(submitted) => Ok(submitted),
        Err(fault) if site.is_sound() => {
            take_back(&mut log.log, mark);
            Err(fault)
        }
        Err(fault) => Err(fault),
    }
}

/// `Site::collect`, which is noted before. The note is taken back where the site stays as it was.
pub(crate) fn collect_keeping<M: Machine, D: Disk>(
    alloc: Global,
    site: &mut Site<M>,
    log: &mut StepLog<D>,
    node: Node,
    time: Time,
) -> Result<Option<(u64, Outcome)>, Fault>
    requires shard { is_shard site.old.top node ≡ true }
    requires here { is_here site.old.top site.old.dc node ≡ true }
    ensures collected { IfOk result (λ ended. HasDone site.old node (Collect time) ended site.new) }
    ensures sound { OnOk result (site.old.sound ≡ true) }
    ensures refused { IfErr result (λ e. IsRefused M.refuses site.old node (Collect time) e site.new) }
    ensures disk { log.new.log.disk ≡ log.old.log.disk }
    ensures secret { log.new.log.secret ≡ log.old.log.secret }
    // if the log told all steps before, it still does
    ensures logged { (whose : Entry) → IsLogged D.seen D.may_leave whose log.old (steps site.old.story) → IsLogged D.seen D.may_leave whose log.new (steps site.new.story) }
{
    if !site.is_sound() {
        return Err(Fault::StrangerEnd);
    }
    log.note_turns(alloc)?;
    let mark = note_collected(alloc, &mut log.log, node, time)?;
    match site.collect(alloc, node, time) {
        Ok(ended) => Ok(ended),
        Err(fault) if site.is_sound() => {
            take_back(&mut log.log, mark);
            Err(fault)
        }
        Err(fault) => Err(fault),
    }
}

/// `Site::turn`, which is counted where an envelope was handled.
pub(crate) fn turn_keeping<M: Machine, D: Disk>(
    alloc: Global,
    site: &mut Site<M>,
    log: &mut StepLog<D>,
) -> Result<Turn, Fault>
    ensures turned { IfOk result (λ t. HasTurned site.old t site.new) }
    ensures sound { OnOk result (site.old.sound ≡ true) }
    ensures refused { IfErr result (λ e. IsTurnRefused M.refuses site.old e site.new) }
    ensures disk { log.new.log.disk ≡ log.old.log.disk }
    ensures secret { log.new.log.secret ≡ log.old.log.secret }
    // if the log told all steps before, it still does
    ensures logged { (whose : Entry) → IsLogged D.seen D.may_leave whose log.old (steps site.old.story) → IsLogged D.seen D.may_leave whose log.new (steps site.new.story) }
{
    if !site.is_sound() {
        return Err(Fault::StrangerEnd);
    }
    log.make_room(alloc)?;
    match site.turn(alloc) {
        Ok(turn) => {
            log.turned += counted(&turn);
            Ok(turn)
        }
        Err(fault) if site.is_sound() => Err(fault),
        Err(fault) => {
            log.turned += 1;
            Err(fault)
        }
    }
}

/// `Site::hear`, which is noted before. The note is taken back where that is refused.
pub(crate) fn hear_keeping<M: Machine, D: Disk>(
    alloc: Global,
    site: &mut Site<M>,
    log: &mut StepLog<D>,
    from: u16,
    envelope: Envelope,
) -> Result<(), (Fault, Envelope)>
    ensures heard { OnOk result (site.new ≡ goes_on site.old (Heard from envelope)) }
    ensures allowed { OnOk result ((site.old.sound ≡ true) × (may_come site.old.top site.old.dc from envelope ≡ true)) }
    ensures same { OnErr result (site.new ≡ site.old) }
    ensures fault { IfErr result (λ e. (e.0 ≡ Fault.Memory) ⊎ ((e.0 ≡ Fault.StrangerEnd) × ((site.old.sound ≡ false) ⊎ (may_come site.old.top site.old.dc from envelope ≡ false)))) }
    ensures back { IfErr result (λ e. e.1 ≡ envelope) }
    ensures disk { log.new.log.disk ≡ log.old.log.disk }
    ensures secret { log.new.log.secret ≡ log.old.log.secret }
    // if the log told all steps before, it still does
    ensures logged { (whose : Entry) → IsLogged D.seen D.may_leave whose log.old (steps site.old.story) → IsLogged D.seen D.may_leave whose log.new (steps site.new.story) }
{
    if let Err(fault) = log.note_turns(alloc) {
        return Err((fault, envelope));
    }
    let mark = match note_came(alloc, &mut log.log, from, &envelope) {
        Ok(mark) => mark,
        Err(fault) => return Err((fault, envelope)),
    };
    match site.hear(alloc, from, envelope) {
        Ok(()) => Ok(()),
        Err(refused) => {
            take_back(&mut log.log, mark);
            Err(refused)
        }
    }
}
