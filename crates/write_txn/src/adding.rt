//! Transactions of which nothing was known: what is under way of them, and their marks.
//!
//! Marking can be refused, so the rows are marked first. Where the ledger refuses then, the marks are taken away again.
ghost use Rattle.std.specs.Prelude.{◌≡◌, true, [], if◌then◌else◌, OnOk, OnErr, IfErr, IfOk, IfSome, None, Some};
ghost use Rattle.logical_time.specs.declared.fault.Fault.TheVariants as fault;
ghost use Rattle.pending.specs.Marked.{AreMarked};
ghost use Rattle.write_txn.specs.declared.open.Open.TheVariants as in_open;
ghost use Rattle.write_txn.specs.Ledger.{state_of, txn_of, part_of, Holds, Becomes, HaveSameStates, state_ready, readied_by};
ghost use Rattle.write_txn.specs.Marking.{AreMarksBut, IsMarkedWithin, is_to_vote, is_part, is_led, is_kept, is_remote};
ghost use Rattle.write_txn.specs.Transactions.{AreMarksOf, cohorts_part};

use crate::ledger::Ledger;
use crate::open::{CohortPart, Led, Open, Origin, Remote, ReplicatedPart};
use logical_time::{Fault, Time};
use pending::Marks;
use txn_state::{Complete, RemoteBallot, WritePart};

/// The part of a cohort that is prepared.
fn into_part(held: Open) -> WritePart
    requires { is_part held ≡ true }
    ensures { result ≡ part_of held }
{
    let Open::Part(part) = held else {
        unreachable!()
    };
    let (part, _) = part.into_prepared().surrender();
    part
}

/// The ballot that is under way.
fn into_led(held: Open) -> Led
    requires { is_led held ≡ true }
    ensures { in_open.Led result ≡ held }
{
    let Open::Led(led) = held else { unreachable!() };
    led
}

/// The part that is kept.
fn into_kept(held: Open) -> ReplicatedPart
    requires { is_kept held ≡ true }
    ensures { in_open.Kept result ≡ held }
{
    let Open::Kept(kept) = held else {
        unreachable!()
    };
    kept
}

/// The ballot that waits.
fn into_remote(held: Open) -> Remote
    requires { is_remote held ≡ true }
    ensures { in_open.Remote result ≡ held }
{
    let Open::Remote(remote) = held else {
        unreachable!()
    };
    remote
}

/// Adds what is under way of a transaction whose rows are marked already, and no other rows. Where it is refused it comes
/// back, and the marks of the transaction are taken away.
fn add_marked(ledger: &mut Ledger, marks: &mut Marks, held: Open) -> Result<(), (Fault, Open)>
    requires unknown { state_of ledger.old (txn_of held) ≡ None }
    requires others { AreMarksBut (txn_of held) marks.old ledger.old }
    requires own { IsMarkedWithin (part_of held).batch (txn_of held) marks.old }
    ensures marks { OnOk result (marks.new ≡ marks.old) }
    ensures cleared { OnErr result (AreMarksOf marks.new ledger.new) }
    ensures ok { OnOk result (Becomes (txn_of held) (Some (Holds held)) ledger.old ledger.new) }
    ensures err { OnErr result (HaveSameStates ledger.old ledger.new) }
    ensures memory { IfErr result (λ e. (e.0 ≡ fault.Memory) × (e.1 ≡ held)) }
{
    let txn = held.txn();
    match ledger.add(held) {
        Ok(()) => Ok(()),
        Err((fault, held)) => {
            marks.clear_rows(held.rows().as_slice(), txn);
            Err((fault, held))
        }
    }
}

/// Adds a cohort's part of a write that was submitted here, prepared at this time.
pub(crate) fn add_part(
    ledger: &mut Ledger,
    marks: &mut Marks,
    part: WritePart,
    time: Time,
) -> Result<(), (Fault, WritePart)>
    requires unknown { state_of ledger.old part.writer.txn ≡ None }
    requires marks { AreMarksOf marks.old ledger.old }
    ensures marks { AreMarksOf marks.new ledger.new }
    ensures ok { OnOk result (Becomes part.writer.txn (Some (Holds (in_open.Part (cohorts_part part time)))) ledger.old ledger.new) }
    ensures err { OnErr result (HaveSameStates ledger.old ledger.new) }
    ensures memory { IfErr result (λ e. (e.0 ≡ fault.Memory) × (e.1 ≡ part)) }
{
    match marks.mark_all(part.batch.as_slice(), part.writer.txn(), time) {
        Ok(()) => {}
        Err(fault) => return Err((fault, part)),
    }
    let held = Open::Part(CohortPart::new(part, time, Origin::Submitted));
    match add_marked(ledger, marks, held) {
        Ok(()) => Ok(()),
        Err((fault, held)) => Err((fault, into_part(held))),
    }
}

/// Adds a ballot whose cohorts are voting.
pub(crate) fn add_led(ledger: &mut Ledger, marks: &mut Marks, led: Led) -> Result<(), (Fault, Led)>
    requires unknown { state_of ledger.old led.ballot.own.part.writer.txn ≡ None }
    requires marks { AreMarksOf marks.old ledger.old }
    ensures marks { AreMarksOf marks.new ledger.new }
    ensures ok { OnOk result (Becomes led.ballot.own.part.writer.txn (Some (Holds (in_open.Led led))) ledger.old ledger.new) }
    ensures err { OnErr result (HaveSameStates ledger.old ledger.new) }
    ensures memory { IfErr result (λ e. (e.0 ≡ fault.Memory) × (e.1 ≡ led)) }
{
    let txn = led.ballot.writer().txn();
    match marks.mark_all(led.ballot.part().as_slice(), txn, led.ballot.time()) {
        Ok(()) => {}
        Err(fault) => return Err((fault, led)),
    }
    match add_marked(ledger, marks, Open::Led(led)) {
        Ok(()) => Ok(()),
        Err((fault, held)) => Err((fault, into_led(held))),
    }
}

/// Adds a part that is kept and not yet prepared.
pub(crate) fn add_kept(
    ledger: &mut Ledger,
    marks: &mut Marks,
    kept: ReplicatedPart,
) -> Result<(), (Fault, ReplicatedPart)>
    requires unknown { state_of ledger.old kept.part.writer.txn ≡ None }
    requires marks { AreMarksOf marks.old ledger.old }
    ensures marks { AreMarksOf marks.new ledger.new }
    ensures ok { OnOk result (Becomes kept.part.writer.txn (Some (Holds (in_open.Kept kept))) ledger.old ledger.new) }
    ensures err { OnErr result (HaveSameStates ledger.old ledger.new) }
    ensures memory { IfErr result (λ e. (e.0 ≡ fault.Memory) × (e.1 ≡ kept)) }
{
    match add_marked(ledger, marks, Open::Kept(kept)) {
        Ok(()) => Ok(()),
        Err((fault, held)) => Err((fault, into_kept(held))),
    }
}

/// Whether a ballot is to be voted on as soon as it is held: nothing is missing, and it has cohorts.
fn is_voted_on(ballot: &RemoteBallot) -> bool
    ensures { result ≡ is_to_vote ballot.now }
{
    ballot.missing() == 0 && !ballot.notices().cohorts().is_empty()
}

/// Marks the rows of a ballot's own part if it is to be voted on as soon as it is held.
fn mark_remote(
    ledger: &Ledger,
    marks: &mut Marks,
    ballot: &RemoteBallot,
    time: Time,
) -> Result<(), Fault>
    requires unknown { state_of ledger.now ballot.now.part.writer.txn ≡ None }
    requires marks { AreMarksOf marks.old ledger.now }
    ensures ok { OnOk result (AreMarked marks.old marks.new (if is_to_vote ballot.now then ballot.now.part.batch else []) ballot.now.part.writer.txn time) }
    ensures err { OnErr result (AreMarksOf marks.new ledger.now) }
    ensures memory { IfErr result (λ e. e ≡ fault.Memory) }
{
    if is_voted_on(ballot) {
        return marks.mark_all(ballot.part().as_slice(), ballot.writer().txn(), time);
    }
    Ok(())
}

/// Adds a ballot of another data centre's write, and makes it ready at this time if nothing is missing.
pub(crate) fn add_remote(
    ledger: &mut Ledger,
    marks: &mut Marks,
    remote: Remote,
    time: Time,
) -> Result<Option<Complete>, (Fault, Remote)>
    requires unknown { state_of ledger.old remote.ballot.part.writer.txn ≡ None }
    requires marks { AreMarksOf marks.old ledger.old }
    ensures marks { AreMarksOf marks.new ledger.new }
    ensures complete { IfOk result (λ c. c ≡ readied_by time (Some (Holds (in_open.Remote remote)))) }
    ensures own { IfOk result (λ c. IfSome c (λ complete. complete.own.part.writer.txn ≡ remote.ballot.part.writer.txn)) }
    ensures ok { OnOk result (Becomes remote.ballot.part.writer.txn (state_ready time (Some (Holds (in_open.Remote remote)))) ledger.old ledger.new) }
    ensures err { OnErr result (HaveSameStates ledger.old ledger.new) }
    ensures memory { IfErr result (λ e. (e.0 ≡ fault.Memory) × (e.1 ≡ remote)) }
{
    let txn = remote.ballot.writer().txn();
    match mark_remote(ledger, marks, &remote.ballot, time) {
        Ok(()) => {}
        Err(fault) => return Err((fault, remote)),
    }
    match add_marked(ledger, marks, Open::Remote(remote)) {
        Ok(()) => Ok(ledger.ready(txn, time)),
        Err((fault, held)) => Err((fault, into_remote(held))),
    }
}
