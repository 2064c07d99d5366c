//! Scripts are run by threads.
ghost use Rattle.std.specs.Prelude.{◌≡◌, ◌↔◌, ◌⊎◌, true, All, Some, IfOk, IfErr};
ghost use Rattle.actors.specs.Resting.{IsResting};
ghost use Rattle.workload.specs.Audited.{status_of};
ghost use Rattle.running.specs.Performing.{IsThreadTold};
ghost use Rattle.running.specs.Running.{IsThreadTranscriptOf, IsToldOf, IsThreadAudited};
ghost use Rattle.running.specs.Faults.{first_fault, IsTold, IsToldAs, AreOfScript, IsEndedBy, IsRunRefused};

use crate::auditing::audit_of;
use crate::crew::Crew;
use crate::finishing::finish;
use crate::seats::{close_all, seats_of};
use crate::telling::tell;
use actors::{Seat, Shift};
use logical_time::Fault;
use std::alloc::Global;
use std::sync::Wait;
use std::thread::Threads;
use threaded::{Actor, Concluded, conclude};
use workload::{Audit, Script, Tail, Transcript};

/// What seats that rest made of a script, and what they conclude. That they rest is the caller's condition. Refused with
/// `StrangerEnd` exactly where they aren't of a run of the script in which all that was sent was received, and with `Memory`; then
/// they are ended.
fn concluded_from(
    alloc: Global,
    script: &Script,
    seats: Vec<Seat<Actor>>,
) -> Result<(Transcript, Concluded), Fault>
    requires { All IsResting seats.items }
    ensures told { IfOk result (λ told. IsToldOf script.now told.1 told.0) }
    ensures of { IfOk result (λ told. AreOfScript script.now seats.items) }
    ensures refused { IfErr result (λ e. (e ≡ Fault.Memory) ⊎ ((e ≡ Fault.StrangerEnd) × (AreOfScript script.now seats.items → ⊥))) }
{
    match conclude(alloc, seats) {
        Ok(concluded) => match tell(alloc, script, &concluded) {
            Ok(transcript) => Ok((transcript, concluded)),
            Err(fault) => {
                concluded.close();
                Err(fault)
            }
        },
        Err((fault, seats)) => {
            close_all(seats);
            Err(fault)
        }
    }
}

/// Whether a fault is told as it is.
fn is_told(fault: Fault) -> bool
    ensures { (result ≡ true) ↔ IsTold fault }
{
    fault == Fault::Memory || fault == Fault::ClockSpent || fault == Fault::JournalFull
}

/// The fault that is told for one with which a seat refuses.
fn known(fault: Fault) -> Fault
    ensures { IsToldAs fault result }
{
    if is_told(fault) {
        return fault;
    }
    Fault::StrangerEnd
}

/// What seats that came back made of a script, once what is left is done. Refused with `ClockSpent` and `JournalFull` only where
/// a seat refuses with it then, with `StrangerEnd` where one refuses with another fault, or where they aren't of a run of the
/// script in which all that was sent was received, and with `Memory`; then they are ended.
fn made_of(
    alloc: Global,
    script: &Script,
    shifts: &[Shift],
    mut seats: Vec<Seat<Actor>>,
) -> Result<(Transcript, Concluded), Fault>
    ensures told { IfOk result (λ told. IsToldOf script.now told.1 told.0) }
    ensures refused { IfErr result (IsEndedBy script.now seats.items) }
    ensures heard { first_fault shifts.now ≡ Some Fault.Memory → IfOk result (λ told. ⊥) × IfErr result (λ e. e ≡ Fault.Memory) }
{
    match finish(shifts, seats.as_mut_slice()) {
        Ok(()) => concluded_from(alloc, script, seats),
        Err(fault) => {
            close_all(seats);
            Err(known(fault))
        }
    }
}

/// Runs a script by a crew, concludes what it did, and tells it.
fn run_by<R: Threads + Wait + Sync, C: Crew>(
    rt: &R,
    alloc: Global,
    script: &Script,
    crew: &C,
) -> Result<(Transcript, Concluded), Fault>
    ensures told { IfOk result (λ told. IsToldOf script.now told.1 told.0) }
    ensures refused { IfErr result (IsRunRefused C.brings script.now) }
{
    let seats = seats_of(alloc, script)?;
    let (report, seats) = crew.go_round(rt, alloc, seats)?;
    made_of(alloc, script, report.shifts.as_slice(), seats)
}

/// Runs a script by a crew: so many workers. Each session's operations, in order, are the backlog of its seat, and each
/// collection that of its shard's; deliveries and drains are left out, since the threads deliver by themselves. Each worker takes
/// at most 10,000,000 turns; then turns are taken until a whole round does nothing, and the journals are compared. The
/// transcript has the outcomes and refusals of one session after the other, each session's in order. Waits for locks. Refused
/// with `Memory`; with `ClockSpent` or `JournalFull` only where a seat that came back refuses with it; with `StrangerEnd` only where
/// one refuses with another fault, or where what came back isn't of a run of the script in which all that was sent was received.
/// Costs what the turns cost, a comparison of each envelope, for each actor two walks through the script and two through its
/// journal, and in the order of n³ looks for n actors.
#[tactic(auto, using(crate::proofs::Audits::is_told))]
pub fn run<R: Threads + Wait + Sync, C: Crew>(
    rt: &R,
    alloc: Global,
    script: &Script,
    crew: &C,
) -> Result<Transcript, Fault>
    ensures told { IfOk result (IsThreadTranscriptOf script.now) }
    ensures refused { IfErr result (IsRunRefused C.brings script.now) }
{
    let (transcript, concluded) = run_by(rt, alloc, script, crew)?;
    concluded.close();
    Ok(transcript)
}

/// Runs a script as `run` does, and audits what it came to: how many of its reads were answered, and how many of these wrong: none
/// is. Refused as `run` is. Costs what `run` costs, the history of each data centre, a copy of each operation that ended, and
/// `audit` over them.
pub fn run_audited<R: Threads + Wait + Sync, C: Crew>(
    rt: &R,
    alloc: Global,
    script: &Script,
    crew: &C,
) -> Result<(Transcript, Audit), Fault>
    ensures told { IfOk result (λ r. IsThreadAudited script.now r.0 r.1) }
    // each read shows the one table of its home
    ensures right { IfOk result (λ r. r.1.wrong ≡ 0) }
    ensures refused { IfErr result (IsRunRefused C.brings script.now) }
{
    let (transcript, concluded) = run_by(rt, alloc, script, crew)?;
    let found = audit_of(rt, alloc, &concluded);
    concluded.close();
    Ok((transcript, found?))
}

// The same as `run` for a program that ends with it: the memory of what the seats recorded is given back with that of the process.
#[tactic(auto, using(crate::proofs::Audits::is_told))]
fn run_to_the_end<R: Threads + Wait + Sync, C: Crew>(
    rt: &R,
    alloc: Global,
    script: &Script,
    crew: &C,
) -> Result<Transcript, Fault>
    ensures told { IfOk result (IsThreadTranscriptOf script.now) }
    ensures refused { IfErr result (IsRunRefused C.brings script.now) }
{
    let (transcript, concluded) = run_by(rt, alloc, script, crew)?;
    concluded.leave();
    Ok(transcript)
}

/// What threads make of a script, for a program that ends with it, and what an audit of that finds, where it is asked for.
#[tactic(auto, using(crate::proofs::Audits::is_told_audited))]
pub(crate) fn told_by<R: Threads + Wait + Sync, C: Crew>(
    rt: &R,
    alloc: Global,
    script: &Script,
    crew: &C,
    audit: bool,
) -> Result<(Transcript, Tail), Fault>
    ensures told { IfOk result (λ r. IsThreadTold audit script.now r.0 r.1) }
    ensures right { IfOk result (λ r. status_of r.1 ≡ 0) }
    ensures refused { IfErr result (IsRunRefused C.brings script.now) }
{
    if audit {
        let (transcript, found) = run_audited(rt, alloc, script, crew)?;
        Ok((transcript, Tail::Audited(found)))
    } else {
        Ok((run_to_the_end(rt, alloc, script, crew)?, Tail::Nothing))
    }
}
