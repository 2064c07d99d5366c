//! What is left after workers is done.
ghost use Rattle.std.specs.Prelude.{◌≡◌, true, All, Some, OnOk, IfErr};
ghost use Rattle.logical_time.specs.Fault.{IsRefusedFor};
ghost use Rattle.actors.specs.Resting.{IsResting};
ghost use Rattle.actors.specs.Draining.{IsLater, AreLater, OneCanRefuse};
ghost use Rattle.actors.specs.Refusals.{CanRefuse};
ghost use Rattle.threaded.specs.Machines.{Refuses};
ghost use Rattle.running.specs.Faults.{fault_at, first_fault, CanEnd};

use actors::{End, Seat, Shift, drain};
use logical_time::Fault;
use threaded::Actor;

/// The fault with which a worker ended, if it ended with one.
fn fault_of(shift: &Shift) -> Option<Fault>
    ensures { result ≡ fault_at shift.now.end }
{
    match shift.end {
        End::Fault(fault) => Some(fault),
        _ => None,
    }
}

/// The fault of the lowest-numbered of these workers who ended with one.
#[tactic(auto, using(crate::proofs::Faulty::fault_here, crate::proofs::Faulty::fault_later, crate::proofs::Faulty::no_fault))]
fn check(shifts: &[Shift]) -> Result<(), Fault>
    ensures { IsRefusedFor (first_fault shifts.now) result }
{
    for place in 0..shifts.len() {
        if let Some(fault) = fault_of(&shifts[place]) {
            return Err(fault);
        }
    }
    Ok(())
}

/// Whether a turn of the seat is refused with this fault.
fn does_refuse(seat: &mut Seat<Actor>, fault: Fault) -> bool
    ensures later { IsLater seat.old seat.new }
    ensures refused { result ≡ true → CanRefuse Refuses fault seat.new }
{
    match seat.turn() {
        Ok(_) => false,
        Err(refused) => refused == fault,
    }
}

/// Whether a turn of one of the seats is refused with this fault: each takes a turn, until one is.
fn do_refuse(seats: &mut [Seat<Actor>], fault: Fault) -> bool
    ensures later { AreLater seats.old seats.new }
    ensures refused { result ≡ true → OneCanRefuse Refuses fault seats.new }
{
    for place in 0..seats.len() {
        if does_refuse(&mut seats[place], fault) {
            return true;
        }
    }
    false
}

/// The fault of the lowest-numbered worker who ended with one: for memory, or where one of the seats refuses with it still. A seat
/// that is at the end of its journal or its clock stays there.
fn confirm(shifts: &[Shift], seats: &mut [Seat<Actor>]) -> Result<(), Fault>
    ensures later { AreLater seats.old seats.new }
    ensures refused { IfErr result (λ e. CanEnd e seats.new) }
    // a worker's want of memory is told, whatever the seats do now
    ensures heard { first_fault shifts.now ≡ Some Fault.Memory → OnOk result ⊥ × IfErr result (λ e. e ≡ Fault.Memory) }
{
    match check(shifts) {
        Ok(()) => Ok(()),
        Err(fault) => {
            if fault == Fault::Memory {
                return Err(fault);
            }
            if do_refuse(seats, fault) {
                return Err(fault);
            }
            Ok(())
        }
    }
}

/// What is left after the workers is done: turns are taken until a whole round does nothing. Refused with the fault of the
/// lowest-numbered worker who ended with one, where that is `Memory` or a seat still refuses with it, and as a turn is.
pub(crate) fn finish(shifts: &[Shift], seats: &mut [Seat<Actor>]) -> Result<(), Fault>
    ensures later { AreLater seats.old seats.new }
    ensures resting { OnOk result (All IsResting seats.new) }
    ensures refused { IfErr result (λ e. CanEnd e seats.new) }
    ensures heard { first_fault shifts.now ≡ Some Fault.Memory → OnOk result ⊥ × IfErr result (λ e. e ≡ Fault.Memory) }
{
    confirm(shifts, seats)?;
    drain(seats)
}
