//! Turns of seats, one after the other, until nothing is left to do.
ghost use Rattle.std.specs.Prelude.{◌≡◌, ◌<◌, true, false, All, IfOk, OnOk, IfErr};
ghost use Rattle.actors.specs.Resting.{IsResting};
ghost use Rattle.actors.specs.Draining as spec;
ghost use Rattle.actors.specs.Draining.{AreLater, HaveTaken, HaveStopped, IsRound, HasCome, OneCanRefuse, all_left};

use crate::machine::Machine;
use crate::seat::Seat;
use crate::turn::Turn;
use logical_time::Fault;

/// What the turns of a round did.
#[derive(Clone, Copy)]
enum Round {
    /// Nothing.
    Quiet,
    /// Sends that waited went into their rings, and nothing else.
    Stirred,
    /// An event was done, or an operation of a backlog was refused.
    Worked,
}

/// What a round did with one more turn.
fn with_turn(round: Round, turn: Turn) -> Round
    ensures { result ≡ spec.with_turn round turn }
{
    match (turn, round) {
        (Turn::Idle, _) => round,
        (Turn::Moved, Round::Quiet) => Round::Stirred,
        (Turn::Moved, _) => round,
        _ => Round::Worked,
    }
}

/// Takes a turn of each seat. Refused as a turn is, and then the seats after it had none.
fn one_round<M: Machine>(seats: &mut [Seat<M>]) -> Result<Round, Fault>
    ensures later { AreLater seats.old seats.new }
    ensures taken { OnOk result (HaveTaken M.refuses seats.old seats.new) }
    ensures stopped { IfErr result (λ fault. HaveStopped M.refuses fault seats.old seats.new) }
    ensures round { IfOk result (λ round. IsRound round seats.old seats.new) }
    ensures refused { IfErr result (λ fault. OneCanRefuse M.refuses fault seats.new) }
{
    let mut round = Round::Quiet;
    for place in 0..seats.len() {
        let turn = seats[place].turn()?;
        round = with_turn(round, turn);
    }
    Ok(round)
}

/// Takes rounds while they only move what waited. Whether the last one did more, or nothing.
fn rounds<M: Machine>(seats: &mut [Seat<M>]) -> Result<bool, Fault>
    ensures later { AreLater seats.old seats.new }
    ensures taken { OnOk result (HaveTaken M.refuses seats.old seats.new) }
    ensures stopped { IfErr result (λ fault. HaveStopped M.refuses fault seats.old seats.new) }
    ensures less { IfOk result (λ worked. worked ≡ true → all_left seats.new < all_left seats.old) }
    ensures come { IfOk result (λ worked. worked ≡ false → HasCome seats.old seats.new) }
    ensures refused { IfErr result (λ fault. OneCanRefuse M.refuses fault seats.new) }
{
    loop {
        match one_round(seats)? {
            Round::Quiet => return Ok(false),
            Round::Stirred => {}
            Round::Worked => return Ok(true),
        }
    }
}

/// Takes turns of the seats, round after round, until a whole round does nothing. It ends, since each event takes room of a
/// journal, each refusal an item of a backlog, and else envelopes that wait become fewer. Refused as a turn is: with
/// `JournalFull`, with `Memory`, and as a machine refuses an event; then the seats keep what their turns did, and what waited
/// in the last one may have moved. Costs what the turns cost, in each round one of each seat. Takes no lock.
pub fn drain<M: Machine>(seats: &mut [Seat<M>]) -> Result<(), Fault>
    ensures later { AreLater seats.old seats.new }
    ensures taken { OnOk result (HaveTaken M.refuses seats.old seats.new) }
    ensures stopped { IfErr result (λ fault. HaveStopped M.refuses fault seats.old seats.new) }
    ensures come { OnOk result (HasCome seats.old seats.new) }
    ensures resting { OnOk result (All IsResting seats.new) }
    ensures refused { IfErr result (λ fault. OneCanRefuse M.refuses fault seats.new) }
{
    while rounds(seats)? {}
    Ok(())
}
