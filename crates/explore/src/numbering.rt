//! A run of steps as events of a world.

use crate::journals::{Journal, Journals, Step};
use crate::letters::Letters;
use crate::plan::Plan;
use crate::stop::Stop;
use std::alloc::Global;

/// An event of a world.
#[derive(Clone, Copy)]
pub(crate) enum Move {
    /// The event at this place of the script.
    Own(usize),
    /// The message of this number among those that were sent is delivered.
    Deliver(usize),
}

/// A message that was sent in a run.
#[derive(Clone, Copy)]
struct Sent {
    /// The message, by its number among all.
    letter: usize,
    /// Whether it was delivered.
    is_delivered: bool,
}

/// What was sent in a run so far, and how far each actor came.
#[derive(Drop)]
struct Run {
    sent: Vec<Sent>,
    at: Vec<usize>,
}

impl Run {
    // Nothing, of so many actors.
    fn new(alloc: Global, actors: usize) -> Result<Run, Stop> {
        let mut at = Vec::with_capacity(alloc, actors)?;
        for _ in 0..actors {
            at.push(0)?;
        }
        Ok(Run {
            sent: Vec::new(alloc),
            at,
        })
    }

    // The place of a message among those that were sent: of one that wasn't delivered, if there is one.
    fn place(&self, letter: usize) -> Option<usize> {
        let mut found = None;
        for (place, sent) in self.sent.as_slice().iter().enumerate() {
            if sent.letter == letter {
                if !sent.is_delivered {
                    return Some(place);
                }
                found = Some(place);
            }
        }
        found
    }

    // A message is delivered. Gives its place.
    fn deliver(&mut self, letter: usize) -> Option<usize> {
        let place = self.place(letter)?;
        self.sent.get_mut(place)?.is_delivered = true;
        Some(place)
    }

    // An actor goes on to this journal, whose last event sent its messages.
    fn go_on(&mut self, actor: usize, number: usize, journal: &Journal) -> Result<(), Stop> {
        if let Some(at) = self.at.get_mut(actor) {
            *at = number;
        }
        for letter in journal.sent.as_slice() {
            self.sent.push(Sent {
                letter: *letter,
                is_delivered: false,
            })?;
        }
        Ok(())
    }
}

/// Whose event a step is.
pub(crate) fn actor_of(letters: &Letters, step: Step) -> Option<usize> {
    match step {
        Step::Own(actor) => Some(actor),
        Step::Take(letter) => letters.to(letter),
    }
}

// The event of a world that a step is.
fn move_of(plan: &Plan, journals: &Journals, run: &mut Run, step: Step) -> Option<Move> {
    match step {
        Step::Own(actor) => {
            let journal = journals.get(actor, *run.at.get(actor)?)?;
            let own = plan.next(actor, journal.done)?;
            Some(Move::Own(own.event))
        }
        Step::Take(letter) => Some(Move::Deliver(run.deliver(letter)?)),
    }
}

// A step is taken, as far as what it leads to is known.
fn go_on(journals: &Journals, letters: &Letters, run: &mut Run, step: Step) -> Result<(), Stop> {
    let Some(actor) = actor_of(letters, step) else {
        return Ok(());
    };
    let Some(at) = run.at.get(actor).copied() else {
        return Ok(());
    };
    let Some(number) = journals.after(actor, at, step) else {
        return Ok(());
    };
    match journals.get(actor, number) {
        Some(journal) => run.go_on(actor, number, journal),
        None => Ok(()),
    }
}

/// The events of a world that these steps are, of which all but the last were taken before. Refused with `Memory`,
/// and with `StrangerEnd` where they aren't steps of a run.
pub(crate) fn moves_of(
    alloc: Global,
    plan: &Plan,
    journals: &Journals,
    letters: &Letters,
    steps: &[Step],
) -> Result<Vec<Move>, Stop> {
    let mut run = Run::new(alloc, plan.own.len())?;
    let mut moves = Vec::with_capacity(alloc, steps.len())?;
    for step in steps {
        match move_of(plan, journals, &mut run, *step) {
            Some(one) => moves.push(one)?,
            None => return Err(Stop::Stray),
        }
        go_on(journals, letters, &mut run, *step)?;
    }
    Ok(moves)
}
