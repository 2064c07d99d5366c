//! Journals of actors, by value: each has a number.

use crate::stop::Stop;
use std::alloc::Global;

/// An event: an actor does what comes next of its own, or a message is delivered.
#[derive(Clone, Copy, PartialEq, Eq)]
pub(crate) enum Step {
    /// The actor with this node does what comes next of its own.
    Own(usize),
    /// The message of this number is delivered.
    Take(usize),
}

/// A journal: the events that an actor took, in order, and what is known after the last.
#[derive(Drop)]
pub(crate) struct Journal {
    /// How much of its own the actor did.
    pub done: usize,
    /// Whether it is a session with an open operation.
    pub is_open: bool,
    /// The messages that the last event sent, by their numbers.
    pub sent: Vec<usize>,
    /// The line that the last event told, by its number.
    pub line: Option<usize>,
    /// Journals with one more event.
    next: Vec<(Step, usize)>,
}

impl Journal {
    /// A journal that no other goes on from yet.
    pub fn new(
        alloc: Global,
        done: usize,
        is_open: bool,
        sent: Vec<usize>,
        line: Option<usize>,
    ) -> Journal {
        Journal {
            done,
            is_open,
            sent,
            line,
            next: Vec::new(alloc),
        }
    }
}

/// The journals of each actor that were ever reached. That without an event has the number 0.
#[derive(Drop)]
pub(crate) struct Journals {
    actors: Vec<Vec<Journal>>,
}

impl Journals {
    /// The journals without an event, of so many actors. Refused with `Memory` alone.
    pub fn new(alloc: Global, actors: u16) -> Result<Journals, Stop> {
        let mut all = Vec::new(alloc);
        for _ in 0..actors {
            let mut journals = Vec::new(alloc);
            journals.push(Journal::new(alloc, 0, false, Vec::new(alloc), None))?;
            all.push(journals)?;
        }
        Ok(Journals { actors: all })
    }

    /// A journal.
    pub fn get(&self, actor: usize, number: usize) -> Option<&Journal> {
        self.actors.get(actor)?.get(number)
    }

    /// The journal with one more event, if it was reached before.
    pub fn after(&self, actor: usize, number: usize, step: Step) -> Option<usize> {
        for (other, with) in self.get(actor, number)?.next.as_slice() {
            if *other == step {
                return Some(*with);
            }
        }
        None
    }

    /// Adds the journal with one more event, and gives its number. Refused with `Memory` alone.
    pub fn add(
        &mut self,
        actor: usize,
        number: usize,
        step: Step,
        journal: Journal,
    ) -> Result<usize, Stop> {
        let Some(journals) = self.actors.get_mut(actor) else {
            return Err(Stop::Stray);
        };
        let with = journals.len();
        journals.push(journal)?;
        if let Some(before) = journals.get_mut(number) {
            before.next.push((step, with))?;
        }
        Ok(with)
    }
}
