//! States, layer by layer: those of a layer are reached by the same number of events.

use crate::journals::Step;
use crate::stop::Stop;
use std::alloc::Global;
use std::collections::HashMap;

/// A state of all actors and of the network.
#[derive(Drop)]
pub(crate) struct State {
    /// The journal of each actor, by its number, and behind them all the list of what was told.
    pub at: Vec<usize>,
    /// The messages that are under way, by their numbers, in order.
    pub under_way: Vec<usize>,
    /// Those that were delivered once and may come again.
    pub again: Vec<usize>,
    /// How many runs lead here, at most 2^128 - 1.
    pub runs: u128,
}

/// How a state was reached first.
#[derive(Clone, Copy)]
pub(crate) struct Trail {
    /// The place of the state before it.
    pub before: usize,
    /// The event.
    pub step: Step,
}

/// The states that are reached by a number of events.
#[derive(Drop)]
pub(crate) struct Layer {
    /// The states.
    pub states: Vec<State>,
    /// How each was reached first.
    pub trails: Vec<Trail>,
    places: HashMap<Vec<usize>, usize>,
}

/// A copy of numbers. Refused with `Memory` alone.
pub(crate) fn copied(alloc: Global, numbers: &[usize]) -> Result<Vec<usize>, Stop> {
    let mut copy = Vec::with_capacity(alloc, numbers.len())?;
    for number in numbers {
        copy.push(*number)?;
    }
    Ok(copy)
}

impl Layer {
    /// No state.
    pub fn new(alloc: Global) -> Layer {
        Layer {
            states: Vec::new(alloc),
            trails: Vec::new(alloc),
            places: HashMap::new(alloc),
        }
    }

    /// So many runs more lead to a state, if it is there. Gives whether it is.
    pub fn joins(&mut self, at: &Vec<usize>, runs: u128) -> bool {
        let Some(place) = self.places.get(at) else {
            return false;
        };
        match self.states.get_mut(*place) {
            Some(state) => {
                state.runs = state.runs.saturating_add(runs);
                true
            }
            None => false,
        }
    }

    /// Adds a state that isn't there. Refused with `Memory` alone.
    pub fn add(&mut self, alloc: Global, state: State, trail: Trail) -> Result<(), Stop> {
        let at = copied(alloc, state.at.as_slice())?;
        self.places.insert(at, self.states.len())?;
        self.trails.push(trail)?;
        self.states.push(state)?;
        Ok(())
    }

    /// The states, and how each was reached.
    pub fn parts(self) -> (Vec<State>, Vec<Trail>) {
        let Layer {
            states,
            trails,
            places: _,
        } = self;
        (states, trails)
    }
}
