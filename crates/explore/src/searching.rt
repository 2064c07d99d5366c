//! The search: each state of a layer is followed by each event that may come.

use crate::journals::{Journal, Journals, Step};
use crate::layers::{Layer, State, Trail, copied};
use crate::learning::{Learned, learn};
use crate::letters::Letters;
use crate::limits::Limits;
use crate::numbering::{Move, actor_of, moves_of};
use crate::plan::Plan;
use crate::stop::Stop;
use crate::told::Told;
use messages::Envelope;
use program::Output;
use std::alloc::Global;
use std::io::Write;
use workload::Script;

/// So many events are followed before it is told how far the search came: it takes about a second.
const SILENT: u64 = 500_000;

/// Where the search gave up.
#[derive(Clone, Copy)]
pub(crate) enum GaveUp {
    /// Nowhere.
    Nowhere,
    /// At runs of so many events, as many as a run may have.
    Events(u32),
    /// At so many states, as many as are followed at most.
    States(u32),
}

/// A state in which nothing has to happen any more.
#[derive(Clone, Copy)]
pub(crate) struct End {
    /// How many events lead to it.
    pub events: usize,
    /// Its place among the states that as many lead to.
    pub place: usize,
    /// What was told, by its number.
    pub told: usize,
    /// How many runs end there, at most 2^128 - 1.
    pub runs: u128,
}

/// A search, as far as it came.
#[derive(Drop)]
pub(crate) struct Search {
    limits: Limits,
    plan: Plan,
    journals: Journals,
    letters: Letters,
    told: Told,
    trails: Vec<Vec<Trail>>,
    /// The ends of runs, in the order in which they were found: a shorter run stands before a longer one.
    pub ends: Vec<End>,
    /// How many states were followed.
    pub states: u64,
    /// How many events were followed from them.
    pub events: u64,
    /// Where it gave up.
    pub gave_up: GaveUp,
}

// The state before the first event. Refused with `Memory` alone.
fn opening(alloc: Global, actors: usize) -> Result<State, Stop> {
    let mut at = Vec::with_capacity(alloc, actors)?;
    for _ in 0..actors {
        at.push(0)?;
    }
    at.push(0)?;
    Ok(State {
        at,
        under_way: Vec::new(alloc),
        again: Vec::new(alloc),
        runs: 1,
    })
}

// The numbers without one of these.
fn without(alloc: Global, numbers: &[usize], one: usize) -> Result<(Vec<usize>, bool), Stop> {
    let mut rest = Vec::with_capacity(alloc, numbers.len())?;
    let mut is_found = false;
    for number in numbers {
        if !is_found && *number == one {
            is_found = true;
        } else {
            rest.push(*number)?;
        }
    }
    Ok((rest, is_found))
}

// The messages that are under way after a step that sends these, and those that may come again. Refused with `Memory`
// alone.
fn moved(
    alloc: Global,
    state: &State,
    step: Step,
    sent: &[usize],
    repeat: bool,
) -> Result<(Vec<usize>, Vec<usize>), Stop> {
    let mut again = copied(alloc, state.again.as_slice())?;
    let mut under_way = match step {
        Step::Own(_) => copied(alloc, state.under_way.as_slice())?,
        Step::Take(letter) => {
            let (rest, is_found) = without(alloc, state.under_way.as_slice(), letter)?;
            if !is_found {
                again = without(alloc, again.as_slice(), letter)?.0;
            } else if repeat {
                again.push(letter)?;
                again.sort_unstable();
            }
            rest
        }
    };
    for letter in sent {
        under_way.push(*letter)?;
    }
    under_way.sort_unstable();
    Ok((under_way, again))
}

impl Search {
    // A search that comes to nothing yet. Refused with `Memory` alone.
    fn new(alloc: Global, script: &Script, limits: Limits) -> Result<Search, Stop> {
        let mut trails = Vec::new(alloc);
        trails.push(Vec::new(alloc))?;
        Ok(Search {
            limits,
            plan: Plan::new(alloc, script)?,
            journals: Journals::new(alloc, script.topology.node_count())?,
            letters: Letters::new(alloc),
            told: Told::new(alloc)?,
            trails,
            ends: Vec::new(alloc),
            states: 0,
            events: 0,
            gave_up: GaveUp::Nowhere,
        })
    }

    // The journal of an actor in a state.
    fn journal(&self, state: &State, actor: usize) -> Option<&Journal> {
        self.journals.get(actor, *state.at.get(actor)?)
    }

    // Whether so many operations of each session were submitted.
    fn has_come(&self, state: &State, after: &[usize]) -> bool {
        for (session, count) in after.iter().enumerate() {
            let actor = self.plan.shards.saturating_add(session);
            let done = self.journal(state, actor).map_or(0, |j| j.done);
            if done < *count {
                return false;
            }
        }
        true
    }

    // Whether an actor may do what comes next of its own.
    fn may_go_on(&self, state: &State, actor: usize) -> bool {
        let Some(journal) = self.journal(state, actor) else {
            return false;
        };
        if journal.is_open {
            return false;
        }
        match self.plan.next(actor, journal.done) {
            Some(own) => self.has_come(state, own.after.as_slice()),
            None => false,
        }
    }

    // What the actors may do on their own. Refused with `Memory` alone.
    fn own_steps(&self, alloc: Global, state: &State) -> Result<Vec<Step>, Stop> {
        let mut steps = Vec::new(alloc);
        for actor in 0..self.plan.own.len() {
            if self.may_go_on(state, actor) {
                steps.push(Step::Own(actor))?;
            }
        }
        Ok(steps)
    }

    /// The steps that lead to a state: that at this place among those that so many events lead to. Refused with
    /// `Memory` alone.
    pub fn path(&self, alloc: Global, events: usize, place: usize) -> Result<Vec<Step>, Stop> {
        let mut steps = Vec::with_capacity(alloc, events)?;
        let mut place = place;
        for trails in self
            .trails
            .as_slice()
            .iter()
            .take(events.saturating_add(1))
            .rev()
        {
            if let Some(trail) = trails.get(place) {
                steps.push(trail.step)?;
                place = trail.before;
            }
        }
        steps.reverse();
        Ok(steps)
    }

    /// The events of a world that lead to a state. Refused with `Memory`; with `Stray` never, as far as is tested.
    pub fn moves(&self, alloc: Global, events: usize, place: usize) -> Result<Vec<Move>, Stop> {
        let steps = self.path(alloc, events, place)?;
        moves_of(
            alloc,
            &self.plan,
            &self.journals,
            &self.letters,
            steps.as_slice(),
        )
    }

    // Whether a session has an open operation after a step.
    fn is_open_after(&self, actor: usize, before: usize, step: Step, tells: bool) -> bool {
        if actor < self.plan.shards || tells {
            return false;
        }
        match step {
            Step::Own(_) => true,
            Step::Take(_) => self.journals.get(actor, before).is_some_and(|j| j.is_open),
        }
    }

    // The numbers of messages. Refused with `Memory` alone.
    fn numbers_of(&mut self, alloc: Global, envelopes: &[Envelope]) -> Result<Vec<usize>, Stop> {
        let mut numbers = Vec::with_capacity(alloc, envelopes.len())?;
        for envelope in envelopes {
            numbers.push(self.letters.number(alloc, envelope)?)?;
        }
        Ok(numbers)
    }

    // What a step leads to is learned: the number of the actor's journal with it.
    fn learned(
        &mut self,
        alloc: Global,
        script: &Script,
        steps: &[Step],
        actor: usize,
        before: usize,
        step: Step,
    ) -> Result<usize, Stop> {
        let moves = moves_of(alloc, &self.plan, &self.journals, &self.letters, steps)?;
        let Learned { sent, told } = learn(alloc, script, moves.as_slice())?;
        let sent = self.numbers_of(alloc, sent.as_slice())?;
        let line = match told {
            Some(text) => Some(self.told.line(text)?),
            None => None,
        };
        let is_open = self.is_open_after(actor, before, step, line.is_some());
        let done = self.journals.get(actor, before).map_or(0, |j| j.done);
        let done = match step {
            Step::Own(_) => done.saturating_add(1),
            Step::Take(_) => done,
        };
        let journal = Journal::new(alloc, done, is_open, sent, line);
        self.journals.add(actor, before, step, journal)
    }

    // The number of an actor's journal with one more step, which follows that state.
    fn journal_after(
        &mut self,
        alloc: Global,
        script: &Script,
        place: usize,
        actor: usize,
        before: usize,
        step: Step,
    ) -> Result<usize, Stop> {
        if let Some(number) = self.journals.after(actor, before, step) {
            return Ok(number);
        }
        let events = self.trails.len().saturating_sub(1);
        let mut steps = self.path(alloc, events, place)?;
        steps.push(step)?;
        self.learned(alloc, script, steps.as_slice(), actor, before, step)
    }

    // What the last event of a journal told.
    fn line_after(&self, actor: usize, number: usize) -> Option<usize> {
        self.journals.get(actor, number)?.line
    }

    // The numbers of a state, where an actor has this journal, and this line is told. Refused with `Memory` alone.
    fn numbers_with(
        &mut self,
        alloc: Global,
        state: &State,
        actor: usize,
        number: usize,
        line: Option<usize>,
    ) -> Result<Vec<usize>, Stop> {
        let mut at = copied(alloc, state.at.as_slice())?;
        if let Some(known) = at.get_mut(actor) {
            *known = number;
        }
        if let (Some(line), Some(list)) = (line, at.last_mut()) {
            *list = self.told.with(alloc, *list, line)?;
        }
        Ok(at)
    }

    // A state is followed by a step, and what it leads to is added to the next layer, or joined with what is there.
    fn follow(
        &mut self,
        alloc: Global,
        script: &Script,
        state: &State,
        place: usize,
        step: Step,
        next: &mut Layer,
    ) -> Result<(), Stop> {
        let Some(actor) = actor_of(&self.letters, step) else {
            return Err(Stop::Stray);
        };
        let before = state.at.get(actor).copied().unwrap_or(0);
        let number = self.journal_after(alloc, script, place, actor, before, step)?;
        let line = self.line_after(actor, number);
        let at = self.numbers_with(alloc, state, actor, number, line)?;
        if next.joins(&at, state.runs) {
            return Ok(());
        }
        let Some(journal) = self.journals.get(actor, number) else {
            return Err(Stop::Stray);
        };
        let sent = journal.sent.as_slice();
        let (under_way, again) = moved(alloc, state, step, sent, self.limits.repeat)?;
        let state = State {
            at,
            under_way,
            again,
            runs: state.runs,
        };
        next.add(
            alloc,
            state,
            Trail {
                before: place,
                step,
            },
        )
    }

    // The steps that may follow a state; where nothing has to happen any more, it is noted as an end. Refused with
    // `Memory` alone.
    fn steps(&mut self, alloc: Global, state: &State, place: usize) -> Result<Vec<Step>, Stop> {
        let mut steps = self.own_steps(alloc, state)?;
        let is_quiet = state.under_way.is_empty() || self.limits.lose;
        if steps.is_empty() && is_quiet {
            self.ends.push(End {
                events: self.trails.len().saturating_sub(1),
                place,
                told: state.at.last().copied().unwrap_or(0),
                runs: state.runs,
            })?;
        }
        let mut last = None;
        for letter in state.under_way.as_slice() {
            if last != Some(*letter) {
                steps.push(Step::Take(*letter))?;
            }
            last = Some(*letter);
        }
        let mut last = None;
        for letter in state.again.as_slice() {
            if last != Some(*letter) && !state.under_way.as_slice().contains(letter) {
                steps.push(Step::Take(*letter))?;
            }
            last = Some(*letter);
        }
        Ok(steps)
    }

    // How far the search came.
    fn tell<P: Write>(&self, alloc: Global, progress: &mut Output<P>) {
        let (states, events, depth) = (self.states, self.events, self.trails.len());
        if let Ok(line) = format!(in alloc;
            "eiger: {states} states, {events} events followed, runs of {depth}\n"
        ) {
            let _ = progress.put(line.as_bytes());
        }
    }

    // A state is followed by each step that may come. Gives whether the search goes on.
    fn follow_all<P: Write>(
        &mut self,
        alloc: Global,
        script: &Script,
        state: &State,
        place: usize,
        next: &mut Layer,
        progress: &mut Output<P>,
    ) -> Result<bool, Stop> {
        let steps = self.steps(alloc, state, place)?;
        self.states = self.states.saturating_add(1);
        if steps.is_empty() {
            return Ok(true);
        }
        if usize::try_from(self.limits.events).unwrap_or(0) < self.trails.len() {
            self.gave_up = GaveUp::Events(self.limits.events);
            return Ok(true);
        }
        for step in steps.as_slice() {
            if u64::from(self.limits.states)
                < self.states.saturating_add(next.states.len() as u64)
            {
                self.gave_up = GaveUp::States(self.limits.states);
                return Ok(false);
            }
            self.follow(alloc, script, state, place, *step, next)?;
            self.events = self.events.saturating_add(1);
            if self.events.checked_rem(SILENT) == Some(0) {
                self.tell(alloc, progress);
            }
        }
        Ok(true)
    }

    // All states of a layer are followed: the next layer.
    fn next_layer<P: Write>(
        &mut self,
        alloc: Global,
        script: &Script,
        states: &[State],
        progress: &mut Output<P>,
    ) -> Result<Vec<State>, Stop> {
        let mut next = Layer::new(alloc);
        for (place, state) in states.iter().enumerate() {
            if !self.follow_all(alloc, script, state, place, &mut next, progress)? {
                return Ok(Vec::new(alloc));
            }
        }
        let (states, trails) = next.parts();
        self.trails.push(trails)?;
        Ok(states)
    }
}

/// Follows each order of events of a script, within the limits. Refused with `Memory`, with `ClockSpent` where a
/// clock would leave its range; with `Stray` never, as far as is tested.
pub(crate) fn follow_orders<P: Write>(
    alloc: Global,
    script: &Script,
    limits: Limits,
    progress: &mut Output<P>,
) -> Result<Search, Stop> {
    let mut search = Search::new(alloc, script, limits)?;
    let mut states = Vec::new(alloc);
    states.push(opening(alloc, search.plan.own.len())?)?;
    for _ in 0..u64::from(limits.events).saturating_add(1) {
        if states.is_empty() {
            break;
        }
        states = search.next_layer(alloc, script, states.as_slice(), progress)?;
    }
    Ok(search)
}
