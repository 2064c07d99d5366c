//! What is told of an exploration.
ghost use Rattle.std.specs.Prelude.{◌≡◌, ◌++◌, IfOk, OnOk, string_bytes};
ghost use Rattle.workload.specs.Audited.{found_text as audit_text};
ghost use Rattle.explore.specs.Exploration.{runs_text, states_text, gave_up_text, head_text, title_text, found_text, exploration_text};

use crate::searching::GaveUp;
use crate::stop::Stop;
use audit::Audit;
use std::alloc::{AllocError, Global};

/// A transcript that was found.
#[derive(Drop)]
pub(crate) struct Found {
    /// Its number, from 1.
    pub number: usize,
    /// How many runs have it, at most 2^128 - 1.
    pub runs: u128,
    /// How many events the order below it has.
    pub events: usize,
    /// Its text.
    pub told: Vec<u8>,
    /// The text of an order that has it.
    pub script: String,
}

/// What stands before the transcripts.
#[derive(Clone, Copy)]
pub(crate) struct Head {
    /// How many runs there are, at most 2^128 - 1.
    pub runs: u128,
    /// How many states were followed.
    pub states: u64,
    /// How many events were followed from them.
    pub events: u64,
    /// In how many states runs end.
    pub ends: usize,
    /// What the audits of a run to each of these found together.
    pub audited: Audit,
    /// Where the search gave up.
    pub gave_up: GaveUp,
}

/// What is told of an exploration.
#[derive(Drop)]
pub(crate) struct Exploration {
    /// What stands before the transcripts.
    pub head: Head,
    /// The transcripts, that of the shortest run first.
    pub found: Vec<Found>,
}

// How many runs and transcripts there are.
fn runs_line(alloc: Global, runs: u128, transcripts: usize) -> Result<String, AllocError>
    ensures { IfOk result (λ text. string_bytes text ≡ runs_text runs transcripts) }
{
    format!(in alloc; "runs {runs} transcripts {transcripts}\n")
}

// How many states and events were followed, and in how many states runs end.
fn states_line(alloc: Global, head: Head) -> Result<String, AllocError>
    ensures { IfOk result (λ text. string_bytes text ≡ states_text head) }
{
    let (states, events, ends) = (head.states, head.events, head.ends);
    format!(in alloc; "states {states} events {events} ends {ends}\n")
}

// What the audits found.
fn audit_line(alloc: Global, audited: Audit) -> Result<String, AllocError>
    ensures { IfOk result (λ text. string_bytes text ≡ audit_text audited) }
{
    let Audit { reads, wrong } = audited;
    format!(in alloc; "audit reads {reads} wrong {wrong}\n")
}

// Where the search gave up, if it did.
fn gave_up_line(alloc: Global, gave_up: GaveUp) -> Result<String, AllocError>
    ensures { IfOk result (λ text. string_bytes text ≡ gave_up_text gave_up) }
{
    match gave_up {
        GaveUp::Nowhere => Ok(String::new(alloc)),
        GaveUp::Events(most) => format!(in alloc; "gave up at runs of {most} events\n"),
        GaveUp::States(most) => format!(in alloc; "gave up at {most} states\n"),
    }
}

// The lines before so many transcripts.
#[tactic(auto, unfolding(crate::specs::Exploration::head_text))]
fn head_of(alloc: Global, transcripts: usize, head: Head) -> Result<String, AllocError>
    ensures { IfOk result (λ text. string_bytes text ≡ head_text transcripts head) }
{
    let mut text = runs_line(alloc, head.runs, transcripts)?;
    text.push_str(states_line(alloc, head)?.as_str())?;
    text.push_str(audit_line(alloc, head.audited)?.as_str())?;
    text.push_str(gave_up_line(alloc, head.gave_up)?.as_str())?;
    Ok(text)
}

// The line before a transcript.
fn title_of(alloc: Global, found: &Found) -> Result<String, AllocError>
    ensures { IfOk result (λ text. string_bytes text ≡ title_text found.now) }
{
    let (number, runs, events) = (found.number, found.runs, found.events);
    format!(in alloc; "transcript {number} runs {runs} events {events}\n")
}

// Adds the line before a transcript, the transcript and its script.
fn put_found(alloc: Global, text: &mut Vec<u8>, found: &Found) -> Result<(), Stop>
    ensures { OnOk result (text.new.items ≡ text.old.items ++ found_text found.now) }
{
    text.extend_from_slice(title_of(alloc, found)?.as_bytes())?;
    text.extend_from_slice(found.told.as_slice())?;
    text.extend_from_slice(found.script.as_bytes())?;
    text.extend_from_slice(b"\n")?;
    Ok(())
}

/// The text of an exploration. Linear in it.
pub(crate) fn bytes_of(alloc: Global, exploration: &Exploration) -> Result<Vec<u8>, Stop>
    ensures { IfOk result (λ text. text.items ≡ exploration_text exploration.now) }
{
    let mut text = Vec::new(alloc);
    let head = head_of(alloc, exploration.found.len(), exploration.head)?;
    text.extend_from_slice(head.as_bytes())?;
    for found in exploration.found.as_slice() {
        put_found(alloc, &mut text, found)?;
    }
    Ok(text)
}
