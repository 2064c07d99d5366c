//! What is seen of turns, journals, outcomes and answers, as text.
use actors::Turn;
use logical_time::{Fault, Node};
use messages::{ActorEvent, Outcome};
use slice::{Answer, Columns};
use std::str;
use workload::Entry;

/// Prints a line.
pub(crate) fn print(rt: &HostRuntime, line: &str) -> Result<(), Fault> {
    println!(rt; "{line}").map_err(|_| Fault::WriteFailed)
}

/// `yes` or `no`.
pub(crate) fn word_of(is_so: bool) -> &'static str {
    if is_so { "yes" } else { "no" }
}

pub(crate) fn text_of(bytes: &[u8]) -> &str {
    str::from_utf8(bytes).unwrap_or("?")
}

/// Adds a refusal.
fn add_refusal(seen: &mut String, fault: Fault) -> Result<(), Fault> {
    let number = fault.number();
    Ok(write!(seen, "refused {number}")?)
}

/// Adds the number of a submission, or its refusal.
pub(crate) fn add_number(seen: &mut String, answer: Result<u64, Fault>) -> Result<(), Fault> {
    match answer {
        Ok(number) => Ok(write!(seen, "{number}")?),
        Err(fault) => add_refusal(seen, fault),
    }
}

/// Adds that it was done, or its refusal.
pub(crate) fn add_done(seen: &mut String, answer: Result<(), Fault>) -> Result<(), Fault> {
    match answer {
        Ok(()) => Ok(seen.push_str("done")?),
        Err(fault) => add_refusal(seen, fault),
    }
}

/// Adds what a turn answers.
pub(crate) fn add_turn(seen: &mut String, answer: Result<Turn, Fault>) -> Result<(), Fault> {
    match answer {
        Ok(Turn::Idle) => Ok(seen.push_str("idle")?),
        Ok(Turn::Moved) => Ok(seen.push_str("moved")?),
        Ok(Turn::Handled) => Ok(seen.push_str("handled")?),
        Ok(Turn::Submitted(number)) => Ok(write!(seen, "submitted {number}")?),
        Ok(Turn::Collected) => Ok(seen.push_str("collected")?),
        Ok(Turn::Refused(fault)) => {
            let number = fault.number();
            Ok(write!(seen, "passed over {number}")?)
        }
        Err(fault) => add_refusal(seen, fault),
    }
}

/// Adds each event: what was submitted, collected, and from which node a message came.
pub(crate) fn add_journal(seen: &mut String, journal: &[ActorEvent]) -> Result<(), Fault> {
    for event in journal {
        match event {
            ActorEvent::Submit(_) => seen.push_str("submit; ")?,
            ActorEvent::Collect(_) => seen.push_str("collect; ")?,
            ActorEvent::Handle(envelope) => {
                let from = envelope.from.get();
                write!(seen, "from {from}; ")?;
            }
        }
    }
    Ok(())
}

/// Adds each outcome with its number and its times.
pub(crate) fn add_outcomes(seen: &mut String, outcomes: &[(u64, Outcome)]) -> Result<(), Fault> {
    for (number, outcome) in outcomes {
        write!(seen, "{number} ")?;
        add_outcome(seen, outcome)?;
    }
    Ok(())
}

fn add_outcome(seen: &mut String, outcome: &Outcome) -> Result<(), Fault> {
    match outcome {
        Outcome::Wrote { commit, stamp } => {
            let (commit, at, node) = (commit.get(), stamp.time().get(), stamp.node().get());
            Ok(write!(seen, "wrote {commit} {at}.{node}; ")?)
        }
        Outcome::Read { effective, answer } => {
            let effective = effective.get();
            write!(seen, "read {effective} ")?;
            add_answer(seen, answer)
        }
        Outcome::Collected => Ok(seen.push_str("collected; ")?),
        Outcome::Moved { dc, floor } => {
            let floor = floor.get();
            Ok(write!(seen, "moved to {dc} floor {floor}; ")?)
        }
    }
}

fn add_columns(seen: &mut String, columns: &Columns) -> Result<(), Fault> {
    for column in columns.as_slice() {
        let name = text_of(column.name.as_slice());
        let value = text_of(column.value.as_slice());
        write!(seen, " {name}{value}")?;
    }
    Ok(())
}

/// Adds the key and the columns of each row, and a semicolon after it.
fn add_answer(seen: &mut String, answer: &Answer) -> Result<(), Fault> {
    for row in answer.as_slice() {
        seen.push_str(text_of(row.key.as_slice()))?;
        add_columns(seen, &row.columns)?;
        seen.push_str(";")?;
    }
    Ok(())
}

fn add_place(seen: &mut String, node: Node, number: u64) -> Result<(), Fault> {
    let node = node.get();
    Ok(write!(seen, "{node}.{number} ")?)
}

/// Adds a line for an entry, without its times: they depend on the schedule.
pub(crate) fn add_entry(seen: &mut String, entry: &Entry) -> Result<(), Fault> {
    match entry {
        Entry::Wrote { node, number, .. } => {
            add_place(seen, *node, *number)?;
            seen.push_str("wrote\n")?;
        }
        Entry::Read {
            node,
            number,
            answer,
            ..
        } => {
            add_place(seen, *node, *number)?;
            seen.push_str("read ")?;
            add_answer(seen, answer)?;
            seen.push_str("\n")?;
        }
        Entry::Collected { node, number } => {
            add_place(seen, *node, *number)?;
            seen.push_str("collected\n")?;
        }
        Entry::Moved {
            node,
            number,
            dc,
            ..
        } => {
            add_place(seen, *node, *number)?;
            write!(seen, "moved to {dc}\n")?;
        }
        Entry::Refused { node, fault } => {
            let (node, number) = (node.get(), fault.number());
            write!(seen, "{node} refused {number}\n")?;
        }
    }
    Ok(())
}
