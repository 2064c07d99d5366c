//! What is seen of messages, outcomes and histories, as text.
use logical_time::{Fault, Node, Stamp, Time};
use messages::{Envelope, Outcome};
use slice::{Answer, Columns};
use std::str;
use table::History;

/// Prints a line.
pub(crate) fn print(rt: &HostRuntime, line: &str) -> Result<(), Fault> {
    println!(rt; "{line}").map_err(|_| Fault::WriteFailed)
}

/// Tells on standard error what a refusal came to.
pub(crate) fn note(rt: &HostRuntime, refusal: &str) {
    match eprintln!(rt; "{refusal}") {
        Ok(()) => {}
        Err(_) => {}
    }
}

/// Tells on standard error that a call was refused for memory, and is made again.
pub(crate) fn tell_refused(rt: &HostRuntime) {
    note(rt, "refused, and made again");
}

fn text_of(bytes: &[u8]) -> &str {
    str::from_utf8(bytes).unwrap_or("?")
}

/// Adds a space, the name and the value of each column.
fn add_columns(seen: &mut String, columns: &Columns) -> Result<(), Fault> {
    for column in columns.as_slice() {
        let name = text_of(column.name.as_slice());
        let value = text_of(column.value.as_slice());
        write!(seen, " {name}{value}")?;
    }
    Ok(())
}

/// Adds the key and the columns of each row.
pub(crate) fn add_answer(seen: &mut String, answer: &Answer) -> Result<(), Fault> {
    for row in answer.as_slice() {
        let key = text_of(row.key.as_slice());
        write!(seen, " {key}")?;
        add_columns(seen, &row.columns)?;
        seen.push_str(";")?;
    }
    Ok(())
}

/// Adds a commit time and a stamp.
fn add_commit(seen: &mut String, commit: Time, stamp: Stamp) -> Result<(), Fault> {
    let (commit, at, node) = (commit.get(), stamp.time().get(), stamp.node().get());
    Ok(write!(seen, " {commit} {at}.{node};")?)
}

/// Adds what came of an operation of a session.
pub(crate) fn add_ended(
    seen: &mut String,
    (session, number): (Node, u64),
    outcome: &Outcome,
) -> Result<(), Fault> {
    let session = session.get();
    write!(seen, " {session}.{number}")?;
    match outcome {
        Outcome::Wrote { commit, stamp } => {
            seen.push_str(" wrote")?;
            add_commit(seen, *commit, *stamp)
        }
        Outcome::Read { effective, answer } => {
            let effective = effective.get();
            write!(seen, " read {effective}")?;
            add_answer(seen, answer)
        }
        Outcome::Collected => Ok(seen.push_str(" collected;")?),
        Outcome::Moved { dc, floor } => {
            let floor = floor.get();
            Ok(write!(seen, " moved to {dc} floor {floor};")?)
        }
    }
}

/// Adds from where each message from this number on goes where, and its time.
pub(crate) fn add_sent(
    seen: &mut String,
    messages: &[Envelope],
    first: usize,
) -> Result<(), Fault> {
    for (place, envelope) in messages.iter().enumerate().skip(first) {
        let (from, to, time) = (envelope.from.get(), envelope.to.get(), envelope.time.get());
        write!(seen, " m{place} {from}>{to} @{time};")?;
    }
    Ok(())
}

/// Adds the commit time and the stamp of each entry.
pub(crate) fn add_history(seen: &mut String, history: &History) -> Result<(), Fault> {
    for entry in history.as_slice() {
        add_commit(seen, entry.commit, entry.stamp)?;
    }
    Ok(())
}
