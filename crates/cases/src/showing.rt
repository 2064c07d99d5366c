//! What is seen of rows, messages and outcomes, as text.
use logical_time::{Fault, Stamp, Time, TxnId};
use messages::{AtTime, Body, Envelope, Outcome, RowAt, RowNow};
use slice::{Answer, Columns};
use std::str;

pub(crate) fn text_of(bytes: &[u8]) -> &str {
    str::from_utf8(bytes).unwrap_or("?")
}

/// Adds a space, the name and the value of each column.
pub(crate) fn add_columns(seen: &mut String, columns: &Columns) -> Result<(), Fault> {
    for column in columns.as_slice() {
        let name = text_of(column.name.as_slice());
        let value = text_of(column.value.as_slice());
        write!(seen, " {name}{value}")?;
    }
    Ok(())
}

/// Adds the key and the columns of each row, and a semicolon after it.
pub(crate) fn add_answer(seen: &mut String, answer: &Answer) -> Result<(), Fault> {
    for row in answer.as_slice() {
        seen.push_str(text_of(row.key.as_slice()))?;
        add_columns(seen, &row.columns)?;
        seen.push_str(";")?;
    }
    Ok(())
}

/// The kind of a message.
fn kind(body: &Body) -> &'static str {
    match body {
        Body::Begin { .. } => "Begin",
        Body::Prepare { .. } => "Prepare",
        Body::Yes { .. } => "Yes",
        Body::Commit { .. } => "Commit",
        Body::At { .. } => "At",
        Body::NotBy { .. } => "NotBy",
        Body::Check { .. } => "Check",
        Body::Read { .. } => "Read",
        Body::ReadAt { .. } => "ReadAt",
        Body::ReplBegin { .. } => "ReplBegin",
        Body::ReplPart { .. } => "ReplPart",
        Body::Notify { .. } => "Notify",
        Body::PrepareRemote { .. } => "PrepareRemote",
        Body::DepCheck { .. } => "DepCheck",
        Body::DepOk { .. } => "DepOk",
        Body::Done { .. } => "Done",
        Body::PartNow { .. } => "PartNow",
        Body::PartAt { .. } => "PartAt",
    }
}

fn add_rows_now(seen: &mut String, rows: &[RowNow]) -> Result<(), Fault> {
    for row in rows {
        let key = text_of(row.key.as_slice());
        write!(seen, " {key}")?;
        add_columns(seen, &row.columns)?;
        let (evt, lvt) = (row.evt.get(), row.lvt.get());
        write!(seen, " [{evt},{lvt}]")?;
    }
    Ok(())
}

fn add_rows_at(seen: &mut String, rows: &[RowAt]) -> Result<(), Fault> {
    for row in rows {
        let key = text_of(row.key.as_slice());
        write!(seen, " {key}")?;
        add_columns(seen, &row.columns)?;
    }
    Ok(())
}

fn add_answer_at(seen: &mut String, answer: &AtTime) -> Result<(), Fault> {
    match answer {
        AtTime::Rows(rows) => add_rows_at(seen, rows.as_slice()),
        AtTime::Collected => Ok(seen.push_str(" collected")?),
    }
}

/// Adds a space, unless nothing was seen.
pub(crate) fn add_space(seen: &mut String) -> Result<(), Fault> {
    if !seen.is_empty() {
        seen.push_str(" ")?;
    }
    Ok(())
}

/// Adds a commit time and a stamp.
pub(crate) fn add_commit(seen: &mut String, commit: Time, stamp: Stamp) -> Result<(), Fault> {
    let (commit, at, node) = (commit.get(), stamp.time().get(), stamp.node().get());
    add_space(seen)?;
    Ok(write!(seen, "{commit} {at}.{node}")?)
}

fn add_time(seen: &mut String, time: Time) -> Result<(), Fault> {
    let time = time.get();
    Ok(write!(seen, " {time}")?)
}

/// Adds a space, unless nothing was seen, and the number of a transaction.
pub(crate) fn add_txn(seen: &mut String, txn: TxnId) -> Result<(), Fault> {
    let (session, number) = (txn.session.get(), txn.number);
    add_space(seen)?;
    Ok(write!(seen, "{session}.{number}")?)
}

/// Adds what a message tells beside its kind.
fn add_told(seen: &mut String, body: &Body) -> Result<(), Fault> {
    match body {
        Body::Commit { commit, stamp, .. }
        | Body::At { commit, stamp, .. }
        | Body::Done { commit, stamp, .. } => add_commit(seen, *commit, *stamp),
        Body::Check { time, .. } | Body::NotBy { time, .. } | Body::ReadAt { time, .. } => {
            add_time(seen, *time)
        }
        Body::DepCheck { dependency, .. } => add_txn(seen, *dependency),
        Body::DepOk { commit, .. } => add_time(seen, *commit),
        Body::PartNow { rows, .. } => add_rows_now(seen, rows.as_slice()),
        Body::PartAt { answer, .. } => add_answer_at(seen, answer),
        _ => Ok(()),
    }
}

/// Adds a message with its number.
pub(crate) fn add_message(
    seen: &mut String,
    place: usize,
    envelope: &Envelope,
) -> Result<(), Fault> {
    let (from, to) = (envelope.from.get(), envelope.to.get());
    let (time, kind) = (envelope.time.get(), kind(&envelope.body));
    add_space(seen)?;
    write!(seen, "m{place} {from}>{to} @{time} {kind}")?;
    add_told(seen, &envelope.body)?;
    Ok(seen.push_str(";")?)
}

/// Adds the messages from this number on.
pub(crate) fn add_sent(
    seen: &mut String,
    messages: &[Envelope],
    first: usize,
) -> Result<(), Fault> {
    for (number, envelope) in messages.iter().enumerate().skip(first) {
        add_message(seen, number, envelope)?;
    }
    Ok(())
}

/// Adds what came of an operation.
pub(crate) fn add_outcome(seen: &mut String, outcome: &Outcome) -> Result<(), Fault> {
    match outcome {
        Outcome::Wrote { commit, stamp } => {
            seen.push_str("wrote")?;
            add_commit(seen, *commit, *stamp)
        }
        Outcome::Read { effective, answer } => {
            let effective = effective.get();
            write!(seen, "read {effective} ")?;
            add_answer(seen, answer)
        }
        Outcome::Collected => Ok(seen.push_str("collected")?),
        Outcome::Moved { dc, floor } => {
            let floor = floor.get();
            Ok(write!(seen, "moved to {dc} floor {floor}")?)
        }
    }
}
