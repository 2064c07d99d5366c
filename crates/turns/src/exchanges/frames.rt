//! Worked frames and hostile ones: each read whole, cut at every place, and byte by byte, and served by a session.
use super::lines::{Served, serve};
use super::showing::{bytes_of, digits, number_of, word_of};
use crate::showing::print;
use front::Failing;
use logical_time::{Fault, Time};
use messages::Outcome;
use std::alloc::Global;
use std::fs;
use wire::{Reader, encode_op, encode_reply};

/// What a reader makes of a stream.
#[derive(Drop)]
struct Found {
    /// The requests that it gives, written again.
    again: Vec<u8>,
    /// Why it stops.
    fault: Option<Fault>,
    /// How many pieces it takes until it stops, if that is before the end of input.
    pieces: Option<usize>,
    /// Whether it tells the fault again, of a further piece and of the end.
    stays: bool,
}

impl Found {
    fn is(&self, other: &Found) -> bool {
        self.fault == other.fault
            && self.stays == other.stays
            && self.again.as_slice() == other.again.as_slice()
    }
}

/// Feeds a piece, and again where memory was refused for it. Whether it was refused otherwise.
fn is_refused(reader: &mut Reader, piece: &[u8]) -> bool {
    match reader.feed(piece) {
        Err(Fault::Memory) => reader.feed(piece).is_err(),
        fed => fed.is_err(),
    }
}

/// Feeds the pieces. Gives how many were fed when one was refused first.
fn feed_all(reader: &mut Reader, pieces: &[&[u8]]) -> Option<usize> {
    let mut stopped = None;
    for (before, piece) in pieces.iter().enumerate() {
        if is_refused(reader, piece) && stopped.is_none() {
            stopped = Some(before.saturating_add(1));
        }
    }
    stopped
}

/// Whether a fault is told again, of a further piece and of the end.
fn is_told_again(reader: &mut Reader, fault: Option<Fault>) -> bool {
    fault.is_none() || (reader.feed(b"0").err() == fault && reader.finish().err() == fault)
}

fn read_all(alloc: Global, pieces: &[&[u8]]) -> Result<Found, Fault> {
    let mut reader = Reader::new(alloc);
    let stopped = feed_all(&mut reader, pieces);
    let fault = reader.finish().err();
    let stays = is_told_again(&mut reader, fault);
    let mut again = Vec::new(alloc);
    while let Some(op) = reader.next() {
        again.extend_from_slice(&encode_op(alloc, &op)?)?;
    }
    Ok(Found {
        again,
        fault,
        pieces: stopped,
        stays,
    })
}

/// How many ways of cutting the stream once give something else.
fn cuts_that_differ(alloc: Global, stream: &[u8], whole: &Found) -> Result<usize, Fault> {
    let mut differ = 0usize;
    for at in 0..stream.len() {
        let (first, rest) = stream.split_at(at);
        if !read_all(alloc, &[first, rest])?.is(whole) {
            differ = differ.saturating_add(1);
        }
    }
    Ok(differ)
}

/// Why the reader stops, and after how many bytes, where it got them one by one.
fn stop_of(alloc: Global, single: &Found) -> Result<String, Fault> {
    let fault = number_of(single.fault);
    let again = if single.stays { "" } else { ", not told again" };
    Ok(match (single.fault, single.pieces) {
        (None, _) => String::from_str(alloc, "no fault")?,
        (Some(_), None) => format!(in alloc; "{fault} at the end{again}")?,
        (Some(_), Some(bytes)) => format!(in alloc; "{fault} after {bytes} bytes{again}")?,
    })
}

fn tell_read(rt: &HostRuntime, name: &str, stream: &[u8]) -> Result<(), Fault> {
    let alloc = rt.alloc();
    let bytes: Vec<&[u8]> = stream.chunks(1).collect(alloc)?;
    let single = read_all(alloc, &bytes)?;
    let whole = read_all(alloc, &[stream])?;
    let same = if single.is(&whole) {
        "the same"
    } else {
        "another"
    };
    let (differ, cuts) = (cuts_that_differ(alloc, stream, &whole)?, stream.len());
    let (stop, again) = (stop_of(alloc, &single)?, digits(alloc, &whole.again)?);
    let line = format!(in alloc;
        "{name}: {stop}, {same} whole, {differ} of {cuts} cuts differ, read {again}"
    )?;
    print(rt, line.as_str())
}

fn tell_served(rt: &HostRuntime, stream: Vec<u8>) -> Result<(), Fault> {
    let Served { ended, said } = serve(rt.alloc(), stream, 4096, Failing::Never)?;
    let (word, said) = (word_of(ended), digits(rt.alloc(), &said)?);
    print(
        rt,
        format!(in rt.alloc(); "  {word}, answered {said}")?.as_str(),
    )
}

/// Tells the reply of an outcome.
fn tell_reply(rt: &HostRuntime, name: &str, outcome: Outcome) -> Result<(), Fault> {
    let reply = encode_reply(rt.alloc(), &Ok(outcome))?;
    let shown = digits(rt.alloc(), &reply)?;
    print(rt, format!(in rt.alloc(); "{name}: {shown}")?.as_str())
}

/// Tells what is read of each stream of the file, a name and its bytes, and what is answered to it.
pub(crate) fn tell(rt: &HostRuntime) -> Result<(), Fault> {
    let Ok(text) = fs::read_to_string(rt, "frames.txt") else {
        return Err(Fault::ReadFailed);
    };
    for line in text.lines() {
        let (name, stream) = line.split_once(' ').ok_or(Fault::Script)?;
        let stream = bytes_of(rt.alloc(), stream)?;
        tell_read(rt, name, &stream)?;
        tell_served(rt, stream)?;
    }
    tell_reply(rt, "collected", Outcome::Collected)?;
    let floor = Time::new(6).unwrap_or(Time::zero());
    tell_reply(rt, "moved", Outcome::Moved { dc: 1, floor })
}
