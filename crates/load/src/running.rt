//! A load, from its first request to its last reply.

use crate::line::Line;
use crate::mix::{Mix, Mixture};
use crate::tally::Tally;
use crate::told::Report;
use logical_time::Fault;
use mio::{Events, Poll, Token};
use std::alloc::Global;
use std::net::{Ipv4Addr, Net, SocketAddr};
use std::time::{Clock, Duration, Instant};

// How many events a wait tells, at most.
const EVENTS: usize = 64;

// How long a wait takes at most, in milliseconds.
const LOOK: u64 = 50;

// How long the last replies are waited for, in microseconds.
const PATIENCE: u64 = 2_000_000;

// How many bytes are read at once, at most.
const PIECE: usize = 65_536;

/// What a load asks for.
#[derive(Drop)]
pub struct Load {
    /// The port of 127.0.0.1 that is asked.
    pub port: u16,
    /// How many connections there are.
    pub connections: u16,
    /// How many requests are under way on each.
    pub depth: u16,
    /// For how many seconds requests are made.
    pub seconds: u32,
    /// Which requests.
    pub mixture: Mixture,
}

// A load that runs.
#[derive(Drop)]
struct Run {
    poll: Poll,
    events: Events,
    // Which connections are ready.
    ready: Vec<usize>,
    lines: Vec<Line>,
    mix: Mix,
    depth: usize,
    asked: u64,
    tally: Tally,
    buffer: Vec<u8>,
    // When the last reply came, in microseconds.
    last: u64,
}

// How many microseconds have gone since then. Refused with `ReadFailed` where there is no clock.
fn micros_since<R: Clock>(rt: &R, began: Instant) -> Result<u64, Fault> {
    match Instant::now(rt) {
        Ok(now) => {
            let took = now.duration_since(began);
            let micros = took.as_secs().saturating_mul(1_000_000);
            Ok(micros.saturating_add(u64::from(took.subsec_micros())))
        }
        Err(_) => Err(Fault::ReadFailed),
    }
}

// Connections to the port of a load.
fn connect_all<R: Net>(
    rt: &R,
    alloc: Global,
    poll: &Poll,
    load: &Load,
) -> Result<Vec<Line>, Fault> {
    let address = SocketAddr::from((Ipv4Addr::LOCALHOST, load.port));
    let mut lines = Vec::new(alloc);
    for number in 0..usize::from(load.connections) {
        lines.push(Line::connect(rt, alloc, poll.registry(), address, number)?)?;
    }
    Ok(lines)
}

impl Run {
    // Connects. Refused with `ReadFailed` where it can't, and with `Memory`.
    fn open<R: Net>(rt: &R, alloc: Global, load: &Load) -> Result<Run, Fault> {
        let Ok(poll) = Poll::new(rt) else {
            return Err(Fault::ReadFailed);
        };
        let lines = connect_all(rt, alloc, &poll, load)?;
        let mut buffer = Vec::new(alloc);
        buffer.resize(PIECE, 0)?;
        Ok(Run {
            poll,
            events: Events::with_capacity(alloc, EVENTS)?,
            ready: Vec::new(alloc),
            lines,
            mix: Mix::new(alloc, &load.mixture)?,
            depth: usize::from(load.depth),
            asked: 0,
            tally: Tally::new(alloc)?,
            buffer,
            last: 0,
        })
    }

    // Waits until connections are ready, and notes which. Gives whether any are.
    fn wait(&mut self) -> Result<bool, Fault> {
        let look = Some(Duration::from_millis(LOOK));
        if self.poll.poll(&mut self.events, look).is_err() {
            return Err(Fault::ReadFailed);
        }
        self.ready.clear();
        for event in &self.events {
            let Token(number) = event.token();
            self.ready.push(number)?;
        }
        Ok(!self.ready.is_empty())
    }

    // Makes as many requests on a connection as may be under way there.
    fn fill(&mut self, number: usize, time: u64) -> Result<(), Fault> {
        let Some(line) = self.lines.get_mut(number) else {
            return Ok(());
        };
        for _request in 0..self.depth {
            if line.is_over() || line.under_way() >= self.depth {
                return Ok(());
            }
            line.ask(&self.mix.next()?, time)?;
            self.asked = self.asked.saturating_add(1);
        }
        Ok(())
    }

    // Counts the replies that came on a connection.
    fn hear(&mut self, number: usize, time: u64) -> Result<(), Fault> {
        let Some(line) = self.lines.get_mut(number) else {
            return Ok(());
        };
        if line.read(&mut self.buffer, time, &mut self.tally)? {
            self.last = time;
        }
        Ok(())
    }

    // Writes what waits on a connection.
    fn write(&mut self, number: usize) {
        if let Some(line) = self.lines.get_mut(number) {
            line.write();
        }
    }

    // Hears the connections that are ready, and makes requests there until the time is over.
    fn attend_all<R: Clock>(&mut self, rt: &R, began: Instant, until: u64) -> Result<(), Fault> {
        for _connection in 0..self.ready.len() {
            let Some(number) = self.ready.pop() else {
                return Ok(());
            };
            self.hear(number, micros_since(rt, began)?)?;
            let time = micros_since(rt, began)?;
            if time < until {
                self.fill(number, time)?;
            }
            self.write(number);
        }
        Ok(())
    }

    // Whether no reply is to come any more: where requests are made no longer, all were answered that could be; before that, all
    // connections are over. Linear in the connections.
    fn is_done(&self, asks: bool) -> bool {
        self.lines
            .iter()
            .all(|line| line.is_over() || !asks && line.under_way() == 0)
    }

    // Has rounds until the time is over, and the last replies have come or were waited for.
    fn go<R: Clock>(&mut self, rt: &R, began: Instant, until: u64) -> Result<(), Fault> {
        let mut came = true;
        for _round in 0..u64::MAX {
            let time = micros_since(rt, began)?;
            let asks = time < until;
            if time >= until.saturating_add(PATIENCE) {
                return Ok(());
            }
            // while requests are made, connections are looked at only where nothing came
            if !(asks && came) && self.is_done(asks) {
                return Ok(());
            }
            came = self.wait()?;
            self.attend_all(rt, began, until)?;
        }
        Ok(())
    }

    // What came of it. Refused with `ReadFailed` where all connections ended, and there was no reply.
    fn report(self) -> Result<Report, Fault> {
        let Tally {
            reads,
            writes,
            together,
            refused,
        } = self.tally;
        let mut report = Report {
            asked: self.asked,
            time: self.last,
            reads,
            writes,
            together,
            refused,
            unanswered: 0,
            silent: 0,
            ended: 0,
        };
        for line in &self.lines {
            let waiting = line.under_way() as u64;
            report.unanswered = report.unanswered.saturating_add(waiting);
            report.silent = report.silent.saturating_add(u64::from(waiting > 0));
            report.ended = report.ended.saturating_add(u64::from(line.is_over()));
        }
        if self.last == 0 && report.ended == self.lines.len() as u64 {
            return Err(Fault::ReadFailed);
        }
        Ok(report)
    }
}

/// Runs a load: connects so often, keeps so many requests under way on each connection for so long, and waits two seconds at most for
/// the last replies. Refused with `ReadFailed` where a connection can't be made, or all ended without a reply, or there is no clock, and
/// with `Memory`. Constant for each request; it takes no more memory for more of them.
pub fn run_load<R: Net + Clock>(rt: &R, alloc: Global, load: &Load) -> Result<Report, Fault> {
    let Ok(began) = Instant::now(rt) else {
        return Err(Fault::ReadFailed);
    };
    let mut run = Run::open(rt, alloc, load)?;
    let until = u64::from(load.seconds).saturating_mul(1_000_000);
    run.go(rt, began, until)?;
    run.report()
}
