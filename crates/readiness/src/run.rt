//! A whole run of lines that arrive, have turns and leave.
ghost use Rattle.std.specs.Prelude.{◌≡◌, ◌<◌, ◌∷◌, ◌++◌, [], List, Some, None, length, IfOk, OnOk};
ghost use Rattle.readiness.specs.declared.connection.Connection.{Connection};
ghost use Rattle.readiness.specs.Exchanges.{Entry, LogChain};
ghost use Rattle.readiness.specs.Places.{AreBounded};
ghost use Rattle.readiness.specs.Runs.{RanFor, HasArrived, HasLeft, arrivals};

use crate::connection::{Connection, LIMIT};
use crate::line::ReadyLine;
use crate::places::{Places, listen_at, reply_at};
use crate::shared::SharedPort;
use logical_time::Fault;
use std::alloc::{AllocError, Global};

/// What happens next.
#[derive(Drop)]
pub enum Act<L> {
    /// A line arrives, and is given the first free place, or a new one where none is free.
    Arrives(L),
    /// The connection at a place has a turn, if one stands there: it takes in, the port settles, and it writes.
    Ready(usize),
    /// The connection at a place leaves it, if one stands there.
    Leaves(usize),
}

/// A connection that left its place.
#[derive(Drop)]
pub struct Gone<L> {
    pub(crate) place: usize,
    pub(crate) connection: Connection<L>,
}

/// What a run leaves: the places, and the connections that left theirs, in order.
#[derive(Drop)]
pub struct Run<L> {
    pub(crate) places: Places<L>,
    pub(crate) gone: Vec<Gone<L>>,
}

impl<L> Gone<L> {
    /// The place.
    pub fn place(&self) -> usize
        ensures { result ≡ self.now.place }
    {
        self.place
    }

    /// The connection, as it was then.
    pub fn connection(&self) -> &Connection<L>
        ensures { result.now ≡ self.now.connection }
    {
        &self.connection
    }
}

impl<L: Drop> Run<L> {
    /// The places.
    pub fn places(&self) -> &Places<L>
        ensures { result.now ≡ self.now.places }
    {
        &self.places
    }

    /// The connections that left theirs.
    pub fn gone(&self) -> &[Gone<L>]
        ensures { result.now ≡ self.now.gone.items }
    {
        &self.gone
    }
}

// A line is given a place.
fn arrive<L: Drop>(alloc: Global, places: &mut Places<L>, line: L) -> Result<(), AllocError>
    ensures { OnOk result (HasArrived line places.old.places.items places.new.places.items) }
{
    match places.free_place() {
        Some(place) => places.admit(alloc, place, line),
        None => places.places.push(Some(Connection::new(alloc, line)))?,
    }
    Ok(())
}

// A connection leaves its place, if one stands there.
fn leave<L: Drop>(run: &mut Run<L>, place: usize) -> Result<(), AllocError>
    ensures { OnOk result (HasLeft place run.old.places.places.items run.old.gone.items run.new.places.places.items run.new.gone.items) }
{
    if place >= run.places.len() {
        return Ok(());
    }
    let Some(connection) = run.places.release(place) else {
        return Ok(());
    };
    run.gone.push(Gone { place, connection })?;
    Ok(())
}

// What happens next, happens.
fn act_on<L: ReadyLine + Drop, P: SharedPort>(
    alloc: Global,
    port: &mut P,
    run: &mut Run<L>,
    act: Act<L>,
    buffer: &mut [u8],
) -> Result<(), Fault>
    requires { 0 < length buffer.old }
    ensures chain { (log : List Entry) × LogChain P.steps (P.seen port.old) log (P.seen port.new) }
    ensures ran { OnOk result ((lines : List L) (p : P.State) → RanFor L.seen P.steps lines run.old.gone.items p run.old.places.places.items (P.seen port.old) → RanFor L.seen P.steps (lines ++ arrivals (act ∷ [])) run.new.gone.items p run.new.places.places.items (P.seen port.new)) }
    ensures bounded { OnOk result (AreBounded LIMIT L.seen run.old.places.places.items → AreBounded LIMIT L.seen run.new.places.places.items) }
{
    match act {
        Act::Arrives(line) => {
            arrive(alloc, &mut run.places, line)?;
            Ok(())
        }
        Act::Ready(place) => {
            listen_at(alloc, port, &mut run.places, place, buffer);
            port.settle()?;
            let _left = reply_at(&mut run.places, place);
            Ok(())
        }
        Act::Leaves(place) => {
            leave(run, place)?;
            Ok(())
        }
    }
}

/// Serves lines together, as they arrive, have turns and leave, in whatever order. A place that was left is given
/// again. What was read from each line spells the requests that its connection asked, and what was written to it tells
/// their answers; each request is a step of the place where its connection stood. Refused
/// with `Memory`, and as settling is.
pub fn run_all<L: ReadyLine + Drop, P: SharedPort>(
    alloc: Global,
    port: &mut P,
    acts: Vec<Act<L>>,
    buffer: &mut [u8],
) -> Result<Run<L>, Fault>
    requires { 0 < length buffer.old }
    ensures chain { (log : List Entry) × LogChain P.steps (P.seen port.old) log (P.seen port.new) }
    ensures ran { IfOk result (λ run. RanFor L.seen P.steps (arrivals acts.items) run.gone.items (P.seen port.old) run.places.places.items (P.seen port.new)) }
    ensures bounded { IfOk result (λ run. AreBounded LIMIT L.seen run.places.places.items) }
{
    let mut run = Run {
        places: Places::new(alloc, 0)?,
        gone: Vec::new(alloc),
    };
    for act in acts {
        act_on(alloc, port, &mut run, act, buffer)?;
    }
    Ok(run)
}
