//! A run of rounds, from its beginning.
ghost use Rattle.std.specs.Prelude.{IfOk};
ghost use Rattle.doors.specs.Runs.{HasServed, HasServedLines};

use crate::doorway::Doorway;
use crate::listening::Doors;
use crate::memory::MemoryDoor;
use logical_time::Fault;
use readiness::{MemoryLine, ReadyLine, SharedPort};
use std::alloc::Global;

/// Serves who comes by a door, at so many places, in one round for each of these times. Who sends nothing for `idle`
/// milliseconds may be sent away; nobody is for none. At each place the lines that were given it account for all that
/// was asked there. Refused as `Doors::new` and `Doors::round` are.
pub fn run<L: ReadyLine + Drop, D: Doorway<L> + Drop, P: SharedPort>(
    alloc: Global,
    port: &mut P,
    door: D,
    places: usize,
    idle: Option<u64>,
    times: &[u64],
) -> Result<Doors<L, D>, Fault>
    ensures { IfOk result (λ d. HasServed L.seen P.steps D.steps idle door (P.seen port.old) d.door d.hall.places.places.items (P.seen port.new)) }
{
    let mut doors = Doors::new(alloc, door, places)?;
    doors.idle = idle;
    doors.rounds(port, times)?;
    Ok(doors)
}

/// Serves the lines of a door in memory, at so many places, in one round for each of these times. The lines that were
/// given places are the first of its list, and what was read from each and written to it is told byte by byte. Refused
/// as `run` is.
pub fn run_lines<P: SharedPort>(
    alloc: Global,
    port: &mut P,
    door: MemoryDoor,
    places: usize,
    idle: Option<u64>,
    times: &[u64],
) -> Result<Doors<MemoryLine, MemoryDoor>, Fault>
    ensures { IfOk result (λ d. HasServedLines P.steps idle door.lines.items (P.seen port.old) d.door.lines.items d.hall.places.places.items (P.seen port.new)) }
{
    let doors = run(alloc, port, door, places, idle, times)?;
    Ok(doors)
}
