//! Objects read member by member: the bounds of a range, and what a script tells before its events.
//!
//! Of a member that is written twice, the last one counts.
ghost use Rattle.std.specs.Prelude.{◌≡◌, [], false, Some, IfSome};
ghost use Rattle.workload.specs.Script as form;
ghost use Rattle.workload.specs.Streams.{Reads, Bounded, Headed, BeginWith, Tells};

use crate::shape::Shaped;
use crate::streaming::{flag, list_in, number_below, opens_object};
use column_family::{Name, Schema};
use json::Reader;
use messages::Topology;
use slice::Predicate;
use std::alloc::Global;

/// How many columns a range asks for where it doesn't say it.
pub(crate) const USUAL_COUNT: u32 = 100;
/// The first number that is no count of a range: 2^32.
pub(crate) const COUNT_END: u64 = 0x1_0000_0000;

/// The bounds of a range, as far as it was read.
#[derive(Drop)]
pub(crate) struct Bounds {
    start: Name,
    finish: Name,
    reversed: bool,
    count: u32,
}

/// What a script tells before its events, as far as it was read.
#[derive(Drop)]
pub(crate) struct Heading {
    dcs: Option<u16>,
    shards: Option<u16>,
    families: Option<Schema>,
    homes: Option<Vec<u16>>,
}

/// The bounds of a range that tells none: its ends are open.
fn usual_bounds(alloc: Global) -> Option<Bounds>
    ensures { IfSome result (λ b. b ≡ record { start = []; finish = []; reversed = false; count = 100 }) }
{
    let start = Name::from_slice(alloc, b"").ok()?;
    let finish = Name::from_slice(alloc, b"").ok()?;
    Some(Bounds {
        start,
        finish,
        reversed: false,
        count: USUAL_COUNT,
    })
}

/// The bound of this name that comes next.
fn bound(
    alloc: Global,
    name: &str,
    bounds: &mut Bounds,
    reader: &mut Reader<'_>,
    depth: usize,
) -> Option<()>
    ensures { IfSome result (λ done. Bounded name.now depth reader.old reader.new bounds.old bounds.new) }
{
    if name == "start" {
        let start = Name::of_reader(alloc, reader, depth)?;
        bounds.start = start;
        Some(())
    } else if name == "finish" {
        let finish = Name::of_reader(alloc, reader, depth)?;
        bounds.finish = finish;
        Some(())
    } else if name == "reversed" {
        let reversed = flag(reader, depth)?;
        bounds.reversed = reversed;
        Some(())
    } else if name == "count" {
        let count = number_below(reader, depth, COUNT_END)? as u32;
        bounds.count = count;
        Some(())
    } else {
        None
    }
}

/// The range that comes next.
pub(crate) fn range(alloc: Global, reader: &mut Reader<'_>, depth: usize) -> Option<Predicate>
    ensures { IfSome result (Reads form.range_of depth reader.old reader.new) }
{
    if depth == 0 || !opens_object(reader) {
        return None;
    }
    let mut bounds = usual_bounds(alloc)?;
    while let Some(name) = reader.next_key().ok()? {
        bound(alloc, name, &mut bounds, reader, depth - 1)?;
    }
    Some(Predicate::Range {
        start: bounds.start,
        finish: bounds.finish,
        reversed: bounds.reversed,
        count: bounds.count,
    })
}

/// The member of this name that comes next.
fn head(
    alloc: Global,
    name: &str,
    heading: &mut Heading,
    reader: &mut Reader<'_>,
    depth: usize,
) -> Option<()>
    ensures { IfSome result (λ done. Headed name.now depth reader.old reader.new heading.old heading.new) }
{
    if name == "dcs" {
        let dcs = u16::of_reader(alloc, reader, depth)?;
        heading.dcs = Some(dcs);
        Some(())
    } else if name == "shards" {
        let shards = u16::of_reader(alloc, reader, depth)?;
        heading.shards = Some(shards);
        Some(())
    } else if name == "families" {
        let families = Schema::of_reader(alloc, reader, depth)?;
        heading.families = Some(families);
        Some(())
    } else if name == "homes" {
        let homes = list_in(alloc, reader, depth)?;
        heading.homes = Some(homes);
        Some(())
    } else {
        None
    }
}

/// The members before the events; then these come.
pub(crate) fn header(alloc: Global, reader: &mut Reader<'_>, depth: usize) -> Option<Heading>
    ensures { IfSome result (BeginWith depth reader.old reader.new) }
{
    let mut heading = Heading {
        dcs: None,
        shards: None,
        families: None,
        homes: None,
    };
    while let Ok(Some(name)) = reader.next_key() {
        if name == "events" {
            return Some(heading);
        }
        head(alloc, name, &mut heading, reader, depth)?;
    }
    None
}

/// The topology of these parts, if it is one.
fn topology_among(dcs: u16, shards: u16, schema: Schema, homes: Vec<u16>) -> Option<Topology>
    ensures { IfSome result (λ top. form.topology_among (record { dcs = dcs; shards = shards; schema = schema; homes = homes.items }) ≡ Some top) }
{
    match Topology::new(dcs, shards, schema, homes) {
        Ok(topology) => Some(topology),
        Err(_) => None,
    }
}

/// The topology that a script tells, whatever its events are.
pub(crate) fn topology_in(heading: Heading) -> Option<Topology>
    ensures { IfSome result (Tells heading) }
{
    let dcs = heading.dcs?;
    let shards = heading.shards?;
    let schema = heading.families?;
    let homes = heading.homes?;
    topology_among(dcs, shards, schema, homes)
}
