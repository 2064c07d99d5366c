//! A script runs while it is read, so that no list is made of all its events.
ghost use Rattle.std.specs.Prelude.{◌≡◌, ◌<◌, [], length, false, IfSome};
ghost use Rattle.world.specs.World.{run_of};
ghost use Rattle.workload.specs.Played.{ArePlayed};
ghost use Rattle.workload.specs.Performing.{IsTextFor};
ghost use Rattle.workload.specs.Script as form;
ghost use Rattle.workload.specs.Streams.{IsStretch};
ghost use Rattle.workload.specs.Text.{text_of};

use crate::marks::{Mark, with_outcomes};
use crate::reading::MOST_EVENTS;
use crate::script::ScriptEvent;
use crate::simulating::play_some;
use crate::streaming::{DEPTH, begun, event, is_end, opens};
use crate::transcript::Transcript;
use json::{Reader, Scratch};
use messages::Topology;
use std::alloc::Global;
use world::World;

/// How many events are read before they happen: so many that reading and running don't take turns all the time, and so few
/// that what they hold is still at hand.
const AT_ONCE: usize = 256;

/// Events of a list that come one after the other.
#[derive(Drop)]
struct Stretch {
    /// The events.
    events: Vec<ScriptEvent>,
    /// Whether the list ends with them.
    is_last: bool,
}

/// The next events of a list.
fn next_events(
    alloc: Global,
    topology: &Topology,
    reader: &mut Reader<'_>,
    depth: usize,
) -> Option<Stretch>
    ensures next { IfSome result (λ s. IsStretch (form.event_of topology.now) depth reader.old reader.new s.events.items s.is_last) }
    ensures shorter { IfSome result (λ s. s.is_last ≡ false → length reader.new < length reader.old) }
{
    let mut events = Vec::with_capacity(alloc, AT_ONCE).ok()?;
    while events.len() < AT_ONCE {
        if reader.take_end_array() {
            return Some(Stretch {
                events,
                is_last: true,
            });
        }
        let event = event(alloc, topology, reader, depth)?;
        events.push(event).ok()?;
    }
    Some(Stretch {
        events,
        is_last: false,
    })
}

/// The events of the list that comes next happen in a world to which nothing has happened, and are noted.
fn play_along(
    alloc: Global,
    topology: &Topology,
    world: &mut World,
    reader: &mut Reader<'_>,
    depth: usize,
) -> Option<Vec<Mark>>
    requires { world.old ≡ record { top = topology.now; events = [] } }
    ensures { IfSome result (λ marks. ArePlayed topology.now depth reader.old reader.new (run_of world.new) marks.items) }
{
    if depth == 0 || !opens(reader) {
        return None;
    }
    let mut marks = Vec::new(alloc);
    let mut left = MOST_EVENTS;
    let mut is_open = true;
    while is_open {
        let next = next_events(alloc, topology, reader, depth - 1)?;
        if left < next.events.len() {
            return None;
        }
        left -= next.events.len();
        play_some(world, next.events.as_slice(), &mut marks).ok()?;
        is_open = !next.is_last;
    }
    Some(marks)
}

/// The transcript of the script that a text stands for, for a program that ends with it, where its events are the last
/// member, none of them ends it, and memory is there.
pub(crate) fn run_along(alloc: Global, text: &str) -> Option<Transcript>
    ensures { IfSome result (λ transcript. IsTextFor text.now (text_of transcript)) }
{
    let mut scratch = Scratch::new(alloc);
    let mut reader = Reader::new(text, &mut scratch).ok()?;
    let topology = begun(alloc, &mut reader)?;
    // each data centre has a shard
    let _limits = topology.shards();
    let mut world = World::new(alloc, &topology).ok()?;
    let played = play_along(alloc, &topology, &mut world, &mut reader, DEPTH - 1);
    match played {
        Some(marks) if is_end(&mut reader) => {
            let completed = world.leave();
            let transcript = with_outcomes(alloc, marks.as_slice(), completed).ok()?;
            Some(transcript)
        }
        _ => {
            world.close();
            None
        }
    }
}
