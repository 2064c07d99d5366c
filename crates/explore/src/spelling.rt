//! A run as the text of a script.

use crate::numbering::Move;
use crate::stop::Stop;
use messages::Topology;
use serde_json::Value as Json;
use std::alloc::{AllocError, Global};
use std::str;

// Adds a list of numbers.
fn put_numbers(text: &mut String, numbers: &[u16]) -> Result<(), AllocError> {
    let mut between = "";
    for number in numbers {
        write!(text, "{between}{number}")?;
        between = ",";
    }
    Ok(())
}

// Adds the names of the families, which have letters, digits and underscores alone.
fn put_families(text: &mut String, topology: &Topology) -> Result<(), AllocError> {
    let mut between = "";
    for family in topology.schema().families() {
        let name = str::from_utf8(family.as_slice()).unwrap_or("");
        write!(text, "{between}\"{name}\"")?;
        between = ",";
    }
    Ok(())
}

// Adds all that stands before the events.
fn put_head(text: &mut String, topology: &Topology) -> Result<(), AllocError> {
    let (dcs, shards) = (topology.dcs(), topology.shards().get());
    write!(text, "{{\"dcs\":{dcs},\"shards\":{shards},\"families\":[")?;
    put_families(text, topology)?;
    text.push_str("],\"homes\":[")?;
    put_numbers(text, topology.homes())?;
    text.push_str("],\"events\":[")
}

// Adds an event: one of the script as it stands there, or a delivery.
fn put_move(text: &mut String, events: &[Json], alloc: Global, one: Move) -> Result<(), Stop> {
    match one {
        Move::Own(place) => {
            let Some(event) = events.get(place) else {
                return Err(Stop::Stray);
            };
            let event = event.to_string(alloc)?;
            text.push_str(event.as_str())?;
        }
        Move::Deliver(number) => write!(text, "[\"deliver\",{number}]")?,
    }
    Ok(())
}

/// The text of the script with these actors and events. Refused with `Memory`, and with `Stray` where the events aren't
/// those of the script.
pub(crate) fn script_text(
    alloc: Global,
    topology: &Topology,
    events: &[Json],
    moves: &[Move],
) -> Result<String, Stop> {
    let mut text = String::new(alloc);
    put_head(&mut text, topology)?;
    let mut between = "";
    for one in moves {
        text.push_str(between)?;
        put_move(&mut text, events, alloc, *one)?;
        between = ",";
    }
    text.push_str("]}")?;
    Ok(text)
}
