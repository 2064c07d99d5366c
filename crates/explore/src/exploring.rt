//! What an exploration tells of a script.
ghost use Rattle.std.specs.Prelude.{◌≡◌, ◌+◌, length, IfOk, IfErr};
ghost use Rattle.std.specs.List.{All};
ghost use Rattle.workload.specs.declared.script.Script.{Script};
ghost use Rattle.explore.specs.Exploration.{exploration_text, capped, IsBelow, IsShown, IsAudited, AreAudited, IsExplorationOf, IsExplorationFor, IsUnexplored};
ghost use Rattle.explore.specs.declared.found.Exploration.{Exploration};

use crate::found::{Exploration, Found, Head, bytes_of};
use crate::limits::Limits;
use crate::numbering::Move;
use crate::orders::is_order_of;
use crate::searching::{End, Search, follow_orders};
use crate::spelling::script_text;
use crate::stop::Stop;
use audit::Audit;
use logical_time::Fault;
use program::Output;
use serde_json::Value as Json;
use std::alloc::Global;
use std::collections::HashMap;
use std::io::Write;
use std::thread::Threads;
use workload::{Events, Script, ScriptEvent, read_script, sim, simulate_audited, transcript_text};

// An event of a world as one of a script.
fn event_of(script: &Script, one: Move) -> Result<ScriptEvent, Stop> {
    let place = match one {
        Move::Deliver(number) => return Ok(ScriptEvent::Deliver { number }),
        Move::Own(place) => place,
    };
    match script.events.as_slice().get(place) {
        Some(ScriptEvent::Submit { session, op }) => Ok(ScriptEvent::Submit {
            session: *session,
            op: op.copied()?,
        }),
        Some(ScriptEvent::Collect { shard, time }) => Ok(ScriptEvent::Collect {
            shard: *shard,
            time: *time,
        }),
        _ => Err(Stop::Stray),
    }
}

// The script with these events.
fn script_of(alloc: Global, script: &Script, moves: &[Move]) -> Result<Script, Stop> {
    let mut events = Vec::with_capacity(alloc, moves.len())?;
    for one in moves {
        events.push(event_of(script, *one)?)?;
    }
    Ok(Script {
        topology: script.topology.copied()?,
        events: Events::from_vec(events),
    })
}

// Two audits together.
fn together(a: Audit, b: Audit) -> Audit
    ensures { result ≡ record { reads = capped (a.reads + b.reads); wrong = capped (a.wrong + b.wrong) } }
{
    Audit {
        reads: a.reads.saturating_add(b.reads),
        wrong: a.wrong.saturating_add(b.wrong),
    }
}

// Audits a run to an end. Refused with `Stray` where that is no order of the script.
fn audit_at(
    rt: &(impl Threads + Sync),
    alloc: Global,
    lose: bool,
    script: &Script,
    search: &Search,
    end: End,
) -> Result<Audit, Stop>
    ensures audit { IfOk result (λ found. (order : Script) × IsAudited lose script.now (record { order = order; found = found })) }
    // no read of a run is wrong
    ensures right { IfOk result (λ found. found.wrong ≡ 0) }
{
    let moves = search.moves(alloc, end.events, end.place)?;
    let played = script_of(alloc, script, moves.as_slice())?;
    if !is_order_of(alloc, lose, script, &played)? {
        return Err(Stop::Stray);
    }
    let audited = simulate_audited(rt, alloc, &played)?;
    Ok(audited.2)
}

// Audits a run to each end.
fn audit_all(
    rt: &(impl Threads + Sync),
    alloc: Global,
    lose: bool,
    script: &Script,
    search: &Search,
    ends: &[End],
) -> Result<Audit, Stop>
    ensures { IfOk result (AreAudited lose script.now (length ends.now)) }
{
    let mut all = Audit { reads: 0, wrong: 0 };
    for end in ends {
        all = together(all, audit_at(rt, alloc, lose, script, search, *end)?);
    }
    Ok(all)
}

// For each list of lines that was told, the first end that tells it, with all runs that end so. Refused with `Memory`
// alone.
fn by_transcript(alloc: Global, ends: &[End]) -> Result<Vec<End>, Stop> {
    let mut places: HashMap<usize, usize> = HashMap::new(alloc);
    let mut firsts: Vec<End> = Vec::new(alloc);
    for end in ends {
        let place = places.get(&end.told).copied().unwrap_or(firsts.len());
        match firsts.get_mut(place) {
            Some(first) => first.runs = first.runs.saturating_add(end.runs),
            None => {
                places.insert(end.told, place)?;
                firsts.push(*end)?;
            }
        }
    }
    Ok(firsts)
}

// How many events the order of the script has that this text spells. Refused with `Stray` where it spells none.
fn events_below(alloc: Global, lose: bool, script: &Script, text: &str) -> Result<usize, Stop>
    ensures { IfOk result (λ events. IsBelow lose script.now events text.now) }
{
    let order = read_script(alloc, text)?;
    if !is_order_of(alloc, lose, script, &order)? {
        return Err(Stop::Stray);
    }
    Ok(order.events.as_slice().len())
}

// The run to this end, as `sim` runs it.
fn found_at(
    alloc: Global,
    lose: bool,
    script: &Script,
    events: &[Json],
    search: &Search,
    end: End,
    number: usize,
) -> Result<Found, Stop>
    ensures { IfOk result (IsShown lose script.now) }
{
    let moves = search.moves(alloc, end.events, end.place)?;
    let text = script_text(alloc, &script.topology, events, moves.as_slice())?;
    let count = events_below(alloc, lose, script, text.as_str())?;
    let transcript = sim(alloc, text.as_bytes())?;
    Ok(Found {
        number,
        runs: end.runs,
        events: count,
        told: transcript_text(alloc, &transcript)?,
        script: text,
    })
}

// Each transcript that was told.
fn all_found(
    alloc: Global,
    lose: bool,
    script: &Script,
    events: &[Json],
    search: &Search,
    firsts: &[End],
) -> Result<Vec<Found>, Stop>
    ensures { IfOk result (λ all. All (IsShown lose script.now) all.items) }
{
    let mut all = Vec::with_capacity(alloc, firsts.len())?;
    for (place, end) in firsts.iter().enumerate() {
        let number = place.saturating_add(1);
        all.push(found_at(alloc, lose, script, events, search, *end, number)?)?;
    }
    Ok(all)
}

// How many runs there are, at most 2^128 - 1.
fn runs_of(ends: &[End]) -> u128 {
    let mut runs = 0u128;
    for end in ends {
        runs = runs.saturating_add(end.runs);
    }
    runs
}

// What stands before the transcripts.
fn head_of(
    rt: &(impl Threads + Sync),
    alloc: Global,
    lose: bool,
    script: &Script,
    search: &Search,
) -> Result<Head, Stop>
    ensures { IfOk result (λ head. AreAudited lose script.now head.ends head.audited) }
{
    let ends = search.ends.as_slice();
    Ok(Head {
        runs: runs_of(ends),
        states: search.states,
        events: search.events,
        ends: ends.len(),
        audited: audit_all(rt, alloc, lose, script, search, ends)?,
        gave_up: search.gave_up,
    })
}

// The events of a script as they are written in it.
fn events_in(alloc: Global, text: &str) -> Result<Json, Stop> {
    match Json::from_str(alloc, text) {
        Ok(json) => Ok(json),
        Err(error) if error.is_memory() => Err(Stop::Memory),
        Err(_) => Err(Stop::Stray),
    }
}

/// Follows each order in which the messages of a script can come. `text` is the script's own.
fn explore_script<P: Write>(
    rt: &(impl Threads + Sync),
    alloc: Global,
    limits: Limits,
    text: &str,
    script: &Script,
    progress: &mut Output<P>,
) -> Result<Exploration, Stop>
    ensures { IfOk result (IsExplorationOf limits.lose script.now) }
{
    let json = events_in(alloc, text)?;
    let Some(events) = json.get("events").and_then(Json::as_array) else {
        return Err(Stop::Stray);
    };
    let search = follow_orders(alloc, script, limits, progress)?;
    let head = head_of(rt, alloc, limits.lose, script, &search)?;
    let firsts = by_transcript(alloc, search.ends.as_slice())?;
    let (events, firsts) = (events.as_slice(), firsts.as_slice());
    let found = all_found(alloc, limits.lose, script, events, &search, firsts)?;
    Ok(Exploration { head, found })
}

// The text of an exploration of a script.
fn explored_text<P: Write>(
    rt: &(impl Threads + Sync),
    alloc: Global,
    limits: Limits,
    text: &str,
    script: &Script,
    progress: &mut Output<P>,
) -> Result<Vec<u8>, Stop>
    ensures { IfOk result (λ told. (e : Exploration) × IsExplorationOf limits.lose script.now e × (told.items ≡ exploration_text e)) }
{
    let exploration = explore_script(rt, alloc, limits, text, script, progress)?;
    let told = bytes_of(alloc, &exploration)?;
    Ok(told)
}

/// What is told of an exploration of the script that the bytes spell. Refused with `Script` where they spell none,
/// with `ClockSpent` where a clock would leave its range in some order, and with `Memory`; with `StrangerEnd` never,
/// as far as is tested.
pub(crate) fn explore_bytes<P: Write>(
    rt: &(impl Threads + Sync),
    alloc: Global,
    limits: Limits,
    input: &[u8],
    progress: &mut Output<P>,
) -> Result<Vec<u8>, Fault>
    ensures text { IfOk result (λ text. IsExplorationFor limits.lose input.now text.items) }
    ensures refused { IfErr result (IsUnexplored input.now) }
{
    let Ok(text) = simdutf8::compat::from_utf8(input) else {
        return Err(Fault::Script);
    };
    let script = read_script(alloc, text)?;
    match explored_text(rt, alloc, limits, text, &script, progress) {
        Ok(told) => Ok(told),
        Err(stop) => Err(stop.fault()),
    }
}
