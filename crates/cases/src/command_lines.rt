//! Command lines.
use crate::showing::text_of;
use crate::steps::Subject;
use command_line::{Asked, Bounds, Joining, Loading, Serving, Told, read_words};
use logical_time::Fault;
use program::Output;
use std::alloc::Global;

/// Takes command lines, and shows which file is to be run, or which server, or the exit status and what is written and told.
#[derive(Drop)]
pub(crate) struct Line;

fn copies(alloc: Global, words: &[&str]) -> Result<Vec<String>, Fault> {
    let mut copies = Vec::new(alloc);
    for word in words {
        copies.push(String::from_str(alloc, word)?)?;
    }
    Ok(copies)
}

fn add_answer(alloc: Global, told: &Told, seen: &mut String) -> Result<(), Fault> {
    let mut output = Output::new(Vec::new(alloc));
    let mut errors = Output::new(Vec::new(alloc));
    let status = told.answer(&mut output, &mut errors);
    let (written, told) = (text_of(&output.writer), text_of(&errors.writer));
    Ok(write!(seen, "{status}\n{written}{told}")?)
}

fn add_audit(audit: bool, seen: &mut String) -> Result<(), Fault> {
    if audit {
        write!(seen, ", audited")?;
    }
    Ok(())
}

fn add_server(serving: &Serving, seen: &mut String) -> Result<(), Fault> {
    let (port, topology) = (serving.port, &serving.topology);
    let (dcs, shards) = (topology.dcs(), topology.shards().get());
    write!(seen, "port {port}, {dcs} of {shards} shards, homes")?;
    for home in topology.homes() {
        write!(seen, " {home}")?;
    }
    if serving.concurrent {
        write!(seen, ", at once")?;
    }
    if let Some(folder) = &serving.data {
        write!(seen, ", log {folder}")?;
    }
    Ok(())
}

fn add_node(joining: &Joining, seen: &mut String) -> Result<(), Fault> {
    let Joining {
        name,
        dc,
        secret,
        behind,
        idle,
        data,
    } = joining;
    write!(
        seen,
        "site {dc} of {name}, secret {secret}, {behind} bytes, {idle} seconds"
    )?;
    if let Some(folder) = data {
        write!(seen, ", log {folder}")?;
    }
    Ok(())
}

fn add_load(loading: &Loading, seen: &mut String) -> Result<(), Fault> {
    let Loading {
        port,
        connections,
        depth,
        seconds,
        reads,
        keys,
        value,
        seed,
        family,
    } = loading;
    let family = text_of(family.as_slice());
    write!(seen, "port {port}, {connections} by {depth}, {seconds} s")?;
    write!(seen, ", {reads} % reads of {keys} keys in {family}")?;
    Ok(write!(seen, ", {value} bytes, seed {seed}")?)
}

fn add_bounds(bounds: Bounds, seen: &mut String) -> Result<(), Fault> {
    let (events, states) = (bounds.events, bounds.states);
    write!(seen, ", {events} events, {states} states")?;
    if bounds.repeat {
        write!(seen, ", repeated")?;
    }
    if bounds.lose {
        write!(seen, ", lost")?;
    }
    Ok(())
}

impl Subject for Line {
    fn step(&mut self, alloc: Global, words: &[&str], seen: &mut String) -> Result<(), Fault> {
        let words = copies(alloc, words)?;
        match read_words(alloc, words.as_slice())? {
            Asked::Sim { name, audit } => {
                write!(seen, "{name}")?;
                add_audit(audit, seen)
            }
            Asked::History { name } => Ok(write!(seen, "the history of {name}")?),
            Asked::Trace { name } => Ok(write!(seen, "the trace of {name}")?),
            Asked::Run {
                name,
                workers,
                audit,
            } => {
                write!(seen, "{name} by {workers}")?;
                add_audit(audit, seen)
            }
            Asked::BySites { name } => Ok(write!(seen, "{name} by sites")?),
            Asked::Audit { name } => Ok(write!(seen, "the audit of {name}")?),
            Asked::Explore { name, bounds } => {
                write!(seen, "orders of {name}")?;
                add_bounds(bounds, seen)
            }
            Asked::Serve(serving) => add_server(&serving, seen),
            Asked::Node(joining) => add_node(&joining, seen),
            Asked::Load(loading) => add_load(&loading, seen),
            Asked::Log { name, history } => {
                let what = if history { "the history of " } else { "" };
                Ok(write!(seen, "{what}the log {name}")?)
            }
            Asked::Told(told) => add_answer(alloc, &told, seen),
        }
    }
}
