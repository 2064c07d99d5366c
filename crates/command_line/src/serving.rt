//! What a server is asked for.
use crate::told::Told;
use clap::{Arg, ArgAction, ArgMatches, Command, value_parser};
use column_family::{Family, Schema};
use messages::Topology;
use std::alloc::{AllocError, Global};

/// A server that is asked for.
#[derive(Drop)]
pub struct Serving {
    /// The port that it listens on.
    pub port: u16,
    /// Its data centres, shards, column families and sessions.
    pub topology: Topology,
    /// Whether all sessions serve at once, each one connection after the other, until it is stopped. Else each connection is
    /// the next session, one after the other.
    pub concurrent: bool,
    /// After how many seconds a connection that sent nothing leaves when somebody waits for its place, where all sessions serve at
    /// once; 0 for never.
    pub idle: u32,
    /// How many seconds are between two lines that tell what is served, where all sessions serve at once; 0 for no line.
    pub report: u32,
    /// The folder of its log, where it keeps one: it comes back from that, and all sessions serve at once.
    pub data: Option<String>,
}

/// How many sessions there may be where they serve one after the other.
const FEW_SESSIONS: u16 = 16;

/// An option with a value.
pub(crate) fn option<'a>(alloc: Global, name: &'a str, shown: &'a str, help: &'a str) -> Arg<'a> {
    Arg::new(alloc, name)
        .long(name)
        .value_name(shown)
        .action(ArgAction::Set)
        .help(help)
}

// The option that asks for all sessions at once.
fn concurrent<'a>(alloc: Global) -> Arg<'a> {
    Arg::new(alloc, "concurrent")
        .long("concurrent")
        .action(ArgAction::SetTrue)
        .help(
            "Serves all sessions at once, until it is stopped; a connection is given a free session",
        )
}

// The option that asks for a log.
fn data<'a>(alloc: Global) -> Result<Arg<'a>, AllocError> {
    option(
        alloc,
        "data",
        "FOLDER",
        "With --concurrent: keeps a log in this folder, which is made where it is missing, and comes back from it",
    )
    .requires_arg("concurrent")
}

/// The option that says after how many seconds something comes.
pub(crate) fn seconds<'a>(
    alloc: Global,
    name: &'a str,
    help: &'a str,
    otherwise: &'a str,
) -> Arg<'a> {
    option(alloc, name, "SECONDS", help)
        .value_parser(value_parser!(u32).range(0..86_401))
        .default_value(otherwise)
}

// The options that say which data centres, shards and column families there are.
fn with_world<'a>(alloc: Global, command: Command<'a>) -> Result<Command<'a>, AllocError> {
    let dcs = option(alloc, "dcs", "D", "So many data centres")
        .value_parser(value_parser!(u16).range(1..5))
        .default_value("1");
    let shards = option(alloc, "shards", "S", "So many shards in each")
        .value_parser(value_parser!(u16).range(1..9))
        .default_value("2");
    let families = option(
        alloc,
        "families",
        "LIST",
        "The names of the column families, with commas",
    )
    .default_value("f");
    command.arg(dcs)?.arg(shards)?.arg(families)
}

// The options of a server of all sessions at once.
fn with_many<'a>(alloc: Global, command: Command<'a>) -> Result<Command<'a>, AllocError> {
    let idle = seconds(
        alloc,
        "idle",
        "With --concurrent: a connection that sent nothing for so long leaves when somebody waits for a place; 0 for never",
        "300",
    );
    let report = seconds(
        alloc,
        "report",
        "With --concurrent: tells on standard error each so often what is served and held; 0 for never",
        "0",
    );
    command
        .arg(concurrent(alloc))?
        .arg(data(alloc)?)?
        .arg(idle)?
        .arg(report)
}

/// The subcommand that asks for a server.
pub(crate) fn serve_command<'a>(alloc: Global) -> Result<Command<'a>, AllocError> {
    let port = option(alloc, "port", "P", "Listens on this port of 127.0.0.1")
        .required(true)
        .value_parser(value_parser!(u16).range(1024..65536));
    let sessions = option(
        alloc,
        "sessions",
        "N",
        "Serves so many connections, up to 16, one after the other; with --concurrent, up to 10000, so many at once",
    )
    .required(true)
    .value_parser(value_parser!(u16).range(1..10_001));
    let command = Command::new(alloc, "serve")
        .about(
            "Serves connections with frames of requests, as docs/formats.md says; session i, from 0, has home i mod D",
        )
        .after_help("Example: eiger serve --port 7000 --sessions 2")
        .arg(port)?
        .arg(sessions)?;
    with_many(alloc, with_world(alloc, command)?)
}

// The families with these names, which have commas between them, if there may be such.
fn schema_of(alloc: Global, names: &str) -> Result<Option<Schema>, AllocError> {
    let mut families = Vec::new(alloc);
    for name in names.split(',') {
        families.push(Family::from_slice(alloc, name.as_bytes())?)?;
    }
    Ok(Schema::new(families))
}

// The homes of so many sessions: they go round the data centres.
fn homes_of(alloc: Global, sessions: u16, dcs: u16) -> Result<Vec<u16>, AllocError> {
    let mut homes = Vec::new(alloc);
    for session in 0..sessions {
        homes.push(session.checked_rem(dcs).unwrap_or(0))?;
    }
    Ok(homes)
}

// The actors that are asked for, if the families may have these names.
fn topology_of(alloc: Global, found: &ArgMatches<'_>) -> Result<Option<Topology>, AllocError> {
    let (dcs, shards) = (found.get_one::<u16>("dcs"), found.get_one::<u16>("shards"));
    let (dcs, shards) = (dcs.unwrap_or(1), shards.unwrap_or(2));
    let homes = homes_of(alloc, sessions_of(found), dcs)?;
    match schema_of(alloc, found.get_str("families").unwrap_or("f"))? {
        Some(schema) => Ok(Topology::of_server(dcs, shards, schema, homes).ok()),
        None => Ok(None),
    }
}

/// The folder of the log that is asked for, if one is.
pub(crate) fn data_of(alloc: Global, found: &ArgMatches<'_>) -> Result<Option<String>, AllocError> {
    match found.get_str("data") {
        Some(folder) => Ok(Some(String::from_str(alloc, folder)?)),
        None => Ok(None),
    }
}

/// After how many seconds a connection that sent nothing may leave.
pub(crate) fn idle_of(found: &ArgMatches<'_>) -> u32 {
    found.get_one::<u32>("idle").unwrap_or(300)
}

// How many sessions are asked for.
fn sessions_of(found: &ArgMatches<'_>) -> u16 {
    found.get_one::<u16>("sessions").unwrap_or(1)
}

/// The server that accepted words ask for, or why there is none.
pub(crate) fn serving_of(
    alloc: Global,
    found: &ArgMatches<'_>,
) -> Result<Result<Serving, Told>, AllocError> {
    let concurrent = found.get_flag("concurrent");
    let sessions = sessions_of(found);
    if sessions > FEW_SESSIONS && !concurrent {
        let text = format!(in alloc;
            "error: invalid value '{sessions}' for '--sessions <N>': without --concurrent 1 to 16 sessions are wanted\n"
        )?;
        return Ok(Err(Told::Refused(text)));
    }
    if let Some(topology) = topology_of(alloc, found)? {
        return Ok(Ok(Serving {
            port: found.get_one::<u16>("port").unwrap_or(0),
            topology,
            concurrent,
            idle: idle_of(found),
            report: found.get_one::<u32>("report").unwrap_or(0),
            data: data_of(alloc, found)?,
        }));
    }
    let names = found.get_str("families").unwrap_or("");
    let text = format!(in alloc;
        "error: invalid value '{names}' for '--families <LIST>': 1 to 16 names are wanted, each once, of 1 to 64 letters, digits and underscores\n"
    )?;
    Ok(Err(Told::Refused(text)))
}
