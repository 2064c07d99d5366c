//! What a load is asked for.
use crate::serving::option;
use crate::told::Told;
use clap::{Arg, ArgMatches, Command, value_parser};
use column_family::{Family, Schema};
use std::alloc::{AllocError, Global};

/// A load that is asked for: requests for a server or a node of this machine.
#[derive(Drop)]
pub struct Loading {
    /// The port that is asked.
    pub port: u16,
    /// How many connections there are.
    pub connections: u16,
    /// How many requests are under way on each.
    pub depth: u16,
    /// For how many seconds requests are made.
    pub seconds: u32,
    /// How many of a hundred are reads.
    pub reads: u16,
    /// About how many keys they are.
    pub keys: u32,
    /// How many bytes a value has.
    pub value: u32,
    /// What the order of the requests hangs on.
    pub seed: u32,
    /// The column family.
    pub family: Family,
}

// An option with a number of two bytes, below this, that has to be there.
fn needed<'a>(alloc: Global, name: &'a str, shown: &'a str, below: i64, help: &'a str) -> Arg<'a> {
    option(alloc, name, shown, help)
        .required(true)
        .value_parser(value_parser!(u16).range(1..below))
}

// The options that say what is asked for.
fn with_mixture<'a>(alloc: Global, command: Command<'a>) -> Result<Command<'a>, AllocError> {
    let reads = option(
        alloc,
        "reads",
        "PERCENT",
        "So many of a hundred are reads, the others batches of one insertion",
    )
    .value_parser(value_parser!(u16).range(0..101))
    .default_value("50");
    let keys = option(alloc, "keys", "K", "About so many keys, up to 1000000000")
        .value_parser(value_parser!(u32).range(1..1_000_000_001))
        .default_value("10000");
    let value = option(
        alloc,
        "value",
        "BYTES",
        "So many bytes in each value, up to 65536",
    )
    .value_parser(value_parser!(u32).range(0..65_537))
    .default_value("100");
    let seed = option(
        alloc,
        "seed",
        "X",
        "The order of the requests hangs on this number alone",
    )
    .value_parser(value_parser!(u32).range(0..4_294_967_296))
    .default_value("1");
    let family = option(alloc, "family", "NAME", "The column family").default_value("f");
    command
        .arg(reads)?
        .arg(keys)?
        .arg(value)?
        .arg(seed)?
        .arg(family)
}

/// The subcommand that asks for a load.
pub(crate) fn load_command<'a>(alloc: Global) -> Result<Command<'a>, AllocError> {
    let port = option(alloc, "port", "PORT", "The port of 127.0.0.1 that is asked")
        .required(true)
        .value_parser(value_parser!(u16).range(1024..65536));
    let connections = needed(
        alloc,
        "connections",
        "N",
        10_001,
        "So many connections, up to 10000",
    );
    let depth = needed(
        alloc,
        "depth",
        "D",
        1025,
        "So many requests under way on each, up to 1024",
    );
    let seconds = option(
        alloc,
        "seconds",
        "S",
        "Requests are made for so long, up to a day",
    )
    .required(true)
    .value_parser(value_parser!(u32).range(1..86_401));
    let command = Command::new(alloc, "load")
        .about(
            "Asks a server or a node of this machine as fast as it answers, and tells how many it answered in a second, and how soon",
        )
        .after_help("Example: eiger load --port 7000 --connections 4 --depth 16 --seconds 10")
        .arg(port)?
        .arg(connections)?
        .arg(depth)?
        .arg(seconds)?;
    with_mixture(alloc, command)
}

// The family of this name, if one may have it.
fn family_of(alloc: Global, name: &str) -> Result<Option<Family>, AllocError> {
    let mut families = Vec::new(alloc);
    families.push(Family::from_slice(alloc, name.as_bytes())?)?;
    match Schema::new(families) {
        Some(_) => Ok(Some(Family::from_slice(alloc, name.as_bytes())?)),
        None => Ok(None),
    }
}

/// The load that accepted words ask for, or why there is none.
pub(crate) fn loading_of(
    alloc: Global,
    found: &ArgMatches<'_>,
) -> Result<Result<Loading, Told>, AllocError> {
    let name = found.get_str("family").unwrap_or("f");
    let Some(family) = family_of(alloc, name)? else {
        let text = format!(in alloc;
            "error: invalid value '{name}' for '--family <NAME>': 1 to 64 letters, digits and underscores are wanted\n"
        )?;
        return Ok(Err(Told::Refused(text)));
    };
    Ok(Ok(Loading {
        port: found.get_one::<u16>("port").unwrap_or(0),
        connections: found.get_one::<u16>("connections").unwrap_or(1),
        depth: found.get_one::<u16>("depth").unwrap_or(1),
        seconds: found.get_one::<u32>("seconds").unwrap_or(1),
        reads: found.get_one::<u16>("reads").unwrap_or(50),
        keys: found.get_one::<u32>("keys").unwrap_or(1),
        value: found.get_one::<u32>("value").unwrap_or(0),
        seed: found.get_one::<u32>("seed").unwrap_or(1),
        family,
    }))
}
