//! What a node is asked for.
use crate::serving::{data_of, idle_of, seconds};
use clap::{Arg, ArgAction, ArgMatches, Command, value_parser};
use std::alloc::{AllocError, Global};

/// A node that is asked for: the site of one data centre.
#[derive(Drop)]
pub struct Joining {
    /// The name of the file of sites.
    pub name: String,
    /// The data centre.
    pub dc: u16,
    /// The name of the file of the secret that the sites share.
    pub secret: String,
    /// How many bytes may wait for another site before batches are refused.
    pub behind: u64,
    /// After how many seconds a connection that sent nothing leaves when somebody waits for its place; 0 for never.
    pub idle: u32,
    /// The folder of its log, if it keeps one.
    pub data: Option<String>,
}

/// How many bytes may wait for another site where nothing is said: 256 MiB.
const USUAL_BEHIND: u64 = 268_435_456;

/// The subcommand that asks for a node.
pub(crate) fn node_command<'a>(alloc: Global, file: Arg<'a>) -> Result<Command<'a>, AllocError> {
    let dc = Arg::new(alloc, "dc")
        .long("dc")
        .value_name("D")
        .action(ArgAction::Set)
        .help("The data centre of which it is the site, from 0 in the order of the file")
        .required(true)
        .value_parser(value_parser!(u16).range(0..4));
    let secret = Arg::new(alloc, "secret")
        .long("secret")
        .value_name("FILE")
        .action(ArgAction::Set)
        .help("The file of the secret that all sites share, of 32 bytes or more")
        .required(true);
    let behind = Arg::new(alloc, "behind")
        .long("behind")
        .value_name("BYTES")
        .action(ArgAction::Set)
        .help("Refuses batches while more than this waits for another site")
        .value_parser(value_parser!(u64).range(1..1_099_511_627_776))
        .default_value("268435456");
    let idle = seconds(
        alloc,
        "idle",
        "A connection that sent nothing for so long leaves when somebody waits for a place; 0 for never",
        "300",
    );
    let data = Arg::new(alloc, "data")
        .long("data")
        .value_name("FOLDER")
        .action(ArgAction::Set)
        .help(
            "Keeps a log in this folder, which is made where it is missing, and comes back from it",
        );
    Command::new(alloc, "node")
        .about(
            "Serves the sessions of one data centre, and exchanges writes with the nodes of the others, until it is stopped",
        )
        .after_help(
            "Example: eiger node examples/nodes/three.json --dc 0 --secret secret --data folder",
        )
        .arg(file)?
        .arg(dc)?
        .arg(secret)?
        .arg(behind)?
        .arg(idle)?
        .arg(data)
}

/// The node that accepted words ask for.
pub(crate) fn joining_of(
    alloc: Global,
    name: String,
    found: &ArgMatches<'_>,
) -> Result<Joining, AllocError> {
    Ok(Joining {
        name,
        dc: found.get_one::<u16>("dc").unwrap_or(0),
        secret: String::from_str(alloc, found.get_str("secret").unwrap_or(""))?,
        behind: found.get_one::<u64>("behind").unwrap_or(USUAL_BEHIND),
        idle: idle_of(found),
        data: data_of(alloc, found)?,
    })
}
