//! What an exploration is asked for.

use clap::{Arg, ArgAction, ArgMatches, Command, value_parser};
use std::alloc::{AllocError, Global};

/// What an exploration follows, and where it gives up.
#[derive(Clone, Copy)]
pub struct Bounds {
    /// Whether each message may be delivered a second time.
    pub repeat: bool,
    /// Whether messages may be lost.
    pub lose: bool,
    /// How many events a run may have.
    pub events: u32,
    /// How many states are followed at most.
    pub states: u32,
}

// A flag.
fn flag<'a>(alloc: Global, name: &'a str, help: &'a str) -> Arg<'a> {
    Arg::new(alloc, name)
        .long(name)
        .action(ArgAction::SetTrue)
        .help(help)
}

// An option with a number.
fn limit<'a>(alloc: Global, name: &'a str, most: &'a str, help: &'a str) -> Arg<'a> {
    Arg::new(alloc, name)
        .long(name)
        .value_name("N")
        .action(ArgAction::Set)
        .help(help)
        .value_parser(value_parser!(u32).range(1..100_000_001))
        .default_value(most)
}

/// The subcommand that asks for an exploration of the script in a file.
pub(crate) fn explore_command<'a>(alloc: Global, file: Arg<'a>) -> Result<Command<'a>, AllocError> {
    let repeat = flag(alloc, "repeat", "Each message may also come a second time");
    let lose = flag(alloc, "lose", "Messages may also be lost");
    let events = limit(alloc, "events", "100", "Runs have so many events at most");
    let states = limit(
        alloc,
        "states",
        "1000000",
        "So many states are followed at most",
    );
    Command::new(alloc, "explore")
        .about(
            "Follows each order in which the messages of a script can come, and prints each transcript with a script that has it",
        )
        .after_help("Example: eiger explore examples/write_and_reader.json")
        .arg(file)?
        .arg(repeat)?
        .arg(lose)?
        .arg(events)?
        .arg(states)
}

/// What an exploration that accepted words ask for follows.
pub(crate) fn bounds_of(found: &ArgMatches<'_>) -> Bounds {
    Bounds {
        repeat: found.get_flag("repeat"),
        lose: found.get_flag("lose"),
        events: found.get_one::<u32>("events").unwrap_or(1),
        states: found.get_one::<u32>("states").unwrap_or(1),
    }
}
