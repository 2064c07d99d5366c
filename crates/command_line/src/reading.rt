//! What the words of a command line ask for.
ghost use Rattle.std.specs.Prelude.{◌≡◌, IfErr};
ghost use Rattle.logical_time.specs.declared.fault.Fault.TheVariants as fault;

use crate::exploring::{Bounds, bounds_of, explore_command};
use crate::joining::{Joining, joining_of, node_command};
use crate::loading::{Loading, load_command, loading_of};
use crate::serving::{Serving, serve_command, serving_of};
use crate::told::Told;
use clap::error::ErrorKind;
use clap::{Arg, ArgAction, ArgMatches, Command, Error, value_parser};
use logical_time::Fault;
use std::alloc::{AllocError, Global};
use std::io;

/// What is told of a command line that is no text.
const NO_TEXT: &str = "error: a word of the command line isn't UTF-8\n";

/// What is said of a script's file.
const SCRIPT: &str = "The script, a JSON object as docs/formats.md says";

/// What is said of the file of sites.
const SITES: &str = "The sites of all data centres, a JSON object as docs/formats.md says";

/// What is said of the file of a recorded history.
const RECORDED: &str = "A recorded history, a JSON object as docs/formats.md says";

/// What a command line asks for.
#[derive(Drop)]
pub enum Asked {
    /// The transcript of the script in the file of this name.
    Sim {
        /// The name.
        name: String,
        /// Whether the reads are audited.
        audit: bool,
    },
    /// The recorded history of the run of the script in the file of this name.
    History {
        /// The name.
        name: String,
    },
    /// The trace of the run of the script in the file of this name.
    Trace {
        /// The name.
        name: String,
    },
    /// The transcript of what threads make of the script in the file of this name.
    Run {
        /// The name.
        name: String,
        /// How many threads there are.
        workers: u16,
        /// Whether the reads are audited.
        audit: bool,
    },
    /// The transcript of what the sites of all data centres make of the script in the file of this name.
    BySites {
        /// The name.
        name: String,
    },
    /// The audit of the histories and reads that the file of this name records.
    Audit {
        /// The name.
        name: String,
    },
    /// The exploration of the script in the file of this name.
    Explore {
        /// The name.
        name: String,
        /// What is followed.
        bounds: Bounds,
    },
    /// A server.
    Serve(Serving),
    /// A node.
    Node(Joining),
    /// A load.
    Load(Loading),
    /// What the log in the file of this name holds.
    Log {
        /// The name.
        name: String,
        /// Whether its history is asked for.
        history: bool,
    },
    /// An answer that is known already.
    Told(Told),
}

// The name of a file, of which this is said.
fn file<'a>(alloc: Global, help: &'a str) -> Arg<'a> {
    Arg::new(alloc, "FILE")
        .required(true)
        .action(ArgAction::Set)
        .help(help)
}

// The flag that asks for an audit.
fn audit_flag<'a>(alloc: Global) -> Arg<'a> {
    Arg::new(alloc, "audit")
        .long("audit")
        .action(ArgAction::SetTrue)
        .help("Also tells how many reads were answered, and how many of them wrong")
}

// The subcommand that asks for a run in a world.
fn sim_command<'a>(alloc: Global) -> Result<Command<'a>, AllocError> {
    let history = Arg::new(alloc, "history")
        .long("history")
        .action(ArgAction::SetTrue)
        .help("Prints the recorded history of the run in place of its transcript, for eiger audit")
        .conflicts_with("audit")?;
    let trace = Arg::new(alloc, "trace")
        .long("trace")
        .action(ArgAction::SetTrue)
        .help("Prints the trace of the run in place of its transcript, as eiger trace does")
        .conflicts_with("audit")?
        .conflicts_with("history")?;
    Command::new(alloc, "sim")
        .about("Runs a script, and prints its transcript: what came of each operation")
        .after_help(
            "Examples: eiger sim examples/insert_and_read_back.json\n          eiger sim examples/insert_and_read_back.json --trace",
        )
        .arg(file(alloc, SCRIPT))?
        .arg(audit_flag(alloc))?
        .arg(history)?
        .arg(trace)
}

// The subcommand that asks for the trace of a run.
fn trace_command<'a>(alloc: Global) -> Result<Command<'a>, AllocError> {
    Command::new(alloc, "trace")
        .about(
            "Runs a script, and prints what happened: a line of JSON for each event, with its messages",
        )
        .after_help("Example: eiger trace examples/read_asks_coordinator.json")
        .arg(file(alloc, SCRIPT))
}

// The subcommand that asks for a run by threads.
fn run_command<'a>(alloc: Global) -> Result<Command<'a>, AllocError> {
    let workers = Arg::new(alloc, "workers")
        .long("workers")
        .value_name("N")
        .action(ArgAction::Set)
        .help("So many threads drive its shards and sessions, 1 to 16")
        .required_unless_present("sites")?
        .value_parser(value_parser!(u16).range(1..17));
    let sites = Arg::new(alloc, "sites")
        .long("sites")
        .action(ArgAction::SetTrue)
        .help("Each data centre is a site by itself, in one process, with parcels in between")
        .conflicts_with("workers")?
        .conflicts_with("audit")?;
    Command::new(alloc, "run")
        .about("Runs a script by threads, or by sites, and prints what came of each operation")
        .after_help(
            "Examples: eiger run examples/insert_and_read_back.json --workers 2\n          eiger run examples/insert_and_read_back.json --sites",
        )
        .arg(file(alloc, SCRIPT))?
        .arg(workers)?
        .arg(sites)?
        .arg(audit_flag(alloc))
}

// The subcommand that asks for the audit of a recorded history.
fn audit_command<'a>(alloc: Global) -> Result<Command<'a>, AllocError> {
    Command::new(alloc, "audit")
        .about(
            "Audits a recorded history of any store: compares each read with the plain table, and tells those that are wrong",
        )
        .after_help("Example: eiger audit examples/recorded.json")
        .arg(file(alloc, RECORDED))
}

// The subcommand that asks what a log holds.
fn log_command<'a>(alloc: Global) -> Result<Command<'a>, AllocError> {
    let folder = Arg::new(alloc, "FOLDER")
        .required(true)
        .action(ArgAction::Set)
        .help("The folder of a log, that of --data");
    let history = Arg::new(alloc, "history")
        .long("history")
        .action(ArgAction::SetTrue)
        .help("Prints the recorded history of what that of a server tells, for eiger audit");
    Command::new(alloc, "log")
        .about("Checks the log of a server or a node, and tells what is in it; changes nothing")
        .after_help("Examples: eiger log store\n          eiger log store --history")
        .arg(folder)?
        .arg(history)
}

fn command<'a>(alloc: Global) -> Result<Command<'a>, AllocError> {
    Command::new(alloc, "eiger")
        .about(
            "A causally consistent column-family store: runs scripts, audits histories, and serves connections",
        )
        .after_help(
            "Example: eiger sim examples/insert_and_read_back.json\nExit status: 0; 1 after a fault, told on standard error; 2 for a refused command line; 3 where an audit found a wrong read",
        )
        .version("0.1.0")
        .subcommand_required(true)
        .arg_required_else_help(true)
        .subcommand(sim_command(alloc)?)?
        .subcommand(trace_command(alloc)?)?
        .subcommand(run_command(alloc)?)?
        .subcommand(audit_command(alloc)?)?
        .subcommand(explore_command(alloc, file(alloc, SCRIPT))?)?
        .subcommand(serve_command(alloc)?)?
        .subcommand(node_command(alloc, file(alloc, SITES))?)?
        .subcommand(load_command(alloc)?)?
        .subcommand(log_command(alloc)?)
}

// The name of the file.
fn name_of(alloc: Global, found: &ArgMatches<'_>) -> Result<String, AllocError> {
    String::from_str(alloc, found.get_str("FILE").unwrap_or(""))
}

// The run by threads, or by sites, that is asked for.
fn run_of(alloc: Global, found: &ArgMatches<'_>) -> Result<Asked, AllocError> {
    if found.get_flag("sites") {
        return Ok(Asked::BySites {
            name: name_of(alloc, found)?,
        });
    }
    Ok(Asked::Run {
        name: name_of(alloc, found)?,
        workers: found.get_one::<u16>("workers").unwrap_or(1),
        audit: found.get_flag("audit"),
    })
}

// The log that is asked for: the file of its folder.
fn log_of(alloc: Global, found: &ArgMatches<'_>) -> Result<Asked, AllocError> {
    let folder = found.get_str("FOLDER").unwrap_or("");
    Ok(Asked::Log {
        name: format!(in alloc; "{folder}/log")?,
        history: found.get_flag("history"),
    })
}

/// What accepted words ask for.
fn accepted(alloc: Global, matches: &ArgMatches<'_>) -> Result<Asked, AllocError> {
    match matches.subcommand() {
        Some(("sim", found)) => {
            let name = name_of(alloc, found)?;
            if found.get_flag("history") {
                return Ok(Asked::History { name });
            }
            if found.get_flag("trace") {
                return Ok(Asked::Trace { name });
            }
            let audit = found.get_flag("audit");
            Ok(Asked::Sim { name, audit })
        }
        Some(("trace", found)) => Ok(Asked::Trace {
            name: name_of(alloc, found)?,
        }),
        Some(("run", found)) => run_of(alloc, found),
        Some(("audit", found)) => Ok(Asked::Audit {
            name: name_of(alloc, found)?,
        }),
        Some(("explore", found)) => {
            let name = name_of(alloc, found)?;
            let bounds = bounds_of(found);
            Ok(Asked::Explore { name, bounds })
        }
        Some(("log", found)) => log_of(alloc, found),
        Some(("node", found)) => {
            let name = name_of(alloc, found)?;
            Ok(Asked::Node(joining_of(alloc, name, found)?))
        }
        Some(("load", found)) => match loading_of(alloc, found)? {
            Ok(loading) => Ok(Asked::Load(loading)),
            Err(told) => Ok(Asked::Told(told)),
        },
        Some((_, found)) => match serving_of(alloc, found)? {
            Ok(serving) => Ok(Asked::Serve(serving)),
            Err(told) => Ok(Asked::Told(told)),
        },
        None => Ok(Asked::Told(Told::Refused(String::new(alloc)))),
    }
}

/// Help or the version, or why the words aren't accepted.
fn refused(alloc: Global, error: &Error) -> Result<Told, AllocError> {
    let text = format!(in alloc; "{error}")?;
    if error.use_stderr() {
        Ok(Told::Refused(text))
    } else {
        Ok(Told::Help(text))
    }
}

/// What the words of a command line ask for, the first being the program's own name. Refused with `Memory` alone.
pub fn read_words(alloc: Global, words: &[String]) -> Result<Asked, Fault>
    ensures memory { IfErr result (λ e. e ≡ fault.Memory) }
{
    match command(alloc)?.try_get_matches_from(words) {
        Ok(matches) => Ok(accepted(alloc, &matches)?),
        Err(error) if error.kind() == ErrorKind::OutOfMemory => Err(Fault::Memory),
        Err(error) => Ok(Asked::Told(refused(alloc, &error)?)),
    }
}

/// What is answered where the words of a command line could not be had. Refused with `Memory` alone.
pub fn refuse_words(alloc: Global, error: io::Error) -> Result<Asked, Fault>
    ensures memory { IfErr result (λ e. e ≡ fault.Memory) }
{
    if error.kind() == io::ErrorKind::OutOfMemory {
        return Err(Fault::Memory);
    }
    Ok(Asked::Told(Told::Refused(String::from_str(alloc, NO_TEXT)?)))
}
