//! The answer to a command line.
ghost use Rattle.std.specs.Prelude.{◌≡◌, ◌<◌, ◌≤◌, string_bytes};
ghost use Rattle.workload.specs.Audited.{IsToldFor};
ghost use Rattle.workload.specs.Performing.{IsRefused};
ghost use Rattle.recorded.specs.Recording.{IsHistoryFor, IsUnrecorded};
ghost use Rattle.tracing.specs.Traced.{IsTraceFor};
ghost use Rattle.running.specs.Performing.{IsThreadTextFor, IsThreadRefused};
ghost use Rattle.by_sites.specs.Performing.{IsSitesTextFor, IsSitesRefused};
ghost use Rattle.explore.specs.Exploration.{IsExplorationFor, IsUnexplored};
ghost use Rattle.logfile.specs.Told.{IsLogTextFor, IsUntold};
ghost use Rattle.eiger.specs.Answering.{IsOpened, Ran, Judged, IsAnswer};

use crate::joining::join;
use crate::loading::perform_load;
use crate::serving::serve;
use by_sites::perform_by_sites;
use command_line::{Asked, Bounds};
use explore::{Limits, perform_exploration};
use logfile::perform_log;
use logical_time::Fault;
use program::{Buffered, Input, Output, tell};
use recorded::{perform_audit, perform_history};
use running::{Workers, perform_by_threads};
use std::fs::File;
use std::sync::Wait;
use std::thread::Threads;
use tracing::perform_trace;
use workload::perform;

/// The file of this name, or why it can't be opened.
pub(crate) fn opened(rt: &HostRuntime, name: String) -> Input<File>
    ensures { IsOpened (string_bytes name) result }
{
    match File::open(rt, name.as_str()) {
        Ok(file) => Input {
            name,
            reader: Some(file),
            failure: None,
        },
        Err(error) => Input {
            name,
            reader: None,
            failure: Some(error),
        },
    }
}

// Runs a script, and audits its run where that is asked for.
fn sim<T: Threads + Sync, W: Buffered, E: Buffered>(
    rt: &HostRuntime,
    threads: &T,
    name: String,
    audit: bool,
    output: &mut Output<W>,
    errors: &mut Output<E>,
) -> u8
    ensures { Ran ⟦<File as std::io::Read>⟧.remaining W.contents W.held E.contents (IsToldFor audit) IsRefused (string_bytes name) result output.old output.new errors.old errors.new }
{
    let mut input = opened(rt, name);
    perform(threads, rt.alloc(), audit, &mut input, output, errors)
}

// Runs a script, and writes the record of its run.
fn history<W: Buffered, E: Buffered>(
    rt: &HostRuntime,
    name: String,
    output: &mut Output<W>,
    errors: &mut Output<E>,
) -> u8
    ensures { Ran ⟦<File as std::io::Read>⟧.remaining W.contents W.held E.contents IsHistoryFor IsUnrecorded (string_bytes name) result output.old output.new errors.old errors.new }
{
    let mut input = opened(rt, name);
    perform_history(rt.alloc(), &mut input, output, errors)
}

// Runs a script, and writes the trace of its run.
fn trace<W: Buffered, E: Buffered>(
    rt: &HostRuntime,
    name: String,
    output: &mut Output<W>,
    errors: &mut Output<E>,
) -> u8
    ensures { Ran ⟦<File as std::io::Read>⟧.remaining W.contents W.held E.contents IsTraceFor IsRefused (string_bytes name) result output.old output.new errors.old errors.new }
{
    let mut input = opened(rt, name);
    perform_trace(rt.alloc(), &mut input, output, errors)
}

// A crew of so many, or of one where there may not be so many.
fn crew(workers: u16) -> Workers
    ensures asked { 0 < workers → workers ≤ 16 → result ≡ workers }
{
    match Workers::new(usize::from(workers)) {
        Some(workers) => workers,
        None => Workers::one(),
    }
}

// Has a crew run a script, and audits what they did where that is asked for.
fn run<T: Threads + Wait + Sync, W: Buffered, E: Buffered>(
    rt: &HostRuntime,
    threads: &T,
    name: String,
    crew: &Workers,
    audit: bool,
    output: &mut Output<W>,
    errors: &mut Output<E>,
) -> u8
    ensures { Ran ⟦<File as std::io::Read>⟧.remaining W.contents W.held E.contents (IsThreadTextFor audit) (IsThreadRefused ⟦<Workers as running::Crew>⟧.brings) (string_bytes name) result output.old output.new errors.old errors.new }
{
    let mut input = opened(rt, name);
    perform_by_threads(threads, rt.alloc(), crew, audit, &mut input, output, errors)
}

// Has the sites of all data centres run a script.
fn run_sites<W: Buffered, E: Buffered>(
    rt: &HostRuntime,
    name: String,
    output: &mut Output<W>,
    errors: &mut Output<E>,
) -> u8
    ensures { Ran ⟦<File as std::io::Read>⟧.remaining W.contents W.held E.contents IsSitesTextFor IsSitesRefused (string_bytes name) result output.old output.new errors.old errors.new }
{
    let mut input = opened(rt, name);
    perform_by_sites(rt.alloc(), &mut input, output, errors)
}

// Looks at a log, or writes the record of what it tells.
fn log<W: Buffered, E: Buffered>(
    rt: &HostRuntime,
    name: String,
    history: bool,
    output: &mut Output<W>,
    errors: &mut Output<E>,
) -> u8
    ensures { Ran ⟦<File as std::io::Read>⟧.remaining W.contents W.held E.contents (IsLogTextFor history) (IsUntold history) (string_bytes name) result output.old output.new errors.old errors.new }
{
    let mut input = opened(rt, name);
    perform_log(rt.alloc(), history, &mut input, output, errors)
}

// Audits what a file records.
fn audit<W: Buffered, E: Buffered>(
    rt: &HostRuntime,
    name: String,
    output: &mut Output<W>,
    errors: &mut Output<E>,
) -> u8
    ensures { Judged ⟦<File as std::io::Read>⟧.remaining W.contents W.held E.contents (string_bytes name) result output.old output.new errors.old errors.new }
{
    let mut input = opened(rt, name);
    perform_audit(rt.alloc(), &mut input, output, errors)
}

// Follows each order in which the messages of a script can come, and tells to a second output for errors how far it came.
fn explore<T: Threads + Sync, W: Buffered, E: Buffered>(
    rt: &HostRuntime,
    threads: &T,
    name: String,
    bounds: Bounds,
    output: &mut Output<W>,
    errors: &mut Output<E>,
) -> u8
    ensures { Ran ⟦<File as std::io::Read>⟧.remaining W.contents W.held E.contents (IsExplorationFor bounds.lose) IsUnexplored (string_bytes name) result output.old output.new errors.old errors.new }
{
    let limits = Limits {
        repeat: bounds.repeat,
        lose: bounds.lose,
        events: bounds.events,
        states: bounds.states,
    };
    let mut input = opened(rt, name);
    let mut progress = Output::new(rt.stderr());
    perform_exploration(
        threads,
        rt.alloc(),
        limits,
        &mut input,
        output,
        errors,
        &mut progress,
    )
}

/// Does what a command line asks for. Gives the exit status: 0; 1 after a fault was told; 2 for a command line that is
/// refused; 3 where an audit found a wrong read, which only one of a recorded history does.
#[rattlefmt::skip]
pub(crate) fn answer<T: Threads + Wait + Sync, W: Buffered, E: Buffered>(
    rt: &HostRuntime,
    threads: &T,
    asked: Result<Asked, Fault>,
    output: &mut Output<W>,
    errors: &mut Output<E>,
) -> u8
    ensures { IsAnswer ⟦<File as std::io::Read>⟧.remaining W.contents W.held E.contents ⟦<Workers as running::Crew>⟧.brings asked result output.old output.new errors.old errors.new }
{
    match asked {
        Ok(Asked::Sim { name, audit }) => sim(rt, threads, name, audit, output, errors),
        Ok(Asked::History { name }) => history(rt, name, output, errors),
        Ok(Asked::Trace { name }) => trace(rt, name, output, errors),
        Ok(Asked::Run { name, workers, audit }) => {
            run(rt, threads, name, &crew(workers), audit, output, errors)
        }
        Ok(Asked::BySites { name }) => run_sites(rt, name, output, errors),
        Ok(Asked::Audit { name }) => audit(rt, name, output, errors),
        Ok(Asked::Explore { name, bounds }) => explore(rt, threads, name, bounds, output, errors),
        Ok(Asked::Serve(serving)) => serve(rt, threads, &serving, output, errors),
        Ok(Asked::Node(joining)) => join(rt, threads, &joining, output, errors),
        Ok(Asked::Load(loading)) => perform_load(rt, &loading, output, errors),
        Ok(Asked::Log { name, history }) => log(rt, name, history, output, errors),
        Ok(Asked::Told(told)) => told.answer(output, errors),
        Err(fault) => tell(errors, fault, None),
    }
}
