//! The server of all sessions at once.
ghost use Rattle.eiger.specs.Answering.{HasStopped};

use crate::keeping::open_kept;
use crate::serving::tell_port;
use command_line::Serving;
use doors::Ended;
use logical_time::Fault;
use present::Present;
use program::{Buffered, Output, tell};
use server::{Report, Server};
use service::Housed;
use std::alloc::Global;
use std::sync::Wait;

// Tells of a connection that ended with a fault.
fn tell_ended<E: Buffered>(
    alloc: Global,
    ended: &Ended,
    errors: &mut Output<E>,
) -> Result<(), Fault> {
    let Ended {
        number,
        place,
        fault,
    } = ended;
    let line = format!(in alloc; "eiger: connection {number} session {place} fault {fault}\n")?;
    errors.write_all(line.as_bytes())
}

/// Tells of the connections that ended with a fault in the last round, as far as the output takes it.
pub(crate) fn tell_all<E: Buffered>(alloc: Global, all: &[Ended], errors: &mut Output<E>) {
    for ended in all {
        let _untold = tell_ended(alloc, ended, errors);
    }
}

// Tells what is served and held, where a report is due, as far as the output takes it.
fn report<W: Housed, E: Buffered>(
    rt: &HostRuntime,
    server: &mut Server<W>,
    errors: &mut Output<E>,
) {
    if let Some(report) = server.report(rt) {
        let _untold = tell_report(rt.alloc(), &report, errors);
    }
}

// Tells a report, in one line.
fn tell_report<E: Buffered>(
    alloc: Global,
    report: &Report,
    errors: &mut Output<E>,
) -> Result<(), Fault> {
    let Report {
        open,
        accepted,
        rate,
        held,
        waiting,
        longest,
    } = report;
    let (rows, versions) = (held.rows, held.versions);
    let line = format!(in alloc;
        "eiger: {open} of {accepted} connections open, {rate} requests a second, {rows} rows, {versions} versions, {waiting} bytes wait, longest collection {longest} ms\n"
    )?;
    errors.write_all(line.as_bytes())
}

// Serves one round after the other, until one fails.
fn serve_all<T: Wait, W: Housed, E: Buffered>(
    rt: &HostRuntime,
    threads: &T,
    server: &mut Server<W>,
    errors: &mut Output<E>,
) -> Fault {
    for _ in threads.forever() {
        let went = server.round(rt);
        tell_all(rt.alloc(), server.ended(), errors);
        report(rt, server, errors);
        if let Err(fault) = went {
            return fault;
        }
    }
    unreachable!()
}

// A server that listens. Who sends nothing is borne for as long as is asked for, for 0 for ever; and it reports as often as is
// asked for, for 0 never.
fn open<W: Housed>(rt: &HostRuntime, serving: &Serving, world: W) -> Result<Server<W>, Fault> {
    let server = Server::open(rt, rt.alloc(), serving.port, world)?;
    let server = match serving.idle {
        0 => server,
        seconds => server.with_idle(u64::from(seconds) * 1000),
    };
    match serving.report {
        0 => Ok(server),
        seconds => Ok(server.with_report(u64::from(seconds) * 1000)),
    }
}

// Listens, says so, and serves with this world, until that fails. Gives why.
fn listen<T: Wait, W: Housed, O: Buffered, E: Buffered>(
    rt: &HostRuntime,
    threads: &T,
    serving: &Serving,
    world: W,
    output: &mut Output<O>,
    errors: &mut Output<E>,
) -> Fault {
    let mut server = match open(rt, serving, world) {
        Ok(server) => server,
        Err(fault) => return fault,
    };
    let fault = match tell_port(rt.alloc(), serving.port, output) {
        Ok(()) => serve_all(rt, threads, &mut server, errors),
        Err(fault) => fault,
    };
    server.close();
    fault
}

// Serves with a new world; or, where a folder is named, with the one that comes back from its log. Gives why it ended.
fn serve_world<T: Wait, O: Buffered, E: Buffered>(
    rt: &HostRuntime,
    threads: &T,
    serving: &Serving,
    output: &mut Output<O>,
    errors: &mut Output<E>,
) -> Fault {
    let Some(folder) = &serving.data else {
        return match Present::new(rt.alloc(), &serving.topology) {
            Ok(world) => listen(rt, threads, serving, world, output, errors),
            Err(fault) => fault,
        };
    };
    match open_kept(rt, &serving.topology, folder.as_str(), errors) {
        Ok(world) => listen(rt, threads, serving, world, output, errors),
        Err(fault) => fault,
    }
}

/// Listens on the port, says so, and serves all sessions at once: a connection is given a free session, and goes on with what
/// that did before. Where a folder is named, its world comes back from the log there, and what is answered is kept in it. Tells of
/// each connection that ends with a fault. Gives the exit status, 1, after the fault that ended it was told: `ReadFailed` where it
/// can't read the log, listen or wait, `WriteFailed` where it can't say that it listens or the log can't be kept, `Memory`, and
/// whatever refuses what the log tells.
pub(crate) fn serve_together<T: Wait, W: Buffered, E: Buffered>(
    rt: &HostRuntime,
    threads: &T,
    serving: &Serving,
    output: &mut Output<W>,
    errors: &mut Output<E>,
) -> u8
    ensures { HasStopped E.contents result errors.old errors.new }
{
    let fault = serve_world(rt, threads, serving, output, errors);
    tell(errors, fault, None)
}
