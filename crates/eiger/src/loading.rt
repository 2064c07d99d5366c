//! A load.
ghost use Rattle.std.specs.Prelude.{◌⊎◌};
ghost use Rattle.eiger.specs.Answering.{IsDone, HasFailed};

use command_line::Loading;
use load::{Load, Mixture, run_load};
use logical_time::Fault;
use program::{Buffered, Output, tell};
use std::alloc::AllocError;

// The load that is asked for.
fn load_of(loading: &Loading) -> Result<Load, AllocError> {
    Ok(Load {
        port: loading.port,
        connections: loading.connections,
        depth: loading.depth,
        seconds: loading.seconds,
        mixture: Mixture {
            reads: u64::from(loading.reads),
            keys: u64::from(loading.keys),
            value: loading.value as usize,
            seed: u64::from(loading.seed),
            family: loading.family.clone()?,
        },
    })
}

// Runs a load, and prints what came of it.
fn print_load<W: Buffered>(
    rt: &HostRuntime,
    loading: &Loading,
    output: &mut Output<W>,
) -> Result<(), Fault> {
    let report = run_load(rt, rt.alloc(), &load_of(loading)?)?;
    let text = report.text(rt.alloc())?;
    output.write_all(text.as_bytes())
}

/// Asks a server or a node of this machine for so long as is said, and prints how fast it answered. Gives the exit status: 0, or 1
/// after a fault was told: `ReadFailed` where it can't connect or all connections ended without a reply, `WriteFailed` where it can't
/// print, `Memory`.
pub(crate) fn perform_load<W: Buffered, E: Buffered>(
    rt: &HostRuntime,
    loading: &Loading,
    output: &mut Output<W>,
    errors: &mut Output<E>,
) -> u8
    ensures { IsDone result errors.old errors.new ⊎ HasFailed E.contents result errors.old errors.new }
{
    match print_load(rt, loading, output) {
        Ok(()) => 0,
        Err(fault) => tell(errors, fault, None),
    }
}
