//! Calls that are made again where memory was refused: a world's, those of seats, and what a line hears of it.
//!
//! `tools/refuse-memory` runs it with each allocation refused in turn. It writes the same whichever was refused, since a
//! refused call changed nothing; so what it writes is also what the steps give where nothing is refused. Each call that was
//! refused and made again is told on standard error.
#![tactic(auto)]

// Makes a call again where memory was refused for it.
macro_rules! again {
    ($rt:expr; $call:expr) => {
        match $call {
            Err(Fault::Memory) => {
                crate::showing::tell_refused($rt);
                $call
            }
            done => done,
        }
    };
}

mod building;
mod lines;
mod seats;
mod showing;
mod together;
mod worlds;

use logical_time::Fault;

fn main(rt: HostRuntime) -> Result<(), Fault> {
    worlds::tell(&rt)?;
    seats::tell(&rt)?;
    lines::tell(&rt)?;
    together::tell(&rt)
}
