//! A program of seats, threads and lines: turns by hand, workers that meet, what the journals of seats conclude, scripts that
//! threads run, and what is exchanged over lines.
//!
//! The folder where it is started holds the steps, the scripts and what is exchanged. What it writes has to be what was found by
//! hand, whatever the schedule is.
#![tactic(auto)]

mod auditing;
mod building;
mod bytes;
mod counting;
mod exchanges;
mod judging;
mod meeting;
mod resting;
mod scripts;
mod seats;
mod showing;
mod steps;
mod strangers;

use logical_time::Fault;

fn main(rt: HostRuntime) -> Result<(), Fault> {
    steps::tell(&rt)?;
    meeting::tell(&rt, &rt)?;
    resting::tell(&rt, &rt)?;
    strangers::tell(&rt)?;
    scripts::tell(&rt, &rt)?;
    bytes::tell(&rt, &rt)?;
    counting::tell(&rt, &rt)?;
    exchanges::tell(&rt, &rt)
}
