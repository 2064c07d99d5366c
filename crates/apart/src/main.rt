//! Three sites in one process, with what they send each other as bytes in between: come in order or the other way round, twice,
//! late, or never.
#![tactic(auto)]

mod building;
mod hostile;
mod mail;
mod schedules;
mod stores;

use logical_time::Fault;

fn main(rt: HostRuntime) -> Result<(), Fault> {
    schedules::tell(&rt)?;
    hostile::tell(&rt)
}
