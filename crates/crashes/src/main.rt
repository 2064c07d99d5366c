//! A log over a file in memory: what comes back where the file is cut at each byte or damaged at each place, where each
//! call of its disk fails in turn, and where recovery crashes and is run again. Then a world over such a log: whatever was
//! acknowledged is read when it comes back; and many connections that ask in one round share one sync.
#![tactic(auto)]

mod calls;
mod count;
mod outages;
mod rounds;
mod tearing;
mod worlds;
mod written;

use anyhow::Result;

fn main(rt: HostRuntime) -> Result<()> {
    let (file, synced) = written::write(rt.alloc())?;
    tearing::tell(&rt, &file, synced)?;
    calls::tell(&rt, &file, synced)?;
    outages::tell(&rt)?;
    rounds::tell(&rt)
}
