//! Worked cases: scripts with their transcripts, and steps of single crates with what is seen after them.
//!
//! The folder where it is started holds the scripts and the steps. What it writes has to be what was found by hand.
#![tactic(auto)]

mod building;
mod chains;
mod command_lines;
mod explorations;
mod marks;
mod normal_forms;
mod parts;
mod ranges;
mod readers;
mod records;
mod refusals;
mod schedules;
mod scripts;
mod sessions;
mod showing;
mod spent_clocks;
mod steps;
mod stores;
mod tables;
mod traces;
mod worlds;

use logical_time::Fault;
use pending::Marks;
use std::io;
use std::thread::Threads;
use table::History;
use versions::Ranges;

fn tell_steps<T: Threads + Sync>(rt: &HostRuntime, threads: &T) -> Result<(), Fault> {
    let alloc = rt.alloc();
    steps::tell(rt, "command_lines.steps", &mut command_lines::Line)?;
    steps::tell(rt, "normal_forms.steps", &mut normal_forms::Normal)?;
    steps::tell(rt, "reads_of_a_table.steps", &mut History::new(alloc))?;
    chains::tell(rt)?;
    steps::tell(rt, "worked_ranges.steps", &mut Ranges::new(alloc))?;
    steps::tell(rt, "worked_marks.steps", &mut Marks::new(alloc))?;
    stores::tell(rt)?;
    sessions::tell(rt)?;
    worlds::tell(rt)?;
    parts::tell(rt)?;
    spent_clocks::tell(rt)?;
    schedules::tell(rt, threads)
}

fn tell_scripts<T: Threads + Sync>(rt: &HostRuntime, threads: &T) -> io::Result<()> {
    scripts::tell(rt, threads)?;
    readers::tell(rt, threads)?;
    records::tell(rt)?;
    traces::tell(rt)?;
    explorations::tell(rt, threads)?;
    refusals::tell(rt)
}

fn main(rt: HostRuntime) -> Result<(), Fault> {
    tell_steps(&rt, &rt)?;
    match tell_scripts(&rt, &rt) {
        Ok(()) => Ok(()),
        Err(_) => Err(Fault::ReadFailed),
    }
}
