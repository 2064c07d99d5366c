//! A world that is kept in a folder.
use durable::{Durable, Progress};
use logfile::{FileDisk, open_folder};
use logical_time::Fault;
use messages::Topology;
use program::{Buffered, Output};
use std::alloc::{AllocError, Global};
use std::io::Stderr;
use std::time::Instant;

/// How many entries happen between two looks at the clock.
const STRIDE: usize = 1024;

/// Tells something of a log, as far as the output takes it.
pub(crate) fn tell_of<E: Buffered>(
    alloc: Global,
    folder: &str,
    what: Result<String, AllocError>,
    errors: &mut Output<E>,
) {
    if let Ok(what) = what
        && let Ok(line) = format!(in alloc; "eiger: log {folder}: {what}\n")
    {
        let _untold = errors.write_all(line.as_bytes());
    }
}

/// How many milliseconds have gone since then, or 0 where there is no clock.
pub(crate) fn millis_since(rt: &HostRuntime, began: Option<Instant>) -> u64 {
    let Some(began) = began else {
        return 0;
    };
    let Ok(now) = Instant::now(rt) else {
        return 0;
    };
    let took = now.duration_since(began);
    let millis = took.as_secs().saturating_mul(1000);
    millis.saturating_add(u64::from(took.subsec_millis()))
}

// A start that is watched: how far it is is told once a second.
#[derive(Drop)]
struct Watch<'f> {
    rt: &'f HostRuntime,
    folder: &'f str,
    began: Option<Instant>,
    // How many seconds there were when it was told last.
    told: u64,
    errors: Output<Stderr>,
}

impl Progress for Watch<'_> {
    fn came(&mut self, done: usize, all: usize) {
        if done % STRIDE != 0 {
            return;
        }
        let seconds = millis_since(self.rt, self.began) / 1000;
        if seconds <= self.told {
            return;
        }
        self.told = seconds;
        let alloc = self.rt.alloc();
        let what = format!(in alloc; "{done} of {all} requests and collections");
        tell_of(alloc, self.folder, what, &mut self.errors);
    }
}

/// The world of this topology that the log in a folder led to; a new one where there is no log. Tells once a second how far it is, then
/// how much it found, and how long that took, or why there is none. Refused as the log's last word is, with `Memory`, and with
/// `ReadFailed` for all else.
pub(crate) fn open_kept<E: Buffered>(
    rt: &HostRuntime,
    topology: &Topology,
    folder: &str,
    errors: &mut Output<E>,
) -> Result<Durable<FileDisk>, Fault> {
    let alloc = rt.alloc();
    let mut watch = Watch {
        rt,
        folder,
        began: Instant::now(rt).ok(),
        told: 0,
        errors: Output::new(rt.stderr()),
    };
    match open_folder(rt, topology, folder, &mut watch) {
        Ok(world) => {
            let (found, millis) = (world.found(), millis_since(rt, watch.began));
            let what = format!(in alloc; "{found} requests and collections, in {millis} ms");
            tell_of(alloc, folder, what, errors);
            Ok(world)
        }
        Err(why) => {
            tell_of(alloc, folder, why.reason(alloc), errors);
            Err(why.fault())
        }
    }
}
