//! A door in memory.
ghost use Rattle.std.specs.Prelude.{◌≡◌};
ghost use Rattle.doors.specs.Memory.{GivesNext, tells_next, brings_more, IsEmpty};

use crate::doorway::{Accepted, Doorway};
use logical_time::Fault;
use readiness::{MemoryLine, ReadyLine};
use std::collections::VecDeque;
use std::time::Duration;

/// What happens while a door in memory waits once.
#[derive(Drop)]
pub struct Moment {
    /// The places whose lines become ready.
    pub ready: Vec<usize>,
    /// How many more come, of the lines that are still to come.
    pub come: usize,
}

/// A door in memory, for tests: of these lines so many come in each wait, in order, and so many places are ready, as a list says;
/// behind the list a wait is refused with `ReadFailed`. It never waits, and accepts all who came.
#[derive(Drop)]
pub struct MemoryDoor {
    moments: VecDeque<Moment>,
    // The lines that weren't given yet.
    lines: VecDeque<MemoryLine>,
    // How many of them may be.
    came: usize,
}

impl MemoryDoor {
    /// A door before any call.
    pub fn new(moments: VecDeque<Moment>, lines: VecDeque<MemoryLine>) -> MemoryDoor
        ensures moments { result.moments.items ≡ moments.items }
        ensures lines { result.lines.items ≡ lines.items }
    {
        MemoryDoor {
            moments,
            lines,
            came: 0,
        }
    }
}

impl Doorway<MemoryLine> for MemoryDoor {
    ghost steps = { GivesNext };

    ghost tells = { tells_next };

    ghost announces = { brings_more };

    ghost nobody = { IsEmpty };

    ghost refuses = { λ d. ⊥ };

    fn wait(&mut self, _patience: Option<Duration>, ready: &mut Vec<usize>) -> Result<bool, Fault> {
        let Some(moment) = self.moments.pop_front() else {
            return Err(Fault::ReadFailed);
        };
        self.came = self.came.saturating_add(moment.come);
        ready.extend_from_slice(&moment.ready)?;
        Ok(moment.come > 0)
    }

    fn accept(&mut self, _place: usize) -> Accepted<MemoryLine> {
        if self.came == 0 {
            return Accepted::Nobody;
        }
        match self.lines.pop_front() {
            Some(line) => {
                self.came -= 1;
                Accepted::Line(line)
            }
            None => Accepted::Nobody,
        }
    }

    /// `ReadFailed`, whichever call failed.
    fn failed(&self, line: &MemoryLine) -> Option<Fault> {
        if line.failures() > 0 {
            return Some(Fault::ReadFailed);
        }
        None
    }
}
