//! What seats conclude, beside the histories: each write has to stand in that of its home, and each read has to be answered
//! with its meaning there.
use logical_time::{Fault, Time};
use messages::{Op, Outcome};
use slice::{Answer, Read};
use std::alloc::Global;
use table::{History, answer};
use threaded::{Concluded, Ended};

/// How many writes and reads ended, and how many of them wrong.
#[derive(Drop)]
pub(crate) struct Count {
    /// How many writes.
    pub(crate) writes: u64,
    /// How many of them aren't in the history of their home.
    pub(crate) missing: u64,
    /// How many reads.
    pub(crate) reads: u64,
    /// How many of them were answered otherwise than they mean.
    pub(crate) wrong: u64,
}

fn are_same(first: &Answer, second: &Answer) -> bool {
    let (first, second) = (first.as_slice(), second.as_slice());
    first.len() == second.len()
        && first.iter().zip(second).all(|(first, second)| {
            first.key == second.key && first.columns.as_slice() == second.columns.as_slice()
        })
}

/// How many operations ended.
pub(crate) fn count_of(concluded: &Concluded) -> usize {
    let mut count: usize = 0;
    for _ in concluded.transcript() {
        count = count.wrapping_add(1);
    }
    count
}

/// How many entries the history of each data centre has.
pub(crate) fn entries_of(alloc: Global, concluded: &Concluded) -> Result<String, Fault> {
    let mut seen = String::new(alloc);
    for dc in 0..concluded.topology().dcs() {
        let history = concluded.history(alloc, dc)?;
        let count = history.as_slice().len();
        write!(seen, " {count}")?;
    }
    Ok(seen)
}

/// Whether the answer is what the read means on the history.
fn is_meant(
    alloc: Global,
    history: &History,
    effective: Time,
    (read, shown): (&Read, &Answer),
) -> Result<bool, Fault> {
    Ok(are_same(&answer(alloc, history, effective, read)?, shown))
}

fn add(count: &mut u64, is_one: bool) {
    if is_one {
        *count = count.wrapping_add(1);
    }
}

impl Count {
    /// Nothing.
    pub(crate) fn new() -> Count {
        Count {
            writes: 0,
            missing: 0,
            reads: 0,
            wrong: 0,
        }
    }

    /// Adds an operation that ended, with the history of its home.
    fn add_ended(
        &mut self,
        alloc: Global,
        history: &History,
        ended: &Ended<'_>,
    ) -> Result<(), Fault> {
        match (ended.op, ended.outcome) {
            (Op::Read(read), Outcome::Read { effective, answer }) => {
                let is_right = is_meant(alloc, history, *effective, (read.get(), answer))?;
                add(&mut self.reads, true);
                add(&mut self.wrong, !is_right);
            }
            (Op::Batch(_), Outcome::Wrote { commit, stamp }) => {
                let is_there = history
                    .as_slice()
                    .iter()
                    .any(|entry| entry.commit == *commit && entry.stamp == *stamp);
                add(&mut self.writes, true);
                add(&mut self.missing, !is_there);
            }
            _ => {}
        }
        Ok(())
    }

    /// Adds all operations that ended.
    pub(crate) fn add_all(&mut self, alloc: Global, concluded: &Concluded) -> Result<(), Fault> {
        for ended in concluded.transcript() {
            if concluded.topology().dcs() <= ended.home {
                return Err(Fault::Script);
            }
            let history = concluded.history(alloc, ended.home)?;
            self.add_ended(alloc, &history, &ended)?;
        }
        Ok(())
    }
}
