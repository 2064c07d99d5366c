//! Transcripts: what became of each submission.
ghost use Rattle.std.specs.Prelude.{◌≡◌, ◌++◌, [], ◌∷◌, OnOk, OnErr, IfOk, IfErr};

use logical_time::{Fault, Node, Stamp, Time};
use messages::Outcome;
use slice::Answer;
use std::alloc::{AllocError, AllocFailed, Global};
use std::marker::Model;

/// An entry of a transcript: the outcome of an operation, or the refusal of a submission.
#[derive(Drop)]
pub enum Entry {
    /// A write transaction is committed.
    Wrote {
        /// The session.
        node: Node,
        /// The number of the operation, from 1.
        number: u64,
        /// The commit time in the session's data centre.
        commit: Time,
        /// The stamp of the transaction.
        stamp: Stamp,
    },
    /// A read transaction is answered.
    Read {
        /// The session.
        node: Node,
        /// The number of the operation, from 1.
        number: u64,
        /// The effective time.
        effective: Time,
        /// The answer.
        answer: Answer,
    },
    /// A read transaction came too late for a collection.
    Collected {
        /// The session.
        node: Node,
        /// The number of the operation, from 1.
        number: u64,
    },
    /// A session moved.
    Moved {
        /// The session.
        node: Node,
        /// The number of the operation, from 1.
        number: u64,
        /// The number of the new home.
        dc: u16,
        /// The floor there.
        floor: Time,
    },
    /// A submission was refused.
    Refused {
        /// The session.
        node: Node,
        /// Why.
        fault: Fault,
    },
}

impl Entry {
    ghost use Rattle.std.specs.Prelude.{◌≡◌, IfOk, IfErr};
    ghost use Rattle.workload.specs.Simulation.{entry_by};

    /// The entry of an operation of a session that ended so. Refused with `Memory` alone.
    pub fn ended(node: Node, number: u64, outcome: &Outcome) -> Result<Entry, Fault>
        ensures ok { IfOk result (λ e. e ≡ entry_by node number outcome.now) }
        ensures memory { IfErr result (λ e. e ≡ Fault.Memory) }
    {
        Ok(Entry::of_outcome(node, number, outcome.copied()?))
    }

    /// The same with the outcome itself.
    pub fn of_outcome(node: Node, number: u64, outcome: Outcome) -> Entry
        ensures { result ≡ entry_by node number outcome }
    {
        match outcome {
            Outcome::Wrote { commit, stamp } => Entry::Wrote {
                node,
                number,
                commit,
                stamp,
            },
            Outcome::Read { effective, answer } => Entry::Read {
                node,
                number,
                effective,
                answer,
            },
            Outcome::Collected => Entry::Collected { node, number },
            Outcome::Moved { dc, floor } => Entry::Moved {
                node,
                number,
                dc,
                floor,
            },
        }
    }
}

/// The transcript of a script: its entries in the order of completion or refusal.
#[derive(Drop)]
pub struct Transcript {
    entries: Vec<Entry>,
}

impl Model for Transcript {
    ghost use Rattle.std.specs.Prelude.{List};
    ghost use Rattle.workload.specs.declared.transcript.Entry.{Entry};

    ghost Value = { List Entry };

    ghost view = { λ transcript. transcript.entries.items };
}

impl Transcript {
    /// A transcript without an entry.
    pub fn new(alloc: Global) -> Transcript
        ensures { result ≡ [] }
    {
        Transcript {
            entries: Vec::new(alloc),
        }
    }

    /// The same, with room for so many entries. Fails by memory alone.
    pub fn with_capacity(alloc: Global, capacity: usize) -> Result<Transcript, AllocError>
        ensures { IfOk result (λ transcript. transcript ≡ []) }
    {
        Ok(Transcript {
            entries: Vec::with_capacity(alloc, capacity)?,
        })
    }

    /// Adds an entry at the end. Fails by memory alone; then nothing changes, and
    /// it is handed back.
    #[inline]
    pub fn push(&mut self, entry: Entry) -> Result<(), AllocFailed<Entry>>
        ensures ok { OnOk result (self.new ≡ self.old ++ entry ∷ []) }
        ensures err { OnErr result (self.new ≡ self.old) }
        ensures back { IfErr result (λ e. e.value ≡ entry) }
    {
        self.entries.push(entry)
    }

    /// The entries.
    pub fn as_slice(&self) -> &[Entry]
        ensures { result.now ≡ self.now }
    {
        self.entries.as_slice()
    }
}
