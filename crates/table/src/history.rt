//! Histories of committed batches.
ghost use Rattle.std.specs.Prelude.{◌≡◌, ◌++◌, [], ◌∷◌, OnOk, OnErr, IfErr};

use column_family::Committed;
use std::alloc::{AllocFailed, Global};
use std::marker::Model;

/// The batches that are committed in a data centre, each as it was submitted, with its stamp and its
/// commit time there, in any order.
#[derive(Drop)]
pub struct History {
    entries: Vec<Committed>,
}

impl Model for History {
    ghost use Rattle.std.specs.Prelude.{List};
    ghost use Rattle.column_family.specs.declared.batch.Committed.{Committed};

    ghost Value = { List Committed };

    ghost view = { λ history. history.entries.items };
}

impl History {
    /// A history without an entry.
    pub fn new(alloc: Global) -> History
        ensures { result ≡ [] }
    {
        History {
            entries: Vec::new(alloc),
        }
    }

    /// Adds an entry at the end. Fails by memory alone; then nothing changes, and
    /// it is handed back.
    pub fn push(&mut self, entry: Committed) -> Result<(), AllocFailed<Committed>>
        ensures ok { OnOk result (self.new ≡ self.old ++ entry ∷ []) }
        ensures err { OnErr result (self.new ≡ self.old) }
        ensures back { IfErr result (λ e. e.value ≡ entry) }
    {
        self.entries.push(entry)
    }

    /// The entries.
    pub fn as_slice(&self) -> &[Committed]
        ensures { result.now ≡ self.now }
    {
        self.entries.as_slice()
    }
}
