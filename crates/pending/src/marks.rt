//! The marks of each row.
ghost use Rattle.std.specs.Prelude.{◌≡◌, if◌then◌else◌, IfOk, OnOk, OnErr, IfErr, Some, None};
ghost use Rattle.logical_time.specs.declared.fault.Fault.TheVariants as fault;
ghost use Rattle.logical_time.specs.Stamps.{TxnValue};
ghost use Rattle.column_family.specs.declared.batch.Row.{Row};
ghost use Rattle.pending.specs.Marks.{time_at, is_same_mark, IsLeast, IsBelow};
ghost use Rattle.pending.specs.Marked.{AreMarked, AreCleared, IsCleared, AreBelow};

use crate::row_marks::RowMarks;
use crate::rows::{below_in, below_rows, clear_rows, clear_txn, is_first, least_in, mark_row};
use column_family::{Change, Row};
use logical_time::{Fault, Time, TxnId};
use std::alloc::Global;
use std::collections::BTreeMap;
use std::marker::Model;

/// The marks of pending transactions on rows, each with its prepare time. A transaction has at most one
/// mark on a row. A row that was ever marked keeps its entry, for the next mark.
#[derive(Drop)]
pub struct Marks {
    alloc: Global,
    // in order, since a hash of a fixed seed lets who chooses the keys pick such as collide
    rows: BTreeMap<Row, RowMarks>,
}

impl Model for Marks {
    ghost use Rattle.pending.specs.Marks.{MarkList};

    ghost Value = { MarkList };

    ghost view = { λ marks. marks.rows.entries };
}

impl Marks {
    /// No mark.
    pub fn new(alloc: Global) -> Marks
        ensures { (r : Row) (t : TxnValue) → time_at result r t ≡ None }
    {
        Marks {
            alloc,
            rows: BTreeMap::new(alloc),
        }
    }

    /// Marks the row for the transaction with its prepare time. If the transaction has a mark on the row
    /// already, this time takes the place of the earlier one. Refused with `Memory`, and then every mark
    /// stays. Logarithmic in the rows and in the marks on the row.
    pub fn mark(&mut self, row: &Row, txn: TxnId, time: Time) -> Result<(), Fault>
        ensures ok { OnOk result ((r : Row) (t : TxnValue) → time_at self.new r t ≡ (if is_same_mark row.now txn r t then Some time else time_at self.old r t)) }
        ensures err { OnErr result ((r : Row) (t : TxnValue) → time_at self.new r t ≡ time_at self.old r t) }
        ensures memory { IfErr result (λ e. e ≡ fault.Memory) }
    {
        mark_row(self.alloc, &mut self.rows, row, txn, time)
    }

    /// Marks the row for the transaction, or takes away its marks on the rows that these changes touch.
    fn mark_or_clear(
        &mut self,
        row: &Row,
        changes: &[Change],
        txn: TxnId,
        time: Time,
    ) -> Result<(), Fault>
        ensures ok { OnOk result ((r : Row) (t : TxnValue) → time_at self.new r t ≡ (if is_same_mark row.now txn r t then Some time else time_at self.old r t)) }
        ensures err { OnErr result (AreCleared self.old self.new changes.now txn) }
        ensures memory { IfErr result (λ e. e ≡ fault.Memory) }
    {
        match self.mark(row, txn, time) {
            Ok(()) => Ok(()),
            Err(fault) => {
                self.clear_rows(changes, txn);
                Err(fault)
            }
        }
    }

    /// Marks each row that these changes touch for the transaction with its prepare time, in place of its marks
    /// there. Refused with `Memory`, and then the transaction has no mark on these rows, so that nothing has changed
    /// for a transaction that had none. Logarithmic for each change in the rows and in the marks on its row.
    pub fn mark_all(&mut self, changes: &[Change], txn: TxnId, time: Time) -> Result<(), Fault>
        ensures ok { OnOk result (AreMarked self.old self.new changes.now txn time) }
        ensures err { OnErr result (AreCleared self.old self.new changes.now txn) }
        ensures memory { IfErr result (λ e. e ≡ fault.Memory) }
    {
        let mut rest = changes;
        while let Some((change, later)) = rest.split_first() {
            if !is_first(&change.row, later) {
                self.mark_or_clear(&change.row, changes, txn, time)?;
            }
            rest = later;
        }
        Ok(())
    }

    /// Takes away all marks of the transaction, whatever the rows, and no other. Takes no memory. Linear in the rows that
    /// were ever marked, and logarithmic in the marks on each: `clear_rows` costs less where the rows are known.
    pub fn clear(&mut self, txn: TxnId)
        ensures { IsCleared self.old self.new txn }
    {
        clear_txn(&mut self.rows, txn);
    }

    /// Takes away the marks of the transaction on the rows that these changes touch, and no other. Takes no memory.
    /// Logarithmic for each change in the rows and in the marks on its row.
    #[inline(always)]
    pub fn clear_rows(&mut self, changes: &[Change], txn: TxnId)
        ensures { AreCleared self.old self.new changes.now txn }
    {
        clear_rows(&mut self.rows, changes, txn);
    }

    /// The least time of a mark on the row, or `None` where the row has no mark. Logarithmic in the rows, and
    /// linear in the marks on the row.
    pub fn least(&self, row: &Row) -> Option<Time>
        ensures { IsLeast (time_at self.now row.now) result }
    {
        least_in(&self.rows, row)
    }

    /// The transactions with marks on the row strictly below the time, in the order of their numbers. Its
    /// one error is `Memory`. Logarithmic in the rows, and linear in the marks on the row.
    pub fn below(&self, row: &Row, time: Time) -> Result<Vec<TxnId>, Fault>
        ensures ok { IfOk result (λ txns. IsBelow (time_at self.now row.now) time txns.items) }
        ensures memory { IfErr result (λ e. e ≡ fault.Memory) }
    {
        below_in(self.alloc, &self.rows, row, time)
    }

    /// The transactions with marks on one of these rows strictly below the time, each once, in the order of
    /// their numbers. Its one error is `Memory`. In the order of k log n + m log m for k rows with m marks
    /// among n rows.
    pub fn below_rows(&self, rows: &[Row], time: Time) -> Result<Vec<TxnId>, Fault>
        ensures ok { IfOk result (λ txns. AreBelow self.now rows.now time txns.items) }
        ensures memory { IfErr result (λ e. e ≡ fault.Memory) }
    {
        below_rows(self.alloc, &self.rows, rows, time)
    }
}
