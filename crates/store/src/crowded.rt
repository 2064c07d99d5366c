//! The rows that a collection has to look at.
ghost use Rattle.std.specs.Prelude.{◌≡◌, ◌+◌, ◌≤◌, ◌<◌, [], if◌then◌else◌, None, true, filter, OnOk, IfErr, IsOk};
ghost use Rattle.std.specs.Ordering.{is_eq};
ghost use Rattle.logical_time.specs.declared.fault.Fault.TheVariants as fault;
ghost use Rattle.column_family.specs.declared.batch.Row.{Row};
ghost use Rattle.column_family.specs.Places.{is_listed, row_cmp};
ghost use Rattle.versions.specs.Chain.{kept_from};
ghost use Rattle.versions.specs.Ranges.{kept_ranges};
ghost use Rattle.store.specs.Stored.{Place, chain_at, ranges_in, HaveKept, HaveKeptRanges};
ghost use Rattle.store.specs.Crowded.{AreListed, is_crowded_in};

use crate::row::RowChains;
use crate::rows::{collect_row, is_crowded};
use column_family::Row;
use logical_time::{Fault, Time};
use std::alloc::Global;
use std::collections::BTreeMap;
use std::marker::Model;

/// The rows of which a chain may hold more than one version, and those that hold a deletion of a range. No other row has
/// anything to collect.
#[derive(Drop)]
pub(crate) struct Crowded {
    // a row may stand here more than once, until the next collection
    rows: Vec<Row>,
}

impl Model for Crowded {
    ghost use Rattle.std.specs.Prelude.{◌-◌, vec_len, vec_capacity};
    ghost use Rattle.store.specs.Crowded.{Listed};

    ghost Value = { Listed };

    ghost view = { λ c. record { rows = c.rows.items; room = vec_capacity c.rows - vec_len c.rows } };
}

impl Crowded {
    /// No row.
    pub(crate) fn new(alloc: Global) -> Crowded
        ensures { result.rows ≡ [] }
    {
        Crowded {
            rows: Vec::new(alloc),
        }
    }

    /// Makes room for so many more rows. Those that are listed stay. Refused with `Memory` alone.
    pub(crate) fn reserve(&mut self, additional: usize) -> Result<(), Fault>
        ensures same { self.new.rows ≡ self.old.rows }
        ensures ok { OnOk result (additional ≤ self.new.room) }
        ensures succeeds { additional ≤ self.old.room → IsOk result }
        ensures room { self.old.room ≤ self.new.room }
        ensures memory { IfErr result (λ e. e ≡ fault.Memory) }
    {
        self.rows.reserve(additional)?;
        Ok(())
    }

    /// Lists a row, for which there is room. Takes no memory.
    pub(crate) fn add(&mut self, row: Row)
        requires { 0 < self.old.room }
        ensures listed { (r : Row) → is_listed self.new.rows r ≡ (if is_eq (row_cmp row r) then true else is_listed self.old.rows r) }
        ensures room { self.old.room ≤ self.new.room + 1 }
    {
        self.rows.push_reserved(row);
    }
}

// Sorts the list and drops repeats, so that each row is looked at once. Takes no memory.
fn list_once(listed: &mut Vec<Row>)
    ensures { (r : Row) → is_listed listed.new.items r ≡ is_listed listed.old.items r }
{
    listed.sort_unstable();
    listed.dedup();
}

// Collects each of these rows.
fn collect_listed(rows: &mut BTreeMap<Row, RowChains>, listed: &[Row], time: Time)
    ensures ranges { (r : Row) → (ranges_in rows.new.entries r).ranges ≡ (if is_listed listed.now r then kept_ranges time (chain_at rows.old.entries r None).versions (ranges_in rows.old.entries r).ranges else (ranges_in rows.old.entries r).ranges) }
    ensures versions { (r : Row) (p : Place) → (chain_at rows.new.entries r p).versions ≡ (if is_listed listed.now r then kept_from time (chain_at rows.old.entries r p).versions else (chain_at rows.old.entries r p).versions) }
{
    for row in listed {
        collect_row(rows, row, time);
    }
}

// Takes the rows from the list of which no chain holds more than one version any more, nor the row a deletion of a range.
fn keep_crowded(listed: &mut Vec<Row>, rows: &BTreeMap<Row, RowChains>)
    ensures { listed.new.items ≡ filter (is_crowded_in rows.now.entries) listed.old.items }
{
    listed.retain(|row| is_crowded(rows, row));
}

/// Drops the versions that are the newest of their chain at no time from this one on, and the deletions of ranges that are
/// in force at none. In the order of n log n for n listed rows, and linear in all that these hold. Takes no memory.
pub(crate) fn collect_crowded(
    rows: &mut BTreeMap<Row, RowChains>,
    crowded: &mut Crowded,
    time: Time,
)
    ensures kept { AreListed crowded.old.rows rows.old.entries → HaveKept time rows.old.entries rows.new.entries }
    ensures ranges { AreListed crowded.old.rows rows.old.entries → HaveKeptRanges time rows.old.entries rows.new.entries }
    ensures listed { AreListed crowded.old.rows rows.old.entries → AreListed crowded.new.rows rows.new.entries }
{
    list_once(&mut crowded.rows);
    collect_listed(rows, &crowded.rows, time);
    keep_crowded(&mut crowded.rows, rows);
}
