//! The store of a shard.
ghost use Rattle.std.specs.Prelude.{◌≡◌, ◌++◌, [], ◌∷◌, ◌≤◌, ◌<◌, ◌⊎◌, ℕ, List, All, length, max, OnOk, OnErr, IfOk, IfErr, IsOk};
ghost use Rattle.logical_time.specs.declared.fault.Fault.TheVariants as fault;
ghost use Rattle.column_family.specs.Location.{Location};
ghost use Rattle.column_family.specs.Normal.{IsNormal};
ghost use Rattle.store.specs.declared.part.Applied.{Applied};
ghost use Rattle.store.specs.Crowded.{AreListed};
ghost use Rattle.store.specs.Holdings.{holdings_of};
ghost use Rattle.store.specs.Stored.{HasRoom, HasRoomInRows, HaveKept, HaveKeptRanges, HaveKeptRoom, HaveKeptRangeRoom, HaveSameVersions, HaveSameRanges, HavePut, HavePutRanges};
ghost use Rattle.store.specs.Keeps.{Keeps, IsNewStamp, IsOvertaken};
ghost use Rattle.column_family.specs.History.{newest_at};
ghost use Rattle.store.specs.declared.sight.Moment.TheVariants.{At};
ghost use Rattle.store.specs.Part.{IsNewestPart, IsRightPart, history_of};

use crate::crowded::{Crowded, collect_crowded};
use crate::holdings::Holdings;
use crate::origin::Origin;
use crate::part::Part;
use crate::reading::{part_in, part_with};
use crate::row::{RowChains, row_written};
use crate::rows::{put_changes, reserve_changes, versions_in};
use crate::sight::Moment;
use column_family::{Batch, Change, Row};
use logical_time::{Fault, Stamp, Time, Writer};
use slice::Predicate;
use std::alloc::Global;
use std::collections::BTreeMap;
use std::marker::Model;
use txn_state::Prepared;

// Makes room for what these changes leave, and for their rows in the list.
fn reserve_all(
    alloc: Global,
    rows: &mut BTreeMap<Row, RowChains>,
    crowded: &mut Crowded,
    changes: &[Change],
) -> Result<(), Fault>
    ensures versions { HaveSameVersions rows.old.entries rows.new.entries }
    ensures ranges { HaveSameRanges rows.old.entries rows.new.entries }
    ensures room { HaveKeptRoom rows.old.entries rows.new.entries }
    ensures range_room { HaveKeptRangeRoom rows.old.entries rows.new.entries }
    ensures listed { crowded.new.rows ≡ crowded.old.rows }
    ensures listing { crowded.old.room ≤ crowded.new.room }
    ensures ok { OnOk result (HasRoomInRows rows.new.entries changes.now × (length changes.now ≤ crowded.new.room)) }
    ensures succeeds { HasRoomInRows rows.old.entries changes.now → length changes.now ≤ crowded.old.room → IsOk result }
    ensures memory { IfErr result (λ e. e ≡ fault.Memory) }
{
    crowded.reserve(changes.len())?;
    reserve_changes(alloc, rows, changes)
}

// Puts what a part leaves, for which there is room, and lists the rows that are crowded then.
fn put_part(
    rows: &mut BTreeMap<Row, RowChains>,
    crowded: &mut Crowded,
    prepared: Prepared,
    commit: Time,
    stamp: Stamp,
)
    requires room { HasRoomInRows rows.old.entries prepared.part.batch }
    requires listing { length prepared.part.batch ≤ crowded.old.room }
    ensures put { HavePut (record { writer = prepared.part.writer; stamp = stamp; evt = commit }) prepared.part.batch rows.old.entries rows.new.entries }
    ensures ranges { HavePutRanges (record { writer = prepared.part.writer; stamp = stamp; evt = commit }) prepared.part.batch rows.old.entries rows.new.entries }
    ensures listed { AreListed crowded.old.rows rows.old.entries → AreListed crowded.new.rows rows.new.entries }
{
    let (part, _) = prepared.surrender();
    let origin = Origin::new(part.writer, stamp, commit);
    put_changes(rows, crowded, part.batch.into_vec(), &origin);
}

/// What a shard keeps of the parts that were applied: the versions of each column and of each row's deletion, and
/// the horizon, the time below which no read is answered any more.
#[derive(Drop)]
pub struct Store {
    alloc: Global,
    // in order, since a hash of a fixed seed lets who chooses the keys pick such as collide
    rows: BTreeMap<Row, RowChains>,
    // those that a collection looks at
    crowded: Crowded,
    low: Time,
}

impl Model for Store {
    ghost use Rattle.store.specs.Stored.{StoreValue};
    ghost use Rattle.store.specs.Crowded.{AreListed};

    ghost Value = { StoreValue };

    ghost view = { λ store. record { rows = store.rows.entries; low = store.low; listing = store.crowded.room } };

    ghost invariant = { λ store. AreListed store.crowded.rows store.rows.entries };
}

impl Store {
    ghost use Rattle.column_family.specs.declared.batch.Row.{Row};

    /// A store to which nothing was applied, with the horizon at 0.
    #[tactic(auto, using(crate::proofs::applied::Lasting::keeps_nothing))]
    pub fn new(alloc: Global) -> Store
        ensures keeps { Keeps result [] }
        ensures low { result.low ≡ 0 }
    {
        Store {
            alloc,
            rows: BTreeMap::new(alloc),
            crowded: Crowded::new(alloc),
            low: Time::zero(),
        }
    }

    /// Makes room for the changes of a batch, so that the next `apply` of a part with that batch succeeds, and
    /// `apply_in_room` takes no memory, if no other changing call stands between: also for a row for each change in the
    /// list of those that a collection looks at. What is held and the room for more stay, also where this is refused, with
    /// `Memory` alone.
    /// Logarithmic for each change in the rows and in the columns of its row, and linear in the batch for each range of
    /// columns that it deletes.
    #[tactic(auto, using(crate::proofs::applied::Lasting::keeps_same))]
    pub fn make_room(&mut self, batch: &Batch) -> Result<(), Fault>
        ensures same { HaveSameVersions self.old.rows self.new.rows }
        ensures same_ranges { HaveSameRanges self.old.rows self.new.rows }
        ensures room { HaveKeptRoom self.old.rows self.new.rows }
        ensures range_room { HaveKeptRangeRoom self.old.rows self.new.rows }
        ensures listing { self.old.listing ≤ self.new.listing }
        ensures low { self.new.low ≡ self.old.low }
        ensures keeps { (all : List Applied) → Keeps self.old all → Keeps self.new all }
        ensures ok { OnOk result (HasRoom self.new batch.now) }
        ensures succeeds { HasRoom self.old batch.now → IsOk result }
        ensures memory { IfErr result (λ e. e ≡ fault.Memory) }
    {
        reserve_all(
            self.alloc,
            &mut self.rows,
            &mut self.crowded,
            batch.as_slice(),
        )
    }

    /// Applies a part with this commit time and this stamp: it puts the version that each change leaves into the
    /// chain of its place, and each deletion of a range, once, to those of its row, in any order of stamps. So the store
    /// keeps this part too, if it is in normal form and its stamp is new. First it makes the room that `make_room` makes,
    /// and then it takes no memory. Refused with `Memory` alone, and never after `make_room` for its batch; then what is
    /// held and the room for more stay, and the part is handed back. Logarithmic for each change in the rows and in the
    /// columns of its row; in the chain it costs what a put does. For `collect` it lists each row of which a chain came to
    /// hold more than one version, or of which a range was deleted.
    #[tactic(auto, using(crate::proofs::applied::KeepsApplied::keeps_applied, crate::proofs::applied::Lasting::keeps_same, crate::proofs::newest::Overtaken::overtaken))]
    pub fn apply(
        &mut self,
        prepared: Prepared,
        commit: Time,
        stamp: Stamp,
    ) -> Result<(), (Fault, Prepared)>
        ensures put { OnOk result (HavePut (record { writer = prepared.part.writer; stamp = stamp; evt = commit }) prepared.part.batch self.old.rows self.new.rows) }
        ensures ranges { OnOk result (HavePutRanges (record { writer = prepared.part.writer; stamp = stamp; evt = commit }) prepared.part.batch self.old.rows self.new.rows) }
        ensures low { self.new.low ≡ self.old.low }
        ensures keeps { (all : List Applied) → Keeps self.old all → IsNormal prepared.part.batch → IsNewStamp stamp all → OnOk result (Keeps self.new (all ++ record { part = prepared.part; commit = commit; stamp = stamp } ∷ [])) }
        ensures succeeds { HasRoom self.old prepared.part.batch → IsOk result }
        ensures same { OnErr result (HaveSameVersions self.old.rows self.new.rows) }
        ensures same_ranges { OnErr result (HaveSameRanges self.old.rows self.new.rows) }
        ensures room { OnErr result (HaveKeptRoom self.old.rows self.new.rows) }
        ensures range_room { OnErr result (HaveKeptRangeRoom self.old.rows self.new.rows) }
        ensures listing { OnErr result (self.old.listing ≤ self.new.listing) }
        ensures kept { (all : List Applied) → Keeps self.old all → OnErr result (Keeps self.new all) }
        ensures back { IfErr result (λ e. (e.0 ≡ fault.Memory) × (e.1 ≡ prepared)) }

        // A mutation that is committed no earlier than a newer one of its location changes the table at no time. What a
        // read rests on, and since when it is valid, a deletion of a range may change all the same.
        ensures overtaken { (all : List Applied) (l : Location) → IsOvertaken all l stamp commit → (t : ℕ) → newest_at (history_of (all ++ record { part = prepared.part; commit = commit; stamp = stamp } ∷ [])) t l ≡ newest_at (history_of all) t l }
    {
        let changes = prepared.part().as_slice();
        match reserve_all(self.alloc, &mut self.rows, &mut self.crowded, changes) {
            Ok(()) => {}
            Err(fault) => return Err((fault, prepared)),
        }
        put_part(&mut self.rows, &mut self.crowded, prepared, commit, stamp);
        Ok(())
    }

    /// Applies a part as `apply` does, where there is room for its batch: so it isn't refused, takes no memory, and looks
    /// for each place once.
    #[tactic(auto, using(crate::proofs::applied::KeepsApplied::keeps_applied, crate::proofs::newest::Overtaken::overtaken))]
    pub fn apply_in_room(&mut self, prepared: Prepared, commit: Time, stamp: Stamp)
        requires { HasRoom self.old prepared.part.batch }
        ensures put { HavePut (record { writer = prepared.part.writer; stamp = stamp; evt = commit }) prepared.part.batch self.old.rows self.new.rows }
        ensures ranges { HavePutRanges (record { writer = prepared.part.writer; stamp = stamp; evt = commit }) prepared.part.batch self.old.rows self.new.rows }
        ensures low { self.new.low ≡ self.old.low }
        ensures keeps { (all : List Applied) → Keeps self.old all → IsNormal prepared.part.batch → IsNewStamp stamp all → Keeps self.new (all ++ record { part = prepared.part; commit = commit; stamp = stamp } ∷ []) }

        // A mutation that is committed no earlier than a newer one of its location changes the table at no time. What a
        // read rests on, and since when it is valid, a deletion of a range may change all the same.
        ensures overtaken { (all : List Applied) (l : Location) → IsOvertaken all l stamp commit → (t : ℕ) → newest_at (history_of (all ++ record { part = prepared.part; commit = commit; stamp = stamp } ∷ [])) t l ≡ newest_at (history_of all) t l }
    {
        put_part(&mut self.rows, &mut self.crowded, prepared, commit, stamp);
    }

    /// The slice of the row's newest versions, with what it rests on and its earliest valid time: it is right at
    /// every time from that one on, by everything that was ever applied. Takes as many steps as there are asked
    /// columns, each found in the order of their logarithm, after the row in that of the rows. Where `k` deletions of ranges
    /// are held of the row: for `n` asked columns as many as `n + k` more, each logarithmic in `k` and in the names of a
    /// list. Refused with `Memory` alone.
    #[tactic(auto, using(crate::proofs::seen::PartAt::part_now, crate::proofs::times::FromEvt::right_from_evt))]
    pub fn read_now(&self, row: &Row, predicate: &Predicate) -> Result<Part, Fault>
        ensures newest { (all : List Applied) → Keeps self.now all → IfOk result (IsNewestPart all row.now predicate.now) }
        ensures right { (all : List Applied) (t : ℕ) → Keeps self.now all → IfOk result (λ part. part.evt ≤ t → IsRightPart all row.now predicate.now t part) }
        ensures memory { IfErr result (λ e. e ≡ fault.Memory) }
    {
        part_in(self.alloc, &self.rows, row, predicate, &Moment::Now)
    }

    // The moment of a time that isn't below the horizon.
    fn moment_at(&self, time: Time) -> Result<Moment, Fault>
        ensures ok { IfOk result (λ moment. (moment ≡ At time) × (self.now.low ≤ time)) }
        ensures refused { IfErr result (λ e. (e ≡ fault.Collected) × (time < self.now.low)) }
    {
        if time < self.low {
            Err(Fault::Collected)
        } else {
            Ok(Moment::At(time))
        }
    }

    /// The slice of the row at a time, with what it rests on there, and 0 for its earliest valid time: right by
    /// everything that was ever applied, and by whatever is applied later with a greater commit time. Refused with
    /// `Collected` exactly where the time lies below the horizon, else with `Memory` alone. Costs what `read_now`
    /// does, and the logarithm of each chain.
    #[tactic(auto, using(crate::proofs::seen::PartAt::part_at, crate::proofs::newest::Later::right_lasts))]
    pub fn read_at(&self, row: &Row, predicate: &Predicate, time: Time) -> Result<Part, Fault>
        ensures right { (all : List Applied) → Keeps self.now all → IfOk result (IsRightPart all row.now predicate.now time) }
        ensures lasts { (all later : List Applied) → Keeps self.now all → All (λ a. time < a.commit) later → IfOk result (IsRightPart (all ++ later) row.now predicate.now time) }
        ensures evt { IfOk result (λ part. part.evt ≡ 0) }
        ensures answered { IfOk result (λ part. self.now.low ≤ time) }
        ensures refused { IfErr result (λ e. ((e ≡ fault.Collected) × (time < self.now.low)) ⊎ ((e ≡ fault.Memory) × (self.now.low ≤ time))) }
    {
        let moment = self.moment_at(time)?;
        let part = part_in(self.alloc, &self.rows, row, predicate, &moment)?;
        Ok(Part {
            evt: Time::zero(),
            ..part
        })
    }

    /// What `read_at` would answer once a part of this writer were applied with this commit time and this stamp, if
    /// the part is in normal form and its stamp is new; nothing is applied. Refused as `read_at` is. Costs what
    /// `read_at` does, and is linear in the batch: the versions that the part leaves in the row are laid over those
    /// that the read finds, without touching a chain.
    #[tactic(auto, using(crate::proofs::laid_over::ReadWith::part_with))]
    pub fn read_with(
        &self,
        writer: Writer,
        batch: &Batch,
        commit: Time,
        stamp: Stamp,
        row: &Row,
        predicate: &Predicate,
        time: Time,
    ) -> Result<Part, Fault>
        ensures right { (all : List Applied) → Keeps self.now all → IsNormal batch.now → IsNewStamp stamp all → IfOk result (IsRightPart (all ++ record { part = record { writer = writer; batch = batch.now }; commit = commit; stamp = stamp } ∷ []) row.now predicate.now time) }
        ensures evt { IfOk result (λ part. part.evt ≡ 0) }
        ensures answered { IfOk result (λ part. self.now.low ≤ time) }
        ensures refused { IfErr result (λ e. ((e ≡ fault.Collected) × (time < self.now.low)) ⊎ ((e ≡ fault.Memory) × (self.now.low ≤ time))) }
    {
        let moment = self.moment_at(time)?;
        let origin = Origin::new(writer, stamp, commit);
        let over = row_written(self.alloc, row, batch.as_slice(), &origin)?;
        let part = part_with(self.alloc, &self.rows, &over, row, predicate, &moment)?;
        Ok(Part {
            evt: Time::zero(),
            ..part
        })
    }

    /// The horizon: the time below which no read is answered any more.
    pub fn low(&self) -> Time
        ensures { result ≡ self.now.low }
    {
        self.low
    }

    /// How much it holds. Linear in its rows and in their columns.
    pub fn holdings(&self) -> Holdings
        ensures { result ≡ holdings_of self.now.rows }
    {
        Holdings {
            rows: self.rows.len() as u64,
            versions: versions_in(&self.rows),
        }
    }

    /// Raises the horizon to this time if it lies below it, and drops from each chain the versions that are its newest
    /// at no time from the horizon on, and from each row the deletions of ranges for which some newer deletion of the row has
    /// an EVT not above the greater of the horizon and their own. What a read at the horizon or later answers stays. Passes
    /// over each row of which every chain holds one version at most and no range was deleted: linear in what the other rows
    /// hold, and in the order of n log n for n times that one of them was listed, with a logarithm of all rows for each.
    /// Takes no memory.
    pub fn collect(&mut self, time: Time)
        ensures low { self.new.low ≡ max self.old.low time }
        ensures kept { HaveKept self.new.low self.old.rows self.new.rows }
        ensures ranges { HaveKeptRanges self.new.low self.old.rows self.new.rows }
        ensures keeps { (all : List Applied) → Keeps self.old all → Keeps self.new all }
    {
        self.low = self.low.max(time);
        collect_crowded(&mut self.rows, &mut self.crowded, self.low);
    }

    /// Ends the store.
    pub fn close(self) {
        let Store {
            alloc: _,
            rows: _,
            crowded: _,
            low: _,
        } = self;
    }
}
