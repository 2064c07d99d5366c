//! A log that is open.
ghost use Rattle.std.specs.Prelude.{◌≡◌, ◌⊎◌, ◌<◌, ◌^◌, ◌++◌, ◌∷◌, [], true, false, List, length, option_map, is_err, IsErr, IfOk, OnOk, OnErr, IfSome, IfErr};
ghost use Rattle.disk.specs.Disk.{IsBeginning, Only, LeavesOnly};
ghost use Rattle.disk.specs.declared.disk.DiskError.TheVariants.{Failed};
ghost use Rattle.records.specs.Records.{Entry};
ghost use Rattle.keeper.specs.Log.{IsKept, Stands, Survives, IsMark, next};

use disk::{Disk, DiskError};
use records::write_record;
use std::alloc::{AllocError, Global};

/// A log: a disk that holds records, and those that were noted since the last commit. After a commit that failed, each
/// further one fails, and it has to be opened again.
#[derive(Drop)]
pub struct Log<D: Disk> {
    pub(crate) disk: D,
    // What the sums are made with.
    pub(crate) secret: u64,
    // How long the file is.
    pub(crate) end: usize,
    // The records that were noted.
    pub(crate) pending: Vec<u8>,
}

// Writes behind the end, and syncs.
fn put<D: Disk>(disk: &mut D, bytes: &Vec<u8>) -> Result<(), DiskError>
    ensures seen { OnOk result (D.seen disk.new ≡ option_map (λ s. s ++ bytes.now.items) (D.seen disk.old)) }
    ensures durable { OnOk result (IfSome (D.seen disk.old) (λ s. Only (s ++ bytes.now.items) (D.may_leave disk.new))) }
    ensures any_moment { IfSome (D.seen disk.old) (λ s. Only s (D.may_leave disk.old) → LeavesOnly D.moment D.left_since disk.old disk.new (IsBeginning s)) }
    ensures fails { D.failed disk.new ≡ is_err result }
    ensures stays_failed { D.failed disk.old ≡ true → IsErr result }
{
    disk.append(bytes)?;
    disk.sync()
}

impl<D: Disk> Log<D> {
    /// A log over a disk that holds records alone, all of them synced, up to this place.
    pub fn over(alloc: Global, disk: D, secret: u64, end: usize) -> Log<D>
        ensures stands { (kept : List Entry) → IsKept D.seen D.may_leave disk secret end kept → Stands D.seen D.may_leave result kept [] }
        ensures is { (result.disk ≡ disk) × (result.secret ≡ secret) }
    {
        Log {
            disk,
            secret,
            end,
            pending: Vec::new(alloc),
        }
    }

    /// The disk.
    pub fn disk(&self) -> &D
        ensures { result.now ≡ self.now.disk }
    {
        &self.disk
    }

    /// The disk, and the end of the log. What isn't synced is lost.
    pub fn into_disk(self) -> D
        ensures { result ≡ self.disk }
    {
        let Log {
            disk,
            secret: _,
            end: _,
            pending: _,
        } = self;
        disk
    }

    /// Notes a record: it is synced by the next commit. Gives the mark by which it is taken back. Where memory is
    /// refused nothing changes.
    pub fn note(&mut self, body: &[u8]) -> Result<usize, AllocError>
        requires { length body.now < 256 ^ 4 }
        ensures ok { OnOk result ((kept : List Entry) (noted : List Entry) → Stands D.seen D.may_leave self.old kept noted → Stands D.seen D.may_leave self.new kept (noted ++ next noted body.now ∷ [])) }
        ensures mark { IfOk result (λ mark. (kept : List Entry) (noted : List Entry) → Stands D.seen D.may_leave self.old kept noted → IsMark self.new mark noted) }
        ensures err { OnErr result ((kept : List Entry) (noted : List Entry) → Stands D.seen D.may_leave self.old kept noted → Stands D.seen D.may_leave self.new kept noted) }
        ensures disk { self.new.disk ≡ self.old.disk }
        ensures secret { self.new.secret ≡ self.old.secret }
    {
        let mark = self.pending.len();
        let Some(place) = self.end.checked_add(mark) else {
            return Err(AllocError);
        };
        write_record(
            &mut self.pending,
            self.secret,
            place as u64,
            mark == 0,
            body,
        )?;
        Ok(mark)
    }

    /// Takes back the record that this is the mark of, and all that were noted after it: they are not noted after
    /// all. It takes no memory.
    pub fn take_back(&mut self, mark: usize)
        ensures noted { (kept : List Entry) (noted : List Entry) (back : List Entry) → IsMark self.old mark noted → Stands D.seen D.may_leave self.old kept (noted ++ back) → Stands D.seen D.may_leave self.new kept noted }
        ensures disk { self.new.disk ≡ self.old.disk }
        ensures secret { self.new.secret ≡ self.old.secret }
    {
        self.pending.truncate(mark);
    }

    /// Syncs all that was noted. A crash at any moment leaves what was synced before, and some of what was noted, in
    /// order. Where nothing was noted the disk isn't asked.
    pub fn commit(&mut self) -> Result<(), DiskError>
        ensures settled { OnOk result ((kept : List Entry) (noted : List Entry) → Stands D.seen D.may_leave self.old kept noted → Stands D.seen D.may_leave self.new (kept ++ noted) []) }
        ensures any_moment { (kept : List Entry) (noted : List Entry) → Stands D.seen D.may_leave self.old kept noted → LeavesOnly D.moment D.left_since self.old.disk self.new.disk (Survives self.old.secret kept noted) }
        ensures secret { self.new.secret ≡ self.old.secret }
        ensures fails { IfErr result (λ e. e ≡ Failed → D.failed self.new.disk ≡ true) }
        ensures stays_failed { D.failed self.old.disk ≡ true → IsErr result × (self.new ≡ self.old) }
        ensures works { OnOk result (D.failed self.new.disk ≡ false) }
        // where it is refused, the disk has failed, or nothing was done
        ensures refused { OnErr result ((D.failed self.new.disk ≡ true) ⊎ (self.new ≡ self.old)) }
    {
        if self.disk.has_failed() {
            return Err(DiskError::Failed);
        }
        if self.pending.is_empty() {
            return Ok(());
        }
        let Some(end) = self.end.checked_add(self.pending.len()) else {
            return Err(DiskError::Memory);
        };
        put(&mut self.disk, &self.pending)?;
        self.end = end;
        self.pending.clear();
        Ok(())
    }
}
