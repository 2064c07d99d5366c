//! Lists of what this crate reads and writes.
ghost use Rattle.std.specs.Prelude.{ℕ, List, Bool, Result};
ghost use Rattle.std.specs.List.{flat_map, list_all};
ghost use Rattle.logical_time.specs.declared.fault.Fault.{Fault};
ghost use Rattle.wire.specs.Answers.{Gives, Puts};
ghost use Rattle.wire.specs.Fields as fields;
ghost use Rattle.wire.specs.Reading.{list_at, counted_at};
ghost use Rattle.parcels.specs.Spelling.{is_listed};

use bytes::BufMut;
use logical_time::Fault;
use std::alloc::Global;
use wire::error::FrameError;
use wire::fields::count;

/// What is read from a parcel and stands in lists.
pub(crate) trait Part: Drop + Sized {
    ghost read_at: { List ℕ → Result (Self × List ℕ) Fault };

    fn read(alloc: Global, bytes: &[u8]) -> Result<(Self, &[u8]), FrameError>
        ensures { Gives (λ x. (x.0, x.1.now)) result (read_at bytes.now) };
}

// So many items. Memory is taken item by item, as they are read.
fn list<T: Part>(alloc: Global, count: u32, bytes: &[u8]) -> Result<(Vec<T>, &[u8]), FrameError>
    ensures { Gives (λ x. (x.0.items, x.1.now)) result (list_at T.read_at count bytes.now) }
{
    let mut items = Vec::new(alloc);
    let mut rest = bytes;
    for _ in 0..count {
        let (item, after) = T::read(alloc, rest)?;
        items.push(item)?;
        rest = after;
    }
    Ok((items, rest))
}

/// A list behind the number of its items.
#[tactic(auto, unfolding(wire::specs::Reading::counted_at))]
pub(crate) fn all<T: Part>(alloc: Global, bytes: &[u8]) -> Result<(Vec<T>, &[u8]), FrameError>
    ensures { Gives (λ x. (x.0.items, x.1.now)) result (counted_at T.read_at bytes.now) }
{
    let (count, rest) = count(bytes)?;
    list(alloc, count, rest)
}

/// What is written and stands in lists.
pub(crate) trait Piece: Sized {
    ghost bytes: { Self → List ℕ };

    ghost fits: { Self → Bool };

    fn put(&self, out: &mut Vec<u8>) -> Result<(), FrameError>
        ensures { Puts (fits self.now) (bytes self.now) result out.old.items out.new.items };
}

// Items, one after the other.
fn put_items<T: Piece>(out: &mut Vec<u8>, items: &[T]) -> Result<(), FrameError>
    ensures { Puts (list_all T.fits items.now) (flat_map T.bytes items.now) result out.old.items out.new.items }
{
    for item in items {
        item.put(out)?;
    }
    Ok(())
}

/// A list behind the number of its items.
pub(crate) fn put_all<T: Piece>(out: &mut Vec<u8>, items: &[T]) -> Result<(), FrameError>
    ensures { Puts (is_listed T.fits items.now) (fields.counted T.bytes items.now) result out.old.items out.new.items }
{
    if items.len() >= 4_294_967_296 {
        return Err(FrameError::Frame(Fault::Oversize));
    }
    out.put_u32(items.len() as u32)?;
    put_items(out, items)
}
