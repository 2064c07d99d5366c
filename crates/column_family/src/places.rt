//! Places in the normal form of a batch, and what is kept at them.
ghost use Rattle.std.specs.Prelude.{◌≡◌, ◌<◌, not, filter, true, false, is_some, IfSome, IfNone, IfOk, OnOk};
ghost use Rattle.std.specs.Ordering.{is_gt, is_lt, is_eq};
ghost use Rattle.std.specs.Map.{remove_entry};
ghost use Rattle.std.specs.BTreeMap.{get, btree_map_len};
ghost use Rattle.column_family.specs.Places as spec;

use crate::batch::Change;
use crate::byte_strings::Name;
use std::alloc::AllocError;
use std::collections::BTreeMap;
use std::ops::Bound;

/// The part of its row that a change concerns, in the order of the normal form.
#[derive(Drop, Clone, PartialEq, Eq, PartialOrd, Ord)]
pub(crate) enum RowPart {
    /// All of the row.
    Whole,
    /// A range of columns, by where its deletion stands in the batch.
    Range(usize),
    /// A column.
    Column(Name),
    /// No change, and behind each.
    End,
}

/// Where a change stands in the normal form.
#[derive(Drop, Clone, PartialEq, Eq, PartialOrd, Ord)]
pub(crate) struct Place {
    /// Where the first change of its row stands in the batch.
    pub(crate) row: usize,
    /// The part of the row.
    pub(crate) part: RowPart,
}

/// The first place at which something is kept of those from the low one to the high one.
fn first_between<'k>(
    kept: &'k BTreeMap<Place, Change>,
    low: &Place,
    high: &Place,
) -> Option<&'k Place>
    requires { is_gt (spec.place_cmp low.now high.now) ≡ false }
    ensures none { IfNone result (kept.now.entries ≡ filter (λ e. not (spec.is_among low.now high.now e.0)) kept.now.entries) }
    ensures some { IfSome result (λ p. spec.is_among low.now high.now p.now ≡ true) }
    ensures held { IfSome result (λ p. is_some (get spec.place_cmp kept.now p.now) ≡ true) }
{
    match kept
        .range((Bound::Included(low), Bound::Included(high)))
        .next()
    {
        Some((place, _)) => Some(place),
        None => None,
    }
}

/// A copy of the place.
fn copy_of(place: &Place) -> Result<Place, AllocError>
    ensures { IfOk result (λ copy. copy ≡ place.now) }
{
    place.clone()
}

/// Whether the first place stands before the second.
fn is_before(a: &Place, b: &Place) -> bool
    ensures { result ≡ is_lt (spec.place_cmp a.now b.now) }
{
    a.cmp(b).is_lt()
}

/// Removes what is kept at a place.
fn remove_at(kept: &mut BTreeMap<Place, Change>, place: &Place)
    ensures entries { kept.new.entries ≡ remove_entry (λ p. is_eq (spec.place_cmp place.now p)) kept.old.entries }
    ensures len { is_some (get spec.place_cmp kept.old place.now) ≡ true → btree_map_len kept.new < btree_map_len kept.old }
{
    drop(kept.remove(place));
}

/// Removes what is kept from the low place to the high one.
pub(crate) fn remove_between(
    kept: &mut BTreeMap<Place, Change>,
    low: &Place,
    high: &Place,
) -> Result<(), AllocError>
    ensures { OnOk result (kept.new.entries ≡ filter (λ e. not (spec.is_among low.now high.now e.0)) kept.old.entries) }
{
    if is_before(high, low) {
        return Ok(());
    }
    while let Some(place) = first_between(kept, low, high) {
        let place = copy_of(place)?;
        remove_at(kept, &place);
    }
    Ok(())
}
