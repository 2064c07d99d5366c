//! A walk over the columns of a row, that ends with the one that makes its count full.
ghost use Rattle.std.specs.Prelude.{◌≡◌, ◌++◌, ◌∷◌, ◌<◌, [], IfOk, List, MatchOption, ℕ, map};
ghost use Rattle.std.specs.Option.{option_copied};
ghost use Rattle.std.specs.BTreeMap.{IsOrdered};
ghost use Rattle.versions.specs.Chain.{Held};
ghost use Rattle.slice.specs.Slice.{walked};
ghost use Rattle.store.specs.Stored.{name_cmp};
ghost use Rattle.store.specs.Sight.{named};
ghost use Rattle.store.specs.Walk.{seen_until};

use crate::boxed_chain::BoxedChain;
use crate::reading::is_live;
use crate::sight::{Moment, Seen, seen_column};
use column_family::Name;
use std::alloc::{AllocError, Global};
use std::collections::BTreeMap;
use std::collections::btree_map::Iter;
use versions::Version;

// The next column of a walk, from the start or, reversed, from the end.
#[inline]
fn next_of<'s>(
    columns: &mut Iter<'s, Name, BoxedChain>,
    reversed: bool,
) -> Option<(&'s Name, &'s BoxedChain)>
    ensures { MatchOption result (walked reversed columns.old ≡ []) (λ e. walked reversed columns.old ≡ (e.0.now, e.1.now) ∷ walked reversed columns.new) }
{
    if reversed {
        columns.next_back()
    } else {
        columns.next()
    }
}

// Adds a column to a walk, if a version of it is seen, and answers how many live ones the walk wants then.
fn walk_past<'s>(
    walk: &mut Vec<Seen<'s>>,
    wanted: usize,
    deletion: Option<&Version>,
    name: &'s Name,
    chain: &'s BoxedChain,
) -> Result<usize, AllocError>
    requires { 0 < wanted }
    ensures { IfOk result (λ more. (rest : List (List ℕ × Held)) → map named walk.new.items ++ seen_until (option_copied deletion.entry) more rest ≡ map named walk.old.items ++ seen_until (option_copied deletion.entry) wanted ((name.now, chain.now) ∷ rest)) }
{
    if let Some(one) = seen_column(name, chain.as_chain(), &Moment::Now) {
        walk.push(one)?;
        if is_live(deletion, &one) {
            return Ok(wanted - 1);
        }
    }
    Ok(wanted)
}

/// The columns of which a version is seen now, from the start or, reversed, from the end, up to the one with which
/// so many are live. Linear in these and the columns between them of which none is seen.
pub(crate) fn walk_until<'s>(
    alloc: Global,
    columns: &'s BTreeMap<Name, BoxedChain>,
    reversed: bool,
    most: usize,
    deletion: Option<&Version>,
) -> Result<Vec<Seen<'s>>, AllocError>
    ensures seen { IfOk result (λ walk. map named walk.items ≡ seen_until (option_copied deletion.entry) most (walked reversed columns.now.entries)) }
    ensures ordered { IfOk result (λ walk. IsOrdered name_cmp columns.now) }
{
    let mut walk = Vec::with_capacity(alloc, most.min(columns.len()))?;
    let mut rest = columns.iter();
    let mut wanted = most;
    while wanted > 0 {
        match next_of(&mut rest, reversed) {
            Some((name, chain)) => {
                wanted = walk_past(&mut walk, wanted, deletion, name, chain)?;
            }
            None => return Ok(walk),
        }
    }
    Ok(walk)
}
