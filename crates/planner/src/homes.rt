//! The shards of the items of a list, each at its item's place.
ghost use Rattle.std.specs.Prelude.{◌≡◌, ◌==◌, count_by};
ghost use Rattle.std.specs.List.{list_any};

use logical_time::Shard;

/// Whether an item is the shard's.
pub(crate) fn is_home(homes: &[Shard], shard: Shard) -> bool
    ensures { result ≡ list_any (λ h. h == shard) homes.now }
{
    homes.iter().any(|home| *home == shard)
}

/// How many items are the shard's.
pub(crate) fn count_of(homes: &[Shard], shard: Shard) -> usize
    ensures { result ≡ count_by (λ h. h == shard) homes.now }
{
    let mut count = 0;
    for home in homes {
        if *home == shard {
            count += 1;
        }
    }
    count
}
