//! The collection of one chain.
ghost use Rattle.std.specs.Prelude.{◌≡◌, ◌+◌, ◌≤◌, ℕ, Contains, length, slice_get, ◌↔◌};
ghost use Rattle.versions.specs.Chain.{at_of, kept_from};
ghost use Rattle.versions.specs.declared.version.Version.{Version};
ghost use Rattle.version_gc.specs.Collection.{IsNewestFrom};

use logical_time::Time;
use versions::Chain;

/// Drops the versions that are the newest of the chain at no time from this one on. So the newest stays, and so does
/// every answer at this time or later. Linear in the versions that are held, and takes no memory.
#[tactic(auto, using(crate::proofs::Collected::at_kept, crate::proofs::Collected::first_kept))]
pub fn collect(chain: &mut Chain, time: Time)
    ensures exact { (v : Version) → Contains chain.new.versions v ↔ IsNewestFrom time chain.old.versions v }
    ensures newest { slice_get chain.new.versions 0 ≡ slice_get chain.old.versions 0 }
    ensures seen { (t : ℕ) → time ≤ t → at_of chain.new.versions t ≡ at_of chain.old.versions t }
    ensures kept { chain.new.versions ≡ kept_from time chain.old.versions }
    ensures room { chain.new.room + length chain.new.versions ≡ chain.old.room + length chain.old.versions }
{
    chain.keep_from(time);
}
