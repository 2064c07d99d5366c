//! The cohorts of a transaction.
ghost use Rattle.std.specs.Prelude.{◌≡◌, ◌++◌, [], ◌∷◌, ◌<◌, ◌==◌, nat_eq, length, All};
ghost use Rattle.std.specs.Iterator.{YieldsFirst, item_count};
ghost use Rattle.std.specs.Cmp.Lexicographic.{pointwise, nat_list_eq_equiv};
ghost use Rattle.std.specs.Cmp.{partial_equiv_from_equiv};
ghost use Rattle.messages.specs.CohortBits.{shards_in, bits_of};

use logical_time::Shard;
use std::marker::Model;

/// The cohorts of a transaction: the shards, beside its coordinator, of which it writes rows, ascending. The same in all
/// data centres. They take one byte.
#[derive(Clone, Copy)]
pub struct Cohorts(u8);

impl Model for Cohorts {
    ghost use Rattle.std.specs.Prelude.{List, ℕ, ◌<◌};
    ghost use Rattle.std.proofs.Common.{ap};
    ghost use Rattle.messages.specs.CohortBits.{shards_in, bits_of};
    ghost use Rattle.messages.specs.CohortLaws.{bits_back};

    ghost Value = { List ℕ };

    ghost view = { λ c. shards_in c.0 };

    ghost invariant = { λ c. c.0 < 256 };

    ghost inverse = { λ shards. record { 0 = bits_of shards } };

    ghost inverse_ok = { λ a h. ap (λ n. record { 0 = n }) (bits_back a.0 h) };
}

impl Cohorts {
    /// No cohort.
    #[tactic(auto, unfolding(crate::specs::CohortBits::shards_in))]
    pub fn none() -> Cohorts
        ensures { result ≡ [] }
    {
        Cohorts(0)
    }

    /// These cohorts and a shard that comes after all of them.
    pub fn with(self, shard: Shard) -> Cohorts
        requires { All (λ s. s < shard) self }
        ensures { result ≡ self ++ shard ∷ [] }
    {
        Cohorts(self.0 | 1 << shard.get())
    }

    /// Whether there is none.
    pub fn is_empty(self) -> bool
        ensures { result ≡ (length self == 0) }
    {
        self.0 == 0
    }

    /// The byte in which they are told: bit `s` is set for the shard `s`.
    #[tactic(auto, using(crate::specs::CohortLaws::bits_back))]
    pub fn bits(self) -> u8
        ensures value { result ≡ bits_of self }
        ensures back { shards_in result ≡ self }
    {
        let Cohorts(bits) = self;
        bits
    }

    /// The shards whose bits are set in a byte. Each byte tells one set of cohorts, and each set has one byte.
    pub fn from_bits(byte: u8) -> Cohorts
        ensures { result ≡ shards_in byte }
    {
        Cohorts(byte)
    }

    /// The shards, ascending.
    pub fn shards(self) -> CohortShards
        ensures { result ≡ self }
    {
        CohortShards { left: self.0 }
    }
}

impl PartialEq for Cohorts {
    ghost eq = { pointwise nat_eq };

    ghost laws = { partial_equiv_from_equiv nat_list_eq_equiv };

    fn eq(&self, other: &Cohorts) -> bool {
        self.0 == other.0
    }
}

/// The cohorts that are still to come, ascending.
#[derive(Drop)]
pub struct CohortShards {
    left: u8,
}

impl Model for CohortShards {
    ghost use Rattle.std.specs.Prelude.{List, ℕ, ◌<◌};
    ghost use Rattle.messages.specs.CohortBits.{shards_in};

    ghost Value = { List ℕ };

    ghost view = { λ c. shards_in c.left };

    ghost invariant = { λ c. c.left < 256 };
}

impl Iterator for CohortShards {
    type Item = Shard;

    ghost next_gives = { YieldsFirst (λ rest. rest) };

    ghost remaining = { item_count (λ rest. rest) };

    fn next(&mut self) -> Option<Shard> {
        let shard = Shard::new(self.left.trailing_zeros() as u16)?;
        self.left &= self.left - 1;
        Some(shard)
    }
}
