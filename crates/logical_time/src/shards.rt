//! The numbers of shards within a data centre.
ghost use Rattle.std.specs.Prelude.{◌≡◌, ◌%◌, ◌<◌, ◌≤◌, SomeIff};
ghost use Rattle.std.specs.List.{range_with_len};
ghost use Rattle.std.specs.Iterator.{YieldsFirst, item_count};

use std::marker::Model;

/// The number of a shard within its data centre, from 0 to 7.
#[derive(Clone, Copy, PartialEq, Eq, PartialOrd, Ord)]
pub struct Shard(u8);

impl Model for Shard {
    ghost use Rattle.std.specs.Prelude.{ℕ, ◌<◌};

    ghost Value = { ℕ };

    ghost view = { λ s. s.0 };

    ghost invariant = { λ s. s.0 < 8 };

    ghost inverse = { λ n. record { 0 = n } };
}

impl Shard {
    /// The first number that is no shard's.
    const END: u16 = 8;

    /// The first shard of each data centre.
    pub fn first() -> Shard
        ensures { result ≡ 0 }
    {
        Shard(0)
    }

    /// The shard of this number, if the number is one.
    pub fn new(number: u16) -> Option<Shard>
        ensures { SomeIff result (number < 8) number }
    {
        if number < Shard::END {
            Some(Shard(number as u8))
        } else {
            None
        }
    }

    /// The shard in the lowest 16 bits of a number.
    pub(crate) fn in_writer(number: u64) -> Shard
        requires { number % 65536 < 8 }
        ensures { result ≡ number % 65536 }
    {
        Shard((number % 65536) as u8)
    }

    /// The number of the shard.
    pub fn get(self) -> u16
        ensures value { result ≡ self }
        ensures below { result < 8 }
    {
        u16::from(self.0)
    }
}

/// How many shards a data centre has, from 1 to 8. Its shards have the numbers below that.
#[derive(Clone, Copy, PartialEq, Eq)]
pub struct Shards(u8);

impl Model for Shards {
    ghost use Rattle.std.specs.Prelude.{ℕ, ◌<◌, ◌≤◌};

    ghost Value = { ℕ };

    ghost view = { λ s. s.0 };

    ghost invariant = { λ s. (0 < s.0) × (s.0 ≤ 8) };

    ghost inverse = { λ n. record { 0 = n } };
}

impl Shards {
    /// The greatest number of shards.
    const MOST: u16 = 8;

    /// So many shards, if there can be so many.
    pub fn new(number: u16) -> Option<Shards>
        ensures { SomeIff result ((0 < number) × (number ≤ 8)) number }
    {
        if 0 < number && number <= Shards::MOST {
            Some(Shards(number as u8))
        } else {
            None
        }
    }

    /// How many.
    pub fn get(self) -> u16
        ensures value { result ≡ self }
        ensures some { 0 < result }
        ensures limit { result ≤ 8 }
    {
        u16::from(self.0)
    }

    /// The shards, ascending.
    pub fn all(self) -> AllShards
        ensures { result ≡ range_with_len 0 self }
    {
        AllShards {
            next: 0,
            end: self.0,
        }
    }

    /// The shard to which a number falls: the remainder of the number by how many shards there are.
    pub fn shard_for(self, number: u128) -> Shard
        ensures value { result ≡ number % self }
        ensures below { result < self }
    {
        Shard(remainder(number, self.0))
    }
}

// The remainder of a number by another, by a division of 64 bits where the number has no more.
fn remainder(number: u128, by: u8) -> u8
    requires { 0 < by }
    ensures { result ≡ number % by }
{
    if number <= u128::from(u64::MAX) {
        (number as u64 % u64::from(by)) as u8
    } else {
        (number % u128::from(by)) as u8
    }
}

/// The shards of a data centre that are still to come, ascending.
#[derive(Drop)]
pub struct AllShards {
    next: u8,
    end: u8,
}

impl Model for AllShards {
    ghost use Rattle.std.specs.Prelude.{ℕ, List, ◌-◌, ◌≤◌};
    ghost use Rattle.std.specs.List.{range_with_len};

    ghost Value = { List ℕ };

    ghost view = { λ s. range_with_len s.next (s.end - s.next) };

    ghost invariant = { λ s. (s.next ≤ s.end) × (s.end ≤ 8) };
}

impl Iterator for AllShards {
    type Item = Shard;

    ghost next_gives = { YieldsFirst (λ rest. rest) };

    ghost remaining = { item_count (λ rest. rest) };

    fn next(&mut self) -> Option<Shard> {
        if self.next == self.end {
            return None;
        }
        let shard = Shard(self.next);
        self.next += 1;
        Some(shard)
    }
}
