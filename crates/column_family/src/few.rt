//! Few bytes, in the order of two numbers.
ghost use Rattle.std.specs.Prelude.{◌≡◌, ◌≤◌, length};
ghost use Rattle.std.specs.Ordering.{nat_cmp, is_eq};
ghost use Rattle.std.specs.Cmp.Lexicographic.{slice_cmp};
ghost use Rattle.column_family.specs.Heads.{first_of, head_of, second_of};

use std::cmp::Ordering;
use std::marker::Model;

/// How many bytes are few.
pub(crate) const FEW: usize = 14;

/// Few bytes, with their count. The places behind them hold 0.
#[derive(Drop, Clone)]
pub(crate) struct Few {
    bytes: [u8; FEW],
    count: u8,
}

impl Model for Few {
    ghost use Rattle.std.specs.Prelude.{List, ℕ, ◌≤◌, take};
    ghost use Rattle.column_family.specs.Heads.{IsPadded, StartsWithBytes};

    ghost Value = { List ℕ };

    ghost view = { λ few. take few.count few.bytes };

    ghost invariant = { λ few. (few.count ≤ 14) × IsPadded few.bytes (take few.count few.bytes) × StartsWithBytes 14 (take few.count few.bytes) };
}

impl Few {
    /// These bytes.
    pub(crate) fn of(bytes: &[u8]) -> Few
        requires { length bytes.now ≤ 14 }
        ensures { result ≡ bytes.now }
    {
        let mut few = [0; FEW];
        few[..bytes.len()].copy_from_slice(bytes);
        Few {
            bytes: few,
            count: bytes.len() as u8,
        }
    }

    /// The bytes.
    pub(crate) fn as_slice(&self) -> &[u8]
        ensures { result.now ≡ self.now }
    {
        &self.bytes[..usize::from(self.count)]
    }

    /// The first eight bytes as one number.
    pub(crate) fn first(&self) -> u64
        ensures { result ≡ first_of self.now }
    {
        let b = &self.bytes;
        u64::from_be_bytes([b[0], b[1], b[2], b[3], b[4], b[5], b[6], b[7]])
    }

    /// The bytes from the eighth on as one number, and then their count.
    pub(crate) fn second(&self) -> u64
        ensures { result ≡ second_of self.now }
    {
        let b = &self.bytes;
        u64::from_be_bytes([b[7], b[8], b[9], b[10], b[11], b[12], b[13], self.count])
    }

    /// The first seven bytes as one number.
    pub(crate) fn head(&self) -> u64
        ensures { result ≡ head_of 7 self.now }
    {
        let _ = &self.bytes;
        self.first() / 256
    }

    /// Whether the bytes are the same: what comes first, and what follows and the count.
    pub(crate) fn is(&self, other: &Few) -> bool
        ensures { result ≡ is_eq (slice_cmp nat_cmp self.now other.now) }
    {
        let _ = &self.bytes;
        let _ = &other.bytes;
        self.first() == other.first() && self.second() == other.second()
    }

    /// Compares as bytes: by what comes first, and then by what follows and the count.
    pub(crate) fn cmp_few(&self, other: &Few) -> Ordering
        ensures { result ≡ slice_cmp nat_cmp self.now other.now }
    {
        let _ = &self.bytes;
        let _ = &other.bytes;
        match self.first().cmp(&other.first()) {
            Ordering::Equal => self.second().cmp(&other.second()),
            order => order,
        }
    }
}
