//! Bytes of which few stand in the handle, and more are shared.
ghost use Rattle.std.specs.Prelude.{◌≡◌, ◌<◌, nat_eq, refl, Some, IfOk, length};
ghost use Rattle.std.specs.Ordering.{nat_cmp};
ghost use Rattle.std.specs.Cmp.Lexicographic.{pointwise, slice_cmp, nat_list_eq_equiv, nat_list_cmp_total, texts_ties, texts_po};
ghost use Rattle.std.specs.Cmp.{partial_equiv_from_equiv};
ghost use Rattle.column_family.specs.Heads.{head_of};
ghost use Rattle.column_family.specs.Texts.{bytes_of, IsText};

use crate::few::{FEW, Few};
use std::alloc::{AllocError, Global};
use std::cmp::Ordering;
use std::marker::Model;
use std::sync::Arc;

/// Bytes in one of two places.
#[derive(Drop)]
pub(crate) enum Text {
    /// Few stand in the handle.
    Few(Few),
    /// Of more the first seven stand there, as one number in three parts, and all are shared.
    Many {
        /// The first byte.
        high: u8,
        /// The two bytes behind it.
        middle: u16,
        /// The four bytes behind these.
        low: u32,
        /// All bytes.
        bytes: Arc<Vec<u8>>,
    },
}

// Compares byte by byte, since most differ soon: slices are compared by groups of bytes, which costs more.
fn cmp_bytes(bytes: &[u8], others: &[u8]) -> Ordering
    ensures { result ≡ slice_cmp nat_cmp bytes.now others.now }
{
    bytes.iter().cmp(others.iter())
}

/// Bytes, compared as bytes: few with no look elsewhere in memory, and of more those of which the first differ. A copy takes no
/// memory.
#[derive(Drop)]
pub(crate) struct SharedBytes {
    text: Text,
}

impl Model for SharedBytes {
    ghost use Rattle.std.specs.Prelude.{List, ℕ};
    ghost use Rattle.column_family.specs.Texts.{bytes_of, IsText};

    ghost Value = { List ℕ };

    ghost view = { λ bytes. bytes_of bytes.text };

    ghost invariant = { λ bytes. IsText bytes.text };
}

// A long text of these bytes, all of which the shared ones hold.
fn many(bytes: &[u8], shared: Arc<Vec<u8>>) -> Text
    requires long { 14 < length bytes.now }
    requires all { shared.value.items ≡ bytes.now }
    ensures same { bytes_of result ≡ bytes.now }
    ensures text { IsText result }
{
    let middle = u16::from_be_bytes([bytes[1], bytes[2]]);
    let low = u32::from_be_bytes([bytes[3], bytes[4], bytes[5], bytes[6]]);
    Text::Many {
        high: bytes[0],
        middle,
        low,
        bytes: shared,
    }
}

impl SharedBytes {
    /// A copy of these bytes. Fails by memory alone.
    #[inline(always)]
    pub(crate) fn from_slice(alloc: Global, bytes: &[u8]) -> Result<SharedBytes, AllocError>
        ensures { IfOk result (λ copy. copy ≡ bytes.now) }
    {
        let text = if bytes.len() <= FEW {
            Text::Few(Few::of(bytes))
        } else {
            let mut all = Vec::with_capacity(alloc, bytes.len())?;
            all.extend_from_slice(bytes)?;
            many(bytes, Arc::new(alloc, all)?)
        };
        Ok(SharedBytes { text })
    }

    /// The bytes.
    #[inline]
    pub(crate) fn as_slice(&self) -> &[u8]
        ensures { result.now ≡ self.now }
    {
        match &self.text {
            Text::Few(few) => few.as_slice(),
            Text::Many { bytes, .. } => bytes.as_slice(),
        }
    }

    // The first seven bytes as one number.
    #[inline]
    fn head(&self) -> u64
        ensures { result ≡ head_of 7 self.now }
    {
        match &self.text {
            Text::Few(few) => few.head(),
            Text::Many {
                high,
                middle,
                low,
                ..
            } => { u64::from(*high) * (1 << 48) + u64::from(*middle) * (1 << 32) + u64::from(*low) }
        }
    }

    // Compares as bytes, of which the first decide mostly.
    fn cmp_many(&self, other: &SharedBytes) -> Ordering
        ensures { result ≡ slice_cmp nat_cmp self.now other.now }
    {
        let _ = &self.text;
        let _ = &other.text;
        match self.head().cmp(&other.head()) {
            Ordering::Equal => cmp_bytes(self.as_slice(), other.as_slice()),
            order => order,
        }
    }
}

impl Clone for SharedBytes {
    ghost is_clone = { λ bytes copy. copy ≡ bytes };

    #[inline]
    fn clone(&self) -> Result<SharedBytes, AllocError> {
        let text = match &self.text {
            Text::Few(few) => Text::Few(few.clone()?),
            Text::Many {
                high,
                middle,
                low,
                bytes,
            } => Text::Many {
                high: *high,
                middle: *middle,
                low: *low,
                bytes: bytes.clone()?,
            },
        };
        Ok(SharedBytes { text })
    }
}

impl PartialEq for SharedBytes {
    ghost eq = { pointwise nat_eq };

    ghost laws = { partial_equiv_from_equiv nat_list_eq_equiv };

    #[inline(always)]
    fn eq(&self, other: &SharedBytes) -> bool {
        match (&self.text, &other.text) {
            (Text::Few(few), Text::Few(others)) => few.is(others),
            _ => self.cmp(other).is_eq(),
        }
    }
}

impl Eq for SharedBytes {
    ghost laws = { nat_list_eq_equiv };
}

impl PartialOrd for SharedBytes {
    ghost partial_cmp = { λ x y. Some (slice_cmp nat_cmp x y) };

    ghost laws = { texts_po };

    fn partial_cmp(&self, other: &SharedBytes) -> Option<Ordering> {
        Some(self.cmp(other))
    }
}

impl Ord for SharedBytes {
    ghost cmp = { slice_cmp nat_cmp };

    ghost total = { nat_list_cmp_total };

    ghost matches_partial_cmp = { λ x y. refl };

    ghost matches_eq = { texts_ties };

    #[inline(always)]
    fn cmp(&self, other: &SharedBytes) -> Ordering {
        match (&self.text, &other.text) {
            (Text::Few(few), Text::Few(others)) => few.cmp_few(others),
            _ => self.cmp_many(other),
        }
    }
}
