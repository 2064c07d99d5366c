//! Reads records.
ghost use Rattle.std.specs.Prelude.{◌≡◌, ◌≤◌, ℕ, length, take, drop, option_map, IfOk};
ghost use Rattle.records.specs.Records.{unsealed, front_at, is_first, AllFit, recovered, spelled, views, has_first as holds_first};

use crate::record::Record;
use crate::writing::{HEAD, SEAL, stamp, sum};
use byteorder::{BigEndian, ByteOrder};
use std::alloc::{AllocError, Global};

// The record whose sealed text stands first in bytes, if one does: whether it is a first one, and its text.
#[tactic(auto, unfolding(crate::specs::Records::unsealed, crate::specs::Records::tested))]
fn unseal(secret: u64, place: u64, bytes: &[u8]) -> Option<(bool, &[u8])>
    ensures { option_map (λ f. record { first = f.0; body = f.1.now }) result ≡ unsealed secret place bytes.now }
{
    if bytes.len() < SEAL {
        return None;
    }
    let length = BigEndian::read_u32(&bytes[9..]) as usize;
    if bytes.len() < SEAL + length {
        return None;
    }
    let mark = bytes[8];
    let body = &bytes[SEAL..SEAL + length];
    if &bytes[..8] == sum(secret, place, mark, body).as_slice() && mark <= 1 {
        return Some((mark == 1, body));
    }
    None
}

/// The record that stands first in bytes of a file from this place on, if one does: whether it is a first one, and its
/// text. The text is summed only where the stamp is right.
#[tactic(auto, unfolding(crate::specs::Records::front_at))]
pub fn front(secret: u64, place: u64, bytes: &[u8]) -> Option<(bool, &[u8])>
    ensures { option_map (λ f. record { first = f.0; body = f.1.now }) result ≡ front_at secret place bytes.now }
{
    if bytes.len() < HEAD {
        return None;
    }
    let first = bytes[16] == 1;
    if &bytes[..8] == stamp(secret, place, first).as_slice() {
        return unseal(secret, place, &bytes[8..]);
    }
    None
}

// The record that stands at a place of a file, if one does.
fn front_from(secret: u64, at: usize, bytes: &[u8]) -> Option<(bool, &[u8])>
    requires { at ≤ length bytes.now }
    ensures { option_map (λ f. record { first = f.0; body = f.1.now }) result ≡ front_at secret at (drop at bytes.now) }
{
    front(secret, at as u64, &bytes[at..])
}

// Whether a first record begins at a place of a file.
#[tactic(auto, unfolding(crate::specs::Records::is_first))]
fn is_first_from(secret: u64, at: usize, bytes: &[u8]) -> bool
    requires { at ≤ length bytes.now }
    ensures { result ≡ is_first secret at (drop at bytes.now) }
{
    let rest = &bytes[at..];
    if rest.len() < 8 {
        return false;
    }
    &rest[..8] == stamp(secret, at as u64, true).as_slice()
}

/// The records that stand one after the other from the beginning of a file, and where they end.
pub fn read_records(
    alloc: Global,
    secret: u64,
    bytes: &[u8],
) -> Result<(Vec<Record>, usize), AllocError>
    ensures records { IfOk result (λ r. views r.0.items ≡ recovered secret 0 0 bytes.now) }
    ensures end { IfOk result (λ r. r.1 ≡ length (spelled secret 0 (views r.0.items))) }
    ensures within { IfOk result (λ r. r.1 ≤ length bytes.now) }
    // up to there the file is those records, and nothing else
    ensures spelled { IfOk result (λ r. take r.1 bytes.now ≡ spelled secret 0 (recovered secret 0 0 bytes.now)) }
    ensures fit { IfOk result (λ r. AllFit (recovered secret 0 0 bytes.now)) }
    // cut anywhere behind them it stands for the same
    ensures cut { IfOk result (λ r. (k : ℕ) → r.1 ≤ k → recovered secret 0 0 (take k bytes.now) ≡ recovered secret 0 0 bytes.now) }
{
    let mut records = Vec::new(alloc);
    let mut at = 0;
    while at <= bytes.len() {
        match front_from(secret, at, bytes) {
            None => return Ok((records, at)),
            Some((first, body)) => {
                let body = body.to_vec(alloc)?;
                at += HEAD + body.len();
                records.push(Record { first, body })?;
            }
        }
    }
    unreachable!()
}

/// Whether a first record begins anywhere in a file from this place on, by its stamp: each place costs a sum of no
/// text.
pub fn has_first(secret: u64, from: usize, bytes: &[u8]) -> bool
    ensures { result ≡ holds_first secret from (drop from bytes.now) }
{
    for at in from..bytes.len() {
        if is_first_from(secret, at, bytes) {
            return true;
        }
    }
    false
}
