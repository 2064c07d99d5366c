//! What is said over a connection.
ghost use Rattle.std.specs.Prelude.{◌≡◌, ◌≢◌, ◌⊎◌, ◌+◌, ◌-◌, ◌≤◌, ◌<◌, ◌^◌, ◌++◌, [], ◌∷◌, length, take, drop, IfOk, IfErr, OnOk};
ghost use Rattle.std.specs.Int.{w64, to_be_bytes, from_be_bytes};
ghost use Rattle.logical_time.specs.declared.fault.Fault.TheVariants.{Memory};
ghost use Rattle.linking.specs.declared.trouble.Trouble.TheVariants.{Malformed, Refused};
ghost use Rattle.linking.specs.Said.{spelling, parcel_bytes, taken_bytes, IsNothingSaid};

use crate::trouble::Trouble;
use std::alloc::{AllocError, Global};

/// What is said over a connection.
#[derive(Drop)]
pub enum Said {
    /// A parcel, with its number.
    Parcel {
        /// Its number.
        number: u64,
        /// Its bytes.
        bytes: Vec<u8>,
    },
    /// All parcels below this number were taken.
    Taken(u64),
    /// The other end is still there.
    Here,
}

/// Writes a parcel. Linear in it.
pub(crate) fn parcel(alloc: Global, number: u64, bytes: &[u8]) -> Result<Vec<u8>, AllocError>
    ensures { IfOk result (λ v. v.items ≡ parcel_bytes number bytes.now) }
{
    let mut out = Vec::new(alloc);
    out.push(4)?;
    out.extend_from_slice(&number.to_be_bytes())?;
    out.extend_from_slice(bytes)?;
    Ok(out)
}

/// Writes below which number all parcels were taken.
pub(crate) fn taken(below: u64) -> [u8; 9]
    ensures { result ≡ taken_bytes below }
{
    let mut out = [5; 9];
    out[1..9].copy_from_slice(&below.to_be_bytes());
    out
}

// The eight bytes behind the first.
fn eight(bytes: &[u8]) -> [u8; 8]
    requires { 9 ≤ length bytes.now }
    ensures { result ≡ take 8 (drop 1 bytes.now) }
{
    let mut out = [0; 8];
    out.copy_from_slice(&bytes[1..9]);
    out
}

// The number that they are.
fn number(bytes: &[u8]) -> u64
    requires { 9 ≤ length bytes.now }
    ensures { to_be_bytes w64 result ≡ take 8 (drop 1 bytes.now) }
{
    u64::from_be_bytes(eight(bytes))
}

/// What a body says. `Malformed` where it says nothing; refused with `Memory`. Linear in a parcel's bytes, which are copied.
pub(crate) fn read(alloc: Global, body: &[u8]) -> Result<Said, Trouble>
    ensures said { IfOk result (λ s. spelling s ≡ body.now) }
    ensures trouble { IfErr result (λ t. (t ≡ Refused Memory) ⊎ ((t ≡ Malformed) × IsNothingSaid body.now)) }
{
    if body.len() == 1 && body[0] == 6 {
        return Ok(Said::Here);
    }
    if body.len() < 9 {
        return Err(Trouble::Malformed);
    }
    let number = number(body);
    if body[0] == 4 {
        let bytes = body[9..].to_vec(alloc)?;
        return Ok(Said::Parcel { number, bytes });
    }
    if body[0] == 5 && body.len() == 9 {
        return Ok(Said::Taken(number));
    }
    Err(Trouble::Malformed)
}
