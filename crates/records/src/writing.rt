//! Writes records.
ghost use Rattle.std.specs.Prelude.{◌≡◌, ◌<◌, ◌^◌, ◌++◌, length, take, OnOk, OnErr};
ghost use Rattle.records.specs.Records.{sum_of, stamp_of, spelling};

use byteorder::{BigEndian, ByteOrder};
use std::alloc::AllocError;
use std::hash::{DefaultHasher, Hasher};

/// How many bytes a record has beside its text.
pub(crate) const HEAD: usize = 8 + SEAL;

/// How many bytes stand between its stamp and its text.
pub(crate) const SEAL: usize = 13;

/// The sum of a text.
#[tactic(auto, unfolding(crate::specs::Records::sum_of, crate::specs::Records::hash_of))]
pub(crate) fn sum(secret: u64, place: u64, mark: u8, body: &[u8]) -> [u8; 8]
    ensures { result ≡ sum_of secret place mark body.now }
{
    let mut hasher = DefaultHasher::new();
    hasher.write(&secret.to_be_bytes());
    hasher.write(&place.to_be_bytes());
    hasher.write(&[mark]);
    hasher.write(body);
    hasher.finish().to_be_bytes()
}

/// The stamp of a place.
#[tactic(auto, unfolding(crate::specs::Records::stamp_of))]
pub(crate) fn stamp(secret: u64, place: u64, first: bool) -> [u8; 8]
    ensures { result ≡ stamp_of secret place first }
{
    sum(secret, place, 2 + u8::from(first), &[])
}

// Puts the parts of a record behind others. Where memory is refused some of them may have been put.
fn put(
    out: &mut Vec<u8>,
    secret: u64,
    place: u64,
    first: bool,
    body: &[u8],
) -> Result<(), AllocError>
    requires { length body.now < 256 ^ 4 }
    ensures ok { OnOk result (out.new.items ≡ out.old.items ++ spelling secret place (record { first = first; body = body.now })) }
    ensures kept { take (length out.old.items) out.new.items ≡ out.old.items }
{
    let mark = u8::from(first);
    let mut length = [0; 4];
    BigEndian::write_u32(&mut length, body.len() as u32);
    out.extend_from_slice(&stamp(secret, place, first))?;
    out.extend_from_slice(&sum(secret, place, mark, body))?;
    out.extend_from_slice(&[mark])?;
    out.extend_from_slice(&length)?;
    out.extend_from_slice(body)?;
    Ok(())
}

/// Writes a record behind others, to stand at this place of its file. Where memory is refused nothing changes.
pub fn write_record(
    out: &mut Vec<u8>,
    secret: u64,
    place: u64,
    first: bool,
    body: &[u8],
) -> Result<(), AllocError>
    requires { length body.now < 256 ^ 4 }
    ensures ok { OnOk result (out.new.items ≡ out.old.items ++ spelling secret place (record { first = first; body = body.now })) }
    ensures err { OnErr result (out.new.items ≡ out.old.items) }
{
    let before = out.len();
    match put(out, secret, place, first, body) {
        Ok(()) => Ok(()),
        Err(error) => {
            out.truncate(before);
            Err(error)
        }
    }
}
