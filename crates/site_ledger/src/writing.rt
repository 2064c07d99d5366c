//! Writes the texts of records.
ghost use Rattle.std.specs.Prelude.{◌≡◌, ◌⊎◌, ◌<◌, ◌^◌, length, None, Err, IfOk, IfErr};
ghost use Rattle.logical_time.specs.declared.fault.Fault.TheVariants.{Memory, Oversize};
ghost use Rattle.wire.specs.Requests as requests;
ghost use Rattle.parcels.specs.Spelling as parcels;
ghost use Rattle.site_ledger.specs.Entries.{IsTextOf};
ghost use Rattle.site_ledger.specs.declared.entry.Entry.TheVariants.{Whose, Asked, Came, Turned, Collected, Met};

use bytes::BufMut;
use logical_time::{Fault, Time};
use messages::{Envelope, Op};
use parcels::write_parcel;
use std::alloc::Global;
use wire::encode_op;

/// The text of a log's first record. Refused with `Memory` alone.
pub fn whose_text(
    alloc: Global,
    dc: u16,
    incarnation: &[u8; 16],
    digest: &[u8; 32],
) -> Result<Vec<u8>, Fault>
    ensures ok { IfOk result (λ text. IsTextOf (Whose dc incarnation.now digest.now) text.items) }
    ensures fits { IfOk result (λ text. length text.items < 256 ^ 4) }
    ensures only { IfErr result (λ e. e ≡ Memory) }
{
    let mut text = Vec::new(alloc);
    text.put_u8(3)?;
    text.put_u16(dc)?;
    text.put_slice(incarnation)?;
    text.put_slice(digest)?;
    Ok(text)
}

/// The text of a request to the session with this node. Refused with `Oversize` where the request has no frame, and with
/// `Memory`. Linear in the frame.
pub fn asked_text(alloc: Global, session: u16, op: &Op) -> Result<Vec<u8>, Fault>
    ensures ok { IfOk result (λ text. IsTextOf (Asked session op.now) text.items) }
    ensures fits { IfOk result (λ text. length text.items < 256 ^ 4) }
    ensures oversize { result ≡ Err Oversize → requests.spelling op.now ≡ None }
    ensures only { IfErr result (λ e. (e ≡ Oversize) ⊎ (e ≡ Memory)) }
{
    let frame = encode_op(alloc, op)?;
    let mut text = Vec::new(alloc);
    text.put_u8(4)?;
    text.put_u16(session)?;
    text.put_slice(frame.as_slice())?;
    Ok(text)
}

/// The text of an envelope that came from the site of this data centre. Refused with `Oversize` where the envelope has no
/// spelling, and with `Memory`. Linear in the parcel.
pub fn came_text(alloc: Global, from: u16, envelope: &Envelope) -> Result<Vec<u8>, Fault>
    ensures ok { IfOk result (λ text. IsTextOf (Came from envelope.now) text.items) }
    ensures fits { IfOk result (λ text. length text.items < 256 ^ 4) }
    ensures oversize { result ≡ Err Oversize → parcels.spelling envelope.now ≡ None }
    ensures only { IfErr result (λ e. (e ≡ Oversize) ⊎ (e ≡ Memory)) }
{
    let parcel = write_parcel(alloc, envelope)?;
    let mut text = Vec::new(alloc);
    text.put_u8(5)?;
    text.put_u16(from)?;
    text.put_slice(parcel.as_slice())?;
    Ok(text)
}

/// The text of so many turns. Refused with `Memory` alone.
pub fn turned_text(alloc: Global, count: u32) -> Result<Vec<u8>, Fault>
    ensures ok { IfOk result (λ text. IsTextOf (Turned count) text.items) }
    ensures fits { IfOk result (λ text. length text.items < 256 ^ 4) }
    ensures only { IfErr result (λ e. e ≡ Memory) }
{
    let mut text = Vec::new(alloc);
    text.put_u8(6)?;
    text.put_u32(count)?;
    Ok(text)
}

/// The text of a collection of the shard with this node up to a time. Refused with `Memory` alone.
pub fn collected_text(alloc: Global, shard: u16, time: Time) -> Result<Vec<u8>, Fault>
    ensures ok { IfOk result (λ text. IsTextOf (Collected shard time) text.items) }
    ensures fits { IfOk result (λ text. length text.items < 256 ^ 4) }
    ensures only { IfErr result (λ e. e ≡ Memory) }
{
    let mut text = Vec::new(alloc);
    text.put_u8(7)?;
    text.put_u16(shard)?;
    text.put_u64(time.get())?;
    Ok(text)
}

/// The text of a meeting with the site of this data centre, which is the process of this incarnation. Refused with `Memory`
/// alone.
pub fn met_text(alloc: Global, dc: u16, incarnation: &[u8; 16]) -> Result<Vec<u8>, Fault>
    ensures ok { IfOk result (λ text. IsTextOf (Met dc incarnation.now) text.items) }
    ensures fits { IfOk result (λ text. length text.items < 256 ^ 4) }
    ensures only { IfErr result (λ e. e ≡ Memory) }
{
    let mut text = Vec::new(alloc);
    text.put_u8(8)?;
    text.put_u16(dc)?;
    text.put_slice(incarnation)?;
    Ok(text)
}
