//! Reads the texts of records.
ghost use Rattle.std.specs.Prelude.{◌≡◌, ◌∷◌, option_map, Ok, None, Some, IfOk, IfErr, IfSome, IfNone, if◌then◌else◌};
ghost use Rattle.logical_time.specs.declared.fault.Fault.TheVariants.{Memory};
ghost use Rattle.messages.specs.declared.envelope.Envelope.{Envelope};
ghost use Rattle.parcels.specs.Spelling.{spelling};
ghost use Rattle.parcels.specs.Reading.{parcel_at};
ghost use Rattle.site_ledger.specs.Entries.{IsTextOf, IsNumbered, IsRead};
ghost use Rattle.site_ledger.specs.declared.entry.Entry as entry;
ghost use Rattle.site_ledger.specs.declared.entry.Entry.TheVariants.{Asked, Came};

use crate::entry::Entry;
use ledger::read_request;
use logical_time::{Fault, Time};
use messages::{Envelope, Op};
use parcels::{read_parcel, write_parcel};
use std::alloc::Global;

// Up to so many bytes whatever is read was spelled so.
const SHORT: usize = 16_777_216;

// Whether an envelope that was read from a parcel is spelled by it.
fn is_spelled_by(alloc: Global, parcel: &[u8], envelope: &Envelope) -> Result<bool, Fault>
    requires { parcel_at parcel.now ≡ Ok envelope.now }
    ensures spelled { IfOk result (λ yes. spelling envelope.now ≡ (if yes then Some parcel.now else None)) }
    ensures only { IfErr result (λ e. e ≡ Memory) }
{
    if parcel.len() <= SHORT {
        return Ok(true);
    }
    let Err(fault) = write_parcel(alloc, envelope) else {
        return Ok(true);
    };
    if fault == Fault::Memory {
        return Err(fault);
    }
    Ok(false)
}

// The envelope whose parcel this is, if it is that of one.
fn read_envelope(alloc: Global, parcel: &[u8]) -> Result<Option<Envelope>, Fault>
    ensures some { IfOk result (λ r. IfSome r (λ e. spelling e ≡ Some parcel.now)) }
    ensures none { IfOk result (λ r. IfNone r ((e : Envelope) → spelling e ≡ Some parcel.now → ⊥)) }
    ensures only { IfErr result (λ e. e ≡ Memory) }
{
    match read_parcel(alloc, parcel) {
        Ok(envelope) => {
            if is_spelled_by(alloc, parcel, &envelope)? {
                Ok(Some(envelope))
            } else {
                Ok(None)
            }
        }
        Err(fault) => {
            if fault == Fault::Memory {
                return Err(fault);
            }
            Ok(None)
        }
    }
}

// The first entry of a log, by what stands behind its kind.
fn whose(fields: &[u8]) -> Option<Entry>
    ensures { IsRead (3 ∷ fields.now) result }
{
    let (dc, rest) = fields.split_first_chunk::<2>()?;
    let (incarnation, rest) = rest.split_first_chunk::<16>()?;
    let Ok(digest) = <[u8; 32]>::try_from(rest) else {
        return None;
    };
    Some(Entry::Whose {
        dc: u16::from_be_bytes(*dc),
        incarnation: *incarnation,
        digest,
    })
}

// The entry of a request.
fn requested(session: u16, op: Option<Op>) -> Option<Entry>
    ensures { result ≡ option_map (λ o. Asked session o) op }
{
    match op {
        None => None,
        Some(op) => Some(Entry::Asked { session, op }),
    }
}

// The entry of a request, by what stands behind its kind.
fn asked(alloc: Global, fields: &[u8]) -> Result<Option<Entry>, Fault>
    ensures read { IfOk result (IsRead (4 ∷ fields.now)) }
    ensures only { IfErr result (λ e. e ≡ Memory) }
{
    let Some((session, frame)) = fields.split_first_chunk::<2>() else {
        return Ok(None);
    };
    let op = read_request(alloc, frame)?;
    Ok(requested(u16::from_be_bytes(*session), op))
}

// The entry of an envelope.
fn received(from: u16, envelope: Option<Envelope>) -> Option<Entry>
    ensures { result ≡ option_map (λ e. Came from e) envelope }
{
    match envelope {
        None => None,
        Some(envelope) => Some(Entry::Came { from, envelope }),
    }
}

// The entry of an envelope, by what stands behind its kind.
fn came(alloc: Global, fields: &[u8]) -> Result<Option<Entry>, Fault>
    ensures read { IfOk result (IsRead (5 ∷ fields.now)) }
    ensures only { IfErr result (λ e. e ≡ Memory) }
{
    let Some((from, parcel)) = fields.split_first_chunk::<2>() else {
        return Ok(None);
    };
    let envelope = read_envelope(alloc, parcel)?;
    Ok(received(u16::from_be_bytes(*from), envelope))
}

// The entry of turns, by what stands behind its kind.
fn turned(fields: &[u8]) -> Option<Entry>
    ensures { IsRead (6 ∷ fields.now) result }
{
    let Ok(count) = <[u8; 4]>::try_from(fields) else {
        return None;
    };
    Some(Entry::Turned {
        count: u32::from_be_bytes(count),
    })
}

// The entry of a collection, by what stands behind its kind.
fn collected(fields: &[u8]) -> Option<Entry>
    ensures { IsRead (7 ∷ fields.now) result }
{
    let (shard, time) = fields.split_first_chunk::<2>()?;
    let Ok(time) = <[u8; 8]>::try_from(time) else {
        return None;
    };
    let time = Time::new(u64::from_be_bytes(time))?;
    Some(Entry::Collected {
        shard: u16::from_be_bytes(*shard),
        time,
    })
}

// The entry of a meeting, by what stands behind its kind.
fn met(fields: &[u8]) -> Option<Entry>
    ensures { IsRead (8 ∷ fields.now) result }
{
    let (dc, rest) = fields.split_first_chunk::<2>()?;
    let Ok(incarnation) = <[u8; 16]>::try_from(rest) else {
        return None;
    };
    Some(Entry::Met {
        dc: u16::from_be_bytes(*dc),
        incarnation,
    })
}

/// What the record of this text says; none where it is the text of no entry. Refused with `Memory` alone. Linear in the
/// text.
pub fn read_entry(alloc: Global, text: &[u8]) -> Result<Option<Entry>, Fault>
    ensures some { IfOk result (λ r. IfSome r (λ e. IsTextOf e text.now)) }
    ensures numbered { IfOk result (λ r. IfSome r (λ e. IsNumbered e)) }
    ensures none { IfOk result (λ r. IfNone r ((e : entry.Entry) → IsTextOf e text.now → ⊥)) }
    ensures only { IfErr result (λ e. e ≡ Memory) }
{
    match text {
        [3, fields @ ..] => Ok(whose(fields)),
        [4, fields @ ..] => asked(alloc, fields),
        [5, fields @ ..] => came(alloc, fields),
        [6, fields @ ..] => Ok(turned(fields)),
        [7, fields @ ..] => Ok(collected(fields)),
        [8, fields @ ..] => Ok(met(fields)),
        _ => Ok(None),
    }
}
