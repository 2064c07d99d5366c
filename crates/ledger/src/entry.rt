//! What a record of a log says.
ghost use Rattle.std.specs.Prelude.{◌≡◌, ◌⊎◌, ◌<◌, ◌^◌, [], true, false, length, option_map, None, Some, Err, IfOk, IfErr, IfSome, IfNone};
ghost use Rattle.logical_time.specs.declared.fault.Fault.TheVariants.{Memory, Oversize};
ghost use Rattle.messages.specs.declared.op.Op.{Op};
ghost use Rattle.wire.specs.Requests.{spelling};
ghost use Rattle.wire.specs.Frames.{text as fed, NoneFirst};
ghost use Rattle.ledger.specs.Entries.{IsTextOf, IsNumbered};
ghost use Rattle.ledger.specs.declared.entry.Entry as entry;
ghost use Rattle.ledger.specs.declared.entry.Entry.TheVariants.{Request, Rested};

use bytes::BufMut;
use logical_time::Fault;
use messages::Op;
use std::alloc::Global;
use wire::{Reader, encode_op};

/// What a record says.
#[derive(Drop)]
pub enum Entry {
    /// A session submitted a request, and it was accepted.
    Request {
        /// The session, by its place among the homes of the topology.
        session: u16,
        /// What it submitted.
        op: Op,
    },
    /// A shard collected up to its own clock, when nothing waited.
    Rested {
        /// The shard, by the number of its node.
        shard: u16,
    },
}

/// The text of a request. Refused with `Oversize` where the request has no frame, and with `Memory`. Linear in the
/// frame.
pub fn request_text(alloc: Global, session: u16, op: &Op) -> Result<Vec<u8>, Fault>
    ensures ok { IfOk result (λ text. IsTextOf (Request session op.now) text.items) }
    ensures fits { IfOk result (λ text. length text.items < 256 ^ 4) }
    ensures oversize { result ≡ Err Oversize → spelling op.now ≡ None }
    ensures only { IfErr result (λ e. (e ≡ Oversize) ⊎ (e ≡ Memory)) }
{
    let frame = encode_op(alloc, op)?;
    let mut text = Vec::new(alloc);
    text.put_u8(1)?;
    text.put_u16(session)?;
    text.put_slice(frame.as_slice())?;
    Ok(text)
}

/// The text of a collection. Refused with `Memory` alone.
pub fn rested_text(alloc: Global, shard: u16) -> Result<Vec<u8>, Fault>
    ensures ok { IfOk result (λ text. IsTextOf (Rested shard) text.items) }
    ensures fits { IfOk result (λ text. length text.items < 256 ^ 4) }
    ensures only { IfErr result (λ e. e ≡ Memory) }
{
    let mut text = Vec::new(alloc);
    text.put_u8(2)?;
    text.put_u16(shard)?;
    Ok(text)
}

// Whether nothing is left of what a reader was fed.
fn is_spent(reader: &mut Reader) -> bool
    ensures yes { result ≡ true → (reader.old.held ≡ []) × (reader.old.rest ≡ []) }
    ensures no { result ≡ false → reader.old.held ≡ [] → reader.old.rest ≡ [] → reader.old.fault ≡ None → ⊥ }
{
    reader.holds_none() && reader.finish().is_ok()
}

// The request whose frame is all that a reader was fed, if one is.
fn only_request(reader: &mut Reader) -> Option<Op>
    ensures some { IfSome result (λ op. spelling op ≡ Some (fed reader.old)) }
    ensures none { NoneFirst reader.old.rest → (reader.old.rest ≡ [] → reader.old.fault ≡ None) → IfNone result ((op : Op) → spelling op ≡ Some (fed reader.old) → ⊥) }
{
    let first = reader.next();
    if is_spent(reader) { first } else { None }
}

/// The request that has this frame, if one has. Refused with `Memory` alone. Linear in the frame.
pub fn read_request(alloc: Global, frame: &[u8]) -> Result<Option<Op>, Fault>
    ensures some { IfOk result (λ r. IfSome r (λ op. spelling op ≡ Some frame.now)) }
    ensures none { IfOk result (λ r. IfNone r ((op : Op) → spelling op ≡ Some frame.now → ⊥)) }
    ensures only { IfErr result (λ e. e ≡ Memory) }
{
    let mut reader = Reader::new(alloc);
    match reader.feed(frame) {
        Err(Fault::Memory) => Err(Fault::Memory),
        _ => Ok(only_request(&mut reader)),
    }
}

// The entry of a request.
fn requested(session: u16, op: Option<Op>) -> Option<Entry>
    ensures { result ≡ option_map (λ o. Request session o) op }
{
    match op {
        None => None,
        Some(op) => Some(Entry::Request { session, op }),
    }
}

/// What the record of this text says; none where it is the text of no entry. Refused with `Memory` alone. Linear in the
/// text.
pub fn read_entry(alloc: Global, text: &[u8]) -> Result<Option<Entry>, Fault>
    ensures some { IfOk result (λ r. IfSome r (λ e. IsTextOf e text.now)) }
    ensures numbered { IfOk result (λ r. IfSome r (λ e. IsNumbered e)) }
    ensures none { IfOk result (λ r. IfNone r ((e : entry.Entry) → IsTextOf e text.now → ⊥)) }
    ensures only { IfErr result (λ e. e ≡ Memory) }
{
    let [kind, high, low, rest @ ..] = text else {
        return Ok(None);
    };
    let number = u16::from_be_bytes([*high, *low]);
    match *kind {
        1 => Ok(requested(number, read_request(alloc, rest)?)),
        2 if rest.is_empty() => Ok(Some(Entry::Rested { shard: number })),
        _ => Ok(None),
    }
}
