//! Requests and replies, written as frames.
ghost use Rattle.std.specs.Prelude.{◌≡◌, ◌≤◌, ◌&&◌, ◌∷◌, [], ℕ, List, Bool, length, drop, nat_lt, nat_le, true, false, None, Some, Ok, Err, IfOk, IfErr, ◌⊎◌};
ghost use Rattle.std.specs.List.{flat_map, list_all};
ghost use Rattle.logical_time.specs.declared.fault.Fault.TheVariants.{Memory, Oversize};
ghost use Rattle.wire.specs.Answers.{Puts, Closes, Encodes};
ghost use Rattle.wire.specs.Fields as fields;
ghost use Rattle.wire.specs.Requests as requests;
ghost use Rattle.wire.specs.Replies as replies;

use crate::error::FrameError;
use crate::front::LONGEST;
use byteorder::{BigEndian, ByteOrder};
use bytes::BufMut;
use column_family::{Change, Key, Mutation, Name};
use logical_time::{Fault, Stamp, Time};
use messages::{Op, Outcome};
use slice::{AnsweredRow, Column, Predicate, Read};
use std::alloc::Global;

/// Bytes behind their number, which takes one byte.
pub fn put_short(out: &mut Vec<u8>, bytes: &[u8]) -> Result<(), FrameError>
    ensures { Puts (fields.is_sized 1 bytes.now) (fields.sized 1 bytes.now) result out.old.items out.new.items }
{
    if bytes.len() >= 256 {
        return Err(FrameError::Frame(Fault::Oversize));
    }
    out.put_u8(bytes.len() as u8)?;
    out.put_slice(bytes)?;
    Ok(())
}

/// Bytes behind their number, which takes two bytes.
pub fn put_text(out: &mut Vec<u8>, bytes: &[u8]) -> Result<(), FrameError>
    ensures { Puts (fields.is_sized 2 bytes.now) (fields.sized 2 bytes.now) result out.old.items out.new.items }
{
    if bytes.len() >= 65_536 {
        return Err(FrameError::Frame(Fault::Oversize));
    }
    out.put_u16(bytes.len() as u16)?;
    out.put_slice(bytes)?;
    Ok(())
}

// Bytes behind their number, which takes four bytes.
fn put_blob(out: &mut Vec<u8>, bytes: &[u8]) -> Result<(), FrameError>
    ensures { Puts (fields.is_sized 4 bytes.now) (fields.sized 4 bytes.now) result out.old.items out.new.items }
{
    if bytes.len() >= 4_294_967_296 {
        return Err(FrameError::Frame(Fault::Oversize));
    }
    out.put_u32(bytes.len() as u32)?;
    out.put_slice(bytes)?;
    Ok(())
}

// The number of a data centre, which takes one byte.
fn put_home(out: &mut Vec<u8>, dc: u16) -> Result<(), FrameError>
    ensures { Puts (nat_lt dc 256) (dc ∷ []) result out.old.items out.new.items }
{
    if dc >= 256 {
        return Err(FrameError::Frame(Fault::Oversize));
    }
    Ok(out.put_u8(dc as u8)?)
}

/// What stands in lists.
pub trait Item: Sized {
    ghost bytes: { Self → List ℕ };

    ghost fits: { Self → Bool };

    fn put(&self, out: &mut Vec<u8>) -> Result<(), FrameError>
        ensures { Puts (fits self.now) (bytes self.now) result out.old.items out.new.items };
}

/// Items, one after the other. Stops as soon as no body can hold them.
pub fn put_items<T: Item>(out: &mut Vec<u8>, items: &[T]) -> Result<(), FrameError>
    ensures { Puts (list_all T.fits items.now && nat_le (length (flat_map T.bytes items.now)) fields.longest) (flat_map T.bytes items.now) result out.old.items out.new.items }
{
    let start = out.len();
    for item in items {
        item.put(out)?;
        if out.len() - start > LONGEST {
            return Err(FrameError::Frame(Fault::Oversize));
        }
    }
    Ok(())
}

/// A list behind the number of its items.
pub fn put_counted<T: Item>(out: &mut Vec<u8>, items: &[T]) -> Result<(), FrameError>
    ensures { Puts (fields.is_counted T.fits T.bytes items.now) (fields.counted T.bytes items.now) result out.old.items out.new.items }
{
    if items.len() >= 4_294_967_296 {
        return Err(FrameError::Frame(Fault::Oversize));
    }
    out.put_u32(items.len() as u32)?;
    put_items(out, items)
}

impl Item for Key {
    ghost bytes = { fields.sized 2 };

    ghost fits = { fields.is_sized 2 };

    fn put(&self, out: &mut Vec<u8>) -> Result<(), FrameError> {
        put_text(out, self.as_slice())
    }
}

impl Item for Name {
    ghost bytes = { fields.sized 2 };

    ghost fits = { fields.is_sized 2 };

    fn put(&self, out: &mut Vec<u8>) -> Result<(), FrameError> {
        put_text(out, self.as_slice())
    }
}

fn put_mutation(out: &mut Vec<u8>, mutation: &Mutation) -> Result<(), FrameError>
    ensures { Puts (requests.fits_mutation mutation.now) (requests.mutation mutation.now) result out.old.items out.new.items }
{
    match mutation {
        Mutation::Insert { name, value } => {
            out.put_u8(0)?;
            put_text(out, name.as_slice())?;
            put_blob(out, value.as_slice())
        }
        Mutation::DeleteColumn { name } => {
            out.put_u8(1)?;
            put_text(out, name.as_slice())
        }
        Mutation::DeleteRow => Ok(out.put_u8(2)?),
        Mutation::DeleteRange { start, finish } => {
            out.put_u8(3)?;
            put_text(out, start.as_slice())?;
            put_text(out, finish.as_slice())
        }
    }
}

impl Item for Change {
    ghost bytes = { requests.change };

    ghost fits = { requests.fits_change };

    fn put(&self, out: &mut Vec<u8>) -> Result<(), FrameError> {
        put_short(out, self.row.family.as_slice())?;
        put_text(out, self.row.key.as_slice())?;
        put_mutation(out, &self.mutation)
    }
}

fn put_range(
    out: &mut Vec<u8>,
    start: &Name,
    finish: &Name,
    reversed: bool,
    count: u32,
) -> Result<(), FrameError>
    ensures { Puts (requests.fits_predicate (Predicate.Range start.now finish.now reversed count)) (requests.predicate (Predicate.Range start.now finish.now reversed count)) result out.old.items out.new.items }
{
    out.put_u8(1)?;
    put_text(out, start.as_slice())?;
    put_text(out, finish.as_slice())?;
    out.put_u8(u8::from(reversed))?;
    out.put_u32(count)?;
    Ok(())
}

/// Which columns are asked for.
pub fn put_predicate(out: &mut Vec<u8>, predicate: &Predicate) -> Result<(), FrameError>
    ensures { Puts (requests.fits_predicate predicate.now) (requests.predicate predicate.now) result out.old.items out.new.items }
{
    match predicate {
        Predicate::Names(names) => {
            out.put_u8(0)?;
            put_counted(out, names.as_slice())
        }
        Predicate::Range {
            start,
            finish,
            reversed,
            count,
        } => put_range(out, start, finish, *reversed, *count),
    }
}

fn put_read(out: &mut Vec<u8>, read: &Read) -> Result<(), FrameError>
    ensures { Puts (requests.fits_request (Op.Read read.now)) (requests.request (Op.Read read.now)) result out.old.items out.new.items }
{
    out.put_u8(2)?;
    put_short(out, read.family.as_slice())?;
    put_counted(out, read.keys.as_slice())?;
    put_predicate(out, &read.predicate)
}

fn put_request(out: &mut Vec<u8>, op: &Op) -> Result<(), FrameError>
    ensures { Puts (requests.fits_request op.now) (requests.request op.now) result out.old.items out.new.items }
{
    match op {
        Op::Batch(batch) => {
            out.put_u8(1)?;
            put_counted(out, batch.get().as_slice())
        }
        Op::Read(read) => put_read(out, read.get()),
        Op::Move { dc } => {
            out.put_u8(3)?;
            put_home(out, *dc)
        }
    }
}

impl Item for Column {
    ghost bytes = { replies.column };

    ghost fits = { replies.fits_column };

    fn put(&self, out: &mut Vec<u8>) -> Result<(), FrameError> {
        put_text(out, self.name.as_slice())?;
        put_blob(out, self.value.as_slice())
    }
}

impl Item for AnsweredRow {
    ghost bytes = { replies.row };

    ghost fits = { replies.fits_row };

    fn put(&self, out: &mut Vec<u8>) -> Result<(), FrameError> {
        put_text(out, self.key.as_slice())?;
        put_counted(out, self.columns.as_slice())
    }
}

// A commit time and a stamp.
fn put_commit(out: &mut Vec<u8>, commit: Time, stamp: Stamp) -> Result<(), FrameError>
    ensures { Puts (replies.fits_commit_and_stamp commit stamp) (replies.commit_and_stamp commit stamp) result out.old.items out.new.items }
{
    let (time, node) = (stamp.time().get(), stamp.node().get());
    out.put_u64(commit.get())?;
    out.put_u64(time)?;
    Ok(out.put_u16(node)?)
}

// A new home, and the floor there.
fn put_moved(out: &mut Vec<u8>, dc: u16, floor: Time) -> Result<(), FrameError>
    ensures { Puts (replies.fits_outcome (Outcome.Moved dc floor)) (replies.outcome (Outcome.Moved dc floor)) result out.old.items out.new.items }
{
    out.put_u8(0x85)?;
    put_home(out, dc)?;
    Ok(out.put_u64(floor.get())?)
}

fn put_outcome(out: &mut Vec<u8>, outcome: &Outcome) -> Result<(), FrameError>
    ensures { Puts (replies.fits_outcome outcome.now) (replies.outcome outcome.now) result out.old.items out.new.items }
{
    match outcome {
        Outcome::Wrote { commit, stamp } => {
            out.put_u8(0x81)?;
            put_commit(out, *commit, *stamp)
        }
        Outcome::Read { effective, answer } => {
            out.put_u8(0x82)?;
            out.put_u64(effective.get())?;
            put_counted(out, answer.as_slice())
        }
        Outcome::Collected => Ok(out.put_u8(0x83)?),
        Outcome::Moved { dc, floor } => put_moved(out, *dc, *floor),
    }
}

fn put_reply(out: &mut Vec<u8>, reply: &Result<Outcome, Fault>) -> Result<(), FrameError>
    ensures { Puts (replies.fits_reply reply.now) (replies.reply reply.now) result out.old.items out.new.items }
{
    match reply {
        Ok(outcome) => put_outcome(out, outcome),
        Err(fault) => {
            out.put_u8(0x84)?;
            Ok(out.put_u16(fault.number())?)
        }
    }
}

// The frame of a body that stands behind four bytes, which are to be its length.
fn close(frame: Vec<u8>) -> Result<Vec<u8>, FrameError>
    requires { 4 ≤ length frame.items }
    ensures { Closes (drop 4 frame.items) result }
{
    let mut frame = frame;
    let length = frame.len() - 4;
    if length > LONGEST {
        return Err(FrameError::Frame(Fault::Oversize));
    }
    BigEndian::write_u32(&mut frame, length as u32);
    Ok(frame)
}

fn frame_of_op(alloc: Global, op: &Op) -> Result<Vec<u8>, FrameError>
    ensures { Encodes (requests.spelling op.now) result }
{
    let mut frame = Vec::new(alloc);
    frame.put_u32(0)?;
    put_request(&mut frame, op)?;
    close(frame)
}

fn frame_of_reply(alloc: Global, reply: &Result<Outcome, Fault>) -> Result<Vec<u8>, FrameError>
    ensures { Encodes (replies.reply_spelling reply.now) result }
{
    let mut frame = Vec::new(alloc);
    frame.put_u32(0)?;
    put_reply(&mut frame, reply)?;
    close(frame)
}

/// The frame of a request. Refused with `Oversize` where its body would be too long, a length or a count in it wouldn't
/// fit, or a move is to a data centre that one byte can't name, and with `Memory`. Linear in the frame.
pub fn encode_op(alloc: Global, op: &Op) -> Result<Vec<u8>, Fault>
    ensures ok { IfOk result (λ frame. requests.spelling op.now ≡ Some frame.items) }
    ensures oversize { result ≡ Err Oversize → requests.spelling op.now ≡ None }
    ensures only { IfErr result (λ e. (e ≡ Oversize) ⊎ (e ≡ Memory)) }
{
    frame_of_op(alloc, op).map_err(FrameError::fault)
}

/// The frame of a reply: the outcome of a request, or why it was refused. Refused with `Oversize` where its body would
/// be too long, a length or a count in it wouldn't fit, or a new home is one that one byte can't name, and with `Memory`.
/// Linear in the frame.
pub fn encode_reply(alloc: Global, reply: &Result<Outcome, Fault>) -> Result<Vec<u8>, Fault>
    ensures ok { IfOk result (λ frame. replies.reply_spelling reply.now ≡ Some frame.items) }
    ensures oversize { result ≡ Err Oversize → replies.reply_spelling reply.now ≡ None }
    ensures only { IfErr result (λ e. (e ≡ Oversize) ⊎ (e ≡ Memory)) }
{
    frame_of_reply(alloc, reply).map_err(FrameError::fault)
}

/// The frame of the reply that refuses a request. Takes no memory.
pub fn encode_refusal(fault: Fault) -> [u8; 7]
    ensures { replies.reply_spelling (Err fault) ≡ Some result }
{
    let [high, low] = fault.number().to_be_bytes();
    [0, 0, 0, 3, 0x84, high, low]
}
