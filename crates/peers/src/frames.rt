//! Frames in a stream of bytes.
ghost use Rattle.std.specs.Prelude.{◌≡◌, ◌⊎◌, ℕ, ◌+◌, ◌≤◌, ◌<◌, ◌^◌, ◌++◌, [], length, take, drop, Some, None, Ok, Err, IfSome, IfNone, IfOk, IfErr, OnOk, OnErr};
ghost use Rattle.logical_time.specs.declared.fault.Fault.TheVariants.{Memory, Oversize};
ghost use Rattle.peers.specs.Frames.{FramesValue, frame, first_length};

use byteorder::{BigEndian, ByteOrder};
use logical_time::Fault;
use std::alloc::{AllocError, Global};
use std::marker::Model;

/// Cuts a stream of bytes into frames: the length of a body in four bytes, the highest first, and then the body. The stream comes
/// in pieces, cut anywhere; what was fed and not given out is kept.
#[derive(Drop)]
pub struct Frames {
    alloc: Global,
    // The bytes from `start` on are those that are kept.
    buffer: Vec<u8>,
    start: usize,
    most: usize,
}

impl Model for Frames {
    ghost use Rattle.std.specs.Prelude.{◌≤◌, length, drop};
    ghost use Rattle.peers.specs.Frames.{FramesValue};

    ghost Value = { FramesValue };

    ghost view = { λ f. record { bytes = drop f.start f.buffer.items; most = f.most } };

    ghost invariant = { λ f. f.start ≤ length f.buffer.items };
}

// The length of the body that stands first in bytes. Looks at the length alone.
#[tactic(auto, unfolding(crate::specs::Frames::first_length))]
fn look(bytes: &[u8], most: usize) -> Result<Option<usize>, Fault>
    ensures length { result ≡ first_length most bytes.now }
    ensures within { IfOk result (λ o. IfSome o (λ n. 4 + n ≤ length bytes.now)) }
    ensures only { IfErr result (λ f. f ≡ Oversize) }
{
    if bytes.len() < 4 {
        return Ok(None);
    }
    let length = BigEndian::read_u32(bytes) as usize;
    if most < length {
        return Err(Fault::Oversize);
    }
    if bytes.len() < 4 + length {
        return Ok(None);
    }
    Ok(Some(length))
}

// The body of so many bytes behind a length.
fn body_in(bytes: &[u8], count: usize) -> &[u8]
    requires { 4 + count ≤ length bytes.now }
    ensures first { (most : ℕ) → first_length most bytes.now ≡ Ok (Some count) → bytes.now ≡ frame result.now ++ drop (4 + count) bytes.now }
    ensures long { length result.now ≡ count }
{
    &bytes[4..4 + count]
}

// Copies the body that stands first in bytes.
fn cut(alloc: Global, bytes: &[u8], most: usize) -> Result<Option<Vec<u8>>, Fault>
    ensures some { IfOk result (λ o. IfSome o (λ body. (first_length most bytes.now ≡ Ok (Some (length body.items))) × (bytes.now ≡ frame body.items ++ drop (4 + length body.items) bytes.now))) }
    ensures within { IfOk result (λ o. IfSome o (λ body. 4 + length body.items ≤ length bytes.now)) }
    ensures none { IfOk result (λ o. IfNone o (first_length most bytes.now ≡ Ok None)) }
    ensures refused { IfErr result (λ f. (f ≡ Memory) ⊎ (first_length most bytes.now ≡ Err f)) }
    ensures oversize { first_length most bytes.now ≡ Err Oversize → result ≡ Err Oversize }
{
    match look(bytes, most)? {
        None => Ok(None),
        Some(length) => Ok(Some(bytes[4..4 + length].to_vec(alloc)?)),
    }
}

/// Drops the first bytes, and moves the others to the front. Linear in the others.
pub fn drop_front(buffer: &mut Vec<u8>, count: usize)
    requires { count ≤ length buffer.old.items }
    ensures { buffer.new.items ≡ drop count buffer.old.items }
{
    let length = buffer.len();
    buffer.as_mut_slice().copy_within(count..length, 0);
    buffer.truncate(length - count);
}

impl Frames {
    /// A stream that begins, of frames whose bodies have so many bytes at most.
    pub fn new(alloc: Global, most: usize) -> Frames
        ensures { result ≡ record { bytes = []; most = most } }
    {
        Frames {
            alloc,
            buffer: Vec::new(alloc),
            start: 0,
            most,
        }
    }

    /// Takes the next piece of the stream. Refused with `Memory` alone; then nothing changes, and the piece may be fed again. Over
    /// many calls linear in the pieces, however frames are cut: bytes are moved only where as many were given out.
    pub fn feed(&mut self, piece: &[u8]) -> Result<(), Fault>
        ensures fed { OnOk result (self.new ≡ record { bytes = self.old.bytes ++ piece.now; most = self.old.most }) }
        ensures memory { IfErr result (λ f. f ≡ Memory) }
        ensures stays { OnErr result (self.new ≡ self.old) }
    {
        if self.start >= self.buffer.len() - self.start {
            drop_front(&mut self.buffer, self.start);
            self.start = 0;
        }
        self.buffer.extend_from_slice(piece)?;
        Ok(())
    }

    /// The body of the next frame, or none where it isn't whole yet. Refused with `Oversize` where its length is above what a body
    /// may have, as soon as the length is there, and then again at each call; and with `Memory`. Then nothing changes. Linear in
    /// the body.
    pub fn next(&mut self) -> Result<Option<Vec<u8>>, Fault>
        ensures some { IfOk result (λ o. IfSome o (λ body. (first_length self.old.most self.old.bytes ≡ Ok (Some (length body.items))) × (self.old.bytes ≡ frame body.items ++ self.new.bytes) × (self.new.most ≡ self.old.most))) }
        ensures none { IfOk result (λ o. IfNone o ((first_length self.old.most self.old.bytes ≡ Ok None) × (self.new ≡ self.old))) }
        ensures refused { IfErr result (λ f. (f ≡ Memory) ⊎ (first_length self.old.most self.old.bytes ≡ Err f)) }
        ensures oversize { first_length self.old.most self.old.bytes ≡ Err Oversize → result ≡ Err Oversize }
        ensures stays { OnErr result (self.new ≡ self.old) }
    {
        match cut(self.alloc, &self.buffer[self.start..], self.most)? {
            None => Ok(None),
            Some(body) => {
                self.start += 4 + body.len();
                Ok(Some(body))
            }
        }
    }

    /// Lets a body have so many bytes at most from now on.
    pub fn allow(&mut self, most: usize)
        ensures { self.new ≡ record { bytes = self.old.bytes; most = most } }
    {
        self.most = most;
    }

    /// How many bytes the body of the next frame has, or none where it isn't whole yet. Refused with `Oversize` where that is
    /// more than a body may have, as soon as the length is there. Constant.
    pub fn whole(&self) -> Result<Option<usize>, Fault>
        ensures length { result ≡ first_length self.now.most self.now.bytes }
        ensures within { IfOk result (λ o. IfSome o (λ n. 4 + n ≤ length self.now.bytes)) }
        ensures only { IfErr result (λ f. f ≡ Oversize) }
    {
        look(&self.buffer[self.start..], self.most)
    }

    /// The body of the next frame, which is whole and has so many bytes. It stays. Constant.
    pub fn body(&self, count: usize) -> &[u8]
        requires { first_length self.now.most self.now.bytes ≡ Ok (Some count) }
        ensures first { self.now.bytes ≡ frame result.now ++ drop (4 + count) self.now.bytes }
        ensures long { length result.now ≡ count }
    {
        body_in(&self.buffer[self.start..], count)
    }

    /// Gives up the next frame, which is whole and whose body has so many bytes. Constant.
    pub fn skip(&mut self, count: usize)
        requires { 4 + count ≤ length self.old.bytes }
        ensures { self.new ≡ record { bytes = drop (4 + count) self.old.bytes; most = self.old.most } }
    {
        self.start = self.start + 4 + count;
    }
}

// Puts the parts of a frame behind others. Where memory is refused the first of them may have been put.
fn put(out: &mut Vec<u8>, body: &[u8]) -> Result<(), AllocError>
    requires { length body.now < 256 ^ 4 }
    ensures ok { OnOk result (out.new.items ≡ out.old.items ++ frame body.now) }
    ensures kept { take (length out.old.items) out.new.items ≡ out.old.items }
{
    let mut length = [0; 4];
    BigEndian::write_u32(&mut length, body.len() as u32);
    out.extend_from_slice(&length)?;
    out.extend_from_slice(body)
}

/// Writes the frame of a body behind other bytes. Refused with `Oversize` where the body has 2^32 bytes or more, and with
/// `Memory`; then nothing changes. Linear in the body.
pub fn framed(out: &mut Vec<u8>, body: &[u8]) -> Result<(), Fault>
    ensures ok { OnOk result (out.new.items ≡ out.old.items ++ frame body.now) }
    ensures refused { IfErr result (λ f. (f ≡ Memory) ⊎ ((f ≡ Oversize) × (2 ^ 32 ≤ length body.now))) }
    ensures oversize { 2 ^ 32 ≤ length body.now → result ≡ Err Oversize }
    ensures stays { OnErr result (out.new.items ≡ out.old.items) }
{
    if body.len() > u32::MAX as usize {
        return Err(Fault::Oversize);
    }
    let before = out.len();
    match put(out, body) {
        Ok(()) => Ok(()),
        Err(_) => {
            out.truncate(before);
            Err(Fault::Memory)
        }
    }
}
