//! Replies, as they come.
ghost use Rattle.std.specs.Prelude.{◌≡◌, ◌++◌, ◌≤◌, ℕ, [], length, drop, IfOk, IfSome, OnOk};
ghost use Rattle.load.specs.Replies.{refusal_in, said_by, front_of};
ghost use Rattle.load.specs.declared.replies.Reply.{Reply};
ghost use Rattle.load.specs.declared.replies.Front.TheVariants.{Waits, Whole};

use byteorder::{BigEndian, ByteOrder};
use bytes::BytesMut;
use std::alloc::{AllocError, Global};

/// How many bytes the body of a frame may have.
const LONGEST: usize = 16_777_216;

/// The refusal of a read that came too late for a collection.
const COLLECTED: u16 = 21;

/// The numbers of refusals are below this.
pub(crate) const NUMBERS: u16 = 64;

/// What a reply says.
#[derive(Clone, Copy)]
pub enum Reply {
    /// A write is committed.
    Wrote,
    /// A read is answered.
    Read,
    /// The request was refused, with this number.
    Refused(u16),
}

/// What stands first in a stream of replies.
#[derive(Clone, Copy)]
pub(crate) enum Front {
    /// No whole frame yet.
    Waits,
    /// What is no reply.
    Garbled,
    /// A reply, and the length of its frame.
    Whole(Reply, usize),
}

/// What a stream says that isn't one of replies.
#[derive(Drop)]
pub(crate) struct NoReplies;

// The refusal with the number that two bytes are.
#[tactic(auto, unfolding(crate::specs::Replies::refusal_in))]
fn refusal(bytes: &[u8]) -> Option<Reply>
    ensures { result ≡ refusal_in bytes.now }
{
    let [high, low] = bytes else {
        return None;
    };
    let number = 256 * u16::from(*high) + u16::from(*low);
    if number < NUMBERS {
        Some(Reply::Refused(number))
    } else {
        None
    }
}

// What a body says.
#[tactic(auto, unfolding(crate::specs::Replies::said_by))]
fn said(body: &[u8]) -> Option<Reply>
    ensures { result ≡ said_by body.now }
{
    match body {
        [] => None,
        [0x81, ..] => Some(Reply::Wrote),
        [0x82, ..] => Some(Reply::Read),
        [0x83, ..] => Some(Reply::Refused(COLLECTED)),
        [0x84, rest @ ..] => refusal(rest),
        _ => None,
    }
}

// What stands first. Looks at the length alone, until the frame is whole, and then at its first bytes.
#[tactic(auto, unfolding(crate::specs::Replies::front_of))]
fn look(bytes: &[u8]) -> Front
    ensures front { result ≡ front_of bytes.now }
    ensures within { (reply : Reply) (used : ℕ) → result ≡ Whole reply used → used ≤ length bytes.now }
{
    if bytes.len() < 4 {
        return Front::Waits;
    }
    let length = BigEndian::read_u32(bytes) as usize;
    if length > LONGEST {
        return Front::Garbled;
    }
    if bytes.len() < 4 + length {
        return Front::Waits;
    }
    match said(&bytes[4..4 + length]) {
        Some(reply) => Front::Whole(reply, 4 + length),
        None => Front::Garbled,
    }
}

/// The replies of a stream, which comes in pieces. Keeps no more than what of it wasn't taken yet.
#[derive(Drop)]
pub(crate) struct Replies {
    rest: BytesMut,
}

impl Replies {
    /// Those of a stream that begins.
    pub(crate) fn new(alloc: Global) -> Replies
        ensures { result.rest.items ≡ [] }
    {
        Replies {
            rest: BytesMut::new(alloc),
        }
    }

    /// Takes the next piece of the stream. Linear in the piece.
    pub(crate) fn feed(&mut self, piece: &[u8]) -> Result<(), AllocError>
        ensures { OnOk result (self.new.rest.items ≡ self.old.rest.items ++ piece.now) }
    {
        self.rest.extend_from_slice(piece)
    }

    /// Takes the reply that stands first, if a whole one does. Fails where the stream is none of replies. Constant.
    pub(crate) fn next(&mut self) -> Result<Option<Reply>, NoReplies>
        ensures some { IfOk result (λ r. IfSome r (λ reply. (used : ℕ) × (front_of self.old.rest.items ≡ Whole reply used) × (self.new.rest.items ≡ drop used self.old.rest.items))) }
        ensures none { result ≡ Ok None → (front_of self.old.rest.items ≡ Waits) × (self.new ≡ self.old) }
    {
        match look(self.rest.as_slice()) {
            Front::Waits => Ok(None),
            Front::Garbled => Err(NoReplies),
            Front::Whole(reply, used) => {
                self.rest.advance(used);
                Ok(Some(reply))
            }
        }
    }
}
