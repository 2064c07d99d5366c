//! A stream of frames, in whatever pieces it comes.
ghost use Rattle.std.specs.Prelude.{◌≡◌, ◌≤◌, ◌++◌, ◌∷◌, [], true, false, length, take, drop, Err, Some, None, IfOk, IfSome, IfNone};
ghost use Rattle.std.specs.List.{list_all};
ghost use Rattle.logical_time.specs.Fault.{IsRefusedFor};
ghost use Rattle.wire.specs.Requests.{is_spelled};
ghost use Rattle.wire.specs.Frames.{front_of, front_for, frames, ReaderValue};
ghost use Rattle.wire.specs.Answers.{Feeds, Taken, fault_at_end};

use crate::front::{Front, look};
use bytes::BytesMut;
use logical_time::Fault;
use messages::Op;
use std::alloc::{AllocError, Global};
use std::collections::VecDeque;
use std::marker::Model;

/// A reader of a stream of frames, which come in pieces: fed a piece, it reads the requests of all frames that are then
/// whole, and keeps them until they are taken. What is left of the stream it keeps as it came, so each byte of a frame
/// is read once, whatever the pieces are, and a frame that isn't there yet takes no more memory than its bytes.
#[derive(Drop)]
pub struct Reader {
    alloc: Global,
    // What comes after the frames that were read.
    rest: BytesMut,
    held: VecDeque<Op>,
    fault: Option<Fault>,
}

impl Model for Reader {
    ghost use Rattle.wire.specs.Frames.{ReaderValue, IsRead};

    ghost Value = { ReaderValue };

    ghost view = { λ r. record { held = r.held.items; rest = r.rest.items; fault = r.fault } };

    ghost invariant = { λ r. IsRead (record { held = r.held.items; rest = r.rest.items; fault = r.fault }) };
}

// Takes the requests of the whole frames that stand first, up to a fault. Gives how many bytes their frames have, and
// the fault.
fn take_frames(
    alloc: Global,
    bytes: &[u8],
    held: &mut VecDeque<Op>,
) -> Result<(usize, Option<Fault>), AllocError>
    ensures used { IfOk result (λ r. r.0 ≤ length bytes.now) }
    ensures text { IfOk result (λ r. frames held.new.items ++ drop r.0 bytes.now ≡ frames held.old.items ++ bytes.now) }
    ensures front { IfOk result (λ r. front_of (drop r.0 bytes.now) ≡ front_for r.1) }
    ensures spelled { list_all is_spelled held.old.items ≡ true → list_all is_spelled held.new.items ≡ true }
    ensures kept { take (length held.old.items) held.new.items ≡ held.old.items }
{
    let mut at = 0;
    while at <= bytes.len() {
        match look(alloc, &bytes[at..])? {
            Front::Waits => return Ok((at, None)),
            Front::Faulty(fault) => return Ok((at, Some(fault))),
            Front::Whole(op, used) => {
                held.push_back(op)?;
                at += used;
            }
        }
    }
    unreachable!()
}

impl Reader {
    /// A reader of a stream that begins.
    #[tactic(auto, unfolding(crate::specs::Frames::front_of))]
    pub fn new(alloc: Global) -> Reader
        ensures { result ≡ record { held = []; rest = []; fault = None } }
    {
        Reader {
            alloc,
            rest: BytesMut::new(alloc),
            held: VecDeque::new(alloc),
            fault: None,
        }
    }

    /// Reads the next piece of the stream. Refused with the first fault of the stream, `Oversize` to `Truncated`; the
    /// requests before it are held, and every later call is refused with it too. Refused with `Memory`; then nothing
    /// changes, and the piece may be fed again. Linear in the piece and in the frames that it completes.
    pub fn feed(&mut self, piece: &[u8]) -> Result<(), Fault>
        ensures again { IfSome self.old.fault (λ f. (result ≡ Err f) × (self.new ≡ self.old)) }
        ensures feeds { self.old.fault ≡ None → Feeds piece.now self.old self.new result }
    {
        if let Some(fault) = self.fault {
            return Err(fault);
        }
        let held = self.held.len();
        let rest = self.rest.len();
        self.rest.extend_from_slice(piece)?;
        match take_frames(self.alloc, self.rest.as_slice(), &mut self.held) {
            Ok((used, fault)) => {
                self.rest.advance(used);
                self.fault = fault;
                match fault {
                    None => Ok(()),
                    Some(fault) => Err(fault),
                }
            }
            Err(_) => {
                self.held.truncate(held);
                self.rest.truncate(rest);
                Err(Fault::Memory)
            }
        }
    }

    /// Takes the first request that is held. Takes no memory.
    pub fn next(&mut self) -> Option<Op>
        ensures some { IfSome result (λ op. self.old.held ≡ op ∷ self.new.held) }
        ensures taken { IfSome result (λ op. Taken op self.old self.new) }
        ensures none { IfNone result ((self.old.held ≡ []) × (self.new ≡ self.old)) }
        ensures rest { self.new.rest ≡ self.old.rest }
        ensures fault { self.new.fault ≡ self.old.fault }
    {
        self.held.pop_front()
    }

    /// Whether no request is held.
    pub fn holds_none(&self) -> bool
        ensures yes { result ≡ true → self.now.held ≡ [] }
        ensures no { result ≡ false → self.now.held ≡ [] → ⊥ }
    {
        self.held.is_empty()
    }

    /// Says that the stream has ended. Refused with the fault that was found before, and with `Truncated` inside a
    /// frame; then every later call is refused with it too. Takes no memory.
    pub fn finish(&mut self) -> Result<(), Fault>
        ensures fault { IsRefusedFor (fault_at_end self.old) result }
        ensures kept { self.new ≡ record { held = self.old.held; rest = self.old.rest; fault = fault_at_end self.old } }
    {
        if self.fault.is_none() && !self.rest.is_empty() {
            self.fault = Some(Fault::Truncated);
        }
        match self.fault {
            None => Ok(()),
            Some(fault) => Err(fault),
        }
    }
}
