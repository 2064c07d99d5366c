//! One end of a connection, over bytes that come in pieces.
ghost use Rattle.std.specs.Prelude.{◌≡◌, ◌⊎◌, ◌+◌, ◌≤◌, ◌++◌, ℕ, List, [], length, drop, take, IsTrue, ◌↔◌, IfOk, IfErr, IfSome, IfNone, OnOk, OnErr, Some, None, Ok, Err};
ghost use Rattle.logical_time.specs.declared.fault.Fault.{Fault as FaultOf};
ghost use Rattle.logical_time.specs.declared.fault.Fault.TheVariants.{Memory};
ghost use Rattle.peers.specs.Frames.{frame};
ghost use Rattle.hello.specs.Hello.{spelled};
ghost use Rattle.linking.specs.declared.side.Stage.TheVariants.{Calling, Open, Over};
ghost use Rattle.linking.specs.Said.{parcel_bytes, taken_bytes, here_bytes};
ghost use Rattle.linking.specs.Side.{Stops, saying, unsayable, is_met as is_met_at, hello_to as hello_of};
ghost use Rattle.linking.specs.Channel.{ChannelValue, HearsNext, StopsNext, IsTooLong, IsQuiet};

use crate::greeting::hello_to;
use crate::said;
use crate::side::{Heard, Side, Stage};
use crate::trouble::Trouble;
use hello::{Expected, Secret};
use logical_time::Fault;
use peers::Frames;
use std::alloc::Global;
use std::marker::Model;

/// One end of a connection. Contracts see the bytes that came and weren't read yet, and where the end stands.
#[derive(Drop)]
pub struct Channel {
    alloc: Global,
    frames: Frames,
    side: Side,
}

impl Model for Channel {
    ghost use Rattle.linking.specs.Channel.{ChannelValue};

    ghost Value = { ChannelValue };

    ghost view = { λ c. record { heard = c.frames.bytes; side = c.side } };
}

impl Channel {
    /// The end that calls a data centre, with 32 bytes that were drawn for this connection alone: its hello is to be written.
    /// Refused with `Memory`.
    pub fn connecting(
        alloc: Global,
        own: &Expected,
        to: u16,
        nonce: [u8; 32],
    ) -> Result<Channel, Fault>
        ensures ok { let ours = hello_of own.now to nonce in IfOk result (λ c. c ≡ record { heard = []; side = record { stage = Calling ours; unsent = frame (spelled ours); said = 0; taken = 0 } }) }
        ensures refused { IfErr result (λ f. f ≡ Memory) }
    {
        let ours = hello_to(own, to, nonce);
        let mut side = Side::new(alloc, Stage::Calling(ours));
        side.unsent.put(&ours.write())?;
        Ok(Channel {
            alloc,
            frames: Frames::new(alloc, 512),
            side,
        })
    }

    /// The end that was called, with 32 bytes that were drawn for this connection alone: it waits for a hello.
    pub fn accepting(alloc: Global, nonce: [u8; 32]) -> Channel
        ensures { result ≡ record { heard = []; side = record { stage = Open nonce; unsent = []; said = 0; taken = 0 } } }
    {
        Channel {
            alloc,
            frames: Frames::new(alloc, 512),
            side: Side::new(alloc, Stage::Open(nonce)),
        }
    }

    /// Takes bytes that came. Where the connection is over nothing is kept of them. Refused with `Memory`; then nothing changes,
    /// and they may be fed again. Over many calls linear in the bytes.
    pub fn feed(&mut self, piece: &[u8]) -> Result<(), Fault>
        ensures fed { OnOk result ((self.new ≡ record { heard = self.old.heard ++ piece.now; side = self.old.side }) ⊎ ((self.old.side.stage ≡ Over) × (self.new ≡ self.old))) }
        ensures over { self.old.side.stage ≡ Over → self.new ≡ self.old }
        ensures refused { IfErr result (λ f. f ≡ Memory) }
        ensures stays { OnErr result (self.new ≡ self.old) }
    {
        if self.side.is_over() {
            return Ok(());
        }
        self.frames.feed(piece)
    }

    /// Reads the next frame, if it is whole, and says what is heard in it: first the other end's hello, then that it has proved
    /// itself, and then what it says. Nothing where the connection is over. After trouble the frame stays unread: `Refused` leaves
    /// all as it was, and after any other the connection is over, though what is to be written stays. Costs a few passes over the
    /// frame.
    pub fn next(&mut self, own: &Expected, secret: &Secret) -> Result<Option<Heard>, Trouble>
        ensures heard { IfOk result (λ o. IfSome o (λ h. HearsNext own.now secret.now self.old h self.new)) }
        ensures none { IfOk result (λ o. IfNone o (IsQuiet self.old × (self.new ≡ self.old))) }
        ensures over { self.old.side.stage ≡ Over → (result ≡ Ok None) × (self.new ≡ self.old) }
        ensures trouble { IfErr result (λ t. StopsNext own.now secret.now self.old t self.new ⊎ IsTooLong self.old t self.new) }
    {
        if self.side.is_over() {
            return Ok(None);
        }
        self.frames.allow(self.side.longest());
        let count = match self.frames.whole() {
            Ok(None) => return Ok(None),
            Ok(Some(count)) => count,
            Err(_) => {
                self.side.stage = Stage::Over;
                return Err(Trouble::Malformed);
            }
        };
        let heard = self
            .side
            .hear(self.alloc, own, secret, self.frames.body(count))?;
        self.frames.skip(count);
        Ok(Some(heard))
    }

    /// Whether the other end has proved itself, and the connection isn't over.
    pub fn is_met(&self) -> bool
        ensures { result ≡ is_met_at self.now.side.stage }
    {
        self.side.is_met()
    }

    /// Whether the connection is over: nothing more is heard, and nothing more can be said.
    pub fn is_over(&self) -> bool
        ensures { IsTrue result ↔ (self.now.side.stage ≡ Over) }
    {
        self.side.is_over()
    }

    /// Says a parcel, with its number. Refused with `StrangerEnd` where the other end hasn't proved itself, or the connection is
    /// over; with `ClockSpent` where 2^64 - 1 frames were said; with `Oversize` where the frame would be longer than 2^32 - 1; in
    /// this order, and with `Memory`. Then nothing changes. Costs a few passes over the parcel.
    pub fn say_parcel(&mut self, number: u64, bytes: &[u8]) -> Result<(), Fault>
        ensures said { OnOk result (self.new ≡ record { heard = self.old.heard; side = saying (parcel_bytes number bytes.now) self.old.side }) }
        ensures able { OnOk result (unsayable self.old.side (9 + length bytes.now) ≡ None) }
        ensures refused { IfErr result (λ f. (f ≡ Memory) ⊎ (unsayable self.old.side (9 + length bytes.now) ≡ Some f)) }
        ensures unable { (f : FaultOf) → unsayable self.old.side (9 + length bytes.now) ≡ Some f → result ≡ Err f }
        ensures stays { OnErr result (self.new ≡ self.old) }
    {
        if let Some(why) = self.side.unsayable(9 + bytes.len()) {
            return Err(why);
        }
        let body = said::parcel(self.alloc, number, bytes)?;
        self.side.say(self.alloc, &body)
    }

    /// Says that all parcels below this number were taken. Refused as `say_parcel` is, but that it is never too long.
    pub fn say_taken(&mut self, below: u64) -> Result<(), Fault>
        ensures said { OnOk result (self.new ≡ record { heard = self.old.heard; side = saying (taken_bytes below) self.old.side }) }
        ensures able { OnOk result (unsayable self.old.side 9 ≡ None) }
        ensures refused { IfErr result (λ f. (f ≡ Memory) ⊎ (unsayable self.old.side 9 ≡ Some f)) }
        ensures unable { (f : FaultOf) → unsayable self.old.side 9 ≡ Some f → result ≡ Err f }
        ensures stays { OnErr result (self.new ≡ self.old) }
    {
        self.side.say(self.alloc, &said::taken(below))
    }

    /// Says that this end is still there. Refused as `say_taken` is.
    pub fn say_here(&mut self) -> Result<(), Fault>
        ensures said { OnOk result (self.new ≡ record { heard = self.old.heard; side = saying here_bytes self.old.side }) }
        ensures able { OnOk result (unsayable self.old.side 1 ≡ None) }
        ensures refused { IfErr result (λ f. (f ≡ Memory) ⊎ (unsayable self.old.side 1 ≡ Some f)) }
        ensures unable { (f : FaultOf) → unsayable self.old.side 1 ≡ Some f → result ≡ Err f }
        ensures stays { OnErr result (self.new ≡ self.old) }
    {
        self.side.say(self.alloc, &[6])
    }

    /// The bytes that are to be written.
    pub fn unsent(&self) -> &[u8]
        ensures { result.now ≡ self.now.side.unsent }
    {
        self.side.unsent.bytes()
    }

    /// Hears that the first of them were written. Constant.
    pub fn sent(&mut self, count: usize)
        requires { count ≤ length self.old.side.unsent }
        ensures { self.new ≡ record { heard = self.old.heard; side = record { stage = self.old.side.stage; unsent = drop count self.old.side.unsent; said = self.old.side.said; taken = self.old.side.taken } } }
    {
        self.side.unsent.sent(count);
    }

    /// How many bytes are to be written.
    pub fn waiting(&self) -> usize
        ensures { result ≡ length self.now.side.unsent }
    {
        self.side.unsent.bytes().len()
    }
}
