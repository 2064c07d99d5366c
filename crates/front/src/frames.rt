//! What takes frames apart, and makes them.
ghost use Rattle.std.specs.Prelude.{◌≡◌, ◌∷◌, [], Some, None, ◌⊎◌, IfOk, IfErr, IfSome, IfNone};
ghost use Rattle.logical_time.specs.declared.fault.Fault.TheVariants as fault;
ghost use Rattle.logical_time.specs.Fault.{IsRefusedFor};
ghost use Rattle.wire.specs.Frames.{ReaderValue};
ghost use Rattle.wire.specs.Answers.{Feeds, Taken, fault_at_end};
ghost use Rattle.wire.specs.Replies.{reply_spelling};
ghost use Rattle.front.specs.Served.{Need, feeding, encoding, any_need};

use logical_time::Fault;
use messages::{Op, Outcome};
use std::alloc::Global;
use wire::{Reader, encode_reply};

/// What takes a stream of requests' frames apart, piece by piece, and makes the frames of replies. A `Reader` does, the
/// second with `encode_reply`.
pub trait Frames {
    /// What it keeps: the requests that weren't taken yet, the bytes behind their frames, and why it stopped.
    ghost kept: { Self → ReaderValue };

    /// For what memory is refused: for a piece that comes behind such a rest, and for a reply. Who serves by any `Frames`
    /// knows nothing of that but what `feed` and `encode` answer.
    ghost refuses: { Need → Type 0 };

    /// Reads the next piece of the stream. Refused with the first fault of the stream, and with `Memory`; then nothing changes.
    fn feed(&mut self, piece: &[u8]) -> Result<(), Fault>
        ensures feeds { (kept self.old).fault ≡ None → Feeds piece.now (kept self.old) (kept self.new) result }
        ensures memory { result ≡ Err fault.Memory → refuses (feeding (kept self.old).rest piece.now) };

    /// Takes the first request that is held.
    fn next(&mut self) -> Option<Op>
        ensures some { IfSome result (λ op. (kept self.old).held ≡ op ∷ (kept self.new).held) }
        ensures taken { IfSome result (λ op. Taken op (kept self.old) (kept self.new)) }
        ensures none { IfNone result (((kept self.old).held ≡ []) × (kept self.new ≡ kept self.old)) }
        ensures rest { (kept self.new).rest ≡ (kept self.old).rest }
        ensures fault { (kept self.new).fault ≡ (kept self.old).fault };

    /// Says that the stream has ended. Refused with the fault that was found before, and with `Truncated` inside a frame.
    fn finish(&mut self) -> Result<(), Fault>
        ensures { IsRefusedFor (fault_at_end (kept self.old)) result };

    /// The frame of a reply. Refused with `Oversize` where it has none, and with `Memory`.
    fn encode(&self, alloc: Global, reply: &Result<Outcome, Fault>) -> Result<Vec<u8>, Fault>
        ensures ok { IfOk result (λ frame. reply_spelling reply.now ≡ Some frame.items) }
        ensures oversize { result ≡ Err fault.Oversize → reply_spelling reply.now ≡ None }
        ensures memory { result ≡ Err fault.Memory → refuses (encoding reply.now) }
        ensures only { IfErr result (λ e. (e ≡ fault.Oversize) ⊎ (e ≡ fault.Memory)) };
}

impl Frames for Reader {
    ghost kept = { λ r. r };

    ghost refuses = { any_need };

    fn feed(&mut self, piece: &[u8]) -> Result<(), Fault> {
        Reader::feed(self, piece)
    }

    fn next(&mut self) -> Option<Op> {
        Reader::next(self)
    }

    fn finish(&mut self) -> Result<(), Fault> {
        Reader::finish(self)
    }

    fn encode(&self, alloc: Global, reply: &Result<Outcome, Fault>) -> Result<Vec<u8>, Fault> {
        encode_reply(alloc, reply)
    }
}
