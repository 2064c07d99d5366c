//! A connection, as it stands between two turns.
ghost use Rattle.std.specs.Prelude.{◌≡◌, true, false};
ghost use Rattle.readiness.specs.Kept.{IsNew, view};
ghost use Rattle.readiness.specs.Turns.{IsOver, IsAnswered, HasStopped, TakesNoMore};

use crate::last::Last;
use crate::line::ReadyLine;
use bytes::BytesMut;
use logical_time::Fault;
use std::alloc::Global;
use wire::Reader;

/// How many bytes of replies may wait, and still a further request is answered, or something is read.
pub const LIMIT: usize = 65_536;

/// How far a connection is.
#[derive(Drop)]
pub(crate) enum Stage {
    /// Requests are answered. More is read, unless the stream has this fault.
    Open(Option<Fault>),
    /// Nothing more is read. What waits is written, and then what is left of a last reply.
    Ending(Last),
    /// A call of the line failed.
    Failed,
}

/// Why no more was taken in.
#[derive(Clone, Copy)]
pub(crate) enum Stop {
    /// Nothing had come.
    Dry,
    /// Too much waited.
    Full,
    /// Nothing is read any more.
    Over,
    /// The steps of this turn were spent.
    Spent,
}

/// A connection: its line, the requests and bytes that were read, and the replies that the line hasn't taken yet.
#[derive(Drop)]
pub struct Connection<L> {
    pub(crate) line: L,
    pub(crate) reader: Reader,
    pub(crate) waiting: BytesMut,
    pub(crate) stage: Stage,
    // Why the stream was refused, if it was.
    pub(crate) refused: Option<Fault>,
    // Why taking in stopped last.
    pub(crate) stop: Stop,
}

impl<L> Connection<L> {
    /// The connection of a line, before any call. Takes no memory.
    pub fn new(alloc: Global, line: L) -> Connection<L>
        ensures { IsNew line result }
    {
        Connection {
            line,
            reader: Reader::new(alloc),
            waiting: BytesMut::new(alloc),
            stage: Stage::Open(None),
            refused: None,
            stop: Stop::Spent,
        }
    }

    /// Whether a call of its line failed.
    pub(crate) fn has_failed(&self) -> bool
        ensures yes { result ≡ true → self.now.stage ≡ Stage.Failed }
        ensures no { result ≡ false → self.now.stage ≡ Stage.Failed → ⊥ }
    {
        matches!(self.stage, Stage::Failed)
    }

    /// Its line.
    pub fn line(&self) -> &L
        ensures { result.now ≡ self.now.line }
    {
        &self.line
    }

    /// Why its stream was refused, by the last reply; none where it wasn't.
    pub fn refused(&self) -> Option<Fault>
        ensures { result ≡ self.now.refused }
    {
        self.refused
    }
}

impl<L: ReadyLine> Connection<L> {
    /// Whether nothing more is read or written.
    pub(crate) fn is_over(&self) -> bool
        ensures yes { result ≡ true → IsOver (view L.seen self.now) }
        ensures no { result ≡ false → IsOver (view L.seen self.now) → ⊥ }
    {
        match &self.stage {
            Stage::Open(_) => false,
            Stage::Ending(last) => self.waiting.is_empty() && last.is_empty(),
            Stage::Failed => true,
        }
    }

    /// Whether it could go on at once: taking in stopped since its steps were spent, or since too much waited, and by now
    /// no more than `LIMIT` does.
    pub(crate) fn could_go_on(&self) -> bool
        ensures { result ≡ false → HasStopped self.now.stop (view L.seen self.now) → TakesNoMore LIMIT (view L.seen self.now) }
    {
        match self.stop {
            Stop::Dry => false,
            Stop::Full => self.waiting.len() <= LIMIT,
            Stop::Over => false,
            Stop::Spent => true,
        }
    }

    /// Whether all requests that were read are answered.
    pub(crate) fn is_answered(&self) -> bool
        ensures yes { result ≡ true → IsAnswered (view L.seen self.now) }
        ensures no { result ≡ false → IsAnswered (view L.seen self.now) → ⊥ }
    {
        self.reader.holds_none()
    }
}
