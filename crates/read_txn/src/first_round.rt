//! The first round of a read.
ghost use Rattle.std.specs.Prelude.{◌≡◌, ◌<◌, List, [], ◌∷◌, ◌++◌, length};
ghost use Rattle.messages.specs.Session.{HeardNow};

use crate::answered::Answered;
use crate::asking::late_shards;
use crate::completing::complete;
use crate::heard::{ShardNow, all_heard, is_missing};
use crate::late::LateShard;
use crate::second_round::SecondRound;
use crate::valid::effective_time;
use logical_time::{Fault, Node, Time};
use messages::RowsNow;
use slice::Read;
use std::alloc::Global;
use std::marker::Model;

/// The first round of a read. It must be spent: each asked shard is heard, or the session is closed.
pub struct FirstRound {
    read: Read,
    floor: Time,
    asked: Vec<Node>,
    heard: Vec<ShardNow>,
}

impl Model for FirstRound {
    ghost use Rattle.read_txn.specs.States.{First};

    ghost Value = { First };

    ghost view = { λ r. record { read = r.read; floor = r.floor; asked = r.asked.items; heard = r.heard.items } };
}

/// Takes the last answer out and hands its rows out.
fn take_last(heard: &mut Vec<ShardNow>) -> RowsNow
    requires { 0 < length heard.old.items }
    ensures rest { (before : List HeardNow) (last : HeardNow) → heard.old.items ≡ before ++ last ∷ [] → heard.new.items ≡ before }
    ensures rows { (before : List HeardNow) (last : HeardNow) → heard.old.items ≡ before ++ last ∷ [] → result ≡ last.rows }
{
    match heard.pop() {
        Some(answer) => answer.into_rows(),
        None => unreachable!(),
    }
}

/// What an answer makes of a first round.
pub enum FirstTaken {
    /// More shards are to answer.
    More(FirstRound),
    /// Some rows have to be asked again.
    Second(SecondRound),
    /// The read is complete.
    Done(Answered),
}

impl FirstRound {
    ghost use Rattle.std.specs.Prelude.{◌≡◌, ◌<◌, false, List, [], ◌∷◌, ◌++◌, length, IsOk, IfOk, IfErr};
    ghost use Rattle.messages.specs.Rounds.{is_missing, effective_time as effective_of, rows_taken};
    ghost use Rattle.read_txn.specs.Taken.{first_taken, heard as after_answer, over as after_last};
    ghost use Rattle.read_txn.specs.Valid.{AcceptsValid};
    ghost use Rattle.messages.specs.Session.{HeardNow};
    ghost use Rattle.read_txn.specs.States.{asked_again};
    ghost use Rattle.read_txn.specs.Completed.{answered};
    ghost use Rattle.read_txn.specs.declared.first_round.FirstTaken.TheVariants as in_first;

    /// The first round of a read that asks these shards, each once, ascending, as nodes. The floor is the session's:
    /// the effective time isn't below it.
    pub fn new(alloc: Global, read: Read, floor: Time, asked: Vec<Node>) -> FirstRound
        ensures { result ≡ record { read = read; floor = floor; asked = asked.items; heard = [] } }
    {
        FirstRound::with_heard(read, floor, asked, Vec::new(alloc))
    }

    /// What is read.
    pub fn read(&self) -> &Read
        ensures { result.now ≡ self.now.read }
    {
        &self.read
    }

    /// The session's floor.
    pub fn floor(&self) -> Time
        ensures { result ≡ self.now.floor }
    {
        self.floor
    }

    /// Takes the answer of a shard. A stranger's, or the second of a shard, changes nothing. With the last missing one
    /// the effective time is the greatest of the floor and the earliest valid times of all rows (this profile's rule).
    /// Where each row is valid at that time the read is complete; else the other rows are asked again. In the order of
    /// m log m for m rows, once all have answered. Refused with `Memory` alone; then the round and the rows are handed
    /// back.
    pub fn take(self, from: Node, rows: RowsNow) -> Result<FirstTaken, (Fault, FirstRound, RowsNow)>
        ensures exact { IfOk result (λ taken. taken ≡ first_taken self from rows) }
        // no row is taken from the first round that isn't valid at the effective time
        ensures valid { IfOk result (λ taken. AcceptsValid self.asked (self.heard ++ record { from = from; rows = rows } ∷ []) taken) }
        ensures unasked { is_missing self.asked self.heard from ≡ false → IsOk result }
        ensures memory { IfErr result (λ e. e.0 ≡ Fault.Memory) }
        ensures round { IfErr result (λ e. e.1 ≡ self) }
        ensures rows { IfErr result (λ e. e.2 ≡ rows) }
    {
        self.taken(from, rows)
    }

    /// Gives the round up and hands out what was read: for a session that is closed.
    pub fn surrender(self) -> Read
        ensures { result ≡ self.read }
    {
        let FirstRound {
            read,
            floor: _,
            asked: _,
            heard: _,
        } = self;
        read
    }

    /// Takes an answer, as `take` does.
    fn taken(self, from: Node, rows: RowsNow) -> Result<FirstTaken, (Fault, FirstRound, RowsNow)>
        ensures exact { IfOk result (λ taken. taken ≡ first_taken self from rows) }
        ensures unasked { is_missing self.asked self.heard from ≡ false → IsOk result }
        ensures memory { IfErr result (λ e. e.0 ≡ Fault.Memory) }
        ensures round { IfErr result (λ e. e.1 ≡ self) }
        ensures rows { IfErr result (λ e. e.2 ≡ rows) }
    {
        if !is_missing(&self.asked, &self.heard, from) {
            return Ok(FirstTaken::More(self));
        }
        self.keep(from, rows)
    }

    /// Keeps an answer that was missing.
    fn keep(self, from: Node, rows: RowsNow) -> Result<FirstTaken, (Fault, FirstRound, RowsNow)>
        ensures exact { IfOk result (λ taken. taken ≡ after_answer (record self { heard = self.heard ++ record { from = from; rows = rows } ∷ [] })) }
        ensures memory { IfErr result (λ e. e.0 ≡ Fault.Memory) }
        ensures round { IfErr result (λ e. e.1 ≡ self) }
        ensures rows { IfErr result (λ e. e.2 ≡ rows) }
    {
        let mut round = self;
        if let Err(refused) = round.heard.push(ShardNow::new(from, rows)) {
            return Err((Fault::Memory, round, refused.value.into_rows()));
        }
        match round.after_answer() {
            Ok(taken) => Ok(taken),
            Err(round) => {
                let (round, rows) = round.without_last();
                Err((Fault::Memory, round, rows))
            }
        }
    }

    /// A first round in which these answers were heard.
    pub(crate) fn with_heard(
        read: Read,
        floor: Time,
        asked: Vec<Node>,
        heard: Vec<ShardNow>,
    ) -> FirstRound
        ensures { result ≡ record { read = read; floor = floor; asked = asked.items; heard = heard.items } }
    {
        FirstRound {
            read,
            floor,
            asked,
            heard,
        }
    }

    /// Takes the last answer back out.
    pub(crate) fn without_last(self) -> (FirstRound, RowsNow)
        requires { 0 < length self.heard }
        ensures round { (heard : List HeardNow) (last : HeardNow) → self.heard ≡ heard ++ last ∷ [] → result.0 ≡ record self { heard = heard } }
        ensures rows { (heard : List HeardNow) (last : HeardNow) → self.heard ≡ heard ++ last ∷ [] → result.1 ≡ last.rows }
    {
        let mut round = self;
        let rows = take_last(&mut round.heard);
        (round, rows)
    }

    /// Goes on after an answer was kept. Fails by memory alone; then the round is handed back.
    fn after_answer(self) -> Result<FirstTaken, FirstRound>
        ensures exact { IfOk result (λ taken. taken ≡ after_answer self) }
        ensures round { IfErr result (λ r. r ≡ self) }
    {
        if all_heard(&self.asked, &self.heard) {
            self.after_last()
        } else {
            Ok(FirstTaken::More(self))
        }
    }

    /// Ends the round. Fails by memory alone; then the round is handed back.
    fn after_last(self) -> Result<FirstTaken, FirstRound>
        ensures exact { IfOk result (λ taken. taken ≡ after_last self (effective_of self.floor self.heard)) }
        ensures round { IfErr result (λ r. r ≡ self) }
    {
        let alloc = *self.heard.allocator();
        let time = effective_time(self.floor, &self.heard);
        match late_shards(alloc, &self.asked, time, &self.heard) {
            Ok(late) if late.is_empty() => self.complete(alloc, time),
            Ok(late) => Ok(FirstTaken::Second(self.again(alloc, time, late))),
            Err(_) => Err(self),
        }
    }

    /// Completes the read at the time. Fails by memory alone; then the round is handed back.
    fn complete(self, alloc: Global, time: Time) -> Result<FirstTaken, FirstRound>
        ensures exact { IfOk result (λ taken. taken ≡ in_first.Done (answered self.read time (rows_taken time self.heard []))) }
        ensures round { IfErr result (λ r. r ≡ self) }
    {
        match complete(alloc, &self.read, time, &self.heard, &[]) {
            Ok(answered) => {
                drop(self.surrender());
                Ok(FirstTaken::Done(answered))
            }
            Err(_) => Err(self),
        }
    }

    /// The second round, which asks for these rows at the time.
    fn again(self, alloc: Global, time: Time, late: Vec<LateShard>) -> SecondRound
        requires { late.items ≡ asked_again self.asked time self.heard }
        ensures { result ≡ record { read = self.read; time = time; asked = self.asked; first = self.heard; heard = [] } }
    {
        let FirstRound {
            read,
            floor: _,
            asked,
            heard,
        } = self;
        SecondRound::new(alloc, read, time, asked, heard, late)
    }
}
