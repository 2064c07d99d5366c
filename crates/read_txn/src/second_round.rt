//! The second round of a read.
ghost use Rattle.std.specs.Prelude.{◌≡◌, ◌<◌, List, [], ◌∷◌, ◌++◌, length};
ghost use Rattle.messages.specs.Session.{HeardAt};

use crate::answered::Answered;
use crate::asking::{all_heard_at, is_missing_at};
use crate::completing::complete;
use crate::first_round::FirstRound;
use crate::heard::{ShardAt, ShardNow};
use crate::late::LateShard;
use logical_time::{Fault, Node, Time};
use messages::{AtTime, RowsAt, RowsNow};
use slice::Read;
use std::alloc::Global;
use std::marker::Model;

/// The second round of a read. It must be spent: each shard that is asked again is heard, or the session is closed.
pub struct SecondRound {
    read: Read,
    time: Time,
    asked: Vec<Node>,
    first: Vec<ShardNow>,
    late: Vec<LateShard>,
    heard: Vec<ShardAt>,
}

impl Model for SecondRound {
    ghost use Rattle.std.specs.Prelude.{◌≡◌};
    ghost use Rattle.read_txn.specs.States.{Second, asked_again};

    ghost Value = { Second };

    ghost view = { λ r. record { read = r.read; time = r.time; asked = r.asked.items; first = r.first.items; heard = r.heard.items } };

    ghost invariant = { λ r. r.late.items ≡ asked_again r.asked.items r.time r.first.items };
}

/// Takes the last answer out and hands its rows out.
fn take_last(heard: &mut Vec<ShardAt>) -> RowsAt
    requires { 0 < length heard.old.items }
    ensures rest { (before : List HeardAt) (last : HeardAt) → heard.old.items ≡ before ++ last ∷ [] → heard.new.items ≡ before }
    ensures rows { (before : List HeardAt) (last : HeardAt) → heard.old.items ≡ before ++ last ∷ [] → result ≡ last.rows }
{
    match heard.pop() {
        Some(answer) => answer.into_rows(),
        None => unreachable!(),
    }
}

/// What an answer makes of a second round.
pub enum SecondTaken {
    /// More shards are to answer.
    More(SecondRound),
    /// The read is complete.
    Done(Answered),
    /// The read has ended without an answer: a shard no longer has the versions of the effective time.
    Collected,
}

impl SecondRound {
    ghost use Rattle.std.specs.Prelude.{◌≡◌, ◌<◌, false, List, [], ◌∷◌, ◌++◌, length, IsOk, IfOk, IfErr};
    ghost use Rattle.messages.specs.Session.{HeardNow, HeardAt};
    ghost use Rattle.messages.specs.declared.rows_at.AtTime.TheVariants as at;
    ghost use Rattle.read_txn.specs.States.{asked_again};
    ghost use Rattle.messages.specs.Rounds.{rows_taken};
    ghost use Rattle.read_txn.specs.Completed.{answered};
    ghost use Rattle.read_txn.specs.Taken.{second_taken, is_awaited, taken_at, heard_at as after_answer};
    ghost use Rattle.read_txn.specs.declared.second_round.SecondTaken.TheVariants as in_second;

    /// The second round of a read at a time, after these answers of the first, which leave these shards to be asked.
    pub(crate) fn new(
        alloc: Global,
        read: Read,
        time: Time,
        asked: Vec<Node>,
        first: Vec<ShardNow>,
        late: Vec<LateShard>,
    ) -> SecondRound
        requires { late.items ≡ asked_again asked.items time first.items }
        ensures { result ≡ record { read = read; time = time; asked = asked.items; first = first.items; heard = [] } }
    {
        SecondRound {
            read,
            time,
            asked,
            first,
            late,
            heard: Vec::new(alloc),
        }
    }

    /// What is read.
    pub fn read(&self) -> &Read
        ensures { result.now ≡ self.now.read }
    {
        &self.read
    }

    /// The effective time, at which the late rows are read.
    pub fn time(&self) -> Time
        ensures { result ≡ self.now.time }
    {
        self.time
    }

    /// What is asked: of each shard with a row that wasn't accepted the keys of these rows, ascending by shard.
    pub fn asks(&self) -> &[LateShard]
        ensures { result.now ≡ asked_again self.now.asked self.now.time self.now.first }
    {
        self.late.as_slice()
    }

    /// Takes the answer of a shard. A stranger's, or the second of a shard, changes nothing; an awaited `Collected` ends
    /// the read, and the last awaited rows complete it. In the order of m log m for m rows, once all have answered.
    /// Refused with `Memory` alone; then the round and the answer are handed back.
    pub fn take(
        self,
        from: Node,
        answer: AtTime,
    ) -> Result<SecondTaken, (Fault, SecondRound, AtTime)>
        ensures exact { IfOk result (λ taken. taken ≡ second_taken self from answer) }
        ensures unasked { is_awaited self from ≡ false → IsOk result }
        ensures collected { answer ≡ at.Collected → IsOk result }
        ensures memory { IfErr result (λ e. e.0 ≡ Fault.Memory) }
        ensures round { IfErr result (λ e. e.1 ≡ self) }
        ensures answer { IfErr result (λ e. e.2 ≡ answer) }
    {
        if !self.awaits(from) {
            return Ok(SecondTaken::More(self));
        }
        self.take_awaited(from, answer)
    }

    /// Goes back to the first round, of this floor, as it was before its last answer, and hands the rows of that out: for
    /// an event that is refused after it.
    pub fn back(self, floor: Time) -> (FirstRound, RowsNow)
        requires { 0 < length self.first }
        ensures round { (heard : List HeardNow) (last : HeardNow) → self.first ≡ heard ++ last ∷ [] → result.0 ≡ record { read = self.read; floor = floor; asked = self.asked; heard = heard } }
        ensures rows { (heard : List HeardNow) (last : HeardNow) → self.first ≡ heard ++ last ∷ [] → result.1 ≡ last.rows }
    {
        let SecondRound {
            read,
            time: _,
            asked,
            first,
            late: _,
            heard: _,
        } = self;
        FirstRound::with_heard(read, floor, asked, first).without_last()
    }

    /// Gives the round up and hands out what was read: for a session that is closed.
    pub fn surrender(self) -> Read
        ensures { result ≡ self.read }
    {
        let SecondRound {
            read,
            time: _,
            asked: _,
            first: _,
            late: _,
            heard: _,
        } = self;
        read
    }

    /// Whether the shard is asked and hasn't answered.
    #[tactic(auto, using(crate::proofs::AskedAgain::any_again))]
    fn awaits(&self, node: Node) -> bool
        ensures { result ≡ is_awaited self.now node }
    {
        is_missing_at(&self.late, &self.heard, node)
    }

    /// Takes an awaited answer.
    fn take_awaited(
        self,
        from: Node,
        answer: AtTime,
    ) -> Result<SecondTaken, (Fault, SecondRound, AtTime)>
        ensures exact { IfOk result (λ taken. taken ≡ taken_at answer self from) }
        ensures collected { answer ≡ at.Collected → IsOk result }
        ensures memory { IfErr result (λ e. e.0 ≡ Fault.Memory) }
        ensures round { IfErr result (λ e. e.1 ≡ self) }
        ensures answer { IfErr result (λ e. e.2 ≡ answer) }
    {
        match answer {
            AtTime::Collected => {
                drop(self.surrender());
                Ok(SecondTaken::Collected)
            }
            AtTime::Rows(rows) => self.keep(from, rows),
        }
    }

    /// Keeps rows that were awaited.
    fn keep(self, from: Node, rows: RowsAt) -> Result<SecondTaken, (Fault, SecondRound, AtTime)>
        ensures exact { IfOk result (λ taken. taken ≡ after_answer (record self { heard = self.heard ++ record { from = from; rows = rows } ∷ [] })) }
        ensures memory { IfErr result (λ e. e.0 ≡ Fault.Memory) }
        ensures round { IfErr result (λ e. e.1 ≡ self) }
        ensures answer { IfErr result (λ e. e.2 ≡ at.Rows rows) }
    {
        let mut round = self;
        if let Err(refused) = round.heard.push(ShardAt::new(from, rows)) {
            let rows = refused.value.into_rows();
            return Err((Fault::Memory, round, AtTime::Rows(rows)));
        }
        match round.after_answer() {
            Ok(taken) => Ok(taken),
            Err(round) => {
                let (round, rows) = round.without_last();
                Err((Fault::Memory, round, AtTime::Rows(rows)))
            }
        }
    }

    /// Takes the last answer back out.
    fn without_last(self) -> (SecondRound, RowsAt)
        requires { 0 < length self.heard }
        ensures round { (heard : List HeardAt) (last : HeardAt) → self.heard ≡ heard ++ last ∷ [] → result.0 ≡ record self { heard = heard } }
        ensures rows { (heard : List HeardAt) (last : HeardAt) → self.heard ≡ heard ++ last ∷ [] → result.1 ≡ last.rows }
    {
        let mut round = self;
        let rows = take_last(&mut round.heard);
        (round, rows)
    }

    /// Goes on after rows were kept. Fails by memory alone; then the round is handed back.
    #[tactic(auto, using(crate::proofs::AskedAgain::all_again))]
    fn after_answer(self) -> Result<SecondTaken, SecondRound>
        ensures exact { IfOk result (λ taken. taken ≡ after_answer self) }
        ensures round { IfErr result (λ r. r ≡ self) }
    {
        if all_heard_at(&self.late, &self.heard) {
            self.complete()
        } else {
            Ok(SecondTaken::More(self))
        }
    }

    /// Completes the read. Fails by memory alone; then the round is handed back.
    fn complete(self) -> Result<SecondTaken, SecondRound>
        ensures exact { IfOk result (λ taken. taken ≡ in_second.Done (answered self.read self.time (rows_taken self.time self.first self.heard))) }
        ensures round { IfErr result (λ r. r ≡ self) }
    {
        let alloc = *self.heard.allocator();
        match complete(alloc, &self.read, self.time, &self.first, &self.heard) {
            Ok(answered) => {
                drop(self.surrender());
                Ok(SecondTaken::Done(answered))
            }
            Err(_) => Err(self),
        }
    }
}
