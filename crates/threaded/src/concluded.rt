//! What the journals of seats conclude.
ghost use Rattle.std.specs.Prelude.{◌≡◌, ◌<◌, ◌↔◌, true, false, Some, IfOk, IfErr, IfSome, IfNone, None};
ghost use Rattle.world.specs.Causes.{PastsAreDecided};
ghost use Rattle.world.specs.Collected.{CollectedIsBelowHorizon};
ghost use Rattle.world.specs.Entries.{TellsDecided, StampsAgree, WritesAreTold};
ghost use Rattle.world.specs.Fresh.{FirstRoundsAreWhole};
ghost use Rattle.world.specs.Quiet.{IsQuiet};
ghost use Rattle.world.specs.Promises.{EntriesAreOfSubmissions, OutcomesAreListed, ReadsShowOneTable, AnswersStay, LaterCommitsAreAbove, HistoriesGrow, ReadsShowTheirPast, MovesBringTheirPast, ReadsAreFresh, StampsFollowCauses, TimesNeverFall, HomesAreOfMoves, OperationsEndOnce};
ghost use Rattle.world.specs.Histories.{IsHistory};
ghost use Rattle.threaded.specs.OneRun.{seat_of};
ghost use Rattle.threaded.specs.Concluded.{InEachRun, InEachCut, AreConcluded, by_session};
ghost use Rattle.threaded.specs.Quiet.{AreAllReceived, AreOfQuietRun};

use crate::actor::Actor;
use crate::concluding::place_of;
use crate::entries::AllEnded;
use crate::history::history;
use crate::matching::are_served;
use actors::Seat;
use logical_time::{Fault, Node};
use messages::Topology;
use std::alloc::Global;
use std::marker::Model;
use table::History;

/// Seats whose journals are a run. There is one, and what the threads answered is what each run with these journals has: so all
/// that is promised of runs is promised of what they answered. It must be closed.
pub struct Concluded {
    topology: Topology,
    seats: Vec<Seat<Actor>>,
}

impl Model for Concluded {
    ghost use Rattle.threaded.specs.Concluded.{ConcludedValue, AreConcluded};

    ghost Value = { ConcludedValue };

    ghost view = { λ c. record { top = c.topology; seats = c.seats.items } };

    ghost invariant = { λ c. AreConcluded c.topology c.seats.items };
}

impl Concluded {
    /// Seats of a topology whose journals are a run.
    pub(crate) fn new(topology: Topology, seats: Vec<Seat<Actor>>) -> Concluded
        requires { AreConcluded topology seats.items }
        ensures { result ≡ record { top = topology; seats = seats.items } }
    {
        Concluded { topology, seats }
    }

    /// Which actors there are.
    pub fn topology(&self) -> &Topology
        ensures { result.now ≡ self.now.top }
    {
        &self.topology
    }

    /// The seats, as they were given: their journals are those of a run, and the outcomes that they gave are, in order, what each
    /// such run has of their actors.
    pub fn seats(&self) -> &[Seat<Actor>]
        ensures value { result.now ≡ self.now.seats }
        ensures run { AreConcluded self.now.top self.now.seats }
    {
        self.seats.as_slice()
    }

    /// The seat of the actor with a node, if there is one.
    pub fn seat(&self, node: Node) -> Option<&Seat<Actor>>
        ensures some { IfSome result (λ s. seat_of self.now.seats node ≡ Some s.now) }
        ensures none { IfNone result (seat_of self.now.seats node ≡ None) }
    {
        let place = place_of(self.seats.as_slice(), node)?;
        Some(&self.seats[place])
    }

    /// Whether all that was sent was received, on each link: exactly then their journals are those of a quiet run, in which each
    /// message was handled, every operation ended, and all data centres have one table. Goes through each journal once, and in the
    /// order of n³ looks for n actors. Refused with `Memory` alone.
    pub fn is_quiet(&self, alloc: Global) -> Result<bool, Fault>
        ensures links { IfOk result (λ quiet. (quiet ≡ true) ↔ AreAllReceived self.now.top self.now.seats) }
        ensures quiet { IfOk result (λ quiet. quiet ≡ true → AreOfQuietRun self.now.top self.now.seats) }
        // and else no run with these journals is quiet
        ensures other { IfOk result (λ quiet. quiet ≡ false → InEachRun self.now.top self.now.seats (λ w. IsQuiet w → ⊥)) }
        ensures memory { IfErr result (λ e. e ≡ Fault.Memory) }
    {
        are_served(alloc, &self.topology, self.seats.as_slice())
    }

    /// The operations that ended, by the nodes of their sessions, each session's in order: as each run with these journals has
    /// them, of which there is one. They are lent from the seats: no memory is taken. Going through all of them goes through each
    /// session's journal once.
    pub fn transcript(&self) -> AllEnded<'_>
        ensures run { AreConcluded self.now.top self.now.seats }
        ensures listed { InEachRun self.now.top self.now.seats (λ w. result ≡ by_session self.now.top w.transcript) }
        // whatever the threads did, each read is answered with the meaning of its request on one table: the history, at its
        // effective time, of the data centre where it was submitted
        ensures one_table { InEachRun self.now.top self.now.seats (ReadsShowOneTable self.now.top) }
        // now and at each moment before
        ensures stays { InEachCut self.now.top self.now.seats (AnswersStay self.now.top) }
        // that table holds each write before the read
        ensures past { InEachRun self.now.top self.now.seats (ReadsShowTheirPast self.now.top) }
        // so does the new home of a session that moved, by the floor that the move told
        ensures arrived { InEachRun self.now.top self.now.seats (MovesBringTheirPast self.now.top) }
        // and shows nothing older than the asked shards had applied
        ensures fresh { InEachRun self.now.top self.now.seats (ReadsAreFresh self.now.top) }
        ensures whole { InEachRun self.now.top self.now.seats (FirstRoundsAreWhole self.now.top) }
        // what was committed there after a moment has a greater commit time
        ensures above { InEachCut self.now.top self.now.seats (LaterCommitsAreAbove self.now.top) }
        // a read is given up only below the horizon of a shard that it asked
        ensures given_up { InEachRun self.now.top self.now.seats (CollectedIsBelowHorizon self.now.top) }
        // each entry is of a submitted operation, each operation ends once, as its session tells it
        ensures entries { InEachRun self.now.top self.now.seats EntriesAreOfSubmissions }
        ensures outcomes { InEachRun self.now.top self.now.seats (OutcomesAreListed self.now.top) }
        ensures once { InEachRun self.now.top self.now.seats OperationsEndOnce }
        // each completed write stands in the history of its home; the times of a session never fall while it stays in one home;
        // and it changes its home by its moves alone
        ensures told { InEachRun self.now.top self.now.seats (WritesAreTold self.now.top) }
        ensures times { InEachRun self.now.top self.now.seats TimesNeverFall }
        ensures homes { InEachRun self.now.top self.now.seats (HomesAreOfMoves self.now.top) }
    {
        AllEnded::over(&self.topology, self.seats.as_slice())
    }

    /// The history of a data centre, as each run with these journals has it: by asking, for each submitted batch, the seat of its
    /// coordinator there. Session by session, in the order of submission. That there is such a data centre is the caller's
    /// condition. In the order of m log n for m submitted batches and n transactions, beside the copies, which share the bytes of
    /// keys, names and values. Refused with `Memory` alone.
    pub fn history(&self, alloc: Global, dc: u16) -> Result<History, Fault>
        requires { dc < self.now.top.dcs }
        ensures run { AreConcluded self.now.top self.now.seats }
        ensures listed { IfOk result (λ h. InEachRun self.now.top self.now.seats (λ w. IsHistory self.now.top w dc h)) }
        // an entry for each transaction that is decided there, and no other
        ensures tells { IfOk result (λ h. InEachRun self.now.top self.now.seats (λ w. TellsDecided self.now.top w dc h)) }
        // it only grew
        ensures grows { InEachCut self.now.top self.now.seats (HistoriesGrow self.now.top) }
        // a transaction has one stamp everywhere, its own; stamps follow causal order, as do commit times within a data centre
        ensures stamps { InEachRun self.now.top self.now.seats (StampsAgree self.now.top) }
        ensures causes { InEachRun self.now.top self.now.seats (StampsFollowCauses self.now.top) }
        ensures pasts { InEachRun self.now.top self.now.seats (PastsAreDecided self.now.top) }
        ensures memory { IfErr result (λ e. e ≡ Fault.Memory) }
    {
        history(alloc, self.seats.as_slice(), &self.topology, dc)
    }

    /// Ends the seats, and gives up what isn't finished.
    pub fn close(self) {
        let Concluded {
            topology: _,
            mut seats,
        } = self;
        while let Some(seat) = seats.pop() {
            actors::Machine::close(seat.close());
        }
        seats.destroy_empty();
    }

    /// The same for a program that ends with them: the memory of what they recorded is given back with that of the process.
    pub fn leave(self) {
        let Concluded {
            topology: _,
            mut seats,
        } = self;
        while let Some(seat) = seats.pop() {
            actors::Machine::close(seat.leave());
        }
        seats.destroy_empty();
    }
}
