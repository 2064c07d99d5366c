//! Worlds: every interleaving of what actors do, as a list of calls.
ghost use Rattle.std.specs.Prelude.{◌≡◌, ◌<◌, ◌+◌, ◌++◌, ◌↔◌, List, [], length, true, Some, None, IfOk, IfErr, OnOk, OnErr};
ghost use Rattle.logical_time.specs.declared.fault.Fault.TheVariants as fault;
ghost use Rattle.messages.specs.Topology.{is_shard, is_session, is_topology};
ghost use Rattle.world.specs.Run.{RunEvent, Submit, Deliver, Collect};
ghost use Rattle.world.specs.Causes.{PastsAreDecided};
ghost use Rattle.world.specs.Collected.{CollectedIsBelowHorizon};
ghost use Rattle.world.specs.Entries.{TellsDecided, StampsAgree, WritesAreTold};
ghost use Rattle.world.specs.Fresh.{FirstRoundsAreWhole};
ghost use Rattle.world.specs.Promises.{EntriesAreOfSubmissions, LaterCommitsAreAbove, OutcomesAreListed, ReadsShowOneTable, AnswersStay, ReadsShowTheirPast, MovesBringTheirPast, ReadsAreFresh, StampsFollowCauses, TimesNeverFall, HomesAreOfMoves, OperationsEndOnce, HistoriesGrow};
ghost use Rattle.world.specs.Settled.{Settled};
ghost use Rattle.world.specs.Histories.{IsHistory};
ghost use Rattle.world.specs.Quiet.{IsQuiet};
ghost use Rattle.world.specs.Lookups.{first_unhandled};
ghost use Rattle.world.specs.World.{run_of, refusal_in, Takes, IsRefusedAs};

use crate::actors::Actors;
use crate::completed::Completed;
use crate::history::history;
use crate::log::Log;
use crate::opening::{close_shards, close_stations, leave_shards, open_actors};
use logical_time::{Fault, Node, Time};
use messages::{Envelope, Op, Topology};
use std::alloc::Global;
use std::marker::Model;
use std::mem;
use table::History;

/// The actors of a topology and the network between them, moved by hand: each call is one event of one actor. It is the
/// protocol's run of its events: what it answers is what that run says. It must be closed.
pub struct World {
    actors: Actors,
    log: Log,
}

impl Model for World {
    ghost use Rattle.world.specs.World.{WorldValue};
    ghost use Rattle.world.specs.Holds.{Holds};

    ghost Value = { WorldValue };

    ghost view = { λ w. record { top = w.actors.topology; events = w.log.events.items } };

    ghost invariant = { λ w. Holds w.actors.topology w.actors w.log };
}

impl World {
    /// The actors of this topology, before their first events. Refused with `Memory` alone.
    pub fn new(alloc: Global, topology: &Topology) -> Result<World, Fault>
        ensures made { IfOk result (λ w. w ≡ record { top = topology.now; events = [] }) }
        ensures memory { IfErr result (λ e. e ≡ Fault.Memory) }
    {
        let actors = open_actors(alloc, topology)?;
        Ok(World {
            actors,
            log: Log::new(alloc),
        })
    }

    /// A session submits an operation; the answer is its number among the session's operations, from 1. That the node is a
    /// session's is the caller's condition. In the order of m log m for m mutations or keys, with the dependencies that a
    /// batch or a move takes along; a move of a session that depends on nothing ends at once. Refused with `Busy` while another
    /// operation is open, then as `plan_batch` and `plan_read` refuse it and a move with `UnknownHome` and `AlreadyHome`, then
    /// with `ClockSpent`, and with `Memory`; then nothing changes, and the operation is handed back.
    #[tactic(auto, using(crate::proofs::in_code::Held::submission_holds, crate::proofs::in_code::Held::still_holds, crate::proofs::in_code::Held::still_logged, crate::proofs::in_code::Held::takes, crate::proofs::in_code::Held::station_from, crate::proofs::in_code::Held::station_below))]
    pub fn submit(&mut self, session: Node, op: Op) -> Result<u64, (Fault, Op)>
        requires { is_session self.old.top session ≡ true }
        ensures number { IfOk result (λ n. n ≡ ((run_of self.old).sessions session).count + 1) }
        ensures taken { OnOk result (Takes self.old (Submit session op) self.new) }
        ensures refused { IfErr result (λ e. IsRefusedAs (refusal_in self.old (Submit session op)) e.0) }
        ensures same { OnErr result (self.new ≡ self.old) }
        ensures back { IfErr result (λ e. e.1 ≡ op) }
    {
        let (kept, told, batch) = match self.log.make_room_for_submission(&op) {
            Ok(copies) => copies,
            Err(_) => return Err((self.actors.submission_without_memory(session, &op), op)),
        };
        let number = self.actors.submit(session, op, kept)?;
        self.log.add_submission(session, number, told, batch);
        Ok(number)
    }

    /// A message is delivered, for the first time or again. That one of this number was sent is the caller's condition.
    /// Costs what the actor's event does, and a mark for each message before it that has none yet: each message gets its
    /// mark once in a run. Refused with `ClockSpent` where the clock of its actor would leave its range, and with `Memory`;
    /// then nothing changes.
    #[tactic(auto, using(crate::proofs::in_code::Held::delivery_holds, crate::proofs::in_code::Held::still_holds, crate::proofs::in_code::Held::still_logged, crate::proofs::in_code::Held::takes, crate::proofs::in_code::Held::addressed, crate::proofs::in_code::Held::sent_number))]
    pub fn deliver(&mut self, number: usize) -> Result<(), Fault>
        requires { number < length (run_of self.old).sent }
        ensures taken { OnOk result (Takes self.old (Deliver number) self.new) }
        ensures refused { IfErr result (IsRefusedAs (refusal_in self.old (Deliver number))) }
        ensures same { OnErr result (self.new ≡ self.old) }
    {
        if self.log.make_room_for_delivery(number).is_err() {
            return Err(self.actors.delivery_without_memory(number));
        }
        self.actors.deliver(number)?;
        self.log.add_delivery(number);
        Ok(())
    }

    /// A shard collects up to a time. That the node is a shard's is the caller's condition. Refused with `ClockSpent` where
    /// its clock would leave its range, and with `Memory`; then nothing changes.
    #[tactic(auto, using(crate::proofs::in_code::Held::collection_holds, crate::proofs::in_code::Held::still_holds, crate::proofs::in_code::Held::still_logged, crate::proofs::in_code::Held::takes, crate::proofs::in_code::Held::shard_place))]
    pub fn collect(&mut self, shard: Node, time: Time) -> Result<(), Fault>
        requires { is_shard self.old.top shard ≡ true }
        ensures taken { OnOk result (Takes self.old (Collect shard time) self.new) }
        ensures refused { IfErr result (IsRefusedAs (refusal_in self.old (Collect shard time))) }
        ensures same { OnErr result (self.new ≡ self.old) }
    {
        if self.log.make_room_for_collection().is_err() {
            return Err(self.actors.collection_without_memory(shard, time));
        }
        self.actors.collect(shard, time)?;
        self.log.add_collection(shard, time);
        Ok(())
    }

    /// What a shard's clock shows. That the node is a shard's is the caller's condition.
    #[tactic(auto, using(crate::proofs::in_code::Held::told_clock, crate::proofs::in_code::Held::shard_place))]
    pub fn clock_of(&self, shard: Node) -> Time
        requires { is_shard self.now.top shard ≡ true }
        ensures { result ≡ ((run_of self.now).shards shard).clock }
    {
        self.actors.clock_of(shard).now()
    }

    /// Which actors there are.
    #[tactic(auto, using(crate::proofs::in_code::Held::told_topology))]
    pub fn topology(&self) -> &Topology
        ensures value { result.now ≡ self.now.top }
        ensures limits { is_topology self.now.top.dcs self.now.top.shards self.now.top.homes ≡ true }
    {
        &self.actors.topology
    }

    /// How many messages were sent: they are numbered from 0.
    #[tactic(auto, using(crate::proofs::in_code::Held::told_sent))]
    pub fn sent(&self) -> usize
        ensures { result ≡ length (run_of self.now).sent }
    {
        self.actors.network.len()
    }

    /// The messages, in the order of sending.
    #[tactic(auto, using(crate::proofs::in_code::Held::told_sent))]
    pub fn messages(&self) -> &[Envelope]
        ensures { result.now ≡ (run_of self.now).sent }
    {
        self.actors.network.as_slice()
    }

    /// The number of the first message that wasn't delivered, if one wasn't. Takes no search.
    #[tactic(auto, using(crate::proofs::in_code::Held::first_found))]
    pub fn first_unhandled(&self) -> Option<usize>
        ensures exact { result ≡ first_unhandled (run_of self.now) }
        // without one, every operation has its outcome, every write is committed everywhere, and all tables are equal
        ensures done { result ≡ None → Settled self.now.top (run_of self.now) }
    {
        let first = self.log.delivered.first();
        if first < self.sent() {
            Some(first)
        } else {
            None
        }
    }

    /// Whether each message that was sent was delivered.
    #[tactic(auto, using(crate::proofs::in_code::Held::told_quiet))]
    pub fn is_quiet(&self) -> bool
        ensures exact { (result ≡ true) ↔ IsQuiet (run_of self.now) }
        ensures done { result ≡ true → Settled self.now.top (run_of self.now) }
    {
        match self.first_unhandled() {
            Some(_) => false,
            None => true,
        }
    }

    /// The operations that ended, in order.
    #[tactic(auto, using(crate::proofs::in_code::Held::told_transcript, crate::proofs::promised::Promised::is_of, crate::proofs::promised::Promised::one_table, crate::proofs::promised::Promised::stays, crate::proofs::promised::Promised::past, crate::proofs::promised::Promised::fresh, crate::proofs::promised::Promised::whole, crate::proofs::promised::Promised::above, crate::proofs::promised::Promised::given_up, crate::proofs::promised::Promised::entries, crate::proofs::promised::Promised::outcomes, crate::proofs::promised::Promised::once, crate::proofs::promised::Promised::told, crate::proofs::promised::Promised::times))]
    pub fn transcript(&self) -> &[Completed]
        ensures listed { result.now ≡ (run_of self.now).transcript }
        // each read is answered with the meaning of its request on one table: its home's history at its effective time
        ensures one_table { ReadsShowOneTable self.now.top (run_of self.now) }
        // now and whenever the world was looked at before
        ensures stays { (before after : List RunEvent) → self.now.events ≡ before ++ after → AnswersStay self.now.top before after }
        // that table holds each write before the read, and nothing older than the asked shards had applied
        ensures past { ReadsShowTheirPast self.now.top (run_of self.now) }
        ensures fresh { ReadsAreFresh self.now.top (run_of self.now) }
        // each write before a move is committed in the new home by the floor that the move told
        ensures arrived { MovesBringTheirPast self.now.top (run_of self.now) }
        ensures whole { FirstRoundsAreWhole self.now.top (run_of self.now) }
        // what is committed there later has a greater commit time
        ensures above { (before after : List RunEvent) → self.now.events ≡ before ++ after → LaterCommitsAreAbove self.now.top before after }
        // a read is given up only below the horizon of a shard that it asked
        ensures given_up { CollectedIsBelowHorizon self.now.top (run_of self.now) }
        // each entry is of a submitted operation, each operation ends once, as its session tells it
        ensures entries { EntriesAreOfSubmissions (run_of self.now) }
        ensures outcomes { OutcomesAreListed self.now.top (run_of self.now) }
        ensures once { OperationsEndOnce (run_of self.now) }
        // each completed write stands in the history of its home; the times of a session never fall while it stays in one home,
        // and its homes are those of its moves
        ensures told { WritesAreTold self.now.top (run_of self.now) }
        ensures times { TimesNeverFall (run_of self.now) }
        ensures homes { HomesAreOfMoves self.now.top (run_of self.now) }
    {
        self.actors.transcript.as_slice()
    }

    /// The history of a data centre: an entry for each submitted batch that its coordinator there has decided, in the order of
    /// submission. That there is such a data centre is the caller's condition. In the order of m log n for m submitted
    /// batches and n transactions, beside the copies, which share the bytes of keys, names and values. Refused with
    /// `Memory` alone.
    #[tactic(auto, using(crate::proofs::promised::Promised::is_of, crate::proofs::promised::Promised::tells, crate::proofs::promised::Promised::grows, crate::proofs::promised::Promised::stamps, crate::proofs::promised::Promised::causes, crate::proofs::promised::Promised::pasts))]
    pub fn history(&self, alloc: Global, dc: u16) -> Result<History, Fault>
        requires { dc < self.now.top.dcs }
        ensures listed { IfOk result (λ h. IsHistory self.now.top (run_of self.now) dc h) }
        // an entry for each transaction that is decided there, and no other
        ensures tells { IfOk result (λ h. TellsDecided self.now.top (run_of self.now) dc h) }
        // it only grew
        ensures grows { (before after : List RunEvent) → self.now.events ≡ before ++ after → HistoriesGrow self.now.top before after }
        // a transaction has one stamp everywhere, its own; stamps follow causal order, as do commit times within a data centre
        ensures stamps { StampsAgree self.now.top (run_of self.now) }
        ensures causes { StampsFollowCauses self.now.top (run_of self.now) }
        ensures pasts { PastsAreDecided self.now.top (run_of self.now) }
        ensures memory { IfErr result (λ e. e ≡ Fault.Memory) }
    {
        history(
            alloc,
            self.actors.topology.home(dc),
            self.actors.shards.as_slice(),
            self.log.writes.as_slice(),
        )
    }

    /// Ends the world, and gives up what isn't finished.
    pub fn close(self) {
        let World { actors, log: _ } = self;
        let Actors {
            topology: _,
            shards,
            stations,
            network: _,
            transcript: _,
        } = actors;
        close_shards(shards);
        close_stations(stations);
    }

    /// Ends the world for a program that ends with it, and hands out the operations that ended, in order: the memory of its
    /// events, its messages and the rows of its shards is given back with that of the process.
    #[tactic(auto, using(crate::proofs::in_code::Held::told_transcript))]
    pub fn leave(self) -> Vec<Completed>
        ensures { result.items ≡ (run_of self).transcript }
    {
        let World { actors, log } = self;
        let Actors {
            topology: _,
            shards,
            stations,
            network,
            transcript,
        } = actors;
        mem::forget(log);
        mem::forget(network);
        leave_shards(shards);
        close_stations(stations);
        transcript
    }
}
