//! Machines in their seats.
ghost use Rattle.std.specs.Prelude.{◌≡◌, ◌≤◌, ◌<◌, ◌++◌, ◌∷◌, [], ◌==◌, ◌&&◌, ◌⊎◌, length, None, List, All, true, false, IsSome, IfSome, slice_get, IfOk, OnOk, IfErr, OnErr};
ghost use Rattle.messages.specs.declared.envelope.Envelope.{Envelope};
ghost use Rattle.messages.specs.declared.event.ActorEvent.{ActorEvent};
ghost use Rattle.messages.specs.declared.event.ActorEvent.TheVariants as event;
ghost use Rattle.messages.specs.Topology.{node_count};
ghost use Rattle.std.specs.Option.{option_copied};
ghost use Rattle.actors.specs.Journals.{submissions, number_after, followed_by, IsOwn};
ghost use Rattle.actors.specs.Machines.{GoesBy};
ghost use Rattle.actors.specs.Seats.{Keeps, rings, through, ends_of, sources_of};
ghost use Rattle.actors.specs.Resting.{unsent, IsFlushed, IsSorted, WasEmpty, HasNoEvent};
ghost use Rattle.actors.specs.Looking.{IsNext};
ghost use Rattle.actors.specs.Turns.{IsTurn, HasHandled, HasLooked, HasSame, HasDone, IsOfRequest, IsWork, turn_of};
ghost use Rattle.actors.specs.Refusals.{IsRefusal, IsFirst, CanRefuse};
ghost use Rattle.actors.specs.Opening.{AreItsRings, new_seat};

use crate::incoming;
use crate::machine::Machine;
use crate::recorded::{Recorded, envelope_in, let_go, let_go_envelope, op_of};
use crate::turn::{Turn, is_of_request};
use crate::ways::Ways;
use links::{Ends, InLink};
use logical_time::{Fault, Node, Time};
use messages::{ActorEvent, Envelope, Op, Outbox, Outcome, Topology};
use std::alloc::Global;
use std::collections::VecDeque;
use std::marker::Model;
use std::mem;

/// A machine with its journal, its backlog and its ends of the rings. It must be closed.
pub struct Seat<M: Machine> {
    topology: Topology,
    node: Node,
    recorded: Recorded<M>,
    refusals: Vec<(u64, Fault)>,
    backlog: VecDeque<ActorEvent>,
    outgoing: Ways,
    incoming: Vec<InLink>,
    next: usize,
    held: Option<Envelope>,
}

impl<M: Machine> Model for Seat<M> {
    ghost use Rattle.std.specs.Prelude.{◌++◌};
    ghost use Rattle.actors.specs.Seats.{SeatValue, Keeps};

    ghost Value = { SeatValue };

    ghost view = { λ s. record { topology = s.topology; node = s.node; limit = s.recorded.limit; free = M.is_free s.recorded.machine; journal = s.recorded.journal.items; outcomes = s.recorded.outcomes.items; accepted = s.recorded.accepted; clock = s.recorded.clock; timed = s.recorded.timed; refusals = s.refusals.items; backlog = s.backlog.items; outgoing = s.outgoing; outbox = s.recorded.outbox.sent ++ s.recorded.fresh.sent; incoming = s.incoming.items; next = s.next; held = s.held } };

    ghost invariant = { λ s. Keeps M.came_from M.untaken s.recorded.machine (record { topology = s.topology; node = s.node; limit = s.recorded.limit; free = M.is_free s.recorded.machine; journal = s.recorded.journal.items; outcomes = s.recorded.outcomes.items; accepted = s.recorded.accepted; clock = s.recorded.clock; timed = s.recorded.timed; refusals = s.refusals.items; backlog = s.backlog.items; outgoing = s.outgoing; outbox = s.recorded.outbox.sent ++ s.recorded.fresh.sent; incoming = s.incoming.items; next = s.next; held = s.held }) };
}

/// What a turn answers whose event of the backlog got this number.
fn done(number: Option<u64>) -> Turn
    ensures { result ≡ turn_of number }
{
    match number {
        Some(number) => Turn::Submitted(number),
        None => Turn::Collected,
    }
}

impl<M: Machine> Seat<M> {
    /// The seat of the actor with a node, with all its rings, before its first event, free for an operation. Its journal
    /// may hold so many events.
    /// Refused with `Memory` alone.
    pub fn new(
        alloc: Global,
        topology: &Topology,
        node: Node,
        ends: Ends,
        limit: usize,
    ) -> Result<Seat<M>, Fault>
        requires node { node < node_count topology.now }
        requires rings { AreItsRings topology.now node ends }
        ensures ok { IfOk result (λ s. s ≡ new_seat topology.now node limit ends.outgoing.items ends.incoming.items) }
        ensures memory { IfErr result (λ e. e ≡ Fault.Memory) }
    {
        let topology = topology.copied()?;
        let Ends { outgoing, incoming } = ends;
        let outgoing = Ways::over(alloc, outgoing)?;
        let recorded = Recorded::new(alloc, &topology, node, limit)?;
        Ok(Seat {
            topology,
            node,
            recorded,
            refusals: Vec::new(alloc),
            backlog: VecDeque::new(alloc),
            outgoing,
            incoming,
            next: 0,
            held: None,
        })
    }

    /// Which actors there are.
    pub fn topology(&self) -> &Topology
        ensures { result.now ≡ self.now.topology }
    {
        &self.topology
    }

    /// The node of its actor.
    pub fn node(&self) -> Node
        ensures { result ≡ self.now.node }
    {
        self.node
    }

    /// Its events, oldest first. The machine came from them, what they sent is on its way, and what was received is in them;
    /// the seat is free where the machine is.
    pub fn journal(&self) -> &[ActorEvent]
        ensures value { result.now ≡ self.now.journal }
        ensures keeps { (machine : M) × Keeps M.came_from M.untaken machine self.now × (self.now.free ≡ M.is_free machine) }
    {
        self.recorded.journal.as_slice()
    }

    /// The outcomes that its events gave, each with the number of its operation, oldest first.
    pub fn outcomes(&self) -> &[(u64, Outcome)]
        ensures { result.now ≡ self.now.outcomes }
    {
        self.recorded.outcomes.as_slice()
    }

    /// The operations of the backlog that were refused for what they ask, oldest first: how many were accepted before, and
    /// the refusal.
    pub fn refusals(&self) -> &[(u64, Fault)]
        ensures { result.now ≡ self.now.refusals }
    {
        self.refusals.as_slice()
    }

    /// Its machine.
    pub fn machine(&self) -> &M
        ensures { Keeps M.came_from M.untaken result.now self.now }
    {
        &self.recorded.machine
    }

    /// Whether each envelope that its events sent carries the clock of its event, by the events alone.
    pub fn is_timed(&self) -> bool
        ensures { result ≡ self.now.timed }
    {
        self.recorded.timed
    }

    /// The envelope of this number, from 0, among all that was sent to an actor, if there are so many. Costs a look at the
    /// ways, and at what is on none yet.
    #[tactic(auto, using(crate::proofs::Sent::by_way, crate::proofs::Sent::not_by_way))]
    pub fn sent_to(&self, to: Node, number: usize) -> Option<&Envelope>
        ensures { option_copied result ≡ slice_get (followed_by (through self.now.outgoing) self.now.outbox to) number }
    {
        let gone = self.outgoing.sent_through(to);
        if number < gone.len() {
            return Some(&gone[number]);
        }
        self.recorded.unsent_to(to, number - gone.len())
    }

    /// Whether its machine is free for an operation.
    pub fn is_free(&self) -> bool
        ensures { result ≡ self.now.free }
    {
        self.recorded.machine.free()
    }

    /// Whether nothing of its own is left to do: its machine is free, and its backlog is empty.
    pub fn is_done(&self) -> bool
        ensures { result ≡ ((length self.now.backlog == 0) && self.now.free) }
    {
        self.backlog.is_empty() && self.is_free()
    }

    /// Adds events to the backlog, in their order. That no message brings them is the caller's condition. One that isn't of
    /// the actor's kind is refused at its turn, as the machine refuses it, and stays unless it is refused for what it asks.
    /// Refused with `Memory` alone, and then nothing changes, and they are handed back.
    pub fn load(&mut self, events: Vec<ActorEvent>) -> Result<(), (Fault, Vec<ActorEvent>)>
        requires { All IsOwn events.items }
        ensures ok { OnOk result (self.new ≡ record self.old { backlog = self.old.backlog ++ events.items }) }
        ensures err { OnErr result (self.new ≡ self.old) }
        ensures back { IfErr result (λ e. (e.0 ≡ Fault.Memory) × (e.1.items ≡ events.items)) }
    {
        let mut more = VecDeque::from_vec(events);
        match self.backlog.append(&mut more) {
            Ok(()) => {
                more.destroy_empty();
                Ok(())
            }
            Err(_) => Err((Fault::Memory, more.into_vec())),
        }
    }

    /// The machine accepts an operation, and answers its number. Refused with `JournalFull` before all else where the
    /// journal is full, with `Memory`, and as the machine refuses it; then nothing changes, and the operation is handed
    /// back.
    pub fn submit(&mut self, op: Op) -> Result<u64, (Fault, Op)>
        ensures ok { OnOk result (HasDone (event.Submit op) self.old self.new) }
        ensures number { IfOk result (λ number. number ≡ submissions self.new.journal) }
        ensures backlog { self.new.backlog ≡ self.old.backlog }
        ensures err { OnErr result (self.new ≡ self.old) }
        ensures full { self.old.limit ≤ length self.old.journal → IfErr result (λ e. e.0 ≡ Fault.JournalFull) }
        ensures refused { IfErr result (λ e. IsRefusal M.refuses self.old (event.Submit op) e.0) }
        ensures back { IfErr result (λ e. e.1 ≡ op) }
    {
        match self.own(ActorEvent::Submit(op)) {
            Ok(Some(number)) => Ok(number),
            Ok(None) => unreachable!(),
            Err((fault, event)) => match op_of(event) {
                Some(op) => Err((fault, op)),
                None => unreachable!(),
            },
        }
    }

    /// The machine collects up to a time. Refused with `JournalFull` before all else where the journal is full, with
    /// `Memory`, and as the machine refuses it; then nothing changes.
    pub fn collect(&mut self, time: Time) -> Result<(), Fault>
        ensures ok { OnOk result (HasDone (event.Collect time) self.old self.new) }
        ensures backlog { self.new.backlog ≡ self.old.backlog }
        ensures err { OnErr result (self.new ≡ self.old) }
        ensures full { self.old.limit ≤ length self.old.journal → IfErr result (λ e. e ≡ Fault.JournalFull) }
        ensures refused { IfErr result (IsRefusal M.refuses self.old (event.Collect time)) }
    {
        match self.own(ActorEvent::Collect(time)) {
            Ok(_) => Ok(()),
            Err((fault, event)) => {
                let_go(event);
                Err(fault)
            }
        }
    }

    /// Does an event that no message brings. Refused as `Recorded::happen` refuses it.
    fn own(&mut self, event: ActorEvent) -> Result<Option<u64>, (Fault, ActorEvent)>
        requires { IsOwn event }
        ensures ok { OnOk result (HasDone event self.old self.new) }
        ensures number { IfOk result (λ number. number ≡ number_after self.old.journal event) }
        ensures same { (self.new.backlog ≡ self.old.backlog) × (self.new.held ≡ self.old.held) }
        ensures accepted { self.new.accepted ≡ submissions self.new.journal }
        ensures err { OnErr result (self.new ≡ self.old) }
        ensures full { self.old.limit ≤ length self.old.journal → IfErr result (λ e. e.0 ≡ Fault.JournalFull) }
        ensures refused { IfErr result (λ e. IsRefusal M.refuses self.old event e.0) }
        ensures back { IfErr result (λ e. e.1 ≡ event) }
    {
        self.recorded.happen(event)
    }

    /// Moves what waits into the rings, each ring's in order; a full ring holds back its own alone. Whether an envelope
    /// went into a ring. Refused with `Memory` alone.
    fn flush(&mut self) -> Result<bool, Fault>
        ensures same { self.new ≡ record self.old { outgoing = self.new.outgoing; outbox = self.new.outbox } }
        ensures ends { ends_of self.new.outgoing ≡ ends_of self.old.outgoing }
        ensures still { IfOk result (λ moved. moved ≡ false → (rings self.new.outgoing ≡ rings self.old.outgoing) × (unsent self.new ≡ unsent self.old)) }
        ensures fewer { IfOk result (λ moved. moved ≡ true → unsent self.new < unsent self.old) }
        ensures sorted { OnOk result (IsSorted self.new.outgoing self.new.outbox) }
        ensures flushed { OnOk result (All IsFlushed self.new.outgoing) }
        ensures memory { IfErr result (λ e. e ≡ Fault.Memory) }
    {
        self.recorded.absorb()?;
        self.outgoing.sort(&mut self.recorded.outbox)?;
        self.outgoing.flush()
    }

    /// Takes an envelope from a ring, if none is held back.
    fn take_in(&mut self)
        ensures same { self.new ≡ record self.old { incoming = self.new.incoming; next = self.new.next; held = self.new.held } }
        ensures sources { sources_of self.new.incoming ≡ sources_of self.old.incoming }
        ensures looked { self.new.held ≡ None → All WasEmpty self.new.incoming × (self.new.next ≡ self.old.next) }
        ensures next { IfSome self.new.held (λ e. IsNext self.old self.new e) }
    {
        incoming::refill(&mut self.held, &mut self.incoming, &mut self.next);
    }

    /// Handles the envelope that is held, or goes on holding it back.
    fn handle(&mut self) -> Result<(), Fault>
        requires { IsSome self.old.held }
        ensures ok { OnOk result (HasHandled self.old self.new) }
        ensures event { IfSome self.old.held (λ e. OnOk result (self.new.journal ≡ self.old.journal ++ event.Handle e ∷ [])) }
        ensures rings { (self.new.incoming ≡ self.old.incoming) × (self.new.next ≡ self.old.next) × (self.new.outgoing ≡ self.old.outgoing) }
        ensures err { OnErr result (self.new ≡ self.old) }
        ensures full { self.old.limit ≤ length self.old.journal → IfErr result (λ e. e ≡ Fault.JournalFull) }
        ensures refused { IfSome self.old.held (λ e. IfErr result (IsRefusal M.refuses self.old (event.Handle e))) }
    {
        let Some(envelope) = self.held.take() else {
            unreachable!()
        };
        match self.recorded.happen(ActorEvent::Handle(envelope)) {
            Ok(_) => Ok(()),
            Err((fault, event)) => {
                incoming::hold(&mut self.held, envelope_in(event));
                Err(fault)
            }
        }
    }

    /// Does the first item of the backlog. Where it is refused for what it asks, it is taken off; else it stays.
    fn work(&mut self) -> Result<Turn, Fault>
        requires some { 0 < length self.old.backlog }
        requires free { self.old.free ≡ true }
        ensures ok { IfOk result (λ turn. IsTurn M.refuses turn self.old self.new) }
        ensures work { IfOk result IsWork }
        ensures rings { (self.new.incoming ≡ self.old.incoming) × (self.new.held ≡ self.old.held) × (self.new.next ≡ self.old.next) × (self.new.outgoing ≡ self.old.outgoing) }
        ensures err { OnErr result (self.new ≡ self.old) }
        ensures full { self.old.limit ≤ length self.old.journal → IfErr result (λ e. e ≡ Fault.JournalFull) }
        ensures refused { (event : ActorEvent) → IsFirst self.old event
            → IfErr result (λ fault. (fault ≡ Fault.Memory) ⊎ (IsRefusal M.refuses self.old event fault × (IsOfRequest fault → ⊥))) }
    {
        let Some(event) = self.backlog.pop_front() else {
            unreachable!()
        };
        match self.recorded.happen(event) {
            Ok(number) => Ok(done(number)),
            Err((fault, event)) if !is_of_request(fault) => {
                self.backlog.push_front_reserved(event);
                Err(fault)
            }
            Err((fault, event)) => match self.refusals.reserve(1) {
                Ok(()) => {
                    self.refusals.push_reserved((self.recorded.accepted, fault));
                    let_go(event);
                    Ok(Turn::Refused(fault))
                }
                Err(_) => {
                    self.backlog.push_front_reserved(event);
                    Err(Fault::Memory)
                }
            },
        }
    }

    /// Whether there is an event to do for which the journal has no room.
    fn is_stuck(&self) -> bool
        ensures stuck { result ≡ true → (self.now.limit ≤ length self.now.journal) × (IsSome self.now.held ⊎ ((0 < length self.now.backlog) × (self.now.free ≡ true))) }
        ensures other { result ≡ false → self.now.limit ≤ length self.now.journal → (self.now.held ≡ None) × ((self.now.backlog ≡ []) ⊎ (self.now.free ≡ false)) }
    {
        if self.recorded.journal.len() < self.recorded.limit {
            return false;
        }
        self.held.is_some() || (!self.backlog.is_empty() && self.is_free())
    }

    /// Moves what waits into the rings, each ring's in order; a full ring holds back its own alone. Then handles one envelope
    /// if one is there, looking at the rings in turn; else does the first item of the backlog, if the machine is free. An
    /// envelope that was refused is the next one to be handled. Refused with `JournalFull` before all else where there is
    /// an event to do and the journal is full, also where there is no memory to move what waits; with `Memory`; and as the
    /// machine refuses the event, but not for what an item of the backlog asks. Then waiting sends may have moved. Costs what
    /// its event costs, the look at the rings, and what goes into them.
    pub fn turn(&mut self) -> Result<Turn, Fault>
        ensures ok { IfOk result (λ turn. IsTurn M.refuses turn self.old self.new) }
        ensures looked { IfOk result (λ turn. HasLooked turn self.old self.new) }
        // what waited moved before the event
        ensures flushed { OnOk result (All IsFlushed self.new.outgoing) }
        ensures err { OnErr result (HasSame self.old self.new) }
        // a full journal refuses each event before all else: there is no other refusal but where none is to be done
        ensures full { self.old.limit ≤ length self.old.journal → IfErr result (λ e. (e ≡ Fault.JournalFull) ⊎ ((e ≡ Fault.Memory) × HasNoEvent self.new)) }
        ensures refused { IfErr result (λ fault. CanRefuse M.refuses fault self.new) }
    {
        let moved = self.flush();
        self.take_in();
        if self.is_stuck() {
            return Err(Fault::JournalFull);
        }
        let moved = moved?;
        if self.held.is_some() {
            self.handle()?;
            return Ok(Turn::Handled);
        }
        if !self.backlog.is_empty() && self.is_free() {
            return self.work();
        }
        Ok(if moved { Turn::Moved } else { Turn::Idle })
    }

    /// Its machine, the ways of what it sent, and its journal.
    fn ended(self) -> (M, Ways, Vec<ActorEvent>)
        ensures came { (sent : List Envelope) × GoesBy (through self.outgoing) self.outbox sent × M.came_from self.topology self.node self.journal sent self.outcomes result.0 }
        ensures taken { M.untaken result.0 ≡ None }
        ensures free { M.is_free result.0 ≡ self.free }
    {
        let Seat {
            topology: _,
            node: _,
            recorded,
            refusals: _,
            backlog: _,
            outgoing,
            incoming: _,
            next: _,
            held,
        } = self;
        if let Some(envelope) = held {
            let_go_envelope(envelope);
        }
        let (machine, journal) = recorded.close();
        (machine, outgoing, journal)
    }

    /// Ends the seat, and hands back its machine.
    pub fn close(self) -> M
        ensures came { (sent : List Envelope) × GoesBy (through self.outgoing) self.outbox sent × M.came_from self.topology self.node self.journal sent self.outcomes result }
        ensures taken { M.untaken result ≡ None }
        ensures free { M.is_free result ≡ self.free }
    {
        let (machine, _sent, _journal) = self.ended();
        machine
    }

    /// The same for a program that ends with it: the memory of its journal and of what it sent is given back with that of the
    /// process, which spares a walk through all of it.
    pub fn leave(self) -> M
        ensures came { (sent : List Envelope) × GoesBy (through self.outgoing) self.outbox sent × M.came_from self.topology self.node self.journal sent self.outcomes result }
        ensures taken { M.untaken result ≡ None }
        ensures free { M.is_free result ≡ self.free }
    {
        let (machine, sent, journal) = self.ended();
        mem::forget(sent);
        mem::forget(journal);
        machine
    }
}
