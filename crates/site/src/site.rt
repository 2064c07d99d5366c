//! The site of one data centre.
ghost use Rattle.std.specs.Prelude.{◌≡◌, ◌&&◌, ◌⊎◌, ◌++◌, ◌<◌, ◌∷◌, [], true, false, IfOk, OnOk, IfErr, OnErr, option_to_list};
ghost use Rattle.std.specs.VecDeque.{deque_len, deque_capacity};
ghost use Rattle.messages.specs.Actors.{envelope_of};
ghost use Rattle.messages.specs.Topology.{is_topology, is_session, is_shard};
ghost use Rattle.messages.specs.declared.event.ActorEvent.TheVariants.{Submit, Collect};
ghost use Rattle.site.specs.Story.{Heard};
ghost use Rattle.site.specs.Story.{is_here as keeps_actor, may_come as may_come_from};
ghost use Rattle.site.specs.Sites.{IsStory, IsSound};
ghost use Rattle.site.specs.Turns.{goes_on, clock_in, turn_of as turn_that_ended, HasDone, HasSubmitted, HasTurned, HasGiven, IsRefused, IsTurnRefused};

use crate::kept::Kept;
use crate::opening::{close_members, open_members};
use crate::past::Past;
use crate::queues::is_here;
use crate::turn::{Submitted, Turn};
use actors::Machine;
use logical_time::{Fault, Node, Time};
use messages::{ActorEvent, Envelope, Op, Outbox, Outcome, Topology};
use std::alloc::Global;
use std::collections::VecDeque;
use std::marker::Model;

/// The actors of one data centre, what waits for them, and what is to go to other sites. What happened to them is its story, which
/// only clauses see. It must be closed.
pub struct Site<M: Machine> {
    kept: Kept<M>,
    sound: bool,
    past: Past,
}

impl<M: Machine> Model for Site<M> {
    ghost use Rattle.site.specs.Sites.{SiteValue};
    ghost use Rattle.site.specs.Keeping.{Keeps};

    ghost Value = { SiteValue };

    ghost view = { λ s. record { top = s.kept.topology; dc = s.kept.dc; sound = s.sound; story = s.past } };

    ghost invariant = { λ s. Keeps M.came_from M.untaken s.kept.topology s.kept.dc s.sound s.past s.kept.members.items s.kept.inbox.items s.kept.outgoing.items s.kept.fresh.sent };
}

// Lets an operation go.
fn let_go_op(_op: Op) {}

// Lets an envelope go.
fn let_go_envelope(_envelope: Envelope) {}

// Lets an event go.
fn let_go(event: ActorEvent) {
    match event {
        ActorEvent::Submit(op) => let_go_op(op),
        ActorEvent::Handle(envelope) => let_go_envelope(envelope),
        ActorEvent::Collect(_) => {}
    }
}

// Puts the envelope of an event that was refused back to the front. There is room.
fn put_back(inbox: &mut VecDeque<Envelope>, refused: ActorEvent)
    requires { deque_len inbox.old < deque_capacity inbox.old }
    ensures { inbox.new.items ≡ option_to_list (envelope_of refused) ++ inbox.old.items }
{
    match refused {
        ActorEvent::Handle(envelope) => inbox.push_front_reserved(envelope),
        ActorEvent::Submit(op) => let_go_op(op),
        ActorEvent::Collect(_) => {}
    }
}

// What a turn answers whose event ended this.
fn turn_of(session: Node, ended: Option<(u64, Outcome)>) -> Turn
    ensures { result ≡ turn_that_ended session ended }
{
    match ended {
        None => Turn::Handled,
        Some((number, outcome)) => Turn::Ended {
            session,
            number,
            outcome,
        },
    }
}

// Whether an envelope may come from the site of another data centre.
fn may_come(topology: &Topology, dc: u16, from: u16, envelope: &Envelope) -> bool
    ensures { result ≡ may_come_from topology.now dc from envelope.now }
{
    from != dc && is_here(topology, from, envelope.from) && is_here(topology, dc, envelope.to)
}

impl<M: Machine> Site<M> {
    /// The site of a data centre of this topology before its first event, with a copy of it. Linear in the actors. Refused with
    /// `Memory` alone.
    pub fn new(alloc: Global, topology: &Topology, dc: u16) -> Result<Site<M>, Fault>
        requires { dc < topology.now.dcs }
        ensures made { IfOk result (λ s. s ≡ record { top = topology.now; dc = dc; sound = true; story = [] }) }
        ensures memory { IfErr result (λ e. e ≡ Fault.Memory) }
    {
        let copy = topology.copied()?;
        let members = open_members(alloc, topology, dc)?;
        Ok(Site {
            kept: Kept {
                topology: copy,
                dc,
                members,
                inbox: VecDeque::new(alloc),
                outgoing: VecDeque::new(alloc),
                fresh: Outbox::new(alloc),
            },
            sound: true,
            past: Past::new(),
        })
    }

    /// A session submits an operation. The answer has its number, and what its event ended: a move of a session that depends on
    /// nothing ends at once. That the node is that of a session which is here is the caller's condition. Costs what the session's
    /// event does. Refused as its machine refuses it, and with `Memory`; then the site stays. With `StrangerEnd` where the site
    /// isn't sound, or is no longer: then it should be closed.
    pub fn submit(&mut self, alloc: Global, node: Node, op: Op) -> Result<Submitted, Fault>
        requires session { is_session self.old.top node ≡ true }
        requires here { keeps_actor self.old.top self.old.dc node ≡ true }
        ensures submitted { IfOk result (λ r. HasSubmitted self.old node op r self.new) }
        ensures sound { OnOk result (self.old.sound ≡ true) }
        ensures refused { IfErr result (λ e. IsRefused M.refuses self.old node (Submit op) e self.new) }
    {
        if !self.sound {
            return Err(Fault::StrangerEnd);
        }
        self.kept.sort(alloc)?;
        match self
            .kept
            .happen(&mut self.past, node, ActorEvent::Submit(op))
        {
            Ok(happened) => {
                self.sound = happened.sound;
                if !happened.sound {
                    return Err(Fault::StrangerEnd);
                }
                let Some(number) = happened.number else {
                    unreachable!()
                };
                Ok(Submitted {
                    number,
                    ended: happened.ended,
                })
            }
            Err((fault, event)) => {
                let_go(event);
                Err(fault)
            }
        }
    }

    /// A shard collects up to a time; the answer is what its event ended, which is nothing. That the node is that of a shard which
    /// is here is the caller's condition. Costs what the shard's event does. Refused as `submit` is.
    pub fn collect(
        &mut self,
        alloc: Global,
        node: Node,
        time: Time,
    ) -> Result<Option<(u64, Outcome)>, Fault>
        requires shard { is_shard self.old.top node ≡ true }
        requires here { keeps_actor self.old.top self.old.dc node ≡ true }
        ensures collected { IfOk result (λ ended. HasDone self.old node (Collect time) ended self.new) }
        ensures sound { OnOk result (self.old.sound ≡ true) }
        ensures refused { IfErr result (λ e. IsRefused M.refuses self.old node (Collect time) e self.new) }
    {
        if !self.sound {
            return Err(Fault::StrangerEnd);
        }
        self.kept.sort(alloc)?;
        match self
            .kept
            .happen(&mut self.past, node, ActorEvent::Collect(time))
        {
            Ok(happened) => {
                self.sound = happened.sound;
                if !happened.sound {
                    return Err(Fault::StrangerEnd);
                }
                Ok(happened.ended)
            }
            Err((fault, event)) => {
                let_go(event);
                Err(fault)
            }
        }
    }

    /// The first envelope that waits, if one does, is handled by the actor for which it is. Costs what that event does: the
    /// envelope isn't copied. Refused as its machine refuses it, and with `Memory`; then the site stays, and the envelope waits
    /// first as it did: a site whose machine refuses an envelope for another reason than memory should be closed. With
    /// `StrangerEnd` where the site isn't sound, or is no longer.
    pub fn turn(&mut self, alloc: Global) -> Result<Turn, Fault>
        ensures turned { IfOk result (λ t. HasTurned self.old t self.new) }
        ensures sound { OnOk result (self.old.sound ≡ true) }
        ensures refused { IfErr result (λ e. IsTurnRefused M.refuses self.old e self.new) }
    {
        if !self.sound {
            return Err(Fault::StrangerEnd);
        }
        self.kept.sort(alloc)?;
        let Some(envelope) = self.kept.inbox.pop_front() else {
            return Ok(Turn::Idle);
        };
        let node = envelope.to;
        match self
            .kept
            .happen(&mut self.past, node, ActorEvent::Handle(envelope))
        {
            Ok(happened) => {
                self.sound = happened.sound;
                if !happened.sound {
                    return Err(Fault::StrangerEnd);
                }
                Ok(turn_of(node, happened.ended))
            }
            Err((fault, event)) => {
                put_back(&mut self.kept.inbox, event);
                Err(fault)
            }
        }
    }

    /// An envelope comes from the site of another data centre: it waits behind all that came before. Refused with `StrangerEnd`
    /// where it is from an actor that isn't there, or for one that isn't here, and where the site isn't sound, and with `Memory`;
    /// then the site stays, and the envelope is handed back.
    pub fn hear(
        &mut self,
        alloc: Global,
        from: u16,
        envelope: Envelope,
    ) -> Result<(), (Fault, Envelope)>
        ensures heard { OnOk result (self.new ≡ goes_on self.old (Heard from envelope)) }
        ensures allowed { OnOk result ((self.old.sound ≡ true) × (may_come_from self.old.top self.old.dc from envelope ≡ true)) }
        ensures same { OnErr result (self.new ≡ self.old) }
        ensures fault { IfErr result (λ e. (e.0 ≡ Fault.Memory) ⊎ ((e.0 ≡ Fault.StrangerEnd) × ((self.old.sound ≡ false) ⊎ (may_come_from self.old.top self.old.dc from envelope ≡ false)))) }
        ensures back { IfErr result (λ e. e.1 ≡ envelope) }
    {
        if !self.sound || !may_come(&self.kept.topology, self.kept.dc, from, &envelope) {
            return Err((Fault::StrangerEnd, envelope));
        }
        if self.kept.sort(alloc).is_err() || self.kept.inbox.reserve(1).is_err() {
            return Err((Fault::Memory, envelope));
        }
        self.past.add_receipt(from, &envelope);
        self.kept.inbox.push_back_reserved(envelope);
        Ok(())
    }

    /// The next envelope that is to go to another site, given to the way there; none where all that was sent there was given.
    /// Refused with `StrangerEnd` where the site isn't sound, and with `Memory`; then it stays.
    pub fn give(&mut self, alloc: Global) -> Result<Option<Envelope>, Fault>
        ensures given { IfOk result (λ e. HasGiven self.old e self.new) }
        ensures sound { OnOk result (self.old.sound ≡ true) }
        ensures same { OnErr result (self.new ≡ self.old) }
        ensures fault { IfErr result (λ e. (e ≡ Fault.Memory) ⊎ ((e ≡ Fault.StrangerEnd) × (self.old.sound ≡ false))) }
    {
        if !self.sound {
            return Err(Fault::StrangerEnd);
        }
        self.kept.sort(alloc)?;
        match self.kept.outgoing.pop_front() {
            Some(envelope) => {
                self.past.add_gift(&envelope);
                Ok(Some(envelope))
            }
            None => Ok(None),
        }
    }

    /// Whether each envelope that its actors sent is from them, and carries the clock of its event: so it is in each run. In any case
    /// the story is that of a site.
    pub fn is_sound(&self) -> bool
        ensures value { result ≡ self.now.sound }
        ensures story { IsStory M.came_from M.untaken self.now.top self.now.dc self.now.story }
        ensures sound { result ≡ true → IsSound M.came_from M.untaken self.now.top self.now.dc self.now.story }
    {
        self.sound
    }

    /// Which actors there are.
    pub fn topology(&self) -> &Topology
        ensures value { result.now ≡ self.now.top }
        ensures limits { is_topology self.now.top.dcs self.now.top.shards self.now.top.homes ≡ true }
    {
        &self.kept.topology
    }

    /// The data centre of which it is the site.
    pub fn dc(&self) -> u16
        ensures value { result ≡ self.now.dc }
        ensures there { result < self.now.top.dcs }
    {
        self.kept.dc
    }

    /// Whether the node is that of a session which is here.
    pub fn has_session(&self, node: Node) -> bool
        ensures { result ≡ (is_session self.now.top node && keeps_actor self.now.top self.now.dc node) }
    {
        self.kept.topology.session_of(node).is_some()
            && is_here(&self.kept.topology, self.kept.dc, node)
    }

    /// The clock of an actor, by its events alone, and 2^48 where that is above. That it is here is the caller's condition.
    pub fn clock_of(&self, node: Node) -> u64
        requires { keeps_actor self.now.top self.now.dc node ≡ true }
        ensures { result ≡ clock_in self.now.story node }
    {
        match &self.kept.members[usize::from(node.get())] {
            Some(member) => member.clock,
            None => unreachable!(),
        }
    }

    /// Ends the site, and gives up what isn't finished.
    pub fn close(self) {
        let Site {
            kept,
            sound: _,
            past: _,
        } = self;
        let Kept {
            topology: _,
            dc: _,
            members,
            inbox: _,
            outgoing: _,
            fresh: _,
        } = kept;
        close_members(members);
    }
}
