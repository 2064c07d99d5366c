//! The ways from one actor to others.
ghost use Rattle.std.specs.Prelude.{◌≡◌, ◌<◌, ◌++◌, ◌∷◌, [], ◌+◌, ℕ, nat_lt, true, false, Some, All, length, take, drop, slice_get, map, IfSome, IfNone, IfOk, IfErr, OnOk, OnErr};
ghost use Rattle.std.specs.List.{list_any};
ghost use Rattle.actors.specs.Journals.{followed_by};
ghost use Rattle.actors.specs.Seats.{LaneValue, through, ends_of, rings};
ghost use Rattle.actors.specs.Opening.{new_lane, IsUnused};
ghost use Rattle.actors.specs.Ways.{has_way, IsFirstWay};
ghost use Rattle.actors.specs.Resting.{waiting_on, IsFlushed, IsSorted};

use links::OutLink;
use logical_time::{Fault, Node};
use messages::{Envelope, Outbox};
use std::alloc::Global;
use std::marker::Model;

/// The way to one actor: its ring, and all envelopes that were to go there, in order; copies of the first of them went into
/// the ring, and the others wait for a place in it.
#[derive(Drop)]
pub struct Lane {
    link: OutLink,
    sent: Vec<Envelope>,
    // How many of them went into the ring.
    gone: usize,
}

impl Model for Lane {
    ghost use Rattle.std.specs.Prelude.{◌≡◌, ◌≤◌, length, take, drop};
    ghost use Rattle.actors.specs.Seats.{LaneValue};

    ghost Value = { LaneValue };

    ghost view = { λ l. record { to = l.link.to; ring = l.link.ring; sent = l.link.sent; free = l.link.free; waiting = drop l.gone l.sent.items } };

    ghost invariant = { λ l. (l.gone ≤ length l.sent.items) × (l.link.sent ≡ take l.gone l.sent.items) };
}

impl Lane {
    /// A way on which nothing waits, over a ring into which nothing went.
    pub fn new(alloc: Global, link: OutLink) -> Lane
        requires { link.sent ≡ [] }
        ensures { result ≡ record { to = link.to; ring = link.ring; sent = link.sent; free = link.free; waiting = [] } }
    {
        Lane {
            link,
            sent: Vec::new(alloc),
            gone: 0,
        }
    }

    /// All that was to go there, in order: what went into the ring, and then what waits.
    pub fn sent(&self) -> &[Envelope]
        ensures { result.now ≡ self.now.sent ++ self.now.waiting }
    {
        self.sent.as_slice()
    }

    /// Whether something waits for the ring.
    #[tactic(auto, using(crate::proofs::Lanes::some_wait))]
    pub fn waits(&self) -> bool
        ensures { result ≡ nat_lt 0 (length self.now.waiting) }
    {
        self.gone < self.sent.len()
    }

    /// The actor to which it leads.
    pub fn to(&self) -> Node
        ensures { result ≡ self.now.to }
    {
        self.link.to()
    }

    /// Takes the envelope of this number out of an outbox, to wait for the ring. Refused with `Memory` alone, and then
    /// nothing changes.
    pub fn take(&mut self, outbox: &mut Outbox, number: usize) -> Result<(), Fault>
        requires { number < length outbox.old.sent }
        ensures to { self.new.to ≡ self.old.to }
        ensures sent { self.new.sent ≡ self.old.sent }
        ensures waiting { (e : Envelope) → slice_get outbox.old.sent number ≡ Some e → OnOk result (self.new.waiting ≡ self.old.waiting ++ e ∷ []) }
        ensures rest { OnOk result (outbox.new.sent ≡ take number outbox.old.sent ++ drop (number + 1) outbox.old.sent) }
        ensures err { OnErr result ((self.new ≡ self.old) × (outbox.new.sent ≡ outbox.old.sent)) }
        ensures memory { IfErr result (λ e. e ≡ Fault.Memory) }
    {
        self.sent.reserve(1)?;
        let envelope = outbox.remove(number);
        self.sent.push_reserved(envelope);
        Ok(())
    }

    /// Puts copies of what waits into the ring, in order, until that is full. Whether an envelope went into it. Refused with
    /// `Memory` alone, and then some may have gone.
    pub fn flush(&mut self) -> Result<bool, Fault>
        ensures to { self.new.to ≡ self.old.to }
        ensures whole { self.new.sent ++ self.new.waiting ≡ self.old.sent ++ self.old.waiting }
        ensures still { IfOk result (λ moved. moved ≡ false → (self.new.sent ≡ self.old.sent) × (self.new.waiting ≡ self.old.waiting)) }
        ensures fewer { IfOk result (λ moved. moved ≡ true → length self.new.waiting < length self.old.waiting) }
        ensures flushed { OnOk result (IsFlushed self.new) }
        ensures memory { IfErr result (λ e. e ≡ Fault.Memory) }
    {
        let mut moved = false;
        while self.gone < self.sent.len() && !self.link.is_full() {
            let copy = self.sent[self.gone].copied()?;
            self.link.push(copy).unwrap();
            self.gone += 1;
            moved = true;
        }
        Ok(moved)
    }
}

/// The ways over these rings, into which nothing went. Refused with `Memory` alone.
pub fn lanes_over(alloc: Global, links: Vec<OutLink>) -> Result<Vec<Lane>, Fault>
    requires { All IsUnused links.items }
    ensures ok { IfOk result (λ lanes. lanes.items ≡ map new_lane links.items) }
    ensures memory { IfErr result (λ e. e ≡ Fault.Memory) }
{
    let mut lanes = Vec::new(alloc);
    for link in links {
        lanes.push(Lane::new(alloc, link))?;
    }
    Ok(lanes)
}

/// The place of the way to an actor, if there is one.
fn way_to(lanes: &[Lane], to: Node) -> Option<usize>
    ensures some { IfSome result (λ place. IsFirstWay to lanes.now place) }
    ensures none { IfNone result (has_way to lanes.now ≡ false) }
{
    for place in 0..lanes.len() {
        if lanes[place].to() == to {
            return Some(place);
        }
    }
    None
}

/// All that was to go to an actor by its way, in order: nothing where none leads there.
#[tactic(auto, using(crate::proofs::Sent::through_first, crate::proofs::Sent::through_none))]
pub fn sent_through(lanes: &[Lane], to: Node) -> &[Envelope]
    ensures { result.now ≡ through lanes.now to }
{
    match way_to(lanes, to) {
        Some(place) => lanes[place].sent(),
        None => &[],
    }
}

/// Sorts what is in an outbox to the ways where it goes, in order. What goes to an actor without a way stays. Refused with
/// `Memory` alone, and then the rest stays in the outbox.
pub fn sort(outbox: &mut Outbox, lanes: &mut Vec<Lane>) -> Result<(), Fault>
    ensures ends { ends_of lanes.new.items ≡ ends_of lanes.old.items }
    ensures rings { rings lanes.new.items ≡ rings lanes.old.items }
    ensures whole { (node : ℕ) → followed_by (through lanes.new.items) outbox.new.sent node ≡ followed_by (through lanes.old.items) outbox.old.sent node }
    ensures count { waiting_on lanes.new.items + length outbox.new.sent ≡ waiting_on lanes.old.items + length outbox.old.sent }
    ensures sorted { OnOk result (IsSorted lanes.new.items outbox.new.sent) }
    ensures memory { IfErr result (λ e. e ≡ Fault.Memory) }
{
    let mut number = 0;
    while number < outbox.len() {
        let to = outbox.as_slice()[number].to;
        match way_to(lanes, to) {
            Some(place) => lanes[place].take(outbox, number)?,
            None => number += 1,
        }
    }
    Ok(())
}

/// Puts copies of what waits on each way into its ring, in order; a full ring holds back its own alone. Whether an envelope
/// went into a ring. Refused with `Memory` alone, and then some may have gone.
pub fn flush(lanes: &mut Vec<Lane>) -> Result<bool, Fault>
    ensures ends { ends_of lanes.new.items ≡ ends_of lanes.old.items }
    ensures whole { (node : ℕ) → through lanes.new.items node ≡ through lanes.old.items node }
    ensures still { IfOk result (λ moved. moved ≡ false → (rings lanes.new.items ≡ rings lanes.old.items) × (waiting_on lanes.new.items ≡ waiting_on lanes.old.items)) }
    ensures fewer { IfOk result (λ moved. moved ≡ true → waiting_on lanes.new.items < waiting_on lanes.old.items) }
    ensures flushed { OnOk result (All IsFlushed lanes.new.items) }
    ensures memory { IfErr result (λ e. e ≡ Fault.Memory) }
{
    let mut moved = false;
    for place in 0..lanes.len() {
        if lanes[place].flush()? {
            moved = true;
        }
    }
    Ok(moved)
}
