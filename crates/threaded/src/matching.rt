//! Whether what seats received is what seats sent.
ghost use Rattle.std.specs.Prelude.{◌≡◌, ◌<◌, ◌≤◌, ◌+◌, ◌^◌, ◌↔◌, ℕ, true, false, length, take, slice_get, set, Some, IfOk, OnOk, IfErr};
ghost use Rattle.logical_time.specs.declared.fault.Fault.TheVariants.{Memory};
ghost use Rattle.messages.specs.Topology.{node_count};
ghost use Rattle.actors.specs.Journals.{followed_by};
ghost use Rattle.actors.specs.Seats.{through};
ghost use Rattle.threaded.specs.OneRun.{AreOfTopology, AreSeatsOf};
ghost use Rattle.threaded.specs.Matching.{AreKept, AreAllTimed, ArePlaces, DoesReceive, DoReceive, AreFromActors, HaveReceived, IsNextOn};
ghost use Rattle.threaded.specs.Quiet.{HaveCounted, IsKeptAt, IsWhollyReceived, AreWhollyReceived, AreReceivedOf, AreAllServed};

use crate::actor::Actor;
use crate::concluding::place_of;
use actors::Seat;
use equality::same_envelope;
use logical_time::{Fault, Node};
use messages::{ActorEvent, Envelope, Topology};
use std::alloc::Global;

/// Whether all that each seat sent carries the clocks of its events. Looks at each seat once.
pub(crate) fn are_timed(seats: &[Seat<Actor>], places: &[usize]) -> bool
    requires { ArePlaces (length places.now) seats.now places.now }
    ensures timed { (result ≡ true) ↔ AreAllTimed (length places.now) seats.now }
    ensures kept { AreKept (length places.now) seats.now }
{
    let mut timed = true;
    for node in 0..places.len() {
        let seat = &seats[places[node]];
        let _kept = seat.journal();
        timed = timed & seat.is_timed();
    }
    timed
}

/// No envelope was received from any of so many actors. Refused with `Memory` alone.
fn none_received(alloc: Global, count: usize) -> Result<Vec<usize>, Fault>
    ensures ok { IfOk result (λ received. (length received.items ≡ count) × ((from n : ℕ) → slice_get received.items from ≡ Some n → n ≡ 0)) }
    ensures memory { IfErr result (λ e. e ≡ Memory) }
{
    let mut received = Vec::new(alloc);
    for made in 0..count {
        received.push(0)?;
    }
    Ok(received)
}

/// Whether the envelope is the next one on its link to an actor, where so many were received on each. Then it's counted.
fn counts(
    seats: &[Seat<Actor>],
    places: &[usize],
    to: Node,
    received: &mut Vec<usize>,
    envelope: &Envelope,
) -> bool
    requires places { ArePlaces (length places.now) seats.now places.now }
    requires sender { envelope.now.from < length places.now }
    requires links { length received.old.items ≡ length places.now }
    requires fits { (n : ℕ) → slice_get received.old.items envelope.now.from ≡ Some n → n + 1 < 2 ^ 64 }
    ensures next { result ≡ true → IsNextOn seats.now to received.old.items envelope.now }
    ensures counted { result ≡ true → (n : ℕ) → slice_get received.old.items envelope.now.from ≡ Some n → received.new.items ≡ set received.old.items envelope.now.from (n + 1) }
    ensures other { result ≡ false → IsNextOn seats.now to received.old.items envelope.now → ⊥ }
{
    let from = usize::from(envelope.from.get());
    match seats[places[from]].sent_to(to, received[from]) {
        Some(sent) if same_envelope(sent, envelope) => {
            received[from] += 1;
            true
        }
        _ => false,
    }
}

/// Whether the event at this place of an actor's journal is no receipt, or the next one on its link. Then it's counted.
#[tactic(auto, using(crate::proofs::Matched::next_received, crate::proofs::Matched::own_event, crate::proofs::Matched::not_next))]
fn is_next(
    seats: &[Seat<Actor>],
    places: &[usize],
    to: Node,
    received: &mut Vec<usize>,
    journal: &[ActorEvent],
    place: usize,
) -> bool
    requires place { place < length journal.now }
    requires fits { length journal.now < 2 ^ 64 }
    requires places { ArePlaces (length places.now) seats.now places.now }
    requires senders { AreFromActors (length places.now) journal.now }
    requires received { HaveReceived (length places.now) seats.now to (take place journal.now) received.old.items }
    ensures next { result ≡ true → HaveReceived (length places.now) seats.now to (take (place + 1) journal.now) received.new.items }
    ensures other { result ≡ false → DoesReceive (length places.now) seats.now to journal.now → ⊥ }
{
    match &journal[place] {
        ActorEvent::Handle(envelope) => counts(seats, places, to, received, envelope),
        ActorEvent::Submit(_) | ActorEvent::Collect(_) => true,
    }
}

/// Whether on each link to an actor the receipts of its journal are a beginning of what the sender's seat sent there.
/// Refused with `Memory` alone. Costs a look at the ways of the sender for each receipt.
fn receives(
    alloc: Global,
    seats: &[Seat<Actor>],
    places: &[usize],
    to: Node,
    journal: &[ActorEvent],
) -> Result<bool, Fault>
    requires places { ArePlaces (length places.now) seats.now places.now }
    requires senders { AreFromActors (length places.now) journal.now }
    ensures ok { IfOk result (λ does. (does ≡ true) ↔ DoesReceive (length places.now) seats.now to journal.now) }
    ensures memory { IfErr result (λ e. e ≡ Memory) }
{
    let mut received = none_received(alloc, places.len())?;
    for place in 0..journal.len() {
        if !is_next(seats, places, to, &mut received, journal, place) {
            return Ok(false);
        }
    }
    Ok(true)
}

/// Whether on each link between the actors of a topology the receipts are a beginning of what was sent. Refused with `Memory`
/// alone.
pub(crate) fn do_receive(
    alloc: Global,
    topology: &Topology,
    seats: &[Seat<Actor>],
    places: &[usize],
) -> Result<bool, Fault>
    requires places { ArePlaces (node_count topology.now) seats.now places.now }
    requires topology { AreOfTopology topology.now seats.now }
    ensures ok { IfOk result (λ all. (all ≡ true) ↔ DoReceive (node_count topology.now) seats.now) }
    ensures memory { IfErr result (λ e. e ≡ Memory) }
{
    for node in 0..topology.node_count() {
        let to = Node::new(node);
        let journal = seats[places[usize::from(node)]].journal();
        let does = receives(alloc, seats, places, to, journal)?;
        if !does {
            return Ok(false);
        }
    }
    Ok(true)
}

/// Counts one more envelope from the actor with this node.
fn count_from(received: &mut Vec<usize>, node: Node)
    requires within { node < length received.old.items }
    requires fits { (n : ℕ) → slice_get received.old.items node ≡ Some n → n + 1 < 2 ^ 64 }
    ensures { (n : ℕ) → slice_get received.old.items node ≡ Some n → received.new.items ≡ set received.old.items node (n + 1) }
{
    let from = usize::from(node.get());
    received[from] += 1;
}

/// Counts the event at this place of a journal, if it is a receipt.
fn count_receipt(received: &mut Vec<usize>, journal: &[ActorEvent], place: usize)
    requires place { place < length journal.now }
    requires fits { length journal.now < 2 ^ 64 }
    requires senders { AreFromActors (length received.old.items) journal.now }
    requires counted { HaveCounted (length received.old.items) (take place journal.now) received.old.items }
    ensures { HaveCounted (length received.old.items) (take (place + 1) journal.now) received.new.items }
{
    match &journal[place] {
        ActorEvent::Handle(envelope) => count_from(received, envelope.from),
        ActorEvent::Submit(_) | ActorEvent::Collect(_) => return,
    }
}

/// How many envelopes a journal received from each of so many actors. Refused with `Memory` alone.
fn receipts_of(alloc: Global, count: usize, journal: &[ActorEvent]) -> Result<Vec<usize>, Fault>
    requires { AreFromActors count journal.now }
    ensures ok { IfOk result (λ received. HaveCounted count journal.now received.items) }
    ensures memory { IfErr result (λ e. e ≡ Memory) }
{
    let mut received = none_received(alloc, count)?;
    for place in 0..journal.len() {
        count_receipt(&mut received, journal, place);
    }
    Ok(received)
}

/// Whether a seat sent no more envelopes to an actor than so many.
fn sends_no_more(seat: &Seat<Actor>, to: Node, count: usize) -> bool
    ensures { (result ≡ true) ↔ (length (followed_by (through seat.now.outgoing) seat.now.outbox to) ≤ count) }
{
    match seat.sent_to(to, count) {
        Some(_) => false,
        None => true,
    }
}

/// Whether an actor's seat sent no more envelopes to another actor than so many.
fn is_all(seats: &[Seat<Actor>], from: Node, to: Node, count: usize) -> bool
    ensures { (result ≡ true) ↔ IsWhollyReceived seats.now from to count }
{
    match place_of(seats, from) {
        Some(place) => sends_no_more(&seats[place], to, count),
        None => true,
    }
}

/// Whether the seats of so many actors sent no more envelopes to another actor than so many each.
fn are_all(seats: &[Seat<Actor>], count: u16, to: Node, received: &[usize]) -> bool
    requires { length received.now ≡ count }
    ensures { (result ≡ true) ↔ AreWhollyReceived seats.now count to received.now }
{
    for from in 0..count {
        let at = usize::from(from);
        let all = is_all(seats, Node::new(from), to, received[at]);
        if !all {
            return false;
        }
    }
    true
}

/// Whether the actor with this node received all that was sent to it. Refused with `Memory` alone.
fn is_served(
    alloc: Global,
    topology: &Topology,
    seats: &[Seat<Actor>],
    to: Node,
) -> Result<bool, Fault>
    requires seats { AreSeatsOf topology.now seats.now }
    requires node { to < node_count topology.now }
    ensures ok { IfOk result (λ all. (all ≡ true) ↔ AreReceivedOf (node_count topology.now) seats.now to) }
    ensures kept { OnOk result (IsKeptAt seats.now to) }
    ensures memory { IfErr result (λ e. e ≡ Memory) }
{
    let Some(place) = place_of(seats, to) else {
        unreachable!()
    };
    let journal = seats[place].journal();
    let count = topology.node_count();
    let received = receipts_of(alloc, usize::from(count), journal)?;
    Ok(are_all(seats, count, to, received.as_slice()))
}

/// Whether each actor of a topology received all that was sent to it. Looks at each event once, and at each link. Refused with
/// `Memory` alone.
pub(crate) fn are_served(
    alloc: Global,
    topology: &Topology,
    seats: &[Seat<Actor>],
) -> Result<bool, Fault>
    requires { AreSeatsOf topology.now seats.now }
    ensures ok { IfOk result (λ all. (all ≡ true) ↔ AreAllServed (node_count topology.now) seats.now) }
    ensures kept { OnOk result (AreKept (node_count topology.now) seats.now) }
    ensures memory { IfErr result (λ e. e ≡ Memory) }
{
    let mut all = true;
    for node in 0..topology.node_count() {
        let served = is_served(alloc, topology, seats, Node::new(node))?;
        all = all & served;
    }
    Ok(all)
}
