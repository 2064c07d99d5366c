//! The ends of rings where an actor takes envelopes.
ghost use Rattle.std.specs.Prelude.{◌≡◌, ◌≤◌, ◌<◌, ◌⊎◌, ℕ, List, All, length, slice_get, None, IsSome, IfSome, IfNone};
ghost use Rattle.messages.specs.declared.event.ActorEvent.{ActorEvent};
ghost use Rattle.actors.specs.Seats.{IsApart, Received, sources_of};
ghost use Rattle.actors.specs.Resting.{WasEmpty};
ghost use Rattle.actors.specs.Looking.{WereEmpty, IsFound, IsFoundInTurn};

use crate::recorded::let_go_envelope;
use links::InLink;
use messages::Envelope;
use std::mem;

/// Takes an envelope from the first of these rings that has one, from the place `first` up to the place `end`; `next` is then
/// the place after that ring.
fn poll(incoming: &mut Vec<InLink>, first: usize, end: usize, next: &mut usize) -> Option<Envelope>
    requires { end ≤ length incoming.old.items }
    ensures sources { sources_of incoming.new.items ≡ sources_of incoming.old.items }
    ensures received { (journal : List ActorEvent) → IsApart (sources_of incoming.old.items) → Received journal incoming.old.items None → Received journal incoming.new.items result }
    ensures found { IfSome result (λ e. IsFound incoming.new.items first end next.new e) }
    ensures none { IfNone result (WereEmpty incoming.new.items first end × (next.new ≡ next.old)) }
    ensures others { (k : ℕ) → (k < first) ⊎ (end ≤ k) → slice_get incoming.new.items k ≡ slice_get incoming.old.items k }
{
    for place in first..end {
        let link = &mut incoming[place];
        if !link.is_empty() {
            *next = place + 1;
            return link.pop();
        }
    }
    None
}

/// Takes an envelope from the rings, looking at them in turn from the place `next` on, which then is the one after the ring
/// that had it. Costs the number of rings. Takes no memory.
fn take_next(incoming: &mut Vec<InLink>, next: &mut usize) -> Option<Envelope>
    ensures sources { sources_of incoming.new.items ≡ sources_of incoming.old.items }
    ensures received { (journal : List ActorEvent) → IsApart (sources_of incoming.old.items) → Received journal incoming.old.items None → Received journal incoming.new.items result }
    ensures found { IfSome result (λ e. IsFoundInTurn incoming.new.items next.old next.new e) }
    ensures none { IfNone result (All WasEmpty incoming.new.items × (next.new ≡ next.old)) }
{
    let count = incoming.len();
    let start = (*next).min(count);
    match poll(incoming, start, count, next) {
        Some(envelope) => Some(envelope),
        None => poll(incoming, 0, start, next),
    }
}

/// Holds this envelope, if it is one, in place of another.
pub fn hold(held: &mut Option<Envelope>, envelope: Option<Envelope>)
    ensures { held.new ≡ envelope }
{
    if let Some(before) = mem::replace(held, envelope) {
        let_go_envelope(before);
    }
}

/// Takes the next envelope from the rings, if none is held.
pub fn refill(held: &mut Option<Envelope>, incoming: &mut Vec<InLink>, next: &mut usize)
    ensures sources { sources_of incoming.new.items ≡ sources_of incoming.old.items }
    ensures received { (journal : List ActorEvent) → IsApart (sources_of incoming.old.items) → Received journal incoming.old.items held.old → Received journal incoming.new.items held.new }
    ensures found { held.old ≡ None → IfSome held.new (λ e. IsFoundInTurn incoming.new.items next.old next.new e) }
    ensures none { held.new ≡ None → All WasEmpty incoming.new.items × (next.new ≡ next.old) }
    ensures held { IsSome held.old → (held.new ≡ held.old) × (next.new ≡ next.old) }
{
    if held.is_none() {
        let taken = take_next(incoming, next);
        hold(held, taken);
    }
}
