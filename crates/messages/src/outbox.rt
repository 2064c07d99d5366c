//! Envelopes in the order of sending.
ghost use Rattle.std.specs.Prelude.{◌≡◌, ◌+◌, ◌≤◌, ◌<◌, ◌++◌, [], ◌∷◌, length, slice_get, take, drop, Some, if◌then◌else◌, is_ok, IsOk, IfErr, OnOk, OnErr};
ghost use Rattle.std.specs.Option.{option_copied};

use crate::envelope::{Envelope, Refused};
use logical_time::Fault;
use std::alloc::Global;
use std::marker::Model;

/// Envelopes in the order in which they were posted, numbered from 0.
#[derive(Drop)]
pub struct Outbox {
    envelopes: Vec<Envelope>,
}

impl Model for Outbox {
    ghost use Rattle.std.specs.Prelude.{◌-◌, vec_len, vec_capacity};
    ghost use Rattle.messages.specs.Outbox.{Posted};

    ghost Value = { Posted };

    ghost view = { λ o. record { sent = o.envelopes.items; room = vec_capacity o.envelopes - vec_len o.envelopes } };
}

impl Outbox {
    /// An outbox to which nothing was posted.
    pub fn new(alloc: Global) -> Outbox
        ensures { result.sent ≡ [] }
    {
        Outbox {
            envelopes: Vec::new(alloc),
        }
    }

    /// Makes room for so many more envelopes, so that the next `additional` posts succeed. What was posted stays.
    /// Refused with `Memory` alone.
    #[inline]
    pub fn reserve(&mut self, additional: usize) -> Result<(), Fault>
        ensures same { self.new.sent ≡ self.old.sent }
        ensures ok { OnOk result (additional ≤ self.new.room) }
        // it takes no memory where there is room
        ensures succeeds { additional ≤ self.old.room → IsOk result }
        ensures room { self.old.room ≤ self.new.room }
        ensures memory { IfErr result (λ e. e ≡ Fault.Memory) }
    {
        self.envelopes.reserve(additional)?;
        Ok(())
    }

    /// Adds an envelope at the end. Refused with `Memory` alone, never where there is room; then the outbox stays, and
    /// the envelope is handed back.
    #[inline]
    pub fn post(&mut self, envelope: Envelope) -> Result<(), Refused>
        ensures ok { OnOk result (self.new.sent ≡ self.old.sent ++ envelope ∷ []) }
        ensures room { self.old.room ≤ self.new.room + (if is_ok result then 1 else 0) }
        ensures succeeds { 0 < self.old.room → IsOk result }
        ensures err { OnErr result (self.new.sent ≡ self.old.sent) }
        ensures back { IfErr result (λ r. r ≡ record { fault = Fault.Memory; envelope = envelope }) }
    {
        if self.envelopes.reserve(1).is_err() {
            return Err(Refused {
                fault: Fault::Memory,
                envelope,
            });
        }
        self.envelopes.push_reserved(envelope);
        Ok(())
    }

    /// Adds envelopes at the end, in their order. There is room for them. Takes no memory.
    #[inline(always)]
    pub fn post_all(&mut self, mut envelopes: Vec<Envelope>)
        requires { length envelopes.items ≤ self.old.room }
        ensures { self.new.sent ≡ self.old.sent ++ envelopes.items }
    {
        self.envelopes.append(&mut envelopes).unwrap();
    }

    /// Takes out the envelope of this number; those after it move up. Costs what stands after it. Takes no memory.
    #[inline(always)]
    pub fn remove(&mut self, number: usize) -> Envelope
        requires { number < length self.old.sent }
        ensures value { slice_get self.old.sent number ≡ Some result }
        ensures rest { self.new.sent ≡ take number self.old.sent ++ drop (number + 1) self.old.sent }
        ensures room { self.old.room ≤ self.new.room }
    {
        self.envelopes.remove(number)
    }

    /// How many more envelopes fit without memory.
    pub fn room(&self) -> usize
        ensures { result ≡ self.now.room }
    {
        self.envelopes.capacity() - self.len()
    }

    /// How many envelopes were posted.
    pub fn len(&self) -> usize
        ensures { result ≡ length self.now.sent }
    {
        self.envelopes.len()
    }

    /// The envelope of this number, if so many were posted.
    #[inline]
    pub fn get(&self, number: usize) -> Option<&Envelope>
        ensures { option_copied result ≡ slice_get self.now.sent number }
    {
        self.envelopes.get(number)
    }

    /// The envelopes.
    pub fn as_slice(&self) -> &[Envelope]
        ensures { result.now ≡ self.now.sent }
    {
        self.envelopes.as_slice()
    }
}
