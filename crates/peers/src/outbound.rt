//! The sender's end of a link.
ghost use Rattle.std.specs.Prelude.{◌≡◌, ◌⊎◌, ◌+◌, ◌-◌, ◌<◌, ◌≤◌, ◌^◌, [], map, length, drop, Ok, Err, IfOk, OnOk, OnErr, IfErr, option_map};
ghost use Rattle.logical_time.specs.declared.fault.Fault.TheVariants.{Memory, StrangerEnd, ClockSpent};
ghost use Rattle.peers.specs.Ends.{OutboundValue, next_of, bytes_of, parcel_at, put, acknowledged};

use logical_time::Fault;
use std::alloc::Global;
use std::collections::VecDeque;
use std::marker::Model;

/// The sender's end of a one-way link: the parcels that were put and that the other end hasn't acknowledged. Each has a number,
/// in the order in which they were put, from 0 on.
#[derive(Drop)]
pub struct Outbound {
    first: u64,
    kept: VecDeque<Vec<u8>>,
    // How many bytes the parcels have.
    bytes: u64,
}

impl Model for Outbound {
    ghost use Rattle.std.specs.Prelude.{◌≡◌, ◌<◌, ◌+◌, ◌^◌, map, length};
    ghost use Rattle.peers.specs.Ends.{OutboundValue, bytes_of};

    ghost Value = { OutboundValue };

    ghost view = { λ o. record { first = o.first; kept = map (λ p. p.items) o.kept.items } };

    ghost invariant = { λ o. (o.bytes ≡ bytes_of (map (λ p. p.items) o.kept.items)) × (o.first + length o.kept.items < 2 ^ 64) };
}

// Drops the first parcel, if there is one, and counts its bytes off.
fn forget_first(kept: &mut VecDeque<Vec<u8>>, bytes: &mut u64)
    requires { bytes.old ≡ bytes_of (map (λ p. p.items) kept.old.items) }
    ensures kept { kept.new.items ≡ drop 1 kept.old.items }
    ensures bytes { bytes.new ≡ bytes_of (map (λ p. p.items) kept.new.items) }
{
    if let Some(parcel) = kept.pop_front() {
        *bytes -= parcel.len() as u64;
    }
}

// Drops so many of the first parcels, and counts their bytes off.
fn forget(kept: &mut VecDeque<Vec<u8>>, bytes: &mut u64, count: u64)
    requires { bytes.old ≡ bytes_of (map (λ p. p.items) kept.old.items) }
    ensures kept { kept.new.items ≡ drop count kept.old.items }
    ensures bytes { bytes.new ≡ bytes_of (map (λ p. p.items) kept.new.items) }
{
    let mut dropped = 0;
    while dropped < count {
        forget_first(kept, bytes);
        dropped += 1;
    }
}

impl Outbound {
    /// The end of a link over which nothing was sent.
    pub fn new(alloc: Global) -> Outbound
        ensures { result ≡ record { first = 0; kept = [] } }
    {
        Outbound {
            first: 0,
            kept: VecDeque::new(alloc),
            bytes: 0,
        }
    }

    /// The number of the first parcel that is kept, or, where none is, of the next that is put.
    pub fn first(&self) -> u64
        ensures { result ≡ self.now.first }
    {
        self.first
    }

    /// The number that the next parcel gets.
    pub fn next(&self) -> u64
        ensures { result ≡ next_of self.now }
    {
        self.first + self.kept.len() as u64
    }

    /// How many bytes the parcels have that are kept.
    pub fn bytes(&self) -> u64
        ensures { result ≡ bytes_of self.now.kept }
    {
        self.bytes
    }

    /// The parcel that is kept under this number; none where it was acknowledged, or not put yet.
    pub fn parcel(&self, number: u64) -> Option<&[u8]>
        ensures { option_map (λ p. p.now) result ≡ parcel_at self.now number }
    {
        if number < self.first {
            return None;
        }
        match self.kept.get((number - self.first) as usize) {
            Some(parcel) => Some(parcel.as_slice()),
            None => None,
        }
    }

    /// Keeps a parcel until it is acknowledged, and gives its number. Refused with `Memory`, also where 2^64 bytes would be kept,
    /// and with `ClockSpent` where all numbers up to 2^64 - 2 are given; then the end stays, and the parcel is dropped. Constant
    /// over many calls.
    pub fn put(&mut self, parcel: Vec<u8>) -> Result<u64, Fault>
        ensures number { IfOk result (λ number. number ≡ next_of self.old) }
        ensures kept { OnOk result (self.new ≡ put parcel.items self.old) }
        ensures refused { IfErr result (λ f. (f ≡ Memory) ⊎ ((f ≡ ClockSpent) × (next_of self.old ≡ 2 ^ 64 - 1))) }
        ensures spent { next_of self.old ≡ 2 ^ 64 - 1 → result ≡ Err ClockSpent }
        ensures stays { OnErr result (self.new ≡ self.old) }
    {
        let number = self.first + self.kept.len() as u64;
        if number == u64::MAX {
            return Err(Fault::ClockSpent);
        }
        let Some(bytes) = self.bytes.checked_add(parcel.len() as u64) else {
            return Err(Fault::Memory);
        };
        self.kept.push_back(parcel)?;
        self.bytes = bytes;
        Ok(number)
    }

    /// Hears that the other end took all parcels below this number: they are kept no longer. One that comes late changes nothing.
    /// Refused with `StrangerEnd` where so many weren't put, and then the end stays. Takes no memory; linear in how many are
    /// dropped.
    pub fn acknowledge(&mut self, below: u64) -> Result<(), Fault>
        ensures heard { below ≤ next_of self.old → (result ≡ Ok tt) × (self.new ≡ acknowledged below self.old) }
        ensures stranger { next_of self.old < below → (result ≡ Err StrangerEnd) × (self.new ≡ self.old) }
    {
        if below <= self.first {
            return Ok(());
        }
        let count = below - self.first;
        if count > self.kept.len() as u64 {
            return Err(Fault::StrangerEnd);
        }
        forget(&mut self.kept, &mut self.bytes, count);
        self.first = below;
        Ok(())
    }
}
