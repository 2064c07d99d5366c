//! The receiver's end of a link.
ghost use Rattle.std.specs.Prelude.{◌≡◌, ◌<◌, ◌+◌, ◌-◌, ◌^◌, true, false, Ok, Err};
ghost use Rattle.logical_time.specs.declared.fault.Fault.TheVariants.{StrangerEnd, ClockSpent};

use logical_time::Fault;
use std::marker::Model;

/// The receiver's end of a one-way link: the number of the parcel that it wants next. Contracts see that number.
#[derive(Drop)]
pub struct Inbound {
    next: u64,
}

impl Model for Inbound {
    ghost use Rattle.std.specs.Prelude.{ℕ};

    ghost Value = { ℕ };

    ghost view = { λ i. i.next };
}

impl Inbound {
    /// The end of a link from which so many parcels were taken.
    pub fn after(taken: u64) -> Inbound
        ensures { result ≡ taken }
    {
        Inbound { next: taken }
    }

    /// The number of the parcel that it wants next: all below it were taken.
    pub fn next(&self) -> u64
        ensures { result ≡ self.now }
    {
        self.next
    }

    /// Whether the parcel with this number, which came, is to be taken now: `false` where it was taken before. Refused with
    /// `StrangerEnd` where one before it hasn't come, and with `ClockSpent` at the greatest number, which no parcel has; then
    /// the end stays.
    pub fn take(&mut self, number: u64) -> Result<bool, Fault>
        ensures wanted { number ≡ self.old → number < 2 ^ 64 - 1 → (result ≡ Ok true) × (self.new ≡ self.old + 1) }
        ensures before { number < self.old → (result ≡ Ok false) × (self.new ≡ self.old) }
        ensures gap { self.old < number → (result ≡ Err StrangerEnd) × (self.new ≡ self.old) }
        ensures spent { number ≡ self.old → number ≡ 2 ^ 64 - 1 → (result ≡ Err ClockSpent) × (self.new ≡ self.old) }
    {
        if number < self.next {
            return Ok(false);
        }
        if number > self.next {
            return Err(Fault::StrangerEnd);
        }
        let Some(next) = self.next.checked_add(1) else {
            return Err(Fault::ClockSpent);
        };
        self.next = next;
        Ok(true)
    }
}
