//! Logical times.
ghost use Rattle.std.specs.Prelude.{◌≡◌, ◌+◌, ◌/◌, ◌^◌, ◌<◌, ◌≤◌, ◌↔◌, max, IfOk, IsErrOf, IfErr, SomeIff};

use crate::fault::Fault;
use std::marker::Model;

/// A logical time, from 0 to 2^48 - 1. It counts events, not seconds.
#[derive(Clone, Copy, Debug, PartialEq, Eq, PartialOrd, Ord)]
pub struct Time(u64);

impl Model for Time {
    ghost use Rattle.std.specs.Prelude.{ℕ, ◌^◌, ◌<◌};

    ghost Value = { ℕ };

    ghost view = { λ t. t.0 };

    ghost invariant = { λ t. t.0 < 2 ^ 48 };

    ghost inverse = { λ n. record { 0 = n } };
}

impl Time {
    /// The first number that is no time: 2^48.
    const END: u64 = 0x1_0000_0000_0000;

    /// The time at which every clock starts.
    pub fn zero() -> Time
        ensures { result ≡ 0 }
    {
        Time(0)
    }

    /// The time of this number, if the number is one.
    pub fn new(number: u64) -> Option<Time>
        ensures { SomeIff result (number < 2 ^ 48) number }
    {
        if number < Time::END {
            Some(Time(number))
        } else {
            None
        }
    }

    /// The time above the lowest 16 bits of a number.
    pub(crate) fn in_stamp(number: u64) -> Time
        ensures { result ≡ number / 65536 }
    {
        Time(number / 65536)
    }

    /// The number of the time.
    pub fn get(self) -> u64
        ensures value { result ≡ self }
        ensures below { result < 2 ^ 48 }
    {
        self.0
    }

    /// The time after the later of both: what a clock that shows `self` shows once it has received a
    /// message of time `other`. Refused with `ClockSpent` where that would be no time.
    pub fn after(self, other: Time) -> Result<Time, Fault>
        ensures ok { IfOk result (λ t. t ≡ max self other + 1) }
        ensures spent { IsErrOf result Fault.ClockSpent ↔ (2 ^ 48 ≤ max self other + 1) }
        ensures only { IfErr result (λ e. e ≡ Fault.ClockSpent) }
    {
        let next = self.0.max(other.0) + 1;
        if next < Time::END {
            Ok(Time(next))
        } else {
            Err(Fault::ClockSpent)
        }
    }
}
