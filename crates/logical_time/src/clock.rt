//! Lamport clocks.
ghost use Rattle.std.specs.Prelude.{◌≡◌, ◌+◌, ◌^◌, ◌≤◌, ◌↔◌, max, IfOk, OnErr, IsErrOf, IfErr};

use crate::fault::Fault;
use crate::time::Time;
use std::marker::Model;

/// The clock of an actor (Lamport's).
#[derive(Clone, Copy, PartialEq, Eq)]
pub struct Clock {
    now: Time,
}

impl Model for Clock {
    ghost use Rattle.std.specs.Prelude.{ℕ};

    ghost Value = { ℕ };

    ghost view = { λ c. c.now };

    ghost inverse = { λ n. record { now = n } };
}

impl Clock {
    /// A clock that starts at 0.
    pub fn new() -> Clock
        ensures { result ≡ 0 }
    {
        Clock { now: Time::zero() }
    }

    /// What the clock shows.
    pub fn now(self) -> Time
        ensures { result ≡ self }
    {
        self.now
    }

    /// Moves the clock to one past the later of what it shows and the message's time, and answers that.
    /// An event without a message receives the clock's own time. Refused with `ClockSpent`, and then
    /// the clock stays.
    pub fn receive(&mut self, message: Time) -> Result<Time, Fault>
        ensures ok { IfOk result (λ t. (t ≡ max self.old message + 1) × (self.new ≡ t)) }
        ensures spent { IsErrOf result Fault.ClockSpent ↔ (2 ^ 48 ≤ max self.old message + 1) }
        ensures only { IfErr result (λ e. e ≡ Fault.ClockSpent) }
        ensures err { OnErr result (self.new ≡ self.old) }
    {
        let next = self.now.after(message)?;
        self.now = next;
        Ok(next)
    }
}
