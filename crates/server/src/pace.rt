//! When shards collect.
use crate::timer::millis_of;
use std::time::{Clock, Duration, Instant};

/// How many requests come between two collections, at least.
const REQUESTS: u64 = 1024;

/// How many times as long as a collection took passes before the next one, at least.
const SHARE: u32 = 16;

/// What was asked since shards collected last, and until when they wait: so a collection looks at what many requests left, and
/// collections take a seventeenth of the time at most, however many rows they look at.
#[derive(Drop)]
pub(crate) struct Pace {
    asked: u64,
    until: Option<Instant>,
    // How long the longest collection took that wasn't told.
    longest: Duration,
}

impl Pace {
    /// Nothing was asked.
    pub(crate) fn new() -> Pace {
        Pace {
            asked: 0,
            until: None,
            longest: Duration::ZERO,
        }
    }

    /// So many more requests were asked.
    pub(crate) fn add(&mut self, asked: u64) {
        self.asked = self.asked.saturating_add(asked);
    }

    /// Whether shards may collect again. A clock that fails makes nobody wait.
    pub(crate) fn is_due<C: Clock>(&self, clock: &C) -> bool {
        if self.asked < REQUESTS {
            return false;
        }
        match (self.until, Instant::now(clock)) {
            (Some(until), Ok(now)) => until <= now,
            _ => true,
        }
    }

    /// Shards collected, and began at this time, if the clock told one.
    pub(crate) fn rest<C: Clock>(&mut self, clock: &C, began: Option<Instant>) {
        self.asked = 0;
        self.until = match (began, Instant::now(clock)) {
            (Some(began), Ok(now)) => {
                let took = now.duration_since(began);
                self.longest = self.longest.max(took);
                now.checked_add(took.saturating_mul(SHARE))
            }
            _ => None,
        };
    }
    /// How long the longest collection took since this was asked last, in milliseconds.
    pub(crate) fn take_longest(&mut self) -> u64 {
        let longest = millis_of(self.longest);
        self.longest = Duration::ZERO;
        longest
    }
}
