//! What time it is.
use std::time::{Clock, Duration, Instant};

/// Counts the time since it was first asked.
#[derive(Drop)]
pub(crate) struct Timer {
    began: Option<Instant>,
}

/// How many milliseconds a duration has.
pub(crate) fn millis_of(duration: Duration) -> u64 {
    let millis = u64::from(duration.subsec_millis());
    duration
        .as_secs()
        .saturating_mul(1000)
        .saturating_add(millis)
}

impl Timer {
    /// It wasn't asked yet.
    pub(crate) fn new() -> Timer {
        Timer { began: None }
    }

    /// How many milliseconds have gone since it was first asked. 0 where the clock fails, as at the beginning: then nobody seems
    /// to have been silent for long.
    pub(crate) fn millis<C: Clock>(&mut self, clock: &C) -> u64 {
        let Ok(now) = Instant::now(clock) else {
            return 0;
        };
        let began = self.began.unwrap_or(now);
        self.began = Some(began);
        millis_of(now.duration_since(began))
    }
}
