//! What a server tells of itself, each so often.
use store::Holdings;

/// What a server serves and holds. Counts stay at the greatest value of their type.
#[derive(Clone, Copy)]
pub struct Report {
    /// How many connections stand at places.
    pub open: u64,
    /// How many connections were given a place.
    pub accepted: u64,
    /// How many requests were asked in a second, on average since the last report, or since the server began.
    pub rate: u64,
    /// How many rows and versions the shards of all data centres hold.
    pub held: Holdings,
    /// How many bytes of replies wait for their clients.
    pub waiting: u64,
    /// How long the longest collection took since the last report, in milliseconds.
    pub longest: u64,
}

/// When a report is due, and what was asked since the last one.
#[derive(Drop)]
pub(crate) struct Reporter {
    // How many milliseconds are between two reports; none where none is asked for.
    period: Option<u64>,
    // When the last one was made.
    last: u64,
    asked: u64,
}

impl Reporter {
    /// One that never reports.
    pub(crate) fn new() -> Reporter {
        Reporter {
            period: None,
            last: 0,
            asked: 0,
        }
    }

    /// The same, which reports each so many milliseconds.
    pub(crate) fn each(self, period: u64) -> Reporter {
        Reporter {
            period: Some(period),
            ..self
        }
    }

    /// So many more requests were asked.
    pub(crate) fn add(&mut self, asked: u64) {
        self.asked = self.asked.saturating_add(asked);
    }

    /// Whether a report is due at this time, in milliseconds.
    pub(crate) fn is_due(&self, time: u64) -> bool {
        match self.period {
            Some(period) => time.saturating_sub(self.last) >= period,
            None => false,
        }
    }

    /// How many requests were asked in a second since the last report, which this one follows.
    pub(crate) fn take_rate(&mut self, time: u64) -> u64 {
        let millis = time.saturating_sub(self.last).max(1);
        let rate = self.asked.saturating_mul(1000) / millis;
        self.last = time;
        self.asked = 0;
        rate
    }
}
