//! Numbers of workers.
ghost use Rattle.std.specs.Prelude.{◌≡◌, ◌<◌, ◌≤◌, ◌⊎◌, IfSome, IfNone};

use std::marker::Model;

/// How many workers there are: 1 to 16.
#[derive(Drop)]
pub struct Workers {
    count: usize,
}

impl Model for Workers {
    ghost use Rattle.std.specs.Prelude.{◌<◌, ◌≤◌, ℕ};

    ghost Value = { ℕ };

    ghost view = { λ w. w.count };

    ghost invariant = { λ w. (0 < w.count) × (w.count ≤ 16) };
}

impl Workers {
    /// So many, if there may be so many.
    pub fn new(count: usize) -> Option<Workers>
        ensures some { IfSome result (λ w. w ≡ count) }
        ensures none { IfNone result ((count ≡ 0) ⊎ (16 < count)) }
    {
        if count == 0 || 16 < count {
            return None;
        }
        Some(Workers { count })
    }

    /// One alone.
    pub fn one() -> Workers
        ensures { result ≡ 1 }
    {
        Workers { count: 1 }
    }

    /// How many.
    pub fn get(&self) -> usize
        ensures value { result ≡ self.now }
        ensures within { (0 < result) × (result ≤ 16) }
    {
        self.count
    }
}
