//! How much is held.
ghost use Rattle.std.specs.Prelude.{◌≡◌};
ghost use Rattle.store.specs.Holdings.{held_together, no_holdings};

/// How much is held, for people who watch it: counts that stay at the greatest value of their type.
#[derive(Clone, Copy, PartialEq, Eq)]
pub struct Holdings {
    /// Rows, also those of which nothing but deletions is left.
    pub rows: u64,
    /// Versions of columns and of deletions of rows.
    pub versions: u64,
}

impl Holdings {
    /// Nothing.
    pub fn none() -> Holdings
        ensures { result ≡ no_holdings }
    {
        Holdings {
            rows: 0,
            versions: 0,
        }
    }

    /// What two hold together.
    pub fn and(self, other: Holdings) -> Holdings
        ensures { result ≡ held_together self other }
    {
        Holdings {
            rows: self.rows.saturating_add(other.rows),
            versions: self.versions.saturating_add(other.versions),
        }
    }
}
