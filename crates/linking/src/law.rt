//! A law of what is said.
ghost use Rattle.std.specs.Prelude.{◌≡◌};
ghost use Rattle.linking.specs.declared.said.Said.{Said};
ghost use Rattle.linking.specs.Said.{spelling, IsSaid, IsSame};

/// No two that are said have the same bytes. Does nothing; its contract is the law.
pub fn what_is_spelled_is_one_said()
    ensures { (s t : Said) → IsSaid s → IsSaid t → spelling s ≡ spelling t → IsSame s t }
{}
