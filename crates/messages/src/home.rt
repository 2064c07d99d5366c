//! The shards of a data centre.
ghost use Rattle.std.specs.Prelude.{◌≡◌, ◌+◌, ◌*◌, ◌<◌, ◌≤◌};

use logical_time::{Node, Shard, Shards};
use std::marker::Model;

/// A data centre, as its shards see it: they are nodes in a row.
#[derive(Clone, Copy)]
pub struct Home {
    dc: u16,
    shards: Shards,
}

impl Model for Home {
    ghost use Rattle.std.specs.Prelude.{◌<◌};
    ghost use Rattle.messages.specs.Home.{HomeValue};

    ghost Value = { HomeValue };

    ghost view = { λ h. record { dc = h.dc; shards = h.shards } };

    ghost invariant = { λ h. h.dc < 4 };

    ghost inverse = { λ h. record { dc = h.dc; shards = h.shards } };
}

// How many shards there are in so many data centres.
pub(crate) fn product(dcs: u16, shards: Shards) -> u16
    requires { dcs ≤ 4 }
    ensures value { result ≡ dcs * shards }
    ensures limit { result ≤ 32 }
{
    dcs * shards.get()
}

impl Home {
    // The data centre of this number, with so many shards.
    pub(crate) fn new(dc: u16, shards: Shards) -> Home
        requires { dc < 4 }
        ensures { result ≡ record { dc = dc; shards = shards } }
    {
        Home { dc, shards }
    }

    /// The number of the data centre.
    pub fn dc(self) -> u16
        ensures value { result ≡ self.dc }
        ensures below { result < 4 }
    {
        self.dc
    }

    /// How many shards it has.
    pub fn shards(self) -> Shards
        ensures { result ≡ self.shards }
    {
        self.shards
    }

    /// The node of a shard. Of one that the data centre hasn't it is the node of another actor, or of none.
    pub fn node_of(self, shard: Shard) -> Node
        ensures { result ≡ self.dc * self.shards + shard }
    {
        Node::new(product(self.dc, self.shards) + shard.get())
    }
}
