//! The home of a session.
ghost use Rattle.std.specs.Prelude.{◌≡◌, ◌+◌, ◌*◌, ◌<◌, ◌≤◌};

use logical_time::{Node, Shard, Shards};
use std::marker::Model;

/// The home of a session: its data centre, how many there are, and how many shards each has. All that a session has to know
/// of the topology to name shards, at home and where it moves to.
#[derive(Clone, Copy)]
pub(crate) struct Home {
    dc: u16,
    dcs: u16,
    shards: Shards,
}

impl Model for Home {
    ghost use Rattle.std.specs.Prelude.{◌<◌, ◌≤◌};
    ghost use Rattle.client.specs.Home.{HomeValue};

    ghost Value = { HomeValue };

    ghost view = { λ h. record { dc = h.dc; dcs = h.dcs; shards = h.shards } };

    ghost invariant = { λ h. (h.dc < h.dcs) × (h.dcs ≤ 4) };

    ghost inverse = { λ h. record { dc = h.dc; dcs = h.dcs; shards = h.shards } };
}

impl Home {
    /// The data centre of this number, of so many with so many shards.
    pub(crate) fn new(dc: u16, dcs: u16, shards: Shards) -> Home
        requires below { dc < dcs }
        requires limit { dcs ≤ 4 }
        ensures { result ≡ record { dc = dc; dcs = dcs; shards = shards } }
    {
        Home { dc, dcs, shards }
    }

    /// The number of the data centre.
    pub(crate) fn dc(self) -> u16
        ensures { result ≡ self.dc }
    {
        self.dc
    }

    /// How many data centres there are.
    pub(crate) fn dcs(self) -> u16
        ensures { result ≡ self.dcs }
    {
        self.dcs
    }

    /// How many shards each has.
    pub(crate) fn shards(self) -> Shards
        ensures { result ≡ self.shards }
    {
        self.shards
    }

    /// The home after a move to the data centre of this number.
    pub(crate) fn moved(self, dc: u16) -> Home
        requires { dc < self.dcs }
        ensures { result ≡ record self { dc = dc } }
    {
        Home { dc, ..self }
    }

    /// The node of a shard at home. Of one that the data centre hasn't it is the node of another actor, or of none.
    pub(crate) fn node_of(self, shard: Shard) -> Node
        ensures { result ≡ self.dc * self.shards + shard }
    {
        Node::new(self.dc * self.shards.get() + shard.get())
    }
}
