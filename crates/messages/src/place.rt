//! Where a shard stands.
ghost use Rattle.std.specs.Prelude.{◌≡◌, ◌+◌, ◌*◌, ◌<◌, ◌≤◌, ℕ, map, is_some, IfSome, IfOk, IfErr};
ghost use Rattle.messages.specs.Topology as spec;
ghost use Rattle.messages.specs.Topology.{TopologyValue};
ghost use Rattle.messages.specs.Words.{envelope, other_dcs};
ghost use Rattle.messages.specs.Place.{IsPlace, others_of};

use crate::body::Body;
use crate::envelope::Envelope;
use crate::home::Home;
use crate::topology::Topology;
use logical_time::{Fault, Node, Shard, Time};
use std::alloc::Global;
use std::marker::Model;

/// Where a shard stands: its data centre, its number there, and how many data centres there are. All that it has to know
/// of the topology to name other shards.
#[derive(Clone, Copy)]
pub struct Place {
    home: Home,
    shard: Shard,
    dcs: u16,
}

impl Model for Place {
    ghost use Rattle.std.specs.Prelude.{◌<◌, ◌≤◌};
    ghost use Rattle.messages.specs.Place.{PlaceValue};

    ghost Value = { PlaceValue };

    ghost view = { λ p. record { dc = p.home.dc; shards = p.home.shards; shard = p.shard; dcs = p.dcs } };

    ghost invariant = { λ p. (p.home.dc < p.dcs) × (p.dcs ≤ 4) × (p.shard < p.home.shards) };

    ghost inverse = { λ p. record { home = record { dc = p.dc; shards = p.shards }; shard = p.shard; dcs = p.dcs } };
}

// The shards of this number in the data centres beside one, ascending, of so many data centres.
fn nodes_beside(alloc: Global, home: Home, shard: Shard, dcs: u16) -> Result<Vec<Node>, Fault>
    requires { dcs ≤ 4 }
    ensures ok { IfOk result (λ nodes. nodes.items ≡ others_of (record { dc = home.dc; shards = home.shards; shard = shard; dcs = dcs })) }
    ensures memory { IfErr result (λ e. e ≡ Fault.Memory) }
{
    let own = home.dc();
    let mut nodes = Vec::new(alloc);
    for dc in 0..dcs {
        if dc != own {
            nodes.push(Home::new(dc, home.shards()).node_of(shard))?;
        }
    }
    Ok(nodes)
}

impl Place {
    /// The place of the shard with this node, if the node is a shard.
    pub fn new(topology: &Topology, node: Node) -> Option<Place>
        ensures some { is_some result ≡ spec.is_shard topology.now node }
        ensures place { IfSome result (λ place. IsPlace topology.now node place) }
    {
        if !topology.is_shard(node) {
            return None;
        }
        Some(Place {
            home: topology.home(topology.dc_of(node)),
            shard: topology.shard_of(node),
            dcs: topology.dcs(),
        })
    }

    /// The node of the shard.
    pub fn node(self) -> Node
        ensures value { result ≡ self.dc * self.shards + self.shard }
        ensures place { (top : TopologyValue) (me : ℕ) → IsPlace top me self → result ≡ me }
    {
        self.home.node_of(self.shard)
    }

    /// The number of the shard within its data centre.
    #[tactic(auto, using(crate::proofs::Places::shard_at_place))]
    pub fn shard(self) -> Shard
        ensures value { result ≡ self.shard }
        ensures place { (top : TopologyValue) (me : ℕ) → IsPlace top me self → result ≡ spec.shard_of top me }
    {
        self.shard
    }

    /// The node of a shard of the same data centre. Of one that the data centre hasn't it is the node of another actor,
    /// or of none.
    #[tactic(auto, using(crate::proofs::Places::near_place))]
    pub fn near(self, shard: Shard) -> Node
        ensures value { result ≡ self.dc * self.shards + shard }
        ensures place { (top : TopologyValue) (me : ℕ) → IsPlace top me self → result ≡ spec.shard_node top (spec.dc_of top me) shard }
    {
        self.home.node_of(shard)
    }

    /// An envelope from the shard to one of the same data centre.
    pub fn envelope_near(self, time: Time, shard: Shard, body: Body) -> Envelope
        ensures { (top : TopologyValue) (me : ℕ) → IsPlace top me self → result ≡ envelope me (spec.shard_node top (spec.dc_of top me) shard) time body }
    {
        Envelope {
            from: self.node(),
            to: self.near(shard),
            time,
            body,
        }
    }

    /// The nodes of the shards of the same number in the other data centres, ascending. Refused with `Memory` alone.
    #[tactic(auto, using(crate::proofs::Places::others_at_place))]
    #[inline(always)]
    pub fn others(self, alloc: Global) -> Result<Vec<Node>, Fault>
        ensures value { IfOk result (λ nodes. nodes.items ≡ others_of self) }
        ensures place { (top : TopologyValue) (me : ℕ) → IsPlace top me self → IfOk result (λ nodes. nodes.items ≡ map (λ d. spec.shard_node top d (spec.shard_of top me)) (other_dcs top me)) }
        ensures memory { IfErr result (λ e. e ≡ Fault.Memory) }
    {
        nodes_beside(alloc, self.home, self.shard, self.dcs)
    }
}
