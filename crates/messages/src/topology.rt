//! Which actors there are.
ghost use Rattle.std.specs.Prelude.{◌≡◌, ◌+◌, ◌*◌, ◌<◌, ◌≤◌, ◌↔◌, true, false, length, nat_lt, IfOk, IfErr, IsErrOf};
ghost use Rattle.std.specs.List.{list_all};
ghost use Rattle.messages.specs.Topology as spec;

use crate::home::{Home, product};
use column_family::Schema;
use logical_time::{Fault, Node, Shard, Shards};
use std::alloc::AllocError;
use std::marker::Model;

/// How many data centres there may be.
const MOST_DCS: u16 = 4;
/// How many sessions a server may have.
const MOST_SESSIONS: usize = 10_000;
/// How many sessions there may be elsewhere.
const FEW_SESSIONS: usize = 16;

/// The actors of a store: data centres of equally many shards, and sessions, each at home in a data centre. Shard `s`
/// of data centre `d` is node `d * shards + s`; session `i` is node `dcs * shards + i`.
#[derive(Drop)]
pub struct Topology {
    dcs: u16,
    shards: Shards,
    schema: Schema,
    homes: Vec<u16>,
}

impl Model for Topology {
    ghost use Rattle.std.specs.Prelude.{◌≡◌, true};
    ghost use Rattle.messages.specs.Topology.{TopologyValue, is_topology};

    ghost Value = { TopologyValue };

    ghost view = { λ t. record { dcs = t.dcs; shards = t.shards; schema = t.schema; homes = t.homes.items } };

    ghost invariant = { λ t. is_topology t.dcs t.shards t.homes.items ≡ true };
}

// Whether each home is one of so many data centres.
fn are_homes(homes: &[u16], dcs: u16) -> bool
    ensures { result ≡ list_all (λ d. nat_lt d dcs) homes.now }
{
    homes.iter().all(|home| *home < dcs)
}

// Whether there may be such data centres and sessions.
fn is_topology(dcs: u16, shards: Shards, homes: &[u16]) -> bool
    ensures { result ≡ spec.is_topology dcs shards homes.now }
{
    let _limits = shards.get();
    1 <= dcs
        && dcs <= MOST_DCS
        && 1 <= homes.len()
        && homes.len() <= MOST_SESSIONS
        && are_homes(homes, dcs)
}

impl Topology {
    /// So many data centres of so many shards with these column families, and a session for each of the homes, which
    /// are numbers of data centres. Refused with `Script` outside 1 to 4 data centres, 1 to 8 shards and 1 to 16
    /// sessions, and where a home is no data centre.
    pub fn new(dcs: u16, shards: u16, schema: Schema, homes: Vec<u16>) -> Result<Topology, Fault>
        ensures made { IfOk result (λ t. t ≡ record { dcs = dcs; shards = shards; schema = schema; homes = homes.items }) }
        ensures refused { IsErrOf result Fault.Script ↔ (spec.is_small_topology dcs shards homes.items ≡ false) }
        ensures only { IfErr result (λ e. e ≡ Fault.Script) }
    {
        if homes.len() > FEW_SESSIONS {
            return Err(Fault::Script);
        }
        Topology::of_server(dcs, shards, schema, homes)
    }

    /// The same for a server, which may have up to 10,000 sessions.
    pub fn of_server(
        dcs: u16,
        shards: u16,
        schema: Schema,
        homes: Vec<u16>,
    ) -> Result<Topology, Fault>
        ensures made { IfOk result (λ t. t ≡ record { dcs = dcs; shards = shards; schema = schema; homes = homes.items }) }
        ensures refused { IsErrOf result Fault.Script ↔ (spec.is_topology dcs shards homes.items ≡ false) }
        ensures only { IfErr result (λ e. e ≡ Fault.Script) }
    {
        match Shards::new(shards) {
            Some(shards) if is_topology(dcs, shards, homes.as_slice()) => Ok(Topology {
                dcs,
                shards,
                schema,
                homes,
            }),
            _ => Err(Fault::Script),
        }
    }

    /// A copy, which shares the bytes of the names. Fails by memory alone.
    pub fn copied(&self) -> Result<Topology, AllocError>
        ensures same { IfOk result (λ copy. copy ≡ self.now) }
        ensures limits { spec.is_topology self.now.dcs self.now.shards self.now.homes ≡ true }
    {
        Ok(Topology {
            dcs: self.dcs,
            shards: self.shards,
            schema: self.schema.copied()?,
            homes: self.homes.clone()?,
        })
    }

    /// How many data centres there are.
    pub fn dcs(&self) -> u16
        ensures value { result ≡ self.now.dcs }
        ensures limits { (1 ≤ result) × (result ≤ 4) }
    {
        self.dcs
    }

    /// How many shards each data centre has.
    pub fn shards(&self) -> Shards
        ensures value { result ≡ self.now.shards }
        ensures limits { (1 ≤ result) × (result ≤ 8) }
    {
        self.shards
    }

    /// The column families.
    pub fn schema(&self) -> &Schema
        ensures { result.now ≡ self.now.schema }
    {
        &self.schema
    }

    /// The first home of each session, as the number of a data centre.
    pub fn homes(&self) -> &[u16]
        ensures value { result.now ≡ self.now.homes }
        ensures limits { (1 ≤ length result.now) × (length result.now ≤ 10000) }
        ensures homes { list_all (λ d. nat_lt d self.now.dcs) result.now ≡ true }
    {
        self.homes.as_slice()
    }

    /// How many shards there are in all data centres. Shards are the first nodes.
    pub fn shard_count(&self) -> u16
        ensures value { result ≡ spec.shard_count self.now }
        ensures limit { result ≤ 32 }
    {
        product(self.dcs, self.shards)
    }

    /// How many actors there are, shards and sessions.
    pub fn node_count(&self) -> u16
        ensures value { result ≡ spec.node_count self.now }
        ensures limit { result ≤ 10032 }
    {
        self.shard_count() + self.homes.len() as u16
    }

    /// The shards of a data centre.
    pub fn home(&self, dc: u16) -> Home
        requires { dc < self.now.dcs }
        ensures { result ≡ record { dc = dc; shards = self.now.shards } }
    {
        Home::new(dc, self.shards)
    }

    /// The node of a session.
    pub fn session_node(&self, session: u16) -> Node
        requires { session < length self.now.homes }
        ensures { result ≡ spec.session_node self.now session }
    {
        Node::new(product(self.dcs, self.shards) + session)
    }

    /// Whether the node is a shard.
    pub fn is_shard(&self, node: Node) -> bool
        ensures { result ≡ spec.is_shard self.now node }
    {
        node.get() < self.shard_count()
    }

    /// The data centre of a shard's node.
    pub fn dc_of(&self, node: Node) -> u16
        ensures { result ≡ spec.dc_of self.now node }
    {
        node.get() / self.shards.get()
    }

    /// The number of a shard's node within its data centre.
    pub fn shard_of(&self, node: Node) -> Shard
        ensures { result ≡ spec.shard_of self.now node }
    {
        self.shards.shard_for(u128::from(node.get()))
    }

    /// The session whose node this is, if it is one.
    pub fn session_of(&self, node: Node) -> Option<u16>
        ensures { result ≡ spec.session_of self.now node }
    {
        let first = self.shard_count();
        let number = node.get();
        if first <= number && number < self.node_count() {
            Some(number - first)
        } else {
            None
        }
    }

    /// The home of the session whose node this is, if it is one.
    pub fn home_of(&self, node: Node) -> Option<u16>
        ensures { result ≡ spec.home_of self.now node }
    {
        let session = self.session_of(node)?;
        self.homes.get(session as usize).copied()
    }
}
