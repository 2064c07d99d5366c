//! Topologies.
ghost use Rattle.std.specs.Prelude.{◌≡◌, ◌↔◌, true};

use column_family::{Family, Schema};
use messages::Topology;

fn same_families(a: &[Family], b: &[Family]) -> bool
    ensures { (result ≡ true) ↔ (a.now ≡ b.now) }
{
    a == b
}

fn same_homes(a: &[u16], b: &[u16]) -> bool
    ensures { (result ≡ true) ↔ (a.now ≡ b.now) }
{
    a == b
}

fn same_schema(a: &Schema, b: &Schema) -> bool
    ensures { (result ≡ true) ↔ (a.now ≡ b.now) }
{
    same_families(a.families(), b.families())
}

/// Whether two topologies have the same data centres, shards, column families and sessions at home in the same places.
pub fn same_topology(a: &Topology, b: &Topology) -> bool
    ensures { (result ≡ true) ↔ (a.now ≡ b.now) }
{
    a.dcs() == b.dcs()
        && a.shards() == b.shards()
        && same_schema(a.schema(), b.schema())
        && same_homes(a.homes(), b.homes())
}
