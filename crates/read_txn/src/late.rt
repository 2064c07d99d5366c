//! What is asked again.
use logical_time::Node;
use slice::Keys;

/// What the second round asks of a shard.
#[derive(Drop)]
pub struct LateShard {
    /// The shard, as a node.
    pub node: Node,
    /// The keys of its rows that weren't accepted.
    pub keys: Keys,
}
