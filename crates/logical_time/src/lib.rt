//! Logical clocks, the stamps and numbers of transactions, and the numbered refusals.
//!
//! Nothing here knows of rows, messages or actors.
#![tactic(auto)]

mod clock;
mod fault;
mod ids;
mod shards;
mod time;
mod writers;

pub use clock::Clock;
pub use fault::Fault;
pub use ids::{Node, Stamp, TxnId, Writer};
pub use shards::{AllShards, Shard, Shards};
pub use time::Time;
pub use writers::Writers;
