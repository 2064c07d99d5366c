//! How a chain keeps a version.

use crate::version::{Version, What};
use logical_time::{Node, Shard, Stamp, Time, TxnId, Writer};

/// The first number that is no time.
pub(crate) const END: u64 = 0x1_0000_0000_0000;

/// A version, with the end of the times at which it is the newest.
#[derive(Drop)]
pub(crate) struct Entry {
    pub(crate) version: Version,
    /// The first time at which a newer version is seen, or `END` where there is none.
    pub(crate) end: u64,
}

/// What fills the places of a chain that aren't used.
impl Default for Entry {
    fn default() -> Entry {
        let txn = TxnId {
            session: Node::new(0),
            number: 0,
        };
        Entry {
            version: Version {
                stamp: Stamp::new(Time::zero(), Node::new(0)),
                evt: Time::zero(),
                what: What {
                    writer: Writer::new(txn, Shard::first()),
                    value: None,
                },
            },
            end: END,
        }
    }
}
