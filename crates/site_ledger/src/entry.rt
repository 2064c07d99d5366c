//! What a record of a site's log says.
use logical_time::Time;
use messages::{Envelope, Op};

/// What a record says.
#[derive(Drop)]
pub enum Entry {
    /// Whose log it is: the first record of each.
    Whose {
        /// The data centre.
        dc: u16,
        /// Which process it is of: drawn when the log was made.
        incarnation: [u8; 16],
        /// The digest of the file of sites.
        digest: [u8; 32],
    },
    /// A session was asked for an operation.
    Asked {
        /// The session, by the number of its node.
        session: u16,
        /// What it was asked.
        op: Op,
    },
    /// An envelope came from the site of another data centre.
    Came {
        /// That data centre.
        from: u16,
        /// What came.
        envelope: Envelope,
    },
    /// Envelopes were handled, each the first that waited.
    Turned {
        /// How many.
        count: u32,
    },
    /// A shard collected.
    Collected {
        /// The shard, by the number of its node.
        shard: u16,
        /// Up to when.
        time: Time,
    },
    /// The site of another data centre was met, and is this process.
    Met {
        /// That data centre.
        dc: u16,
        /// Which process: drawn when that one's log was made.
        incarnation: [u8; 16],
    },
}
