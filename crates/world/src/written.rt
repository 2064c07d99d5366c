//! Write transactions that were submitted.

use column_family::Batch;
use logical_time::TxnId;
use messages::Shared;

/// A write transaction that its session accepted.
#[derive(Drop)]
pub struct Written {
    /// The transaction.
    pub txn: TxnId,
    /// What it writes, shared with the event that submitted it.
    pub batch: Shared<Batch>,
}
