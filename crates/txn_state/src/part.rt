//! The parts of write transactions.
use column_family::Batch;
use logical_time::Writer;

/// A transaction's part for one shard: the changes of that shard's rows, in normal form.
#[derive(Drop)]
pub struct WritePart {
    /// The transaction, with its coordinator.
    pub writer: Writer,
    /// The changes.
    pub batch: Batch,
}
