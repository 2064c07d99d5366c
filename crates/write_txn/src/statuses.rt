//! The statuses of transactions.
ghost use Rattle.std.specs.Prelude.{◌≡◌, ◌/◌, ◌%◌, [], if◌then◌else◌, Some, None, OnOk, OnErr, IfErr};
ghost use Rattle.std.specs.Ordering.{is_eq};
ghost use Rattle.logical_time.specs.declared.fault.Fault.TheVariants as fault;
ghost use Rattle.logical_time.specs.Stamps.{TxnValue, txn_cmp};
ghost use Rattle.write_txn.specs.Ledger.{status_in};
ghost use Rattle.write_txn.specs.Places.{status_set};
ghost use Rattle.write_txn.specs.Statuses.{block_of, slots_of};

use crate::block::Block;
use crate::status::Status;
use logical_time::{Fault, TxnId};
use std::alloc::Global;
use std::collections::HashMap;
use std::marker::Model;

/// How many numbers a block has.
const NUMBERS: u64 = 256;

/// Which block: the session, and which of its blocks, counted from 0.
#[derive(Clone, Copy, PartialEq, Eq, Hash)]
struct BlockId {
    session: u16,
    block: u64,
}

impl Model for BlockId {
    ghost use Rattle.logical_time.specs.Stamps.{TxnValue};

    ghost Value = { TxnValue };

    ghost view = { λ b. record { session = b.session; number = b.block } };

    ghost inverse = { λ t. record { session = t.session; block = t.number } };
}

/// The block of a transaction.
#[inline]
fn block_id(txn: TxnId) -> BlockId
    ensures { result ≡ block_of txn }
{
    BlockId {
        session: txn.session.get(),
        block: txn.number / NUMBERS,
    }
}

/// The number of a transaction within its block.
#[inline]
fn number_in(txn: TxnId) -> u8
    ensures { result ≡ txn.number % 256 }
{
    (txn.number % NUMBERS) as u8
}

/// Gives a transaction this status whose block has none.
fn add_first(
    alloc: Global,
    blocks: &mut HashMap<BlockId, Block>,
    txn: TxnId,
    status: Status,
) -> Result<(), Fault>
    requires { slots_of blocks.old.entries txn ≡ [] }
    ensures ok { OnOk result ((u : TxnValue) → status_in blocks.new.entries u ≡ (if is_eq (txn_cmp txn u) then Some status else status_in blocks.old.entries u)) }
    ensures err { OnErr result ((u : TxnValue) → status_in blocks.new.entries u ≡ status_in blocks.old.entries u) }
    ensures memory { IfErr result (λ e. e ≡ fault.Memory) }
{
    let mut block = Block::new(alloc);
    block.add(number_in(txn), status)?;
    blocks.insert(block_id(txn), block)?;
    Ok(())
}

/// Gives a transaction this status.
fn add(
    alloc: Global,
    blocks: &mut HashMap<BlockId, Block>,
    txn: TxnId,
    status: Status,
) -> Result<(), Fault>
    ensures ok { OnOk result ((u : TxnValue) → status_in blocks.new.entries u ≡ (if is_eq (txn_cmp txn u) then Some status else status_in blocks.old.entries u)) }
    ensures err { OnErr result ((u : TxnValue) → status_in blocks.new.entries u ≡ status_in blocks.old.entries u) }
    ensures memory { IfErr result (λ e. e ≡ fault.Memory) }
{
    if !blocks.contains_key(&block_id(txn)) {
        return add_first(alloc, blocks, txn, status);
    }
    match blocks.get_mut(&block_id(txn)) {
        Some(block) => block.add(number_in(txn), status),
        None => Ok(()),
    }
}

/// The status of each known transaction, in sixteen bytes. Those of 256 numbers of a session that follow each other make a
/// block, and blocks are found by hash, which is constant on average. What isn't known takes nothing.
#[derive(Drop)]
pub(crate) struct Statuses {
    alloc: Global,
    blocks: HashMap<BlockId, Block>,
}

impl Model for Statuses {
    ghost use Rattle.write_txn.specs.Statuses.{StatusList};

    ghost Value = { StatusList };

    ghost view = { λ s. s.blocks.entries };
}

impl Statuses {
    /// No transaction is known.
    pub(crate) fn new(alloc: Global) -> Statuses
        ensures { result ≡ [] }
    {
        Statuses {
            alloc,
            blocks: HashMap::new(alloc),
        }
    }

    /// The status of a transaction.
    pub(crate) fn get(&self, txn: TxnId) -> Option<Status>
        ensures { result ≡ status_in self.now txn }
    {
        match self.blocks.get(&block_id(txn)) {
            Some(block) => block.get(number_in(txn)),
            None => None,
        }
    }

    /// Gives a transaction this status. Moves the slots of the greater numbers in its block, which are 255 at most. Refused
    /// with `Memory` alone, and then no status has changed.
    pub(crate) fn add(&mut self, txn: TxnId, status: Status) -> Result<(), Fault>
        ensures ok { OnOk result ((u : TxnValue) → status_in self.new u ≡ (if is_eq (txn_cmp txn u) then Some status else status_in self.old u)) }
        ensures err { OnErr result ((u : TxnValue) → status_in self.new u ≡ status_in self.old u) }
        ensures memory { IfErr result (λ e. e ≡ fault.Memory) }
    {
        add(self.alloc, &mut self.blocks, txn, status)
    }

    /// Changes the status of a transaction that has one. Takes no memory.
    pub(crate) fn set(&mut self, txn: TxnId, status: Status)
        ensures { (u : TxnValue) → status_in self.new u ≡ status_set txn status u (status_in self.old u) }
    {
        if let Some(block) = self.blocks.get_mut(&block_id(txn)) {
            block.set(number_in(txn), status);
        }
    }
}
