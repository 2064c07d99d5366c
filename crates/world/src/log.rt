//! What happened in a world.
ghost use Rattle.std.specs.Prelude.{◌≡◌, ◌<◌, ◌++◌, ◌==◌, ◌||◌, ℕ, false, [], ◌∷◌, length, OnOk, IfOk, IfErr};
ghost use Rattle.world.specs.Delivered.{is_marked};
ghost use Rattle.world.specs.Histories.{batch_in};

use crate::delivered::Delivered;
use crate::stretches::Events;
use crate::written::Written;
use column_family::Batch;
use logical_time::{Fault, Node, Time, TxnId};
use messages::{Op, Shared};
use std::alloc::{AllocError, Global};

/// What happened.
#[derive(Drop)]
pub struct Log {
    /// The events, oldest first.
    pub events: Events,
    /// The write transactions that were submitted, in order.
    pub writes: Vec<Written>,
    /// Which messages were delivered.
    pub delivered: Delivered,
}

/// A copy of the batch of a write, which shares it; none of another operation. Fails by memory alone.
fn batch_of(op: &Op) -> Result<Option<Shared<Batch>>, AllocError>
    ensures { IfOk result (λ batch. batch ≡ batch_in op.now) }
{
    match op {
        Op::Batch(batch) => Ok(Some(batch.clone()?)),
        Op::Read(_) | Op::Move { .. } => Ok(None),
    }
}

impl Log {
    ghost use Rattle.world.specs.Run.{Submit, Deliver, Collect};
    ghost use Rattle.world.specs.Log.{HasRoom, IsSameLog, written_by};

    /// Nothing happened.
    pub fn new(alloc: Global) -> Log
        ensures events { result.events.items ≡ [] }
        ensures writes { result.writes.items ≡ [] }
        ensures delivered { (k : ℕ) → is_marked result.delivered.marks k ≡ false }
    {
        Log {
            events: Events::new(alloc),
            writes: Vec::new(alloc),
            delivered: Delivered::new(alloc),
        }
    }

    /// Makes room for one event. Refused with `Memory` alone.
    pub fn make_room_for_collection(&mut self) -> Result<(), Fault>
        ensures same { IsSameLog self.old self.new }
        ensures room { OnOk result (0 < self.new.events.room) }
        ensures memory { IfErr result (λ e. e ≡ Fault.Memory) }
    {
        self.events.reserve()?;
        Ok(())
    }

    /// Makes room for a delivery of this message. Refused with `Memory` alone.
    pub fn make_room_for_delivery(&mut self, number: usize) -> Result<(), Fault>
        ensures same { IsSameLog self.old self.new }
        ensures room { OnOk result (0 < self.new.events.room) }
        ensures mark { OnOk result (number < length self.new.delivered.marks) }
        ensures memory { IfErr result (λ e. e ≡ Fault.Memory) }
    {
        self.events.reserve()?;
        self.delivered.reach(number)?;
        Ok(())
    }

    /// Makes room for a submission, and gives two copies of the operation, and one of its batch if it is a write, which
    /// share what it asks. Refused with `Memory` alone.
    pub fn make_room_for_submission(
        &mut self,
        op: &Op,
    ) -> Result<(Op, Op, Option<Shared<Batch>>), Fault>
        ensures same { IsSameLog self.old self.new }
        ensures copies { IfOk result (λ c. (c.0 ≡ op.now) × (c.1 ≡ op.now) × (c.2 ≡ batch_in op.now)) }
        ensures room { OnOk result (0 < self.new.events.room) }
        ensures list { OnOk result (HasRoom self.new.writes) }
        ensures memory { IfErr result (λ e. e ≡ Fault.Memory) }
    {
        self.events.reserve()?;
        self.writes.reserve(1)?;
        Ok((op.copied()?, op.copied()?, batch_of(op)?))
    }

    /// A shard collected. There is room.
    pub fn add_collection(&mut self, shard: Node, time: Time)
        requires { 0 < self.old.events.room }
        ensures events { self.new.events.items ≡ self.old.events.items ++ Collect shard time ∷ [] }
        ensures writes { self.new.writes ≡ self.old.writes }
        ensures delivered { self.new.delivered ≡ self.old.delivered }
    {
        self.events.add_collection(shard, time);
    }

    /// A message was delivered. There is room.
    pub fn add_delivery(&mut self, number: usize)
        requires room { 0 < self.old.events.room }
        requires mark { number < length self.old.delivered.marks }
        ensures events { self.new.events.items ≡ self.old.events.items ++ Deliver number ∷ [] }
        ensures writes { self.new.writes ≡ self.old.writes }
        ensures delivered { (k : ℕ) → is_marked self.new.delivered.marks k ≡ (k == number || is_marked self.old.delivered.marks k) }
    {
        self.events.add_delivery(number);
        self.delivered.mark(number);
    }

    /// A session's operation was accepted under this number: a write where it has a batch. There is room.
    pub fn add_submission(
        &mut self,
        session: Node,
        number: u64,
        op: Op,
        batch: Option<Shared<Batch>>,
    )
        requires room { 0 < self.old.events.room }
        requires list { HasRoom self.old.writes }
        ensures events { self.new.events.items ≡ self.old.events.items ++ Submit session op ∷ [] }
        ensures writes { self.new.writes.items ≡ self.old.writes.items ++ written_by session number batch }
        ensures delivered { self.new.delivered ≡ self.old.delivered }
    {
        if let Some(batch) = batch {
            let txn = TxnId { session, number };
            self.writes.push(Written { txn, batch }).unwrap();
        }
        self.events.add_submission(session, op);
    }
}
