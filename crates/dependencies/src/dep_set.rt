//! What a session's next write depends on.
ghost use Rattle.std.specs.Prelude.{◌≡◌, [], ◌∷◌, ◌++◌, true, Ok, IsOk, IfOk, OnOk, OnErr, IfErr};
ghost use Rattle.messages.specs.Words.{in_writer_order};
ghost use Rattle.dependencies.specs.DepSet.{writers_held, IsAdded};

use crate::ordering::in_order;
use logical_time::{Fault, Writer, Writers};
use std::alloc::Global;
use std::marker::Model;
use std::slice;

/// Dependencies, as they are held.
#[derive(Drop)]
enum Held {
    /// A completed write alone. It needs no list, and so no memory.
    Write(Writer),
    /// As they came, some perhaps more than once.
    Writers(Vec<Writer>),
}

/// The writers, as they are held.
fn writers_in(held: &Held) -> &[Writer]
    ensures { result.now ≡ writers_held held.now }
{
    match held {
        Held::Write(writer) => slice::from_ref(writer),
        Held::Writers(writers) => writers.as_slice(),
    }
}

/// Adds writers at the end, where there is room for them: tells whether there was.
fn add(held: &mut Held, writers: &[Writer]) -> Result<bool, Fault>
    ensures added { IfOk result (IsAdded held.old held.new writers.now) }
    ensures none { writers.now ≡ [] → result ≡ Ok true }
    ensures same { OnErr result (held.new ≡ held.old) }
    ensures memory { IfErr result (λ e. e ≡ Fault.Memory) }
{
    match held {
        Held::Write(_) => Ok(writers.is_empty()),
        Held::Writers(all) => {
            if all.capacity() - all.len() < writers.len() {
                return Ok(false);
            }
            all.extend_from_slice(writers)?;
            Ok(true)
        }
    }
}

/// Up to how many writers are held as they come, however often each comes.
const FEW: usize = 256;

/// These writers and those as they come, with room for as many again.
fn appended(alloc: Global, writers: &[Writer], others: &[Writer]) -> Result<Vec<Writer>, Fault>
    ensures ok { IfOk result (λ all. all.items ≡ writers.now ++ others.now) }
    ensures memory { IfErr result (λ e. e ≡ Fault.Memory) }
{
    let room = writers.len().saturating_add(others.len());
    let mut all = Vec::with_capacity(alloc, room.saturating_mul(2))?;
    all.extend_from_slice(writers)?;
    all.extend_from_slice(others)?;
    Ok(all)
}

/// These writers and those, put in order, each once, with room for as many again.
fn grown(alloc: Global, writers: &[Writer], others: &[Writer]) -> Result<Vec<Writer>, Fault>
    ensures ok { IfOk result (λ all. all.items ≡ in_writer_order (writers.now ++ others.now)) }
    ensures memory { IfErr result (λ e. e ≡ Fault.Memory) }
{
    let ordered = in_order(alloc, writers, others)?;
    let own = ordered.as_slice();
    let mut all = Vec::with_capacity(alloc, own.len().saturating_mul(2))?;
    all.extend_from_slice(own)?;
    Ok(all)
}

/// What a session's next write depends on, one hop back (Eiger): its last completed write, which depends on all before
/// it, and the writers of what was read since. They stand in the order of the transactions' numbers, each once.
#[derive(Drop)]
pub struct DepSet {
    alloc: Global,
    held: Held,
}

impl Model for DepSet {
    ghost use Rattle.std.specs.Prelude.{List};
    ghost use Rattle.logical_time.specs.Stamps.{WriterValue};
    ghost use Rattle.messages.specs.Words.{in_writer_order};
    ghost use Rattle.dependencies.specs.DepSet.{writers_held};

    ghost Value = { List WriterValue };

    ghost view = { λ set. in_writer_order (writers_held set.held) };
}

impl DepSet {
    /// No dependency.
    pub fn new(alloc: Global) -> DepSet
        ensures { result ≡ [] }
    {
        DepSet {
            alloc,
            held: Held::Writers(Vec::new(alloc)),
        }
    }

    /// The dependencies and the writers of one more read, as a write takes them along. In the order of n log n for n
    /// writers of both. Refused with `Memory` alone.
    #[tactic(auto, using(crate::proofs::Ordered::added_in_order))]
    pub fn to_writers(&self, read: &[Writer]) -> Result<Writers, Fault>
        ensures ok { IfOk result (λ writers. writers ≡ in_writer_order (self.now ++ read.now)) }
        ensures memory { IfErr result (λ e. e ≡ Fault.Memory) }
    {
        in_order(self.alloc, writers_in(&self.held), read)
    }

    /// A write completes: the next one depends on it alone. Takes no memory.
    pub fn completed_write(&mut self, writer: Writer)
        ensures { self.new ≡ writer ∷ [] }
    {
        self.held = Held::Write(writer);
    }

    /// A read completes: the writers of its rows are added. In the order of m log n for m of them, among n, over a
    /// series of reads: all are put in order, each once, only where the list would have to grow above 256. Refused with
    /// `Memory` alone, and never without a writer.
    #[tactic(auto, using(crate::proofs::Ordered::added_in_order, crate::proofs::Ordered::added_to_held))]
    pub fn completed_read(&mut self, writers: &[Writer]) -> Result<(), Fault>
        ensures ok { OnOk result (self.new ≡ in_writer_order (self.old ++ writers.now)) }
        ensures none { writers.now ≡ [] → IsOk result }
        ensures same { OnErr result (self.new ≡ self.old) }
        ensures memory { IfErr result (λ e. e ≡ Fault.Memory) }
    {
        if add(&mut self.held, writers)? {
            return Ok(());
        }
        let own = writers_in(&self.held);
        let all = if own.len() <= FEW && writers.len() <= FEW - own.len() {
            appended(self.alloc, own, writers)?
        } else {
            grown(self.alloc, own, writers)?
        };
        self.held = Held::Writers(all);
        Ok(())
    }
}
