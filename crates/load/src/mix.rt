//! The requests of a load.
ghost use Rattle.std.specs.Prelude.{◌≡◌, ◌<◌, [], ◌∷◌, IfOk};
ghost use Rattle.rand_xoshiro.specs.SplitMix64.{mix_u64};
ghost use Rattle.messages.specs.declared.op.Op.TheVariants as ops;
ghost use Rattle.column_family.specs.declared.batch.Mutation.TheVariants as mutations;
ghost use Rattle.slice.specs.declared.predicate.Predicate.TheVariants as predicates;
ghost use Rattle.load.specs.Mixes.{draw_of, op_of, IsRequestOf};

use column_family::{Batch, Change, Family, Key, Mutation, Name, Row, Value};
use logical_time::Fault;
use messages::Op;
use rand_core::SeedableRng;
use rand_core::utils::NextWord;
use rand_xoshiro::SplitMix64;
use slice::{Keys, Names, Predicate, Read};
use std::alloc::{AllocError, Global};
use std::marker::Model;
use wire::encode_op;

/// The column that is written and read.
const COLUMN: &[u8] = b"c";

/// What requests are made of.
#[derive(Drop)]
pub struct Mixture {
    /// How many of a hundred are reads.
    pub reads: u64,
    /// About how many keys they are.
    pub keys: u64,
    /// How many bytes a value has.
    pub value: usize,
    /// The column family.
    pub family: Family,
    /// What the order of the requests hangs on.
    pub seed: u64,
}

/// What a number stands for.
#[derive(Clone, Copy)]
pub(crate) struct Draw {
    is_read: bool,
    key: u64,
}

/// A request.
#[derive(Drop)]
pub(crate) struct Request {
    /// Whether it is a read.
    pub(crate) is_read: bool,
    /// Its frame.
    pub(crate) frame: Vec<u8>,
}

/// Requests, one after the other, by the numbers that a seed gives.
#[derive(Drop)]
pub(crate) struct Mix {
    alloc: Global,
    reads: u64,
    keys: u64,
    family: Family,
    name: Name,
    value: Value,
    numbers: SplitMix64,
}

impl Model for Mix {
    ghost use Rattle.std.specs.Prelude.{◌<◌};
    ghost use Rattle.load.specs.Mixes.{MixValue};

    ghost Value = { MixValue };

    ghost view = { λ m. record { reads = m.reads; keys = m.keys; family = m.family; name = m.name; value = m.value; numbers = m.numbers } };

    ghost invariant = { λ m. 0 < m.keys };
}

// What a number stands for.
fn draw_of(number: u64, reads: u64, keys: u64) -> Draw
    requires { 0 < keys }
    ensures { result ≡ draw_of number reads keys }
{
    Draw {
        is_read: number % 100 < reads,
        key: number / 100 % keys,
    }
}

// So many bytes of a value.
fn value_of(alloc: Global, length: usize) -> Result<Value, AllocError> {
    let mut bytes = Vec::new(alloc);
    bytes.resize(length, b'v')?;
    Value::from_slice(alloc, &bytes)
}

impl Mix {
    /// The requests of a mixture, from the first on. Where it has no key they are about one.
    pub(crate) fn new(alloc: Global, mixture: &Mixture) -> Result<Mix, AllocError>
        ensures reads { IfOk result (λ m. m.reads ≡ mixture.now.reads) }
        ensures keys { IfOk result (λ m. 0 < mixture.now.keys → m.keys ≡ mixture.now.keys) }
        ensures family { IfOk result (λ m. m.family ≡ mixture.now.family) }
        ensures seed { IfOk result (λ m. m.numbers ≡ mixture.now.seed) }
    {
        Ok(Mix {
            alloc,
            reads: mixture.reads,
            keys: mixture.keys.max(1),
            family: mixture.family.clone()?,
            name: Name::from_slice(alloc, COLUMN)?,
            value: value_of(alloc, mixture.value)?,
            numbers: SplitMix64::seed_from_u64(mixture.seed),
        })
    }

    // The read of a key.
    fn read_of(&self, key: Key) -> Result<Op, AllocError>
        ensures { IfOk result (λ op. op ≡ ops.Read (record { family = self.now.family; keys = key ∷ []; predicate = predicates.Names (self.now.name ∷ []) })) }
    {
        let mut names = Vec::new(self.alloc);
        names.push(self.name.clone()?)?;
        let read = Read {
            family: self.family.clone()?,
            keys: Keys::one(key),
            predicate: Predicate::Names(Names::from_vec(self.alloc, names)?),
        };
        Op::read(self.alloc, read)
    }

    // The batch that inserts the value at a key.
    fn write_of(&self, key: Key) -> Result<Op, AllocError>
        ensures { IfOk result (λ op. op ≡ ops.Batch (record { row = record { family = self.now.family; key = key }; mutation = mutations.Insert self.now.name self.now.value } ∷ [])) }
    {
        let row = Row {
            key,
            family: self.family.clone()?,
        };
        let mutation = Mutation::Insert {
            name: self.name.clone()?,
            value: self.value.clone()?,
        };
        let mut batch = Batch::new(self.alloc);
        batch.push(Change { row, mutation })?;
        Op::write(self.alloc, batch)
    }

    // What is asked for by a draw.
    fn op_of(&self, draw: Draw) -> Result<Op, AllocError>
        ensures { IfOk result (λ op. op ≡ op_of self.now draw) }
    {
        let key = Key::from_slice(self.alloc, &draw.key.to_be_bytes())?;
        if draw.is_read {
            self.read_of(key)
        } else {
            self.write_of(key)
        }
    }

    // The request that a number stands for.
    fn request_of(&self, number: u64) -> Result<Request, Fault>
        ensures { IfOk result (λ request. IsRequestOf number self.now request) }
    {
        let draw = draw_of(number, self.reads, self.keys);
        let op = self.op_of(draw)?;
        let frame = encode_op(self.alloc, &op)?;
        Ok(Request {
            is_read: draw.is_read,
            frame,
        })
    }

    /// The next request. Refused with `Memory`. Linear in its frame.
    pub(crate) fn next(&mut self) -> Result<Request, Fault>
        ensures request { IfOk result (λ request. IsRequestOf (mix_u64 self.old.numbers).0 self.old request) }
        ensures goes_on { self.new ≡ record self.old { numbers = (mix_u64 self.old.numbers).1 } }
    {
        let number = self.numbers.next_word();
        self.request_of(number)
    }
}
