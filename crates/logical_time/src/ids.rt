//! The numbers of actors and transactions, and the stamps that order transactions.
ghost use Rattle.std.specs.Prelude.{◌≡◌, ◌&&◌, ◌==◌, ◌+◌, ◌*◌, ◌^◌, ◌<◌};
ghost use Rattle.std.specs.Ordering.{as_partial_cmp};
ghost use Rattle.std.specs.Cmp.{partial_order_from_own_ties, partial_order_from_total};
ghost use Rattle.std.specs.Cmp.Rules.{comparing};
ghost use Rattle.std.proofs.Common.{rules};
ghost use Rattle.logical_time.specs.Stamps.{stamp_cmp, writer_cmp};
ghost use Rattle.logical_time.specs.WriterLaws.{writer_total};

use crate::shards::Shard;
use crate::time::Time;
use std::cmp::Ordering;
use std::marker::Model;

/// The number of an actor, a shard or a session.
#[derive(Clone, Copy, Debug, PartialEq, Eq, PartialOrd, Ord)]
pub struct Node(u16);

impl Model for Node {
    ghost use Rattle.std.specs.Prelude.{ℕ};

    ghost Value = { ℕ };

    ghost view = { λ n. n.0 };

    ghost inverse = { λ n. record { 0 = n } };
}

impl Node {
    /// The actor of this number.
    pub fn new(number: u16) -> Node
        ensures { result ≡ number }
    {
        Node(number)
    }

    /// The number of the actor.
    pub fn get(self) -> u16
        ensures { result ≡ self }
    {
        self.0
    }
}

/// When a transaction was decided first, and by which coordinator. Of two mutations of a location the
/// one with the greater stamp is newer: by time, then by node.
///
/// It is one number: the time stands above the 16 bits of the node, so the number orders stamps.
#[derive(Clone, Copy)]
pub struct Stamp(u64);

impl Model for Stamp {
    ghost use Rattle.std.specs.Prelude.{◌*◌, ◌+◌, ◌/◌, ◌%◌};
    ghost use Rattle.logical_time.specs.Stamps.{StampValue};

    ghost Value = { StampValue };

    ghost view = { λ s. record { time = s.0 / 65536; node = s.0 % 65536 } };

    ghost inverse = { λ s. record { 0 = s.time * 65536 + s.node } };
}

impl Stamp {
    /// The stamp of what this coordinator decided at this time.
    pub fn new(time: Time, node: Node) -> Stamp
        ensures { result ≡ record { time = time; node = node } }
    {
        Stamp(time.get() * 65536 + u64::from(node.get()))
    }

    /// The commit time in the data centre where the transaction was submitted.
    pub fn time(self) -> Time
        ensures { result ≡ self.time }
    {
        Time::in_stamp(self.0)
    }

    /// The coordinator there.
    pub fn node(self) -> Node
        ensures { result ≡ self.node }
    {
        Node((self.0 % 65536) as u16)
    }
}

impl PartialEq for Stamp {
    ghost eq = { λ s t. (s.time == t.time) && (s.node == t.node) };

    ghost laws = { Prim.search (comparing, rules) };

    fn eq(&self, other: &Stamp) -> bool {
        self.0 == other.0
    }
}

impl Eq for Stamp {
    ghost laws = { Prim.search (comparing, rules) };
}

impl PartialOrd for Stamp {
    ghost partial_cmp = { as_partial_cmp stamp_cmp };

    ghost laws = { partial_order_from_own_ties (Prim.search (comparing, rules))
        (Prim.search (comparing, rules)) };

    fn partial_cmp(&self, other: &Stamp) -> Option<Ordering> {
        Some(self.cmp(other))
    }
}

impl Ord for Stamp {
    ghost cmp = { stamp_cmp };

    ghost total = { Prim.search (comparing, rules) };

    ghost matches_partial_cmp = { Prim.search (comparing, rules) };

    ghost matches_eq = { Prim.search (comparing, rules) };

    fn cmp(&self, other: &Stamp) -> Ordering {
        self.0.cmp(&other.0)
    }
}

/// The number of a transaction: its session and the number of the operation there, from 1.
#[derive(Clone, Copy, Debug, PartialEq, Eq, PartialOrd, Ord)]
pub struct TxnId {
    /// The session that submitted it.
    pub session: Node,
    /// The number of the operation among those that the session had accepted.
    pub number: u64,
}

impl Model for TxnId {
    ghost use Rattle.logical_time.specs.Stamps.{TxnValue};

    ghost Value = { TxnValue };

    ghost view = { λ t. record { session = t.session; number = t.number } };

    ghost inverse = { λ t. record { session = t.session; number = t.number } };
}

/// A transaction that something rests on, and the shard that coordinates it.
#[derive(Clone, Copy)]
pub struct Writer {
    // the halves of one number, of which the session weighs most, then the operation's number, then the
    // shard: session * 2^80 + number * 2^16 + shard
    high: u64,
    low: u64,
}

impl Model for Writer {
    ghost use Rattle.std.specs.Prelude.{◌*◌, ◌+◌, ◌/◌, ◌%◌, ◌^◌, ◌<◌};
    ghost use Rattle.logical_time.specs.Stamps.{WriterValue};

    ghost Value = { WriterValue };

    ghost view = { λ w. record { txn = record { session = w.high / 65536; number = (w.high % 65536) * 2 ^ 48 + w.low / 65536 }; shard = w.low % 65536 } };

    ghost invariant = { λ w. (w.high < 2 ^ 32) × (w.low < 2 ^ 64) × (w.low % 65536 < 8) };

    ghost inverse = { λ w. record { high = w.txn.session * 65536 + w.txn.number / 2 ^ 48; low = (w.txn.number % 2 ^ 48) * 65536 + w.shard } };
}

impl Writer {
    /// The writer of this transaction, which this shard coordinates.
    pub fn new(txn: TxnId, shard: Shard) -> Writer
        ensures { result ≡ record { txn = txn; shard = shard } }
    {
        Writer {
            high: u64::from(txn.session.get()) * 65536 + txn.number / 0x1_0000_0000_0000,
            low: txn.number % 0x1_0000_0000_0000 * 65536 + u64::from(shard.get()),
        }
    }

    /// The transaction.
    pub fn txn(self) -> TxnId
        ensures { result ≡ self.txn }
    {
        TxnId {
            session: Node((self.high / 65536) as u16),
            number: self.high % 65536 * 0x1_0000_0000_0000 + self.low / 65536,
        }
    }

    /// Its coordinator.
    pub fn shard(self) -> Shard
        ensures { result ≡ self.shard }
    {
        Shard::in_writer(self.low)
    }

    // The number that orders writers.
    fn place(self) -> u128
        ensures value { result ≡ (self.txn.session * 2 ^ 64 + self.txn.number) * 65536 + self.shard }
        ensures number { self.txn.number < 2 ^ 64 }
        ensures shard { self.shard < 8 }
    {
        u128::from(self.high) * 0x1_0000_0000_0000_0000 + u128::from(self.low)
    }
}

impl PartialEq for Writer {
    ghost eq = { λ v w. ((v.txn.session == w.txn.session) && (v.txn.number == w.txn.number)) && (v.shard == w.shard) };

    ghost laws = { Prim.search (comparing, rules) };

    fn eq(&self, other: &Writer) -> bool {
        self.high == other.high && self.low == other.low
    }
}

impl Eq for Writer {
    ghost laws = { Prim.search (comparing, rules) };
}

impl PartialOrd for Writer {
    ghost partial_cmp = { as_partial_cmp writer_cmp };

    ghost laws = { partial_order_from_own_ties (partial_order_from_total writer_total)
        (Prim.search (comparing, rules)) };

    fn partial_cmp(&self, other: &Writer) -> Option<Ordering> {
        Some(self.cmp(other))
    }
}

impl Ord for Writer {
    ghost cmp = { writer_cmp };

    ghost total = { writer_total };

    ghost matches_partial_cmp = { Prim.search (comparing, rules) };

    ghost matches_eq = { Prim.search (comparing, rules) };

    fn cmp(&self, other: &Writer) -> Ordering {
        self.place().cmp(&other.place())
    }
}
