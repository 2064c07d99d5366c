//! What messages and operations speak of, as JSON.
ghost use Rattle.std.specs.Prelude.{IfErr};
ghost use Rattle.tracing.specs.Tracing.{HasCut, HasGrown};

use crate::listed::{Listed, put_list};
use crate::pieces::{put, put_bytes, put_number};
use column_family::{Batch, Change, Key, Mutation, Name};
use logical_time::{Fault, Stamp, TxnId, Writer};
use messages::{Cohorts, Dependencies, RowAt, RowNow};
use program::Output;
use slice::{Column, Predicate, Read};
use std::io::Write;

/// Words that end with `{"session":`, and then a transaction.
pub(crate) fn put_transaction<W: Write>(
    output: &mut Output<W>,
    words: &[u8],
    txn: TxnId,
) -> Result<(), Fault>
    ensures grown { HasGrown W.contents output.old output.new }
    ensures failed { IfErr result (HasCut output.new) }
{
    put_number(output, words, u64::from(txn.session.get()))?;
    put_number(output, b",\"operation\":", txn.number)?;
    put(output, b"}")
}

/// `,"stamp":`, and then a stamp.
pub(crate) fn put_stamp<W: Write>(output: &mut Output<W>, stamp: Stamp) -> Result<(), Fault>
    ensures grown { HasGrown W.contents output.old output.new }
    ensures failed { IfErr result (HasCut output.new) }
{
    put_number(output, b",\"stamp\":{\"time\":", stamp.time().get())?;
    put_number(output, b",\"node\":", u64::from(stamp.node().get()))?;
    put(output, b"}")
}

impl Listed for Writer {
    fn put<W: Write>(&self, output: &mut Output<W>) -> Result<(), Fault> {
        put_transaction(output, b"{\"transaction\":{\"session\":", self.txn())?;
        put_number(output, b",\"shard\":", u64::from(self.shard().get()))?;
        put(output, b"}")
    }
}

impl Listed for Key {
    fn put<W: Write>(&self, output: &mut Output<W>) -> Result<(), Fault> {
        put_bytes(output, b"", self.as_slice())
    }
}

impl Listed for Name {
    fn put<W: Write>(&self, output: &mut Output<W>) -> Result<(), Fault> {
        put_bytes(output, b"", self.as_slice())
    }
}

impl Listed for Column {
    fn put<W: Write>(&self, output: &mut Output<W>) -> Result<(), Fault> {
        put_bytes(output, b"{\"name\":", self.name.as_slice())?;
        put_bytes(output, b",\"value\":", self.value.as_slice())?;
        put(output, b"}")
    }
}

// What is done to a row.
fn put_mutation<W: Write>(output: &mut Output<W>, mutation: &Mutation) -> Result<(), Fault>
    ensures grown { HasGrown W.contents output.old output.new }
    ensures failed { IfErr result (HasCut output.new) }
{
    match mutation {
        Mutation::Insert { name, value } => {
            put_bytes(output, b",\"insert\":", name.as_slice())?;
            put_bytes(output, b",\"value\":", value.as_slice())
        }
        Mutation::DeleteColumn { name } => put_bytes(output, b",\"delete\":", name.as_slice()),
        Mutation::DeleteRow => put(output, b",\"delete_row\":true"),
        Mutation::DeleteRange { start, finish } => {
            put_bytes(output, b",\"delete_range\":{\"start\":", start.as_slice())?;
            put_bytes(output, b",\"finish\":", finish.as_slice())?;
            put(output, b"}")
        }
    }
}

impl Listed for Change {
    fn put<W: Write>(&self, output: &mut Output<W>) -> Result<(), Fault> {
        put_bytes(output, b"{\"family\":", self.row.family.as_slice())?;
        put_bytes(output, b",\"key\":", self.row.key.as_slice())?;
        put_mutation(output, &self.mutation)?;
        put(output, b"}")
    }
}

/// Words, and then the changes of a batch.
pub(crate) fn put_batch<W: Write>(
    output: &mut Output<W>,
    words: &[u8],
    batch: &Batch,
) -> Result<(), Fault>
    ensures grown { HasGrown W.contents output.old output.new }
    ensures failed { IfErr result (HasCut output.new) }
{
    put_list(output, words, batch.as_slice())
}

/// `,"dependencies":`, and then what a write depends on.
pub(crate) fn put_dependencies<W: Write>(
    output: &mut Output<W>,
    dependencies: &Dependencies,
) -> Result<(), Fault>
    ensures grown { HasGrown W.contents output.old output.new }
    ensures failed { IfErr result (HasCut output.new) }
{
    put_list(output, b",\"dependencies\":", dependencies.as_slice())
}

/// `,"cohorts":`, and then the numbers of shards.
pub(crate) fn put_cohorts<W: Write>(output: &mut Output<W>, cohorts: Cohorts) -> Result<(), Fault>
    ensures grown { HasGrown W.contents output.old output.new }
    ensures failed { IfErr result (HasCut output.new) }
{
    put(output, b",\"cohorts\":")?;
    let mut mark: &[u8] = b"[";
    for shard in cohorts.shards() {
        put_number(output, mark, u64::from(shard.get()))?;
        mark = b",";
    }
    put(output, if cohorts.is_empty() { b"[]" } else { b"]" })
}

// Which columns are asked for.
fn put_predicate<W: Write>(output: &mut Output<W>, predicate: &Predicate) -> Result<(), Fault>
    ensures grown { HasGrown W.contents output.old output.new }
    ensures failed { IfErr result (HasCut output.new) }
{
    match predicate {
        Predicate::Names(names) => put_list(output, b",\"names\":", names.as_slice()),
        Predicate::Range {
            start,
            finish,
            reversed,
            count,
        } => {
            put_bytes(output, b",\"range\":{\"start\":", start.as_slice())?;
            put_bytes(output, b",\"finish\":", finish.as_slice())?;
            let way: &[u8] = if *reversed { b"true" } else { b"false" };
            put(output, b",\"reversed\":")?;
            put(output, way)?;
            put_number(output, b",\"count\":", u64::from(*count))?;
            put(output, b"}")
        }
    }
}

/// `,"read":`, and then what a read asks.
pub(crate) fn put_read<W: Write>(output: &mut Output<W>, read: &Read) -> Result<(), Fault>
    ensures grown { HasGrown W.contents output.old output.new }
    ensures failed { IfErr result (HasCut output.new) }
{
    put_bytes(output, b",\"read\":{\"family\":", read.family.as_slice())?;
    put_list(output, b",\"keys\":", read.keys.as_slice())?;
    put_predicate(output, &read.predicate)?;
    put(output, b"}")
}

impl Listed for RowNow {
    fn put<W: Write>(&self, output: &mut Output<W>) -> Result<(), Fault> {
        put_bytes(output, b"{\"key\":", self.key.as_slice())?;
        put_list(output, b",\"columns\":", self.columns.as_slice())?;
        put_list(output, b",\"writers\":", self.writers.as_slice())?;
        put_number(output, b",\"evt\":", self.evt.get())?;
        put_number(output, b",\"lvt\":", self.lvt.get())?;
        put(output, b"}")
    }
}

impl Listed for RowAt {
    fn put<W: Write>(&self, output: &mut Output<W>) -> Result<(), Fault> {
        put_bytes(output, b"{\"key\":", self.key.as_slice())?;
        put_list(output, b",\"columns\":", self.columns.as_slice())?;
        put_list(output, b",\"writers\":", self.writers.as_slice())?;
        put(output, b"}")
    }
}
