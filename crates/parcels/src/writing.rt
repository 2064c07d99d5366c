//! Envelopes, written as bytes.
ghost use Rattle.std.specs.Prelude.{◌≡◌, ◌⊎◌, true, None, Some, Err, IfOk, IfErr};
ghost use Rattle.logical_time.specs.declared.fault.Fault.TheVariants.{Memory, Oversize};
ghost use Rattle.column_family.specs.declared.batch.Change.{Change};
ghost use Rattle.wire.specs.Answers.{Puts, Encodes};
ghost use Rattle.wire.specs.Fields as fields;
ghost use Rattle.wire.specs.Requests as requests;
ghost use Rattle.wire.specs.Replies as replies;
ghost use Rattle.parcels.specs.Spelling as spec;
ghost use Rattle.parcels.specs.Kinds.{kind_of, fields_of};

use crate::lists::{Piece, put_all};
use bytes::BufMut;
use column_family::{Batch, Change};
use logical_time::{Fault, Node, Shard, Stamp, Time, TxnId, Writer};
use messages::{AtTime, Body, Cohorts, Dependencies, Envelope, RowAt, RowNow};
use slice::{Column, Read};
use std::alloc::Global;
use wire::error::FrameError;
use wire::writing::{Item, put_counted, put_predicate, put_short, put_text};

// How many bytes an envelope may have.
const GREATEST: usize = 4_294_967_040;

#[tactic(auto, unfolding(crate::specs::Spelling::number, crate::specs::Spelling::fits_number))]
fn put_number(out: &mut Vec<u8>, number: u64) -> Result<(), FrameError>
    ensures { Puts (spec.fits_number number) (spec.number number) result out.old.items out.new.items }
{
    Ok(out.put_u64(number)?)
}

#[tactic(auto, unfolding(crate::specs::Spelling::time, crate::specs::Spelling::fits_time))]
fn put_time(out: &mut Vec<u8>, time: Time) -> Result<(), FrameError>
    ensures { Puts (spec.fits_time time) (spec.time time) result out.old.items out.new.items }
{
    Ok(out.put_u64(time.get())?)
}

#[tactic(auto, unfolding(crate::specs::Spelling::node, crate::specs::Spelling::fits_node))]
fn put_node(out: &mut Vec<u8>, node: Node) -> Result<(), FrameError>
    ensures { Puts (spec.fits_node node) (spec.node node) result out.old.items out.new.items }
{
    Ok(out.put_u16(node.get())?)
}

#[tactic(auto, unfolding(crate::specs::Spelling::shard, crate::specs::Spelling::fits_shard))]
fn put_shard(out: &mut Vec<u8>, shard: Shard) -> Result<(), FrameError>
    ensures { Puts (spec.fits_shard shard) (spec.shard shard) result out.old.items out.new.items }
{
    Ok(out.put_u8(shard.get() as u8)?)
}

#[tactic(auto, unfolding(crate::specs::Spelling::txn, crate::specs::Spelling::fits_txn))]
fn put_txn(out: &mut Vec<u8>, txn: TxnId) -> Result<(), FrameError>
    ensures { Puts (spec.fits_txn txn) (spec.txn txn) result out.old.items out.new.items }
{
    put_node(out, txn.session)?;
    put_number(out, txn.number)
}

#[tactic(auto, unfolding(crate::specs::Spelling::stamp, crate::specs::Spelling::fits_stamp))]
fn put_stamp(out: &mut Vec<u8>, stamp: Stamp) -> Result<(), FrameError>
    ensures { Puts (spec.fits_stamp stamp) (spec.stamp stamp) result out.old.items out.new.items }
{
    put_time(out, stamp.time())?;
    put_node(out, stamp.node())
}

impl Piece for Writer {
    ghost bytes = { spec.writer };

    ghost fits = { spec.fits_writer };

    #[tactic(auto, unfolding(crate::specs::Spelling::writer, crate::specs::Spelling::fits_writer))]
    fn put(&self, out: &mut Vec<u8>) -> Result<(), FrameError> {
        put_txn(out, self.txn())?;
        put_shard(out, self.shard())
    }
}

#[tactic(auto, unfolding(crate::specs::Spelling::cohorts, crate::specs::Spelling::fits_cohorts))]
fn put_cohorts(out: &mut Vec<u8>, cohorts: Cohorts) -> Result<(), FrameError>
    ensures { Puts (spec.fits_cohorts cohorts) (spec.cohorts cohorts) result out.old.items out.new.items }
{
    Ok(out.put_u8(cohorts.bits())?)
}

fn put_writers(out: &mut Vec<u8>, writers: &[Writer]) -> Result<(), FrameError>
    ensures { Puts (spec.fits_writers writers.now) (spec.writers writers.now) result out.old.items out.new.items }
{
    put_all(out, writers)
}

impl Piece for Change {
    ghost bytes = { requests.change };

    ghost fits = { requests.fits_change };

    fn put(&self, out: &mut Vec<u8>) -> Result<(), FrameError> {
        Item::put(self, out)
    }
}

impl Piece for Column {
    ghost bytes = { replies.column };

    ghost fits = { replies.fits_column };

    fn put(&self, out: &mut Vec<u8>) -> Result<(), FrameError> {
        Item::put(self, out)
    }
}

fn put_rows(out: &mut Vec<u8>, rows: &Batch) -> Result<(), FrameError>
    ensures { Puts (spec.fits_rows rows.now) (spec.rows rows.now) result out.old.items out.new.items }
{
    put_all(out, rows.as_slice())
}

#[tactic(auto, unfolding(crate::specs::Spelling::asked, crate::specs::Spelling::fits_asked))]
fn put_asked(out: &mut Vec<u8>, read: &Read) -> Result<(), FrameError>
    ensures { Puts (spec.fits_asked read.now) (spec.asked read.now) result out.old.items out.new.items }
{
    put_short(out, read.family.as_slice())?;
    put_counted(out, read.keys.as_slice())?;
    put_predicate(out, &read.predicate)
}

impl Piece for RowNow {
    ghost bytes = { spec.row_now };

    ghost fits = { spec.fits_row_now };

    #[tactic(auto, unfolding(crate::specs::Spelling::row_now, crate::specs::Spelling::fits_row_now))]
    fn put(&self, out: &mut Vec<u8>) -> Result<(), FrameError> {
        put_text(out, self.key.as_slice())?;
        put_all(out, self.columns.as_slice())?;
        put_writers(out, self.writers.as_slice())?;
        put_time(out, self.evt)?;
        put_time(out, self.lvt)
    }
}

impl Piece for RowAt {
    ghost bytes = { spec.row_at };

    ghost fits = { spec.fits_row_at };

    #[tactic(auto, unfolding(crate::specs::Spelling::row_at, crate::specs::Spelling::fits_row_at))]
    fn put(&self, out: &mut Vec<u8>) -> Result<(), FrameError> {
        put_text(out, self.key.as_slice())?;
        put_all(out, self.columns.as_slice())?;
        put_writers(out, self.writers.as_slice())
    }
}

fn put_at_time(out: &mut Vec<u8>, answer: &AtTime) -> Result<(), FrameError>
    ensures { Puts (spec.fits_at_time answer.now) (spec.at_time answer.now) result out.old.items out.new.items }
{
    match answer {
        AtTime::Collected => Ok(out.put_u8(0)?),
        AtTime::Rows(rows) => {
            out.put_u8(1)?;
            put_all(out, rows.as_slice())
        }
    }
}

#[tactic(auto, unfolding(crate::specs::Spelling::decision, crate::specs::Spelling::fits_decision))]
fn put_decision(out: &mut Vec<u8>, txn: TxnId, commit: Time, stamp: Stamp) -> Result<(), FrameError>
    ensures { Puts (spec.fits_decision txn commit stamp) (spec.decision txn commit stamp) result out.old.items out.new.items }
{
    put_txn(out, txn)?;
    put_time(out, commit)?;
    put_stamp(out, stamp)
}

#[tactic(auto, unfolding(crate::specs::Spelling::txn_and_time, crate::specs::Spelling::fits_txn_and_time))]
fn put_txn_and_time(out: &mut Vec<u8>, txn: TxnId, time: Time) -> Result<(), FrameError>
    ensures { Puts (spec.fits_txn_and_time txn time) (spec.txn_and_time txn time) result out.old.items out.new.items }
{
    put_txn(out, txn)?;
    put_time(out, time)
}

#[tactic(auto, unfolding(crate::specs::Spelling::begin, crate::specs::Spelling::fits_begin))]
fn put_begin(
    out: &mut Vec<u8>,
    txn: TxnId,
    rows: &Batch,
    cohorts: Cohorts,
    dependencies: &Dependencies,
) -> Result<(), FrameError>
    ensures { Puts (spec.fits_begin txn rows.now cohorts dependencies.now) (spec.begin txn rows.now cohorts dependencies.now) result out.old.items out.new.items }
{
    put_txn(out, txn)?;
    put_rows(out, rows)?;
    put_cohorts(out, cohorts)?;
    put_writers(out, dependencies.as_slice())
}

#[tactic(auto, unfolding(crate::specs::Spelling::prepare, crate::specs::Spelling::fits_prepare))]
fn put_prepare(
    out: &mut Vec<u8>,
    txn: TxnId,
    rows: &Batch,
    coordinator: Shard,
) -> Result<(), FrameError>
    ensures { Puts (spec.fits_prepare txn rows.now coordinator) (spec.prepare txn rows.now coordinator) result out.old.items out.new.items }
{
    put_txn(out, txn)?;
    put_rows(out, rows)?;
    put_shard(out, coordinator)
}

#[tactic(auto, unfolding(crate::specs::Spelling::first_round, crate::specs::Spelling::fits_first_round))]
fn put_first_round(out: &mut Vec<u8>, number: u64, read: &Read) -> Result<(), FrameError>
    ensures { Puts (spec.fits_first_round number read.now) (spec.first_round number read.now) result out.old.items out.new.items }
{
    put_number(out, number)?;
    put_asked(out, read)
}

#[tactic(auto, unfolding(crate::specs::Spelling::second_round, crate::specs::Spelling::fits_second_round))]
fn put_second_round(
    out: &mut Vec<u8>,
    number: u64,
    time: Time,
    read: &Read,
) -> Result<(), FrameError>
    ensures { Puts (spec.fits_second_round number time read.now) (spec.second_round number time read.now) result out.old.items out.new.items }
{
    put_number(out, number)?;
    put_time(out, time)?;
    put_asked(out, read)
}

#[tactic(auto, unfolding(crate::specs::Spelling::repl_begin, crate::specs::Spelling::fits_repl_begin))]
fn put_repl_begin(
    out: &mut Vec<u8>,
    cohorts: Cohorts,
    txn: TxnId,
    rows: &Batch,
    stamp: Stamp,
    dependencies: &Dependencies,
) -> Result<(), FrameError>
    ensures { Puts (spec.fits_repl_begin cohorts txn rows.now stamp dependencies.now) (spec.repl_begin cohorts txn rows.now stamp dependencies.now) result out.old.items out.new.items }
{
    put_cohorts(out, cohorts)?;
    put_txn(out, txn)?;
    put_rows(out, rows)?;
    put_stamp(out, stamp)?;
    put_writers(out, dependencies.as_slice())
}

#[tactic(auto, unfolding(crate::specs::Spelling::repl_part, crate::specs::Spelling::fits_repl_part))]
fn put_repl_part(
    out: &mut Vec<u8>,
    txn: TxnId,
    rows: &Batch,
    stamp: Stamp,
    coordinator: Shard,
) -> Result<(), FrameError>
    ensures { Puts (spec.fits_repl_part txn rows.now stamp coordinator) (spec.repl_part txn rows.now stamp coordinator) result out.old.items out.new.items }
{
    put_txn(out, txn)?;
    put_rows(out, rows)?;
    put_stamp(out, stamp)?;
    put_shard(out, coordinator)
}

#[tactic(auto, unfolding(crate::specs::Spelling::dep_check, crate::specs::Spelling::fits_dep_check))]
fn put_dep_check(out: &mut Vec<u8>, dependency: TxnId, waiter: TxnId) -> Result<(), FrameError>
    ensures { Puts (spec.fits_dep_check dependency waiter) (spec.dep_check dependency waiter) result out.old.items out.new.items }
{
    put_txn(out, dependency)?;
    put_txn(out, waiter)
}

#[tactic(auto, unfolding(crate::specs::Spelling::dep_ok, crate::specs::Spelling::fits_dep_ok))]
fn put_dep_ok(
    out: &mut Vec<u8>,
    dependency: TxnId,
    waiter: TxnId,
    commit: Time,
) -> Result<(), FrameError>
    ensures { Puts (spec.fits_dep_ok dependency waiter commit) (spec.dep_ok dependency waiter commit) result out.old.items out.new.items }
{
    put_txn(out, dependency)?;
    put_txn(out, waiter)?;
    put_time(out, commit)
}

#[tactic(auto, unfolding(crate::specs::Spelling::part_now, crate::specs::Spelling::fits_part_now))]
fn put_part_now(out: &mut Vec<u8>, number: u64, rows: &[RowNow]) -> Result<(), FrameError>
    ensures { Puts (spec.fits_part_now number rows.now) (spec.part_now number rows.now) result out.old.items out.new.items }
{
    put_number(out, number)?;
    put_all(out, rows)
}

#[tactic(auto, unfolding(crate::specs::Spelling::part_at, crate::specs::Spelling::fits_part_at))]
fn put_part_at(
    out: &mut Vec<u8>,
    number: u64,
    time: Time,
    answer: &AtTime,
) -> Result<(), FrameError>
    ensures { Puts (spec.fits_part_at number time answer.now) (spec.part_at number time answer.now) result out.old.items out.new.items }
{
    put_number(out, number)?;
    put_time(out, time)?;
    put_at_time(out, answer)
}

// The number of a message's kind.
fn kind(body: &Body) -> u8
    ensures { result ≡ kind_of body.now }
{
    match body {
        Body::Begin { .. } => 1,
        Body::Prepare { .. } => 2,
        Body::Yes { .. } => 3,
        Body::Commit { .. } => 4,
        Body::At { .. } => 5,
        Body::NotBy { .. } => 6,
        Body::Check { .. } => 7,
        Body::Read { .. } => 8,
        Body::ReadAt { .. } => 9,
        Body::ReplBegin { .. } => 10,
        Body::ReplPart { .. } => 11,
        Body::Notify { .. } => 12,
        Body::PrepareRemote { .. } => 13,
        Body::DepCheck { .. } => 14,
        Body::DepOk { .. } => 15,
        Body::Done { .. } => 16,
        Body::PartNow { .. } => 17,
        Body::PartAt { .. } => 18,
    }
}

// What a message says, behind its kind.
#[rattlefmt::skip]
fn put_fields(out: &mut Vec<u8>, body: &Body) -> Result<(), FrameError>
    ensures { Puts (spec.fits body.now) (fields_of body.now) result out.old.items out.new.items }
{
    match body {
        Body::Begin { txn, rows, cohorts, dependencies } => put_begin(out, *txn, rows, *cohorts, dependencies),
        Body::Prepare { txn, rows, coordinator } => put_prepare(out, *txn, rows, *coordinator),
        Body::Yes { txn } => put_txn(out, *txn),
        Body::Commit { txn, commit, stamp } => put_decision(out, *txn, *commit, *stamp),
        Body::At { txn, commit, stamp } => put_decision(out, *txn, *commit, *stamp),
        Body::NotBy { txn, time } => put_txn_and_time(out, *txn, *time),
        Body::Check { txn, time } => put_txn_and_time(out, *txn, *time),
        Body::Read { number, read } => put_first_round(out, *number, read.get()),
        Body::ReadAt { number, time, read } => put_second_round(out, *number, *time, read.get()),
        Body::ReplBegin { cohorts, txn, rows, stamp, dependencies } => put_repl_begin(out, *cohorts, *txn, rows, *stamp, dependencies),
        Body::ReplPart { txn, rows, stamp, coordinator } => put_repl_part(out, *txn, rows, *stamp, *coordinator),
        Body::Notify { txn } => put_txn(out, *txn),
        Body::PrepareRemote { txn } => put_txn(out, *txn),
        Body::DepCheck { dependency, waiter } => put_dep_check(out, *dependency, *waiter),
        Body::DepOk { dependency, waiter, commit } => put_dep_ok(out, *dependency, *waiter, *commit),
        Body::Done { txn, commit, stamp } => put_decision(out, *txn, *commit, *stamp),
        Body::PartNow { number, rows } => put_part_now(out, *number, rows.as_slice()),
        Body::PartAt { number, time, answer } => put_part_at(out, *number, *time, answer),
    }
}

#[tactic(auto, using(crate::proofs::Said::said_is))]
fn put_said(out: &mut Vec<u8>, body: &Body) -> Result<(), FrameError>
    ensures { Puts (spec.fits body.now) (spec.said body.now) result out.old.items out.new.items }
{
    out.put_u8(kind(body))?;
    put_fields(out, body)
}

fn put_parcel(out: &mut Vec<u8>, envelope: &Envelope) -> Result<(), FrameError>
    ensures { Puts (spec.fits_parcel envelope.now) (spec.parcel envelope.now) result out.old.items out.new.items }
{
    put_node(out, envelope.from)?;
    put_node(out, envelope.to)?;
    put_time(out, envelope.time)?;
    put_said(out, &envelope.body)
}

fn parcel(alloc: Global, envelope: &Envelope) -> Result<Vec<u8>, FrameError>
    ensures { Encodes (spec.spelling envelope.now) result }
{
    let mut out = Vec::new(alloc);
    put_parcel(&mut out, envelope)?;
    if out.len() > GREATEST {
        return Err(FrameError::Frame(Fault::Oversize));
    }
    Ok(out)
}

/// The bytes of an envelope. Refused with `Oversize` where it is too long, or a length or a count in it doesn't fit, and with
/// `Memory`. Linear in the bytes.
pub fn write_parcel(alloc: Global, envelope: &Envelope) -> Result<Vec<u8>, Fault>
    ensures ok { IfOk result (λ bytes. spec.spelling envelope.now ≡ Some bytes.items) }
    ensures oversize { result ≡ Err Oversize → spec.spelling envelope.now ≡ None }
    ensures only { IfErr result (λ e. (e ≡ Oversize) ⊎ (e ≡ Memory)) }
{
    parcel(alloc, envelope).map_err(FrameError::fault)
}
