//! Recorded histories written as a JSON text.
ghost use Rattle.std.specs.Prelude.{◌≡◌, ◌+◌, ℕ, List, Option, Some, None, true, IfOk, IfErr, string_bytes, codes};
ghost use Rattle.serde_json.specs.Data.{Data, boolean, number, unsigned, string, array, object, item, no_items, member, no_members};
ghost use Rattle.serde_json.specs.Find.{as_str};
ghost use Rattle.serde_json.specs.View.{view};
ghost use Rattle.column_family.specs.Schema.{is_schema};
ghost use Rattle.slice.specs.declared.predicate.Predicate.TheVariants as asks;
ghost use Rattle.planner.specs.Checks.{batch_fault, read_fault};
ghost use Rattle.workload.specs.Shape.{list_by};
ghost use Rattle.workload.specs.Script.{change_of, predicate_of};
ghost use Rattle.recorded.specs.Reading as form;
ghost use Rattle.recorded.specs.Performing.{recorded_in};
ghost use Rattle.recorded.specs.Writing.{Spells, mutation_json, IsUnwritten};

use crate::recorded::Recorded;
use audit::Answered;
use column_family::{Change, Committed, Family, Key, Mutation, Name, Schema};
use logical_time::{Fault, Stamp};
use planner::{check_batch, check_read};
use serde_json::{Value as Json, json};
use slice::{AnsweredRow, Column, Predicate, Read};
use std::alloc::{AllocError, Global};
use std::str;
use table::History;

/// A type whose values are written as JSON values, in a record of a store with column families and so many histories.
trait Written: Sized {
    ghost stands_for: { List (List ℕ) → ℕ → Data → Option Self };

    /// How deep lists and objects nest in them at most.
    ghost most: { ℕ };

    /// A JSON value that stands for it; `Script` where there is none.
    fn to_json(&self, alloc: Global, families: &Schema, homes: usize) -> Result<Json, Fault>
        ensures ok { IfOk result (λ v. Spells (stands_for families.now homes) most (view v) self.now) }
        ensures faults { IfErr result IsUnwritten };
}

// A list of values that stand for these.
fn list_json<T: Written>(
    alloc: Global,
    families: &Schema,
    homes: usize,
    items: &[T],
) -> Result<Json, Fault>
    ensures ok { IfOk result (λ v. Spells (list_by (T.stands_for families.now homes)) (T.most + 1) (view v) items.now) }
    ensures faults { IfErr result IsUnwritten }
{
    let mut all = Vec::with_capacity(alloc, items.len())?;
    for item in items {
        all.push(item.to_json(alloc, families, homes)?)?;
    }
    Ok(Json::from(all))
}

// A text; `Script` where the bytes are no UTF-8.
fn text(alloc: Global, bytes: &[u8]) -> Result<Json, Fault>
    ensures ok { IfOk result (λ v. view v ≡ string bytes.now) }
    ensures faults { IfErr result IsUnwritten }
{
    match str::from_utf8(bytes) {
        Ok(text) => Ok(Json::try_from_str(alloc, text)?),
        Err(_) => Err(Fault::Script),
    }
}

impl Written for Family {
    ghost stands_for = { λ families homes. as_str };

    ghost most = { 0 };

    #[tactic(auto, using(crate::proofs::Spelled::text_spelled))]
    fn to_json(&self, alloc: Global, _families: &Schema, _homes: usize) -> Result<Json, Fault> {
        text(alloc, self.as_slice())
    }
}

impl Written for Key {
    ghost stands_for = { λ families homes. as_str };

    ghost most = { 0 };

    #[tactic(auto, using(crate::proofs::Spelled::text_spelled))]
    fn to_json(&self, alloc: Global, _families: &Schema, _homes: usize) -> Result<Json, Fault> {
        text(alloc, self.as_slice())
    }
}

impl Written for Name {
    ghost stands_for = { λ families homes. as_str };

    ghost most = { 0 };

    #[tactic(auto, using(crate::proofs::Spelled::text_spelled))]
    fn to_json(&self, alloc: Global, _families: &Schema, _homes: usize) -> Result<Json, Fault> {
        text(alloc, self.as_slice())
    }
}

impl Written for Change {
    ghost stands_for = { λ families homes. change_of };

    ghost most = { 2 };

    fn to_json(&self, alloc: Global, _families: &Schema, _homes: usize) -> Result<Json, Fault> {
        change_json(alloc, self)
    }
}

impl Written for Column {
    ghost stands_for = { λ families homes. form.column_of };

    ghost most = { 1 };

    fn to_json(&self, alloc: Global, _families: &Schema, _homes: usize) -> Result<Json, Fault> {
        column_json(alloc, self)
    }
}

impl Written for AnsweredRow {
    ghost stands_for = { λ families homes. form.row_of };

    ghost most = { 3 };

    fn to_json(&self, alloc: Global, families: &Schema, homes: usize) -> Result<Json, Fault> {
        row_json(alloc, families, homes, self)
    }
}

impl Written for Committed {
    ghost stands_for = { λ families homes. form.entry_of families };

    ghost most = { 4 };

    fn to_json(&self, alloc: Global, families: &Schema, homes: usize) -> Result<Json, Fault> {
        entry_json(alloc, families, homes, self)
    }
}

impl Written for History {
    ghost stands_for = { λ families homes. form.history_of families };

    ghost most = { 5 };

    fn to_json(&self, alloc: Global, families: &Schema, homes: usize) -> Result<Json, Fault> {
        list_json(alloc, families, homes, self.as_slice())
    }
}

impl Written for Answered {
    ghost stands_for = { form.answered_of };

    ghost most = { 5 };

    fn to_json(&self, alloc: Global, families: &Schema, homes: usize) -> Result<Json, Fault> {
        answered_json(alloc, families, homes, self)
    }
}

// A list of one.
fn list_of_one(alloc: Global, first: Json) -> Result<Json, AllocError>
    ensures { IfOk result (λ v. view v ≡ array (item (view first) no_items)) }
{
    json!(in alloc; [first])
}

// A list of two.
fn list_of_two(alloc: Global, first: Json, second: Json) -> Result<Json, AllocError>
    ensures { IfOk result (λ v. view v ≡ array (item (view first) (item (view second) no_items))) }
{
    json!(in alloc; [first, second])
}

// A list of three.
fn list_of_three(alloc: Global, first: Json, second: Json, third: Json) -> Result<Json, AllocError>
    ensures { IfOk result (λ v. view v ≡ array (item (view first) (item (view second) (item (view third) no_items)))) }
{
    json!(in alloc; [first, second, third])
}

// A text that is written so here.
fn word(alloc: Global, word: &str) -> Result<Json, AllocError>
    ensures { IfOk result (λ v. view v ≡ string word.now) }
{
    Json::try_from_str(alloc, word)
}

fn insert_json(alloc: Global, name: &Name, value: &[u8]) -> Result<Json, Fault>
    ensures ok { IfOk result (λ v. view v ≡ array (item (string (codes "insert")) (item (string name.now) (item (string value.now) no_items)))) }
    ensures faults { IfErr result IsUnwritten }
{
    let name = text(alloc, name.as_slice())?;
    let value = text(alloc, value)?;
    Ok(list_of_three(alloc, word(alloc, "insert")?, name, value)?)
}

fn delete_json(alloc: Global, name: &Name) -> Result<Json, Fault>
    ensures ok { IfOk result (λ v. view v ≡ array (item (string (codes "delete")) (item (string name.now) no_items))) }
    ensures faults { IfErr result IsUnwritten }
{
    let name = text(alloc, name.as_slice())?;
    Ok(list_of_two(alloc, word(alloc, "delete")?, name)?)
}

fn delete_range_json(alloc: Global, start: &Name, finish: &Name) -> Result<Json, Fault>
    ensures ok { IfOk result (λ v. view v ≡ array (item (string (codes "delete_range")) (item (string start.now) (item (string finish.now) no_items)))) }
    ensures faults { IfErr result IsUnwritten }
{
    let start = text(alloc, start.as_slice())?;
    let finish = text(alloc, finish.as_slice())?;
    Ok(list_of_three(alloc, word(alloc, "delete_range")?, start, finish)?)
}

fn mutation_json(alloc: Global, mutation: &Mutation) -> Result<Json, Fault>
    ensures ok { IfOk result (λ v. view v ≡ mutation_json mutation.now) }
    ensures faults { IfErr result IsUnwritten }
{
    match mutation {
        Mutation::Insert { name, value } => insert_json(alloc, name, value.as_slice()),
        Mutation::DeleteColumn { name } => delete_json(alloc, name),
        Mutation::DeleteRow => Ok(list_of_one(alloc, word(alloc, "delete_row")?)?),
        Mutation::DeleteRange { start, finish } => delete_range_json(alloc, start, finish),
    }
}

fn change_json(alloc: Global, change: &Change) -> Result<Json, Fault>
    ensures ok { IfOk result (λ v. Spells change_of 2 (view v) change.now) }
    ensures faults { IfErr result IsUnwritten }
{
    let family = text(alloc, change.row.family.as_slice())?;
    let key = text(alloc, change.row.key.as_slice())?;
    let mutation = mutation_json(alloc, &change.mutation)?;
    Ok(list_of_three(alloc, family, key, mutation)?)
}

#[tactic(auto, using(crate::proofs::Spelled::stamp_spelled))]
fn stamp_json(alloc: Global, stamp: Stamp) -> Result<Json, Fault>
    ensures ok { IfOk result (λ v. Spells form.stamp_of 1 (view v) stamp) }
    ensures faults { IfErr result IsUnwritten }
{
    let time = stamp.time().get();
    let node = stamp.node().get();
    Ok(list_of_two(alloc, Json::from(time), Json::from(node))?)
}

#[tactic(auto, using(crate::proofs::Spelled::column_spelled))]
fn column_json(alloc: Global, column: &Column) -> Result<Json, Fault>
    ensures ok { IfOk result (λ v. Spells form.column_of 1 (view v) column.now) }
    ensures faults { IfErr result IsUnwritten }
{
    let name = text(alloc, column.name.as_slice())?;
    let value = text(alloc, column.value.as_slice())?;
    Ok(list_of_two(alloc, name, value)?)
}

#[tactic(auto, using(crate::proofs::Spelled::row_spelled))]
fn row_json(
    alloc: Global,
    families: &Schema,
    homes: usize,
    row: &AnsweredRow,
) -> Result<Json, Fault>
    ensures ok { IfOk result (λ v. Spells form.row_of 3 (view v) row.now) }
    ensures faults { IfErr result IsUnwritten }
{
    let key = text(alloc, row.key.as_slice())?;
    let columns = list_json(alloc, families, homes, row.columns.as_slice())?;
    Ok(list_of_two(alloc, key, columns)?)
}

fn entry_object(alloc: Global, batch: Json, commit: u64, stamp: Json) -> Result<Json, AllocError>
    ensures { IfOk result (λ v. view v ≡ object (member (codes "batch") (view batch) (member (codes "commit") (number (unsigned commit)) (member (codes "stamp") (view stamp) no_members)))) }
{
    json!(in alloc; {"batch": batch, "commit": commit, "stamp": stamp})
}

// Refuses what a store of these families would refuse.
fn accept_batch(families: &Schema, entry: &Committed) -> Result<(), Fault>
    ensures ok { IfOk result (λ done. batch_fault families.now entry.now.batch ≡ None) }
    ensures faults { IfErr result IsUnwritten }
{
    match check_batch(families, &entry.batch) {
        Ok(()) => Ok(()),
        Err(_) => Err(Fault::Script),
    }
}

#[tactic(auto, using(crate::proofs::Spelled::entry_spelled))]
fn entry_json(
    alloc: Global,
    families: &Schema,
    homes: usize,
    entry: &Committed,
) -> Result<Json, Fault>
    ensures ok { IfOk result (λ v. Spells (form.entry_of families.now) 4 (view v) entry.now) }
    ensures faults { IfErr result IsUnwritten }
{
    accept_batch(families, entry)?;
    let batch = list_json(alloc, families, homes, entry.batch.as_slice())?;
    let stamp = stamp_json(alloc, entry.stamp)?;
    let commit = entry.commit.get();
    Ok(entry_object(alloc, batch, commit, stamp)?)
}

fn names_object(alloc: Global, names: Json) -> Result<Json, AllocError>
    ensures { IfOk result (λ v. view v ≡ object (member (codes "names") (view names) no_members)) }
{
    json!(in alloc; {"names": names})
}

#[tactic(auto, using(crate::proofs::Spelled::names_spelled))]
fn names_json(alloc: Global, families: &Schema, names: &[Name]) -> Result<Json, Fault>
    ensures ok { IfOk result (λ v. Spells predicate_of 2 (view v) (asks.Names names.now)) }
    ensures faults { IfErr result IsUnwritten }
{
    let names = list_json(alloc, families, 0, names)?;
    Ok(names_object(alloc, names)?)
}

fn bounds_object(
    alloc: Global,
    count: u32,
    finish: Json,
    reversed: bool,
    start: Json,
) -> Result<Json, AllocError>
    ensures { IfOk result (λ v. view v ≡ object (member (codes "count") (number (unsigned count)) (member (codes "finish") (view finish) (member (codes "reversed") (boolean reversed) (member (codes "start") (view start) no_members))))) }
{
    json!(in alloc; {"count": count, "finish": finish, "reversed": reversed, "start": start})
}

fn range_object(alloc: Global, range: Json) -> Result<Json, AllocError>
    ensures { IfOk result (λ v. view v ≡ object (member (codes "range") (view range) no_members)) }
{
    json!(in alloc; {"range": range})
}

#[tactic(auto, using(crate::proofs::Spelled::range_spelled))]
fn range_json(
    alloc: Global,
    start: &Name,
    finish: &Name,
    reversed: bool,
    count: u32,
) -> Result<Json, Fault>
    ensures ok { IfOk result (λ v. Spells predicate_of 2 (view v) (asks.Range start.now finish.now reversed count)) }
    ensures faults { IfErr result IsUnwritten }
{
    let start = text(alloc, start.as_slice())?;
    let finish = text(alloc, finish.as_slice())?;
    let bounds = bounds_object(alloc, count, finish, reversed, start)?;
    Ok(range_object(alloc, bounds)?)
}

fn predicate_json(alloc: Global, families: &Schema, predicate: &Predicate) -> Result<Json, Fault>
    ensures ok { IfOk result (λ v. Spells predicate_of 2 (view v) predicate.now) }
    ensures faults { IfErr result IsUnwritten }
{
    match predicate {
        Predicate::Names(names) => names_json(alloc, families, names.as_slice()),
        Predicate::Range {
            start,
            finish,
            reversed,
            count,
        } => range_json(alloc, start, finish, *reversed, *count),
    }
}

// Refuses what a store of these families would refuse.
fn accept_read(families: &Schema, read: &Read) -> Result<(), Fault>
    ensures ok { IfOk result (λ done. read_fault families.now read.now ≡ None) }
    ensures faults { IfErr result IsUnwritten }
{
    match check_read(families, read) {
        Ok(()) => Ok(()),
        Err(_) => Err(Fault::Script),
    }
}

#[tactic(auto, using(crate::proofs::Spelled::read_spelled))]
fn read_json(alloc: Global, families: &Schema, read: &Read) -> Result<Json, Fault>
    ensures ok { IfOk result (λ v. Spells (form.read_of families.now) 3 (view v) read.now) }
    ensures faults { IfErr result IsUnwritten }
{
    accept_read(families, read)?;
    let family = text(alloc, read.family.as_slice())?;
    let keys = list_json(alloc, families, 0, read.keys.as_slice())?;
    let predicate = predicate_json(alloc, families, &read.predicate)?;
    Ok(list_of_three(alloc, family, keys, predicate)?)
}

fn answered_object(
    alloc: Global,
    answer: Json,
    time: u64,
    home: usize,
    read: Json,
) -> Result<Json, AllocError>
    ensures { IfOk result (λ v. view v ≡ object (member (codes "answer") (view answer) (member (codes "at") (number (unsigned time)) (member (codes "home") (number (unsigned home)) (member (codes "read") (view read) no_members))))) }
{
    json!(in alloc; {"answer": answer, "at": time, "home": home, "read": read})
}

#[tactic(auto, using(crate::proofs::Spelled::answered_spelled))]
fn answered_json(
    alloc: Global,
    families: &Schema,
    homes: usize,
    read: &Answered,
) -> Result<Json, Fault>
    ensures ok { IfOk result (λ v. Spells (form.answered_of families.now homes) 5 (view v) read.now) }
    ensures faults { IfErr result IsUnwritten }
{
    if read.home >= homes {
        return Err(Fault::Script);
    }
    let asked = read_json(alloc, families, &read.read)?;
    let answer = list_json(alloc, families, homes, read.answer.as_slice())?;
    let time = read.time.get();
    Ok(answered_object(alloc, answer, time, read.home, asked)?)
}

// Copies of the names, which share their bytes.
fn copies_of(alloc: Global, families: &[Family]) -> Result<Vec<Family>, Fault>
    ensures ok { IfOk result (λ copies. copies.items ≡ families.now) }
    ensures faults { IfErr result IsUnwritten }
{
    let mut copies = Vec::with_capacity(alloc, families.len())?;
    for family in families {
        copies.push(family.clone()?)?;
    }
    Ok(copies)
}

// The families; `Script` where they are no schema.
fn families_json(alloc: Global, families: &Schema) -> Result<Json, Fault>
    ensures list { IfOk result (λ v. Spells (list_by as_str) 1 (view v) families.now) }
    ensures schema { IfOk result (λ v. is_schema families.now ≡ true) }
    ensures faults { IfErr result IsUnwritten }
{
    let copies = copies_of(alloc, families.families())?;
    if Schema::new(copies).is_none() {
        return Err(Fault::Script);
    }
    list_json(alloc, families, 0, families.families())
}

fn recorded_object(
    alloc: Global,
    families: Json,
    histories: Json,
    reads: Json,
) -> Result<Json, AllocError>
    ensures { IfOk result (λ v. view v ≡ object (member (codes "families") (view families) (member (codes "histories") (view histories) (member (codes "reads") (view reads) no_members)))) }
{
    json!(in alloc; {"families": families, "histories": histories, "reads": reads})
}

#[tactic(auto, using(crate::proofs::Spelled::recorded_spelled))]
fn recorded_json(alloc: Global, recorded: &Recorded) -> Result<Json, Fault>
    ensures ok { IfOk result (λ v. Spells form.recorded_of 7 (view v) recorded.now) }
    ensures faults { IfErr result IsUnwritten }
{
    let schema = recorded.families();
    let homes = recorded.histories().len();
    let families = families_json(alloc, schema)?;
    let histories = list_json(alloc, schema, homes, recorded.histories())?;
    let reads = list_json(alloc, schema, homes, recorded.reads())?;
    Ok(recorded_object(alloc, families, histories, reads)?)
}

/// A JSON text that records these histories and reads: reading it gives them. Refused with `Script` where a key, a name or a
/// value is no UTF-8, which no text of JSON can hold, where a store of these families would refuse a batch or a read, or where
/// a home is no place of a history; and with `Memory`. Linear in the text.
#[tactic(auto, using(crate::proofs::Listed::text_spelled_back))]
pub fn recorded_text(alloc: Global, recorded: &Recorded) -> Result<String, Fault>
    ensures reads_back { IfOk result (λ text. recorded_in (string_bytes text) ≡ Some recorded.now) }
    ensures faults { IfErr result IsUnwritten }
{
    let json = recorded_json(alloc, recorded)?;
    Ok(json.to_string(alloc)?)
}
