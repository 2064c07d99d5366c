//! Recorded histories as JSON texts.
ghost use Rattle.std.specs.Prelude.{ℕ, List, Option, map, option_and_then, codes};
ghost use Rattle.serde_json.specs.Data.{Data};
ghost use Rattle.serde_json.specs.Read.{read};
ghost use Rattle.serde_json.specs.View.{view};
ghost use Rattle.workload.specs.Gives.{Gives, GivesSeen};
ghost use Rattle.workload.specs.Shape.{all_by, list_by, member_by, whole_below as below};
ghost use Rattle.workload.specs.Script.{change_of};
ghost use Rattle.recorded.specs.Reading as form;

use crate::recorded::Recorded;
use audit::Answered;
use column_family::{Batch, Committed, Schema};
use logical_time::{Fault, Node, Stamp};
use planner::{check_batch, check_read};
use serde_json::Value as Json;
use slice::{Answer, AnsweredRow, Column, Columns, Read};
use std::alloc::Global;
use table::History;
use workload::{
    has_items, has_members, item, list, list_of, member, member_as, part_at, whole_below,
};

/// A type whose values JSON values stand for, in a record of a store with column families and so many histories.
trait Piece: Drop + Sized {
    ghost stands_for: { List (List ℕ) → ℕ → Data → Option Self };

    /// The value that the JSON value stands for; `Script` where there is none.
    fn of_json(alloc: Global, families: &Schema, homes: usize, json: &Json) -> Result<Self, Fault>
        ensures { Gives result (stands_for families.now homes (view json.now)) };
}

impl Piece for Column {
    ghost stands_for = { λ families homes. form.column_of };

    fn of_json(
        alloc: Global,
        _families: &Schema,
        _homes: usize,
        json: &Json,
    ) -> Result<Column, Fault> {
        column(alloc, json)
    }
}

impl Piece for History {
    ghost stands_for = { λ families homes. form.history_of families };

    fn of_json(
        alloc: Global,
        families: &Schema,
        _homes: usize,
        json: &Json,
    ) -> Result<History, Fault> {
        history(alloc, families, json)
    }
}

impl Piece for Answered {
    ghost stands_for = { form.answered_of };

    fn of_json(
        alloc: Global,
        families: &Schema,
        homes: usize,
        json: &Json,
    ) -> Result<Answered, Fault> {
        answered(alloc, families, homes, json)
    }
}

// What each item stands for, in order; `Script` where one stands for nothing.
fn each<T: Piece>(
    alloc: Global,
    families: &Schema,
    homes: usize,
    items: &Vec<Json>,
) -> Result<Vec<T>, Fault>
    ensures { GivesSeen (λ v. v.items) result (all_by (T.stands_for families.now homes) (map view items.now.items)) }
{
    let mut all = Vec::with_capacity(alloc, items.len())?;
    for item in items {
        all.push(T::of_json(alloc, families, homes, item)?)?;
    }
    Ok(all)
}

// What the items of a list stand for.
fn pieces<T: Piece>(
    alloc: Global,
    families: &Schema,
    homes: usize,
    json: &Json,
) -> Result<Vec<T>, Fault>
    ensures { GivesSeen (λ v. v.items) result (list_by (T.stands_for families.now homes) (view json.now)) }
{
    each(alloc, families, homes, list(json)?)
}

#[tactic(auto, unfolding(crate::specs::Reading::stamp_of))]
fn stamp(alloc: Global, json: &Json) -> Result<Stamp, Fault>
    ensures { Gives result (form.stamp_of (view json.now)) }
{
    if !has_items(json, 2) {
        return Err(Fault::Script);
    }
    let time = part_at(alloc, json, 0)?;
    let node = part_at(alloc, json, 1)?;
    Ok(Stamp::new(time, Node::new(node)))
}

fn batch(alloc: Global, json: &Json) -> Result<Batch, Fault>
    ensures { Gives result (list_by change_of (view json.now)) }
{
    Ok(Batch::from_changes(list_of(alloc, json)?))
}

// The entry, where a store of these families accepts its batch.
fn accepted_entry(families: &Schema, entry: Committed) -> Result<Committed, Fault>
    ensures { Gives result (form.accepted_entry families.now entry) }
{
    match check_batch(families, &entry.batch) {
        Ok(()) => Ok(entry),
        Err(_) => Err(Fault::Script),
    }
}

#[tactic(auto, unfolding(crate::specs::Reading::entry_of))]
fn entry(alloc: Global, families: &Schema, json: &Json) -> Result<Committed, Fault>
    ensures { Gives result (form.entry_of families.now (view json.now)) }
{
    if !has_members(json, 3) {
        return Err(Fault::Script);
    }
    let batch = batch(alloc, member(json, "batch")?)?;
    let stamp = stamp(alloc, member(json, "stamp")?)?;
    let commit = member_as(alloc, json, "commit")?;
    accepted_entry(
        families,
        Committed {
            batch,
            stamp,
            commit,
        },
    )
}

// What each item stands for, in order.
fn each_entry(alloc: Global, families: &Schema, items: &Vec<Json>) -> Result<History, Fault>
    ensures { Gives result (all_by (form.entry_of families.now) (map view items.now.items)) }
{
    let mut history = History::new(alloc);
    for item in items {
        history.push(entry(alloc, families, item)?)?;
    }
    Ok(history)
}

fn history(alloc: Global, families: &Schema, json: &Json) -> Result<History, Fault>
    ensures { Gives result (form.history_of families.now (view json.now)) }
{
    each_entry(alloc, families, list(json)?)
}

#[tactic(auto, unfolding(crate::specs::Reading::column_of))]
fn column(alloc: Global, json: &Json) -> Result<Column, Fault>
    ensures { Gives result (form.column_of (view json.now)) }
{
    if !has_items(json, 2) {
        return Err(Fault::Script);
    }
    let name = part_at(alloc, json, 0)?;
    let value = part_at(alloc, json, 1)?;
    Ok(Column { name, value })
}

fn columns(alloc: Global, families: &Schema, json: &Json) -> Result<Columns, Fault>
    ensures { Gives result (list_by form.column_of (view json.now)) }
{
    Ok(Columns::from_vec(alloc, pieces(alloc, families, 0, json)?)?)
}

#[tactic(auto, unfolding(crate::specs::Reading::row_of))]
fn row(alloc: Global, families: &Schema, json: &Json) -> Result<AnsweredRow, Fault>
    ensures { Gives result (form.row_of (view json.now)) }
{
    if !has_items(json, 2) {
        return Err(Fault::Script);
    }
    let key = part_at(alloc, json, 0)?;
    let columns = columns(alloc, families, item(json, 1)?)?;
    Ok(AnsweredRow { key, columns })
}

// What each item stands for, in order.
fn each_row(alloc: Global, families: &Schema, items: &Vec<Json>) -> Result<Answer, Fault>
    ensures { Gives result (all_by form.row_of (map view items.now.items)) }
{
    let mut answer = Answer::with_capacity(alloc, items.len())?;
    for item in items {
        answer.push(row(alloc, families, item)?)?;
    }
    Ok(answer)
}

fn answer(alloc: Global, families: &Schema, json: &Json) -> Result<Answer, Fault>
    ensures { Gives result (form.answer_of (view json.now)) }
{
    each_row(alloc, families, list(json)?)
}

// The read, where a store of these families accepts it.
fn accepted_read(families: &Schema, read: Read) -> Result<Read, Fault>
    ensures { Gives result (form.accepted_read families.now read) }
{
    match check_read(families, &read) {
        Ok(()) => Ok(read),
        Err(_) => Err(Fault::Script),
    }
}

#[tactic(auto, unfolding(crate::specs::Reading::read_of))]
fn read_in(alloc: Global, families: &Schema, json: &Json) -> Result<Read, Fault>
    ensures { Gives result (form.read_of families.now (view json.now)) }
{
    if !has_items(json, 3) {
        return Err(Fault::Script);
    }
    let family = part_at(alloc, json, 0)?;
    let keys = part_at(alloc, json, 1)?;
    let predicate = part_at(alloc, json, 2)?;
    accepted_read(
        families,
        Read {
            family,
            keys,
            predicate,
        },
    )
}

// The place of one of so many histories.
fn home(json: &Json, homes: usize) -> Result<usize, Fault>
    ensures { Gives result (member_by (below homes) (codes "home") (view json.now)) }
{
    Ok(whole_below(member(json, "home")?, homes as u64)? as usize)
}

#[tactic(auto, unfolding(crate::specs::Reading::answered_of))]
fn answered(alloc: Global, families: &Schema, homes: usize, json: &Json) -> Result<Answered, Fault>
    ensures { Gives result (form.answered_of families.now homes (view json.now)) }
{
    if !has_members(json, 4) {
        return Err(Fault::Script);
    }
    let home = home(json, homes)?;
    let read = read_in(alloc, families, member(json, "read")?)?;
    let time = member_as(alloc, json, "at")?;
    let answer = answer(alloc, families, member(json, "answer")?)?;
    Ok(Answered {
        home,
        read,
        time,
        answer,
    })
}

fn histories(alloc: Global, families: &Schema, json: &Json) -> Result<Vec<History>, Fault>
    ensures { GivesSeen (λ v. v.items) result (member_by (list_by (form.history_of families.now)) (codes "histories") (view json.now)) }
{
    pieces(alloc, families, 0, member(json, "histories")?)
}

fn reads(
    alloc: Global,
    families: &Schema,
    homes: usize,
    json: &Json,
) -> Result<Vec<Answered>, Fault>
    ensures { GivesSeen (λ v. v.items) result (member_by (list_by (form.answered_of families.now homes)) (codes "reads") (view json.now)) }
{
    pieces(alloc, families, homes, member(json, "reads")?)
}

#[tactic(auto, unfolding(crate::specs::Reading::recorded_of))]
fn recorded(alloc: Global, json: &Json) -> Result<Recorded, Fault>
    ensures { Gives result (form.recorded_of (view json.now)) }
{
    if !has_members(json, 3) {
        return Err(Fault::Script);
    }
    let families = member_as(alloc, json, "families")?;
    let histories = histories(alloc, &families, json)?;
    let reads = reads(alloc, &families, histories.len(), json)?;
    Ok(Recorded::new(families, histories, reads))
}

/// The histories and reads that the value of a JSON text stands for, as `serde_json` reads it: of a member that is written
/// twice, the last one counts. Refused with `Script` exactly where the text is no JSON that it reads, which nests at most 127
/// deep, or where its value stands for none; or with `Memory`. Linear in the text.
pub fn read_recorded(alloc: Global, text: &str) -> Result<Recorded, Fault>
    ensures { Gives result (option_and_then form.recorded_of (read text.now)) }
{
    match Json::from_str(alloc, text) {
        Ok(json) => recorded(alloc, &json),
        Err(error) if error.is_memory() => Err(Fault::Memory),
        Err(_) => Err(Fault::Script),
    }
}
