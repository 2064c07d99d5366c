//! Scripts as JSON texts.
ghost use Rattle.std.specs.Prelude.{◌≡◌, map, option_and_then, codes};
ghost use Rattle.serde_json.specs.Find.{as_str, get};
ghost use Rattle.serde_json.specs.Read.{read};
ghost use Rattle.serde_json.specs.View.{view};
ghost use Rattle.workload.specs.Gives.{Gives, GivesSeen};
ghost use Rattle.workload.specs.Shape.{whole_of, member_by, all_by, list_by, list_within as items_within};
ghost use Rattle.workload.specs.Script as form;

use crate::heading::{COUNT_END, USUAL_COUNT};
use crate::script::{Events, Script, ScriptEvent};
use crate::shape::{
    Shaped, has_items, has_members, item, list, list_of, member, member_as, members_named,
    number_at, part_at, text_at, whole_below,
};
use crate::streaming::{self, streamed};
use column_family::{Batch, Change, Family, Key, Mutation, Name, Row, Schema, Value};
use json::Reader;
use logical_time::{Fault, Node, Time};
use messages::{Op, Topology};
use serde_json::Value as Json;
use slice::{Keys, Names, Predicate, Read};
use std::alloc::Global;

/// How many events a script may have.
pub(crate) const MOST_EVENTS: usize = 100_000;
/// The first number that has more than 16 bits: 2^16.
const SMALL_END: u64 = 0x1_0000;

impl Shaped for Family {
    ghost stands_for = { as_str };

    fn of_json(alloc: Global, json: &Json) -> Result<Family, Fault> {
        let text = json.as_str().ok_or(Fault::Script)?;
        Ok(Family::from_slice(alloc, text.as_bytes())?)
    }

    #[tactic(auto, using(crate::proofs::Streams::text_reads))]
    fn of_reader(alloc: Global, reader: &mut Reader<'_>, depth: usize) -> Option<Family> {
        let text = streaming::text(reader)?;
        match Family::from_slice(alloc, text.as_bytes()) {
            Ok(made) => Some(made),
            Err(_) => None,
        }
    }
}

impl Shaped for Key {
    ghost stands_for = { as_str };

    fn of_json(alloc: Global, json: &Json) -> Result<Key, Fault> {
        let text = json.as_str().ok_or(Fault::Script)?;
        Ok(Key::from_slice(alloc, text.as_bytes())?)
    }

    #[tactic(auto, using(crate::proofs::Streams::text_reads))]
    fn of_reader(alloc: Global, reader: &mut Reader<'_>, depth: usize) -> Option<Key> {
        let text = streaming::text(reader)?;
        match Key::from_slice(alloc, text.as_bytes()) {
            Ok(made) => Some(made),
            Err(_) => None,
        }
    }
}

impl Shaped for Name {
    ghost stands_for = { as_str };

    fn of_json(alloc: Global, json: &Json) -> Result<Name, Fault> {
        let text = json.as_str().ok_or(Fault::Script)?;
        Ok(Name::from_slice(alloc, text.as_bytes())?)
    }

    #[tactic(auto, using(crate::proofs::Streams::text_reads))]
    fn of_reader(alloc: Global, reader: &mut Reader<'_>, depth: usize) -> Option<Name> {
        let text = streaming::text(reader)?;
        match Name::from_slice(alloc, text.as_bytes()) {
            Ok(made) => Some(made),
            Err(_) => None,
        }
    }
}

impl Shaped for Value {
    ghost stands_for = { as_str };

    fn of_json(alloc: Global, json: &Json) -> Result<Value, Fault> {
        let text = json.as_str().ok_or(Fault::Script)?;
        Ok(Value::from_slice(alloc, text.as_bytes())?)
    }

    #[tactic(auto, using(crate::proofs::Streams::text_reads))]
    fn of_reader(alloc: Global, reader: &mut Reader<'_>, depth: usize) -> Option<Value> {
        let text = streaming::text(reader)?;
        match Value::from_slice(alloc, text.as_bytes()) {
            Ok(made) => Some(made),
            Err(_) => None,
        }
    }
}

impl Shaped for Keys {
    ghost stands_for = { list_by as_str };

    fn of_json(alloc: Global, json: &Json) -> Result<Keys, Fault> {
        Ok(Keys::from_vec(alloc, list_of(alloc, json)?)?)
    }

    fn of_reader(alloc: Global, reader: &mut Reader<'_>, depth: usize) -> Option<Keys> {
        Keys::from_vec(alloc, streaming::list_in(alloc, reader, depth)?).ok()
    }
}

impl Shaped for Mutation {
    ghost stands_for = { form.mutation_of };

    fn of_json(alloc: Global, json: &Json) -> Result<Mutation, Fault> {
        mutation(alloc, json)
    }

    fn of_reader(alloc: Global, reader: &mut Reader<'_>, depth: usize) -> Option<Mutation> {
        streaming::mutation(alloc, reader, depth)
    }
}

impl Shaped for Predicate {
    ghost stands_for = { form.predicate_of };

    fn of_json(alloc: Global, json: &Json) -> Result<Predicate, Fault> {
        predicate(alloc, json)
    }

    fn of_reader(alloc: Global, reader: &mut Reader<'_>, depth: usize) -> Option<Predicate> {
        streaming::predicate(alloc, reader, depth)
    }
}

impl Shaped for Change {
    ghost stands_for = { form.change_of };

    fn of_json(alloc: Global, json: &Json) -> Result<Change, Fault> {
        change(alloc, json)
    }

    fn of_reader(alloc: Global, reader: &mut Reader<'_>, depth: usize) -> Option<Change> {
        streaming::change(alloc, reader, depth)
    }
}

impl Shaped for u16 {
    ghost stands_for = { form.small_of };

    fn of_json(_alloc: Global, json: &Json) -> Result<u16, Fault> {
        Ok(whole_below(json, SMALL_END)? as u16)
    }

    fn of_reader(_alloc: Global, reader: &mut Reader<'_>, depth: usize) -> Option<u16> {
        Some(streaming::number_below(reader, depth, SMALL_END)? as u16)
    }
}

impl Shaped for usize {
    ghost stands_for = { whole_of };

    fn of_json(_alloc: Global, json: &Json) -> Result<usize, Fault> {
        Ok(json.as_u64().ok_or(Fault::Script)? as usize)
    }

    fn of_reader(_alloc: Global, reader: &mut Reader<'_>, depth: usize) -> Option<usize> {
        Some(streaming::number(reader, depth)? as usize)
    }
}

impl Shaped for Time {
    ghost stands_for = { form.time_of };

    fn of_json(_alloc: Global, json: &Json) -> Result<Time, Fault> {
        Time::new(json.as_u64().ok_or(Fault::Script)?).ok_or(Fault::Script)
    }

    fn of_reader(_alloc: Global, reader: &mut Reader<'_>, depth: usize) -> Option<Time> {
        Time::new(streaming::number(reader, depth)?)
    }
}

impl Shaped for Schema {
    ghost stands_for = { form.families_of };

    fn of_json(alloc: Global, json: &Json) -> Result<Schema, Fault> {
        families(alloc, json)
    }

    fn of_reader(alloc: Global, reader: &mut Reader<'_>, depth: usize) -> Option<Schema> {
        Schema::new(streaming::list_in(alloc, reader, depth)?)
    }
}

#[tactic(auto, unfolding(crate::specs::Script::insert_of))]
fn insert(alloc: Global, json: &Json) -> Result<Mutation, Fault>
    ensures { Gives result (form.insert_of (view json.now)) }
{
    if !has_items(json, 3) {
        return Err(Fault::Script);
    }
    let name = part_at(alloc, json, 1)?;
    let value = part_at(alloc, json, 2)?;
    Ok(Mutation::Insert { name, value })
}

#[tactic(auto, unfolding(crate::specs::Script::delete_of))]
fn delete(alloc: Global, json: &Json) -> Result<Mutation, Fault>
    ensures { Gives result (form.delete_of (view json.now)) }
{
    if !has_items(json, 2) {
        return Err(Fault::Script);
    }
    let name = part_at(alloc, json, 1)?;
    Ok(Mutation::DeleteColumn { name })
}

#[tactic(auto, unfolding(crate::specs::Script::delete_row_of))]
fn delete_row(json: &Json) -> Result<Mutation, Fault>
    ensures { Gives result (form.delete_row_of (view json.now)) }
{
    if has_items(json, 1) {
        Ok(Mutation::DeleteRow)
    } else {
        Err(Fault::Script)
    }
}

#[tactic(auto, unfolding(crate::specs::Script::delete_range_of))]
fn delete_range(alloc: Global, json: &Json) -> Result<Mutation, Fault>
    ensures { Gives result (form.delete_range_of (view json.now)) }
{
    if !has_items(json, 3) {
        return Err(Fault::Script);
    }
    let start = part_at(alloc, json, 1)?;
    let finish = part_at(alloc, json, 2)?;
    Ok(Mutation::DeleteRange { start, finish })
}

#[tactic(auto, unfolding(crate::specs::Script::mutation_of))]
fn mutation(alloc: Global, json: &Json) -> Result<Mutation, Fault>
    ensures { Gives result (form.mutation_of (view json.now)) }
{
    let tag = text_at(json, 0)?;
    if tag == "insert" {
        insert(alloc, json)
    } else if tag == "delete" {
        delete(alloc, json)
    } else if tag == "delete_row" {
        delete_row(json)
    } else if tag == "delete_range" {
        delete_range(alloc, json)
    } else {
        Err(Fault::Script)
    }
}

#[tactic(auto, unfolding(crate::specs::Script::change_of))]
fn change(alloc: Global, json: &Json) -> Result<Change, Fault>
    ensures { Gives result (form.change_of (view json.now)) }
{
    if !has_items(json, 3) {
        return Err(Fault::Script);
    }
    let row = Row {
        family: part_at(alloc, json, 0)?,
        key: part_at(alloc, json, 1)?,
    };
    let mutation = part_at(alloc, json, 2)?;
    Ok(Change { row, mutation })
}

// An end of a range, open where it isn't there.
fn end(alloc: Global, json: &Json, name: &str) -> Result<Name, Fault>
    ensures { Gives result (form.end_of (get name.now (view json.now))) }
{
    match json.get(name) {
        Some(end) => Name::of_json(alloc, end),
        None => Ok(Name::from_slice(alloc, b"")?),
    }
}

fn reversed(json: &Json) -> Result<bool, Fault>
    ensures { Gives result (form.reversed_of (get (codes "reversed") (view json.now))) }
{
    match json.get("reversed") {
        Some(flag) => flag.as_bool().ok_or(Fault::Script),
        None => Ok(false),
    }
}

fn count(json: &Json) -> Result<u32, Fault>
    ensures { Gives result (form.count_of (get (codes "count") (view json.now))) }
{
    match json.get("count") {
        Some(number) => Ok(whole_below(number, COUNT_END)? as u32),
        None => Ok(USUAL_COUNT),
    }
}

// How many of the members of a range are there.
fn range_members(json: &Json) -> usize
    ensures { result ≡ form.range_members (view json.now) }
{
    let ends = members_named(json, "start") + members_named(json, "finish");
    ends + members_named(json, "reversed") + members_named(json, "count")
}

#[tactic(auto, unfolding(crate::specs::Script::range_of))]
fn range(alloc: Global, json: &Json) -> Result<Predicate, Fault>
    ensures { Gives result (form.range_of (view json.now)) }
{
    if !has_members(json, range_members(json)) {
        return Err(Fault::Script);
    }
    let reversed = reversed(json)?;
    let count = count(json)?;
    let start = end(alloc, json, "start")?;
    let finish = end(alloc, json, "finish")?;
    Ok(Predicate::Range {
        start,
        finish,
        reversed,
        count,
    })
}

#[tactic(auto, unfolding(crate::specs::Script::names_of))]
fn names(alloc: Global, json: &Json) -> Result<Predicate, Fault>
    ensures { Gives result (form.names_of (view json.now)) }
{
    Ok(Predicate::Names(Names::from_vec(alloc, list_of(alloc, json)?)?))
}

#[tactic(auto, unfolding(crate::specs::Script::predicate_of))]
fn predicate(alloc: Global, json: &Json) -> Result<Predicate, Fault>
    ensures { Gives result (form.predicate_of (view json.now)) }
{
    if !has_members(json, 1) {
        return Err(Fault::Script);
    }
    if let Some(listed) = json.get("names") {
        return names(alloc, listed);
    }
    range(alloc, member(json, "range")?)
}

#[tactic(auto, unfolding(crate::specs::Script::read_of))]
fn read_op(alloc: Global, json: &Json) -> Result<Op, Fault>
    ensures { Gives result (form.read_of (view json.now)) }
{
    if !has_items(json, 3) {
        return Err(Fault::Script);
    }
    let family = part_at(alloc, json, 0)?;
    let keys = part_at(alloc, json, 1)?;
    let predicate = part_at(alloc, json, 2)?;
    let read = Read {
        family,
        keys,
        predicate,
    };
    Ok(Op::read(alloc, read)?)
}

#[tactic(auto, unfolding(crate::specs::Script::batch_of))]
fn batch(alloc: Global, json: &Json) -> Result<Op, Fault>
    ensures { Gives result (form.batch_of (view json.now)) }
{
    let changes = list_of(alloc, json)?;
    Ok(Op::write(alloc, Batch::from_changes(changes))?)
}

// A data centre of the topology, to which a session moves.
#[tactic(auto, unfolding(crate::specs::Script::move_of))]
fn move_op(topology: &Topology, json: &Json) -> Result<Op, Fault>
    ensures { Gives result (form.move_of topology.now (view json.now)) }
{
    let dc = whole_below(json, u64::from(topology.dcs()))? as u16;
    Ok(Op::Move { dc })
}

#[tactic(auto, unfolding(crate::specs::Script::op_of))]
fn op(alloc: Global, topology: &Topology, json: &Json) -> Result<Op, Fault>
    ensures { Gives result (form.op_of topology.now (view json.now)) }
{
    if !has_members(json, 1) {
        return Err(Fault::Script);
    }
    if let Some(changes) = json.get("batch") {
        return batch(alloc, changes);
    }
    if let Some(asked) = json.get("read") {
        return read_op(alloc, asked);
    }
    move_op(topology, member(json, "move")?)
}

#[tactic(auto, unfolding(crate::specs::Script::submit_of))]
fn submit(alloc: Global, topology: &Topology, json: &Json) -> Result<ScriptEvent, Fault>
    ensures { Gives result (form.submit_of topology.now (view json.now)) }
{
    if !has_items(json, 3) {
        return Err(Fault::Script);
    }
    let session = number_at(json, 1, topology.homes().len() as u64)? as u16;
    let op = op(alloc, topology, item(json, 2)?)?;
    Ok(ScriptEvent::Submit {
        session: topology.session_node(session),
        op,
    })
}

#[tactic(auto, unfolding(crate::specs::Script::deliver_of))]
fn deliver(alloc: Global, json: &Json) -> Result<ScriptEvent, Fault>
    ensures { Gives result (form.deliver_of (view json.now)) }
{
    if !has_items(json, 2) {
        return Err(Fault::Script);
    }
    let number = part_at(alloc, json, 1)?;
    Ok(ScriptEvent::Deliver { number })
}

#[tactic(auto, unfolding(crate::specs::Script::collect_of))]
fn collect(alloc: Global, topology: &Topology, json: &Json) -> Result<ScriptEvent, Fault>
    ensures { Gives result (form.collect_of topology.now (view json.now)) }
{
    if !has_items(json, 3) {
        return Err(Fault::Script);
    }
    let shard = number_at(json, 1, u64::from(topology.shard_count()))? as u16;
    let time = part_at(alloc, json, 2)?;
    Ok(ScriptEvent::Collect {
        shard: Node::new(shard),
        time,
    })
}

#[tactic(auto, unfolding(crate::specs::Script::drain_of))]
fn drain(json: &Json) -> Result<ScriptEvent, Fault>
    ensures { Gives result (form.drain_of (view json.now)) }
{
    if has_items(json, 1) {
        Ok(ScriptEvent::Drain)
    } else {
        Err(Fault::Script)
    }
}

#[tactic(auto, unfolding(crate::specs::Script::event_of))]
fn event(alloc: Global, topology: &Topology, json: &Json) -> Result<ScriptEvent, Fault>
    ensures { Gives result (form.event_of topology.now (view json.now)) }
{
    let tag = text_at(json, 0)?;
    if tag == "submit" {
        submit(alloc, topology, json)
    } else if tag == "deliver" {
        deliver(alloc, json)
    } else if tag == "collect" {
        collect(alloc, topology, json)
    } else if tag == "drain" {
        drain(json)
    } else {
        Err(Fault::Script)
    }
}

// What each item stands for, in order.
fn each_event(
    alloc: Global,
    topology: &Topology,
    items: &Vec<Json>,
) -> Result<Vec<ScriptEvent>, Fault>
    ensures { GivesSeen (λ v. v.items) result (all_by (form.event_of topology.now) (map view items.now.items)) }
{
    let mut all = Vec::new(alloc);
    for item in items {
        all.push(event(alloc, topology, item)?)?;
    }
    Ok(all)
}

// What each item of a list stands for, of which there may be so many.
fn each_within(alloc: Global, topology: &Topology, json: &Json) -> Result<Vec<ScriptEvent>, Fault>
    ensures { GivesSeen (λ v. v.items) result (items_within (form.event_of topology.now) 100000 (view json.now)) }
{
    let items = list(json)?;
    if items.len() > MOST_EVENTS {
        return Err(Fault::Script);
    }
    each_event(alloc, topology, items)
}

fn events(alloc: Global, topology: &Topology, json: &Json) -> Result<Events, Fault>
    ensures { Gives result (items_within (form.event_of topology.now) 100000 (view json.now)) }
{
    Ok(Events::from_vec(each_within(alloc, topology, json)?))
}

#[tactic(auto, unfolding(crate::specs::Script::families_of))]
fn families(alloc: Global, json: &Json) -> Result<Schema, Fault>
    ensures { Gives result (form.families_of (view json.now)) }
{
    Schema::new(list_of(alloc, json)?).ok_or(Fault::Script)
}

fn homes(alloc: Global, json: &Json) -> Result<Vec<u16>, Fault>
    ensures { GivesSeen (λ v. v.items) result (member_by (list_by form.small_of) (codes "homes") (view json.now)) }
{
    list_of(alloc, member(json, "homes")?)
}

#[tactic(auto, unfolding(crate::specs::Script::topology_of))]
fn topology(alloc: Global, json: &Json) -> Result<Topology, Fault>
    ensures { Gives result (form.topology_of (view json.now)) }
{
    let dcs = member_as(alloc, json, "dcs")?;
    let shards = member_as(alloc, json, "shards")?;
    let schema = member_as(alloc, json, "families")?;
    let homes = homes(alloc, json)?;
    Topology::new(dcs, shards, schema, homes)
}

#[tactic(auto, unfolding(crate::specs::Script::script_of))]
fn script(alloc: Global, json: &Json) -> Result<Script, Fault>
    ensures { Gives result (form.script_of (view json.now)) }
{
    if !has_members(json, 5) {
        return Err(Fault::Script);
    }
    let topology = topology(alloc, json)?;
    let events = events(alloc, &topology, member(json, "events")?)?;
    Ok(Script { topology, events })
}

/// The script that the value of a JSON text stands for, as `serde_json` reads it: of a member that is written twice, the last
/// one counts. Refused with `Script` exactly where the text is no JSON that it reads, which nests at most 127 deep, or where its
/// value stands for no script; or with `Memory`. Linear in the text.
pub fn read_script(alloc: Global, text: &str) -> Result<Script, Fault>
    ensures { Gives result (option_and_then form.script_of (read text.now)) }
{
    if let Some(script) = streamed(alloc, text) {
        return Ok(script);
    }
    match Json::from_str(alloc, text) {
        Ok(json) => script(alloc, &json),
        Err(error) if error.is_memory() => Err(Fault::Memory),
        Err(_) => Err(Fault::Script),
    }
}
