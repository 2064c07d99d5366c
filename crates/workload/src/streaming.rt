//! Scripts read token by token, so that no value of JSON is made of what is long.
//!
//! Here only what stands for a script is told: `reading` tells which texts stand for none.
ghost use Rattle.std.specs.Prelude.{◌≡◌, ◌∷◌, [], Some, true, IfSome, option_and_then};
ghost use Rattle.json.specs.Token as spec;
ghost use Rattle.serde_json.specs.Data.{object, member, no_members};
ghost use Rattle.serde_json.specs.Find.{as_bool};
ghost use Rattle.serde_json.specs.Read.{read};
ghost use Rattle.workload.specs.Shape.{list_by, whole_below as below, whole_of};
ghost use Rattle.workload.specs.Script as form;
ghost use Rattle.workload.specs.Streams.{Reads, ReadsRest, Begins};

use crate::heading::{header, range, topology_in};
use crate::reading::MOST_EVENTS;
use crate::script::{Events, Script, ScriptEvent};
use crate::shape::{Shaped, few_digits};
use column_family::{Batch, Change, Family, Key, Mutation, Name, Row, Value};
use json::{Reader, Scratch, Token};
use logical_time::{Node, Time};
use messages::{Op, Topology};
use slice::{Keys, Names, Predicate, Read};
use std::alloc::Global;

/// How deep lists and objects may nest: as for `serde_json`.
pub(crate) const DEPTH: usize = 127;
/// How many items a list has room for at first: mostly it has no more.
const FEW: usize = 2;

/// Whether a list begins.
pub(crate) fn opens(reader: &mut Reader<'_>) -> bool
    ensures { result ≡ true → reader.old ≡ spec.begin_array ∷ reader.new }
{
    matches!(reader.next(), Some(Token::BeginArray))
}

/// Whether an object begins.
pub(crate) fn opens_object(reader: &mut Reader<'_>) -> bool
    ensures { result ≡ true → reader.old ≡ spec.begin_object ∷ reader.new }
{
    matches!(reader.next(), Some(Token::BeginObject))
}

/// The text that comes next.
pub(crate) fn text<'a>(reader: &mut Reader<'a>) -> Option<&'a str>
    ensures { IfSome result (λ text. reader.old ≡ spec.string text.now ∷ reader.new) }
{
    match reader.next() {
        Some(Token::String(text)) => Some(text),
        _ => None,
    }
}

/// What the items of the list that comes next stand for.
pub(crate) fn list_in<T: Shaped>(
    alloc: Global,
    reader: &mut Reader<'_>,
    depth: usize,
) -> Option<Vec<T>>
    ensures { IfSome result (λ v. Reads (list_by T.stands_for) depth reader.old reader.new v.items) }
{
    if depth == 0 || !opens(reader) {
        return None;
    }
    let mut all = Vec::with_capacity(alloc, FEW).ok()?;
    while !reader.take_end_array() {
        let item = T::of_reader(alloc, reader, depth - 1)?;
        all.push(item).ok()?;
    }
    // a list is kept as long as its script
    if 2 * FEW < all.len() {
        all.shrink_to_fit();
    }
    Some(all)
}

/// A name and a value, and the end of the list.
fn insert(alloc: Global, reader: &mut Reader<'_>, depth: usize) -> Option<Mutation>
    ensures { IfSome result (ReadsRest form.insert_of depth reader.old reader.new) }
{
    let name = Name::of_reader(alloc, reader, depth)?;
    let value = Value::of_reader(alloc, reader, depth)?;
    if !reader.take_end_array() {
        return None;
    }
    Some(Mutation::Insert { name, value })
}

/// A name, and the end of the list.
fn delete(alloc: Global, reader: &mut Reader<'_>, depth: usize) -> Option<Mutation>
    ensures { IfSome result (ReadsRest form.delete_of depth reader.old reader.new) }
{
    let name = Name::of_reader(alloc, reader, depth)?;
    if !reader.take_end_array() {
        return None;
    }
    Some(Mutation::DeleteColumn { name })
}

/// The end of the list.
fn delete_row(reader: &mut Reader<'_>, depth: usize) -> Option<Mutation>
    ensures { IfSome result (ReadsRest form.delete_row_of depth reader.old reader.new) }
{
    if !reader.take_end_array() {
        return None;
    }
    Some(Mutation::DeleteRow)
}

/// Two ends, and the end of the list.
fn delete_range(alloc: Global, reader: &mut Reader<'_>, depth: usize) -> Option<Mutation>
    ensures { IfSome result (ReadsRest form.delete_range_of depth reader.old reader.new) }
{
    let start = Name::of_reader(alloc, reader, depth)?;
    let finish = Name::of_reader(alloc, reader, depth)?;
    if !reader.take_end_array() {
        return None;
    }
    Some(Mutation::DeleteRange { start, finish })
}

/// The mutation that comes next.
pub(crate) fn mutation(alloc: Global, reader: &mut Reader<'_>, depth: usize) -> Option<Mutation>
    ensures { IfSome result (Reads form.mutation_of depth reader.old reader.new) }
{
    if depth == 0 || !opens(reader) {
        return None;
    }
    let tag = text(reader)?;
    if tag == "insert" {
        insert(alloc, reader, depth - 1)
    } else if tag == "delete" {
        delete(alloc, reader, depth - 1)
    } else if tag == "delete_row" {
        delete_row(reader, depth - 1)
    } else if tag == "delete_range" {
        delete_range(alloc, reader, depth - 1)
    } else {
        None
    }
}

/// The change that comes next.
pub(crate) fn change(alloc: Global, reader: &mut Reader<'_>, depth: usize) -> Option<Change>
    ensures { IfSome result (Reads form.change_of depth reader.old reader.new) }
{
    if depth == 0 || !opens(reader) {
        return None;
    }
    let family = Family::of_reader(alloc, reader, depth - 1)?;
    let key = Key::of_reader(alloc, reader, depth - 1)?;
    let mutation = Mutation::of_reader(alloc, reader, depth - 1)?;
    if !reader.take_end_array() {
        return None;
    }
    Some(Change {
        row: Row { family, key },
        mutation,
    })
}

/// The predicate that stands under this name and comes next.
fn predicate_under(
    alloc: Global,
    name: &str,
    reader: &mut Reader<'_>,
    depth: usize,
) -> Option<Predicate>
    ensures { IfSome result (Reads (λ d. form.predicate_of (object (member name.now d no_members))) depth reader.old reader.new) }
{
    if name == "names" {
        let names = list_in(alloc, reader, depth)?;
        match Names::from_vec(alloc, names) {
            Ok(names) => Some(Predicate::Names(names)),
            Err(_) => None,
        }
    } else if name == "range" {
        range(alloc, reader, depth)
    } else {
        None
    }
}

/// The predicate that comes next.
pub(crate) fn predicate(alloc: Global, reader: &mut Reader<'_>, depth: usize) -> Option<Predicate>
    ensures { IfSome result (Reads form.predicate_of depth reader.old reader.new) }
{
    if depth == 0 || !opens_object(reader) {
        return None;
    }
    let Ok(Some(name)) = reader.next_key() else {
        return None;
    };
    let predicate = predicate_under(alloc, name, reader, depth - 1)?;
    match reader.next_key() {
        Ok(None) => Some(predicate),
        _ => None,
    }
}

/// The read that comes next.
fn read(alloc: Global, reader: &mut Reader<'_>, depth: usize) -> Option<Op>
    ensures { IfSome result (Reads form.read_of depth reader.old reader.new) }
{
    if depth == 0 || !opens(reader) {
        return None;
    }
    let family = Family::of_reader(alloc, reader, depth - 1)?;
    let keys = Keys::of_reader(alloc, reader, depth - 1)?;
    let predicate = Predicate::of_reader(alloc, reader, depth - 1)?;
    if !reader.take_end_array() {
        return None;
    }
    let read = Read {
        family,
        keys,
        predicate,
    };
    match Op::read(alloc, read) {
        Ok(op) => Some(op),
        Err(_) => None,
    }
}

/// The data centre, one of the topology, that comes next, and to which a session moves.
fn move_to(topology: &Topology, reader: &mut Reader<'_>, depth: usize) -> Option<Op>
    ensures { IfSome result (Reads (form.move_of topology.now) depth reader.old reader.new) }
{
    let dc = number_below(reader, depth, u64::from(topology.dcs()))? as u16;
    Some(Op::Move { dc })
}

/// The operation that stands under this name and comes next.
fn op_under(
    alloc: Global,
    topology: &Topology,
    name: &str,
    reader: &mut Reader<'_>,
    depth: usize,
) -> Option<Op>
    ensures { IfSome result (Reads (λ d. form.op_of topology.now (object (member name.now d no_members))) depth reader.old reader.new) }
{
    if name == "batch" {
        let changes = list_in(alloc, reader, depth)?;
        match Op::write(alloc, Batch::from_changes(changes)) {
            Ok(op) => Some(op),
            Err(_) => None,
        }
    } else if name == "read" {
        read(alloc, reader, depth)
    } else if name == "move" {
        move_to(topology, reader, depth)
    } else {
        None
    }
}

/// The operation that comes next.
fn op(alloc: Global, topology: &Topology, reader: &mut Reader<'_>, depth: usize) -> Option<Op>
    ensures { IfSome result (Reads (form.op_of topology.now) depth reader.old reader.new) }
{
    if depth == 0 || !opens_object(reader) {
        return None;
    }
    let Ok(Some(name)) = reader.next_key() else {
        return None;
    };
    let op = op_under(alloc, topology, name, reader, depth - 1)?;
    match reader.next_key() {
        Ok(None) => Some(op),
        _ => None,
    }
}

/// The text of the number that comes next.
fn digits<'a>(reader: &mut Reader<'a>) -> Option<&'a str>
    ensures { IfSome result (λ digits. reader.old ≡ spec.number digits.now ∷ reader.new) }
{
    match reader.next() {
        Some(Token::Number(digits)) => Some(digits),
        _ => None,
    }
}

/// The whole number that comes next, if its digits are not too many.
pub(crate) fn number(reader: &mut Reader<'_>, depth: usize) -> Option<u64>
    ensures { IfSome result (Reads whole_of depth reader.old reader.new) }
{
    let digits = digits(reader)?;
    few_digits(digits.as_bytes())
}

/// Whether `true` or `false` comes next.
pub(crate) fn flag(reader: &mut Reader<'_>, depth: usize) -> Option<bool>
    ensures { IfSome result (Reads as_bool depth reader.old reader.new) }
{
    match reader.next() {
        Some(Token::Bool(flag)) => Some(flag),
        _ => None,
    }
}

/// The whole number below an end that comes next.
pub(crate) fn number_below(reader: &mut Reader<'_>, depth: usize, end: u64) -> Option<u64>
    ensures { IfSome result (Reads (below end) depth reader.old reader.new) }
{
    let number = number(reader, depth)?;
    if number < end { Some(number) } else { None }
}

/// A session and an operation, and the end of the list.
fn submit(
    alloc: Global,
    topology: &Topology,
    reader: &mut Reader<'_>,
    depth: usize,
) -> Option<ScriptEvent>
    ensures { IfSome result (ReadsRest (form.submit_of topology.now) depth reader.old reader.new) }
{
    let end = topology.homes().len() as u64;
    let session = number_below(reader, depth, end)? as u16;
    let op = op(alloc, topology, reader, depth)?;
    if !reader.take_end_array() {
        return None;
    }
    Some(ScriptEvent::Submit {
        session: topology.session_node(session),
        op,
    })
}

/// The number of a message, and the end of the list.
fn deliver(alloc: Global, reader: &mut Reader<'_>, depth: usize) -> Option<ScriptEvent>
    ensures { IfSome result (ReadsRest form.deliver_of depth reader.old reader.new) }
{
    let number = usize::of_reader(alloc, reader, depth)?;
    if !reader.take_end_array() {
        return None;
    }
    Some(ScriptEvent::Deliver { number })
}

/// A shard and a time, and the end of the list.
fn collect(
    alloc: Global,
    topology: &Topology,
    reader: &mut Reader<'_>,
    depth: usize,
) -> Option<ScriptEvent>
    ensures { IfSome result (ReadsRest (form.collect_of topology.now) depth reader.old reader.new) }
{
    let end = u64::from(topology.shard_count());
    let shard = number_below(reader, depth, end)? as u16;
    let time = Time::of_reader(alloc, reader, depth)?;
    if !reader.take_end_array() {
        return None;
    }
    Some(ScriptEvent::Collect {
        shard: Node::new(shard),
        time,
    })
}

/// The end of the list.
fn drain(reader: &mut Reader<'_>, depth: usize) -> Option<ScriptEvent>
    ensures { IfSome result (ReadsRest form.drain_of depth reader.old reader.new) }
{
    if !reader.take_end_array() {
        return None;
    }
    Some(ScriptEvent::Drain)
}

/// The event that comes next.
pub(crate) fn event(
    alloc: Global,
    topology: &Topology,
    reader: &mut Reader<'_>,
    depth: usize,
) -> Option<ScriptEvent>
    ensures { IfSome result (Reads (form.event_of topology.now) depth reader.old reader.new) }
{
    if depth == 0 || !opens(reader) {
        return None;
    }
    let tag = text(reader)?;
    // the most frequent one of long scripts comes first
    if tag == "deliver" {
        deliver(alloc, reader, depth - 1)
    } else if tag == "submit" {
        submit(alloc, topology, reader, depth - 1)
    } else if tag == "collect" {
        collect(alloc, topology, reader, depth - 1)
    } else if tag == "drain" {
        drain(reader, depth - 1)
    } else {
        None
    }
}

/// The events of the list that comes next.
fn events(
    alloc: Global,
    topology: &Topology,
    reader: &mut Reader<'_>,
    depth: usize,
) -> Option<Vec<ScriptEvent>>
    ensures { IfSome result (λ v. Reads (list_by (form.event_of topology.now)) depth reader.old reader.new v.items) }
{
    if depth == 0 || !opens(reader) {
        return None;
    }
    let mut all = Vec::new(alloc);
    while !reader.take_end_array() {
        let event = event(alloc, topology, reader, depth - 1)?;
        all.push(event).ok()?;
    }
    Some(all)
}

/// Whether an object ends, and the text with it.
pub(crate) fn is_end(reader: &mut Reader<'_>) -> bool
    ensures { result ≡ true → reader.old ≡ spec.end_object ∷ [] }
{
    matches!(reader.next_key(), Ok(None)) && reader.next().is_none()
}

/// The topology of the script that begins; then its events come.
pub(crate) fn begun(alloc: Global, reader: &mut Reader<'_>) -> Option<Topology>
    ensures { IfSome result (Begins reader.old reader.new) }
{
    if !opens_object(reader) {
        return None;
    }
    let heading = header(alloc, reader, DEPTH - 1)?;
    topology_in(heading)
}

/// The script that a text stands for, where its events are the last member, and memory is there.
pub(crate) fn streamed(alloc: Global, text: &str) -> Option<Script>
    ensures { IfSome result (λ script. option_and_then form.script_of (read text.now) ≡ Some script) }
{
    let mut scratch = Scratch::new(alloc);
    let mut reader = Reader::new(text, &mut scratch).ok()?;
    let topology = begun(alloc, &mut reader)?;
    let events = events(alloc, &topology, &mut reader, DEPTH - 1)?;
    if events.len() > MOST_EVENTS || !is_end(&mut reader) {
        return None;
    }
    Some(Script {
        topology,
        events: Events::from_vec(events),
    })
}
