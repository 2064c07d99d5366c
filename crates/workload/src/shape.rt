//! Shapes of JSON values, and lists of them item by item.
ghost use Rattle.std.specs.Prelude.{◌≡◌, ◌≤◌, Option, Some, option_map, map, IfSome};
ghost use Rattle.serde_json.specs.Data.{Data, unsigned};
ghost use Rattle.serde_json.specs.Find.{get, at, as_object, as_array};
ghost use Rattle.serde_json.specs.Read.{number_of};
ghost use Rattle.serde_json.specs.View.{view, items_view};
ghost use Rattle.workload.specs.Gives.{Gives, GivesSeen};
ghost use Rattle.workload.specs.Shape as shape;
ghost use Rattle.workload.specs.Streams.{Reads};

use json::Reader;
use logical_time::Fault;
use serde_json::Value;
use std::alloc::Global;

/// The first number to which no digit is added one by one: ten times a smaller one, and a digit, fit into 64 bits.
const MUCH: u64 = 1_000_000_000_000_000_000;

/// A type whose values JSON values may stand for.
pub trait Shaped: Drop + Sized {
    ghost stands_for: { Data → Option Self };

    /// The value that the JSON value stands for; `Script` where there is none.
    fn of_json(alloc: Global, json: &Value) -> Result<Self, Fault>
        ensures { Gives result (stands_for (view json.now)) };

    /// What the next value of the reader stands for, if it stands for something and memory is there. Lists and objects may
    /// nest `depth` deep.
    fn of_reader(alloc: Global, reader: &mut Reader<'_>, depth: usize) -> Option<Self>
        ensures { IfSome result (Reads stands_for depth reader.old reader.new) };
}

/// What each item stands for, in order; `Script` where one stands for nothing.
pub fn each<T: Shaped>(alloc: Global, items: &Vec<Value>) -> Result<Vec<T>, Fault>
    ensures { GivesSeen (λ v. v.items) result (shape.all_by T.stands_for (map view items.now.items)) }
{
    let mut all = Vec::new(alloc);
    for item in items {
        all.push(T::of_json(alloc, item)?)?;
    }
    Ok(all)
}

/// What the items of a list stand for.
pub fn list_of<T: Shaped>(alloc: Global, json: &Value) -> Result<Vec<T>, Fault>
    ensures { GivesSeen (λ v. v.items) result (shape.list_by T.stands_for (view json.now)) }
{
    each(alloc, list(json)?)
}

/// The items of a list.
pub fn list(json: &Value) -> Result<&Vec<Value>, Fault>
    ensures { GivesSeen (λ v. items_view v.now.items) result (as_array (view json.now)) }
{
    json.as_array().ok_or(Fault::Script)
}

/// How many members an object has.
#[tactic(auto, using(crate::proofs::Lists::members_len_view))]
fn members(json: &Value) -> Option<usize>
    ensures { result ≡ option_map shape.members_len (as_object (view json.now)) }
{
    let map = json.as_object()?;
    Some(map.len())
}

/// Whether it is an object of `count` members.
pub fn has_members(json: &Value, count: usize) -> bool
    ensures { result ≡ shape.has_members count (view json.now) }
{
    match members(json) {
        Some(found) => found == count,
        None => false,
    }
}

/// Whether it is a list of `count` items.
#[tactic(auto, using(crate::proofs::Lists::items_len_view))]
pub fn has_items(json: &Value, count: usize) -> bool
    ensures { result ≡ shape.has_items count (view json.now) }
{
    match json.as_array() {
        Some(items) => items.len() == count,
        None => false,
    }
}

/// The member of this name.
pub fn member<'v>(json: &'v Value, name: &str) -> Result<&'v Value, Fault>
    ensures { GivesSeen (λ v. view v.now) result (get name.now (view json.now)) }
{
    json.get(name).ok_or(Fault::Script)
}

/// The item at a place, counted from 0.
pub fn item(json: &Value, place: usize) -> Result<&Value, Fault>
    ensures { GivesSeen (λ v. view v.now) result (at place (view json.now)) }
{
    json.get(place).ok_or(Fault::Script)
}

/// What the item at a place stands for, counted from 0.
pub fn part_at<T: Shaped>(alloc: Global, json: &Value, place: usize) -> Result<T, Fault>
    ensures { Gives result (shape.part_at T.stands_for place (view json.now)) }
{
    T::of_json(alloc, item(json, place)?)
}

/// The text at a place, counted from 0.
pub fn text_at(json: &Value, place: usize) -> Result<&str, Fault>
    ensures { GivesSeen (λ text. text.now) result (shape.text_at place (view json.now)) }
{
    json.get(place).and_then(Value::as_str).ok_or(Fault::Script)
}

/// What the member of this name stands for.
pub fn member_as<T: Shaped>(alloc: Global, json: &Value, name: &str) -> Result<T, Fault>
    ensures { Gives result (shape.member_by T.stands_for name.now (view json.now)) }
{
    T::of_json(alloc, member(json, name)?)
}

/// The number that decimal digits tell, if they are not too many: most numbers of a script have few.
pub(crate) fn few_digits(text: &[u8]) -> Option<u64>
    ensures { IfSome result (λ n. number_of text.now ≡ Some (unsigned n)) }
{
    if text.is_empty() {
        return None;
    }
    let mut number = 0;
    for byte in text {
        if !byte.is_ascii_digit() || number >= MUCH {
            return None;
        }
        number = 10 * number + u64::from(*byte - b'0');
    }
    Some(number)
}

/// A whole number below an end.
pub fn whole_below(json: &Value, end: u64) -> Result<u64, Fault>
    ensures { Gives result (shape.whole_below end (view json.now)) }
{
    let number = json.as_u64().ok_or(Fault::Script)?;
    if number < end {
        Ok(number)
    } else {
        Err(Fault::Script)
    }
}

/// The whole number at a place, below an end.
pub fn number_at(json: &Value, place: usize, end: u64) -> Result<u64, Fault>
    ensures { Gives result (shape.part_at (shape.whole_below end) place (view json.now)) }
{
    whole_below(item(json, place)?, end)
}

/// How many members of this name there are: 1, or 0.
pub fn members_named(json: &Value, name: &str) -> usize
    ensures count { result ≡ shape.members_named name.now (view json.now) }
    ensures one { result ≤ 1 }
{
    if json.get(name).is_some() { 1 } else { 0 }
}
