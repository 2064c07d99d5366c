//! What is wrong with a JSON value, and where, for people.
use serde_json::Value as Json;
use std::alloc::{AllocError, Global};
use std::fmt::Display;

/// How many characters of a text are shown.
const SHOWN: usize = 40;

/// What is used on the way: memory, and the last number of each kind.
#[derive(Clone, Copy)]
pub(crate) struct Known {
    pub(crate) alloc: Global,
    pub(crate) dc: u64,
    pub(crate) shard: u64,
    pub(crate) session: u64,
}

/// What is wrong with a value, unless memory was refused.
#[derive(Drop)]
pub(crate) enum Wrong {
    /// Memory was refused.
    Memory,
    /// Something is wrong at a place in it.
    At {
        /// The place, as `[1].batch[0]`.
        place: String,
        /// What.
        what: String,
    },
}

pub(crate) type Sound = Result<(), Wrong>;

// The value itself is wrong, for this reason.
fn here<D: Display + Drop>(known: Known, what: D) -> Wrong {
    let place = String::new(known.alloc);
    match format!(in known.alloc; "{what}") {
        Ok(what) => Wrong::At { place, what },
        Err(AllocError) => Wrong::Memory,
    }
}

pub(crate) fn need<D: Display + Drop>(known: Known, is_sound: bool, what: D) -> Sound {
    if is_sound {
        return Ok(());
    }
    Err(here(known, what))
}

/// What is wrong stands under this step.
pub(crate) fn under<D: Display + Drop>(known: Known, step: D, found: Sound) -> Sound {
    let Err(Wrong::At { place, what }) = found else {
        return found;
    };
    match format!(in known.alloc; "{step}{place}") {
        Ok(place) => Err(Wrong::At { place, what }),
        Err(AllocError) => Err(Wrong::Memory),
    }
}

/// A name that there isn't.
pub(crate) fn unknown(known: Known, kind: &str, name: &str) -> Sound {
    let end = name.char_indices().nth(SHOWN);
    let shown = end
        .and_then(|c: (usize, char)| name.get(..c.0))
        .unwrap_or(name);
    Err(here(known, format_args!("unknown {kind} {shown:?}")))
}

pub(crate) fn text(known: Known, json: &Json) -> Sound {
    need(known, json.is_string(), "not a text")
}

pub(crate) fn flag(known: Known, json: &Json) -> Sound {
    need(known, json.is_boolean(), "not true or false")
}

/// A whole number within these limits.
pub(crate) fn whole(known: Known, json: &Json, least: u64, most: u64) -> Sound {
    let Some(number) = json.as_u64() else {
        return Err(here(known, "not a whole number"));
    };
    let is_within = least <= number && number <= most;
    need(
        known,
        is_within,
        format_args!("{number} is not from {least} to {most}"),
    )
}

/// The items of a list, of which there may be so many.
pub(crate) fn listed<'v>(
    known: Known,
    json: &'v Json,
    least: usize,
    most: usize,
) -> Result<&'v Vec<Json>, Wrong> {
    let Some(items) = json.as_array() else {
        return Err(here(known, "not a list"));
    };
    let count = items.len();
    if count < least || most < count {
        return Err(here(known, format_args!("{count} items, not {least} to {most}")));
    }
    Ok(items)
}

pub(crate) fn texts(known: Known, json: &Json) -> Sound {
    for (place, item) in listed(known, json, 0, usize::MAX)?.iter().enumerate() {
        under(known, format_args!("[{place}]"), text(known, item))?;
    }
    Ok(())
}

/// A list of so many items.
pub(crate) fn items(known: Known, json: &Json, count: usize, form: &str) -> Sound {
    let found = json.as_array().map(|items: &Vec<Json>| items.len());
    need(known, found == Some(count), format_args!("not {form}"))
}

/// An object with no other members.
pub(crate) fn members(known: Known, json: &Json, names: &[&str]) -> Sound {
    let Some(members) = json.as_object() else {
        return Err(here(known, "not an object"));
    };
    for name in members.keys() {
        if !names.iter().any(|other: &&str| *other == name.as_str()) {
            return unknown(known, "member", name.as_str());
        }
    }
    Ok(())
}

/// An object with one of these members, which are spelled so.
pub(crate) fn one_of(known: Known, json: &Json, names: &[&str], spelled: &str) -> Sound {
    members(known, json, names)?;
    let has_one = match json.as_object() {
        Some(found) => found.len() == 1,
        None => false,
    };
    need(known, has_one, format_args!("not one of {spelled}"))
}

/// The item at a place, of a list that has it.
pub(crate) fn item(json: &Json, place: usize) -> &Json {
    json.get(place).unwrap_or(json)
}

/// The member of a name, of an object that has it.
pub(crate) fn member<'v>(json: &'v Json, name: &str) -> &'v Json {
    json.get(name).unwrap_or(json)
}

/// What a list begins with.
pub(crate) fn tag<'v>(known: Known, json: &'v Json) -> Result<&'v str, Wrong> {
    match json.get(0usize).and_then(Json::as_str) {
        Some(tag) => Ok(tag),
        None => Err(here(known, "not a list that begins with its kind")),
    }
}
