//! Where a JSON value is no script, and what is wrong there, for people.
//!
//! Nothing rests on this: `reading` says what a script is. It is looked at only after a script was refused.
use crate::wrong::{
    Known, Sound, Wrong, flag, item, items, listed, member, members, need, one_of, tag, text,
    texts, under, unknown, whole,
};
use serde_json::{Error, Value as Json};
use std::alloc::Global;

/// The members of a script.
const MEMBERS: [&str; 5] = ["dcs", "shards", "families", "homes", "events"];
/// What the list of families has to be.
const FAMILIES: &str = "not 1 to 16 different names of 1 to 64 letters, digits or _";
/// How many events a script may have.
const MOST_EVENTS: usize = 100_000;
/// The last time.
const LAST_TIME: u64 = 0xffff_ffff_ffff;
/// The greatest count of a range.
const MOST_COLUMNS: u64 = 0xffff_ffff;

fn mutation(known: Known, json: &Json) -> Sound {
    match tag(known, json)? {
        "insert" => items(known, json, 3, r#"["insert", NAME, VALUE]"#)?,
        "delete" => items(known, json, 2, r#"["delete", NAME]"#)?,
        "delete_row" => items(known, json, 1, r#"["delete_row"]"#)?,
        "delete_range" => items(known, json, 3, r#"["delete_range", START, FINISH]"#)?,
        name => unknown(known, "mutation", name)?,
    }
    texts(known, json)
}

fn change(known: Known, json: &Json) -> Sound {
    items(known, json, 3, "[FAMILY, KEY, MUTATION]")?;
    under(known, "[0]", text(known, item(json, 0)))?;
    under(known, "[1]", text(known, item(json, 1)))?;
    under(known, "[2]", mutation(known, item(json, 2)))
}

fn batch(known: Known, json: &Json) -> Sound {
    for (place, item) in listed(known, json, 0, usize::MAX)?.iter().enumerate() {
        under(known, format_args!("[{place}]"), change(known, item))?;
    }
    Ok(())
}

fn range(known: Known, json: &Json) -> Sound {
    members(known, json, &["start", "finish", "reversed", "count"])?;
    for name in ["start", "finish"] {
        if let Some(end) = json.get(name) {
            under(known, format_args!(".{name}"), text(known, end))?;
        }
    }
    if let Some(reversed) = json.get("reversed") {
        under(known, ".reversed", flag(known, reversed))?;
    }
    if let Some(count) = json.get("count") {
        under(known, ".count", whole(known, count, 0, MOST_COLUMNS))?;
    }
    Ok(())
}

fn predicate(known: Known, json: &Json) -> Sound {
    one_of(known, json, &["names", "range"], r#""names" and "range""#)?;
    match json.get("names") {
        Some(names) => under(known, ".names", texts(known, names)),
        None => under(known, ".range", range(known, member(json, "range"))),
    }
}

fn read(known: Known, json: &Json) -> Sound {
    items(known, json, 3, "[FAMILY, [KEY, ..], PREDICATE]")?;
    under(known, "[0]", text(known, item(json, 0)))?;
    under(known, "[1]", texts(known, item(json, 1)))?;
    under(known, "[2]", predicate(known, item(json, 2)))
}

fn op(known: Known, json: &Json) -> Sound {
    let names = ["batch", "read", "move"];
    one_of(known, json, &names, r#""batch", "read" and "move""#)?;
    if let Some(changes) = json.get("batch") {
        return under(known, ".batch", batch(known, changes));
    }
    if let Some(asked) = json.get("read") {
        return under(known, ".read", read(known, asked));
    }
    let dc = member(json, "move");
    under(known, ".move", whole(known, dc, 0, known.dc))
}

// A whole number from 0 on, at a place.
fn number(known: Known, json: &Json, place: usize, most: u64) -> Sound {
    under(
        known,
        format_args!("[{place}]"),
        whole(known, item(json, place), 0, most),
    )
}

fn event(known: Known, json: &Json) -> Sound {
    match tag(known, json)? {
        "submit" => {
            items(known, json, 3, r#"["submit", SESSION, OPERATION]"#)?;
            number(known, json, 1, known.session)?;
            under(known, "[2]", op(known, item(json, 2)))
        }
        "deliver" => {
            items(known, json, 2, r#"["deliver", MESSAGE]"#)?;
            number(known, json, 1, u64::MAX)
        }
        "collect" => {
            items(known, json, 3, r#"["collect", SHARD, TIME]"#)?;
            number(known, json, 1, known.shard)?;
            number(known, json, 2, LAST_TIME)
        }
        "drain" => items(known, json, 1, r#"["drain"]"#),
        name => unknown(known, "event", name),
    }
}

fn events(known: Known, json: &Json) -> Sound {
    for (place, item) in listed(known, json, 0, MOST_EVENTS)?.iter().enumerate() {
        under(known, format_args!("[{place}]"), event(known, item))?;
    }
    Ok(())
}

fn homes(known: Known, json: &Json) -> Sound {
    for (place, item) in listed(known, json, 1, 16)?.iter().enumerate() {
        under(
            known,
            format_args!("[{place}]"),
            whole(known, item, 0, known.dc),
        )?;
    }
    Ok(())
}

fn script(known: Known, json: &Json) -> Sound {
    members(known, json, &MEMBERS)?;
    for name in MEMBERS {
        let is_there = json.get(name).is_some();
        need(known, is_there, format_args!("no member {name:?}"))?;
    }
    under(known, ".dcs", whole(known, member(json, "dcs"), 1, 4))?;
    under(known, ".shards", whole(known, member(json, "shards"), 1, 8))?;
    under(known, ".families", texts(known, member(json, "families")))?;
    under(known, ".homes", homes(known, member(json, "homes")))?;
    under(known, ".events", events(known, member(json, "events")))
}

/// Where a text that is no JSON stops being some: a line and a byte in it, both counted from 1; none where memory is refused.
pub(crate) fn explain_text(alloc: Global, error: &Error) -> Option<String> {
    if error.is_memory() {
        return None;
    }
    // a text that ends too soon lacks the byte after its last one
    let past = if error.is_eof() { 1 } else { 0 };
    let (line, column) = (error.line(), error.column().saturating_add(past));
    format!(in alloc; "no JSON at line {line} column {column}").ok()
}

/// What is wrong with a value that is no script, after its place; none where memory is refused. Linear in the value.
pub(crate) fn explain(alloc: Global, json: &Json) -> Option<String> {
    let number = |name: &str| json.get(name).and_then(Json::as_u64).unwrap_or(0);
    let (dcs, shards) = (number("dcs"), number("shards"));
    let homes = json.get("homes").and_then(Json::as_array);
    let sessions = homes.map_or(0, |homes: &Vec<Json>| homes.len() as u64);
    let known = Known {
        alloc,
        dc: dcs.saturating_sub(1),
        shard: dcs.saturating_mul(shards).saturating_sub(1),
        session: sessions.saturating_sub(1),
    };
    match script(known, json) {
        // nothing else is left of what may be wrong
        Ok(()) => format!(in alloc; "families: {FAMILIES}").ok(),
        Err(Wrong::At { place, what }) if place.is_empty() => Some(what),
        Err(Wrong::At { place, what }) => {
            let place = place.as_str().trim_start_matches('.');
            format!(in alloc; "{place}: {what}").ok()
        }
        Err(Wrong::Memory) => None,
    }
}
