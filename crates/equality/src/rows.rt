//! Reads, and rows that answer them.
ghost use Rattle.std.specs.Prelude.{◌≡◌, ◌↔◌, true};

use crate::lists::{same_columns, same_keys, same_names, same_writers};
use messages::{AtTime, RowAt, RowNow, RowsAt, RowsNow};
use slice::{Predicate, Read};

pub(crate) fn same_predicate(a: &Predicate, b: &Predicate) -> bool
    ensures { (result ≡ true) ↔ (a.now ≡ b.now) }
{
    match (a, b) {
        (Predicate::Names(a), Predicate::Names(b)) => same_names(a, b),
        (
            Predicate::Range {
                start: a_start,
                finish: a_finish,
                reversed: a_reversed,
                count: a_count,
            },
            Predicate::Range {
                start,
                finish,
                reversed,
                count,
            },
        ) => {
            a_start == start && a_finish == finish && a_reversed == reversed && a_count == count
        }
        _ => false,
    }
}

pub(crate) fn same_read(a: &Read, b: &Read) -> bool
    ensures { (result ≡ true) ↔ (a.now ≡ b.now) }
{
    a.family == b.family
        && same_keys(&a.keys, &b.keys)
        && same_predicate(&a.predicate, &b.predicate)
}

fn same_row_now(a: &RowNow, b: &RowNow) -> bool
    ensures { (result ≡ true) ↔ (a.now ≡ b.now) }
{
    a.key == b.key
        && same_columns(&a.columns, &b.columns)
        && same_writers(&a.writers, &b.writers)
        && a.evt == b.evt
        && a.lvt == b.lvt
}

fn same_row_at(a: &RowAt, b: &RowAt) -> bool
    ensures { (result ≡ true) ↔ (a.now ≡ b.now) }
{
    a.key == b.key && same_columns(&a.columns, &b.columns) && same_writers(&a.writers, &b.writers)
}

fn same_list_now(a: &[RowNow], b: &[RowNow]) -> bool
    ensures { (result ≡ true) ↔ (a.now ≡ b.now) }
{
    if a.len() != b.len() {
        return false;
    }
    for place in 0..a.len() {
        if !same_row_now(&a[place], &b[place]) {
            return false;
        }
    }
    true
}

fn same_list_at(a: &[RowAt], b: &[RowAt]) -> bool
    ensures { (result ≡ true) ↔ (a.now ≡ b.now) }
{
    if a.len() != b.len() {
        return false;
    }
    for place in 0..a.len() {
        if !same_row_at(&a[place], &b[place]) {
            return false;
        }
    }
    true
}

pub(crate) fn same_rows_now(a: &RowsNow, b: &RowsNow) -> bool
    ensures { (result ≡ true) ↔ (a.now ≡ b.now) }
{
    same_list_now(a.as_slice(), b.as_slice())
}

fn same_rows_at(a: &RowsAt, b: &RowsAt) -> bool
    ensures { (result ≡ true) ↔ (a.now ≡ b.now) }
{
    same_list_at(a.as_slice(), b.as_slice())
}

pub(crate) fn same_at_time(a: &AtTime, b: &AtTime) -> bool
    ensures { (result ≡ true) ↔ (a.now ≡ b.now) }
{
    match (a, b) {
        (AtTime::Collected, AtTime::Collected) => true,
        (AtTime::Rows(a), AtTime::Rows(b)) => same_rows_at(a, b),
        _ => false,
    }
}
