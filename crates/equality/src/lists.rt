//! Lists of what can be compared by itself.
ghost use Rattle.std.specs.Prelude.{◌≡◌, ◌↔◌, true};

use column_family::{Batch, Change, Key, Name};
use logical_time::{Writer, Writers};
use messages::{Cohorts, Dependencies};
use slice::{Column, Columns, Keys, Names};

fn same_change(a: &Change, b: &Change) -> bool
    ensures { (result ≡ true) ↔ (a.now ≡ b.now) }
{
    a == b
}

fn same_changes(a: &[Change], b: &[Change]) -> bool
    ensures { (result ≡ true) ↔ (a.now ≡ b.now) }
{
    if a.len() != b.len() {
        return false;
    }
    for place in 0..a.len() {
        if !same_change(&a[place], &b[place]) {
            return false;
        }
    }
    true
}

fn same_key_list(a: &[Key], b: &[Key]) -> bool
    ensures { (result ≡ true) ↔ (a.now ≡ b.now) }
{
    a == b
}

fn same_name_list(a: &[Name], b: &[Name]) -> bool
    ensures { (result ≡ true) ↔ (a.now ≡ b.now) }
{
    a == b
}

fn same_column(a: &Column, b: &Column) -> bool
    ensures { (result ≡ true) ↔ (a.now ≡ b.now) }
{
    a == b
}

fn same_column_list(a: &[Column], b: &[Column]) -> bool
    ensures { (result ≡ true) ↔ (a.now ≡ b.now) }
{
    if a.len() != b.len() {
        return false;
    }
    for place in 0..a.len() {
        if !same_column(&a[place], &b[place]) {
            return false;
        }
    }
    true
}

fn same_writer_list(a: &[Writer], b: &[Writer]) -> bool
    ensures { (result ≡ true) ↔ (a.now ≡ b.now) }
{
    if a.len() != b.len() {
        return false;
    }
    for place in 0..a.len() {
        if a[place] != b[place] {
            return false;
        }
    }
    true
}

pub(crate) fn same_batch(a: &Batch, b: &Batch) -> bool
    ensures { (result ≡ true) ↔ (a.now ≡ b.now) }
{
    same_changes(a.as_slice(), b.as_slice())
}

pub(crate) fn same_keys(a: &Keys, b: &Keys) -> bool
    ensures { (result ≡ true) ↔ (a.now ≡ b.now) }
{
    same_key_list(a.as_slice(), b.as_slice())
}

pub(crate) fn same_names(a: &Names, b: &Names) -> bool
    ensures { (result ≡ true) ↔ (a.now ≡ b.now) }
{
    same_name_list(a.as_slice(), b.as_slice())
}

pub(crate) fn same_columns(a: &Columns, b: &Columns) -> bool
    ensures { (result ≡ true) ↔ (a.now ≡ b.now) }
{
    same_column_list(a.as_slice(), b.as_slice())
}

pub(crate) fn same_cohorts(a: &Cohorts, b: &Cohorts) -> bool
    ensures { (result ≡ true) ↔ (a.now ≡ b.now) }
{
    a == b
}

pub(crate) fn same_writers(a: &Writers, b: &Writers) -> bool
    ensures { (result ≡ true) ↔ (a.now ≡ b.now) }
{
    same_writer_list(a.as_slice(), b.as_slice())
}

pub(crate) fn same_dependencies(a: &Dependencies, b: &Dependencies) -> bool
    ensures { (result ≡ true) ↔ (a.now ≡ b.now) }
{
    same_writer_list(a.as_slice(), b.as_slice())
}
