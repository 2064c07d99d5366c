//! Answers of reads.
ghost use Rattle.std.specs.Prelude.{◌≡◌, ◌↔◌, true};

use crate::lists::same_columns;
use slice::{Answer, AnsweredRow};

fn same_row(a: &AnsweredRow, b: &AnsweredRow) -> bool
    ensures { (result ≡ true) ↔ (a.now ≡ b.now) }
{
    a.key == b.key && same_columns(&a.columns, &b.columns)
}

fn same_rows(a: &[AnsweredRow], b: &[AnsweredRow]) -> bool
    ensures { (result ≡ true) ↔ (a.now ≡ b.now) }
{
    if a.len() != b.len() {
        return false;
    }
    for place in 0..a.len() {
        if !same_row(&a[place], &b[place]) {
            return false;
        }
    }
    true
}

/// Whether the answers are the same: the same rows in the same order, each with the same columns.
pub fn same_answer(a: &Answer, b: &Answer) -> bool
    ensures { (result ≡ true) ↔ (a.now ≡ b.now) }
{
    same_rows(a.as_slice(), b.as_slice())
}
