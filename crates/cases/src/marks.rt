//! Marks of pending transactions.
use crate::building::{batch, row, time, txn};
use crate::steps::Subject;
use logical_time::Fault;
use pending::Marks;
use std::alloc::Global;

fn add_least(alloc: Global, marks: &Marks, key: &str, seen: &mut String) -> Result<(), Fault> {
    let row = row(alloc, key)?;
    if let Some(least) = marks.least(&row) {
        let least = least.get();
        write!(seen, "{least}")?;
    }
    Ok(())
}

fn add_below(
    alloc: Global,
    marks: &Marks,
    (key, at): (&str, &str),
    seen: &mut String,
) -> Result<(), Fault> {
    let row = row(alloc, key)?;
    for txn in &marks.below(&row, time(at))? {
        let session = txn.session.get();
        write!(seen, "{session};")?;
    }
    Ok(())
}

impl Subject for Marks {
    fn step(&mut self, alloc: Global, words: &[&str], seen: &mut String) -> Result<(), Fault> {
        match words {
            ["mark", key, marked, at] => self.mark(&row(alloc, key)?, txn(marked), time(at)),
            ["clear", marked] => Ok(self.clear(txn(marked))),
            ["clear", marked, keys @ ..] => {
                self.clear_rows(batch(alloc, keys)?.as_slice(), txn(marked));
                Ok(())
            }
            ["least", key] => add_least(alloc, self, key, seen),
            ["below", key, at] => add_below(alloc, self, (key, at), seen),
            _ => Err(Fault::Script),
        }
    }
}
