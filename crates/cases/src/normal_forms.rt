//! Normal forms of batches.
use crate::building::batch;
use crate::showing::text_of;
use crate::steps::Subject;
use column_family::{Change, Mutation, normal};
use logical_time::Fault;
use std::alloc::Global;

/// Takes batches, and shows their normal forms.
#[derive(Drop)]
pub(crate) struct Normal;

/// Adds `KEY:`, and the name and the value where there are any.
pub(crate) fn add_change(seen: &mut String, change: &Change) -> Result<(), Fault> {
    let key = text_of(change.row.key.as_slice());
    let (name, value) = match &change.mutation {
        Mutation::Insert { name, value } => (text_of(name.as_slice()), text_of(value.as_slice())),
        Mutation::DeleteColumn { name } => (text_of(name.as_slice()), ""),
        _ => ("", ""),
    };
    write!(seen, "{key}:{name}{value};")?;
    Ok(())
}

impl Subject for Normal {
    fn step(&mut self, alloc: Global, words: &[&str], seen: &mut String) -> Result<(), Fault> {
        let given = batch(alloc, words)?;
        let kept = normal(alloc, &given)?;
        for change in kept.as_slice() {
            add_change(seen, change)?;
        }
        Ok(())
    }
}
