//! Reads that were answered by any store, each against the history of its home.
ghost use Rattle.std.specs.Prelude.{◌≡◌, ◌++◌, [], ◌∷◌, length, count_by, IfOk, OnOk, IfErr};
ghost use Rattle.logical_time.specs.declared.fault.Fault.TheVariants as fault;
ghost use Rattle.audit.specs.Misreads as misreads;

use crate::auditing::{is_right, lay_all};
use crate::laid::Laid;
use logical_time::{Fault, Time};
use slice::{Answer, Read};
use std::alloc::Global;
use table::{History, answer};

/// A read that was answered.
#[derive(Drop)]
pub struct Answered {
    /// The data centre where it was asked: the place of its history, from 0.
    pub home: usize,
    /// What was asked.
    pub read: Read,
    /// The effective time.
    pub time: Time,
    /// The answer.
    pub answer: Answer,
}

/// A read that was answered wrong.
#[derive(Drop)]
pub struct Misread {
    /// Its place among the reads, from 0.
    pub place: usize,
    /// The answer.
    pub answered: Answer,
    /// What the table of its home has in its place.
    pub table: Answer,
}

// Whether a read was answered wrong. Refused with `Memory` alone.
fn is_misread(alloc: Global, laid: &[Laid<'_>], read: &Answered) -> Result<bool, Fault>
    ensures ok { IfOk result (λ b. b ≡ misreads.is_misread laid.now read.now) }
    ensures memory { IfErr result (λ e. e ≡ fault.Memory) }
{
    match laid.get(read.home) {
        Some(laid) => Ok(!is_right(alloc, laid, &read.read, read.time, &read.answer)?),
        None => Ok(true),
    }
}

// What the table of a read's home has for it. Refused with `Memory` alone.
fn table_has(alloc: Global, laid: &[Laid<'_>], read: &Answered) -> Result<Answer, Fault>
    ensures ok { IfOk result (λ a. a ≡ misreads.table_has laid.now read.now) }
    ensures memory { IfErr result (λ e. e ≡ fault.Memory) }
{
    match laid.get(read.home) {
        Some(laid) => laid.answer(alloc, &read.read, read.time),
        None => answer(alloc, &History::new(alloc), read.time, &read.read),
    }
}

// A read that was answered wrong, with its place. Refused with `Memory` alone.
fn with_table(
    alloc: Global,
    laid: &[Laid<'_>],
    place: usize,
    read: &Answered,
) -> Result<Misread, Fault>
    ensures ok { IfOk result (λ m. m ≡ misreads.misread_at laid.now place read.now) }
    ensures memory { IfErr result (λ e. e ≡ fault.Memory) }
{
    let answered = read.answer.clone()?;
    let table = table_has(alloc, laid, read)?;
    Ok(Misread {
        place,
        answered,
        table,
    })
}

// Adds a read to those that were found wrong, if it was answered wrong. Refused with `Memory` alone.
#[tactic(auto, using(crate::proofs::WrongReads::noted_wrong, crate::proofs::WrongReads::noted_right))]
fn note(
    alloc: Global,
    laid: &[Laid<'_>],
    place: usize,
    read: &Answered,
    found: &mut Vec<Misread>,
) -> Result<(), Fault>
    ensures ok { OnOk result (found.new.items ≡ found.old.items ++ misreads.misreads_from laid.now place (read.now ∷ [])) }
    ensures memory { IfErr result (λ e. e ≡ fault.Memory) }
{
    if is_misread(alloc, laid, read)? {
        found.push(with_table(alloc, laid, place, read)?)?;
    }
    Ok(())
}

// The reads that were answered wrong, in order. Refused with `Memory` alone.
fn tell_each(alloc: Global, laid: &[Laid<'_>], reads: &[Answered]) -> Result<Vec<Misread>, Fault>
    ensures ok { IfOk result (λ found. found.items ≡ misreads.misreads_from laid.now 0 reads.now) }
    ensures memory { IfErr result (λ e. e ≡ fault.Memory) }
{
    let mut found = Vec::new(alloc);
    for place in 0..reads.len() {
        note(alloc, laid, place, &reads[place], &mut found)?;
    }
    Ok(found)
}

/// The reads whose answer isn't their meaning on the history of their home at their time, in order, each with its place and
/// with what the table has; where a home has no history, nothing is right there, and its table is empty. The histories may
/// be those of any store: in any order, and with entries of one stamp, of which the first counts as newer. In the order of
/// n log n for n changes and asked rows of the histories of a run; where at one place commit times fall as stamps rise, a
/// change costs as many steps as the versions that it hides, and a history in which two entries have one stamp is gone through
/// for each read. Refused with `Memory` alone.
pub fn misreads(
    alloc: Global,
    histories: &[History],
    reads: &[Answered],
) -> Result<Vec<Misread>, Fault>
    ensures found { IfOk result (λ found. found.items ≡ misreads.misreads_from histories.now 0 reads.now) }
    ensures count { IfOk result (λ found. length found.items ≡ count_by (misreads.is_misread histories.now) reads.now) }
    ensures memory { IfErr result (λ e. e ≡ fault.Memory) }
{
    let laid = lay_all(alloc, histories)?;
    let found = tell_each(alloc, laid.as_slice(), reads)?;
    Ok(found)
}
