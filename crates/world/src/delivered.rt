//! Which messages were delivered.
ghost use Rattle.std.specs.Prelude.{◌≡◌, ◌<◌, ◌==◌, ◌||◌, ℕ, length, OnOk, true, false};
ghost use Rattle.world.specs.Delivered.{is_marked, IsFirstUnmarked};

use std::alloc::{AllocError, Global};
use std::marker::Model;

/// Which messages were delivered, by their numbers, and the first that wasn't.
#[derive(Drop)]
pub struct Delivered {
    marks: Vec<bool>,
    first: usize,
}

impl Model for Delivered {
    ghost use Rattle.world.specs.Delivered.{DeliveredValue, IsFirstUnmarked};

    ghost Value = { DeliveredValue };

    ghost view = { λ d. record { marks = d.marks.items; first = d.first } };

    ghost invariant = { λ d. IsFirstUnmarked d.marks.items d.first };
}

/// The first place from this one on that isn't marked.
fn first_unmarked(marks: &[bool], from: usize) -> usize
    requires { (j : ℕ) → j < from → is_marked marks.now j ≡ true }
    ensures { IsFirstUnmarked marks.now result }
{
    let mut place = from;
    while place < marks.len() && marks[place] {
        place += 1;
    }
    place
}

/// Makes the list longer, so that it has this place.
#[tactic(auto, using(crate::proofs::lists::Marking::marked_push))]
fn extend(marks: &mut Vec<bool>, number: usize) -> Result<(), AllocError>
    ensures same { (j : ℕ) → is_marked marks.new.items j ≡ is_marked marks.old.items j }
    ensures room { OnOk result (number < length marks.new.items) }
{
    while marks.len() <= number {
        marks.push(false)?;
    }
    Ok(())
}

impl Delivered {
    /// Nothing was delivered.
    pub fn new(alloc: Global) -> Delivered
        ensures { (j : ℕ) → is_marked result.marks j ≡ false }
    {
        Delivered {
            marks: Vec::new(alloc),
            first: 0,
        }
    }

    /// Makes room for the mark of this number, and of all before it. Costs the marks that weren't there yet. Refused with
    /// `AllocError` alone.
    pub fn reach(&mut self, number: usize) -> Result<(), AllocError>
        ensures same { (j : ℕ) → is_marked self.new.marks j ≡ is_marked self.old.marks j }
        ensures room { OnOk result (number < length self.new.marks) }
    {
        extend(&mut self.marks, number)
    }

    /// Marks a number. Costs how far the first number that isn't marked moves.
    #[tactic(auto, using(crate::proofs::lists::Marking::marked_set, crate::proofs::lists::Marking::still_marked))]
    pub fn mark(&mut self, number: usize)
        requires { number < length self.old.marks }
        ensures { (j : ℕ) → is_marked self.new.marks j ≡ (j == number || is_marked self.old.marks j) }
    {
        self.marks[number] = true;
        self.first = first_unmarked(self.marks.as_slice(), self.first);
    }

    /// The first number that isn't marked.
    pub fn first(&self) -> usize
        ensures { IsFirstUnmarked self.now.marks result }
    {
        self.first
    }
}
