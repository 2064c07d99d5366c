//! The statuses of a block of numbers: 256 of one session that follow each other.
ghost use Rattle.std.specs.Prelude.{◌≡◌, ◌==◌, ◌≤◌, ◌<◌, [], if◌then◌else◌, ℕ, length, vec_len, vec_capacity, option_map, Some, OnOk, OnErr, IfErr};
ghost use Rattle.logical_time.specs.declared.fault.Fault.TheVariants as fault;
ghost use Rattle.write_txn.specs.Statuses.{AreInOrder, IsSplitAt, status_among};

use crate::slot::Slot;
use crate::status::Status;
use logical_time::Fault;
use std::alloc::Global;
use std::marker::Model;

/// For how many more slots a block takes memory at once.
const STEP: usize = 4;

/// How many slots are of smaller numbers.
fn count_below(slots: &[Slot], number: u8) -> usize
    requires { AreInOrder slots.now }
    ensures bound { result ≤ length slots.now }
    ensures split { IsSplitAt number result slots.now }
{
    slots.partition_point(|slot| slot.number() < number)
}

/// The status of a number.
fn status_in(slots: &[Slot], number: u8) -> Option<Status>
    requires { AreInOrder slots.now }
    ensures { result ≡ status_among slots.now number }
{
    match slots.get(count_below(slots, number)) {
        Some(slot) if slot.number() == number => Some(slot.status()),
        _ => None,
    }
}

/// Makes room for one more slot. Refused with `Memory` alone.
fn make_room(slots: &mut Vec<Slot>) -> Result<(), Fault>
    ensures same { slots.new.items ≡ slots.old.items }
    ensures ok { OnOk result (vec_len slots.new < vec_capacity slots.new) }
    ensures memory { IfErr result (λ e. e ≡ fault.Memory) }
{
    if slots.len() == slots.capacity() {
        slots.reserve_exact(STEP)?;
    }
    Ok(())
}

/// Gives a number this status, in a slot of its own.
fn add(slots: &mut Vec<Slot>, number: u8, status: Status) -> Result<(), Fault>
    requires { AreInOrder slots.old.items }
    ensures order { AreInOrder slots.new.items }
    ensures ok { OnOk result ((n : ℕ) → status_among slots.new.items n ≡ (if number == n then Some status else status_among slots.old.items n)) }
    ensures err { OnErr result (slots.new.items ≡ slots.old.items) }
    ensures memory { IfErr result (λ e. e ≡ fault.Memory) }
{
    make_room(slots)?;
    let place = count_below(slots.as_slice(), number);
    slots.insert(place, Slot::new(number, status)).unwrap();
    Ok(())
}

/// Changes the status of a number that has one.
fn set(slots: &mut Vec<Slot>, number: u8, status: Status)
    requires { AreInOrder slots.old.items }
    ensures order { AreInOrder slots.new.items }
    ensures set { (n : ℕ) → status_among slots.new.items n ≡ (if number == n then option_map (λ _. status) (status_among slots.old.items n) else status_among slots.old.items n) }
{
    let place = count_below(slots.as_slice(), number);
    if place < slots.len() && slots[place].number() == number {
        slots[place] = Slot::new(number, status);
    }
}

/// The statuses of a block's numbers, each in sixteen bytes, in the order of the numbers.
#[derive(Drop)]
pub(crate) struct Block {
    slots: Vec<Slot>,
}

impl Model for Block {
    ghost use Rattle.std.specs.Prelude.{List};
    ghost use Rattle.write_txn.specs.declared.slot.Slot.{Slot};
    ghost use Rattle.write_txn.specs.Statuses.{AreInOrder};

    ghost Value = { List Slot };

    ghost view = { λ b. b.slots.items };

    ghost invariant = { λ b. AreInOrder b.slots.items };
}

impl Block {
    /// No number has a status.
    pub(crate) fn new(alloc: Global) -> Block
        ensures { result ≡ [] }
    {
        Block {
            slots: Vec::new(alloc),
        }
    }

    /// The status of a number. In the order of log n for n numbers that have one.
    pub(crate) fn get(&self, number: u8) -> Option<Status>
        ensures { result ≡ status_among self.now number }
    {
        status_in(self.slots.as_slice(), number)
    }

    /// Gives a number this status. In the order of n for n numbers above it that have one. Refused with `Memory` alone,
    /// and then nothing has changed.
    pub(crate) fn add(&mut self, number: u8, status: Status) -> Result<(), Fault>
        ensures ok { OnOk result ((n : ℕ) → status_among self.new n ≡ (if number == n then Some status else status_among self.old n)) }
        ensures err { OnErr result (self.new ≡ self.old) }
        ensures memory { IfErr result (λ e. e ≡ fault.Memory) }
    {
        add(&mut self.slots, number, status)
    }

    /// Changes the status of a number that has one. In the order of log n.
    pub(crate) fn set(&mut self, number: u8, status: Status)
        ensures { (n : ℕ) → status_among self.new n ≡ (if number == n then option_map (λ _. status) (status_among self.old n) else status_among self.old n) }
    {
        set(&mut self.slots, number, status);
    }
}
