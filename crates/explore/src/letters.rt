//! Messages by value: each has a number.

use crate::stop::Stop;
use equality::same_envelope;
use messages::Envelope;
use std::alloc::Global;
use std::collections::HashMap;

/// Messages that were ever sent, each once. A message is its value: who sent it to whom, when, and what it says.
#[derive(Drop)]
pub(crate) struct Letters {
    all: Vec<Envelope>,
    by_time: HashMap<u64, Vec<usize>>,
}

impl Letters {
    /// No message.
    pub fn new(alloc: Global) -> Letters {
        Letters {
            all: Vec::new(alloc),
            by_time: HashMap::new(alloc),
        }
    }

    // The number of a message that was seen before.
    fn known(&self, envelope: &Envelope) -> Option<usize> {
        for number in self.by_time.get(&envelope.time.get())? {
            if let Some(other) = self.all.get(*number) {
                if same_envelope(other, envelope) {
                    return Some(*number);
                }
            }
        }
        None
    }

    /// The number of a message. Refused with `Memory` alone.
    pub fn number(&mut self, alloc: Global, envelope: &Envelope) -> Result<usize, Stop> {
        if let Some(number) = self.known(envelope) {
            return Ok(number);
        }
        let number = self.all.len();
        self.all.push(envelope.copied()?)?;
        self.note(alloc, envelope.time.get(), number)?;
        Ok(number)
    }

    // A message of this time has this number.
    fn note(&mut self, alloc: Global, time: u64, number: usize) -> Result<(), Stop> {
        if let Some(numbers) = self.by_time.get_mut(&time) {
            numbers.push(number)?;
            return Ok(());
        }
        let mut numbers = Vec::new(alloc);
        numbers.push(number)?;
        self.by_time.insert(time, numbers)?;
        Ok(())
    }

    /// Whom the message of this number is for.
    pub fn to(&self, number: usize) -> Option<usize> {
        let envelope = self.all.get(number)?;
        Some(usize::from(envelope.to.get()))
    }
}
