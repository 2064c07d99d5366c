//! What was told, by value: each list of lines has a number.

use crate::stop::Stop;
use std::alloc::Global;

/// A list of lines: one more line after another list.
#[derive(Drop)]
struct More {
    /// The line, by its number, and the list with it, by its number.
    next: Vec<(usize, usize)>,
}

/// Lines and lists of lines that were ever told, each once. The list without a line has the number 0.
#[derive(Drop)]
pub(crate) struct Told {
    lines: Vec<Vec<u8>>,
    lists: Vec<More>,
}

impl Told {
    /// The list without a line. Refused with `Memory` alone.
    pub fn new(alloc: Global) -> Result<Told, Stop> {
        let mut lists = Vec::new(alloc);
        lists.push(More {
            next: Vec::new(alloc),
        })?;
        Ok(Told {
            lines: Vec::new(alloc),
            lists,
        })
    }

    /// The number of a line. Refused with `Memory` alone.
    pub fn line(&mut self, text: Vec<u8>) -> Result<usize, Stop> {
        for (number, line) in self.lines.as_slice().iter().enumerate() {
            if line.as_slice() == text.as_slice() {
                return Ok(number);
            }
        }
        let number = self.lines.len();
        self.lines.push(text)?;
        Ok(number)
    }

    // The list with one more line, if it is there.
    fn known(&self, list: usize, line: usize) -> Option<usize> {
        for (other, with) in self.lists.get(list)?.next.as_slice() {
            if *other == line {
                return Some(*with);
            }
        }
        None
    }

    /// The list with one more line. Refused with `Memory` alone.
    pub fn with(&mut self, alloc: Global, list: usize, line: usize) -> Result<usize, Stop> {
        if let Some(number) = self.known(list, line) {
            return Ok(number);
        }
        let number = self.lists.len();
        self.lists.push(More {
            next: Vec::new(alloc),
        })?;
        if let Some(more) = self.lists.get_mut(list) {
            more.next.push((line, number))?;
        }
        Ok(number)
    }

    /// How many lists there are.
    pub fn count(&self) -> usize {
        self.lists.len()
    }
}
