//! How far a start is.

/// Who is told how far it is.
pub trait Progress {
    /// So many entries of so many have happened again.
    fn came(&mut self, done: usize, all: usize);
}

/// Nobody is told.
#[derive(Clone, Copy)]
pub struct Untold;

impl Progress for Untold {
    fn came(&mut self, _done: usize, _all: usize) {}
}
