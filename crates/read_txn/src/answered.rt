//! Reads that are complete.
use logical_time::{Time, Writer};
use slice::Answer;
use std::marker::Model;

/// What a read transaction came to.
#[derive(Drop)]
pub struct Answered {
    /// The effective time: that of the table which the answer shows.
    pub effective: Time,
    /// Each asked key with its slice.
    pub answer: Answer,
    /// The transactions that the rows taken rest on, row after row, repeats included.
    pub writers: Vec<Writer>,
}

impl Model for Answered {
    ghost use Rattle.read_txn.specs.States.{Completed};

    ghost Value = { Completed };

    ghost view = { λ a. record { effective = a.effective; answer = a.answer; writers = a.writers.items } };
}
