//! What sites sent each other and isn't there yet, as bytes.
use logical_time::Fault;
use std::alloc::Global;
use std::mem;

/// What the site of one data centre sent to that of another.
#[derive(Drop)]
struct Parcel {
    from: u16,
    to: u16,
    bytes: Vec<u8>,
}

/// How parcels come.
#[derive(Clone, Copy)]
pub(crate) enum How {
    /// In order.
    Forward,
    /// The last one first.
    Backward,
    /// In order, and then again, the last one first.
    Twice,
    /// Not at all.
    Never,
}

impl How {
    /// The way with this name.
    pub(crate) fn named(word: &str) -> Result<How, Fault> {
        match word {
            "forward" => Ok(How::Forward),
            "backward" => Ok(How::Backward),
            "twice" => Ok(How::Twice),
            "never" => Ok(How::Never),
            _ => Err(Fault::Script),
        }
    }
}

/// Parcels, in the order of sending.
#[derive(Drop)]
pub(crate) struct Mail {
    parcels: Vec<Parcel>,
}

impl Mail {
    /// Nothing was sent.
    pub(crate) fn new(alloc: Global) -> Mail {
        Mail {
            parcels: Vec::new(alloc),
        }
    }

    /// A parcel is sent.
    pub(crate) fn post(&mut self, from: u16, to: u16, bytes: Vec<u8>) -> Result<(), Fault> {
        self.parcels.push(Parcel { from, to, bytes })?;
        Ok(())
    }

    /// Takes out all that was sent from the one to the other, in order.
    pub(crate) fn take(
        &mut self,
        alloc: Global,
        from: u16,
        to: u16,
    ) -> Result<Vec<Vec<u8>>, Fault> {
        let mut taken = Vec::new(alloc);
        let mut left = Vec::new(alloc);
        for parcel in mem::replace(&mut self.parcels, Vec::new(alloc)) {
            if parcel.from == from && parcel.to == to {
                taken.push(parcel.bytes)?;
            } else {
                left.push(parcel)?;
            }
        }
        self.parcels = left;
        Ok(taken)
    }
}
