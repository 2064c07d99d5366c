//! Why a node doesn't start, as people are told.
use logical_time::Fault;
use program::{Buffered, Output};
use std::alloc::{AllocError, Global};

/// Tells what is wrong with something, as far as the output takes it.
pub(crate) fn tell_why<E: Buffered>(
    alloc: Global,
    what: &str,
    why: Result<String, AllocError>,
    errors: &mut Output<E>,
) {
    if let Ok(why) = why
        && let Ok(line) = format!(in alloc; "eiger: {what}: {why}\n")
    {
        let _untold = errors.write_all(line.as_bytes());
    }
}

/// The same fault, after it was told, where it is `Script`, that something isn't what it should be.
pub(crate) fn told_wrong<E: Buffered>(
    alloc: Global,
    what: &str,
    wrong: &str,
    fault: Fault,
    errors: &mut Output<E>,
) -> Fault {
    if fault == Fault::Script {
        tell_why(alloc, what, String::from_str(alloc, wrong), errors);
    }
    fault
}

/// The same fault, after it was told, where it is `ReadFailed`, that nobody can be listened to at an address.
pub(crate) fn told_deaf<E: Buffered>(
    alloc: Global,
    address: &str,
    whom: &str,
    fault: Fault,
    errors: &mut Output<E>,
) -> Fault {
    if fault == Fault::ReadFailed {
        let why = format!(in alloc;
            "can't listen there for {whom}: another process does, or the address isn't this machine's"
        );
        tell_why(alloc, address, why, errors);
    }
    fault
}

/// Tells that a file of so many sites has none of this number.
pub(crate) fn tell_homeless<E: Buffered>(
    alloc: Global,
    name: &str,
    sites: usize,
    dc: u16,
    errors: &mut Output<E>,
) {
    let why = format!(in alloc;
        "it has {sites} data centres, from 0 on, and so no data centre {dc}"
    );
    tell_why(alloc, name, why, errors);
}

/// Tells the line of a fault with which nothing but a node ends.
pub(crate) fn tell_own_fault<E: Buffered>(fault: Fault, errors: &mut Output<E>) {
    if fault == Fault::UnknownHome {
        let _untold = errors.write_all(b"eiger: fault 27 UnknownHome\n");
    }
}
