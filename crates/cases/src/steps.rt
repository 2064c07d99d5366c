//! Steps of a subject, and what is seen after them.
use logical_time::Fault;
use std::alloc::Global;
use std::fs;

/// What goes through steps.
pub(crate) trait Subject {
    /// Does a step, given by its words, and adds what is seen after it.
    fn step(&mut self, alloc: Global, words: &[&str], seen: &mut String) -> Result<(), Fault>;
}

/// What is seen after a step.
fn seen<S: Subject>(alloc: Global, subject: &mut S, step: &str) -> Result<String, Fault> {
    let words: Vec<&str> = step.split(' ').collect(alloc)?;
    let mut seen = String::new(alloc);
    subject.step(alloc, &words, &mut seen)?;
    Ok(seen)
}

fn tell_step(rt: &HostRuntime, step: &str, seen: &str) -> Result<(), Fault> {
    let told = if seen.is_empty() {
        println!(rt; "{step}")
    } else {
        println!(rt; "{step} => {seen}")
    };
    match told {
        Ok(()) => Ok(()),
        Err(_) => Err(Fault::WriteFailed),
    }
}

/// Tells the steps of the file, and after each what is seen.
pub(crate) fn tell<S: Subject>(rt: &HostRuntime, file: &str, subject: &mut S) -> Result<(), Fault> {
    let Ok(text) = fs::read_to_string(rt, file) else {
        return Err(Fault::ReadFailed);
    };
    tell_step(rt, file, "")?;
    for step in text.lines() {
        let seen = seen(rt.alloc(), subject, step)?;
        tell_step(rt, step, seen.as_str())?;
    }
    Ok(())
}
