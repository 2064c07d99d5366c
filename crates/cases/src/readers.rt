//! Readers and writers that fail.
ghost use Rattle.std.specs.Prelude.{[]};

use crate::scripts::run;
use crate::showing::text_of;
use program::{Buffered, Input, Output};
use std::io;
use std::io::{Read, Write};
use std::thread::Threads;
use workload::perform;

/// A script whose transcript has 17 bytes.
const SCRIPT: &[u8] =
    br#"{"dcs":1,"shards":1,"families":["f"],"homes":[0],"events":[["submit",0,{"batch":[]}]]}"#;

/// At which of their calls a writer and one for errors fail; 0 is never.
const FAILURES: [(usize, usize); 9] = [
    (0, 1),
    (1, 0),
    (2, 0),
    (3, 0),
    (4, 0),
    (5, 0),
    (1, 1),
    (1, 3),
    (1, 8),
];

/// Reads nothing.
#[derive(Drop)]
struct Failing;

impl Read for Failing {
    fn read(&mut self, _buffer: &mut [u8]) -> io::Result<usize> {
        Err(io::Error::from(io::ErrorKind::BrokenPipe))
    }
}

/// Takes six bytes at a time, fails at one of its calls, and would take more after it.
#[derive(Drop)]
struct FailingOnce {
    taken: Vec<u8>,
    calls: usize,
    fails_at: usize,
}

impl FailingOnce {
    /// Counts a call.
    fn call(&mut self) -> io::Result<()> {
        self.calls = self.calls.saturating_add(1);
        if self.calls == self.fails_at {
            return Err(io::Error::from(io::ErrorKind::StorageFull));
        }
        Ok(())
    }
}

impl Write for FailingOnce {
    fn write(&mut self, bytes: &[u8]) -> io::Result<usize> {
        self.call()?;
        let some = &bytes[..bytes.len().min(6)];
        self.taken.extend_from_slice(some)?;
        Ok(some.len())
    }

    fn flush(&mut self) -> io::Result<()> {
        self.call()
    }
}

impl Buffered for FailingOnce {
    ghost held = { λ _. [] };

    fn hand_on(&mut self) -> io::Result<()> {
        self.flush()
    }
}

/// Tells how reading the script ends.
fn tell_reader<T: Threads + Sync, R: Read + Drop>(
    rt: &HostRuntime,
    threads: &T,
    kind: &str,
    opened: io::Result<R>,
) -> io::Result<()> {
    let (status, out, errors) = run(threads, rt.alloc(), false, opened)?;
    let (out, errors) = (text_of(&out), text_of(&errors));
    print!(rt; "{kind}: {status}\n{out}{errors}")
}

/// Tells what writers get that fail at these calls.
fn tell_writers<T: Threads + Sync>(
    rt: &HostRuntime,
    threads: &T,
    out_fails: usize,
    errors_fail: usize,
) -> io::Result<()> {
    let alloc = rt.alloc();
    let failing = |fails_at: usize| FailingOnce {
        taken: Vec::new(alloc),
        calls: 0,
        fails_at,
    };
    let mut input = Input::new(String::from_str(alloc, "script.json")?, Ok(SCRIPT));
    let mut output = Output::new(failing(out_fails));
    let mut errors = Output::new(failing(errors_fail));
    let status = perform(threads, alloc, false, &mut input, &mut output, &mut errors);
    let (out, told) = (text_of(&output.writer.taken), text_of(&errors.writer.taken));
    println!(rt; "fails at {out_fails} and {errors_fail}: {status} {out:?} {told:?}")
}

pub(crate) fn tell<T: Threads + Sync>(rt: &HostRuntime, threads: &T) -> io::Result<()> {
    tell_reader(rt, threads, "a whole script", Ok(SCRIPT))?;
    tell_reader(rt, threads, "a failing reader", Ok(SCRIPT.chain(Failing)))?;
    let missing = io::Error::from(io::ErrorKind::NotFound);
    tell_reader::<T, &[u8]>(rt, threads, "a missing file", Err(missing))?;
    let mangled: &[u8] = b"{\"dcs\":\"\xff\"}";
    tell_reader(rt, threads, "no text", Ok(mangled))?;
    for (out_fails, errors_fail) in FAILURES {
        tell_writers(rt, threads, out_fails, errors_fail)?;
    }
    Ok(())
}
